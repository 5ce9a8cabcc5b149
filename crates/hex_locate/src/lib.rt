// hex.rs: where the origin lies in a hexahedron, by twenty Newton steps.
#![tactic(auto)]

ghost use Rattle.std.specs.Prelude.{◌≡◌};
ghost use Rattle.cell.specs.Newton.{told};
ghost use Rattle.hex_image.specs.Image.{image_at, jacobian_at};
ghost use Rattle.hex_locate.specs.Locate.{start, within, inside, located};

use cell::{Cell, Located};

// Corners: xyz, Xyz, XYz, xYz, xyZ, XyZ, XYZ, xYZ.
#[derive(Clone, Copy)]
struct Hexahedron<'a> {
    corners: &'a [f64; 24],
}

// Whether x lies in [-1, 1]. A NaN does not.
pub fn within_one(x: f64) -> bool
    ensures { result ≡ within x }
{
    let one = 1.0;
    (x >= -one) & (x <= one)
}

impl<'a> Cell for Hexahedron<'a> {
    ghost image_at = { λ cell q. image_at cell.corners.now q };

    ghost jacobian_at = { λ cell q. jacobian_at cell.corners.now q };

    ghost first = { start };

    ghost holds = { inside };

    fn image(&self, pco: [f64; 3]) -> [f64; 3] {
        hex_image::image_of(self.corners, pco)
    }

    fn jacobian(&self, pco: [f64; 3]) -> [f64; 9] {
        hex_image::newton_jacobian(self.corners, pco)
    }

    fn start() -> [f64; 3]
        ensures { result ≡ start }
    {
        [0.0, 0.0, 0.0]
    }

    fn inside(pco: [f64; 3]) -> bool
        ensures { result ≡ inside pco }
    {
        within_one(pco[0]) & within_one(pco[1]) & within_one(pco[2])
    }
}

// Twenty steps and the inside test, of corners that are lent, as C lends them; the source has them by value.
#[tactic(auto, unfolding(crate::specs::Locate::located, crate::specs::Locate::step))]
pub fn newton(p: &[f64; 24]) -> Located
    ensures { told result ≡ located p.now }
{
    cell::newton(&Hexahedron { corners: p }, 20)
}

pub fn parametric_coord_for_origin(p: [f64; 24]) -> Located
    ensures { told result ≡ located p }
{
    newton(&p)
}
