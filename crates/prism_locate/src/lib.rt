// prism.rs: where the origin lies in a prism, by twenty Newton steps.
#![tactic(auto)]

ghost use Rattle.std.specs.Prelude.{◌≡◌};
ghost use Rattle.cell.specs.Newton.{told};
ghost use Rattle.prism_image.specs.Image.{image_at, jacobian_at};
ghost use Rattle.prism_locate.specs.Locate.{start, inside, located};

use cell::{Cell, Located};

// Corners 0, 1, 2 are the bottom triangle, 3, 4, 5 the top.
#[derive(Clone, Copy)]
struct Prism<'a> {
    corners: &'a [f64; 18],
}

impl<'a> Cell for Prism<'a> {
    ghost image_at = { λ cell q. image_at cell.corners.now q };

    ghost jacobian_at = { λ cell q. jacobian_at cell.corners.now q };

    ghost first = { start };

    ghost holds = { inside };

    fn image(&self, pco: [f64; 3]) -> [f64; 3] {
        prism_image::image_of(self.corners, pco)
    }

    fn jacobian(&self, pco: [f64; 3]) -> [f64; 9] {
        prism_image::newton_jacobian(self.corners, pco)
    }

    // (1/3, 1/3, 1/2)
    fn start() -> [f64; 3]
        ensures { result ≡ start }
    {
        let one = 1.0;
        let third = one / (one + one + one);
        let half = one / (one + one);
        [third, third, half]
    }

    // Valid domain: r >= 0, s >= 0, r + s <= 1, t in [0,1].
    fn inside(pco: [f64; 3]) -> bool
        ensures { result ≡ inside pco }
    {
        let zero = 0.0;
        let one = 1.0;
        let r = pco[0];
        let s = pco[1];
        let t = pco[2];
        (r >= zero) & (s >= zero) & (r + s <= one) & (t >= zero) & (t <= one)
    }
}

// Twenty steps and the inside test, of corners that are lent, as C lends them; the source has them by value.
#[tactic(auto, unfolding(crate::specs::Locate::located, crate::specs::Locate::step))]
pub fn newton(p: &[f64; 18]) -> Located
    ensures { told result ≡ located p.now }
{
    cell::newton(&Prism { corners: p }, 20)
}

// Returns parametric coordinates (r,s,t) of the origin inside the prism.
pub fn parametric_coord_for_origin(p: [f64; 18]) -> Located
    ensures { told result ≡ located p }
{
    newton(&p)
}
