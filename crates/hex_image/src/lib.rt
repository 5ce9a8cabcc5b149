// hex.rs: the image of a place, and its slopes. Corners are 24 floats, corner by corner, as is whatever has three floats a corner.
#![tactic(auto)]

ghost use Rattle.std.specs.Prelude.{◌≡◌};
ghost use Rattle.cell.specs.Image.{jacobian};
ghost use Rattle.hex_image.specs.Image.{image_at, jacobian_at};

// The image of a place.
pub fn image(p: [f64; 24], pco: [f64; 3]) -> [f64; 3]
    ensures { result ≡ image_at p pco }
{
    image_of(&p, pco)
}

// The same of corners that are lent: Newton and the check read them where they lie.
#[inline(always)]
#[tactic(auto, unfolding(crate::specs::Image::image_at))]
pub fn image_of(p: &[f64; 24], pco: [f64; 3]) -> [f64; 3]
    ensures { result ≡ image_at p.now pco }
{
    cell::image(8, &hex_shape::shapefunc(pco), p)
}

// The Jacobian from the slopes, row by row.
pub fn dxdr_from_dndr(p: [f64; 24], dndr: [f64; 24]) -> [f64; 9]
    ensures { result ≡ jacobian 8 p dndr }
{
    cell::jacobian(8, &p, &dndr)
}

// The Jacobian at a place, row by row.
pub fn dxdr(p: [f64; 24], pco: [f64; 3]) -> [f64; 9]
    ensures { result ≡ jacobian_at p pco }
{
    let mut dxdr = [0.0; 9];
    dxdr_into(&p, pco, &mut dxdr);
    dxdr
}

// The same of corners that are lent, into a lent output, for the volume and C.
#[inline(always)]
#[tactic(auto, unfolding(crate::specs::Image::jacobian_at))]
pub fn dxdr_into(p: &[f64; 24], pco: [f64; 3], dxdr: &mut [f64; 9])
    ensures { dxdr.new ≡ jacobian_at p.now pco }
{
    cell::jacobian_into(8, p, &hex_shape::dndr(pco), dxdr);
}

// The same by value for the Newton step, where no place goes through memory.
#[inline(always)]
#[tactic(auto, unfolding(crate::specs::Image::jacobian_at))]
pub fn newton_jacobian(p: &[f64; 24], pco: [f64; 3]) -> [f64; 9]
    ensures { result ≡ jacobian_at p.now pco }
{
    cell::jacobian(8, p, &hex_shape::dndr(pco))
}
