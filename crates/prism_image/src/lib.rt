// prism.rs: the image of a place, and its slopes. Corners are 18 floats, corner by corner, as is whatever has three floats a corner.
#![tactic(auto)]

ghost use Rattle.std.specs.Prelude.{◌≡◌};
ghost use Rattle.prism_image.specs.Image.{image_at, jacobian_at};

// The image of a place.
pub fn image(p: [f64; 18], pco: [f64; 3]) -> [f64; 3]
    ensures { result ≡ image_at p pco }
{
    image_of(&p, pco)
}

// The same of corners that are lent: Newton reads them where they lie.
#[inline(always)]
#[tactic(auto, unfolding(crate::specs::Image::image_at))]
pub fn image_of(p: &[f64; 18], pco: [f64; 3]) -> [f64; 3]
    ensures { result ≡ image_at p.now pco }
{
    cell::image(6, &prism_shape::shapefunc(pco), p)
}

// The Jacobian at a place, row by row.
pub fn dxdr(p: [f64; 18], pco: [f64; 3]) -> [f64; 9]
    ensures { result ≡ jacobian_at p pco }
{
    let mut dxdr = [0.0; 9];
    dxdr_into(&p, pco, &mut dxdr);
    dxdr
}

// The same of corners that are lent, into a lent output, for the volume and C.
#[inline(always)]
#[tactic(auto, unfolding(crate::specs::Image::jacobian_at))]
pub fn dxdr_into(p: &[f64; 18], pco: [f64; 3], dxdr: &mut [f64; 9])
    ensures { dxdr.new ≡ jacobian_at p.now pco }
{
    cell::jacobian_into(6, p, &prism_shape::dndr(pco), dxdr);
}

// The same by value for the Newton step, where no place goes through memory.
#[inline(always)]
#[tactic(auto, unfolding(crate::specs::Image::jacobian_at))]
pub fn newton_jacobian(p: &[f64; 18], pco: [f64; 3]) -> [f64; 9]
    ensures { result ≡ jacobian_at p.now pco }
{
    cell::jacobian(6, p, &prism_shape::dndr(pco))
}
