// hex.rs: the slopes of the shape functions in space.
#![tactic(auto)]

ghost use Rattle.std.specs.Prelude.{◌≡◌, [], ◌∷◌, ◌<◌};
ghost use Rattle.hex_gradient.specs.Gradient.{gradient_det, slope_in_space, slopes_in_space, gradient, shape_gradient};

// The slopes of the shape functions in space, three a corner, and the determinant of the Jacobian.
#[derive(Clone, Copy)]
pub struct Gradient {
    pub dndx: [f64; 24],
    pub detjac: f64,
}

// The shape values beside these.
#[derive(Clone, Copy)]
pub struct ShapeGradient {
    pub shape: [f64; 8],
    pub dndx: [f64; 24],
    pub detjac: f64,
}

// The determinant of the Jacobian. Its last two products come in another order than in mat3_col_major::determinant.
fn detjac(dxdr: [f64; 9]) -> f64
    ensures { result ≡ gradient_det dxdr }
{
    dxdr[0] * dxdr[4] * dxdr[8] + dxdr[3] * dxdr[7] * dxdr[2] + dxdr[6] * dxdr[1] * dxdr[5]
        - dxdr[0] * dxdr[7] * dxdr[5]
        - dxdr[3] * dxdr[1] * dxdr[8]
        - dxdr[6] * dxdr[4] * dxdr[2]
}

// The slope of shape function inode along axis idim, from drdx row by row.
fn dndx_entry(dndr: [f64; 24], drdx: [f64; 9], inode: usize, idim: usize) -> f64
    requires { (inode < 8) × (idim < 3) }
    ensures { result ≡ slope_in_space dndr drdx inode idim }
{
    dndr[3 * inode] * drdx[idim]
        + dndr[3 * inode + 1] * drdx[3 + idim]
        + dndr[3 * inode + 2] * drdx[6 + idim]
}

#[tactic(auto, unfolding(numbers::proofs::Fill::fill_row, numbers::proofs::Fill::fill_rows))]
fn dndx_from_drdx(dndr: [f64; 24], drdx: [f64; 9]) -> [f64; 24]
    ensures { result ≡ slopes_in_space dndr drdx }
{
    let mut dndx = [0.0; 24];
    // a line for each axis: by a loop over the axes the gradient takes 2.5 times as long
    for inode in 0..8 {
        dndx[3 * inode] = dndx_entry(dndr, drdx, inode, 0);
        dndx[3 * inode + 1] = dndx_entry(dndr, drdx, inode, 1);
        dndx[3 * inode + 2] = dndx_entry(dndr, drdx, inode, 2);
    }
    dndx
}

// The gradient from the slopes, of arrays that are lent: the slopes in space go to `dndx`, and the determinant is returned. The C interface
// lends its buffer, and this and `slopes_at` leave no copy to make.
#[tactic(auto, unfolding(crate::specs::Gradient::from_jacobian))]
pub fn slopes_into(node2xyz: &[f64; 24], dndr: &[f64; 24], dndx: &mut [f64; 24]) -> f64
    ensures determinant { result ≡ (gradient node2xyz.now dndr.now).detjac }
    ensures slopes { dndx.new ≡ (gradient node2xyz.now dndr.now).dndx }
{
    let dxdr = hex_image::dxdr_from_dndr(*node2xyz, *dndr);
    let detjac = detjac(dxdr);
    let inv_jac = 1.0 / detjac;
    let drdx = mat3_inverse::scaled_cofactors(inv_jac, dxdr);
    *dndx = dndx_from_drdx(*dndr, drdx);
    detjac
}

pub fn grad_shapefunc_from_dndr(node2xyz: [f64; 24], dndr: [f64; 24]) -> Gradient
    ensures { result ≡ gradient node2xyz dndr }
{
    let mut dndx = [0.0; 24];
    let detjac = slopes_into(&node2xyz, &dndr, &mut dndx);
    Gradient { dndx, detjac }
}

pub fn dndx(node2xyz: [f64; 24], r0: f64, r1: f64, r2: f64) -> ShapeGradient
    ensures { result ≡ shape_gradient node2xyz (r0 ∷ r1 ∷ r2 ∷ []) }
{
    let pco = [r0, r1, r2];
    let Gradient { dndx, detjac } = grad_shapefunc_from_dndr(node2xyz, hex_shape::dndr(pco));
    ShapeGradient {
        shape: hex_shape::shapefunc(pco),
        dndx,
        detjac,
    }
}

// The same at a place, as `slopes_into` has it from the slopes there.
pub fn slopes_at(node2xyz: &[f64; 24], pco: [f64; 3], dndx: &mut [f64; 24]) -> f64
    ensures determinant { result ≡ (shape_gradient node2xyz.now pco).detjac }
    ensures slopes { dndx.new ≡ (shape_gradient node2xyz.now pco).dndx }
{
    let dndr = hex_shape::dndr(pco);
    slopes_into(node2xyz, &dndr, dndx)
}
