// hex.rs: the slopes of the shape functions in space at a quadrature point, with its weight.
#![tactic(auto)]

ghost use Rattle.std.specs.Prelude.{◌≡◌, List, Float};
ghost use Rattle.answer.specs.Answer.{Leaves, answered, and_then, number_of};
ghost use Rattle.answer.specs.Told.{told};
ghost use Rattle.hex_weighted_gradient.specs.Weighted.{of_points, weighted_gradient};

use answer::Refusal;

// The points of three numbers.
#[tactic(auto, using(crate::proofs::Chosen::chosen))]
fn points_at(
    quadrature: &[f64],
    ir1: usize,
    ir2: usize,
    ir3: usize,
) -> Result<[[f64; 2]; 3], Refusal>
    ensures { (p : List Float) → weighted_gradient p quadrature.now ir1 ir2 ir3 ≡ and_then (told result) (λ points. answered (of_points p points)) }
{
    let points = quadrature::whole::<2>(quadrature)?;
    quadrature::one_to_16(points)?;
    let a = quadrature::point(points, ir1)?;
    let b = quadrature::point(points, ir2)?;
    let c = quadrature::point(points, ir3)?;
    Ok([a, b, c])
}

// The gradient at three points: the slopes go to `dndx`, and the weighted determinant is returned.
fn grad_at_points(node2xyz: &[f64; 24], points: [[f64; 2]; 3], dndx: &mut [f64; 24]) -> f64
    ensures { (dndx.new, result) ≡ of_points node2xyz.now points }
{
    let [a, b, c] = points;
    let detjac = hex_gradient::slopes_at(node2xyz, [a[0], b[0], c[0]], dndx);
    detjac * a[1] * b[1] * c[1]
}

// The gradient at three points of a list, of corners that are lent, into `dndx` and `detwei`: the C interface lends its buffers, and has no copy to make.
pub fn weighted_gradient(
    node2xyz: &[f64; 24],
    quadrature: &[f64],
    ir1: usize,
    ir2: usize,
    ir3: usize,
    dndx: &mut [f64; 24],
    detwei: &mut f64,
) -> Result<(), Refusal>
    ensures { Leaves (weighted_gradient node2xyz.now quadrature.now ir1 ir2 ir3) (number_of (told result))
        (dndx.old, detwei.old) (dndx.new, detwei.new) }
{
    let points = points_at(quadrature, ir1, ir2, ir3)?;
    *detwei = grad_at_points(node2xyz, points, dndx);
    Ok(())
}

pub fn grad_shapefunc(
    node2xyz: [f64; 24],
    quadrature: &[f64],
    ir1: usize,
    ir2: usize,
    ir3: usize,
) -> Result<([f64; 24], f64), Refusal>
    ensures { told result ≡ weighted_gradient node2xyz quadrature.now ir1 ir2 ir3 }
{
    let points = points_at(quadrature, ir1, ir2, ir3)?;
    let mut dndx = [0.0; 24];
    let detwei = grad_at_points(&node2xyz, points, &mut dndx);
    Ok((dndx, detwei))
}
