// hex.rs: the volume of a hexahedron, by points that the caller lends.
#![tactic(auto)]

ghost use Rattle.std.specs.Prelude.{◌≡◌, length};
ghost use Rattle.answer.specs.Told.{told};
ghost use Rattle.binary64.specs.Binary64.{◌⊗◌};
ghost use Rattle.mat3_col_major.specs.Mat3.{det};
ghost use Rattle.quadrature.specs.Points.{point};
ghost use Rattle.hex_image.specs.Image.{jacobian_at};
ghost use Rattle.hex_volume.specs.Volume.{term_of, sum_over, volume};

use answer::Refusal;

// What a place adds to the volume by its weight.
fn term(p: [f64; 24], pco: [f64; 3], w: f64) -> f64
    ensures { result ≡ det (jacobian_at p pco) ⊗ w }
{
    let mut dxdr = [0.0; 9];
    hex_image::dxdr_into(&p, pco, &mut dxdr);
    let detjac = mat3_col_major::determinant_at(&dxdr);
    detjac * w
}

// The sum over the points on each axis.
fn sum_of_terms(p: [f64; 24], points: &[[f64; 2]]) -> f64
    ensures { result ≡ sum_over (length points.now) (λ i j k. term_of p (point points.now i) (point points.now j) (point points.now k)) }
{
    let mut sum = 0.0;
    for a in points {
        for b in points {
            for c in points {
                sum = sum + term(p, [a[0], b[0], c[0]], a[1] * b[1] * c[1]);
            }
        }
    }
    sum
}

#[tactic(auto, using(crate::proofs::Measured::measured))]
pub fn volume(p: [f64; 24], quadrature: &[f64]) -> Result<f64, Refusal>
    ensures { told result ≡ volume p quadrature.now }
{
    let points = quadrature::whole::<2>(quadrature)?;
    quadrature::one_to_16(points)?;
    Ok(sum_of_terms(p, points))
}
