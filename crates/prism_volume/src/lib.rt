// prism.rs: the volume of a prism, by points that the caller lends, flat: line points of two floats (a place from -1 to 1, a weight),
// triangle points of three (two coordinates, a weight).
#![tactic(auto)]

ghost use Rattle.std.specs.Prelude.{◌≡◌, length};
ghost use Rattle.answer.specs.Told.{told};
ghost use Rattle.quadrature.specs.Points.{point};
ghost use Rattle.prism_volume.specs.Volume.{term_of, sum_over, volume_answer};

use answer::Refusal;

// What a line point and a triangle point add to the volume.
#[tactic(auto, unfolding(crate::specs::Volume::term_of))]
fn term(p: [f64; 18], line: [f64; 2], triangle: [f64; 3]) -> f64
    ensures { result ≡ term_of p line triangle }
{
    let one = 1.0;
    let half = one / (one + one);
    let pco = [triangle[0], triangle[1], (line[0] + one) * half];
    let w = line[1] * triangle[2];
    let mut dxdr = [0.0; 9];
    prism_image::dxdr_into(&p, pco, &mut dxdr);
    let detjac = mat3_col_major::determinant_at(&dxdr);
    detjac * w
}

// The sum over the line points and the triangle points.
fn sum_of_terms(p: [f64; 18], quad_l: &[[f64; 2]], quad_t: &[[f64; 3]]) -> f64
    ensures { result ≡ sum_over (length quad_l.now) (length quad_t.now) (λ i j. term_of p (point quad_l.now i) (point quad_t.now j)) }
{
    let mut volume = 0.0;
    for line in quad_l {
        for triangle in quad_t {
            volume = volume + term(p, *line, *triangle);
        }
    }
    volume
}

#[tactic(auto, using(crate::proofs::Measured::measured))]
pub fn volume(p: [f64; 18], quad_l: &[f64], quad_t: &[f64]) -> Result<f64, Refusal>
    ensures { told result ≡ volume_answer p quad_l.now quad_t.now }
{
    let quad_l = quadrature::whole::<2>(quad_l)?;
    let quad_t = quadrature::whole::<3>(quad_t)?;
    quadrature::one_to_16(quad_l)?;
    quadrature::one_to_16(quad_t)?;
    let one = 1.0;
    let half = one / (one + one);
    let one4th = half * half;
    let volume = sum_of_terms(p, quad_l, quad_t);
    Ok(volume * one4th)
}
