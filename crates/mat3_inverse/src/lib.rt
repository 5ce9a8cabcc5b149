// mat3_col_major.rs: the inverse of a 3 by 3 matrix of f64, column by column.
#![tactic(auto)]

ghost use Rattle.std.specs.Prelude.{◌≡◌, ◌<◌};
ghost use Rattle.binary64.specs.Binary64.{◌⊖◌, ◌⊗◌, ◌!◌};
ghost use Rattle.answer.specs.Told.{told};
ghost use Rattle.mat3_inverse.specs.Inverse.{scaled_cofactors, inverse};

use answer::Refusal;

// Refused where the determinant is plus or minus zero.
pub fn try_inverse(b: [f64; 9]) -> Result<[f64; 9], Refusal>
    ensures { told result ≡ inverse b }
{
    let det = mat3_col_major::determinant(b);
    if det == 0.0 {
        return Err(Refusal::Flat);
    }
    let inv_det = 1.0 / det;
    Ok(scaled_cofactors(inv_det, b))
}

// A product of two entries less another.
fn minor(b: [f64; 9], i: usize, j: usize, k: usize, l: usize) -> f64
    requires { (i < 9) × (j < 9) × (k < 9) × (l < 9) }
    ensures { result ≡ b ! i ⊗ b ! j ⊖ b ! k ⊗ b ! l }
{
    b[i] * b[j] - b[k] * b[l]
}

// The nine entries of the inverse, for `inv_det` one over the determinant.
pub fn scaled_cofactors(inv_det: f64, b: [f64; 9]) -> [f64; 9]
    ensures { result ≡ scaled_cofactors inv_det b }
{
    [
        inv_det * minor(b, 4, 8, 5, 7),
        inv_det * minor(b, 2, 7, 1, 8),
        inv_det * minor(b, 1, 5, 2, 4),
        inv_det * minor(b, 5, 6, 3, 8),
        inv_det * minor(b, 0, 8, 2, 6),
        inv_det * minor(b, 2, 3, 0, 5),
        inv_det * minor(b, 3, 7, 4, 6),
        inv_det * minor(b, 1, 6, 0, 7),
        inv_det * minor(b, 0, 4, 1, 3),
    ]
}
