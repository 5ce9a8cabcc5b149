// mat3_col_major.rs: 3 by 3 matrices of f64, column by column. The inverse is the room mat3_inverse.
#![tactic(auto)]

ghost use Rattle.std.specs.Prelude.{◌≡◌, ◌+◌, ◌<◌};
ghost use Rattle.binary64.specs.Binary64.{◌⊕◌, ◌⊗◌, ◌!◌};
ghost use Rattle.mat3_col_major.specs.Mat3.{transposed, product, det};

// Row i of the product.
fn mult_row(a: [f64; 9], b: [f64; 3], i: usize) -> f64
    requires { i < 3 }
    ensures { result ≡ a ! i ⊗ b ! 0 ⊕ a ! (3 + i) ⊗ b ! 1 ⊕ a ! (6 + i) ⊗ b ! 2 }
{
    a[i] * b[0] + a[3 + i] * b[1] + a[6 + i] * b[2]
}

pub fn mult_vec(a: [f64; 9], b: [f64; 3]) -> [f64; 3]
    ensures { result ≡ product a b }
{
    [mult_row(a, b, 0), mult_row(a, b, 1), mult_row(a, b, 2)]
}

pub fn transpose(m: [f64; 9]) -> [f64; 9]
    ensures { result ≡ transposed m }
{
    [m[0], m[3], m[6], m[1], m[4], m[7], m[2], m[5], m[8]]
}

pub fn determinant(b: [f64; 9]) -> f64
    ensures { result ≡ det b }
{
    determinant_at(&b)
}

// One of the six products.
fn term(b: &[f64; 9], i: usize, j: usize, k: usize) -> f64
    requires { (i < 9) × (j < 9) × (k < 9) }
    ensures { result ≡ b.now ! i ⊗ b.now ! j ⊗ b.now ! k }
{
    b[i] * b[j] * b[k]
}

// The same of a matrix that is lent: so the sums over points read it where it lies.
pub fn determinant_at(b: &[f64; 9]) -> f64
    ensures { result ≡ det b.now }
{
    term(b, 0, 4, 8) + term(b, 3, 7, 2) + term(b, 6, 1, 5)
        - term(b, 0, 7, 5)
        - term(b, 6, 4, 2)
        - term(b, 3, 1, 8)
}
