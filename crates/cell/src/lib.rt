// What the two cells share: a point, the image and the Jacobian over any number of corners, and Newton's search for the place of the origin.
#![tactic(auto)]

ghost use Rattle.std.specs.Prelude.{◌≡◌, ◌<◌, Bool, List, Float};
ghost use Rattle.numbers.specs.Rule.{tabulate};
ghost use Rattle.binary64.specs.Binary64.{◌⊗◌, ◌!◌};
ghost use Rattle.answer.specs.Told.{told as answer_told};
ghost use Rattle.cell.specs.Image.{corner, image_on, image, jacobian_on, jacobian, row_by_row, with_row};
ghost use Rattle.cell.specs.Newton.{step_by, step_from, newton, told};

use answer::Refusal;

// A place in a cell, or a point in space.
#[repr(C)]
#[derive(Clone, Copy, PartialEq)]
pub struct Point {
    pub x: f64,
    pub y: f64,
    pub z: f64,
}

// Three rows of three floats, one behind another.
pub fn rows(x: [f64; 3], y: [f64; 3], z: [f64; 3]) -> [f64; 9]
    ensures { result ≡ row_by_row x y z }
{
    [x[0], x[1], x[2], y[0], y[1], y[2], z[0], z[1], z[2]]
}

// Row i of a matrix that stands row by row, of three rows.
pub fn put_row(m: &mut [f64; 9], i: usize, row: [f64; 3])
    ensures { m.new ≡ with_row m.old i row }
{
    if i < 3 {
        let at = 3 * i;
        m[at] = row[0];
        m[at + 1] = row[1];
        m[at + 2] = row[2];
    }
}

// Float k of a list. Beyond its end there is NaN.
fn float_at(l: &[f64], k: usize) -> f64
    ensures { result ≡ l.now ! k }
{
    if k < l.len() { l[k] } else { 0.0 / 0.0 }
}

// Axis idim of corner inode, of whatever has three floats a corner.
fn corner_at(p: &[f64], inode: usize, idim: usize) -> f64
    requires { (inode < 0x1_0000_0000) × (idim < 0x1_0000_0000) }
    ensures { result ≡ corner p.now inode idim }
{
    float_at(p, 3 * inode + idim)
}

// An entry of the Jacobian of a cell of so many corners, from the slopes.
fn jacobian_entry(corners: u32, p: &[f64], dndr: &[f64], row: u32, col: u32) -> f64
    ensures { result ≡ jacobian_on corners p.now dndr.now row col }
{
    let n = corners as usize;
    let idim = row as usize;
    let jdim = col as usize;
    let mut dxdr = 0.0;
    for inode in 0..n {
        dxdr = dxdr + corner_at(p, inode, idim) * corner_at(dndr, inode, jdim);
    }
    dxdr
}

// A row of the Jacobian.
pub fn jacobian_row(corners: u32, p: &[f64], dndr: &[f64], row: u32) -> [f64; 3]
    ensures { result ≡ tabulate 3 (jacobian_on corners p.now dndr.now row) }
{
    [
        jacobian_entry(corners, p, dndr, row, 0),
        jacobian_entry(corners, p, dndr, row, 1),
        jacobian_entry(corners, p, dndr, row, 2),
    ]
}

// The Jacobian of a cell of so many corners, row by row, from the slopes.
#[inline(always)]
pub fn jacobian(corners: u32, p: &[f64], dndr: &[f64]) -> [f64; 9]
    ensures { result ≡ jacobian corners p.now dndr.now }
{
    let x = jacobian_row(corners, p, dndr, 0);
    let y = jacobian_row(corners, p, dndr, 1);
    let z = jacobian_row(corners, p, dndr, 2);
    rows(x, y, z)
}

// The same into a lent matrix, a row after the other: the volumes and C are quicker so.
#[inline(always)]
pub fn jacobian_into(corners: u32, p: &[f64], dndr: &[f64], dxdr: &mut [f64; 9])
    ensures { dxdr.new ≡ jacobian corners p.now dndr.now }
{
    *dxdr = [0.0; 9];
    put_row(dxdr, 0, jacobian_row(corners, p, dndr, 0));
    put_row(dxdr, 1, jacobian_row(corners, p, dndr, 1));
    put_row(dxdr, 2, jacobian_row(corners, p, dndr, 2));
}

// Corner inode's part of axis idim of the image, from the shape values.
fn image_term(an: &[f64], p: &[f64], inode: usize, idim: usize) -> f64
    requires { (inode < 0x1_0000_0000) × (idim < 0x1_0000_0000) }
    ensures { result ≡ an.now ! inode ⊗ corner p.now inode idim }
{
    float_at(an, inode) * corner_at(p, inode, idim)
}

// An axis of the image in a cell of so many corners, from the shape values.
pub fn image_entry(corners: u32, an: &[f64], p: &[f64], axis: u32) -> f64
    ensures { result ≡ image_on corners an.now p.now axis }
{
    if corners == 0 {
        return 0.0;
    }
    let n = corners as usize;
    let idim = axis as usize;
    let mut pos = image_term(an, p, 0, idim);
    for inode in 1..n {
        pos = pos + image_term(an, p, inode, idim);
    }
    pos
}

// The image in a cell of so many corners, from the shape values.
#[inline(always)]
pub fn image(corners: u32, an: &[f64], p: &[f64]) -> [f64; 3]
    ensures { result ≡ image corners an.now p.now }
{
    // z first: with x before it the check takes a thirtieth longer
    let z = image_entry(corners, an, p, 2);
    let x = image_entry(corners, an, p, 0);
    let y = image_entry(corners, an, p, 1);
    [x, y, z]
}

// Where the origin lies in a cell. None of the three is an error: the probe is inside, or elsewhere, or the cell is flat where the search went.
#[derive(Clone, Copy, PartialEq)]
pub enum Located {
    Inside([f64; 3]),
    Flat,
    Outside,
}

impl Located {
    // The place, or why there is none.
    pub fn place(self) -> Result<[f64; 3], Refusal>
        ensures { answer_told result ≡ told self }
    {
        match self {
            Located::Inside(pco) => Ok(pco),
            Located::Flat => Err(Refusal::Flat),
            Located::Outside => Err(Refusal::Outside),
        }
    }
}

// A cell in which Newton looks for the place of the origin: the image of each place and the Jacobian there, the place to start from, and which places
// are inside.
pub trait Cell {
    ghost image_at: { Self → List Float → List Float };

    ghost jacobian_at: { Self → List Float → List Float };

    ghost first: { List Float };

    ghost holds: { List Float → Bool };

    fn image(&self, pco: [f64; 3]) -> [f64; 3]
        ensures { result ≡ image_at self.now pco };

    // The Jacobian, row by row.
    fn jacobian(&self, pco: [f64; 3]) -> [f64; 9]
        ensures { result ≡ jacobian_at self.now pco };

    fn start() -> [f64; 3]
        ensures { result ≡ first };

    fn inside(pco: [f64; 3]) -> bool
        ensures { result ≡ holds pco };
}

// One Newton step from a place with this image, by the inverse of its Jacobian.
#[inline(always)]
pub fn newton_step(
    pco: [f64; 3],
    image: [f64; 3],
    inverse: Result<[f64; 9], Refusal>,
) -> Result<[f64; 3], Refusal>
    ensures { answer_told result ≡ step_by pco image (answer_told inverse) }
{
    let by = mat3_col_major::mult_vec(inverse?, image);
    Ok([pco[0] - by[0], pco[1] - by[1], pco[2] - by[2]])
}

// The next place, unless the determinant is zero.
#[tactic(auto, unfolding(crate::specs::Newton::step_from))]
fn step<C: Cell>(cell: &C, pco: [f64; 3]) -> Result<[f64; 3], Refusal>
    ensures { answer_told result ≡ step_from pco (C.image_at cell.now pco) (C.jacobian_at cell.now pco) }
{
    let pos = cell.image(pco);
    let jac = cell.jacobian(pco);
    let jac_col = mat3_col_major::transpose(jac);
    newton_step(pco, pos, mat3_inverse::try_inverse(jac_col))
}

// So many Newton steps, and then the inside test.
pub fn newton<C: Cell>(cell: &C, steps: usize) -> Located
    ensures { told result ≡ newton steps (λ q. step_from q (C.image_at cell.now q) (C.jacobian_at cell.now q)) C.first C.holds }
{
    let mut pco = C::start();
    for _ in 0..steps {
        match step(cell, pco) {
            Ok(next) => pco = next,
            Err(_) => return Located::Flat,
        }
    }
    if C::inside(pco) {
        Located::Inside(pco)
    } else {
        Located::Outside
    }
}
