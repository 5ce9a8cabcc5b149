// Where the corners of a hexahedron's descendants stand, in whole numbers.
#![tactic(auto)]

ghost use Rattle.std.specs.Prelude.{◌≡◌, ◌<◌, ◌≤◌, true, length};
ghost use Rattle.answer.specs.Told.{told};
ghost use Rattle.descendant.specs.Place.{sign, place, octants, descended};

use answer::Refusal;

// `hexahedron::HEX_SIGN[k][i]` in whole numbers, by the number's bits, so that no table is laid out. Each axis has a bit, but a ring goes round: its corners
// are on the upper side of the first axis where the two lowest bits differ.
fn sign(k: u32, i: usize) -> i32
    requires { (k < 8) × (i < 3) }
    ensures { result ≡ sign k i }
{
    let sides = k ^ ((k >> 1) & 1);
    if (sides >> i) & 1 == 0 { -1 } else { 1 }
}

// The place on axis i, in units of 2^-d where the path has d octants: the first octant's share, and the place along the rest of the path, one level less.
fn along(path: &[u32], corner: u32, i: usize) -> i32
    requires { (length path.now ≤ 20) × (octants path.now ≡ true) × (corner < 8) × (i < 3) }
    ensures { result ≡ place path.now corner i }
{
    match path {
        [] => sign(corner, i),
        [first, rest @ ..] => sign(*first, i) * (1 << rest.len()) + along(rest, corner, i),
    }
}

// Whether every number of the path is an octant's.
fn octants(path: &[u32]) -> bool
    ensures { result ≡ octants path.now }
{
    path.iter().all(|o| *o < 8)
}

// The corner's place in the descendant that the path leads to, on the three axes.
#[tactic(auto, using(crate::proofs::Places::read_back), unfolding(crate::specs::Place::descended))]
pub fn descendant(path: &[u32], corner: u32) -> Result<[i32; 3], Refusal>
    ensures { told result ≡ descended path.now corner }
{
    if path.len() > 20 {
        return Err(Refusal::Limit);
    }
    if !octants(path) || corner >= 8 {
        return Err(Refusal::Range);
    }
    Ok([
        along(path, corner, 0),
        along(path, corner, 1),
        along(path, corner, 2),
    ])
}
