// hex.rs: `iso_position_on_edge`, where the surface of value zero cuts the line between two corners of a cube.
#![tactic(auto)]

ghost use Rattle.std.specs.Prelude.{◌≡◌, ◌<◌, ◌==◌, if◌then◌else◌};
ghost use Rattle.numbers.specs.Rule.{tabulate};
ghost use Rattle.binary64.specs.Binary64.{f1, m1};
ghost use Rattle.answer.specs.Told.{told};
ghost use Rattle.hex_iso_position.specs.Position.{sign, node_on, position_on, iso_position};

use answer::Refusal;
use std::array::from_fn;

// A cube in space.
#[derive(Clone, Copy)]
pub struct Cube {
    pub center: [f64; 3],
    pub half_width: f64,
}

// An end of a line: the sign of a corner, and the value there.
#[derive(Clone, Copy)]
pub struct End {
    pub sign: [f64; 3],
    pub value: f64,
}

// The two signs.
const LOWER: f64 = -1.;

const UPPER: f64 = 1.;

// An axis of a corner's sign, by whether it has a certain bit.
fn side(bit: usize) -> f64
    ensures { result ≡ (if bit == 0 then m1 else f1) }
{
    if bit == 0 { LOWER } else { UPPER }
}

// `HEX_SIGN[i_node]` by the number's bits, so that no table is laid out.
fn sign_of(i_node: usize) -> [f64; 3]
    requires { i_node < 8 }
    ensures { result ≡ sign i_node }
{
    [side((i_node + 1) & 2), side(i_node & 2), side(i_node & 4)]
}

impl Cube {
    // `HEX_SIGN[i_node].scale(hw).add(&cent)`
    fn node(self, sign: [f64; 3]) -> [f64; 3]
        ensures { result ≡ tabulate 3 (node_on self.center self.half_width sign) }
    {
        from_fn(|i| sign[i] * self.half_width + self.center[i])
    }

    // The position between two corners.
    pub fn position(self, end0: End, end1: End) -> [f64; 3]
        ensures { result
            ≡ tabulate 3 (position_on self.center self.half_width end0.sign end1.sign end0.value end1.value) }
    {
        let p0 = self.node(end0.sign);
        let p1 = self.node(end1.sign);
        let denom = end1.value - end0.value;
        let r0 = end1.value / denom;
        let r1 = -end0.value / denom;
        from_fn(|i| p0[i] * r0 + p1[i] * r1)
    }
}

pub fn iso_position_on_edge(
    center: [f64; 3],
    half_width: f64,
    i0_node: usize,
    i1_node: usize,
    val0: f64,
    val1: f64,
) -> Result<[f64; 3], Refusal>
    ensures { told result ≡ iso_position center half_width i0_node i1_node val0 val1 }
{
    if 7 < i0_node {
        return Err(Refusal::Range);
    }
    if 7 < i1_node {
        return Err(Refusal::Range);
    }
    let cube = Cube { center, half_width };
    let end0 = End {
        sign: sign_of(i0_node),
        value: val0,
    };
    let end1 = End {
        sign: sign_of(i1_node),
        value: val1,
    };
    Ok(cube.position(end0, end1))
}
