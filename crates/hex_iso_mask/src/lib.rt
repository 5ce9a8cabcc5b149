// hex.rs: `ISO_EDGE` and the start of `iso_surface`, which edges of a cube the surface of value zero cuts.
#![tactic(auto)]

ghost use Rattle.std.specs.Prelude.{◌≡◌, ◌<◌};
ghost use Rattle.answer.specs.Told.{told};
ghost use Rattle.hex_iso_mask.specs.Cut.{sign_index, mask_of, iso_mask, iso_cut};

use answer::Refusal;

// Of a cube `cubeindex` and its entry `e0`.
#[derive(Clone, Copy, PartialEq)]
pub struct IsoCut {
    pub index: u32,
    pub mask: u32,
}

// An entry of `ISO_EDGE`, worked out from the two ends of each edge.
fn cut_edges(cubeindex: u32) -> u32
    requires { cubeindex < 256 }
    ensures { result ≡ mask_of cubeindex }
{
    // edges 0, 1 and 2 compare corners 0 and 1, 1 and 2, 2 and 3; edges 4, 5 and 6 compare corners 4 and 5, 5 and 6, 6 and 7
    let next = (cubeindex >> 1) & 0x77;
    // edge 3 compares corners 3 and 0; edge 7 compares corners 7 and 4
    let first = (cubeindex & 0x11) << 3;
    let around = cubeindex ^ (next | first);
    // edges 8 to 11 compare corners 0 and 4, 1 and 5, 2 and 6, 3 and 7
    let upright = (cubeindex ^ (cubeindex >> 4)) & 0xf;
    around | (upright << 8)
}

// An entry of `ISO_EDGE`, or why there is none.
pub fn iso_mask(index: u32) -> Result<u32, Refusal>
    ensures { told result ≡ iso_mask index }
{
    if 255 < index {
        return Err(Refusal::Range);
    }
    Ok(cut_edges(index))
}

// Bit k is set where the value of corner k is below zero.
#[tactic(auto, using(numbers::proofs::Bits::with_bits_below), unfolding(crate::specs::Cut::sign_index))]
fn cube_index(corner_value: [f64; 8]) -> u32
    ensures value { result ≡ sign_index corner_value }
    ensures byte { result < 256 }
{
    let mut cubeindex = 0u32;
    for (i_node_hex, &value) in corner_value.iter().enumerate() {
        if value < 0.0 {
            cubeindex |= 1 << i_node_hex;
        }
    }
    cubeindex
}

// The first two steps of `iso_surface`: the sign index of the corner values, and its mask.
pub fn iso_cut(corner_value: [f64; 8]) -> IsoCut
    ensures { result ≡ iso_cut corner_value }
{
    let index = cube_index(corner_value);
    IsoCut {
        index,
        mask: cut_edges(index),
    }
}
