// The whole number that a word of a node holds. A NaN's pattern is a word like any other, and is refused by its bits.
#![tactic(auto)]

ghost use Rattle.std.specs.Prelude.{◌≡◌};
ghost use Rattle.std.specs.Float.Ieee.{of_bits};
ghost use Rattle.std.specs.Float.{binary64};
ghost use Rattle.answer.specs.Told.{told};
ghost use Rattle.grid_number.specs.Grid.{grid_number};

use answer::Refusal;

// The sign bit, the bits of 1,024, and 1.5 times 2^52: from 2^52 to 2^53 the floats are the whole numbers.
const SIGN: u64 = 0x8000_0000_0000_0000;

const LIMIT: u64 = 0x4090_0000_0000_0000;

const WHOLES: f64 = 6755399441055744.0;

pub fn grid_number(word: u64) -> Result<i64, Refusal>
    ensures { told result ≡ grid_number (of_bits binary64 word) }
{
    // over 1,024, an infinity or a NaN
    if word % SIGN > LIMIT {
        return Err(Refusal::OffGrid);
    }
    let x = f64::from_bits(word);
    // to a whole number, since the sum has no digit for a fraction; a zero is plus zero
    let rounded = x + WHOLES - WHOLES;
    if rounded == x {
        let number = rounded as i64;
        return Ok(number);
    }
    Err(Refusal::OffGrid)
}
