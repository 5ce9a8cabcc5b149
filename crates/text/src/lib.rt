// Text put behind what a vector of fixed capacity holds, or into a lent buffer from a place on. Where the whole of it does not fit, nothing is written:
// what pushes answers an error, and what puts the place as it was, where it else answers the place behind the text.
#![tactic(auto)]

ghost use Rattle.std.specs.Prelude.{◌≡◌, ◌+◌, ◌≤◌, ◌++◌, ◌↔◌, length, IsOk, OnOk, OnErr};
ghost use Rattle.arrayvec.specs.ArrayVec.{array_vec_len};
ghost use Rattle.buffer.specs.Put.{Puts};
ghost use Rattle.text.specs.Text.{decimal, signed_decimal, refused_line};

use arrayvec::{ArrayVec, CapacityError};
use itoa::Buffer;

// The longest line of a refusal, whatever its number.
const REFUSED_LINE: usize = 29;

#[tactic(auto, using(crate::proofs::Digits::same_decimal))]
pub fn push_decimal<const N: usize>(out: &mut ArrayVec<u8, N>, x: u64) -> Result<(), CapacityError>
    ensures variant { IsOk result ↔ (array_vec_len out.old + length (decimal x) ≤ N) }
    ensures ok { OnOk result (out.new.items ≡ out.old.items ++ decimal x) }
    ensures err { OnErr result (out.new ≡ out.old) }
{
    let mut digits = Buffer::new();
    out.try_extend_from_slice(digits.format(x).as_bytes())
}

// A number with its sign: a minus, where it is below zero, and its size. It is no instance of `push_decimal`: the digits of the two are two definitions.
#[tactic(auto, using(crate::proofs::Digits::same_signed))]
pub fn push_signed<const N: usize>(out: &mut ArrayVec<u8, N>, x: i64) -> Result<(), CapacityError>
    ensures variant { IsOk result ↔ (array_vec_len out.old + length (signed_decimal x) ≤ N) }
    ensures ok { OnOk result (out.new.items ≡ out.old.items ++ signed_decimal x) }
    ensures err { OnErr result (out.new ≡ out.old) }
{
    let mut signed = Buffer::new();
    out.try_extend_from_slice(signed.format(x).as_bytes())
}

// The line that a refused file prints, of any number.
#[tactic(auto, using(crate::proofs::Digits::decimal_most, std::proofs::lemmas::Grind::common_steps))]
pub fn push_refused<const N: usize>(
    out: &mut ArrayVec<u8, N>,
    number: u32,
) -> Result<(), CapacityError>
    ensures variant { IsOk result ↔ (array_vec_len out.old + length (refused_line number) ≤ N) }
    ensures ok { OnOk result (out.new.items ≡ out.old.items ++ refused_line number) }
    ensures err { OnErr result (out.new ≡ out.old) }
{
    let mut line = ArrayVec::<u8, REFUSED_LINE>::new();
    line.try_extend_from_slice(b"refused ")?;
    push_decimal(&mut line, u64::from(number))?;
    line.try_extend_from_slice(b"\n")?;
    out.try_extend_from_slice(&line)
}

#[tactic(auto, using(crate::proofs::Digits::same_decimal))]
pub fn put_decimal(out: &mut [u8], at: usize, x: u64) -> usize
    ensures { Puts out.old out.new at result (decimal x) }
{
    let mut number = Buffer::new();
    buffer::put_bytes(out, at, number.format(x).as_bytes())
}

#[tactic(auto, using(crate::proofs::Digits::same_signed))]
pub fn put_signed(out: &mut [u8], at: usize, x: i64) -> usize
    ensures { Puts out.old out.new at result (signed_decimal x) }
{
    let mut signed_number = Buffer::new();
    buffer::put_bytes(out, at, signed_number.format(x).as_bytes())
}

// The line goes into a vector first, which holds the longest.
#[tactic(auto, using(crate::proofs::Lines::refused_most))]
pub fn put_refused(out: &mut [u8], at: usize, k: u32) -> usize
    ensures { Puts out.old out.new at result (refused_line k) }
{
    let mut line = ArrayVec::<u8, REFUSED_LINE>::new();
    let _ = push_refused(&mut line, k);
    buffer::put_bytes(out, at, &line)
}
