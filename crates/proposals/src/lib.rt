// A list of proposals, each judged by the distance check against one cell: corners are 24 floats, corner by corner, less the probe's place.
#![tactic(auto)]

ghost use Rattle.std.specs.Prelude.{ℕ, ◌≡◌, length};
ghost use Rattle.answer.specs.Answer.{answered, left};
ghost use Rattle.proposals.specs.Demand.{ZeroIsNear, NearIsZero, Each};
ghost use Rattle.answer.specs.Told.{told};
ghost use Rattle.proposals.specs.Judgements.{judgement, judgements, zeros_in};

use answer::Refusal;
use cell::Point;

// A proposed place, and how far its image may be from the probe on each axis.
#[repr(C)]
#[derive(Clone, Copy)]
pub struct Proposal {
    pub at: Point,
    pub tolerance: f64,
}

// 0, or the number by which the check refuses: the list that C lends holds numbers.
fn judge(corners: [f64; 24], p: Proposal) -> u32
    ensures value { result ≡ judgement corners p }
    ensures sound { ZeroIsNear corners p result }
    ensures complete { NearIsZero corners p result }
{
    answer::number_of(probe::check(corners, p.at, p.tolerance))
}

// Writes 0 or the check's refusal for each record, and answers how many zeros it wrote. Of a refused list, 7 before 8, nothing is written. Of a list that is
// judged each 0 is worth what an acceptance by `check` is, and each place that is near enough has one.
pub fn check_proposals(
    corners: [f64; 24],
    list: &[Proposal],
    out: &mut [u32],
) -> Result<u32, Refusal>
    ensures answer { told result ≡ zeros_in (judgements corners list.now (length out.old)) }
    ensures output { out.new ≡ left (judgements corners list.now (length out.old)) out.old }
    ensures sound { (n : ℕ) → told result ≡ answered n → Each ZeroIsNear corners list.now out.new }
    ensures complete { (n : ℕ) → told result ≡ answered n → Each NearIsZero corners list.now out.new }
{
    let n = list.len();
    if 256 < n {
        return Err(Refusal::Limit);
    }
    if out.len() < n {
        return Err(Refusal::Length);
    }
    let mut accepted = 0u32;
    // By index: of a list that an iterator writes a proof knows the length alone.
    for i in 0..n {
        let number = judge(corners, list[i]);
        out[i] = number;
        accepted += u32::from(number == 0);
    }
    Ok(accepted)
}
