// Points that the caller lends for a sum over a cell: a flat list, W floats a point, the weight last.
#![tactic(auto)]

ghost use Rattle.std.specs.Prelude.{◌≡◌, ◌||◌, eqb, leb, true, false, MatchResult, length};
ghost use Rattle.answer.specs.declared.Refusal.TheVariants.{Limit, Length, Range};
ghost use Rattle.quadrature.specs.Points.{point_count, not_whole, too_few_or_many, points_of, point};

use answer::Refusal;

// The points of a list; a list that is not whole is refused, as is any where points have no floats.
pub fn whole<const W: usize>(list: &[f64]) -> Result<&[[f64; W]], Refusal>
    ensures points { MatchResult result
        (λ points. (eqb W 0 || not_whole W list.now ≡ false) × (points.now ≡ points_of W list.now) × (length points.now ≡ point_count W list.now))
        (λ refusal. (eqb W 0 || not_whole W list.now ≡ true) × (refusal ≡ Length)) }
{
    if W == 0 || list.len() % W != 0 {
        return Err(Refusal::Length);
    }
    Ok(list.as_chunks::<W>().0)
}

// A sum takes 1 to 16 points of a list.
pub fn one_to_16<const W: usize>(points: &[[f64; W]]) -> Result<(), Refusal>
    ensures { MatchResult result
        (λ _. too_few_or_many (length points.now) ≡ false)
        (λ refusal. (too_few_or_many (length points.now) ≡ true) × (refusal ≡ Limit)) }
{
    if (1..=16).contains(&points.len()) {
        Ok(())
    } else {
        Err(Refusal::Limit)
    }
}

// The point of a number; a number that no point has is refused.
pub fn point<const W: usize>(points: &[[f64; W]], k: usize) -> Result<[f64; W], Refusal>
    ensures { MatchResult result
        (λ found. (leb (length points.now) k ≡ false) × (found ≡ point points.now k))
        (λ refusal. (leb (length points.now) k ≡ true) × (refusal ≡ Range)) }
{
    points.get(k).copied().ok_or(Refusal::Range)
}
