// What an entry answers where it can refuse: a value, or a refusal. The words that definitions are written in stand in specs/.
#![tactic(auto)]

ghost use Rattle.std.specs.Prelude.{◌≡◌};
ghost use Rattle.answer.specs.Answer.{Leaves, number_of};
ghost use Rattle.answer.specs.Told.{number, told};

// Why there is no answer. Each refusal has the number that C is told; docs/REFUSALS.md has them in words.
#[derive(Clone, Copy, PartialEq, Eq)]
pub enum Refusal {
    Flat = 1,
    Outside,
    Corner,
    Tolerance,
    Coordinate,
    TooFar,
    Limit,
    Length,
    Range,
    Twice,
    Mark,
    Version,
    FileLength,
    Twisted,
    OffGrid,
}

impl Refusal {
    pub fn number(self) -> u32
        ensures { result ≡ number self }
    {
        self as u32
    }
}

// What an answer leaves in lent memory, for C: its value and 0, or the refusal's number and nothing else.
pub fn put<T: Drop>(found: Result<T, Refusal>, out: &mut T) -> u32
    ensures { Leaves (told found) result out.old out.new }
{
    match found {
        Ok(value) => {
            *out = value;
            0
        }
        Err(why) => why.number(),
    }
}

// The same of an answer without a value.
pub fn number_of(found: Result<(), Refusal>) -> u32
    ensures { result ≡ number_of (told found) }
{
    match found {
        Ok(()) => 0,
        Err(refusal) => refusal.number(),
    }
}
