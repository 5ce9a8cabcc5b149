// The faults of a list of cells, eight node numbers each: what a mesh's reader and its refinement both refuse.
#![tactic(auto)]

ghost use Rattle.std.specs.Prelude.{◌≡◌, not, ◌<◌};
ghost use Rattle.answer.specs.Answer.{number_of};
ghost use Rattle.answer.specs.Told.{told};
ghost use Rattle.faults.specs.Faults.{names, in_range, new_at, different, fault, first_fault};

use answer::Refusal;

// Whether every node of a cell is one of n.
fn in_range(n: u32, cell: &[u32; 8]) -> bool
    ensures { result ≡ in_range n 8 (names cell.now) }
{
    let mut ranged = true;
    for x in cell {
        ranged &= *x < n;
    }
    ranged
}

// Whether node j of a cell stands among those before it.
fn met_at(cell: &[u32; 8], j: usize) -> bool
    requires { j < 8 }
    ensures { result ≡ not (new_at (names cell.now) j) }
{
    let mut met = false;
    for x in &cell[..j] {
        met |= *x == cell[j];
    }
    met
}

// Whether a cell names a node twice.
fn twice(cell: &[u32; 8]) -> bool
    ensures { result ≡ not (different 8 (names cell.now)) }
{
    let mut twice = false;
    for j in 0..8usize {
        twice |= met_at(cell, j);
    }
    twice
}

// What is wrong with a cell: its numbers' range comes before a node that it names twice. One test tells a sound cell, which is what most cells are.
pub fn fault_of(n: u32, cell: [u32; 8]) -> Result<(), Refusal>
    ensures { number_of (told result) ≡ fault n 8 (names cell) }
{
    let ranged = in_range(n, &cell);
    let twice = twice(&cell);
    if ranged & !twice {
        Ok(())
    } else if ranged {
        Err(Refusal::Twice)
    } else {
        Err(Refusal::Range)
    }
}

// The fault of the first cell that has one. Numbers behind the last whole cell are not looked at.
pub fn first_fault(n: u32, cells: &[u32]) -> Result<(), Refusal>
    ensures { number_of (told result) ≡ first_fault n 8 cells.now }
{
    let (whole, _) = cells.as_chunks::<8>();
    for cell in whole {
        fault_of(n, *cell)?;
    }
    Ok(())
}
