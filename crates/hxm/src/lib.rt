// The mesh file HXM, version 1.
#![tactic(auto)]

ghost use Rattle.std.specs.Prelude.{◌≡◌, [], ◌∷◌, ◌+◌, ◌*◌, ◌≤◌, length, map};
ghost use Rattle.numbers.specs.Little.{number_at, numbers_at};
ghost use Rattle.answer.specs.Answer.{number_of};
ghost use Rattle.answer.specs.Told.{told};
ghost use Rattle.faults.specs.Faults.{first_fault};
ghost use Rattle.hxm.specs.Format.{cell_numbers, cell_bytes, mesh_of};
ghost use Rattle.hxm.specs.Reads.{counts_in, mesh_into, Reads};

use answer::Refusal;
use buffer::Little;

// How long the head is.
pub const HEAD_LENGTH: usize = 13;

// The most nodes and cells that a mesh may have.
pub const MOST_NODES: u32 = 1024;

pub const MOST_CELLS: u32 = 128;

// How many words a node has, and numbers a cell.
pub const NODE_WORDS: usize = 3;

pub const CELL_NUMBERS: usize = 8;

// So the most words and numbers,
pub const MOST_WORDS: usize = NODE_WORDS * (MOST_NODES as usize);

pub const MOST_NUMBERS: usize = CELL_NUMBERS * (MOST_CELLS as usize);

// and how many bytes a node has, and a cell.
const NODE_BYTES: usize = 8 * NODE_WORDS;

const CELL_BYTES: usize = 4 * CELL_NUMBERS;

// How many nodes and cells a file holds.
#[derive(Clone, Copy, PartialEq, Eq)]
pub struct Counts {
    pub nodes: u32,
    pub cells: u32,
}

// As C has them.
impl From<Counts> for [u32; 2] {
    ghost from_gives = { λ counts list. list ≡ counts.nodes ∷ counts.cells ∷ [] };

    fn from(counts: Counts) -> [u32; 2] {
        [counts.nodes, counts.cells]
    }
}

// The number that stands at `at`.
fn load<T: Little>(bytes: &[u8], at: usize) -> T
    requires { at + T.WIDTH ≤ length bytes.now }
    ensures { T.value result ≡ number_at bytes.now T.WIDTH at }
{
    let mut low = [0u8; 8];
    low[..T::WIDTH].copy_from_slice(&bytes[at..at + T::WIDTH]);
    T::of_bytes(low)
}

// The numbers that stand one behind another from `at` on, as many as `out` is long. buffer's looks at each place; here the whole file has been looked at.
fn load_all<T: Little>(bytes: &[u8], at: usize, out: &mut [T])
    requires { at + T.WIDTH * length out.old ≤ length bytes.now }
    ensures { map T.value out.new ≡ numbers_at bytes.now T.WIDTH at (length out.old) }
{
    // By index: of a list that an iterator writes a proof knows the length alone.
    for i in 0..out.len() {
        out[i] = load(bytes, at + T::WIDTH * i);
    }
}

// The eight numbers of the cell that begins at `at`.
fn cell_at(bytes: &[u8], at: usize) -> [u32; 8]
    requires { at + cell_bytes ≤ length bytes.now }
    ensures { result ≡ numbers_at bytes.now 4 at cell_numbers }
{
    let mut cell = [0u32; CELL_NUMBERS];
    load_all(bytes, at, &mut cell);
    cell
}

// The first fault of `count` cells that begin at `at`. Each is looked at in a copy, so that a refusal leaves the lent lists alone.
fn fault_at(bytes: &[u8], at: usize, count: usize, n: u32) -> Result<(), Refusal>
    requires { at + cell_bytes * count ≤ length bytes.now }
    ensures { number_of (told result) ≡ first_fault n cell_numbers (numbers_at bytes.now 4 at (cell_numbers * count)) }
{
    for c in 0..count {
        faults::fault_of(n, cell_at(bytes, at + CELL_BYTES * c))?;
    }
    Ok(())
}

// What the file holds, whatever lists are lent.
#[tactic(auto, using(std::proofs::lemmas::Bool::Decides::nat_tests), unfolding(crate::specs::Format::mesh_of, crate::specs::Format::fault_of, crate::specs::Format::mesh_at))]
fn judge(bytes: &[u8]) -> Result<Counts, Refusal>
    ensures { told result ≡ counts_in (mesh_of bytes.now) }
{
    if bytes.len() < HEAD_LENGTH {
        return Err(Refusal::FileLength);
    }
    let version: u16 = load(bytes, 3);
    let nodes: u32 = load(bytes, 5);
    let cells: u32 = load(bytes, 9);
    if !bytes.starts_with(b"HXM") {
        return Err(Refusal::Mark);
    }
    if version != 1 {
        return Err(Refusal::Version);
    }
    if nodes > MOST_NODES || cells > MOST_CELLS {
        return Err(Refusal::Limit);
    }
    let cells_from = HEAD_LENGTH + NODE_BYTES * (nodes as usize);
    let end = cells_from + CELL_BYTES * (cells as usize);
    if bytes.len() != end {
        return Err(Refusal::FileLength);
    }
    fault_at(bytes, cells_from, cells as usize, nodes)?;
    Ok(Counts { nodes, cells })
}

// Reads a mesh into the lent lists: three words a node, eight numbers a cell.
pub fn read(bytes: &[u8], nodes: &mut [u64], cells: &mut [u32]) -> Result<Counts, Refusal>
    ensures { Reads (mesh_into (length nodes.old) (length cells.old) bytes.now) result
        nodes.old nodes.new cells.old cells.new }
{
    let counts = judge(bytes)?;
    let coords = NODE_WORDS * (counts.nodes as usize);
    let corners = CELL_NUMBERS * (counts.cells as usize);
    if nodes.len() < coords || cells.len() < corners {
        return Err(Refusal::Length);
    }
    let cells_from = HEAD_LENGTH + NODE_BYTES * (counts.nodes as usize);
    load_all(bytes, HEAD_LENGTH, &mut nodes[..coords]);
    load_all(bytes, cells_from, &mut cells[..corners]);
    Ok(counts)
}
