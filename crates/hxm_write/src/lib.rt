// The writer of the mesh file HXM, version 1: from two flat lists into a lent buffer. The counts follow from the lists: nobody states one.
#![tactic(auto)]

ghost use Rattle.std.specs.Prelude.{◌≡◌, ◌≤◌, length};
ghost use Rattle.answer.specs.Answer.{left};
ghost use Rattle.answer.specs.Told.{told};
ghost use Rattle.buffer.specs.Put.{Wrote};
ghost use Rattle.hxm.specs.Format.{head_length, head_of};
ghost use Rattle.hxm_write.specs.Writes.{length_of, file_into};

use answer::Refusal;
use hxm::{CELL_NUMBERS, Counts, HEAD_LENGTH, MOST_NUMBERS, MOST_WORDS, NODE_WORDS};

// The file's length, told before the first byte is written.
#[tactic(auto, using(std::proofs::lemmas::Bool::Decides::nat_tests, crate::proofs::Ladder::climbed))]
fn judge(nodes: &[u64], cells: &[u32], room: usize) -> Result<u32, Refusal>
    ensures { told result ≡ length_of (file_into room nodes.now cells.now) }
{
    if nodes.len() > MOST_WORDS || cells.len() > MOST_NUMBERS {
        return Err(Refusal::Limit);
    }
    if nodes.len() % NODE_WORDS != 0 || cells.len() % CELL_NUMBERS != 0 {
        return Err(Refusal::Length); // no whole nodes, or no whole cells
    }
    let end = HEAD_LENGTH + 8 * nodes.len() + 4 * cells.len();
    faults::first_fault((nodes.len() / NODE_WORDS) as u32, cells)?;
    if room < end {
        return Err(Refusal::Length); // no room
    }
    Ok(end as u32)
}

// Writes the head of a file, and answers the place behind it.
fn put_head(out: &mut [u8], version: u16, counts: Counts) -> usize
    requires { head_length ≤ length out.old }
    ensures { Wrote out.old out.new 0 result (head_of version counts.nodes counts.cells) }
{
    let mark = buffer::put_bytes(&mut *out, 0, b"HXM");
    let numbered = buffer::put(&mut *out, mark, version);
    let counted = buffer::put(&mut *out, numbered, counts.nodes);
    buffer::put(&mut *out, counted, counts.cells)
}

// Writes the file of a mesh: three words a node, eight numbers a cell.
#[tactic(auto, using(crate::proofs::Ladder::counted))]
pub fn write(nodes: &[u64], cells: &[u32], out: &mut [u8]) -> Result<u32, Refusal>
    ensures answer { told result ≡ length_of (file_into (length out.old) nodes.now cells.now) }
    ensures output { out.new
        ≡ left (file_into (length out.old) nodes.now cells.now) out.old }
{
    let length = judge(nodes, cells, out.len())?;
    let counts = Counts {
        nodes: (nodes.len() / NODE_WORDS) as u32,
        cells: (cells.len() / CELL_NUMBERS) as u32,
    };
    let head = put_head(&mut *out, 1, counts);
    let behind = buffer::put_all(&mut *out, head, nodes);
    buffer::put_all(&mut *out, behind, cells);
    Ok(length)
}
