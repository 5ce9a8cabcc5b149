// What `hexkids` prints. Each private function appends its text, or answers that it does not fit; `list` has room for all of them.
#![tactic(auto)]

ghost use Rattle.std.specs.Prelude.{◌≡◌, ◌+◌, ◌*◌, ◌/◌, ◌≤◌, ◌++◌, [], length, IsOk, OnOk, OnErr, IfErr};
ghost use Rattle.arrayvec.specs.ArrayVec.{array_vec_len};
ghost use Rattle.answer.specs.Answer.{answered, refused};
ghost use Rattle.answer.specs.Told.{number};
ghost use Rattle.kids.specs.Table.{line, table};
ghost use Rattle.kids.specs.Kids.{head_line, report, kids_in, printed};

use answer::Refusal;
use arrayvec::{ArrayVec, CapacityError};
use hxm::{CELL_NUMBERS, MOST_NUMBERS, MOST_WORDS};

// The head line has at most 34 bytes, and the children of 128 cells eleven bytes a number.
const MOST_BYTES: usize = 90146;

// A line of eight numbers: a space behind each but the last, and a newline behind that.
fn push_line(out: &mut ArrayVec<u8, MOST_BYTES>, numbers: &[u32; 8]) -> Result<(), CapacityError>
    ensures room { array_vec_len out.old + length (line 8 numbers.now 0) ≤ 90146 → IsOk result }
    ensures ok { OnOk result (out.new.items ≡ out.old.items ++ line 8 numbers.now 0) }
{
    for (j, number) in numbers.iter().enumerate() {
        text::push_decimal(&mut *out, u64::from(*number))?;
        let behind = if j < 7 { b' ' } else { b'\n' };
        out.try_extend_from_slice(&[behind])?;
    }
    Ok(())
}

// A line for each eight numbers of a list.
fn push_table(out: &mut ArrayVec<u8, MOST_BYTES>, numbers: &[u32]) -> Result<(), CapacityError>
    ensures room { array_vec_len out.old + length (table 8 numbers.now (length numbers.now / 8)) ≤ 90146 → IsOk result }
    ensures ok { OnOk result (out.new.items ≡ out.old.items ++ table 8 numbers.now (length numbers.now / 8)) }
{
    let (lines, _) = numbers.as_chunks::<8>();
    for line in lines {
        push_line(&mut *out, line)?;
    }
    Ok(())
}

// The head line, which says how many children and nodes there are.
fn push_head(out: &mut ArrayVec<u8, MOST_BYTES>, cells: u32, next: u32) -> Result<(), CapacityError>
    requires { cells ≤ 128 }
    ensures room { array_vec_len out.old + length (head_line cells next) ≤ 90146 → IsOk result }
    ensures ok { OnOk result (out.new.items ≡ out.old.items ++ head_line cells next) }
{
    out.try_extend_from_slice(b"cells ")?;
    text::push_decimal(&mut *out, u64::from(8 * cells))?;
    out.try_extend_from_slice(b" nodes ")?;
    text::push_decimal(&mut *out, u64::from(next))?;
    out.try_extend_from_slice(b"\n")
}

// The report of a refinement, for which an empty text has room.
fn push_report(
    out: &mut ArrayVec<u8, MOST_BYTES>,
    cells: u32,
    next: u32,
    children: &[u32],
) -> Result<(), CapacityError>
    requires { (cells ≤ 128) × (length children.now ≡ 64 * cells) }
    ensures room { out.old.items ≡ [] → IsOk result }
    ensures ok { OnOk result (out.new.items ≡ out.old.items ++ report cells next children.now) }
{
    push_head(&mut *out, cells, next)?;
    push_table(out, children)
}

// The children of the mesh that a file has. Nothing is appended where there is a refusal.
fn push_kids(out: &mut ArrayVec<u8, MOST_BYTES>, bytes: &[u8]) -> Result<(), Refusal>
    requires { out.old.items ≡ [] }
    ensures ok { OnOk result (kids_in bytes.now ≡ answered out.new.items) }
    ensures err { IfErr result (λ r. kids_in bytes.now ≡ refused (number r)) }
    ensures unchanged { OnErr result (out.new ≡ out.old) }
{
    let mut nodes = [0u64; MOST_WORDS];
    let mut cells = [0u32; MOST_NUMBERS];
    let counts = hxm::read(bytes, &mut nodes, &mut cells)?;
    let corners = CELL_NUMBERS * (counts.cells as usize);
    let mut children = [0u32; 8 * MOST_NUMBERS];
    let next = refine::refine(counts.nodes, &cells[..corners], &mut children)?;
    let _ = push_report(out, counts.cells, next, &children[..8 * corners]);
    Ok(())
}

// Makes the text what `hexkids` prints for a file, whatever it was.
pub fn list(bytes: &[u8], out: &mut ArrayVec<u8, MOST_BYTES>)
    ensures { out.new.items ≡ printed bytes.now }
{
    out.clear();
    if let Err(refusal) = push_kids(&mut *out, bytes) {
        let _ = text::push_refused(out, refusal.number());
    }
}
