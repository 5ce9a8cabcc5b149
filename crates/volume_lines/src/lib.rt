// What `hexvol` prints. Each private function appends its text, or answers that it does not fit; `list` has room for all of them.
#![tactic(auto)]

ghost use Rattle.std.specs.Prelude.{◌≡◌, ◌+◌, ◌≤◌, ◌++◌, length, IsOk, OnOk};
ghost use Rattle.arrayvec.specs.ArrayVec.{array_vec_len};
ghost use Rattle.volume_lines.specs.Lines.{cell_line, cell_lines, total_line, first_line, report_text, printed};

use arrayvec::{ArrayVec, CapacityError};
use hxm::MOST_CELLS;
use volume_report::Summary;

// The line of a cell has at most three digits for its number, which is below 128, a space, twenty characters for the volume and a newline.
const CELL_LINE: usize = 3 + 1 + 20 + 1;

// That of the total has a word of six bytes, twenty characters and a newline; that of the first cell a word of six, at most ten digits and a newline.
const TOTAL_LINE: usize = 6 + 20 + 1;

const FIRST_LINE: usize = 6 + 10 + 1;

// So the most that is printed: 3,244 bytes.
const MOST_BYTES: usize = CELL_LINE * (MOST_CELLS as usize) + TOTAL_LINE + FIRST_LINE;

fn push_cell(out: &mut ArrayVec<u8, MOST_BYTES>, k: usize, volume: i64) -> Result<(), CapacityError>
    ensures room { array_vec_len out.old + length (cell_line k volume) ≤ 3244 → IsOk result }
    ensures ok { OnOk result (out.new.items ≡ out.old.items ++ cell_line k volume) }
{
    text::push_decimal(&mut *out, k as u64)?;
    out.try_extend_from_slice(b" ")?;
    text::push_signed(&mut *out, volume)?;
    out.try_extend_from_slice(b"\n")
}

// A line for each cell.
fn push_cells(out: &mut ArrayVec<u8, MOST_BYTES>, volumes: &[i64]) -> Result<(), CapacityError>
    ensures room { array_vec_len out.old + length (cell_lines volumes.now) ≤ 3244 → IsOk result }
    ensures ok { OnOk result (out.new.items ≡ out.old.items ++ cell_lines volumes.now) }
{
    for (k, volume) in volumes.iter().enumerate() {
        push_cell(&mut *out, k, *volume)?;
    }
    Ok(())
}

fn push_total(out: &mut ArrayVec<u8, MOST_BYTES>, total: i64) -> Result<(), CapacityError>
    ensures room { array_vec_len out.old + length (total_line total) ≤ 3244 → IsOk result }
    ensures ok { OnOk result (out.new.items ≡ out.old.items ++ total_line total) }
{
    out.try_extend_from_slice(b"total ")?;
    text::push_signed(&mut *out, total)?;
    out.try_extend_from_slice(b"\n")
}

// The first cell whose volume is not above zero, or none where it is the one behind the last.
fn push_first(
    out: &mut ArrayVec<u8, MOST_BYTES>,
    cells: u32,
    first: u32,
) -> Result<(), CapacityError>
    ensures room { array_vec_len out.old + length (first_line cells first) ≤ 3244 → IsOk result }
    ensures ok { OnOk result (out.new.items ≡ out.old.items ++ first_line cells first) }
{
    out.try_extend_from_slice(b"first ")?;
    if first == cells {
        out.try_extend_from_slice(b"none")?;
    } else {
        text::push_decimal(&mut *out, u64::from(first))?;
    }
    out.try_extend_from_slice(b"\n")
}

// The lines of a report, whose list has a volume for each of its cells.
fn push_report(
    out: &mut ArrayVec<u8, MOST_BYTES>,
    volumes: &[i64],
    found: Summary,
) -> Result<(), CapacityError>
    requires { length volumes.now ≡ found.cells }
    ensures room { array_vec_len out.old + length (report_text (record { volumes = volumes.now; total = found.total; first = found.first })) ≤ 3244 → IsOk result }
    ensures ok { OnOk result (out.new.items ≡ out.old.items ++ report_text (record { volumes = volumes.now; total = found.total; first = found.first })) }
{
    push_cells(&mut *out, volumes)?;
    push_total(&mut *out, found.total)?;
    push_first(out, found.cells, found.first)
}

// Makes the text what `hexvol` prints for a file, whatever it was.
pub fn list(bytes: &[u8], out: &mut ArrayVec<u8, MOST_BYTES>)
    ensures { out.new.items ≡ printed bytes.now }
{
    out.clear();
    let mut volumes = [0i64; MOST_CELLS as usize];
    let _ = match volume_report::report(bytes, &mut volumes) {
        Ok(found) => push_report(out, &volumes[..found.cells as usize], found),
        Err(refusal) => text::push_refused(out, refusal.number()),
    };
}
