// Replays the stored answers of the Rust and of the second program (oracle/README.md, oracle/second/README.md). Standard input is records in two
// parts, with four zero bytes between. Of the first part it prints how many are answered as they were. The second has meshes, paths, files, lists to
// write as files, and files whose volumes are reported: it prints what is answered and left in the lent lists, and stdout holds the second program's
// own answers. An output that cannot be written is left as it is.
#![tactic(auto)]

mod cases;
mod record;

ghost use Rattle.std.specs.Prelude.{◌+◌, ◌<◌, ◌≤◌, length};

use answer::Refusal;
use record::{Record, ToWord};
use std::io::Read;

// What the lent lists hold before a call.
const OLD: u32 = 7;

// Every place is nearer to zero than this: a path has at most 20 octants.
const FAR: u32 = 0x40_0000;

// No part has more records.
const MOST_RECORDS: u32 = 1_000_000;

// Prints the words of a list, each behind a space.
fn say_all<T: ToWord>(rt: &impl Print, list: &[T]) {
    for x in list {
        let _ = print!(rt; " {}", x.to_word());
    }
}

fn say_refusal(rt: &impl Print, refusal: Refusal) {
    let _ = print!(rt; " refused {}", refusal.number());
}

// Prints the words of an answer, or the refusal's number.
fn say<T: ToWord, const N: usize>(rt: &impl Print, found: Result<[T; N], Refusal>) {
    match found {
        Ok(list) => say_all(rt, &list),
        Err(refusal) => say_refusal(rt, refusal),
    }
}

// A mesh: the number of its nodes, the lengths of its cells and of the output, and the cells, without zeros at their end. Tells what is then in the
// output, up to one number behind the last child.
fn mesh(rt: &impl Print, stored: &Record) {
    let count = stored.length(1, 1040);
    let room = stored.length(2, 8256);
    let mut cells = [0u32; 1040];
    stored.fill(3, &mut cells[..count.min(252)]);
    let mut out = [OLD; 8256];
    let found = refine::refine(stored.value(0), &cells[..count], &mut out[..room]);
    say(rt, found.map(|next| [next]));
    say_all(rt, &out[..room.min(8 * count + 1)]);
}

// Whether a place is the stored one, which the stored format has in two words: 1 where it is below zero, and its size. Of a size
// that no place has nothing is told.
fn say_axis(rt: &impl Print, place: i32, stored: &Record, i: usize)
    requires { i + 1 < 510 }
{
    let [below, size]: [u32; 2] = stored.values(i);
    if size < FAR {
        let size = i64::from(size);
        let expected = if below == 1 { -size } else { size };
        let which = if i64::from(place) == expected {
            "as stored"
        } else {
            "another"
        };
        let _ = print!(rt; " {which}");
    }
}

// A path: the corner, the depth, and the octants.
fn path(rt: &impl Print, stored: &Record) {
    let depth = stored.length(1, 64);
    let octants: [u32; 64] = stored.values(2);
    match descendant::descendant(&octants[..depth], stored.value(0)) {
        Ok(place) => {
            let [x, y, z] = place;
            let from = stored.inputs();
            say_axis(rt, x, stored, from);
            say_axis(rt, y, stored, from + 2);
            say_axis(rt, z, stored, from + 4);
        }
        Err(refusal) => say_refusal(rt, refusal),
    }
}

// A file: the lengths of its bytes and of the lists it is read into, and the bytes. Tells what is then in the first numbers of the lists.
fn file(rt: &impl Print, stored: &Record) {
    let bytes = stored.bytes(3, stored.length(0, 2016));
    let node_room = stored.length(1, 3080);
    let cell_room = stored.length(2, 8256);
    let mut nodes = [7u64; 3080];
    let mut cells = [OLD; 8256];
    let found = hxm::read(bytes, &mut nodes[..node_room], &mut cells[..cell_room]);
    say(rt, found.map(|counts| [counts.nodes, counts.cells]));
    say_all(rt, &nodes[..node_room.min(60)]);
    say_all(rt, &cells[..cell_room.min(60)]);
}

// Two lists to write: the lengths of the nodes, of the cells and of the output, how many elements of the nodes and of the cells stand here, and these,
// without zeros at the end of each. Tells what is then in the first bytes of the output.
fn lists(rt: &impl Print, stored: &Record) {
    let words = stored.length(0, 3080);
    let count = stored.length(1, 1040);
    let room = stored.length(2, 28800);
    let nodes_listed = stored.length(3, 250);
    let cells_listed = stored.length(4, 250);
    let mut nodes = [0u64; 3080];
    let mut cells = [0u32; 1040];
    stored.fill(5, &mut nodes[..nodes_listed]);
    stored.fill(5 + nodes_listed, &mut cells[..cells_listed]);
    let mut out = [7u8; 28800];
    let found = hxm_write::write(&nodes[..words], &cells[..count], &mut out[..room]);
    say(rt, found.map(|size| [size]));
    say_all(rt, &out[..room.min(420)]);
}

// A file to report: the lengths of its bytes and of the list of volumes, and the bytes. Tells what is then in the first numbers of the list.
fn report(rt: &impl Print, stored: &Record) {
    let bytes = stored.bytes(2, stored.length(0, 2024));
    let room = stored.length(1, 192);
    let mut volumes = [7i64; 192];
    let found = volume_report::report(bytes, &mut volumes[..room]);
    say(
        rt,
        found.map(|summary| {
            [
                summary.total.to_word(),
                summary.cells.to_word(),
                summary.first.to_word(),
            ]
        }),
    );
    say_all(rt, &volumes[..room.min(60)]);
}

// Compares the first part.
fn compare(rt: &impl Print, stdin: &mut impl Read) {
    let mut records = 0u32;
    let mut agreed = 0u32;
    for _ in 0..MOST_RECORDS {
        let stored = Record::next(&mut *stdin);
        if stored.function() == 0 {
            break;
        }
        records += 1;
        agreed += u32::from(cases::agrees(&stored));
    }
    let _ = println!(rt; "{records} records, {agreed} agree");
}

// Tells the answers of the second part. The stored format numbers the functions.
fn tell(rt: &impl Print, stdin: &mut impl Read) {
    for _ in 0..MOST_RECORDS {
        let stored = Record::next(&mut *stdin);
        match stored.function() {
            26 => mesh(rt, &stored),
            27 => path(rt, &stored),
            28 => file(rt, &stored),
            29 => lists(rt, &stored),
            30 => report(rt, &stored),
            _ => break,
        }
        let _ = println!(rt; "");
    }
}

fn main(rt: HostRuntime) {
    let mut stdin = rt.stdin();
    compare(&rt, &mut stdin);
    tell(&rt, &mut stdin);
}
