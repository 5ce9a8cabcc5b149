// Worked examples that are run and not proved: document 01's, one for each refusal that a mesh meets, and document 02's. stdout holds what they have
// to print. An output that cannot be written is left as it is.
#![tactic(auto)]

ghost use Rattle.std.specs.Prelude.{◌≤◌, ◌<◌, length};

use answer::Refusal;
use arrayvec::ArrayVec;
use std::io::Read;
use std::{array, io};

// The two cells of document 01's example, which share a face.
const TWO_CELLS: [u32; 16] = [0, 1, 2, 3, 4, 5, 6, 7, 1, 8, 9, 2, 5, 11, 10, 6];

// A cell and its mirror.
const MIRRORED: [u32; 16] = [0, 1, 2, 3, 4, 5, 6, 7, 0, 3, 2, 1, 4, 7, 6, 5];

// A cell, and the same with nodes 2 and 3 exchanged: they have a twisted face.
const EXCHANGED: [u32; 16] = [0, 1, 2, 3, 4, 5, 6, 7, 0, 1, 3, 2, 4, 5, 6, 7];

// The second of these cells has face 1, 2, 6, 5 of the first one too, but goes round it 5, 1, 6, 2. Behind them stands a cell that is good.
const TWISTED: [u32; 24] = [
    0, 1, 2, 3, 4, 5, 6, 7, 1, 8, 9, 5, 6, 11, 10, 2, 0, 1, 2, 3, 4, 5, 6, 7,
];

// Coordinates by their bits: 2, a half, and the ends of the grid, 1,024 and minus that.
const TWO: u64 = 0x4000_0000_0000_0000;

const HALF: u64 = 0x3fe0_0000_0000_0000;

const MOST: u64 = 0x4090_0000_0000_0000;

const LEAST: u64 = 0xc090_0000_0000_0000;

// Prints a label, and behind it what was found, as `tell` prints it, or the refusal's number.
fn say<T: Drop, F: FnOnce(T) -> io::Result<()>>(
    rt: &impl Print,
    label: &str,
    found: Result<T, Refusal>,
    tell: F,
)
    requires { F.IsAlwaysCallable tell }
{
    let _ = print!(rt; "{label} ");
    let _ = match found {
        Ok(value) => tell(value),
        Err(refusal) => print!(rt; "refused {}", refusal.number()),
    };
}

// The same as a line.
fn say_line<T: Drop, F: FnOnce(T) -> io::Result<()>>(
    rt: &impl Print,
    label: &str,
    found: Result<T, Refusal>,
    tell: F,
)
    requires { F.IsAlwaysCallable tell }
{
    say(rt, label, found, tell);
    let _ = println!(rt; "");
}

// The corners of the box between two opposite ones, as floats or as their bits.
fn corners<T: Copy>(low: [T; 3], high: [T; 3]) -> [T; 24] {
    let [x0, y0, z0] = low;
    let [x1, y1, z1] = high;
    [
        x0, y0, z0, x1, y0, z0, x1, y1, z0, x0, y1, z0, x0, y0, z1, x1, y0, z1, x1, y1, z1, x0, y1,
        z1,
    ]
}

fn say_inside(rt: &impl Print, label: &str, found: Result<[f64; 3], Refusal>) {
    say_line(rt, label, found, |place| {
        if place == [0.0; 3] {
            print!(rt; "inside at zero")
        } else {
            print!(rt; "inside elsewhere")
        }
    });
}

fn locate(rt: &impl Print, label: &str, p: [f64; 24]) {
    say_inside(
        rt,
        label,
        hex_locate::parametric_coord_for_origin(p).place(),
    );
}

fn locate_checked(rt: &impl Print, label: &str, p: [f64; 24]) {
    say_inside(rt, label, probe::locate_checked(p, 1.0));
}

fn located(rt: &impl Print) {
    let cube = corners([-2.0; 3], [2.0; 3]);
    let beside = corners([3.0, -1.0, -1.0], [7.0, 1.0, 1.0]);
    let flat = [1.0; 24];
    let unknown = corners([f64::NAN, -2.0, -2.0], [2.0; 3]);
    locate(rt, "cube [-2,2]:", cube);
    locate(rt, "x in [3,7], y and z in [-1,1]:", beside);
    locate(rt, "all corners (1,1,1):", flat);
    locate(rt, "a NaN corner:", unknown);
    locate_checked(rt, "checked, with T = 1:", cube);
    locate_checked(rt, "checked, x in [3,7]:", beside);
    locate_checked(rt, "checked, all corners (1,1,1):", flat);
    locate_checked(rt, "checked, a NaN corner:", unknown);
}

fn say_refined(rt: &impl Print, label: &str, found: Result<u32, Refusal>) {
    say_line(rt, label, found, |next| print!(rt; "next {next}"));
}

// Refines a mesh into room for two cells' children.
fn refine(rt: &impl Print, label: &str, n: u32, cells: &[u32]) {
    let mut out = [0u32; 128];
    say_refined(rt, label, refine::refine(n, cells, &mut out));
}

fn shared_face(rt: &impl Print) {
    let mut out = [0u32; 128];
    say_refined(
        rt,
        "two cells of 12 nodes:",
        refine::refine(12, &TWO_CELLS, &mut out),
    );
    let _ = println!(rt;
        "the middle of the face that they share: {} {}",
        out[14], out[71]
    );
}

fn refined(rt: &impl Print) {
    let cells = TWO_CELLS;
    refine(rt, "no cell:", 12, &[]);
    refine(rt, "1,025 nodes:", 1025, &cells);
    refine(rt, "129 cells:", 12, &[0; 1032]);
    refine(rt, "15 numbers:", 12, &cells[..15]);
}

fn with_last_node(rt: &impl Print, label: &str, node: u32) {
    let mut cells = TWO_CELLS;
    cells[15] = node;
    refine(rt, label, 12, &cells);
}

// What a refusal left at the ends of an output.
fn say_left(rt: &impl Print, first: u32, last: u32) {
    let _ = println!(rt; "what the refusal left in it: {first} {last}");
}

fn short_output(rt: &impl Print) {
    let mut out = [1u32; 127];
    say_refined(
        rt,
        "room for 127 numbers:",
        refine::refine(12, &TWO_CELLS, &mut out),
    );
    say_left(rt, out[0], out[126]);
}

// Refines the twisted pair, or so many numbers from its start, into so much room; and what the refusal left at the ends of the output.
fn refine_twisted(rt: &impl Print, label: &str, n: u32, numbers: usize, room: usize)
    requires { (numbers ≤ 24) × (room ≤ 192) }
{
    let cells = TWISTED;
    let mut out = [1u32; 192];
    say_refined(
        rt,
        label,
        refine::refine(n, &cells[..numbers], &mut out[..room]),
    );
    say_left(rt, out[0], out[127]);
}

// The twisted pair and a third cell, 0 and `second`, 2 .. 6 and `last`.
fn with_third(rt: &impl Print, label: &str, second: u32, last: u32) {
    let mut cells = TWISTED;
    cells[17] = second;
    cells[23] = last;
    let mut out = [1u32; 192];
    say_refined(rt, label, refine::refine(12, &cells, &mut out));
}

// Each place of the refinement's order, where the twisted face is there too.
fn twisted(rt: &impl Print) {
    refine_twisted(rt, "a twisted face:", 12, 16, 128);
    refine_twisted(rt, "and a third cell:", 12, 24, 192);
    refine_twisted(rt, "twisted, of 1,025 nodes:", 1025, 16, 128);
    refine_twisted(rt, "twisted, 17 numbers:", 12, 17, 128);
    refine_twisted(rt, "twisted, room for 127 numbers:", 12, 16, 127);
    refine_twisted(rt, "twisted, of 11 nodes:", 11, 16, 128);
    with_third(rt, "twisted, and a third cell with node 12 of 12:", 1, 12);
    with_third(rt, "twisted, and a third cell with node 0 twice:", 0, 7);
}

fn neighbours(rt: &impl Print) {
    let twice = [0, 1, 2, 3, 4, 5, 6, 7, 0, 1, 2, 3, 4, 5, 6, 7];
    let three = [0, 1, 2, 3, 4, 5, 6, 7, 1, 2, 6, 12, 8, 9, 10, 11];
    refine(rt, "a cell twice:", 8, &twice);
    refine(rt, "a cell and its mirror:", 8, &MIRRORED);
    refine(
        rt,
        "a cell, and with nodes 2 and 3 exchanged:",
        8,
        &EXCHANGED,
    );
    refine(rt, "three nodes of a face in common:", 13, &three);
}

// What the cell 0..7 and one whose bottom is these four nodes answer, as it is printed: the next number, or the refusal's.
fn order(bottom: [u32; 4]) -> u32 {
    let [a, b, c, d] = bottom;
    let cells = [0, 1, 2, 3, 4, 5, 6, 7, a, b, c, d, 8, 9, 10, 11];
    let mut out = [0u32; 128];
    match refine::refine(12, &cells, &mut out) {
        Ok(next) => next,
        Err(refusal) => refusal.number(),
    }
}

// The six orders that begin with a.
fn orders(rt: &impl Print, a: u32, b: u32, c: u32, d: u32) {
    let _ = print!(rt; "orders that begin with {a}:");
    let bottoms = [
        [a, b, c, d],
        [a, b, d, c],
        [a, c, b, d],
        [a, c, d, b],
        [a, d, b, c],
        [a, d, c, b],
    ];
    for bottom in bottoms {
        let _ = print!(rt; " {}", order(bottom));
    }
    let _ = println!(rt; "");
}

fn descend(rt: &impl Print, label: &str, path: &[u32], corner: u32) {
    say_line(rt, label, descendant::descendant(path, corner), |place| {
        let [x, y, z] = place;
        print!(rt; "{x} {y} {z}")
    });
}

fn descended(rt: &impl Print) {
    descend(rt, "path (6), corner 0:", &[6], 0);
    descend(rt, "no path, corner 1:", &[], 1);
    descend(rt, "depth 21:", &[6; 21], 0);
    descend(rt, "octant 8:", &[8], 0);
    descend(rt, "corner 8:", &[6], 8);
}

// The next file on standard input: as many bytes as there is room for, or what is left, or what came before a read that failed. It is no `read_all` of
// `input`, which answers nothing of what came before.
fn next<'a>(stdin: &mut impl Read, room: &'a mut [u8]) -> &'a [u8]
    ensures { length result.now ≤ length room.old }
{
    let mut size = 0usize;
    while size < room.len() {
        match stdin.read(&mut room[size..]) {
            Ok(0) | Err(_) => break,
            Ok(more) => size += more,
        }
    }
    &room[..size]
}

// A label, and what `hexkids` prints for a file.
fn list(rt: &impl Print, label: &str, bytes: &[u8]) {
    let mut text = ArrayVec::new();
    kids::list(bytes, &mut text);
    let _ = print!(rt; "{label}");
    let _ = rt.write_all(&text);
}

// The next file, as `hexkids` prints it. Each file is document 01's, eight nodes at zero and the cell 0..7, with the damage that its label names.
fn file(rt: &impl Print, stdin: &mut impl Read, label: &str) {
    let mut room = [0u8; 237];
    list(rt, label, next(&mut *stdin, &mut room));
}

// Reads a file into two lists.
fn read(rt: &impl Print, label: &str, bytes: &[u8], nodes: &mut [u64], cells: &mut [u32]) {
    say_line(rt, label, hxm::read(bytes, nodes, cells), |counts| {
        print!(rt; "{} {}", counts.nodes, counts.cells)
    });
}

// The next file, read into lists with room for so many coordinates and node numbers; and what then stands at their ends.
fn read_into(rt: &impl Print, stdin: &mut impl Read, coords: usize, numbers: usize)
    requires { (coords ≤ 25) × (numbers ≤ 9) }
{
    let mut room = [0u8; 237];
    let bytes = next(&mut *stdin, &mut room);
    let mut nodes = [1u64; 25];
    let mut cells = [1u32; 9];
    read(
        rt,
        "read into lists:",
        bytes,
        &mut nodes[..coords],
        &mut cells[..numbers],
    );
    let _ = println!(rt;
        "their last numbers:{} {} {}",
        nodes[24], cells[7], cells[8]
    );
}

fn say_written(rt: &impl Print, label: &str, found: Result<u32, Refusal>) {
    say_line(rt, label, found, |bytes| print!(rt; "{bytes}"));
}

// A file of eight nodes and so many numbers, read and written again into a longer buffer.
fn again(rt: &impl Print, bytes: &[u8], numbers: usize)
    requires { (numbers ≤ 16) × (length bytes.now < 272) }
{
    let mut nodes = [0u64; 24];
    let mut cells = [0u32; 16];
    let mut out = [7u8; 272];
    read(rt, "read:", bytes, &mut nodes, &mut cells);
    say_written(
        rt,
        "and written again:",
        hxm_write::write(&nodes, &cells[..numbers], &mut out),
    );
    let size = bytes.len();
    let which = if bytes == &out[..size] {
        "the same"
    } else {
        "other"
    };
    let _ = println!(rt;
        "{which} bytes, and behind them: {} {}",
        out[size], out[271]
    );
}

// The next file, with zeros behind it where it is short.
fn sample_again(rt: &impl Print, stdin: &mut impl Read) {
    let mut bytes = [0u8; 237];
    next(&mut *stdin, &mut bytes);
    let _ = print!(rt; "the sample file, ");
    again(rt, &bytes, 8);
}

// The next file has the cell 0..7 twice, nodes 2 and 3 exchanged in the second one. Zeros stand behind it where it is short.
fn twisted_file(rt: &impl Print, stdin: &mut impl Read) {
    let mut bytes = [0u8; 269];
    next(&mut *stdin, &mut bytes);
    list(rt, "a file with a twisted face: ", &bytes);
    again(rt, &bytes, 16);
}

// Writes so many words and numbers, zeros behind the cell 0..6 and `last`, into a buffer; and what the refusal left at the buffer's ends.
fn write(rt: &impl Print, label: &str, words: usize, numbers: usize, last: u32, room: usize)
    requires { (words ≤ 3073) × (numbers ≤ 1025) × (room ≤ 240) }
{
    let nodes = [0u64; 3073];
    let mut cells = [0u32; 1025];
    cells[..8].copy_from_slice(&[0, 1, 2, 3, 4, 5, 6, last]);
    let mut out = [7u8; 240];
    say_written(
        rt,
        label,
        hxm_write::write(&nodes[..words], &cells[..numbers], &mut out[..room]),
    );
    let _ = println!(rt; "left in the buffer: {} {}", out[0], out[239]);
}

// Each place of the writer's order, where a later one applies too.
fn unwritten(rt: &impl Print) {
    write(rt, "3,073 words, 7 numbers:", 3073, 7, 7, 240);
    write(rt, "4 words, 1,025 numbers:", 4, 1025, 7, 240);
    write(rt, "4 words, a cell:", 4, 8, 7, 240);
    write(rt, "no node, 9 numbers:", 0, 9, 7, 240);
    write(rt, "no node, a cell with a node twice:", 0, 8, 6, 240);
    write(rt, "node 6 twice, no room:", 24, 8, 6, 0);
    write(rt, "room for 236 bytes:", 24, 8, 7, 236);
    write(rt, "room for 237 bytes:", 24, 8, 7, 237);
}

// Reports a file into a list with room for so many volumes; and what then stands at the list's start, where it held 7.
fn report_file(rt: &impl Print, label: &str, bytes: &[u8], room: usize) {
    let mut volumes = [7i64; 128];
    let found = volume_report::report(bytes, &mut volumes[..room.min(128)]);
    say(rt, label, found, |summary| {
        print!(rt;
            "total {} cells {} first {}",
            summary.total, summary.cells, summary.first
        )
    });
    let _ = println!(rt; " list {} {}", volumes[0], volumes[1]);
}

// Reports the file of a mesh.
fn report(rt: &impl Print, label: &str, nodes: &[u64], cells: &[u32], room: usize)
    requires { (length nodes.now ≤ 24) × (length cells.now ≤ 1024) }
{
    let mut file = [0u8; 4301];
    let _ = hxm_write::write(nodes, cells, &mut file);
    let size = hxm::HEAD_LENGTH + 8 * nodes.len() + 4 * cells.len();
    report_file(rt, label, &file[..size], room);
}

// The nodes of the cube [0,2], but for the x of node 0.
fn cube_with(x: u64) -> [u64; 24] {
    let mut nodes = corners([0; 3], [TWO; 3]);
    nodes[0] = x;
    nodes
}

fn report_cubes(rt: &impl Print) {
    let cube = corners([0; 3], [TWO; 3]);
    let flat = corners([0; 3], [TWO, TWO, 0]);
    let cell = &TWO_CELLS[..8];
    report(rt, "volumes of the cube [0,2]:", &cube, cell, 2);
    report(rt, "of it and its mirror:", &cube, &MIRRORED, 2);
    report(rt, "of a pair with a twisted face:", &cube, &EXCHANGED, 2);
    report(rt, "of the cube with z = 0:", &flat, cell, 2);
}

fn report_no_cells(rt: &impl Print) {
    let node = [HALF, 0, 0];
    report(rt, "of no node and no cell:", &[], &[], 2);
    report(rt, "of an unused node (0.5,0,0):", &node, &[], 2);
}

// The cell 0..7, 128 times.
fn full() -> [u32; 1024] {
    array::from_fn(|i| (i % 8) as u32)
}

fn report_largest(rt: &impl Print) {
    let cells = full();
    let cube = corners([LEAST; 3], [MOST; 3]);
    let negated = corners([MOST; 3], [LEAST; 3]);
    report(rt, "of the cube [-1024,1024]:", &cube, &cells[..8], 2);
    report(rt, "of 128 such cells:", &cube, &cells, 128);
    report(rt, "with every corner negated:", &negated, &cells, 128);
}

// Reports the cube [0,2], but for the x of node 0.
fn report_with(rt: &impl Print, label: &str, x: u64, room: usize) {
    report(rt, label, &cube_with(x), &TWO_CELLS[..8], room);
}

// Reports a file of the cube and its mirror, with 0.5 in node 0, whose last node number is `last`.
fn report_with_last(rt: &impl Print, label: &str, last: u8) {
    let mut file = [0u8; 269];
    let _ = hxm_write::write(&cube_with(HALF), &MIRRORED, &mut file);
    file[265] = last;
    report_file(rt, label, &file, 2);
}

fn reported(rt: &impl Print) {
    report_cubes(rt);
    report_no_cells(rt);
    report_largest(rt);
    report_with(rt, "1,024 in node 0:", MOST, 2);
    report_with(rt, "minus zero in node 0:", 0x8000_0000_0000_0000, 2);
    report_with(rt, "the float above 1,024:", 0x4090_0000_0000_0001, 2);
    report_with(rt, "1,025:", 0x4090_0400_0000_0000, 2);
    report_with(rt, "0.5:", HALF, 2);
    report_with(rt, "the float above zero:", 1, 2);
    report_with(rt, "infinity:", 0x7ff0_0000_0000_0000, 2);
    report_with(rt, "a NaN:", 0x7ff0_0000_0000_0001, 2);
    report_with_last(rt, "0.5, and node 8 of 8 in the second cell:", 8);
    report_with_last(rt, "0.5, and node 6 twice in the second cell:", 6);
    report_with(rt, "0.5, and a list of no length:", HALF, 0);
    report_with(rt, "a list of no length:", 0, 0);
}

fn main(rt: HostRuntime) {
    let mut stdin = rt.stdin();
    located(&rt);
    shared_face(&rt);
    refined(&rt);
    short_output(&rt);
    with_last_node(&rt, "node 12 of 12:", 12);
    with_last_node(&rt, "node 8 twice:", 8);
    twisted(&rt);
    neighbours(&rt);
    orders(&rt, 1, 2, 6, 5);
    orders(&rt, 2, 1, 5, 6);
    orders(&rt, 6, 5, 1, 2);
    orders(&rt, 5, 6, 2, 1);
    descended(&rt);
    file(&rt, &mut stdin, "the sample file:\n");
    file(&rt, &mut stdin, "another mark: ");
    file(&rt, &mut stdin, "version 257: ");
    file(&rt, &mut stdin, "1,032 nodes: ");
    file(&rt, &mut stdin, "129 cells: ");
    file(&rt, &mut stdin, "7 nodes, which leaves bytes after: ");
    file(
        &rt,
        &mut stdin,
        "9 nodes, for which there are too few bytes: ",
    );
    file(&rt, &mut stdin, "node 8 of 8: ");
    file(&rt, &mut stdin, "node 6 twice: ");
    read_into(&rt, &mut stdin, 23, 9);
    read_into(&rt, &mut stdin, 25, 7);
    read_into(&rt, &mut stdin, 25, 9);
    sample_again(&rt, &mut stdin);
    unwritten(&rt);
    twisted_file(&rt, &mut stdin);
    file(&rt, &mut stdin, "12 bytes: ");
    reported(&rt);
}
