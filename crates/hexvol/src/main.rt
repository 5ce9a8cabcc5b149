// Reads a mesh file from standard input and prints the exact volumes of its cells, their total and the first that is not above zero. No good file is as
// long as the buffer, so that a longer input is told by what the buffer holds (volume_lines' claim EnoughToPrint). Where standard input cannot be read,
// or standard output cannot be written, a line on standard error says so; the exit status is 0 all the same.
// What it shares with hexkids is input's: a function over the list of either would have to ask that it may be called.
#![tactic(auto)]

use arrayvec::ArrayVec;

fn main(rt: HostRuntime) {
    let mut file = [0u8; 28686];
    let Ok(size) = input::read_all(&mut rt.stdin(), &mut file) else {
        let _ = eprintln!(rt; "hexvol: cannot read standard input");
        return;
    };
    let mut text = ArrayVec::new();
    volume_lines::list(&file[..size], &mut text);
    if rt.write_all(&text).is_err() {
        let _ = eprintln!(rt; "hexvol: cannot write standard output");
    }
}
