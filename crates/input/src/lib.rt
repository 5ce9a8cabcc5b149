// An input read whole into a lent buffer, and a failed read told.
#![tactic(auto)]

ghost use Rattle.std.specs.Prelude.{◌≤◌, length, IfOk};

use std::io;
use std::io::Read;

// Reads until the buffer is full or the input ends, and answers how many bytes it put at the buffer's start. One read may give fewer bytes than there are,
// and gives none at the end of the input: so the loop goes on by what came, and no `for` counts it.
pub fn read_all<R: Read>(reader: &mut R, buf: &mut [u8]) -> io::Result<usize>
    ensures { IfOk result (λ size. size ≤ length buf.new) }
{
    let mut size = 0usize;
    while size < buf.len() {
        let more = reader.read(&mut buf[size..])?;
        if more == 0 {
            break;
        }
        size += more;
    }
    Ok(size)
}
