// Whole numbers in lent bytes, the lowest byte first, and other bytes: read, and put into a buffer from a place on. What puts answers the place behind what it
// put. Where the buffer has no room for the whole of it, nothing is written, and the place is answered as it was. What reads takes a byte that is not there as
// zero. The buffer and the place are no struct: C lends the one, and the other is the answer.
#![tactic(auto)]

ghost use Rattle.std.specs.Prelude.{ℕ, ◌≡◌, [], ◌∷◌, ◌+◌, ◌*◌, ◌≤◌, ◌<◌, leb, length, map};
ghost use Rattle.std.proofs.Common.{rules};
ghost use Rattle.numbers.specs.Little.{number_at, numbers_at, bytes, all_bytes};
ghost use Rattle.buffer.specs.Put.{Puts, Wrote};

// A whole number that stands in so many bytes, at most eight, the lowest first. What is said of its value leaves one possible number.
pub trait Little: Copy {
    const WIDTH: usize;

    ghost WIDTH: { ℕ };

    ghost value: { Self → ℕ };

    // In eight bytes: the number's own, and behind them zeros.
    fn to_bytes(self) -> [u8; 8]
        ensures { result ≡ bytes 8 (value self) };

    // The number in the first bytes of eight, whatever stands behind them.
    fn of_bytes(bytes: [u8; 8]) -> Self
        ensures { value result ≡ number_at bytes WIDTH 0 };

    ghost some_bytes: { 0 < WIDTH };

    ghost most_bytes: { WIDTH ≤ 8 };

    ghost one_of_each: { (x y : Self) → value x ≡ value y → x ≡ y };

    // Put as `put` does, where the place behind the number is of no use. Where there is no room for it nothing is written.
    final fn store(self, out: &mut [u8], at: usize)
        ensures no_room { length out.old < at + WIDTH → out.new ≡ out.old }
        ensures written { at + WIDTH ≤ length out.old
            → Wrote out.old out.new at (at + WIDTH) (bytes WIDTH (value self)) }
    {
        put(out, at, self);
    }

    // The number that stands at `at`. A byte that is not there counts as zero.
    final fn load(bytes: &[u8], at: usize) -> Self
        ensures { value result ≡ number_at bytes.now WIDTH at }
    {
        Self::of_bytes(eight_at(bytes, at))
    }
}

impl Little for u16 {
    const WIDTH: usize = 2;

    ghost WIDTH = { 2 };

    ghost value = { λ x. x };

    ghost some_bytes = { Prim.search rules };

    ghost most_bytes = { Prim.search rules };

    ghost one_of_each = { λ x y same. same };

    fn to_bytes(self) -> [u8; 8] {
        (self as u64).to_le_bytes()
    }

    fn of_bytes(bytes: [u8; 8]) -> u16 {
        u16::from_le_bytes([bytes[0], bytes[1]])
    }
}

impl Little for u32 {
    const WIDTH: usize = 4;

    ghost WIDTH = { 4 };

    ghost value = { λ x. x };

    ghost some_bytes = { Prim.search rules };

    ghost most_bytes = { Prim.search rules };

    ghost one_of_each = { λ x y same. same };

    fn to_bytes(self) -> [u8; 8] {
        (self as u64).to_le_bytes()
    }

    fn of_bytes(bytes: [u8; 8]) -> u32 {
        u32::from_le_bytes([bytes[0], bytes[1], bytes[2], bytes[3]])
    }
}

impl Little for u64 {
    const WIDTH: usize = 8;

    ghost WIDTH = { 8 };

    ghost value = { λ x. x };

    ghost some_bytes = { Prim.search rules };

    ghost most_bytes = { Prim.search rules };

    ghost one_of_each = { λ x y same. same };

    fn to_bytes(self) -> [u8; 8] {
        self.to_le_bytes()
    }

    fn of_bytes(bytes: [u8; 8]) -> u64 {
        u64::from_le_bytes(bytes)
    }
}

// Whether a buffer of `room` bytes has room behind the first `at` for `count` pieces of `width` bytes. Nothing is added to the place, which may be any
// number, and nothing is multiplied.
fn fits(room: usize, at: usize, width: usize, count: usize) -> bool
    requires { 0 < width }
    ensures { result ≡ leb (at + width * count) room }
{
    if at > room {
        return false;
    }
    count <= (room - at) / width
}

fn store<T: Little>(out: &mut [u8], at: usize, x: T)
    requires { at + T.WIDTH ≤ length out.old }
    ensures { Wrote out.old out.new at (at + T.WIDTH) (bytes T.WIDTH (T.value x)) }
{
    let low = x.to_bytes();
    out[at..at + T::WIDTH].copy_from_slice(&low[..T::WIDTH]);
}

// The eight bytes from `at` on, with zeros for those that are not there.
fn eight_at(bytes: &[u8], at: usize) -> [u8; 8]
    ensures { (width : ℕ) → width ≤ 8 → number_at result width 0 ≡ number_at bytes.now width at }
{
    let from = at.min(bytes.len());
    let size = (bytes.len() - from).min(8);
    let mut low = [0u8; 8];
    low[..size].copy_from_slice(&bytes[from..from + size]);
    low
}

// The numbers of a list, one behind another.
fn store_all<T: Little>(out: &mut [u8], at: usize, list: &[T])
    requires { at + T.WIDTH * length list.now ≤ length out.old }
    ensures { Wrote out.old out.new at (at + T.WIDTH * length list.now)
        (all_bytes T.WIDTH (map T.value list.now)) }
{
    for i in 0..list.len() {
        store(&mut *out, at + T::WIDTH * i, list[i]);
    }
}

pub fn put<T: Little>(out: &mut [u8], at: usize, x: T) -> usize
    ensures { Puts out.old out.new at result (bytes T.WIDTH (T.value x)) }
{
    let width = T::WIDTH;
    if !fits(out.len(), at, width, 1) {
        return at;
    }
    let end = at + width;
    store(&mut *out, at, x);
    end
}

// All numbers of a list.
pub fn put_all<T: Little>(out: &mut [u8], at: usize, list: &[T]) -> usize
    ensures { Puts out.old out.new at result (all_bytes T.WIDTH (map T.value list.now)) }
{
    let width = T::WIDTH;
    if !fits(out.len(), at, width, list.len()) {
        return at;
    }
    store_all(&mut *out, at, list);
    at + width * list.len()
}

// A byte by itself, and no `Little`: as a number of one byte it would owe each caller that its text is the byte, and be no plainer.
pub fn put_byte(out: &mut [u8], at: usize, b: u8) -> usize
    ensures { Puts out.old out.new at result (b ∷ []) }
{
    if at >= out.len() {
        return at;
    }
    out[at] = b;
    at + 1
}

// All of a text.
pub fn put_bytes(out: &mut [u8], at: usize, text: &[u8]) -> usize
    ensures { Puts out.old out.new at result text.now }
{
    if !fits(out.len(), at, 1, text.len()) {
        return at;
    }
    let end = at + text.len();
    out[at..end].copy_from_slice(text);
    end
}

// The numbers that stand one behind another from a place on, as many as `out` is long. A byte that is not there counts as zero.
pub fn load_all<T: Little>(bytes: &[u8], at: usize, out: &mut [T])
    ensures { map T.value out.new ≡ numbers_at bytes.now T.WIDTH at (length out.old) }
{
    // By index: of a list that an iterator writes a proof knows the length alone. No byte stands at a place that is too great for a number.
    for i in 0..out.len() {
        out[i] = T::load(bytes, at.saturating_add(T::WIDTH.saturating_mul(i)));
    }
}

#[cfg(test)]
mod tests {
    use super::*;

    #[test]
    fn a_number_is_stored_where_it_fits(rt: HostRuntime) {
        let mut out = [9; 7];
        0x1234u16.store(&mut out, 1);
        assert_eq!(rt; out, [9, 0x34, 0x12, 9, 9, 9, 9]);
        7u32.store(&mut out, 4);
        7u64.store(&mut out, usize::MAX);
        assert_eq!(rt; out, [9, 0x34, 0x12, 9, 9, 9, 9]);
        0x8765_4321u32.store(&mut out, 3);
        assert_eq!(rt; out, [9, 0x34, 0x12, 0x21, 0x43, 0x65, 0x87]);
    }

    #[test]
    fn a_byte_that_is_not_there_is_zero(rt: HostRuntime) {
        let bytes = [1, 2, 3, 4, 5];
        assert_eq!(rt; u16::load(&bytes, 3), 0x0504);
        assert_eq!(rt; u32::load(&bytes, 3), 0x0504);
        assert_eq!(rt; u64::load(&bytes, 0), 0x05_0403_0201);
        assert_eq!(rt; u64::load(&bytes, 5), 0);
        assert_eq!(rt; u16::load(&bytes, usize::MAX), 0);
        let mut list = [9u16; 3];
        load_all(&bytes, 1, &mut list);
        assert_eq!(rt; list, [0x0302, 0x0504, 0]);
        load_all(&bytes, usize::MAX - 1, &mut list);
        assert_eq!(rt; list, [0; 3]);
    }
}
