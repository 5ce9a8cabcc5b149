// A stored record: a function, its input and its outcome.
ghost use Rattle.std.specs.Prelude.{◌+◌, ◌*◌, ◌<◌, ◌≤◌, length};

use answer::Refusal;
use std::io::Read;
use std::{array, num};

// A record has at most 255 input words and as many output words.
const WORDS: usize = 510;

// What a word can be made of: a float is its bits, with one pattern for every NaN.
pub(crate) trait ToWord: Copy {
    fn to_word(self) -> u64;
}

impl ToWord for f64 {
    fn to_word(self) -> u64 {
        num::f64_to_bits_with_nan(self)
    }
}

impl ToWord for u64 {
    fn to_word(self) -> u64 {
        self
    }
}

impl ToWord for u32 {
    fn to_word(self) -> u64 {
        u64::from(self)
    }
}

impl ToWord for u8 {
    fn to_word(self) -> u64 {
        u64::from(self)
    }
}

impl ToWord for i64 {
    fn to_word(self) -> u64 {
        self.cast_unsigned()
    }
}

// What a word can be read as.
pub(crate) trait FromWord {
    fn from_word(word: u64) -> Self;
}

impl FromWord for f64 {
    fn from_word(word: u64) -> f64 {
        num::f64_from_bits_with_nan(word)
    }
}

impl FromWord for u64 {
    fn from_word(word: u64) -> u64 {
        word
    }
}

impl FromWord for u32 {
    fn from_word(word: u64) -> u32 {
        (word % 0x1_0000_0000) as u32
    }
}

// Four bytes, which are the function, the number of the input words, the outcome (0 or a refusal's number) and the number of the output words; and then
// these words, little-endian, and zeros.
#[derive(Drop)]
pub(crate) struct Record {
    function: u8,
    inputs: u8,
    outcome: u8,
    words: [[u8; 8]; WORDS],
}

impl Record {
    // The next record. At the end of the input, or where a read fails, the rest of it is zeros.
    pub(crate) fn next(stdin: &mut impl Read) -> Record {
        let mut head = [0u8; 4];
        let _ = input::read_all(&mut *stdin, &mut head);
        let [function, inputs, outcome, outputs] = head;
        let mut words = [[0u8; 8]; WORDS];
        let count = usize::from(inputs) + usize::from(outputs);
        let _ = input::read_all(stdin, words[..count].as_flattened_mut());
        Record {
            function,
            inputs,
            outcome,
            words,
        }
    }

    // The function's number, 0 where the records end.
    pub(crate) fn function(&self) -> u8 {
        self.function
    }

    // How many input words there are: the output begins behind them.
    pub(crate) fn inputs(&self) -> usize
        ensures { result < 256 }
    {
        usize::from(self.inputs)
    }

    // Word i.
    pub(crate) fn value<T: FromWord>(&self, i: usize) -> T
        requires { i < 510 }
    {
        T::from_word(u64::from_le_bytes(self.words[i]))
    }

    // The words from `from` on.
    pub(crate) fn values<T: FromWord, const N: usize>(&self, from: usize) -> [T; N]
        requires { from + N ≤ 510 }
    {
        array::from_fn(|i| self.value(from + i))
    }

    // The same into a list.
    pub(crate) fn fill<T: FromWord + Copy>(&self, from: usize, list: &mut [T])
        requires { from ≤ 510 }
    {
        for (x, word) in list.iter_mut().zip(&self.words[from..]) {
            *x = T::from_word(u64::from_le_bytes(*word));
        }
    }

    // Word i as a length, at most `most`.
    pub(crate) fn length(&self, i: usize, most: usize) -> usize
        requires { i < 510 }
        ensures { result ≤ most }
    {
        most.min(self.value::<u64>(i) as usize)
    }

    // The first bytes of the words from `from` on.
    pub(crate) fn bytes(&self, from: usize, size: usize) -> &[u8]
        requires { 8 * from + size ≤ 4080 }
    {
        &self.words[from..].as_flattened()[..size]
    }

    pub(crate) fn refuses(&self, refusal: Refusal) -> bool {
        u32::from(self.outcome) == refusal.number()
    }

    // Whether it has an answer, which has the list from its word `at` on.
    pub(crate) fn gives<T: ToWord>(&self, at: usize, list: &[T]) -> bool
        requires { at + length list.now ≤ 255 }
    {
        let output = &self.words[self.inputs() + at..];
        self.outcome == 0
            && list
                .iter()
                .zip(output)
                .all(|(x, word)| x.to_word() == u64::from_le_bytes(*word))
    }

    // Whether it has this answer.
    pub(crate) fn answers<T: ToWord, const N: usize>(&self, found: Result<[T; N], Refusal>) -> bool
        requires { N ≤ 255 }
    {
        match found {
            Ok(list) => self.gives(0, &list),
            Err(refusal) => self.refuses(refusal),
        }
    }
}
