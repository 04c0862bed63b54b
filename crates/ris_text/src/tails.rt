ghost use Rattle.std.specs.Prelude.{◌≡◌, ◌≤◌, ◌+◌, [], ◌∷◌, ◌++◌, length, decimal};

use itoa::write_digits;
use std::marker::Model;

/// The most bytes that the end of a line has.
pub const ROOM: usize = 256;

/// The end of a line, which is put together from its last byte to its first, so that each number is written where it
/// stays.
#[derive(Drop)]
pub struct Tail {
    bytes: [u8; ROOM],
    start: usize,
}

impl Model for Tail {
    ghost use Rattle.std.specs.Prelude.{List, ℕ, drop, ◌≤◌};

    ghost Value = { List ℕ };

    ghost view = { λ t. drop t.start t.bytes };

    ghost invariant = { λ t. t.start ≤ 256 };
}

impl Tail {
    /// No bytes.
    pub fn new() -> Tail
        ensures { result ≡ [] }
    {
        Tail {
            bytes: [0; ROOM],
            start: ROOM,
        }
    }

    /// Drops all bytes.
    pub fn clear(&mut self)
        ensures { self.new ≡ [] }
    {
        self.start = ROOM;
    }

    /// A line feed alone.
    pub fn begin(&mut self)
        ensures { self.new ≡ 10 ∷ [] }
    {
        self.clear();
        self.put_word(b"\n");
    }

    /// A word in front.
    pub fn put_word<const N: usize>(&mut self, word: &[u8; N])
        requires { length self.old + N ≤ ROOM }
        ensures bytes { self.new ≡ word.now ++ self.old }
        ensures len { length self.new ≡ length self.old + N }
    {
        let start = self.start - N;
        self.bytes[start..self.start].copy_from_slice(word);
        self.start = start;
    }

    /// A number in front.
    pub fn put_number(&mut self, n: u64)
        requires { length self.old + 20 ≤ ROOM }
        ensures bytes { self.new ≡ decimal n ++ self.old }
        ensures len { length self.new ≤ length self.old + 20 }
    {
        self.start = write_digits(n, &mut self.bytes, self.start);
    }

    /// A number and a comma in front.
    pub fn put_next(&mut self, n: u64)
        requires { length self.old + 21 ≤ ROOM }
        ensures bytes { self.new ≡ decimal n ++ (44 ∷ self.old) }
        ensures len { length self.new ≤ length self.old + 21 }
    {
        self.put_word(b",");
        self.put_number(n);
    }

    /// The bytes.
    pub fn bytes(&self) -> &[u8]
        ensures { result.now ≡ self.now }
    {
        &self.bytes[self.start..]
    }
}
