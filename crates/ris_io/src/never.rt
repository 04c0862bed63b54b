ghost use Rattle.std.specs.Prelude.{◌≡◌, ◌<◌, ◌≤◌, ◌++◌, Some, None, Ok, length, take, drop, min, IfOk, OnErr};
ghost use Rattle.std.specs.Io.KnownBytes.{prepend_known, append_known, IsAtEnd};
ghost use Rattle.ris_base.specs.Causes.{HasCause};

use crate::pieces::copy_front;
use crate::{Failed, Sink, Source};
use ris_base::Bytes;
use std::marker::Model;

/// A source in memory that never fails, seen as the bytes that are left.
#[derive(Drop)]
pub struct NeverSource {
    bytes: Vec<u8>,
    start: usize,
}

impl Model for NeverSource {
    ghost use Rattle.std.specs.Prelude.{◌≤◌, ℕ, List, drop, vec_len};

    ghost Value = { List ℕ };

    ghost view = { λ s. drop s.start s.bytes.items };

    ghost invariant = { λ s. s.start ≤ vec_len s.bytes };
}

impl NeverSource {
    /// A source with these bytes left.
    pub fn new(bytes: Bytes) -> NeverSource
        ensures { result ≡ bytes }
    {
        NeverSource {
            bytes: bytes.into_vec(),
            start: 0,
        }
    }
}

impl Source for NeverSource {
    ghost left = { λ s. Some s };

    ghost faults = { λ _. 0 };

    /// Gives as many bytes as there are and the piece has room for. It never fails.
    fn read(&mut self, into: &mut [u8]) -> Result<usize, Failed>
        ensures bound { IfOk result (λ n. n ≤ length into.new) }
        ensures bytes { IfOk result (λ n. Some self.old ≡ prepend_known (take n into.new) (Some self.new)) }
        ensures end { IfOk result (λ n. n ≡ 0 → 0 < length into.new → IsAtEnd (Some self.new)) }
        ensures failed { OnErr result (Some self.new ≡ Some self.old) }
        ensures cause { HasCause 0 0 result }

        // How many bytes it gives.
        ensures count { result ≡ Ok (min (length into.old) (length self.old)) }
        ensures copied { IfOk result (λ n. into.new ≡ take n self.old ++ drop n into.old) }
        ensures after { IfOk result (λ n. self.new ≡ drop n self.old) }
    {
        let n = copy_front(&self.bytes[self.start..], into, u64::MAX);
        self.start += n;
        Ok(n)
    }
}

/// A sink that drops what it gets and tells nothing. It never fails.
#[derive(Clone, Copy, Debug)]
pub struct NeverSink;

impl NeverSink {
    pub fn new() -> NeverSink {
        NeverSink
    }
}

impl Sink for NeverSink {
    ghost held = { λ _. None };

    ghost faults = { λ _. 0 };

    /// Takes the whole piece. It never fails.
    fn write(&mut self, piece: &[u8]) -> Result<usize, Failed>
        ensures bound { IfOk result (λ n. n ≤ length piece.now) }
        ensures some { IfOk result (λ n. 0 < length piece.now → 0 < n) }
        ensures cause { HasCause 0 0 result }

        // How many bytes it takes.
        ensures count { result ≡ Ok (length piece.now) }
    {
        Ok(piece.len())
    }
}
