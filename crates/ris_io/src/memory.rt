ghost use Rattle.std.specs.Prelude.{◌≡◌, ◌⊎◌, ◌↔◌, ◌+◌, ◌<◌, ◌≤◌, ◌++◌, ℕ, List, [], Some, length, take, drop, min, IfOk, OnOk, OnErr, IsErr, Contains};
ghost use Rattle.std.specs.Io.KnownBytes.{prepend_known, append_known, IsAtEnd};
ghost use Rattle.ris_base.specs.Causes.{HasCause};
ghost use Rattle.ris_io.specs.Memory.{one_more, given, after_read, after_failed_read, taken, after_write, after_failed_write};

use crate::pieces::copy_front;
use crate::{Failed, Sink, Source};
use ris_base::{Bytes, Sequence};
use std::alloc::Global;
use std::marker::Model;

/// Numbers of calls, counted from 1.
pub type Calls = Sequence<u64>;

/// A source in memory, which fails at the calls that it is told.
#[derive(Drop)]
pub struct MemSource {
    bytes: Vec<u8>,
    start: usize,
    cut: u64,
    fails: Vec<u64>,
    calls: u64,
    faults: u64,
}

impl Model for MemSource {
    ghost use Rattle.std.specs.Prelude.{◌≤◌, drop, vec_len};
    ghost use Rattle.ris_io.specs.Memory.{SourceState};

    ghost Value = { SourceState };

    ghost view = { λ s. record { left = drop s.start s.bytes.items; cut = s.cut; fails = s.fails.items; calls = s.calls; faults = s.faults } };

    ghost invariant = { λ s. (1 ≤ s.cut) × (s.start ≤ vec_len s.bytes) };
}

impl MemSource {
    /// A source with these bytes left. A call gives as many as it can, and at most `cut`; those whose numbers are in `fails`
    /// fail. No call was made, and none failed.
    pub fn new(bytes: Bytes, cut: u64, fails: Calls) -> MemSource
        requires { 1 ≤ cut }
        ensures { result ≡ record { left = bytes; cut = cut; fails = fails; calls = 0; faults = 0 } }
    {
        MemSource {
            bytes: bytes.into_vec(),
            start: 0,
            cut,
            fails: fails.into_vec(),
            calls: 0,
            faults: 0,
        }
    }
}

impl Source for MemSource {
    ghost left = { λ s. Some s.left };

    ghost faults = { λ s. s.faults };

    /// The next call of a `MemSource`: it fails exactly where its number is in `fails`, and else gives exactly as many bytes
    /// as there are, at most `cut`, and at most as many as the piece has.
    fn read(&mut self, into: &mut [u8]) -> Result<usize, Failed>
        ensures bound { IfOk result (λ n. n ≤ length into.new) }
        ensures bytes { IfOk result (λ n. Some self.old.left ≡ prepend_known (take n into.new) (Some self.new.left)) }
        ensures end { IfOk result (λ n. n ≡ 0 → 0 < length into.new → IsAtEnd (Some self.new.left)) }
        ensures failed { OnErr result (Some self.new.left ≡ Some self.old.left) }
        ensures cause { HasCause self.old.faults self.new.faults result }

        // Which call fails, and what each gives.
        ensures fails { IsErr result ↔ Contains self.old.fails (one_more self.old.calls) }
        ensures count { IfOk result (λ n. n ≡ given self.old (length into.old)) }
        ensures copied { IfOk result (λ n. into.new ≡ take n self.old.left ++ drop n into.old) }
        ensures after { IfOk result (λ n. self.new ≡ after_read self.old n) }
        ensures after_failed { OnErr result ((self.new ≡ after_failed_read self.old) × (into.new ≡ into.old)) }
    {
        self.calls = self.calls.saturating_add(1);
        if self.fails.contains(&self.calls) {
            self.faults = self.faults.saturating_add(1);
            return Err(Failed);
        }
        let n = copy_front(&self.bytes[self.start..], into, self.cut);
        self.start += n;
        Ok(n)
    }
}

/// A sink in memory, which fails at the calls that it is told.
#[derive(Drop)]
pub struct MemSink {
    bytes: Vec<u8>,
    cut: u64,
    fails: Vec<u64>,
    calls: u64,
    faults: u64,
}

impl Model for MemSink {
    ghost use Rattle.std.specs.Prelude.{◌≤◌, vec_capacity};
    ghost use Rattle.ris_io.specs.Memory.{SinkState};

    ghost Value = { SinkState };

    ghost view = { λ s. record { held = s.bytes.items; cut = s.cut; fails = s.fails.items; calls = s.calls; faults = s.faults; room = vec_capacity s.bytes } };

    ghost invariant = { λ s. 1 ≤ s.cut };
}

impl MemSink {
    /// A sink that holds nothing. A call takes at most `cut` bytes; those whose numbers are in `fails` fail. No call was
    /// made, and none failed.
    pub fn new(alloc: Global, cut: u64, fails: Calls) -> MemSink
        requires { 1 ≤ cut }
        ensures { result ≡ record { held = []; cut = cut; fails = fails; calls = 0; faults = 0; room = 0 } }
    {
        MemSink {
            bytes: Vec::new(alloc),
            cut,
            fails: fails.into_vec(),
            calls: 0,
            faults: 0,
        }
    }

    /// What it holds.
    pub fn held(&self) -> &[u8]
        ensures { result.now ≡ self.now.held }
    {
        &self.bytes
    }
}

impl Sink for MemSink {
    ghost held = { λ s. Some s.held };

    ghost faults = { λ s. s.faults };

    /// The next call of a `MemSink`: it fails where its number is in `fails` or where it has no memory for the bytes and finds
    /// none, and else takes exactly as many bytes as the piece has, and at most `cut`.
    fn write(&mut self, piece: &[u8]) -> Result<usize, Failed>
        ensures bound { IfOk result (λ n. n ≤ length piece.now) }
        ensures some { IfOk result (λ n. 0 < length piece.now → 0 < n) }
        ensures bytes { IfOk result (λ n. Some self.new.held ≡ append_known (Some self.old.held) (take n piece.now)) }
        ensures failed { OnErr result (Some self.new.held ≡ Some self.old.held) }
        ensures cause { HasCause self.old.faults self.new.faults result }

        // Which call fails, and how much each takes.
        ensures fails { Contains self.old.fails (one_more self.old.calls) → IsErr result }
        ensures no_memory { OnErr result (Contains self.old.fails (one_more self.old.calls)
            ⊎ (self.old.room < length self.old.held + taken self.old piece.now)) }
        ensures count { IfOk result (λ n. n ≡ taken self.old piece.now) }
        ensures after { IfOk result (λ n. self.new ≡ after_write self.old piece.now n self.new.room) }
        ensures after_failed { OnErr result (self.new ≡ after_failed_write self.old self.new.room) }
        ensures room { self.old.room ≤ self.new.room }
    {
        self.calls = self.calls.saturating_add(1);
        let n = self.cut.min(piece.len() as u64) as usize;
        if self.fails.contains(&self.calls) || self.bytes.extend_from_slice(&piece[..n]).is_err() {
            self.faults = self.faults.saturating_add(1);
            return Err(Failed);
        }
        Ok(n)
    }
}
