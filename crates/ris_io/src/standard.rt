ghost use Rattle.std.specs.Prelude.{◌≡◌, ◌<◌, ◌≤◌, None, ℕ, length, take, IfOk, OnOk, OnErr, IfSome, IfNone};
ghost use Rattle.std.specs.Io.KnownBytes.{Appends, Consumes, IsAtEnd, Keeps};
ghost use Rattle.ris_base.specs.Causes.{HasCause};
ghost use Rattle.ris_io.specs.Memory.{one_more};

use crate::{Failed, Sink, Source};
use std::io::{ErrorKind, Read, Write};
use std::marker::Model;

// How often a call is made: once, and again after each of 1,000 interruptions.
const CALLS: u32 = 1001;

/// A source over any reader of std, such as the standard input. It tells no bytes. It is seen as the reader and its
/// count of faults.
#[derive(Drop)]
pub struct StdSource<R> {
    inner: R,
    faults: u64,
}

impl<R> Model for StdSource<R> {
    ghost use Rattle.std.specs.Prelude.{ℕ};

    ghost Value = { R × ℕ };

    ghost view = { λ s. (s.inner, s.faults) };
}

impl<R: Read> StdSource<R> {
    /// A source over this reader, with a count of 0.
    pub fn new(inner: R) -> StdSource<R>
        ensures { result ≡ (inner, 0) }
    {
        StdSource { inner, faults: 0 }
    }
}

// Reads, again after an interruption, and gives the count. `None` for every other error.
fn read_through<R: Read>(inner: &mut R, into: &mut [u8]) -> Option<usize>
    ensures bound { IfSome result (λ n. n ≤ length into.new) }
    ensures bytes { IfSome result (λ n. Consumes (R.remaining inner.old) (R.remaining inner.new) (take n into.new)) }
    ensures end { IfSome result (λ n. n ≡ 0 → 0 < length into.new → IsAtEnd (R.remaining inner.new)) }
    ensures failed { IfNone result (Keeps (R.remaining inner.old) (R.remaining inner.new)) }
{
    for _ in 0..CALLS {
        match inner.read(into) {
            Ok(n) => return Some(n),
            Err(error) => {
                if error.kind() != ErrorKind::Interrupted {
                    return None;
                }
            }
        }
    }
    None
}

impl<R: Read> Source for StdSource<R> {
    ghost left = { λ _. None };

    ghost faults = { λ s. s.1 };

    /// One read of the reader, made again after an interruption, at most 1,000 times. The next interruption and every other
    /// error is a fault.
    fn read(&mut self, into: &mut [u8]) -> Result<usize, Failed>
        ensures bound { IfOk result (λ n. n ≤ length into.new) }
        ensures cause { HasCause self.old.1 self.new.1 result }

        // How far the count rises.
        ensures ok { OnOk result (self.new.1 ≡ self.old.1) }
        ensures err { OnErr result (self.new.1 ≡ one_more self.old.1) }

        // What the reader tells: it gave these bytes, and 0 for a piece that isn't empty only at its end.
        ensures given { IfOk result (λ n. Consumes (R.remaining self.old.0) (R.remaining self.new.0) (take n into.new)) }
        ensures at_end { IfOk result (λ n. n ≡ 0 → 0 < length into.new → IsAtEnd (R.remaining self.new.0)) }
        ensures kept { OnErr result (Keeps (R.remaining self.old.0) (R.remaining self.new.0)) }
    {
        match read_through(&mut self.inner, into) {
            Some(n) => Ok(n),
            None => {
                self.faults = self.faults.saturating_add(1);
                Err(Failed)
            }
        }
    }
}

/// A sink over any writer of std that passes on what it takes, such as the standard output. It tells no bytes.
/// It flushes nothing, so a writer with a buffer of its own is to be flushed by who made it. It is seen as the writer and
/// its count of faults.
#[derive(Drop)]
pub struct StdSink<W> {
    inner: W,
    faults: u64,
}

impl<W> Model for StdSink<W> {
    ghost use Rattle.std.specs.Prelude.{ℕ};

    ghost Value = { W × ℕ };

    ghost view = { λ s. (s.inner, s.faults) };
}

impl<W: Write> StdSink<W> {
    /// A sink over this writer, with a count of 0.
    pub fn new(inner: W) -> StdSink<W>
        ensures { result ≡ (inner, 0) }
    {
        StdSink { inner, faults: 0 }
    }
}

// Writes, again after an interruption, and gives the count. `None` for every other error, and where the writer takes no
// byte of a piece that isn't empty.
fn write_through<W: Write>(inner: &mut W, piece: &[u8]) -> Option<usize>
    ensures bound { IfSome result (λ n. n ≤ length piece.now) }
    ensures some { IfSome result (λ n. 0 < length piece.now → 0 < n) }
    ensures bytes { IfSome result (λ n. Appends (W.contents inner.old) (W.contents inner.new) (take n piece.now)) }
    ensures failed { IfNone result (Keeps (W.contents inner.old) (W.contents inner.new)) }
{
    for _ in 0..CALLS {
        match inner.write(piece) {
            Ok(n) => return if n > 0 || piece.is_empty() {
                Some(n)
            } else {
                None
            },
            Err(error) => {
                if error.kind() != ErrorKind::Interrupted {
                    return None;
                }
            }
        }
    }
    None
}

impl<W: Write> Sink for StdSink<W> {
    ghost held = { λ _. None };

    ghost faults = { λ s. s.1 };

    /// One write to the writer, made again after an interruption, at most 1,000 times. The next interruption and every other
    /// error is a fault, and so is a write that takes no byte.
    fn write(&mut self, piece: &[u8]) -> Result<usize, Failed>
        ensures bound { IfOk result (λ n. n ≤ length piece.now) }
        ensures some { IfOk result (λ n. 0 < length piece.now → 0 < n) }
        ensures cause { HasCause self.old.1 self.new.1 result }

        // How far the count rises.
        ensures ok { OnOk result (self.new.1 ≡ self.old.1) }
        ensures err { OnErr result (self.new.1 ≡ one_more self.old.1) }

        // What the writer tells: it holds these bytes too.
        ensures taken { IfOk result (λ n. Appends (W.contents self.old.0) (W.contents self.new.0) (take n piece.now)) }
        ensures kept { OnErr result (Keeps (W.contents self.old.0) (W.contents self.new.0)) }
    {
        match write_through(&mut self.inner, piece) {
            Some(n) => Ok(n),
            None => {
                self.faults = self.faults.saturating_add(1);
                Err(Failed)
            }
        }
    }
}
