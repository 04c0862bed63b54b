ghost use Rattle.std.specs.Prelude.{◌≡◌, ◌<◌, ◌≤◌, ℕ, List, Option, length, take, IfOk, OnErr};
ghost use Rattle.std.specs.Io.KnownBytes.{append_known};
ghost use Rattle.ris_base.specs.Causes.{HasCause};

use crate::Failed;

/// What bytes are written to. It counts its faults.
pub trait Sink {
    /// The bytes that it holds, where it tells them.
    ghost held: { Self → Option (List ℕ) };

    /// How often it failed so far.
    ghost faults: { Self → ℕ };

    /// Takes the first bytes of a piece behind those that it holds, and answers how many: at least one of a piece that
    /// isn't empty. After `Failed` it holds what it held.
    fn write(&mut self, piece: &[u8]) -> Result<usize, Failed>
        ensures bound { IfOk result (λ n. n ≤ length piece.now) }
        ensures some { IfOk result (λ n. 0 < length piece.now → 0 < n) }
        ensures bytes { IfOk result (λ n. held self.new ≡ append_known (held self.old) (take n piece.now)) }
        ensures failed { OnErr result (held self.new ≡ held self.old) }
        ensures cause { HasCause (faults self.old) (faults self.new) result };
}
