ghost use Rattle.std.specs.Prelude.{◌≡◌, ◌<◌, ◌≤◌, ℕ, List, Option, length, take, IfOk, OnErr};
ghost use Rattle.std.specs.Io.KnownBytes.{prepend_known, IsAtEnd};
ghost use Rattle.ris_base.specs.Causes.{HasCause};

use crate::Failed;

/// What bytes are read from. It counts its faults.
pub trait Source {
    /// The bytes that are left, where it tells them.
    ghost left: { Self → Option (List ℕ) };

    /// How often it failed so far.
    ghost faults: { Self → ℕ };

    /// Reads the next bytes into the front of a piece, and answers how many. 0 for a piece that isn't empty says that no
    /// bytes are left. What stands behind them in the piece afterwards is left open. After `Failed` no byte is gone.
    fn read(&mut self, into: &mut [u8]) -> Result<usize, Failed>
        ensures bound { IfOk result (λ n. n ≤ length into.new) }

        // The bytes that it gave were the first of those that were left.
        ensures bytes { IfOk result (λ n. left self.old ≡ prepend_known (take n into.new) (left self.new)) }
        ensures end { IfOk result (λ n. n ≡ 0 → 0 < length into.new → IsAtEnd (left self.new)) }
        ensures failed { OnErr result (left self.new ≡ left self.old) }
        ensures cause { HasCause (faults self.old) (faults self.new) result };
}
