ghost use Rattle.std.specs.Prelude.{◌≡◌, ◌+◌, ◌-◌, ◌^◌, ℕ, min};

/// Counts visits. A visit is one neighbour that the engine hands out.
pub trait Meter: Send + Sync {
    /// The visits so far.
    ghost ticks: { Self → ℕ };

    /// One visit more, or the count stands at 18,446,744,073,709,551,615.
    fn tick(&mut self)
        ensures { ticks self.new ≡ min (ticks self.old + 1) (2 ^ 64 - 1) };

    /// The visits so far.
    fn total(&self) -> u64
        ensures { result ≡ ticks self.now };
}

/// Is entered once by each job of a parallel phase, at its start. It tells nothing.
pub trait Gate: Sync {
    fn enter(&self, job: u32);
}

/// A gate that holds nobody.
#[derive(Clone, Copy, Debug)]
pub struct FreeGate;

impl Gate for FreeGate {
    fn enter(&self, _job: u32) {}
}
