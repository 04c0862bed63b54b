ghost use Rattle.std.specs.Prelude.{◌≡◌};

use ris_base::Meter;
use std::marker::Model;

/// A meter that keeps its count, from 0 to 18,446,744,073,709,551,615, and is seen as it.
#[derive(Drop)]
pub struct Tally {
    count: u64,
}

impl Model for Tally {
    ghost use Rattle.std.specs.Prelude.{ℕ};

    ghost Value = { ℕ };

    ghost view = { λ t. t.count };
}

impl Tally {
    /// No visits so far.
    pub fn new() -> Tally
        ensures { result ≡ 0 }
    {
        Tally { count: 0 }
    }
}

impl Meter for Tally {
    ghost ticks = { λ t. t };

    fn tick(&mut self) {
        self.count = self.count.saturating_add(1);
    }

    fn total(&self) -> u64 {
        self.count
    }
}

#[cfg(test)]
mod tests {
    use super::*;

    // The total before and after so many ticks, through the bound.
    fn totals<M: Meter>(meter: &mut M, ticks: u32) -> (u64, u64) {
        let before = meter.total();
        for _ in 0..ticks {
            meter.tick();
        }
        (before, meter.total())
    }

    #[test]
    fn visits_are_counted(rt: HostRuntime) {
        let mut meter = Tally::new();
        assert_eq!(rt; totals(&mut meter, 3), (0, 3));
        assert_eq!(rt; totals(&mut meter, 2), (3, 5));
    }

    #[test]
    fn the_count_stands_at_its_end(rt: HostRuntime) {
        let mut meter = Tally {
            count: 18446744073709551613,
        };
        assert_eq!(rt;
            totals(&mut meter, 5),
            (18446744073709551613, 18446744073709551615)
        );
    }
}
