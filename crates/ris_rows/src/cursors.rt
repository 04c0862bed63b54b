ghost use Rattle.std.specs.Prelude.{◌≡◌, [], ◌+◌, ◌-◌, ◌^◌, min, drop, slice_get, if◌then◌else◌, is_some};
ghost use Rattle.std.specs.Option.{option_map};

use crate::glances::Glance;
use crate::neighbours::Packed;
use ris_base::Meter;
use std::marker::{Model, PhantomData};
use std::slice::Iter;

/// Hands out the neighbours of a row, in order. Contracts see it as the list of the neighbours that are left.
#[derive(Drop)]
pub struct Cursor<'a, M> {
    rest: Iter<'a, Packed>,
    meter: PhantomData<M>,
}

impl<'a, M> Model for Cursor<'a, M> {
    ghost use Rattle.std.specs.Prelude.{List};
    ghost use Rattle.std.specs.Slice.Iter.{iter_rest};
    ghost use Rattle.ris_rows.specs.declared.neighbours.Neighbour.{Neighbour};

    ghost Value = { List Neighbour };

    ghost view = { λ c. iter_rest c.rest };
}

impl<'a, M> Cursor<'a, M> {
    /// A cursor that has nothing to hand out.
    pub fn empty() -> Cursor<'a, M>
        ensures { result ≡ [] }
    {
        Cursor::over(&[])
    }

    /// A look at the next neighbour, if there is one, beside what was seen before. It hands out nothing, so no meter ticks.
    /// Constant time.
    #[inline(always)]
    pub fn glance(mut self, before: Glance) -> Glance {
        match self.rest.next() {
            Some(item) => before.with(item.neighbour().end),
            None => before,
        }
    }

    /// A cursor before the first of the items.
    pub(crate) fn over(items: &'a [Packed]) -> Cursor<'a, M>
        ensures { result ≡ items.now }
    {
        Cursor {
            rest: items.iter(),
            meter: PhantomData,
        }
    }
}

impl<'a, M: Meter> Cursor<'a, M> {
    ghost use Rattle.ris_rows.specs.Neighbours.{handed};

    /// The next neighbour: its other end, weight and number of copies. The meter ticks once for it. `None` exactly
    /// where no neighbour is left; then the meter doesn't tick.
    pub fn next(&mut self, meter: &mut M) -> Option<(u32, u64, u64)>
        ensures item { result ≡ option_map handed (slice_get self.old 0) }
        ensures rest { self.new ≡ drop 1 self.old }
        ensures ticks { M.ticks meter.new ≡ (if is_some result then min (M.ticks meter.old + 1) (2 ^ 64 - 1) else M.ticks meter.old) }
    {
        let item = self.rest.next()?.neighbour();
        meter.tick();
        Some((item.end, item.weight, item.copies))
    }
}
