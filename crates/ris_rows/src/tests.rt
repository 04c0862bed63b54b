use crate::{Cursor, Glance, Row};
use ris_base::Meter;
use std::test::Fail;

/// A meter that holds its count.
#[derive(Drop)]
struct Visits {
    total: u64,
}

impl Meter for Visits {
    ghost ticks = { λ v. v.total };

    fn tick(&mut self) {
        self.total = self.total.saturating_add(1);
    }

    fn total(&self) -> u64 {
        self.total
    }
}

#[test]
fn each_call_answers(rt: HostRuntime) -> Result<(), Fail> {
    let mut row: Row<Visits> = Row::new(rt.alloc());
    assert_eq!(rt; row.count(7, 5), 0);
    for (end, weight) in [(7, 5), (3, 9), (7, 4), (7, 5), (8, 0)] {
        assert!(rt; row.count(end, weight) < 9);
        row.reserve(1)?;
        row.insert(end, weight);
    }
    for (end, weight) in [(8, 0), (8, 1), (5, 0)] {
        assert!(rt; row.count(end, weight) < 9);
        row.reserve(1)?;
        row.append(end, weight);
    }
    row.reserve(1)?;
    row.put(6, 6, 4);
    row.put(8, 1, 0);
    for (end, weight, there) in [(3, 9, true), (3, 9, false), (7, 5, true), (9, 9, false)] {
        assert_eq!(rt; row.remove(end, weight), there, "at {end}, {weight}");
    }
    let mut visits = Visits { total: 40 };
    let glance = row.cursor().glance(Glance::none());
    let _ = Cursor::<Visits>::empty().glance(glance);
    let mut cursor = row.cursor();
    for item in [(5, 0, 1), (6, 6, 4), (7, 4, 1), (7, 5, 1), (8, 0, 2)] {
        assert_eq!(rt; row.count(item.0, item.1), item.2);
        assert_eq!(rt; cursor.next(&mut visits), Some(item));
    }
    assert_eq!(rt; cursor.next(&mut visits), None);
    assert_eq!(rt; Cursor::empty().next(&mut visits), None);
    assert_eq!(rt; visits.total(), 45);
    Ok(())
}
