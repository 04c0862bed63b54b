use crate::{
    Entry, ForestRow, ForestRows, Format, Parent, PartsBuilder, PartsFault, Sequence, Update,
    Value, VertexId, Words, read_number,
};
use std::test::Fail;

#[test]
fn lists_keep_their_items(rt: HostRuntime) -> Result<(), Fail> {
    let mut list = Sequence::with_room(rt.alloc(), 2)?;
    assert!(rt; list.is_empty());
    for n in [7u64, 8, 9] {
        list.push(n)?;
    }
    assert_eq!(rt; list.take_first(), Some(7));
    assert_eq!(rt;
        (list.len(), list.get(1).copied(), list.get(2).copied()),
        (2, Some(9), None)
    );
    let items = list.into_vec();
    assert_eq!(rt; items.as_slice(), [8u64, 9].as_slice());
    let again = Sequence::from_vec(items);
    assert_eq!(rt; again.len(), 2);
    let none: Sequence<u64> = Sequence::new(rt.alloc());
    assert_eq!(rt; none.len(), 0);
    Ok(())
}

#[test]
fn words_are_kept_in_order(rt: HostRuntime) -> Result<(), Fail> {
    let mut words = Words::new(rt.alloc());
    words.push("replay")?;
    words.push("--analyses")?;
    assert_eq!(rt; words.len(), 2);
    assert_eq!(rt; words.get(1).map_or(0, |word| word.len()), 10);
    assert!(rt; words.get(2).is_none());
    Ok(())
}

#[test]
fn parts_end_at_their_limit(rt: HostRuntime) -> Result<(), Fail> {
    let mut builder = PartsBuilder::new(rt.alloc())?;
    assert!(rt; PartsBuilder::new(rt.alloc())?.close().is_none());
    for x in 0..1_024u64 {
        assert_eq!(rt; builder.push(Update::AddV { x }), Ok(()));
    }
    assert_eq!(rt;
        builder.push(Update::DelV { x: 0 }),
        Err(PartsFault::PartsFull)
    );
    let parts = builder.close().ok_or("no parts")?;
    let entry = Entry {
        session: 7,
        seq: 3,
        parts,
    };
    let copy = entry.copy(rt.alloc())?;
    assert_eq!(rt;
        (
            copy.session,
            copy.seq,
            copy.parts.len(),
            copy.parts.get(1_023).copied(),
            copy.parts.get(1_024).copied()
        ),
        (7, 3, 1_024, Some(Update::AddV { x: 1_023 }), None)
    );
    Ok(())
}

#[test]
fn rows_of_a_forest_ascend(rt: HostRuntime) -> Result<(), Fail> {
    let row = |vertex| ForestRow {
        vertex,
        value: Value::Num(u64::from(vertex)),
        parent: Parent::None,
    };
    let mut rows = ForestRows::with_room(rt.alloc(), 2)?;
    rows.push(row(2))?;
    rows.push(row(5))?;
    assert_eq!(rt; (rows.len(), rows.get(1).copied()), (2, Some(row(5))));
    assert_eq!(rt; rows.take_first(), Some(row(2)));
    assert_eq!(rt; rows.len(), 1);
    Ok(())
}

#[test]
fn limits_are_met_exactly(rt: HostRuntime) {
    assert_eq!(rt; VertexId::new(4_194_303).map(|v| v.get()), Some(4_194_303));
    assert!(rt; VertexId::new(4_194_304).is_none());
    let edge = |u, v, w| Update::AddE { u, v, w };
    let other = |w, w2| Update::SetW { u: 0, v: 1, w, w2 };
    for (format, update, given) in [
        (Format::One, edge(4_194_303, 0, 4_294_967_295), None),
        (
            Format::One,
            edge(4_194_304, 4_194_305, 4_294_967_296),
            Some(4_194_304),
        ),
        (
            Format::One,
            edge(0, 4_194_305, 4_294_967_296),
            Some(4_194_305),
        ),
        (Format::One, edge(0, 0, 4_294_967_296), Some(4_294_967_296)),
        (Format::Two, edge(0, 0, 68_719_476_735), None),
        (Format::Two, other(4, 68_719_476_736), Some(68_719_476_736)),
        (
            Format::One,
            other(4_294_967_297, 4_294_967_296),
            Some(4_294_967_297),
        ),
        (Format::Two, Update::DelV { x: 4_194_304 }, Some(4_194_304)),
    ] {
        assert_eq!(rt; update.within_limits(format).err(), given);
    }
}

#[test]
fn fields_spell_numbers(rt: HostRuntime) {
    for (field, number) in [
        (b"0".as_slice(), Some(0)),
        (b"00000000000000000042".as_slice(), Some(42)),
        (b"000000000000000000042".as_slice(), None),
        (
            b"18446744073709551615".as_slice(),
            Some(18_446_744_073_709_551_615),
        ),
        (b"18446744073709551616".as_slice(), None),
        (b"".as_slice(), None),
        (b"+1".as_slice(), None),
        (b"1 ".as_slice(), None),
    ] {
        assert_eq!(rt; read_number(field), number);
    }
}
