use crate::same::{same, same_at};
use name_table::*;
use std::alloc::Global;
use std::process::Abort;

// Names in the order in which they come, with the number of each, counted by hand.
static NAMES: [(&[u8], u32); 9] = [
    (b"n1_0_0", 0),
    (b"__", 1),
    (b"n1_0_0", 0),
    (b"n1", 2),
    (b"", 3),
    (b"x", 4),
    (b"n1_0_", 5),
    (b"\xff\x00", 6),
    (b"__", 1),
];

static ORDERED: [&[u8]; 7] = [b"", b"__", b"n1", b"n1_0_", b"n1_0_0", b"x", b"\xff\x00"];

/// Each name gets its number.
fn fill(rt: &impl Abort, table: &mut NameTable<'static>) {
    for (name, want) in &NAMES {
        let number = table.number(name).expect(rt, "memory");
        same_at(rt, number, *want, *name);
    }
}

/// What a full table has.
fn look(rt: &impl Abort, table: &NameTable<'static>) {
    same(rt, table.len(), 7);
    assert!(rt; table.contains(b"x"));
    assert!(rt; !table.contains(b"y"));
}

/// The names in byte order, and the place of each number among them.
fn order(rt: &impl Abort, alloc: Global, table: NameTable<'static>) {
    let ordered = table.ordered(alloc).expect(rt, "memory");
    same(rt, ordered.names.as_slice(), ORDERED.as_slice());
    same(
        rt,
        ordered.places.as_slice(),
        [4, 1, 2, 0, 5, 3, 6].as_slice(),
    );
}

#[test]
fn numbered_and_ordered(rt: HostRuntime) {
    let mut table = NameTable::with_capacity(rt.alloc(), 4).expect(&rt, "memory");
    assert!(rt; table.is_empty());
    fill(&rt, &mut table);
    look(&rt, &table);
    order(&rt, rt.alloc(), table);
}

#[test]
fn an_empty_table(rt: HostRuntime) {
    let table = NameTable::with_capacity(rt.alloc(), 0).expect(&rt, "memory");
    let ordered = table.ordered(rt.alloc()).expect(&rt, "memory");
    assert!(rt; ordered.names.as_slice().is_empty());
    assert!(rt; ordered.places.as_slice().is_empty());
}
