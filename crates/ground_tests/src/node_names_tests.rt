use crate::same::{same, same_at};
use node_names::*;
use std::test::Fail;

// Names in the order in which they come, with the number of each, counted by hand.
const NAMES: [(&[u8], u32); 13] = [
    (b"n1_0_0", 0),
    (b"N1_0_0", 0),
    (b"__", 1),
    (b"Zed", 2),
    (b"a_name_of_more_than_24_bytes", 3),
    (b"A_NAME_of_more_than_24_bytes", 3),
    (b"a_name_of_more_than_24_bits", 4),
    (b"\xc4", 5),
    (b"zED", 2),
    // names that begin with the same 16 bytes, of which a missing one and one of 0 count alike
    (b"__\0", 6),
    (b"A_name_of_more_t", 7),
    (b"a_name_of_more_T", 7),
    (b"a_name_of_more_t\0", 8),
];

#[test]
fn numbered_and_ordered(rt: HostRuntime) -> Result<(), Fail> {
    let mut table = NodeNames::with_capacity(rt.alloc(), 4)?;
    assert!(rt; table.is_empty());
    for (name, want) in NAMES {
        same_at(&rt, table.number(name)?, want, name);
    }
    same(&rt, table.len(), 9);
    assert!(rt; table.contains(b"ZED"));
    assert!(rt; !table.contains(b"\xe4"));
    let ordered = table.ordered(rt.alloc())?;
    let want: [&[u8]; 9] = [
        b"__",
        b"__\0",
        b"a_name_of_more_t",
        b"a_name_of_more_t\0",
        b"a_name_of_more_than_24_bits",
        b"a_name_of_more_than_24_bytes",
        b"n1_0_0",
        b"zed",
        b"\xc4",
    ];
    same(&rt, ordered.names.len(), want.len());
    for (name, bytes) in ordered.names.iter().zip(want) {
        same(&rt, name.bytes(), bytes);
    }
    same(
        &rt,
        ordered.places.as_slice(),
        [6, 0, 7, 5, 4, 8, 1, 2, 3].as_slice(),
    );
    Ok(())
}
