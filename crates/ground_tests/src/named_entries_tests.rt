//! The calls at a concrete type.

use crate::same::same;
use named_entries::*;
use std::test::Fail;

#[test]
fn entries_with_names(rt: HostRuntime) -> Result<(), Fail> {
    let mut named = NamedEntries::new(rt.alloc())?;
    assert!(rt; !named.contains(b"a"));
    named.add(b"a", 5u64)?;
    named.add(b"b", 7u64)?;
    assert!(rt; named.contains(b"a"));
    assert!(rt; !named.contains(b""));
    same(&rt, named.into_entries().as_slice(), [5u64, 7].as_slice());
    Ok(())
}
