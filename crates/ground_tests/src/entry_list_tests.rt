//! The calls at a concrete type.

use crate::same::same;
use entry_list::*;
use std::test::Fail;

#[test]
fn a_list_of_two(rt: HostRuntime) -> Result<(), Fail> {
    let entries = Entries::new(vec![in rt.alloc(); 5u64, 7]?);
    same(&rt, entries.as_slice(), [5u64, 7].as_slice());
    same(&rt, entries.into_items().as_slice(), [5u64, 7].as_slice());
    Ok(())
}
