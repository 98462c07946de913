use crate::same::same;
use name_places::*;
use std::test::Fail;

#[test]
fn the_first_of_equal_names(rt: HostRuntime) -> Result<(), Fail> {
    let m1: &[u8] = b"m1";
    let names = vec![in rt.alloc(); m1, b"m2", b"m1", b""]?;
    let table = NamePlaces::new(rt.alloc(), names)?;
    same(&rt, table.place(b"m1"), Some(0));
    same(&rt, table.place(b"m2"), Some(1));
    same(&rt, table.place(b""), Some(3));
    same(&rt, table.place(b"m"), None);
    Ok(())
}
