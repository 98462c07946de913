use input_files::*;
use outside::{MemFiles, Name, ReadError};
use std::process::Abort;

fn files(rt: &(impl Abort + AllocGlobal)) -> MemFiles {
    let alloc = rt.alloc();
    let mut held = Vec::new(alloc);
    for (name, text) in &HELD {
        let name = Name::new(alloc, *name).expect(rt, "memory");
        let text = Vec::from_slice(alloc, *text).expect(rt, "memory");
        held.push((name, text)).expect(rt, "memory");
    }
    let name = Name::new(alloc, b"c").expect(rt, "memory");
    let failing = vec![in alloc; (name, 1)].expect(rt, "memory");
    MemFiles::new(alloc, held, failing).expect(rt, "memory")
}

static HELD: [(&[u8], &[u8]); 2] = [(b"a", b"first"), (b"b", b"second")];

#[test]
fn inputs_in_turn(rt: HostRuntime) {
    let mut files = files(&rt);
    let Ok(texts) = read_each(rt.alloc(), &mut files, &["b", "a", "b"], 6) else {
        panic!(rt; "not read");
    };
    assert!(rt; texts.len() == 3);
    assert!(rt; texts[0].as_slice() == b"second".as_slice());
    assert!(rt; texts[1].as_slice() == b"first".as_slice());
    assert!(rt; texts[2].as_slice() == b"second".as_slice());
}

#[test]
fn the_first_that_is_not_read(rt: HostRuntime) {
    let mut files = files(&rt);
    let too_long = Unread {
        place: 1,
        error: ReadError::TooLong,
    };
    assert!(rt; read_each(rt.alloc(), &mut files, &["a", "b", "c"], 5).err() == Some(too_long));
}
