use crate::same::same;
use output_files::*;
use outside::{MemFiles, Name, WriteError};
use std::process::Abort;

static OUTPUTS: [Output<'static>; 3] = [
    Output {
        file: "a",
        text: b"first",
    },
    Output {
        file: "b",
        text: b"second",
    },
    Output {
        file: "c",
        text: b"third",
    },
];

/// What the files hold after outputs of which this call on `b` fails, and whether all are written.
#[derive(Clone, Copy)]
struct Row {
    call: u64,
    whole: bool,
    a: Option<&'static [u8]>,
    b: Option<&'static [u8]>,
    c: Option<&'static [u8]>,
}

/// No call fails, `b` cannot be made, and its text cannot be written.
static ROWS: [Row; 3] = [
    Row {
        call: 9,
        whole: true,
        a: Some(b"first"),
        b: Some(b"second"),
        c: Some(b"third"),
    },
    Row {
        call: 1,
        whole: false,
        a: Some(b"first"),
        b: None,
        c: Some(b"old"),
    },
    Row {
        call: 2,
        whole: false,
        a: Some(b"first"),
        b: Some(b""),
        c: Some(b"old"),
    },
];

/// A file `c`, and this call on `b` that fails.
fn files(rt: &(impl Abort + AllocGlobal), call: u64) -> MemFiles {
    let alloc = rt.alloc();
    let name = Name::new(alloc, b"c").expect(rt, "memory");
    let text = Vec::from_slice(alloc, b"old").expect(rt, "memory");
    let held = vec![in alloc; (name, text)].expect(rt, "memory");
    let name = Name::new(alloc, b"b").expect(rt, "memory");
    let failing = vec![in alloc; (name, call)].expect(rt, "memory");
    MemFiles::new(alloc, held, failing).expect(rt, "memory")
}

#[test]
fn outputs_in_turn(rt: HostRuntime) {
    let stopped = Unwritten {
        place: 1,
        error: WriteError::WriteFault,
    };
    for row in &ROWS {
        let mut files = files(&rt, row.call);
        let want = if row.whole { Ok(()) } else { Err(stopped) };
        same(&rt, write_each(&mut files, &OUTPUTS), want);
        assert!(rt; files.bytes("a") == row.a, "the first");
        assert!(rt; files.bytes("b") == row.b, "the second");
        assert!(rt; files.bytes("c") == row.c, "the third");
    }
}
