//! Texts with their words, as `LINE:WORD TEXT`, the end of a card as `|`, one with a text as `|TEXT`, and the end of
//! the text as `.`.
use crate::same::same_at;
use netlist_words::*;
use reading::{Form, Source};
use std::alloc::Global;
use std::fmt::Write;
use std::test::Fail;

const TEXTS: &[(&str, &str)] = &[
    ("", "1:1 ."),
    ("title", "1:2 ."),
    ("title\n", "2:1 ."),
    (
        "* c\nR1 a b 1\n.end\n",
        "2:1 R1 2:2 a 2:3 b 2:4 1 3:1 | 3:1 .end 4:1 | 4:1 .",
    ),
    // `+` alone, glued, after comments and empty lines
    (
        "* c\nR1 a\n* c\n \n+ b\n+1",
        "2:1 R1 2:2 a 5:2 b 6:1 1 6:2 | 6:2 .",
    ),
    (
        "* c\nR1 a b\n+\n+1 2\nx",
        "2:1 R1 2:2 a 2:3 b 4:1 1 4:2 2 5:1 | 5:1 x 5:2 | 5:2 .",
    ),
    // `+` lines with no card before them
    ("* c\n+5", "2:1 |+5 2:2 | 2:2 ."),
    (
        "t\n+ 5\n+ 6\n",
        "2:1 |+ 2:2 5 3:1 | 3:1 |+ 3:2 6 4:1 | 4:1 .",
    ),
    ("+ t\n+ 5", "2:1 |+ 2:2 5 2:3 | 2:3 ."),
    // title or card
    ("R1 a b", "1:4 ."),
    ("R1 a b x", "1:1 R1 1:2 a 1:3 b 1:4 x 1:5 | 1:5 ."),
    ("R1 a b DC", "1:1 R1 1:2 a 1:3 b 1:4 DC 1:5 | 1:5 ."),
    ("v1 a b DC", "1:5 ."),
    ("v1 a b DC 1", "1:1 v1 1:2 a 1:3 b 1:4 DC 1:5 1 1:6 | 1:6 ."),
    ("i1 a b dc 1", "1:6 ."),
    ("R1 a b ;", "1:5 ."),
    ("C1 a b x", "1:1 C1 1:2 a 1:3 b 1:4 x 1:5 | 1:5 ."),
    ("c1 a b DC 1", "1:6 ."),
    ("c1 a b (", "1:5 ."),
    (".op", "1:1 .op 1:2 | 1:2 ."),
    (" .op x", "1:1 .op 1:2 x 1:3 | 1:3 ."),
    (" * x\n", "2:1 ."),
    ("\n * x", "2:1 * 2:2 x 2:3 | 2:3 ."),
    // ranges
    (
        "* c\nI1 a 0 1\n*range 0 1\nR1\n",
        "2:1 I1 2:2 a 2:3 0 2:4 1 3:1 |*range 3:2 0 3:3 1 3:4 | 4:1 R1 5:1 | 5:1 .",
    ),
    (
        "i1 a 0 1\n+\n \t*range",
        "1:1 i1 1:2 a 1:3 0 1:4 1 3:1 |*range 3:2 | 3:2 .",
    ),
    (
        "i1 a 0 1\n\n*range 0 1",
        "1:1 i1 1:2 a 1:3 0 1:4 1 3:4 | 3:4 .",
    ),
    (
        "i1 a 0 1\n*range 0 1\n+ 2",
        "1:1 i1 1:2 a 1:3 0 1:4 1 2:1 |*range 2:2 0 2:3 1 2:4 | 3:1 |+ 3:2 2 3:3 | 3:3 .",
    ),
    (
        "i1 a 0 1\n*range 0\n*range 2\n",
        "1:1 i1 1:2 a 1:3 0 1:4 1 2:1 |*range 2:2 0 2:3 | 4:1 .",
    ),
    (
        "i1 a 0 1\n*c\n+\n*range\n",
        "1:1 i1 1:2 a 1:3 0 1:4 1 4:1 |*range 4:2 | 5:1 .",
    ),
    ("i1 a 0\n*range 0 1\n", "3:1 ."),
    (
        "v1 a 0 1\n*range 0 1\n",
        "1:1 v1 1:2 a 1:3 0 1:4 1 3:1 | 3:1 .",
    ),
    (
        "c1 a 0 1\n*range 0 1\n",
        "1:1 c1 1:2 a 1:3 0 1:4 1 3:1 | 3:1 .",
    ),
    (
        "i1 a 0 1\n*RANGE 0 1\n",
        "1:1 i1 1:2 a 1:3 0 1:4 1 3:1 | 3:1 .",
    ),
    // bytes
    ("\r\na\r\tb\r\n", "2:1 a 2:2 b 3:1 | 3:1 ."),
    ("\n\x00\x0c ;x", "2:1 \x00\x0c 2:2 ;x 2:3 | 2:3 ."),
];

/// The words of a text in one line.
fn told(alloc: Global, text: &[u8]) -> Result<String, Fail> {
    let mut out = String::new(alloc);
    let mut words = NetlistWords::new(text);
    for _ in 0..100 {
        let Ok(Some(word)) = words.next() else {
            return Ok(out);
        };
        let mark = match word.form {
            Form::Break => "|",
            Form::End => ".",
            _ => "",
        };
        let bytes = std::str::from_utf8(word.text)?;
        write!(
            out,
            "{}:{} {mark}{bytes} ",
            word.place.line, word.place.word
        )?;
    }
    Ok(out)
}

#[test]
fn words_of_netlists(rt: HostRuntime) -> Result<(), Fail> {
    for (text, want) in TEXTS {
        let found = told(rt.alloc(), text.as_bytes())?;
        same_at(&rt, found.as_str().trim_end(), *want, text);
    }
    Ok(())
}
