//! Texts whose lists were worked out from the form of a certificate. Where a text is refused is told by cases of `check`.
use crate::same::{same, same_at};
use CertKind::Syntax;
use certificate_file::*;
use outside::{Name, Place};
use std::alloc::Global;
use std::process::Abort;

/// Names of nodes, made of these texts.
fn names_of(rt: &impl Abort, alloc: Global, texts: &[&[u8]]) -> Vec<Name> {
    let mut names = Vec::new(alloc);
    for text in texts {
        let name = Name::new(alloc, text).expect(rt, "memory");
        names.push(name).expect(rt, "memory");
    }
    names
}

const TEN_TO_37: i128 = 10_000_000_000_000_000_000_000_000_000_000_000_000;

/// The nodes of most texts below.
const NODES: [&[u8]; 2] = [b"n", b"p"];

/// A text of the nodes n and p, with its high and its low voltages.
type Read = (&'static [u8], [i128; 2], [i128; 2]);

static READ: [Read; 9] = [
    (
        b"pdn certificate 1\nn 12 -7\np 0 3\nend\n",
        [12, 0],
        [-7, 3],
    ),
    (b"pdn certificate 1\nn 12 -7\np 0 3\nend", [12, 0], [-7, 3]),
    (
        b"pdn certificate 1\nn 12 -7\np 0 3\nend \t\r\n\n \n\t",
        [12, 0],
        [-7, 3],
    ),
    // words are what counts
    (
        b" pdn\tcertificate  1 \r\n\tn  12\t-7\r\np 0 3 \n end\r\n",
        [12, 0],
        [-7, 3],
    ),
    (
        b"pdn certificate 1\nn 0012 -007\np -0 003\nend\n",
        [12, 0],
        [-7, 3],
    ),
    (b"pdn certificate 1\nn 1 1\np 1 1\nend\n", [1, 1], [1, 1]),
    // as many digits as the limit has, and zeros before them
    (
        b"pdn certificate 1\nn 10000000000000000000000000000000000000 -10000000000000000000000000000000000000\np 0 3\nend\n",
        [TEN_TO_37, 0],
        [-TEN_TO_37, 3],
    ),
    (
        b"pdn certificate 1\nn 0000000000000000000000000000000000000000000000010000000000000000000000000000000000000 -7\np 0 3\nend\n",
        [TEN_TO_37, 0],
        [-7, 3],
    ),
    // 18, 19 and 37 digits
    (
        b"pdn certificate 1\nn 999999999999999999 -1000000000000000000\np 9999999999999999999999999999999999999 -1234567890123456789012345678901234567\nend\n",
        [999_999_999_999_999_999, TEN_TO_37 - 1],
        [
            -1_000_000_000_000_000_000,
            -1_234_567_890_123_456_789_012_345_678_901_234_567,
        ],
    ),
];

/// The lists of a text are these.
fn compare(rt: &impl Abort, lists: &Lists, text: &[u8], high: &[i128], low: &[i128]) {
    same_at(rt, lists.high.as_slice(), high, text);
    same_at(rt, lists.low.as_slice(), low, text);
}

#[test]
fn lists_that_are_read(rt: HostRuntime) {
    let names = names_of(&rt, rt.alloc(), &NODES);
    for (text, high, low) in &READ {
        let lists = read_certificate(rt.alloc(), text, &names).expect(&rt, "a certificate");
        compare(&rt, &lists, text, high, low);
    }
}

// Names may be words that stand for something elsewhere in the text.
#[test]
fn names_like_keywords(rt: HostRuntime) {
    let names = names_of(&rt, rt.alloc(), &[b"end", b"pdn", b";", b"1"]);
    let text = b"pdn certificate 1\nend 1 2\npdn 3 4\n; 5 6\n1 7 8\nend\n";
    let lists = read_certificate(rt.alloc(), text, &names).expect(&rt, "a certificate");
    compare(&rt, &lists, text, &[1, 3, 5, 7], &[2, 4, 6, 8]);
}

// Without nodes there are no lines between the first and the last.
#[test]
fn no_nodes(rt: HostRuntime) {
    let text = certificate_text(rt.alloc(), &[], &[], &[]).expect(&rt, "memory");
    same(&rt, text.as_slice(), b"pdn certificate 1\nend\n".as_slice());
    let lists = read_certificate(rt.alloc(), &text, &[]).expect(&rt, "a certificate");
    compare(&rt, &lists, &text, &[], &[]);
}

#[test]
fn written_text(rt: HostRuntime) {
    let names = names_of(&rt, rt.alloc(), &NODES);
    assert!(rt; names.len() == 2);
    let text = certificate_text(rt.alloc(), &names, &[12, TEN_TO_37], &[-7, -TEN_TO_37]).expect(
        &rt, "memory",
    );
    same(
        &rt,
        text.as_slice(),
        b"pdn certificate 1\nn 12 -7\np 10000000000000000000000000000000000000 -10000000000000000000000000000000000000\nend\n".as_slice(),
    );
}

/// A text of many nodes that all have the name n.
fn long_text(rt: &impl Abort, alloc: Global, nodes: u32) -> Vec<u8> {
    let mut text = Vec::new(alloc);
    text.extend_from_slice(b"pdn certificate 1\n")
        .expect(rt, "memory");
    for _ in 0..nodes {
        text.extend_from_slice(b"n 7 -7\n").expect(rt, "memory");
    }
    text.extend_from_slice(b"end\n").expect(rt, "memory");
    text
}

fn many_names(rt: &impl Abort, alloc: Global, nodes: u32) -> Vec<Name> {
    let mut names = Vec::new(alloc);
    for _ in 0..nodes {
        let name = Name::new(alloc, b"n").expect(rt, "memory");
        names.push(name).expect(rt, "memory");
    }
    names
}

/// The text is refused at its line too many.
fn line_too_many(rt: &impl Abort, alloc: Global, text: &[u8], names: &[Name]) {
    let place = Place {
        line: 1_000_001,
        word: 1,
    };
    let kind = Syntax;
    let refused = read_certificate(alloc, text, names).err();
    same(rt, refused, Some(CertError { place, kind }));
}

// As many lines as a large network has nodes, and one line too many.
#[test]
fn a_million_lines(rt: HostRuntime) {
    let text = long_text(&rt, rt.alloc(), 1_000_000);
    let names = many_names(&rt, rt.alloc(), 1_000_000);
    let lists = read_certificate(rt.alloc(), &text, &names).expect(&rt, "a certificate");
    same(&rt, lists.high.as_slice().len(), 1_000_000);
    assert!(rt; lists.low.as_slice().iter().all(|low| *low == -7));
    line_too_many(
        &rt,
        rt.alloc(),
        &text,
        &names[..names.len().saturating_sub(1)],
    );
}

#[test]
fn one_law(rt: HostRuntime) {
    let names = names_of(&rt, rt.alloc(), &NODES);
    texts_have_one_certificate(&names);
    written_voltages_read_back();
}
