//! Cards that are read. What each card says, and where a text is refused, is told by cases of netlists.
use crate::same::same;
use spice_cards::{Cards, read_cards};
use std::process::Abort;

/// A card of each kind.
const TEXT: &[u8] = b"title
R1 b a 1
R2 a c 0
V1 b 0 1
I1 0 a 1f
*range 0 2f
C1 c 0 1f
.end
";

fn compare_resistors(rt: &impl Abort, cards: &Cards<'_>) {
    same(rt, cards.resistors.len(), 1);
    for r in &cards.resistors {
        same(rt, (r.a, r.b, r.ohms), (0, 1, 1_000_000_000));
    }
    same(rt, cards.shorts.as_slice(), [(1, 2)].as_slice());
}

fn compare_sources(rt: &impl Abort, cards: &Cards<'_>) {
    same(rt, cards.pads.len(), 1);
    for p in &cards.pads {
        same(
            rt,
            (p.node, p.volts),
            (0, 1_000_000_000_000_000_000_000_000),
        );
    }
    same(rt, cards.loads.len(), 1);
    for l in &cards.loads {
        same(rt, (l.node, l.low, l.high), (1, -2, 0));
    }
}

fn compare_capacitors(rt: &impl Abort, cards: &Cards<'_>) {
    same(rt, cards.caps.len(), 1);
    for c in &cards.caps {
        same(
            rt,
            (c.a, c.b, c.farads),
            (b"c".as_slice(), b"0".as_slice(), 1_000_000_000),
        );
    }
}

#[test]
fn a_card_of_each_kind(rt: HostRuntime) {
    let cards = read_cards(rt.alloc(), TEXT).expect(&rt, "cards");
    compare_resistors(&rt, &cards);
    compare_sources(&rt, &cards);
    compare_capacitors(&rt, &cards);
}
