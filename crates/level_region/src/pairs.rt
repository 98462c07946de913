ghost use Rattle.std.specs.Prelude.{◌≡◌, ◌+◌, ◌<◌, ◌≤◌, ◌^◌, ◌++◌, length, take, drop, nat_le};
ghost use Rattle.std.specs.Borrow.{sem, LendsBoth, Array, i128 as cell};
ghost use Rattle.level_region.specs.Block.{end_of, front_of, back_of, gap_of, hull_of};

use crate::span::Span;

// Whether the first span begins no later than the second.
pub(crate) fn begins_first(a: Span, b: Span) -> bool
    ensures { result ≡ nat_le a.start b.start }
{
    a.start <= b.start
}

// How many cells lie between the two.
fn gap(a: Span, b: Span) -> usize
    ensures { result ≡ gap_of a b }
{
    if begins_first(a, b) {
        (b.start - a.start).saturating_sub(a.len)
    } else {
        (a.start - b.start).saturating_sub(b.len)
    }
}

// From the first cell of the two to the last one.
pub(crate) fn hull(a: Span, b: Span) -> Span
    requires { end_of (hull_of a b) < 2 ^ 64 }
    ensures { result ≡ hull_of a b }
{
    let between = gap(a, b);
    if begins_first(a, b) {
        Span {
            start: a.start,
            len: a.len + (between + b.len),
        }
    } else {
        Span {
            start: b.start,
            len: b.len + (between + a.len),
        }
    }
}

// The cells of the span that begins first, and those after it, out of the cells of both and what lies between.
pub(crate) fn split_first(cells: &mut [i128], a: Span, b: Span) -> (&mut [i128], &mut [i128])
    requires { (front_of a b).len ≤ length cells.old }
    ensures* written { sem 𝓛 (LendsBoth (Array cell 0) (Array cell 0) (Array cell 0) cells.entry result ◌++◌) }
    ensures front { result.0.now ≡ take (front_of a b).len cells.old }
    ensures back { result.1.now ≡ drop (front_of a b).len cells.old }
{
    let len = if begins_first(a, b) { a.len } else { b.len };
    cells.split_at_mut(len)
}

// What lies between the two spans, and the cells of the second, out of both.
pub(crate) fn split_gap(cells: &mut [i128], a: Span, b: Span) -> (&mut [i128], &mut [i128])
    requires { gap_of a b ≤ length cells.old }
    ensures* written { sem 𝓛 (LendsBoth (Array cell 0) (Array cell 0) (Array cell 0) cells.entry result ◌++◌) }
    ensures front { result.0.now ≡ take (gap_of a b) cells.old }
    ensures back { result.1.now ≡ drop (gap_of a b) cells.old }
{
    let len = gap(a, b);
    cells.split_at_mut(len)
}
