ghost use Rattle.std.specs.Prelude.{◌≡◌, ℕ, pos, ◌+◌, ◌+ℤ◌, ◌*ℤ◌, ◌<ℤ◌, ◌≤ℤ◌, ◌<◌, ◌≤◌, ◌↔◌, ◌^◌, length, IfOk, OnOk, MatchOption};
ghost use Rattle.std.specs.Bool.{MatchBool};
ghost use Rattle.geom_rect.specs.Drawn.{IsWidth};
ghost use Rattle.strap_layout.specs.Lines.{across, centre_of, line_at, IsBelowStated, IsDrawnLine, strap_of, AreStraps, DrawsMore, AreStrapsUpTo};
ghost use Rattle.strap_layout.specs.inside.Lines.{first_centre_of, IsNear, AreStrapsBefore, AreFewBefore};

use crate::rule::StrapRule;
use geom_rect::{Axis, Drawn, Rect, Run, Shape};
use std::alloc::{AllocError, Global};

/// The straps of a rule over a core: for each net its lines that lie in the core with their whole width and have a
/// number below the stated one, each over the reach of its net. They are in the order of the nets and of the lines.
pub fn straps(
    alloc: Global,
    rule: &StrapRule,
    core: Rect,
    reach: &[Run],
) -> Result<Vec<Drawn>, AllocError>
    requires width { IsWidth rule.now.width }
    requires pitch { pos 0 <ℤ rule.now.pitch }
    requires reach { length reach.now ≡ length rule.now.nets }
    ensures { IfOk result (λ straps. AreStraps rule.now core reach.now straps.items) }
{
    let mut straps = Vec::new(alloc);
    for place in 0..reach.len() {
        add_lines(&mut straps, rule, core, reach, place)?;
    }
    Ok(straps)
}

// The straps of the net at a place are added, in the order of their lines.
fn add_lines(
    straps: &mut Vec<Drawn>,
    rule: &StrapRule,
    core: Rect,
    reach: &[Run],
    place: usize,
) -> Result<(), AllocError>
    requires width { IsWidth rule.now.width }
    requires pitch { pos 0 <ℤ rule.now.pitch }
    requires reach { length reach.now ≡ length rule.now.nets }
    requires place { place < length reach.now }
    requires few { place < 2 ^ 60 }
    requires straps { AreStrapsBefore rule.now core reach.now (line_at place 0) straps.old.items }
    ensures { OnOk result (AreStrapsBefore rule.now core reach.now (line_at (place + 1) 0) straps.new.items) }
{
    let (first, end) = drawn_lines(rule, core, place);
    for number in first..end {
        straps.push(strap(rule, core, reach, place, number))?;
    }
    Ok(())
}

/// The same where the rule draws at most `most` lines, of all its nets together. None where it draws more.
pub fn straps_up_to(
    alloc: Global,
    rule: &StrapRule,
    core: Rect,
    reach: &[Run],
    most: usize,
) -> Result<Option<Vec<Drawn>>, AllocError>
    requires width { IsWidth rule.now.width }
    requires pitch { pos 0 <ℤ rule.now.pitch }
    requires reach { length reach.now ≡ length rule.now.nets }
    ensures { IfOk result (λ answer. MatchOption answer (DrawsMore most rule.now core)
        (λ straps. AreStrapsUpTo most rule.now core reach.now straps.items)) }
{
    let mut straps = Vec::new(alloc);
    for net_place in 0..reach.len() {
        if !add_lines_up_to(&mut straps, rule, core, reach, net_place, most)? {
            return Ok(None);
        }
    }
    Ok(Some(straps))
}

// The straps of the net at a place are added, in the order of their lines. False where the rule draws more than `most`.
fn add_lines_up_to(
    straps: &mut Vec<Drawn>,
    rule: &StrapRule,
    core: Rect,
    reach: &[Run],
    place: usize,
    most: usize,
) -> Result<bool, AllocError>
    requires width { IsWidth rule.now.width }
    requires pitch { pos 0 <ℤ rule.now.pitch }
    requires reach { length reach.now ≡ length rule.now.nets }
    requires place { place < length reach.now }
    requires few { place < 2 ^ 60 }
    requires straps { AreStrapsBefore rule.now core reach.now (line_at place 0) straps.old.items }
    requires most { length straps.old.items ≤ most }
    ensures { IfOk result (λ all. MatchBool all
        (AreFewBefore most rule.now core reach.now (line_at (place + 1) 0) straps.new.items)
        (DrawsMore most rule.now core)) }
{
    let (first, end) = drawn_lines(rule, core, place);
    for number in first..end {
        if straps.len() == most {
            return Ok(false);
        }
        straps.push(strap(rule, core, reach, place, number))?;
    }
    Ok(true)
}

// The lines of the net at a place that are drawn have the numbers from the first answer up to below the second.
fn drawn_lines(rule: &StrapRule, core: Rect, place: usize) -> (u128, u128)
    requires width { IsWidth rule.now.width }
    requires pitch { pos 0 <ℤ rule.now.pitch }
    requires place { place < length rule.now.nets }
    requires few { place < 2 ^ 60 }
    ensures { (number : ℕ) → IsDrawnLine rule.now core (line_at place number)
        ↔ ((result.0 ≤ number) × (number < result.1)) }
{
    let across = across(rule.axis, core);
    let half = i128::from(rule.width / 2);
    let start = first_centre(rule, core, place);
    let first = least_steps(start, rule.pitch, i128::from(across.from) + half);
    let end = least_steps(start, rule.pitch, i128::from(across.to) - half + 1);
    (first, below_stated(end, rule.number))
}

// The end of the numbers below `end` that are below the stated one too.
fn below_stated(end: u128, stated: Option<u64>) -> u128
    ensures { (k : ℕ) → (IsBelowStated stated k × (k < end)) ↔ (k < result) }
{
    match stated {
        Some(stated) => end.min(u128::from(stated)),
        None => end,
    }
}

// The least number of steps of a pitch that lead from `start` to `at` or further.
fn least_steps(start: i128, pitch: i64, at: i128) -> u128
    requires { pos 0 <ℤ pitch }
    ensures { (k : ℕ) → (at ≤ℤ (start +ℤ pos k *ℤ pitch)) ↔ (result ≤ k) }
{
    if at <= start {
        return 0;
    }
    at.abs_diff(start)
        .div_ceil(u128::from(pitch.unsigned_abs()))
}

// The strap of a line that is drawn.
fn strap(rule: &StrapRule, core: Rect, reach: &[Run], place: usize, number: u128) -> Drawn
    requires width { IsWidth rule.now.width }
    requires pitch { pos 0 <ℤ rule.now.pitch }
    requires place { place < length reach.now }
    requires few { place < 2 ^ 60 }
    requires drawn { IsDrawnLine rule.now core (line_at place number) }
    ensures { result ≡ strap_of rule.now core reach.now (line_at place number) }
{
    let run = reach[place];
    Drawn {
        net: rule.nets.as_slice()[place],
        layer: rule.layer,
        axis: rule.axis,
        centre: centre(rule, core, place, number),
        width: rule.width,
        from: run.from,
        to: run.to,
        shape: Shape::Stripe,
    }
}

// The centre of a line that is drawn.
fn centre(rule: &StrapRule, core: Rect, place: usize, number: u128) -> i64
    requires width { IsWidth rule.now.width }
    requires pitch { pos 0 <ℤ rule.now.pitch }
    requires few { place < 2 ^ 60 }
    requires drawn { IsDrawnLine rule.now core (line_at place number) }
    ensures { result ≡ centre_of rule.now core (line_at place number) }
{
    stepped(first_centre(rule, core, place), number, rule.pitch) as i64
}

// The centre of the first line of the net at a place.
fn first_centre(rule: &StrapRule, core: Rect, place: usize) -> i128
    requires { place < 2 ^ 60 }
    ensures value { result ≡ first_centre_of rule.now core place }
    ensures near { IsNear (2 ^ 124) result }
{
    let edge = i128::from(across(rule.axis, core).from);
    stepped(edge + i128::from(rule.offset), place as u128, rule.apart)
}

// So far from a place, by a number of equal steps.
fn stepped(from: i128, steps: u128, step: i64) -> i128
    requires few { steps < 2 ^ 126 }
    requires far { IsNear (2 ^ 125) (pos steps *ℤ step) }
    requires near { IsNear (2 ^ 124) from }
    ensures { result ≡ from +ℤ pos steps *ℤ step }
{
    from + steps as i128 * i128::from(step)
}

// The extent of the core across straps that go along an axis.
fn across(axis: Axis, core: Rect) -> Run
    ensures { result ≡ across axis core }
{
    match axis {
        Axis::X => Run {
            from: core.y1,
            to: core.y2,
        },
        Axis::Y => Run {
            from: core.x1,
            to: core.x2,
        },
    }
}
