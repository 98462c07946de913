ghost use Rattle.std.specs.Prelude.{◌≡◌, ◌≤◌, length};
ghost use Rattle.level_region.specs.Block.{end_of, IsWithin};

use crate::same::same;
use level_region::*;
use std::test::Fail;

// Fills two spans, of which `front` ends where or before `back` begins, and knows afterwards that the region has as
// many cells as before, and as many of them used.
fn fill_both(region: &mut Region, front: Span, back: Span)
    requires in_turn { end_of front ≤ back.start }
    requires within { IsWithin back region.old }
    ensures cells { length region.new.cells ≡ length region.old.cells }
    ensures used { region.new.used ≡ region.old.used }
{
    let _left = region.left();
    let gap = back.start - front.start;
    let both = region.get_mut(Span {
        start: front.start,
        len: gap + back.len,
    });
    let (low, high) = both.split_at_mut(gap);
    low[..front.len].fill(7);
    high.fill(8);
}

#[test]
fn spans_of_a_region(rt: HostRuntime) -> Result<(), Fail> {
    let mut region = Region::new(rt.alloc(), 10)?;
    same(&rt, region.cut(4), Some(Span { start: 0, len: 4 }));
    same(&rt, region.cut(6), Some(Span { start: 4, len: 6 }));
    same(&rt, region.cut(1), None);
    same(&rt, region.cut(0), Some(Span { start: 10, len: 0 }));
    same(&rt, region.left(), 0);
    region.reset();
    same(&rt, region.left(), 10);
    Ok(())
}

#[test]
fn what_is_written_is_read(rt: HostRuntime) -> Result<(), Fail> {
    let mut region = Region::new(rt.alloc(), 4)?;
    let first = region.cut(1).ok_or("no first span")?;
    let second = region.cut(2).ok_or("no second span")?;
    region.get_mut(second).fill(7);
    same(&rt, region.get(first), [0].as_slice());
    same(&rt, region.get(second), [7, 7].as_slice());
    fill_both(&mut region, first, second);
    same(&rt, region.get(first), [7].as_slice());
    same(&rt, region.get(second), [8, 8].as_slice());
    let (of_second, of_first) = region.two_mut(second, first);
    of_second.fill(5);
    of_first.fill(6);
    region.reset();
    let first = region.cut(1).ok_or("no first span")?;
    let second = region.cut(2).ok_or("no second span")?;
    same(&rt, region.get(first), [6].as_slice());
    same(&rt, region.get(second), [5, 5].as_slice());
    Ok(())
}

// 64 million cells of 16 bytes.
#[test]
fn a_large_region(rt: HostRuntime) -> Result<(), Fail> {
    let region = Region::new(rt.alloc(), 64_000_000)?;
    same(&rt, region.left(), 64_000_000);
    Ok(())
}
