ghost use Rattle.std.specs.Prelude.{◌≡◌, ◌↔◌, ℕ, ◌<◌, false, IsTrue, IfOk, MatchOption, None, length, slice_index_or};
ghost use Rattle.std.specs.List.{list_any};
ghost use Rattle.grid_cores.specs.Owner.{lies_within, lies_in, in_region, is_from, is_place_of, has_place, owns_row, owns_place, rows_of, LiesAcross, IsFirstOwner};

use geom_rect::{Rect, overlaps};
use rail_layout::RowBox;
use std::alloc::{AllocError, Global};

/// Whether the first rectangle lies in the second one, edges included.
pub fn lies_in(inner: Rect, outer: Rect) -> bool
    ensures { result ≡ lies_in inner outer }
{
    lies_within(inner.x1, inner.x2, outer.x1, outer.x2)
        && lies_within(inner.y1, inner.y2, outer.y1, outer.y2)
}

// Whether what goes from `low` to `high` lies between `from` and `to`.
fn lies_within(low: i64, high: i64, from: i64, to: i64) -> bool
    ensures { result ≡ lies_within low high from to }
{
    from <= low && high <= to
}

/// Whether a row with this box lies across the region: it shares an area with it and does not lie in it.
pub fn lies_across(row: Rect, region: Rect) -> bool
    ensures { IsTrue result ↔ LiesAcross row region }
{
    overlaps(row, region) && !lies_in(row, region)
}

/// The rows of the domain with this region, in their order: those whose boxes lie in it, or for a domain without a
/// region those that lie in no region. `regions` has the regions of all domains.
pub fn rows_of(
    alloc: Global,
    regions: &[Option<Rect>],
    region: Option<Rect>,
    rows: &[RowBox],
) -> Result<Vec<RowBox>, AllocError>
    ensures { IfOk result (λ owned. owned.items ≡ rows_of regions.now region rows.now) }
{
    rows.iter()
        .copied()
        .filter(|row| owns_row(regions, region, row.rect))
        .collect(alloc)
}

/// The first domain that owns a component that is placed at this `x` and `y`; `regions` has the regions of all domains.
/// A region has its left and its lower edge, and not its right and its upper one.
pub fn domain_at(regions: &[Option<Rect>], x: i64, y: i64) -> Option<usize>
    ensures { MatchOption result
        ((k : ℕ) → k < length regions.now → owns_place regions.now (slice_index_or regions.now k None) (x, y) ≡ false)
        (IsFirstOwner regions.now (x, y)) }
{
    for (k, region) in regions.iter().enumerate() {
        if owns_place(regions, *region, x, y) {
            return Some(k);
        }
    }
    None
}

// Whether the domain with this region owns a row with this box.
fn owns_row(regions: &[Option<Rect>], region: Option<Rect>, row: Rect) -> bool
    ensures { result ≡ owns_row regions.now region row }
{
    match region {
        Some(_) => in_region(row, region),
        None => !in_some_region(regions, row),
    }
}

// Whether it owns a component that is placed there.
fn owns_place(regions: &[Option<Rect>], region: Option<Rect>, x: i64, y: i64) -> bool
    ensures { result ≡ owns_place regions.now region (x, y) }
{
    match region {
        Some(_) => has_place(x, y, region),
        None => !some_has_place(regions, x, y),
    }
}

fn in_some_region(regions: &[Option<Rect>], row: Rect) -> bool
    ensures { result ≡ list_any (in_region row) regions.now }
{
    regions.iter().any(|region| in_region(row, *region))
}

fn some_has_place(regions: &[Option<Rect>], x: i64, y: i64) -> bool
    ensures { result ≡ list_any (has_place (x, y)) regions.now }
{
    regions.iter().any(|region| has_place(x, y, *region))
}

fn in_region(row: Rect, region: Option<Rect>) -> bool
    ensures { result ≡ in_region row region }
{
    match region {
        Some(region) => lies_in(row, region),
        None => false,
    }
}

fn has_place(x: i64, y: i64, region: Option<Rect>) -> bool
    ensures { result ≡ has_place (x, y) region }
{
    match region {
        Some(region) => is_place_of(x, y, region),
        None => false,
    }
}

fn is_place_of(x: i64, y: i64, region: Rect) -> bool
    ensures { result ≡ is_place_of x y region }
{
    is_from(region.x1, region.x2, x) && is_from(region.y1, region.y2, y)
}

// Whether a number is `low` or above and below `high`.
fn is_from(low: i64, high: i64, z: i64) -> bool
    ensures { result ≡ is_from low high z }
{
    low <= z && z < high
}
