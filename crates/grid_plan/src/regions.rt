//! What regions, rows and components refuse.
ghost use Rattle.std.specs.Prelude.{◌≡◌, false, IfOk, map, length, slice_index_or};
ghost use Rattle.std.specs.List.{list_any, position};
ghost use Rattle.std.specs.Option.{option_map};
ghost use Rattle.def_design.specs.declared.record.Fence.{Fence};
ghost use Rattle.lef_cells.specs.declared.record.MacroCell.{MacroCell};
ghost use Rattle.grid_pieces.specs.declared.error.DrawError.TheVariants.{RegionShape, RowAcross, EmptyDomain, MacroGrid};
ghost use Rattle.grid_plan.specs.declared.record.GridAt.{GridAt};
ghost use Rattle.grid_plan.specs.Order.{first_place};
ghost use Rattle.grid_plan.specs.Planning.{meeting, region_refusal, regions_in, boxes_in, grids_in};
ghost use Rattle.grid_plan.specs.Regions.{first_shaped, rects_of, first_meeting, regions_meet, first_across, is_across, first_bare, is_bare, is_drawn, first_block, is_block};
ghost use Rattle.grid_plan.specs.inside.Answers.{Tells};
ghost use Rattle.grid_plan.specs.inside.Tables.{names_in};

use crate::record::GridAt;
use crate::span::{meet, share_area};
use crate::tables::{Tables, place_in};
use crate::units::number;
use def_design::{Component, Design};
use geom_rect::Rect;
use grid_cores::{lies_in, rows_of};
use grid_pieces::DrawError;
use lef_cells::Cells;
use outside::Name;
use pdn_script::{Domain, Script};
use rail_layout::RowBox;
use std::alloc::{AllocError, Global};

// Refuses regions, rows and components that do not fit each other.
pub(crate) fn check_regions<'a>(
    alloc: Global,
    cells: &Cells,
    tables: &Tables<'a>,
    design: &'a Design,
    script: &'a Script,
    regions: &[Option<Rect>],
    boxes: &[RowBox],
    grids: &[GridAt],
) -> Result<(), DrawError>
    requires regions { regions.now ≡ regions_in (names_in tables.now) design.now script.now }
    requires boxes { boxes.now ≡ boxes_in cells.now (names_in tables.now) design.now }
    requires grids { grids.now ≡ grids_in (names_in tables.now) script.now }
    ensures { Tells (region_refusal cells.now (names_in tables.now) design.now script.now) result }
{
    check_shapes(tables, design, script)?;
    check_meeting(regions)?;
    check_across(regions, boxes)?;
    check_bare(alloc, regions, boxes, grids)?;
    check_blocks(cells, tables, design, grids)
}

fn check_shapes<'a>(
    tables: &Tables<'a>,
    design: &'a Design,
    script: &'a Script,
) -> Result<(), DrawError>
    ensures { Tells (option_map RegionShape (first_shaped (names_in tables.now) design.now script.now.domains)) result }
{
    match first_shaped(tables, design, script.domains.as_slice()) {
        Some(domain) => Err(DrawError::RegionShape(number(domain)?)),
        None => Ok(()),
    }
}

fn check_meeting(regions: &[Option<Rect>]) -> Result<(), DrawError>
    ensures { Tells (option_map meeting (first_meeting regions.now)) result }
{
    match first_meeting(regions) {
        Some((first, second)) => Err(DrawError::RegionsMeet(number(first)?, number(second)?)),
        None => Ok(()),
    }
}

fn check_across(regions: &[Option<Rect>], boxes: &[RowBox]) -> Result<(), DrawError>
    ensures { Tells (option_map RowAcross (first_across regions.now boxes.now)) result }
{
    match first_across(regions, boxes) {
        Some(row) => Err(DrawError::RowAcross(number(row)?)),
        None => Ok(()),
    }
}

fn check_bare(
    alloc: Global,
    regions: &[Option<Rect>],
    boxes: &[RowBox],
    grids: &[GridAt],
) -> Result<(), DrawError>
    ensures { Tells (option_map EmptyDomain (first_bare regions.now boxes.now grids.now)) result }
{
    match first_bare(alloc, regions, boxes, grids)? {
        Some(domain) => Err(DrawError::EmptyDomain(number(domain)?)),
        None => Ok(()),
    }
}

fn check_blocks<'a>(
    cells: &Cells,
    tables: &Tables<'a>,
    design: &'a Design,
    grids: &[GridAt],
) -> Result<(), DrawError>
    ensures { Tells (option_map MacroGrid (first_block cells.now (names_in tables.now) design.now grids.now)) result }
{
    match first_block(cells, tables, design, grids) {
        Some(component) => Err(DrawError::MacroGrid(number(component)?)),
        None => Ok(()),
    }
}

// The first domain whose region has more than one rectangle.
#[tactic(auto, using(crate::proofs::Ordered::first_passes, crate::proofs::Ordered::none_passes))]
fn first_shaped<'a>(tables: &Tables<'a>, design: &Design, domains: &'a [Domain]) -> Option<usize>
    ensures { result ≡ first_shaped (names_in tables.now) design.now domains.now }
{
    for (k, domain) in domains.iter().enumerate() {
        if 1 < rects_of(tables, design, &domain.region) {
            return Some(k);
        }
    }
    None
}

fn rects_of<'a>(tables: &Tables<'a>, design: &Design, region: &'a Option<Name>) -> usize
    ensures { result ≡ rects_of (names_in tables.now) design.now region.now }
{
    match region {
        Some(region) => rects_at(design, place_in(&tables.regions, region)),
        None => 0,
    }
}

fn rects_at(design: &Design, place: usize) -> usize
    ensures { result ≡ slice_index_or (map (λ (fence : Fence). length fence.rects) design.now.regions) place 0 }
{
    match design.regions.as_slice().get(place) {
        Some(region) => region.rects.as_slice().len(),
        None => 0,
    }
}

// The first region that meets a later one, with the first such later one.
#[tactic(auto, using(crate::proofs::Stepped::meeting_step, crate::proofs::Stepped::meeting_found))]
fn first_meeting(regions: &[Option<Rect>]) -> Option<(usize, usize)>
    ensures { result ≡ first_meeting regions.now }
{
    for (k, region) in regions.iter().enumerate() {
        let (_, later) = regions.split_at(k + 1);
        if let Some(j) = first_to_meet(*region, later) {
            return Some((k, k + 1 + j));
        }
    }
    None
}

fn first_to_meet(region: Option<Rect>, later: &[Option<Rect>]) -> Option<usize>
    ensures { result ≡ position (regions_meet region) later.now }
{
    later.iter().position(|other| regions_meet(region, *other))
}

fn regions_meet(a: Option<Rect>, b: Option<Rect>) -> bool
    ensures { result ≡ regions_meet a b }
{
    match (a, b) {
        (Some(a), Some(b)) => meet(a, b),
        _ => false,
    }
}

// The first row that lies across a region.
fn first_across(regions: &[Option<Rect>], boxes: &[RowBox]) -> Option<usize>
    ensures { result ≡ first_across regions.now boxes.now }
{
    boxes
        .iter()
        .position(|row| lies_across_some(row.rect, regions))
}

fn lies_across_some(row: Rect, regions: &[Option<Rect>]) -> bool
    ensures { result ≡ list_any (is_across row) regions.now }
{
    regions.iter().any(|region| is_across(row, *region))
}

fn is_across(row: Rect, region: Option<Rect>) -> bool
    ensures { result ≡ is_across row region }
{
    match region {
        Some(region) => share_area(row, region) && !lies_in(row, region),
        None => false,
    }
}

// The first domain without a row that a grid draws.
#[tactic(auto, using(crate::proofs::Stepped::bare_step))]
fn first_bare(
    alloc: Global,
    regions: &[Option<Rect>],
    boxes: &[RowBox],
    grids: &[GridAt],
) -> Result<Option<usize>, AllocError>
    ensures { IfOk result (λ k. k ≡ first_bare regions.now boxes.now grids.now) }
{
    for (k, region) in regions.iter().enumerate() {
        if is_bare(alloc, regions, boxes, grids, k, *region)? {
            return Ok(Some(k));
        }
    }
    Ok(None)
}

fn is_bare(
    alloc: Global,
    regions: &[Option<Rect>],
    boxes: &[RowBox],
    grids: &[GridAt],
    k: usize,
    region: Option<Rect>,
) -> Result<bool, AllocError>
    ensures { IfOk result (λ bare. bare ≡ is_bare regions.now boxes.now grids.now k region) }
{
    let rows = rows_of(alloc, regions, region, boxes)?;
    Ok(rows.is_empty() && is_drawn(grids, k))
}

fn is_drawn(grids: &[GridAt], k: usize) -> bool
    ensures { result ≡ is_drawn grids.now k }
{
    grids
        .iter()
        .any(|grid| grid.domain as usize == k && !grid.over_macros)
}

// The first placed component that is a block, where a grid over macros stands.
fn first_block<'a>(
    cells: &Cells,
    tables: &Tables<'a>,
    design: &'a Design,
    grids: &[GridAt],
) -> Option<usize>
    ensures { result ≡ first_block cells.now (names_in tables.now) design.now grids.now }
{
    if is_over_macros(grids) {
        return first_block_of(cells, tables, design.components.as_slice());
    }
    None
}

// Whether a grid over macros stands.
fn is_over_macros(grids: &[GridAt]) -> bool
    ensures { result ≡ list_any (λ (g : GridAt). g.over_macros) grids.now }
{
    grids.iter().any(|grid| grid.over_macros)
}

#[tactic(auto, using(crate::proofs::Ordered::first_passes, crate::proofs::Ordered::none_passes))]
fn first_block_of<'a>(
    cells: &Cells,
    tables: &Tables<'a>,
    components: &'a [Component],
) -> Option<usize>
    ensures { result ≡ first_place (is_block cells.now (names_in tables.now)) components.now }
{
    for (k, component) in components.iter().enumerate() {
        if is_block(cells, tables, component) {
            return Some(k);
        }
    }
    None
}

fn is_block<'a>(cells: &Cells, tables: &Tables<'a>, component: &'a Component) -> bool
    ensures { result ≡ is_block cells.now (names_in tables.now) component.now }
{
    component.place.is_some() && is_block_cell(cells, place_in(&tables.macros, &component.cell))
}

fn is_block_cell(cells: &Cells, place: usize) -> bool
    ensures { result ≡ slice_index_or (map (λ (cell : MacroCell). cell.block) cells.now.macros) place false }
{
    match cells.macros.as_slice().get(place) {
        Some(cell) => cell.block,
        None => false,
    }
}
