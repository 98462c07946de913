//! The shapes.
ghost use Rattle.std.specs.Prelude.{◌≡◌, ◌⊎◌, ℕ, pos, ◌<◌, ◌<ℤ◌, ◌+ℤ◌, ◌++◌, false, [], if◌then◌else◌, Some, None, IfOk, IfErr, OnOk, All, Contains, map, length, slice_get};
ghost use Rattle.std.specs.Bool.{nat_eq};
ghost use Rattle.std.specs.List.{range_with_len};
ghost use Rattle.std.specs.Option.{option_to_list};
ghost use Rattle.geom_rect.specs.Drawn.{half, IsWidth};
ghost use Rattle.strap_layout.specs.Lines.{AreStrapsUpTo, DrawsMore};
ghost use Rattle.grid_pieces.specs.declared.error.Counted.TheVariants.{Lines};
ghost use Rattle.grid_pieces.specs.declared.error.DrawError.TheVariants.{TooMany, Want};
ghost use Rattle.grid_pieces.specs.declared.grid.DomainAt.{DomainAt};
ghost use Rattle.grid_plan.specs.declared.record.Rails.{Rails};
ghost use Rattle.grid_plan.specs.declared.record.Straps.{Straps};
ghost use Rattle.grid_plan.specs.Keeping.{PlanKeeps, IsLength, plan_regions};
ghost use Rattle.grid_shapes.specs.Shapes.{most_lines, DrawStraps, IsRailRule, DrawRails, DrawSides, Draws, AreOfEach, AreShapes, StrapsAreMany, RailsAreMany, LinesAreMany};
ghost use Rattle.grid_shapes.specs.Site.{grid_of, widest_of, others_from, foreign};
ghost use Rattle.grid_shapes.specs.inside.Sites.{IsSite, AreSites, PlanStands, IsEvenWidth, ShapeKeeps, Adds};

use crate::reach::{stated_reach, strap_reaches};
use crate::site::{MOST_LINES, Site, sites, widest_of_all};
use geom_rect::{Axis, Drawn, Rect, Run};
use grid_cores::{add_runs, grown_regions};
use grid_pieces::{Counted, DomainAt, DrawError};
use grid_plan::{GridAt, Plan, Rails, Straps};
use lef_tech::Tech;
use rail_layout::{RailRule, rails};
use std::alloc::{AllocError, Global};
use strap_layout::straps_up_to;

/// The shapes that a plan draws: those of its straps, its rails and its rings.
///
/// Error: one rule draws more than 10^6 lines; want of memory.
pub fn shapes(alloc: Global, tech: &Tech, plan: &Plan) -> Result<Vec<Drawn>, DrawError>
    requires plan { PlanKeeps tech.now plan.now }
    ensures shapes { IfOk result (λ shapes. AreShapes plan.now shapes.items) }
    ensures keep { IfOk result (λ shapes. All (ShapeKeeps tech.now plan.now) shapes.items) }
    ensures refused { IfErr result (λ error. (error ≡ Want) ⊎ ((error ≡ TooMany Lines) × LinesAreMany plan.now)) }
{
    let regions = regions(alloc, plan.domains.as_slice())?;
    let sites = sites(alloc, plan, &regions)?;
    let widest = widest_of_all(plan.grids.as_slice(), plan.rails.as_slice());
    let mut shapes = Vec::new(alloc);
    add_all_straps(alloc, plan, &regions, &sites, widest, &mut shapes)?;
    add_all_rails(alloc, plan, &regions, &sites, widest, &mut shapes)?;
    add_all_sides(plan, &sites, &mut shapes)?;
    Ok(shapes)
}

fn regions(alloc: Global, domains: &[DomainAt]) -> Result<Vec<Option<Rect>>, AllocError>
    ensures { IfOk result (λ regions. regions.items ≡ map (λ (d : DomainAt). d.region) domains.now) }
{
    domains.iter().map(|domain| domain.region).collect(alloc)
}

fn add_all_straps(
    alloc: Global,
    plan: &Plan,
    regions: &[Option<Rect>],
    sites: &[Site],
    widest: i64,
    shapes: &mut Vec<Drawn>,
) -> Result<(), DrawError>
    requires plan { PlanStands plan.now }
    requires regions { regions.now ≡ plan_regions plan.now }
    requires sites { AreSites plan.now sites.now }
    requires widest { widest ≡ widest_of plan.now }
    ensures added { OnOk result (Adds (AreOfEach (λ (s : Straps). Draws plan.now s.grid (DrawStraps plan.now s)) plan.now.straps) shapes.old.items shapes.new.items) }
    ensures refused { IfErr result (λ error. (error ≡ Want) ⊎ ((error ≡ TooMany Lines) × StrapsAreMany plan.now)) }
{
    for straps in plan.straps.as_slice() {
        add_straps(alloc, plan, regions, sites, widest, straps, shapes)?;
    }
    Ok(())
}

// Adds the straps of a command; those of a grid over macros draw nothing.
fn add_straps(
    alloc: Global,
    plan: &Plan,
    regions: &[Option<Rect>],
    sites: &[Site],
    widest: i64,
    straps: &Straps,
    shapes: &mut Vec<Drawn>,
) -> Result<(), DrawError>
    requires plan { PlanStands plan.now }
    requires straps { Contains plan.now.straps straps.now }
    requires regions { regions.now ≡ plan_regions plan.now }
    requires sites { AreSites plan.now sites.now }
    requires widest { widest ≡ widest_of plan.now }
    ensures added { OnOk result (Adds (Draws plan.now straps.now.grid (DrawStraps plan.now straps.now)) shapes.old.items shapes.new.items) }
    ensures refused { IfErr result (λ error. (error ≡ Want) ⊎ ((error ≡ TooMany Lines) × StrapsAreMany plan.now)) }
{
    let grid = grid_at(plan, straps.grid);
    if grid.over_macros {
        return Ok(());
    }
    let foreign = foreign(alloc, plan, regions, widest, straps.grid, straps.spacing)?;
    let site = &sites[straps.grid as usize];
    draw_straps(alloc, plan, site, straps, &foreign, shapes)?;
    Ok(())
}

fn grid_at(plan: &Plan, grid: u32) -> GridAt
    requires { grid < length plan.now.grids }
    ensures { result ≡ grid_of plan.now grid }
{
    plan.grids.as_slice()[grid as usize]
}

fn draw_straps(
    alloc: Global,
    plan: &Plan,
    site: &Site,
    straps: &Straps,
    regions: &[Rect],
    shapes: &mut Vec<Drawn>,
) -> Result<(), DrawError>
    requires plan { PlanStands plan.now }
    requires straps { Contains plan.now.straps straps.now }
    requires drawn { (grid_of plan.now straps.now.grid).over_macros ≡ false }
    requires site { IsSite plan.now straps.now.grid site.now }
    requires regions { regions.now ≡ foreign plan.now straps.now.grid straps.now.spacing }
    ensures added { OnOk result (Adds (DrawStraps plan.now straps.now) shapes.old.items shapes.new.items) }
    ensures refused { IfErr result (λ error. (error ≡ Want) ⊎ ((error ≡ TooMany Lines) × StrapsAreMany plan.now)) }
{
    let reaches = strap_reaches(alloc, plan, site, straps)?;
    let lines = strap_lines(alloc, straps, site.core, &reaches)?;
    add_runs(alloc, shapes, &lines, regions)?;
    Ok(())
}

// The lines of straps over a core.
fn strap_lines(
    alloc: Global,
    straps: &Straps,
    core: Rect,
    reaches: &[Run],
) -> Result<Vec<Drawn>, DrawError>
    requires width { IsWidth straps.now.rule.width }
    requires pitch { pos 0 <ℤ straps.now.rule.pitch }
    requires reach { length reaches.now ≡ length straps.now.rule.nets }
    ensures lines { IfOk result (λ lines. AreStrapsUpTo most_lines straps.now.rule core reaches.now lines.items) }
    ensures refused { IfErr result (λ error. (error ≡ Want) ⊎ ((error ≡ TooMany Lines) × DrawsMore most_lines straps.now.rule core)) }
{
    match straps_up_to(alloc, &straps.rule, core, reaches, MOST_LINES)? {
        Some(lines) => Ok(lines),
        None => Err(DrawError::TooMany(Counted::Lines)),
    }
}

fn add_all_rails(
    alloc: Global,
    plan: &Plan,
    regions: &[Option<Rect>],
    sites: &[Site],
    widest: i64,
    shapes: &mut Vec<Drawn>,
) -> Result<(), DrawError>
    requires plan { PlanStands plan.now }
    requires regions { regions.now ≡ plan_regions plan.now }
    requires sites { AreSites plan.now sites.now }
    requires widest { widest ≡ widest_of plan.now }
    ensures added { OnOk result (Adds (AreOfEach (λ (r : Rails). Draws plan.now r.grid (DrawRails plan.now r)) plan.now.rails) shapes.old.items shapes.new.items) }
    ensures refused { IfErr result (λ error. (error ≡ Want) ⊎ ((error ≡ TooMany Lines) × RailsAreMany plan.now)) }
{
    for rails in plan.rails.as_slice() {
        add_rails(alloc, plan, regions, sites, widest, *rails, shapes)?;
    }
    Ok(())
}

// Adds the rails of a command; those of a grid over macros draw nothing.
fn add_rails(
    alloc: Global,
    plan: &Plan,
    regions: &[Option<Rect>],
    sites: &[Site],
    widest: i64,
    rule: Rails,
    shapes: &mut Vec<Drawn>,
) -> Result<(), DrawError>
    requires plan { PlanStands plan.now }
    requires rails { Contains plan.now.rails rule }
    requires regions { regions.now ≡ plan_regions plan.now }
    requires sites { AreSites plan.now sites.now }
    requires widest { widest ≡ widest_of plan.now }
    ensures added { OnOk result (Adds (Draws plan.now rule.grid (DrawRails plan.now rule)) shapes.old.items shapes.new.items) }
    ensures refused { IfErr result (λ error. (error ≡ Want) ⊎ ((error ≡ TooMany Lines) × RailsAreMany plan.now)) }
{
    let grid = grid_at(plan, rule.grid);
    if grid.over_macros {
        return Ok(());
    }
    let foreign = foreign(alloc, plan, regions, widest, rule.grid, rule.spacing)?;
    let site = &sites[rule.grid as usize];
    let domain = domain_at(plan, grid.domain);
    draw_rails(alloc, plan, site, domain, rule, &foreign, shapes)?;
    Ok(())
}

fn domain_at(plan: &Plan, domain: u32) -> DomainAt
    requires { domain < length plan.now.domains }
    ensures { slice_get plan.now.domains domain ≡ Some result }
{
    plan.domains.as_slice()[domain as usize]
}

fn draw_rails(
    alloc: Global,
    plan: &Plan,
    site: &Site,
    domain: DomainAt,
    rule: Rails,
    regions: &[Rect],
    shapes: &mut Vec<Drawn>,
) -> Result<(), DrawError>
    requires plan { PlanStands plan.now }
    requires rails { Contains plan.now.rails rule }
    requires drawn { (grid_of plan.now rule.grid).over_macros ≡ false }
    requires site { IsSite plan.now rule.grid site.now }
    requires domain { slice_get plan.now.domains (grid_of plan.now rule.grid).domain ≡ Some domain }
    requires regions { regions.now ≡ foreign plan.now rule.grid rule.spacing }
    ensures added { OnOk result (Adds (DrawRails plan.now rule) shapes.old.items shapes.new.items) }
    ensures refused { IfErr result (λ error. (error ≡ Want) ⊎ ((error ≡ TooMany Lines) × RailsAreMany plan.now)) }
{
    if MOST_LINES / 2 < site.rows.len() {
        return Err(DrawError::TooMany(Counted::Lines));
    }
    let rule = rail_rule(plan, site, domain, rule);
    let lines = rails(alloc, &rule, &site.rows)?;
    add_runs(alloc, shapes, &lines, regions)?;
    Ok(())
}

fn rail_rule(plan: &Plan, site: &Site, domain: DomainAt, rule: Rails) -> RailRule
    requires { IsSite plan.now rule.grid site.now }
    ensures { IsRailRule plan.now rule site.now.core domain result }
{
    RailRule {
        layer: rule.layer,
        width: rule.width,
        ground: domain.ground,
        power: domain.power,
        ground_reach: stated_reach(rule.reach, Axis::X, plan.die, &site.sides, domain.ground),
        power_reach: stated_reach(rule.reach, Axis::X, plan.die, &site.sides, domain.power),
    }
}

// The regions of the domains that a grid does not name, grown.
fn foreign(
    alloc: Global,
    plan: &Plan,
    regions: &[Option<Rect>],
    widest: i64,
    grid: u32,
    spacing: i64,
) -> Result<Vec<Rect>, AllocError>
    requires plan { PlanStands plan.now }
    requires regions { regions.now ≡ plan_regions plan.now }
    requires widest { widest ≡ widest_of plan.now }
    requires grid { grid < length plan.now.grids }
    requires spacing { IsLength spacing }
    ensures { IfOk result (λ grown. grown.items ≡ foreign plan.now grid spacing) }
{
    let domain = grid_at(plan, grid).domain;
    let by = grown_length(spacing, widest);
    let others = others(alloc, regions, domain)?;
    let grown = grown_regions(alloc, &others, by)?;
    Ok(grown)
}

// A spacing and half of a width.
fn grown_length(spacing: i64, width: i64) -> i64
    requires spacing { IsLength spacing }
    requires width { IsEvenWidth width }
    ensures { result ≡ spacing +ℤ half width }
{
    spacing + width / 2
}

// The regions of all domains but one.
fn others(alloc: Global, regions: &[Option<Rect>], domain: u32) -> Result<Vec<Rect>, AllocError>
    ensures { IfOk result (λ others. others.items ≡ others_from 0 domain regions.now) }
{
    let mut others = Vec::new(alloc);
    for (place, region) in regions.iter().enumerate() {
        push_some(&mut others, unless_same(place, domain, *region))?;
    }
    Ok(others)
}

fn push_some(regions: &mut Vec<Rect>, region: Option<Rect>) -> Result<(), AllocError>
    ensures { OnOk result (regions.new.items ≡ regions.old.items ++ option_to_list region) }
{
    if let Some(region) = region {
        regions.push(region)?;
    }
    Ok(())
}

fn unless_same(place: usize, domain: u32, region: Option<Rect>) -> Option<Rect>
    ensures { result ≡ (if nat_eq place domain then None else region) }
{
    if place == domain as usize {
        None
    } else {
        region
    }
}

fn add_all_sides(plan: &Plan, sites: &[Site], shapes: &mut Vec<Drawn>) -> Result<(), AllocError>
    requires { AreSites plan.now sites.now }
    ensures { OnOk result (Adds (AreOfEach (λ (grid : ℕ). Draws plan.now grid (DrawSides plan.now grid)) (range_with_len 0 (length plan.now.grids))) shapes.old.items shapes.new.items) }
{
    for (place, grid) in plan.grids.as_slice().iter().enumerate() {
        add_sides(&sites[place], grid.over_macros, shapes)?;
    }
    Ok(())
}

// Adds the sides of the ring of a grid; a grid over macros draws none.
fn add_sides(site: &Site, over_macros: bool, shapes: &mut Vec<Drawn>) -> Result<(), AllocError>
    ensures { OnOk result (shapes.new.items ≡ shapes.old.items ++ (if over_macros then [] else site.now.sides.items)) }
{
    if !over_macros {
        shapes.extend_from_slice(&site.sides)?;
    }
    Ok(())
}
