//! What the commands of a grid are drawn over.
ghost use Rattle.std.specs.Prelude.{◌≡◌, ◌≢◌, ◌⊎◌, ◌<◌, ◌≤◌, ◌*◌, ◌++◌, true, not, [], OnOk, IfOk, IfErr, All, Contains, filter, length, slice_index_or};
ghost use Rattle.std.specs.Bool.{nat_eq};
ghost use Rattle.std.specs.Int.{int_max};
ghost use Rattle.std.specs.List.{flat_map};
ghost use Rattle.grid_cores.specs.Core.{IsCore};
ghost use Rattle.grid_pieces.specs.declared.error.Counted.TheVariants.{Lines};
ghost use Rattle.grid_pieces.specs.declared.error.DrawError.TheVariants.{TooMany, Want};
ghost use Rattle.grid_plan.specs.declared.record.Rails.{Rails};
ghost use Rattle.grid_plan.specs.declared.record.RingAt.{RingAt};
ghost use Rattle.grid_plan.specs.Keeping.{plan_regions, domain_rows};
ghost use Rattle.ring_layout.specs.Rings.{rings_of};
ghost use Rattle.grid_shapes.specs.Shapes.{most_lines, SidesAreMany};
ghost use Rattle.grid_shapes.specs.Site.{grid_of, widest};
ghost use Rattle.grid_shapes.specs.inside.Sites.{HasSite, AreSites, PlanStands, RingFits, RingsAreMany};

use geom_rect::{Drawn, Rect};
use grid_cores::{core_of, rows_of};
use grid_pieces::{Counted, DrawError};
use grid_plan::{GridAt, Plan, Rails, RingAt};
use rail_layout::RowBox;
use ring_layout::rings;
use std::alloc::{AllocError, Global};

// One rule draws no more lines than this.
pub(crate) const MOST_LINES: usize = 1_000_000;

// The rows and the core of the domain of a grid, the width of the widest rails of the grid, and the sides of its ring.
#[derive(Drop)]
pub(crate) struct Site {
    pub(crate) rows: Vec<RowBox>,
    pub(crate) core: Rect,
    pub(crate) widest: i64,
    pub(crate) sides: Vec<Drawn>,
}

// The site of each grid.
pub(crate) fn sites(
    alloc: Global,
    plan: &Plan,
    regions: &[Option<Rect>],
) -> Result<Vec<Site>, DrawError>
    requires regions { regions.now ≡ plan_regions plan.now }
    requires plan { PlanStands plan.now }
    ensures sites { IfOk result (λ sites. AreSites plan.now sites.items) }
    ensures refused { IfErr result (λ error. (error ≡ Want) ⊎ ((error ≡ TooMany Lines) × SidesAreMany plan.now)) }
{
    let mut sites = Vec::new(alloc);
    for (place, grid) in plan.grids.as_slice().iter().enumerate() {
        sites.push(site_of(alloc, plan, regions, place, *grid)?)?;
    }
    Ok(sites)
}

// The site of a grid. A grid over macros draws nothing, and has none of it.
fn site_of(
    alloc: Global,
    plan: &Plan,
    regions: &[Option<Rect>],
    place: usize,
    grid: GridAt,
) -> Result<Site, DrawError>
    requires regions { regions.now ≡ plan_regions plan.now }
    requires plan { PlanStands plan.now }
    requires place { place < length plan.now.grids }
    requires grid { grid ≡ grid_of plan.now place }
    ensures site { IfOk result (HasSite plan.now place) }
    ensures refused { IfErr result (λ error. (error ≡ Want) ⊎ ((error ≡ TooMany Lines) × SidesAreMany plan.now)) }
{
    if grid.over_macros {
        return Ok(Site {
            rows: Vec::new(alloc),
            core: NOTHING,
            widest: 0,
            sides: Vec::new(alloc),
        });
    }
    let rows = rows_of_domain(alloc, plan, regions, grid.domain)?;
    let core = core_with(&rows);
    Ok(Site {
        sides: ring_sides(alloc, plan.rings.as_slice(), place, core)?,
        widest: widest_of(plan.rails.as_slice(), place),
        rows,
        core,
    })
}

// The rows of a domain.
fn rows_of_domain(
    alloc: Global,
    plan: &Plan,
    regions: &[Option<Rect>],
    domain: u32,
) -> Result<Vec<RowBox>, AllocError>
    requires regions { regions.now ≡ plan_regions plan.now }
    requires domain { domain < length plan.now.domains }
    ensures { IfOk result (λ rows. rows.items ≡ domain_rows plan.now domain) }
{
    let region = regions[domain as usize];
    rows_of(alloc, regions, region, plan.rows.as_slice())
}

// The core of rows, of which there is one.
fn core_with(rows: &[RowBox]) -> Rect
    requires { rows.now ≢ [] }
    ensures { IsCore rows.now result }
{
    match core_of(rows) {
        Some(core) => core,
        None => NOTHING,
    }
}

const NOTHING: Rect = Rect {
    x1: 0,
    y1: 0,
    x2: 0,
    y2: 0,
};

// The width of the widest rails of a grid, 0 where it has none.
fn widest_of(rails: &[Rails], grid: usize) -> i64
    ensures { result ≡ widest (filter (λ (r : Rails). nat_eq r.grid grid) rails.now) }
{
    let mut widest = 0;
    for rails in rails {
        if rails.grid as usize == grid {
            widest = wider(*rails, widest);
        }
    }
    widest
}

fn wider(rails: Rails, widest: i64) -> i64
    ensures { result ≡ int_max rails.width widest }
{
    rails.width.max(widest)
}

// The width of the widest rails of all grids but those over macros, 0 where there are none.
pub(crate) fn widest_of_all(grids: &[GridAt], rails: &[Rails]) -> i64
    requires { All (λ (r : Rails). r.grid < length grids.now) rails.now }
    ensures { result ≡ widest (filter (λ (r : Rails). not (slice_index_or grids.now r.grid (record { domain = 0; over_macros = true })).over_macros) rails.now) }
{
    let mut widest = 0;
    for rails in rails {
        if !grids[rails.grid as usize].over_macros {
            widest = wider(*rails, widest);
        }
    }
    widest
}

// The sides of the ring of a grid.
fn ring_sides(
    alloc: Global,
    all: &[RingAt],
    grid: usize,
    core: Rect,
) -> Result<Vec<Drawn>, DrawError>
    requires rings { All (RingFits core) all.now }
    ensures sides { IfOk result (λ sides. sides.items ≡ flat_map (λ (ring : RingAt). rings_of ring.rule core) (filter (λ (ring : RingAt). nat_eq ring.grid grid) all.now)) }
    ensures few { IfOk result (λ _. (ring : RingAt) → Contains all.now ring → ring.grid ≡ grid → 4 * length ring.rule.nets ≤ most_lines) }
    ensures refused { IfErr result (λ error. (error ≡ Want) ⊎ ((error ≡ TooMany Lines) × RingsAreMany grid all.now)) }
{
    let mut sides = Vec::new(alloc);
    for ring in all {
        if ring.grid as usize == grid {
            add_ring(alloc, &mut sides, ring, core)?;
        }
    }
    Ok(sides)
}

// Adds the sides of a ring.
fn add_ring(
    alloc: Global,
    sides: &mut Vec<Drawn>,
    ring: &RingAt,
    core: Rect,
) -> Result<(), DrawError>
    requires { RingFits core ring.now }
    ensures added { OnOk result (sides.new.items ≡ sides.old.items ++ rings_of ring.now.rule core) }
    ensures few { OnOk result (4 * length ring.now.rule.nets ≤ most_lines) }
    ensures refused { IfErr result (λ error. (error ≡ Want) ⊎ ((error ≡ TooMany Lines) × (most_lines < 4 * length ring.now.rule.nets))) }
{
    if MOST_LINES / 4 < ring.rule.nets.as_slice().len() {
        return Err(DrawError::TooMany(Counted::Lines));
    }
    let more = rings(alloc, &ring.rule, core)?;
    sides.extend_from_slice(&more)?;
    Ok(())
}
