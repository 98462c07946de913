//! The voltage domains and the grids.
ghost use Rattle.std.specs.Prelude.{◌≡◌, IfOk, map, None, slice_get, slice_index_or};
ghost use Rattle.grid_pieces.specs.declared.grid.DomainAt.{DomainAt};
ghost use Rattle.entry_list.specs.InTurn.{InTurn};
ghost use Rattle.def_design.specs.declared.record.Fence.{Fence};
ghost use Rattle.grid_plan.specs.Planning.{grids_in};
ghost use Rattle.grid_plan.specs.Resolved.{region_at, IsDomainAt, grid_at};
ghost use Rattle.grid_plan.specs.inside.Tables.{names_in};

use crate::record::GridAt;
use crate::tables::{Tables, place_in};
use crate::units::number;
use def_design::Design;
use geom_rect::Rect;
use grid_pieces::DomainAt;
use name_places::NamePlaces;
use outside::Name;
use pdn_script::{Domain, GridRule, Script};
use std::alloc::{AllocError, Global};

#[tactic(auto, using(crate::proofs::Stepped::turn_more))]
pub(crate) fn domains<'a>(
    alloc: Global,
    tables: &Tables<'a>,
    nets: &NamePlaces<'a>,
    design: &Design,
    script: &'a Script,
) -> Result<Vec<DomainAt>, AllocError>
    ensures { IfOk result (λ domains.
        InTurn (IsDomainAt (names_in tables.now) nets.now design.now) script.now.domains domains.items) }
{
    let mut domains = Vec::new(alloc);
    for domain in script.domains.as_slice() {
        domains.push(domain_at(tables, nets, design, domain)?)?;
    }
    Ok(domains)
}

fn domain_at<'a>(
    tables: &Tables<'a>,
    nets: &NamePlaces<'a>,
    design: &Design,
    domain: &'a Domain,
) -> Result<DomainAt, AllocError>
    ensures { IfOk result (IsDomainAt (names_in tables.now) nets.now design.now domain.now) }
{
    Ok(DomainAt {
        region: region_at(tables, design, &domain.region),
        ground: number(place_in(nets, &domain.ground))?,
        power: number(place_in(nets, &domain.power))?,
    })
}

// The rectangle of a region, of more than one the first.
fn region_at<'a>(tables: &Tables<'a>, design: &Design, region: &'a Option<Name>) -> Option<Rect>
    ensures { result ≡ region_at (names_in tables.now) design.now region.now }
{
    match region {
        Some(region) => first_rect(design, place_in(&tables.regions, region)),
        None => None,
    }
}

fn first_rect(design: &Design, place: usize) -> Option<Rect>
    ensures { result ≡ slice_index_or (map (λ (fence : Fence). slice_get fence.rects 0) design.now.regions) place None }
{
    match design.regions.as_slice().get(place) {
        Some(fence) => fence.rects.as_slice().first().copied(),
        None => None,
    }
}

pub(crate) fn grids<'a>(
    alloc: Global,
    tables: &Tables<'a>,
    script: &'a Script,
) -> Result<Vec<GridAt>, AllocError>
    ensures { IfOk result (λ grids. grids.items ≡ grids_in (names_in tables.now) script.now) }
{
    let mut grids = Vec::new(alloc);
    for grid in script.grids.as_slice() {
        grids.push(grid_at(tables, grid)?)?;
    }
    Ok(grids)
}

fn grid_at<'a>(tables: &Tables<'a>, grid: &'a GridRule) -> Result<GridAt, AllocError>
    ensures { IfOk result (λ at. at ≡ grid_at (names_in tables.now) grid.now) }
{
    Ok(GridAt {
        domain: number(place_in(&tables.domains, &grid.voltage_domains))?,
        over_macros: grid.macro_,
    })
}

// The regions of the domains.
pub(crate) fn regions(alloc: Global, domains: &[DomainAt]) -> Result<Vec<Option<Rect>>, AllocError>
    ensures { IfOk result (λ regions. regions.items ≡ map (λ (d : DomainAt). d.region) domains.now) }
{
    domains.iter().map(|domain| domain.region).collect(alloc)
}
