//! The first name that is not known.
ghost use Rattle.std.specs.Prelude.{◌≡◌, IfOk, map, slice_index_or, []};
ghost use Rattle.std.specs.Option.{is_some};
ghost use Rattle.std.specs.Str.{bytes_eq};
ghost use Rattle.name_places.specs.Places.{place_of};
ghost use Rattle.grid_plan.specs.Names.{domain_nets};
ghost use Rattle.grid_plan.specs.Order.{first_some};
ghost use Rattle.grid_plan.specs.Unknown.{unknown, unknown_net, unknown_region, unknown_in_stripe, unknown_in_ring, unknown_of_domains, unknown_of_stripes, unknown_of_rings, unknown_of_connects, unknown_in_script, first_unknown, domain_of, grid_nets};
ghost use Rattle.def_design.specs.declared.record.Component.{Component};
ghost use Rattle.def_design.specs.declared.record.Row.{Row};
ghost use Rattle.grid_plan.specs.inside.Tables.{names_in};

use crate::order::{earlier, placed, unplaced};
use crate::tables::{Tables, place_in};
use def_design::{Component, Design, Row};
use entry_list::Entries;
use name_places::NamePlaces;
use outside::{Name, Place};
use pdn_script::{Connect, Domain, Ring, Script, Stripe};
use std::alloc::{AllocError, Global};

// The first name of all that is not known.
pub(crate) fn first_unknown<'a>(
    alloc: Global,
    tables: &Tables<'a>,
    design: &'a Design,
    script: &'a Script,
) -> Result<Option<Name>, AllocError>
    ensures { IfOk result (λ name. name ≡ first_unknown (names_in tables.now) design.now script.now) }
{
    if let Some(name) = unknown_in_script(alloc, tables, script)? {
        return Ok(Some(name));
    }
    if let Some(name) = unknown_site(alloc, &tables.sites, design.rows.as_slice())? {
        return Ok(Some(name));
    }
    unknown_cell(alloc, &tables.macros, design.components.as_slice())
}

fn unknown_in_script<'a>(
    alloc: Global,
    tables: &Tables<'a>,
    script: &'a Script,
) -> Result<Option<Name>, AllocError>
    ensures { IfOk result (λ name. name ≡ unknown_in_script (names_in tables.now) script.now) }
{
    let domains = of_domains(alloc, tables, script.domains.as_slice())?;
    let stripes = of_stripes(alloc, tables, script, script.stripes.as_slice())?;
    let rings = of_rings(alloc, tables, script, script.rings.as_slice())?;
    let connects = of_connects(alloc, tables, script.connects.as_slice())?;
    Ok(unplaced(earlier(earlier(domains, stripes), earlier(rings, connects))))
}

#[tactic(auto, using(crate::proofs::Ordered::found_at, crate::proofs::Ordered::none_at))]
fn unknown_site<'a>(
    alloc: Global,
    sites: &NamePlaces<'a>,
    rows: &'a [Row],
) -> Result<Option<Name>, AllocError>
    ensures { IfOk result (λ name. name ≡ first_some (λ (row : Row). unknown sites.now row.site) rows.now) }
{
    for row in rows {
        if let Some(name) = unknown(alloc, sites, &row.site)? {
            return Ok(Some(name));
        }
    }
    Ok(None)
}

#[tactic(auto, using(crate::proofs::Ordered::found_at, crate::proofs::Ordered::none_at))]
fn unknown_cell<'a>(
    alloc: Global,
    macros: &NamePlaces<'a>,
    components: &'a [Component],
) -> Result<Option<Name>, AllocError>
    ensures { IfOk result (λ name. name ≡ first_some (λ (c : Component). unknown macros.now c.cell) components.now) }
{
    for component in components {
        if let Some(name) = unknown(alloc, macros, &component.cell)? {
            return Ok(Some(name));
        }
    }
    Ok(None)
}

#[tactic(auto, using(crate::proofs::Ordered::found_at, crate::proofs::Ordered::none_at))]
fn of_domains<'a>(
    alloc: Global,
    tables: &Tables<'a>,
    domains: &'a [Domain],
) -> Result<Option<(Place, Name)>, AllocError>
    ensures { IfOk result (λ name. name ≡ unknown_of_domains (names_in tables.now) domains.now) }
{
    for domain in domains {
        if let Some(name) = unknown_region(alloc, &tables.regions, &domain.region)? {
            return Ok(placed(domain.place, Some(name)));
        }
    }
    Ok(None)
}

#[tactic(auto, using(crate::proofs::Ordered::found_at, crate::proofs::Ordered::none_at))]
fn of_stripes<'a>(
    alloc: Global,
    tables: &Tables<'a>,
    script: &'a Script,
    stripes: &'a [Stripe],
) -> Result<Option<(Place, Name)>, AllocError>
    ensures { IfOk result (λ name. name ≡ unknown_of_stripes (names_in tables.now) script.now stripes.now) }
{
    for stripe in stripes {
        if let Some(name) = unknown_in_stripe(alloc, tables, script, stripe)? {
            return Ok(placed(stripe.place, Some(name)));
        }
    }
    Ok(None)
}

#[tactic(auto, using(crate::proofs::Ordered::found_at, crate::proofs::Ordered::none_at))]
fn of_rings<'a>(
    alloc: Global,
    tables: &Tables<'a>,
    script: &'a Script,
    rings: &'a [Ring],
) -> Result<Option<(Place, Name)>, AllocError>
    ensures { IfOk result (λ name. name ≡ unknown_of_rings (names_in tables.now) script.now rings.now) }
{
    for ring in rings {
        if let Some(name) = unknown_in_ring(alloc, tables, script, ring)? {
            return Ok(placed(ring.place, Some(name)));
        }
    }
    Ok(None)
}

#[tactic(auto, using(crate::proofs::Ordered::found_at, crate::proofs::Ordered::none_at))]
fn of_connects<'a>(
    alloc: Global,
    tables: &Tables<'a>,
    connects: &'a [Connect],
) -> Result<Option<(Place, Name)>, AllocError>
    ensures { IfOk result (λ name. name ≡ unknown_of_connects (names_in tables.now) connects.now) }
{
    for connect in connects {
        if let Some(name) = first_unknown_of(alloc, &tables.layers, connect.layers.as_slice())? {
            return Ok(placed(connect.place, Some(name)));
        }
    }
    Ok(None)
}

fn unknown_region<'a>(
    alloc: Global,
    regions: &NamePlaces<'a>,
    region: &'a Option<Name>,
) -> Result<Option<Name>, AllocError>
    ensures { IfOk result (λ name. name ≡ unknown_region regions.now region.now) }
{
    match region {
        Some(region) => unknown(alloc, regions, region),
        None => Ok(None),
    }
}

fn unknown_in_stripe<'a>(
    alloc: Global,
    tables: &Tables<'a>,
    script: &'a Script,
    stripe: &'a Stripe,
) -> Result<Option<Name>, AllocError>
    ensures { IfOk result (λ name. name ≡ unknown_in_stripe (names_in tables.now) script.now stripe.now) }
{
    if let Some(name) = unknown(alloc, &tables.layers, &stripe.layer)? {
        return Ok(Some(name));
    }
    if stripe.followpins {
        return Ok(None);
    }
    unknown_net(alloc, tables, script, &stripe.grid, &stripe.nets)
}

fn unknown_in_ring<'a>(
    alloc: Global,
    tables: &Tables<'a>,
    script: &'a Script,
    ring: &'a Ring,
) -> Result<Option<Name>, AllocError>
    ensures { IfOk result (λ name. name ≡ unknown_in_ring (names_in tables.now) script.now ring.now) }
{
    if let Some(name) = first_unknown_of(alloc, &tables.layers, ring.layers.as_slice())? {
        return Ok(Some(name));
    }
    unknown_net(alloc, tables, script, &ring.grid, &ring.nets)
}

// The first net that is stated and none of the domain of the grid.
fn unknown_net<'a>(
    alloc: Global,
    tables: &Tables<'a>,
    script: &'a Script,
    grid: &'a Name,
    nets: &'a Option<Entries<Name>>,
) -> Result<Option<Name>, AllocError>
    ensures { IfOk result (λ name. name ≡ unknown_net (grid_nets (names_in tables.now) script.now grid.now) nets.now) }
{
    match nets {
        Some(nets) => {
            let domain = domain_of(tables, script, grid);
            first_foreign(alloc, script.domains.as_slice(), domain, nets.as_slice())
        }
        None => Ok(None),
    }
}

// The first of the nets that is none of the domain at a place.
#[tactic(auto, using(crate::proofs::Ordered::found_at, crate::proofs::Ordered::none_at))]
fn first_foreign(
    alloc: Global,
    domains: &[Domain],
    domain: usize,
    nets: &[Name],
) -> Result<Option<Name>, AllocError>
    ensures { IfOk result (λ name. name ≡ first_some (unknown (slice_index_or (map domain_nets domains.now) domain [])) nets.now) }
{
    for net in nets {
        if let Some(name) = foreign(alloc, domains, domain, net)? {
            return Ok(Some(name));
        }
    }
    Ok(None)
}

// The net, where the domain at a place has it not.
fn foreign(
    alloc: Global,
    domains: &[Domain],
    domain: usize,
    net: &Name,
) -> Result<Option<Name>, AllocError>
    ensures { IfOk result (λ name. name ≡ unknown (slice_index_or (map domain_nets domains.now) domain []) net.now) }
{
    if has_net(domains, domain, net) {
        return Ok(None);
    }
    Ok(Some(Name::new(alloc, net.bytes())?))
}

// Whether the domain at a place has the net.
fn has_net(domains: &[Domain], domain: usize, net: &Name) -> bool
    ensures { result ≡ is_some (place_of (slice_index_or (map domain_nets domains.now) domain []) net.now) }
{
    match domains.get(domain) {
        Some(domain) => is_named(&domain.power, net) || is_named(&domain.ground, net),
        None => false,
    }
}

fn is_named(one: &Name, other: &Name) -> bool
    ensures { result ≡ bytes_eq one.now other.now }
{
    one.bytes() == other.bytes()
}

// The place of the domain of a grid.
pub(crate) fn domain_of<'a>(tables: &Tables<'a>, script: &'a Script, grid: &'a Name) -> usize
    ensures { result ≡ domain_of (names_in tables.now) script.now grid.now }
{
    match script.grids.as_slice().get(place_in(&tables.grids, grid)) {
        Some(grid) => place_in(&tables.domains, &grid.voltage_domains),
        None => 0,
    }
}

#[tactic(auto, using(crate::proofs::Ordered::found_at, crate::proofs::Ordered::none_at))]
fn first_unknown_of<'a>(
    alloc: Global,
    names: &NamePlaces<'a>,
    stated: &'a [Name],
) -> Result<Option<Name>, AllocError>
    ensures { IfOk result (λ name. name ≡ first_some (unknown names.now) stated.now) }
{
    for name in stated {
        if let Some(name) = unknown(alloc, names, name)? {
            return Ok(Some(name));
        }
    }
    Ok(None)
}

fn unknown<'a>(
    alloc: Global,
    names: &NamePlaces<'a>,
    name: &'a Name,
) -> Result<Option<Name>, AllocError>
    ensures { IfOk result (λ answer. answer ≡ unknown names.now name.now) }
{
    match names.place(name.bytes()) {
        Some(_) => Ok(None),
        None => Ok(Some(Name::new(alloc, name.bytes())?)),
    }
}
