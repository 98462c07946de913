//! Stripes, rings and connects.
ghost use Rattle.std.specs.Prelude.{◌≡◌, ◌≤◌, ◌/◌, ◌++◌, [], ℕ, pos, false, not, IfOk, OnOk, AllPairs, map, filter, slice_index_or};
ghost use Rattle.std.specs.List.Sorted.{IsPermutation};
ghost use Rattle.pdn_script.specs.declared.record.GridRule.{GridRule};
ghost use Rattle.pdn_script.specs.declared.record.Start.TheVariants.{Ground};
ghost use Rattle.pdn_script.specs.declared.record.Stripe.{Stripe};
ghost use Rattle.via_arrays.specs.Choice.{direction};
ghost use Rattle.grid_plan.specs.Names.{place_in, domain_nets};
ghost use Rattle.std.specs.Ordering.{is_gt};
ghost use Rattle.grid_plan.specs.Order.{place_order};
ghost use Rattle.grid_plan.specs.Planning.{AreConnects, stated_in, added_in};
ghost use Rattle.grid_plan.specs.Resolved.{spacing_of, value_at, start_of, in_order, nets_at, reach_of, apart_of, strap_rule_of, straps_of, rails_of, layer_at, upright_of, ring_rule_of, ring_of, joins, connect_of};
ghost use Rattle.grid_plan.specs.declared.order.PlacedConnect.{PlacedConnect};
ghost use Rattle.grid_plan.specs.inside.Tables.{names_in};

use crate::order::PlacedConnect;
use crate::record::{Rails, Reach, RingAt, Straps};
use crate::resolve::domain_of;
use crate::tables::{Tables, place_in};
use crate::units::{length_of, number, plus, rounded_up};
use entry_list::Entries;
use geom_rect::Axis;
use grid_stacks::Connect as Joint;
use lef_tech::Tech;
use name_places::NamePlaces;
use outside::Name;
use pdn_script::{Connect, Domain, Ring, Script, Start, Stripe};
use ring_layout::RingRule;
use std::alloc::{AllocError, Global};
use strap_layout::StrapRule;

// In pm: the length of what no script leaves out.
const UNSTATED: u64 = 2_000_000;

pub(crate) fn straps<'a>(
    alloc: Global,
    tech: &Tech,
    tables: &Tables<'a>,
    nets: &NamePlaces<'a>,
    script: &'a Script,
    units: u32,
) -> Result<Vec<Straps>, AllocError>
    ensures { IfOk result (λ straps. straps.items ≡ map (straps_of tech.now (names_in tables.now) nets.now script.now units)
        (filter (λ (s : Stripe). not s.followpins) script.now.stripes)) }
{
    let mut straps = Vec::new(alloc);
    for stripe in script.stripes.as_slice() {
        if !stripe.followpins {
            straps.push(straps_of(alloc, tech, tables, nets, script, units, stripe)?)?;
        }
    }
    Ok(straps)
}

pub(crate) fn rails<'a>(
    alloc: Global,
    tech: &Tech,
    tables: &Tables<'a>,
    script: &'a Script,
    units: u32,
) -> Result<Vec<Rails>, AllocError>
    ensures { IfOk result (λ rails. rails.items ≡ map (rails_of tech.now (names_in tables.now) units)
        (filter (λ (s : Stripe). s.followpins) script.now.stripes)) }
{
    let mut rails = Vec::new(alloc);
    for stripe in script.stripes.as_slice() {
        if stripe.followpins {
            rails.push(rails_of(tech, tables, units, stripe)?)?;
        }
    }
    Ok(rails)
}

pub(crate) fn rings<'a>(
    alloc: Global,
    tech: &Tech,
    tables: &Tables<'a>,
    nets: &NamePlaces<'a>,
    script: &'a Script,
    units: u32,
) -> Result<Vec<RingAt>, AllocError>
    ensures { IfOk result (λ rings. rings.items ≡ map (ring_of tech.now (names_in tables.now) nets.now script.now units) script.now.rings) }
{
    let mut rings = Vec::new(alloc);
    for ring in script.rings.as_slice() {
        rings.push(ring_of(alloc, tech, tables, nets, script, units, ring)?)?;
    }
    Ok(rings)
}

fn straps_of<'a>(
    alloc: Global,
    tech: &Tech,
    tables: &Tables<'a>,
    nets: &NamePlaces<'a>,
    script: &'a Script,
    units: u32,
    stripe: &'a Stripe,
) -> Result<Straps, AllocError>
    ensures { IfOk result (λ straps. straps ≡ straps_of tech.now (names_in tables.now) nets.now script.now units stripe.now) }
{
    let layer = place_in(&tables.layers, &stripe.layer);
    Ok(Straps {
        grid: number(place_in(&tables.grids, &stripe.grid))?,
        reach: reach_of(stripe),
        spacing: spacing_of(tech, units, layer)?,
        rule: strap_rule_of(alloc, tech, tables, nets, script, units, stripe)?,
    })
}

fn strap_rule_of<'a>(
    alloc: Global,
    tech: &Tech,
    tables: &Tables<'a>,
    nets: &NamePlaces<'a>,
    script: &'a Script,
    units: u32,
    stripe: &'a Stripe,
) -> Result<StrapRule, AllocError>
    ensures { IfOk result (λ rule. rule ≡ strap_rule_of tech.now (names_in tables.now) nets.now script.now units stripe.now) }
{
    let layer = place_in(&tables.layers, &stripe.layer);
    let nets = nets_at(
        alloc,
        tables,
        nets,
        script,
        &stripe.grid,
        stripe.starts_with,
        &stripe.nets,
    )?;
    Ok(StrapRule {
        layer: number(layer)?,
        axis: direction(tech, layer),
        nets: Entries::new(nets),
        width: length_of(units, stripe.width)?,
        pitch: length_of(units, stripe.pitch.unwrap_or(UNSTATED))?,
        apart: apart_of(units, stripe)?,
        offset: length_of(units, stripe.offset)?,
        number: stripe.number_of_straps.map(|number| u64::from(number)),
    })
}

fn rails_of<'a>(
    tech: &Tech,
    tables: &Tables<'a>,
    units: u32,
    stripe: &'a Stripe,
) -> Result<Rails, AllocError>
    ensures { IfOk result (λ rails. rails ≡ rails_of tech.now (names_in tables.now) units stripe.now) }
{
    let layer = place_in(&tables.layers, &stripe.layer);
    Ok(Rails {
        grid: number(place_in(&tables.grids, &stripe.grid))?,
        reach: reach_of(stripe),
        spacing: spacing_of(tech, units, layer)?,
        layer: number(layer)?,
        width: length_of(units, stripe.width)?,
    })
}

fn reach_of(stripe: &Stripe) -> Reach
    ensures { result ≡ reach_of stripe.now }
{
    if stripe.extend_to_boundary {
        Reach::Die
    } else if stripe.extend_to_core_ring {
        Reach::Ring
    } else {
        Reach::Core
    }
}

fn apart_of(units: u32, stripe: &Stripe) -> Result<i64, AllocError>
    ensures { IfOk result (λ z. z ≡ apart_of units stripe.now stripe.now.spacing) }
{
    match stripe.spacing {
        Some(spacing) => { plus(length_of(units, stripe.width)?, length_of(units, spacing)?) }
        None => Ok(half_of(length_of(units, stripe.pitch.unwrap_or(UNSTATED))?)),
    }
}

fn half_of(length: i64) -> i64
    ensures { (n : ℕ) → length ≡ pos n → result ≡ pos (n / 2) }
{
    length / 2
}

fn ring_of<'a>(
    alloc: Global,
    tech: &Tech,
    tables: &Tables<'a>,
    nets: &NamePlaces<'a>,
    script: &'a Script,
    units: u32,
    ring: &'a Ring,
) -> Result<RingAt, AllocError>
    ensures { IfOk result (λ at. at ≡ ring_of tech.now (names_in tables.now) nets.now script.now units ring.now) }
{
    let upright = upright_of(tech, tables, ring);
    Ok(RingAt {
        grid: number(place_in(&tables.grids, &ring.grid))?,
        rule: ring_rule_of(alloc, tables, nets, script, units, ring, upright)?,
    })
}

fn ring_rule_of<'a>(
    alloc: Global,
    tables: &Tables<'a>,
    nets: &NamePlaces<'a>,
    script: &'a Script,
    units: u32,
    ring: &'a Ring,
    upright: usize,
) -> Result<RingRule, AllocError>
    requires { upright ≤ 1 }
    ensures { IfOk result (λ rule. rule ≡ ring_rule_of (names_in tables.now) nets.now script.now units ring.now upright) }
{
    let layers = ring.layers.as_slice();
    let widths = ring.widths.as_slice();
    let spacings = ring.spacings.as_slice();
    let offsets = ring.core_offsets.as_slice();
    let nets = nets_at(
        alloc,
        tables,
        nets,
        script,
        &ring.grid,
        ring.starts_with,
        &ring.nets,
    )?;
    Ok(RingRule {
        vertical: number(layer_at(tables, layers, upright))?,
        horizontal: number(layer_at(tables, layers, 1 - upright))?,
        nets: Entries::new(nets),
        width_v: length_of(units, value_at(widths, upright, UNSTATED))?,
        width_h: length_of(units, value_at(widths, 1 - upright, UNSTATED))?,
        spacing_v: length_of(units, value_at(spacings, upright, 0))?,
        spacing_h: length_of(units, value_at(spacings, 1 - upright, 0))?,
        left: length_of(units, value_at(offsets, 0, 0))?,
        bottom: length_of(units, value_at(offsets, 1, 0))?,
        right: length_of(units, value_at(offsets, 2, 0))?,
        top: length_of(units, value_at(offsets, 3, 0))?,
    })
}

fn upright_of<'a>(tech: &Tech, tables: &Tables<'a>, ring: &'a Ring) -> usize
    ensures upright { result ≡ upright_of tech.now (names_in tables.now) ring.now }
    ensures two { result ≤ 1 }
{
    match direction(tech, layer_at(tables, ring.layers.as_slice(), 0)) {
        Axis::Y => 0,
        Axis::X => 1,
    }
}

// The value at a place, where fewer values hold in turn.
fn value_at(values: &[u64], place: usize, default: u64) -> u64
    ensures { result ≡ value_at values.now place default }
{
    if values.is_empty() {
        return default;
    }
    values[place % values.len()]
}

// A layer that is named by two, by its place.
pub(crate) fn layer_at<'a>(tables: &Tables<'a>, layers: &'a [Name], k: usize) -> usize
    ensures { result ≡ layer_at (names_in tables.now) layers.now k }
{
    match layers.get(k) {
        Some(layer) => place_in(&tables.layers, layer),
        None => 0,
    }
}

// Along which axis the wires of a routing layer go.
pub(crate) fn direction(tech: &Tech, layer: usize) -> Axis
    ensures { result ≡ direction tech.now layer }
{
    match tech.routing.as_slice().get(layer) {
        Some(layer) => layer.direction,
        None => Axis::X,
    }
}

// How far metal of a routing layer keeps from metal, in units, rounded up.
pub(crate) fn spacing_of(tech: &Tech, units: u32, layer: usize) -> Result<i64, AllocError>
    ensures { IfOk result (λ z. z ≡ spacing_of tech.now units layer) }
{
    match tech.routing.as_slice().get(layer) {
        Some(layer) => rounded_up(units, layer.spacing),
        None => Ok(0),
    }
}

// The nets that are stated, or else those of the domain, in their order.
fn nets_at<'a>(
    alloc: Global,
    tables: &Tables<'a>,
    nets: &NamePlaces<'a>,
    script: &'a Script,
    grid: &'a Name,
    own: Option<Start>,
    stated: &'a Option<Entries<Name>>,
) -> Result<Vec<u32>, AllocError>
    ensures { IfOk result (λ places. places.items ≡ nets_at (names_in tables.now) nets.now script.now grid.now own stated.now) }
{
    match stated {
        Some(stated) => places_of(alloc, nets, stated.as_slice()),
        None => {
            let domain = domain_of(tables, script, grid);
            let start = start_of(tables, script, grid, own);
            two_nets(alloc, nets, script, domain, start)
        }
    }
}

fn places_of<'a>(
    alloc: Global,
    nets: &NamePlaces<'a>,
    stated: &'a [Name],
) -> Result<Vec<u32>, AllocError>
    ensures { IfOk result (λ places. places.items ≡ map (place_in nets.now) stated.now) }
{
    let mut places = Vec::new(alloc);
    for net in stated {
        places.push(number(place_in(nets, net))?)?;
    }
    Ok(places)
}

// The two nets of the domain at a place, in their order.
fn two_nets<'a>(
    alloc: Global,
    nets: &NamePlaces<'a>,
    script: &'a Script,
    domain: usize,
    start: Start,
) -> Result<Vec<u32>, AllocError>
    ensures { IfOk result (λ places. places.items
        ≡ map (place_in nets.now) (in_order start (slice_index_or (map domain_nets script.now.domains) domain []))) }
{
    match script.domains.as_slice().get(domain) {
        Some(domain) => in_order(alloc, nets, domain, start),
        None => Ok(Vec::new(alloc)),
    }
}

fn in_order<'a>(
    alloc: Global,
    nets: &NamePlaces<'a>,
    domain: &'a Domain,
    start: Start,
) -> Result<Vec<u32>, AllocError>
    ensures { IfOk result (λ places. places.items ≡ map (place_in nets.now) (in_order start (domain_nets domain.now))) }
{
    let power = number(place_in(nets, &domain.power))?;
    let ground = number(place_in(nets, &domain.ground))?;
    let (first, second) = match start {
        Start::Power => (power, ground),
        Start::Ground => (ground, power),
    };
    let mut places = Vec::new(alloc);
    places.push(first)?;
    places.push(second)?;
    Ok(places)
}

// The net that comes first: the own choice, or else that of the grid.
fn start_of<'a>(
    tables: &Tables<'a>,
    script: &'a Script,
    grid: &'a Name,
    own: Option<Start>,
) -> Start
    ensures { result ≡ start_of (names_in tables.now) script.now grid.now own }
{
    match own {
        Some(own) => own,
        None => grid_start(script, place_in(&tables.grids, grid)),
    }
}

fn grid_start(script: &Script, grid: usize) -> Start
    ensures { result ≡ slice_index_or (map (λ (g : GridRule). g.starts_with) script.now.grids) grid Ground }
{
    match script.grids.as_slice().get(grid) {
        Some(grid) => grid.starts_with,
        None => Start::Ground,
    }
}

// The connects of a script, those that rings add among them, in the order of their commands.
#[tactic(auto, using(crate::proofs::Stepped::are_connects))]
pub(crate) fn connects<'a>(
    alloc: Global,
    tables: &Tables<'a>,
    script: &'a Script,
) -> Result<Vec<Joint>, AllocError>
    ensures { IfOk result (λ connects. AreConnects (names_in tables.now) script.now connects.items) }
{
    let mut placed = Vec::new(alloc);
    add_stated(&mut placed, tables, script.connects.as_slice())?;
    add_of_rings(&mut placed, tables, script.rings.as_slice())?;
    sort(&mut placed);
    unplaced_of(alloc, &placed)
}

// The connects without their places.
fn unplaced_of(alloc: Global, placed: &[PlacedConnect]) -> Result<Vec<Joint>, AllocError>
    ensures { IfOk result (λ connects. connects.items ≡ map (λ (c : PlacedConnect). c.connect) placed.now) }
{
    placed.iter().map(|placed| placed.connect).collect(alloc)
}

fn add_stated<'a>(
    placed: &mut Vec<PlacedConnect>,
    tables: &Tables<'a>,
    connects: &'a [Connect],
) -> Result<(), AllocError>
    ensures { OnOk result (placed.new.items ≡ placed.old.items ++ stated_in (names_in tables.now) connects.now) }
{
    for connect in connects {
        placed.push(PlacedConnect {
            place: connect.place,
            connect: connect_of(tables, connect)?,
        })?;
    }
    Ok(())
}

fn add_of_rings<'a>(
    placed: &mut Vec<PlacedConnect>,
    tables: &Tables<'a>,
    rings: &'a [Ring],
) -> Result<(), AllocError>
    ensures { OnOk result (placed.new.items ≡ placed.old.items ++ added_in (names_in tables.now) rings.now) }
{
    for ring in rings {
        if ring.add_connect {
            placed.push(PlacedConnect {
                place: ring.place,
                connect: joins(tables, ring.layers.as_slice(), None, None)?,
            })?;
        }
    }
    Ok(())
}

fn sort(placed: &mut [PlacedConnect])
    ensures same { IsPermutation placed.old placed.new }
    ensures in_order { AllPairs (λ (a b : PlacedConnect). is_gt (place_order a.place b.place) ≡ false) placed.new }
{
    placed.sort_unstable_by_key(|placed| (placed.place.line, placed.place.word));
}

fn connect_of<'a>(tables: &Tables<'a>, connect: &'a Connect) -> Result<Joint, AllocError>
    ensures { IfOk result (λ at. at ≡ connect_of (names_in tables.now) connect.now) }
{
    joins(
        tables,
        connect.layers.as_slice(),
        connect.max_columns,
        connect.max_rows,
    )
}

// A connect of two layers, the lower one first.
fn joins<'a>(
    tables: &Tables<'a>,
    layers: &'a [Name],
    max_columns: Option<u32>,
    max_rows: Option<u32>,
) -> Result<Joint, AllocError>
    ensures { IfOk result (λ at. at ≡ joins (layer_at (names_in tables.now) layers.now 0) (layer_at (names_in tables.now) layers.now 1) max_columns max_rows) }
{
    let one = number(layer_at(tables, layers, 0))?;
    let other = number(layer_at(tables, layers, 1))?;
    Ok(Joint {
        from: one.min(other),
        to: one.max(other),
        max_columns,
        max_rows,
    })
}
