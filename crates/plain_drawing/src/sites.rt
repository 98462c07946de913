//! The sites of stacks.
ghost use Rattle.std.specs.Prelude.{◌≡◌, ◌↔◌, ◌<◌, false, All, AllPairs, Contains, IsTrue, IfOk, OnOk, length};
ghost use Rattle.std.specs.List.Sorted.{IsPermutation};
ghost use Rattle.std.specs.Ordering.{is_gt};
ghost use Rattle.grid_pieces.specs.Limits.{PieceKeeps};
ghost use Rattle.grid_stacks.specs.Crossing.{IsUsed, Stands};
ghost use Rattle.grid_stacks.specs.Stacking.{AreSites, site_order};
ghost use Rattle.grid_stacks.specs.declared.connect.Site.{Site};
ghost use Rattle.plain_drawing.specs.inside.Adding.{Adds};
ghost use Rattle.plain_drawing.specs.inside.Sites.{NoneEarlier, SameLayers, StandsAt, StandsOn, StandsBy};

use crate::adding::add_site;
use crate::crossing::{crossing_of, is_crossing, site_of};
use crate::layers::is_obstructed;
use grid_pieces::{Block, Piece};
use grid_stacks::{Connect, Site};
use lef_tech::Tech;
use std::alloc::{AllocError, Global};

/// The sites at which stacks stand, by all pairs of pieces for each connect: those at which `stacks` of `grid_stacks` has
/// them, in the order of net, x, y, lowest layer, highest layer and crossing.
pub fn sites_by_pairs(
    alloc: Global,
    tech: &Tech,
    pieces: &[Piece],
    connects: &[Connect],
    blocks: &[Block],
) -> Result<Vec<Site>, AllocError>
    requires { All PieceKeeps pieces.now }
    ensures { IfOk result (λ sites. AreSites (Stands tech.now pieces.now connects.now blocks.now) sites.items) }
{
    let mut sites = Vec::new(alloc);
    for place in 0..connects.len() {
        if is_used(connects, place) {
            add_by(tech, pieces, connects, blocks, connects[place], &mut sites)?;
        }
    }
    sort(&mut sites);
    Ok(sites)
}

// Whether no earlier connect has the same layers.
fn is_used(connects: &[Connect], place: usize) -> bool
    requires { place < length connects.now }
    ensures { IsTrue result ↔ NoneEarlier connects.now place }
{
    for earlier in 0..place {
        if same_layers(connects[earlier], connects[place]) {
            return false;
        }
    }
    true
}

fn same_layers(a: Connect, b: Connect) -> bool
    ensures { IsTrue result ↔ SameLayers a b }
{
    a.from == b.from && a.to == b.to
}

// Adds the sites of a connect.
fn add_by(
    tech: &Tech,
    pieces: &[Piece],
    connects: &[Connect],
    blocks: &[Block],
    connect: Connect,
    sites: &mut Vec<Site>,
) -> Result<(), AllocError>
    requires keep { All PieceKeeps pieces.now }
    requires used { IsUsed connects.now connect }
    ensures { OnOk result (Adds (Stands tech.now pieces.now connects.now blocks.now)
        (StandsBy tech.now pieces.now blocks.now connect) sites.old.items sites.new.items) }
{
    for flat in pieces {
        add_on(tech, pieces, connects, blocks, connect, *flat, sites)?;
    }
    Ok(())
}

// Adds those on a piece.
fn add_on(
    tech: &Tech,
    pieces: &[Piece],
    connects: &[Connect],
    blocks: &[Block],
    connect: Connect,
    flat: Piece,
    sites: &mut Vec<Site>,
) -> Result<(), AllocError>
    requires keep { All PieceKeeps pieces.now }
    requires used { IsUsed connects.now connect }
    requires flat { Contains pieces.now flat }
    ensures { OnOk result (Adds (Stands tech.now pieces.now connects.now blocks.now)
        (StandsOn tech.now pieces.now blocks.now connect flat) sites.old.items sites.new.items) }
{
    for upright in pieces {
        if stands_at(tech, blocks, connect, &flat, upright) {
            add_site(sites, site_of(connect, &flat, upright))?;
        }
    }
    Ok(())
}

// Whether a stack stands where the two cross.
fn stands_at(tech: &Tech, blocks: &[Block], connect: Connect, flat: &Piece, upright: &Piece) -> bool
    requires flat { PieceKeeps flat.now }
    requires upright { PieceKeeps upright.now }
    ensures { IsTrue result ↔ StandsAt tech.now blocks.now connect flat.now upright.now }
{
    is_crossing(connect, flat, upright)
        && !is_obstructed(tech, connect, blocks, crossing_of(flat, upright))
}

fn sort(sites: &mut [Site])
    ensures same { IsPermutation sites.old sites.new }
    ensures in_order { AllPairs (λ (a b : Site). is_gt (site_order a b) ≡ false) sites.new }
{
    sites.sort_unstable_by_key(|site| (
        (site.net, site.x, site.y, site.from, site.to),
        (
            site.crossing.x1,
            site.crossing.y1,
            site.crossing.x2,
            site.crossing.y2,
        ),
    ));
}
