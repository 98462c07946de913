ghost use Rattle.std.specs.Prelude.{◌≡◌, ◌⊎◌, ◌↔◌, IsTrue, All, AllPairs, Contains, IfOk, OnOk, length};
ghost use Rattle.geom_rect.specs.declared.direction.Axis.TheVariants.{X, Y};
ghost use Rattle.grid_stacks.specs.declared.connect.Site.{Site};
ghost use Rattle.grid_pieces.specs.Limits.{PieceKeeps};
ghost use Rattle.grid_pieces.specs.Piece.{Among};
ghost use Rattle.grid_stacks.specs.Crossing.{Stands};
ghost use Rattle.grid_stacks.specs.Stacking.{ConnectKeeps, AreAlong, IsEven, LieApart, AreMany, AreDifferent, AreStanding};
ghost use Rattle.grid_stacks.specs.inside.Bar.{AreBarsOf, AreByLow, AreByNet};
ghost use Rattle.grid_stacks.specs.inside.Standing.{StandsBy, SitesAdded, HasLayers, AreUsedTo, GoAlong};

use crate::bar::{Bar, bars, sort_by_low, sort_by_net, starts};
use crate::between::inner_of;
use crate::connect::{Connect, Site};
use crate::crossed::{MOST_STACKS, cross_all};
use geom_rect::Axis;
use grid_pieces::{Block, Piece};
use lef_tech::Tech;
use std::alloc::{AllocError, Global};

/// The places at which stacks of the pieces stand, each once, in no order: one at each crossing of two pieces of one net
/// on the layers of a connect that no blockage of a layer strictly between overlaps. Of two connects of the same layers the
/// first is used. Where there are more than 10^6, more than 10^6 of them.
///
/// Error: want of memory.
pub fn standing(
    alloc: Global,
    tech: &Tech,
    pieces: &[Piece],
    connects: &[Connect],
    blocks: &[Block],
) -> Result<Vec<Site>, AllocError>
    requires connects { All (ConnectKeeps tech.now) connects.now }
    requires keep { All PieceKeeps pieces.now }
    requires even { All IsEven pieces.now }
    requires along { AreAlong tech.now connects.now pieces.now }
    requires apart { AllPairs LieApart pieces.now }
    ensures { IfOk result (λ sites. AreStanding (Stands tech.now pieces.now connects.now blocks.now) sites.items) }
{
    let used = used(alloc, connects)?;
    let mut sites = Vec::new(alloc);
    for connect in &used {
        add_sites(alloc, tech, pieces, connect, blocks, &mut sites)?;
        if sites.len() > MOST_STACKS {
            return Ok(sites);
        }
    }
    Ok(sites)
}

// Of connects of the same layers the first.
fn used(alloc: Global, connects: &[Connect]) -> Result<Vec<Connect>, AllocError>
    ensures { IfOk result (λ used. AreUsedTo connects.now (length connects.now) used.items) }
{
    let mut used = Vec::new(alloc);
    for connect in connects {
        if !is_joined(&used, *connect) {
            used.push(*connect)?;
        }
    }
    Ok(used)
}

// Whether one of the connects has the layers of this one.
fn is_joined(used: &[Connect], connect: Connect) -> bool
    ensures { IsTrue result ↔ Among (HasLayers connect) used.now }
{
    used.iter().any(|other| other.from == connect.from && other.to == connect.to)
}

// Adds the sites of one connect.
fn add_sites(
    alloc: Global,
    tech: &Tech,
    pieces: &[Piece],
    connect: &Connect,
    blocks: &[Block],
    sites: &mut Vec<Site>,
) -> Result<(), AllocError>
    requires connect { ConnectKeeps tech.now connect.now }
    requires keep { All PieceKeeps pieces.now }
    requires even { All IsEven pieces.now }
    requires along { GoAlong tech.now connect.now pieces.now }
    requires apart { AllPairs LieApart pieces.now }
    requires differ { AreDifferent sites.old.items }
    requires others { All (λ (s : Site). s.from ≡ connect.now.from → s.to ≡ connect.now.to → ⊥) sites.old.items }
    ensures added { OnOk result
        (SitesAdded (StandsBy tech.now pieces.now blocks.now connect.now) sites.old.items sites.new.items) }
    ensures every { OnOk result (AreMany sites.new.items
        ⊎ ((s : Site) → StandsBy tech.now pieces.now blocks.now connect.now s → Contains sites.new.items s)) }
{
    let flats = flat_bars(alloc, pieces, connect)?;
    let uprights = upright_bars(alloc, pieces, connect)?;
    let starts = starts(alloc, &uprights)?;
    let inner = inner_of(alloc, tech, connect, blocks)?;
    cross_all(alloc, connect, &flats, &uprights, &starts, &inner, sites)
}

// The horizontal bars of a connect, rising.
fn flat_bars(alloc: Global, pieces: &[Piece], connect: &Connect) -> Result<Vec<Bar>, AllocError>
    requires keep { All PieceKeeps pieces.now }
    requires even { All IsEven pieces.now }
    requires apart { AllPairs LieApart pieces.now }
    ensures are { IfOk result (λ bars. AreBarsOf connect.now X pieces.now bars.items) }
    ensures in_order { IfOk result (λ bars. AreByLow bars.items) }
{
    let mut flats = bars(alloc, pieces, connect, Axis::X)?;
    sort_by_low(&mut flats);
    Ok(flats)
}

// The vertical bars of a connect, by net and from left to right.
fn upright_bars(alloc: Global, pieces: &[Piece], connect: &Connect) -> Result<Vec<Bar>, AllocError>
    requires keep { All PieceKeeps pieces.now }
    requires even { All IsEven pieces.now }
    requires apart { AllPairs LieApart pieces.now }
    ensures are { IfOk result (λ bars. AreBarsOf connect.now Y pieces.now bars.items) }
    ensures in_order { IfOk result (λ bars. AreByNet bars.items) }
{
    let mut uprights = bars(alloc, pieces, connect, Axis::Y)?;
    sort_by_net(&mut uprights);
    Ok(uprights)
}
