ghost use Rattle.std.specs.Prelude.{◌≡◌, ◌<◌, All, AllPairs, MatchResult, MatchOption, length, false};
ghost use Rattle.std.specs.List.Sorted.{IsPermutation};
ghost use Rattle.std.specs.Ordering.{is_gt};
ghost use Rattle.grid_stacks.specs.declared.connect.Site.{Site};
ghost use Rattle.lef_tech.specs.Limits.{TechKeeps};
ghost use Rattle.via_arrays.specs.Lengths.{IsUnits};
ghost use Rattle.grid_pieces.specs.Limits.{PieceKeeps};
ghost use Rattle.grid_stacks.specs.Crossing.{Stands};
ghost use Rattle.grid_stacks.specs.Stacking.{ConnectKeeps, AreAlong, IsEven, LieApart, AreStacks, AreRefused, HasLayer, HasSheet, IsFirstWithout, sheet_of, site_order, SiteKeeps, IsStackAt, AreStacksAt, IsOneRefused, IsSiteRefused};

use crate::connect::{Connect, Site};
use crate::crossed::MOST_STACKS;
use crate::places::standing;
use grid_pieces::{Block, Counted, DrawError, Piece, StackAt};
use lef_tech::Tech;
use std::alloc::{AllocError, Global};
use via_arrays::{StackError, stack};

/// How many pieces a grid may have.
pub const MOST_PIECES: usize = 4_000_000;

/// The stacks of the pieces: one at each crossing of two pieces of one net on the layers of a connect that no blockage
/// of a layer strictly between overlaps, in the order of net, x, y, lowest layer, highest layer and crossing. Of two
/// connects of the same layers the first is used.
pub fn stacks(
    alloc: Global,
    tech: &Tech,
    pieces: &[Piece],
    connects: &[Connect],
    blocks: &[Block],
    units: u32,
) -> Result<Vec<StackAt>, DrawError>
    requires tech { TechKeeps tech.now }
    requires units { IsUnits units }
    requires connects { All (ConnectKeeps tech.now) connects.now }
    requires pieces { All PieceKeeps pieces.now }
    requires layers { All (HasLayer tech.now) pieces.now }
    requires even { All IsEven pieces.now }
    requires along { AreAlong tech.now connects.now pieces.now }
    requires apart { AllPairs LieApart pieces.now }
    ensures { MatchResult result
        (λ stacks. AreStacks (Stands tech.now pieces.now connects.now blocks.now) tech.now units pieces.now
        stacks.items)
        (AreRefused (Stands tech.now pieces.now connects.now blocks.now) tech.now units pieces.now) }
{
    if pieces.len() > MOST_PIECES {
        return Err(DrawError::TooMany(Counted::Pieces));
    }
    let mut sites = standing(alloc, tech, pieces, connects, blocks)?;
    if sites.len() > MOST_STACKS {
        return Err(DrawError::TooMany(Counted::Stacks));
    }
    sort(&mut sites);
    if let Some(layer) = without_sheet(tech, pieces) {
        return Err(DrawError::NoSheet(layer));
    }
    stacks_at(alloc, tech, &sites, units)
}

/// The layer of the first piece whose layer has no resistance of a square.
pub fn without_sheet(tech: &Tech, pieces: &[Piece]) -> Option<u32>
    requires { All (HasLayer tech.now) pieces.now }
    ensures { MatchOption result (All (HasSheet tech.now) pieces.now) (IsFirstWithout tech.now pieces.now) }
{
    for piece in pieces {
        if sheet_of(tech, piece.layer).is_none() {
            return Some(piece.layer);
        }
    }
    None
}

fn sheet_of(tech: &Tech, layer: u32) -> Option<u64>
    requires { layer < length tech.now.routing }
    ensures { result ≡ sheet_of tech.now layer }
{
    tech.routing.as_slice()[layer as usize].sheet
}

fn sort(sites: &mut [Site])
    ensures same { IsPermutation sites.old sites.new }
    ensures in_order { AllPairs (λ (a b : Site). is_gt (site_order a b) ≡ false) sites.new }
{
    sites.sort_unstable_by_key(|site| (
        (site.net, site.x, site.y, site.from, site.to),
        (
            site.crossing.x1,
            site.crossing.y1,
            site.crossing.x2,
            site.crossing.y2,
        ),
    ));
}

/// The stack of each place, in their order.
///
/// Errors: the first place that has no stack; want of memory.
pub fn stacks_at(
    alloc: Global,
    tech: &Tech,
    sites: &[Site],
    units: u32,
) -> Result<Vec<StackAt>, DrawError>
    requires tech { TechKeeps tech.now }
    requires units { IsUnits units }
    requires sites { All (SiteKeeps tech.now) sites.now }
    ensures { MatchResult result (λ stacks. AreStacksAt tech.now units sites.now stacks.items)
        (IsSiteRefused tech.now units sites.now) }
{
    let mut stacks = Vec::new(alloc);
    for site in sites {
        stacks.push(stack_at(alloc, tech, site, units)?)?;
    }
    Ok(stacks)
}

fn stack_at(alloc: Global, tech: &Tech, site: &Site, units: u32) -> Result<StackAt, DrawError>
    requires tech { TechKeeps tech.now }
    requires units { IsUnits units }
    requires site { SiteKeeps tech.now site.now }
    ensures { MatchResult result (IsStackAt tech.now units site.now) (IsOneRefused tech.now units site.now) }
{
    let made = stack(
        alloc,
        tech,
        site.from,
        site.to,
        site.crossing,
        units,
        site.max_columns,
        site.max_rows,
    );
    match made {
        Ok(stack) => Ok(StackAt {
            net: site.net,
            x: site.x,
            y: site.y,
            crossing: site.crossing,
            stack,
        }),
        Err(StackError::Want) => Err(DrawError::Want),
        Err(error) => Err(DrawError::Stack(error, site.x, site.y)),
    }
}
