//! Stacks over two lists of pieces.
ghost use Rattle.std.specs.Prelude.{◌++◌, All, AllPairs, MatchResult};
ghost use Rattle.std.specs.List.Sorted.{IsPermutation};
ghost use Rattle.lef_tech.specs.Limits.{TechKeeps};
ghost use Rattle.via_arrays.specs.Lengths.{IsUnits};
ghost use Rattle.grid_pieces.specs.Limits.{PieceKeeps};
ghost use Rattle.grid_stacks.specs.Crossing.{Stands};
ghost use Rattle.grid_stacks.specs.Stacking.{ConnectKeeps, AreAlong, IsEven, LieApart, AreStacks, AreRefused, HasLayer};

use crate::places::places;
use grid_pieces::{Block, Counted, DrawError, Piece, StackAt};
use grid_stacks::{Connect, MOST_PIECES, stacks_at, stacks_can_be_asked_for, without_sheet};
use lef_tech::Tech;
use std::alloc::Global;

/// The stacks of pieces that come in two lists, `one` and `other`: where pieces of one line of one list lie apart, and pieces of
/// both lists may lie over each other. One stands at each crossing of two pieces of one net on the layers of a connect that no
/// blockage of a layer strictly between overlaps, whichever lists the two are of, in the order of net, x, y, lowest layer, highest
/// layer and crossing. Of two connects of the same layers the first is used. `pieces` has the pieces of both lists, in their order.
///
/// Errors: more than 4·10^6 pieces, more than 10^6 stacks, the first piece whose layer has no resistance of a square, the first
/// crossing that has no stack, in this order; want of memory.
pub fn stacks_of_both(
    alloc: Global,
    tech: &Tech,
    pieces: &[Piece],
    one: &[Piece],
    other: &[Piece],
    connects: &[Connect],
    blocks: &[Block],
    units: u32,
) -> Result<Vec<StackAt>, DrawError>
    requires tech { TechKeeps tech.now }
    requires units { IsUnits units }
    requires connects { All (ConnectKeeps tech.now) connects.now }
    requires keep { All PieceKeeps pieces.now }
    requires layers { All (HasLayer tech.now) pieces.now }
    requires even { All IsEven pieces.now }
    requires along { AreAlong tech.now connects.now pieces.now }
    requires both { IsPermutation (one.now ++ other.now) pieces.now }
    requires apart { AllPairs LieApart one.now }
    requires apart_too { AllPairs LieApart other.now }
    ensures { MatchResult result
        (λ stacks. AreStacks (Stands tech.now pieces.now connects.now blocks.now) tech.now units pieces.now stacks.items)
        (AreRefused (Stands tech.now pieces.now connects.now blocks.now) tech.now units pieces.now) }
{
    if pieces.len() > MOST_PIECES {
        return Err(DrawError::TooMany(Counted::Pieces));
    }
    let sites = places(alloc, tech, one, other, connects, blocks)?;
    if let Some(layer) = without_sheet(tech, pieces) {
        return Err(DrawError::NoSheet(layer));
    }
    stacks_can_be_asked_for();
    stacks_at(alloc, tech, &sites, units)
}
