ghost use Rattle.std.specs.Prelude.{◌≡◌, ◌≤◌, ◌<◌, All, IfOk, MatchResult, length};
ghost use Rattle.lef_tech.specs.Limits.{TechKeeps};
ghost use Rattle.wire_limits.specs.Limits.{LayersFit, SizesFit};
ghost use Rattle.wire_names.specs.Keeping.{NamedKeep};
ghost use Rattle.wire_stacks.specs.Stacks.{AreStacks, AreOff, StackStands};

use crate::ends::check_ends;
use crate::error::OffError;
use crate::made::{all_made, alone, in_order};
use crate::placed::placed;
use grid_pieces::{Piece, StackAt};
use lef_tech::Tech;
use std::alloc::Global;
use wire_chains::chains;
use wire_names::NamedWires;
use wire_pieces::CentreLines;

/// The stacks of vias that are placed: one for each maximal chain of vias of one net at one place, each beginning on the
/// layer on which the one before ends, with no piece of that net and layer between the two. They stand in the order of net,
/// x, y, lowest layer, highest layer and crossing, and where those are alike in the order of their vias in the text.
///
/// Errors: the first stack with an end that lies on no piece, the lower end before the upper one; want of memory.
pub fn wired_stacks(
    alloc: Global,
    tech: &Tech,
    named: &NamedWires,
    pieces: &[Piece],
) -> Result<Vec<StackAt>, OffError>
    requires tech { TechKeeps tech.now }
    requires named { NamedKeep tech.now named.now }
    requires layers { LayersFit tech.now named.now }
    requires sizes { SizesFit named.now }
    ensures stacks { MatchResult result (λ stacks. AreStacks tech.now named.now.vias named.now.spots pieces.now stacks.items)
        (AreOff tech.now named.now.vias named.now.spots pieces.now) }
    ensures stand { IfOk result (λ stacks. All (StackStands tech.now) stacks.items) }
{
    let vias = named.vias.as_slice();
    let lines = CentreLines::new(alloc, pieces)?;
    let placed = placed(alloc, vias, named.spots.as_slice(), &lines)?;
    let chains = chains(alloc, placed)?;
    let made = in_order(all_made(alloc, tech, vias, &chains)?);
    check_ends(&made, &lines)?;
    let stacks = alone(alloc, made)?;
    Ok(stacks)
}
