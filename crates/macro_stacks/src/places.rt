//! The places of the stacks of both lists.
ghost use Rattle.std.specs.Prelude.{◌≡◌, ◌↔◌, ◌++◌, true, All, AllPairs, Contains, MatchResult};
ghost use Rattle.std.specs.Ordering.{is_lt};
ghost use Rattle.std.specs.declared.cmp.Ordering.TheVariants.{Equal};
ghost use Rattle.grid_stacks.specs.declared.connect.Site.{Site};
ghost use Rattle.grid_stacks.specs.Crossing.{Stands};
ghost use Rattle.grid_stacks.specs.Stacking.{ConnectKeeps, LieApart, site_order};
ghost use Rattle.macro_stacks.specs.inside.Mixed.{mixed};
ghost use Rattle.macro_stacks.specs.inside.Places.{PiecesKeep, AreAll, AreInOrder, AreTooMany, Grows};

use crate::mixed::mix;
use grid_pieces::{Block, Counted, DrawError, Piece};
use grid_stacks::{Connect, MOST_STACKS, Site, one_site_at_a_place, standing};
use lef_tech::Tech;
use std::alloc::Global;

// The places at which stacks of the pieces of both lists stand, in order.
//
// Errors: more than 10^6; want of memory.
pub(crate) fn places(
    alloc: Global,
    tech: &Tech,
    one: &[Piece],
    other: &[Piece],
    connects: &[Connect],
    blocks: &[Block],
) -> Result<Vec<Site>, DrawError>
    requires connects { All (ConnectKeeps tech.now) connects.now }
    requires keep { PiecesKeep tech.now connects.now (one.now ++ other.now) }
    requires apart { AllPairs LieApart one.now }
    requires apart_too { AllPairs LieApart other.now }
    ensures { MatchResult result
        (λ sites. AreInOrder (Stands tech.now (one.now ++ other.now) connects.now blocks.now) sites.items)
        (AreTooMany (Stands tech.now (one.now ++ other.now) connects.now blocks.now)) }
{
    let mut sites = all_places(alloc, tech, one, other, connects, blocks)?;
    one_site_at_a_place();
    put_in_order(&mut sites);
    if sites.len() > MOST_STACKS {
        return Err(DrawError::TooMany(Counted::Stacks));
    }
    Ok(sites)
}

// The places in no order, some of them twice: those of each list, and those of horizontal pieces of one with vertical
// ones of the other.
fn all_places(
    alloc: Global,
    tech: &Tech,
    one: &[Piece],
    other: &[Piece],
    connects: &[Connect],
    blocks: &[Block],
) -> Result<Vec<Site>, DrawError>
    requires connects { All (ConnectKeeps tech.now) connects.now }
    requires keep { PiecesKeep tech.now connects.now (one.now ++ other.now) }
    requires apart { AllPairs LieApart one.now }
    requires apart_too { AllPairs LieApart other.now }
    ensures { MatchResult result
        (λ sites. AreAll (Stands tech.now (one.now ++ other.now) connects.now blocks.now) sites.items)
        (AreTooMany (Stands tech.now (one.now ++ other.now) connects.now blocks.now)) }
{
    let mut sites = Vec::new(alloc);
    add_places(alloc, tech, one, connects, blocks, &mut sites)?;
    add_places(alloc, tech, other, connects, blocks, &mut sites)?;
    add_mixed(alloc, tech, one, other, connects, blocks, &mut sites)?;
    add_mixed(alloc, tech, other, one, connects, blocks, &mut sites)?;
    Ok(sites)
}

// Adds the places of the horizontal pieces of the first list with the vertical ones of the second.
fn add_mixed(
    alloc: Global,
    tech: &Tech,
    flat: &[Piece],
    upright: &[Piece],
    connects: &[Connect],
    blocks: &[Block],
    sites: &mut Vec<Site>,
) -> Result<(), DrawError>
    requires connects { All (ConnectKeeps tech.now) connects.now }
    requires keep { PiecesKeep tech.now connects.now (mixed flat.now upright.now) }
    requires apart { AllPairs LieApart flat.now }
    requires apart_too { AllPairs LieApart upright.now }
    ensures { MatchResult result
        (λ _. Grows (Stands tech.now (mixed flat.now upright.now) connects.now blocks.now) sites.old.items
        sites.new.items)
        (AreTooMany (Stands tech.now (mixed flat.now upright.now) connects.now blocks.now)) }
{
    let pieces = mix(alloc, flat, upright)?;
    add_places(alloc, tech, &pieces, connects, blocks, sites)
}

// Adds the places of a list whose pieces of one line lie apart.
fn add_places(
    alloc: Global,
    tech: &Tech,
    pieces: &[Piece],
    connects: &[Connect],
    blocks: &[Block],
    sites: &mut Vec<Site>,
) -> Result<(), DrawError>
    requires connects { All (ConnectKeeps tech.now) connects.now }
    requires keep { PiecesKeep tech.now connects.now pieces.now }
    requires apart { AllPairs LieApart pieces.now }
    ensures { MatchResult result
        (λ _. Grows (Stands tech.now pieces.now connects.now blocks.now) sites.old.items sites.new.items)
        (AreTooMany (Stands tech.now pieces.now connects.now blocks.now)) }
{
    let more = standing(alloc, tech, pieces, connects, blocks)?;
    if more.len() > MOST_STACKS {
        return Err(DrawError::TooMany(Counted::Stacks));
    }
    sites.extend_from_slice(&more)?;
    Ok(())
}

// In order, and each once.
fn put_in_order(sites: &mut Vec<Site>)
    requires { (a b : Site) → Contains sites.old.items a → Contains sites.old.items b → site_order a b ≡ Equal
        → a ≡ b }
    ensures same { (s : Site) → Contains sites.new.items s ↔ Contains sites.old.items s }
    ensures in_order { AllPairs (λ (a b : Site). is_lt (site_order a b) ≡ true) sites.new.items }
{
    sites.sort_unstable_by_key(|site| (
        (site.net, site.x, site.y, site.from, site.to),
        (
            site.crossing.x1,
            site.crossing.y1,
            site.crossing.x2,
            site.crossing.y2,
        ),
    ));
    sites.dedup();
}
