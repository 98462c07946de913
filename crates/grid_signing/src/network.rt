//! The network of a grid is extracted.
ghost use Rattle.std.specs.Prelude.{◌≡◌, ◌⊎◌, IfOk, IfErr};
ghost use Rattle.answers.specs.declared.answer.Answer.TheVariants.{Want, NoGrid};
ghost use Rattle.grid_extract.specs.Extraction.{GridKeeps};
ghost use Rattle.refusal_words.specs.Words.{extract_words};
ghost use Rattle.grid_signing.specs.Basis.{base_of, BaseKeeps};
ghost use Rattle.grid_signing.specs.Signing.{IsNetworkOver};
ghost use Rattle.grid_signing.specs.Refusal.{net_answer, extract_answer, IsUnextracted};

use crate::basis::Basis;
use answers::Answer;
use def_design::Design;
use entry_list::Entries;
use grid_extract::extract;
use grid_net::NetError;
use grid_network::{ExtractError, Extracted};
use grid_pieces::Grid;
use refusal_words::extract_words;
use std::alloc::Global;

/// The network of the grid.
///
/// Error: the answer to a grid that has none, or to want of memory.
pub(crate) fn network_of(alloc: Global, basis: &Basis, grid: &Grid) -> Result<Extracted, Answer>
    requires keep { BaseKeeps (base_of basis.now) }
    requires grid { GridKeeps grid.now basis.now.tech.now }
    ensures network { IfOk result (IsNetworkOver (base_of basis.now) grid.now) }
    ensures refused { IfErr result (IsUnextracted (base_of basis.now) grid.now) }
{
    match extract(
        alloc,
        grid,
        basis.tech,
        basis.cells,
        basis.design,
        basis.bias,
    ) {
        Ok(extracted) => Ok(extracted),
        Err(error) => Err(unextracted(alloc, basis.design, grid, error)),
    }
}

/// The answer to a grid of which no network is extracted, for this reason: want of memory, a quantity beyond its limit, or that
/// nothing is extracted, with the words of the reason. Where memory runs out for the words it is want of memory.
pub fn unextracted(alloc: Global, design: &Design, grid: &Grid, error: ExtractError) -> Answer
    ensures { (result ≡ Want) ⊎ (result ≡ extract_answer design.now grid.now error) }
{
    match error {
        ExtractError::Want => Answer::Want,
        ExtractError::Net(error) => no_network(error),
        _ => unnamed(alloc, design, grid, error),
    }
}

/// The answer to a refusal that names a thing.
fn unnamed(alloc: Global, design: &Design, grid: &Grid, error: ExtractError) -> Answer
    ensures { (result ≡ Want) ⊎ (result ≡ NoGrid (extract_words grid.now design.now error)) }
{
    match extract_words(alloc, grid, design, &error) {
        Ok(words) => Answer::NoGrid(Entries::new(words)),
        Err(_) => Answer::Want,
    }
}

/// The answer to lists that make no network.
fn no_network(error: NetError) -> Answer
    ensures { result ≡ net_answer error }
{
    match error {
        NetError::Range {
            quantity,
            at,
            number,
        } => Answer::Range {
            quantity,
            at,
            number,
        },
        // The first two never come: each end of a resistor is a node of the grid, and the pads of a net have one supply.
        NetError::BadEnd { .. } | NetError::PadConflict { .. } | NetError::Want => Answer::Want,
    }
}
