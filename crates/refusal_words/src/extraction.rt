//! The words of a refusal of an extraction.
ghost use Rattle.std.specs.Prelude.{◌≡◌, IfOk};
ghost use Rattle.refusal_words.specs.Words.{extract_words};

use crate::append::{named, numbered};
use crate::name::{component_name, net_name};
use def_design::Design;
use grid_network::ExtractError;
use grid_pieces::Grid;
use std::alloc::{AllocError, Global};

/// The words of a refusal of an extraction from this grid and design, without the end of the line. Names stand as they
/// are, whatever bytes they have.
///
/// Lists that make no network have the word `Net`, and want of memory has `Want`. A caller that answers them as those of
/// any network never prints these.
pub fn extract_words(
    alloc: Global,
    grid: &Grid,
    design: &Design,
    error: &ExtractError,
) -> Result<Vec<u8>, AllocError>
    ensures { IfOk result (λ words. words.items ≡ extract_words grid.now design.now error.now) }
{
    match error {
        ExtractError::UnknownName(line) => numbered(alloc, b"UnknownName ", *line),
        ExtractError::NoSupply(net) => named(alloc, b"NoSupply ", net_name(grid, *net)),
        ExtractError::PadOff(line) => numbered(alloc, b"PadOff ", *line),
        ExtractError::LoadOff(of) => named(alloc, b"LoadOff ", component_name(design, *of)),
        ExtractError::Net(_) => Vec::from_slice(alloc, b"Net"),
        ExtractError::Want => Vec::from_slice(alloc, b"Want"),
    }
}
