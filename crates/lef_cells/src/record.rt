//! The cells of a LEF library.
ghost use Rattle.std.specs.Prelude.{◌≡◌};

use entry_list::Entries;
use outside::Name;

/// The sites and the macros of a LEF library, in the order of the text.
#[derive(Debug, Drop)]
pub struct Cells {
    /// The sites, each name at most once.
    pub sites: Entries<Site>,
    /// The macros, each name at most once.
    pub macros: Entries<MacroCell>,
}

/// A section `SITE name .. SIZE w BY h ; .. END name`.
#[derive(Debug, Drop)]
pub struct Site {
    pub name: Name,
    /// The width in pm, at most 10^11.
    pub width: u64,
    /// The height in pm, at most 10^11.
    pub height: u64,
}

/// A section `MACRO name .. SIZE w BY h ; .. END name`.
#[derive(Debug, Drop)]
pub struct MacroCell {
    pub name: Name,
    /// Whether its class is BLOCK.
    pub block: bool,
    /// The width in pm, at most 10^11.
    pub width: u64,
    /// The height in pm, at most 10^11.
    pub height: u64,
}
