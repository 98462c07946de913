//! The blocks of a LEF library.
use entry_list::Entries;
use outside::Name;

/// The macros of a LEF library, in the order of the text. A name may stand again.
#[derive(Debug, Drop)]
pub struct Blocks {
    pub macros: Entries<BlockMacro>,
}

/// A section `MACRO name .. END name`, of any class.
#[derive(Debug, Drop)]
pub struct BlockMacro {
    pub name: Name,
    /// Its pins of power and ground, in the order of the text.
    pub pins: Entries<BlockPin>,
    /// The rectangles of all its OBS, in the order of the text.
    pub obstructions: Entries<BlockRect>,
}

/// A section `PIN name .. END name` whose first USE is POWER or GROUND.
#[derive(Debug, Drop)]
pub struct BlockPin {
    pub name: Name,
    /// Whether its use is POWER, and not GROUND.
    pub power: bool,
    /// The rectangles of all its ports, in the order of the text.
    pub rects: Entries<BlockRect>,
}

/// `RECT x1 y1 x2 y2 ;` on a layer, in pm from the macro's origin, at most 10^11 from 0: x1 is at most x2, and y1 at most
/// y2, whichever corners the text has.
#[derive(Debug, Drop)]
pub struct BlockRect {
    /// The name after the last LAYER before it, in its port or its OBS.
    pub layer: Name,
    pub x1: i64,
    pub y1: i64,
    pub x2: i64,
    pub y2: i64,
}
