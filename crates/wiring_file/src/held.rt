//! What has been read of a wiring.
ghost use Rattle.std.specs.Prelude.{[], IfOk};
ghost use Rattle.wiring_file.specs.inside.Held.{Holds};

use crate::record::{PlaceText, ViaText, WireText};
use crate::section::Section;
use outside::Name;
use std::alloc::{AllocError, Global};

/// What the units so far say, and where the next one stands.
#[derive(Drop)]
pub(crate) struct Held {
    pub(crate) alloc: Global,
    pub(crate) section: Section,
    /// How many entries the open list has by its head.
    pub(crate) count: u64,
    /// How many entries of it there were.
    pub(crate) entries: u64,
    /// The net that is open.
    pub(crate) net: Name,
    /// Whether a line with a via of it was read.
    pub(crate) placed: bool,
    pub(crate) vias: Vec<ViaText>,
    pub(crate) wires: Vec<WireText>,
    pub(crate) places: Vec<PlaceText>,
}

impl Held {
    /// No units yet.
    pub(crate) fn new(alloc: Global) -> Result<Held, AllocError>
        ensures { IfOk result (λ held. Holds [] held) }
    {
        Ok(Held {
            alloc,
            section: Section::Version,
            count: 0,
            entries: 0,
            net: Name::new(alloc, b"")?,
            placed: false,
            vias: Vec::new(alloc),
            wires: Vec::new(alloc),
            places: Vec::new(alloc),
        })
    }
}
