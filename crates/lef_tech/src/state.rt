//! What the whole units so far have led to: where the next one stands, and which layers and rules are known.
ghost use Rattle.std.specs.Prelude.{◌≡◌, IfOk};
ghost use Rattle.lef_tech.specs.State.{first_place, first_state};

use crate::known::Layers;
use crate::section::Section;
use crate::text::Bytes;
use lef_statements::Passing;
use name_table::NameTable;
use std::alloc::{AllocError, Global};

/// Where the next unit stands.
#[derive(Debug, Drop)]
pub(crate) struct Place<'a> {
    pub(crate) section: Section,
    /// The section that goes on after what is passed over, or after a table.
    pub(crate) back: Section,
    /// What is being passed over.
    pub(crate) passing: Passing<'a>,
    /// The name of the open section.
    pub(crate) name: Bytes<'a>,
    /// How many points of the open table have no entry yet.
    pub(crate) left: usize,
    /// The last point of the open table.
    pub(crate) point: Bytes<'a>,
}

impl<'a> Place<'a> {
    /// The beginning of a text.
    pub(crate) fn new() -> Place<'a>
        ensures { result ≡ first_place }
    {
        Place {
            section: Section::Top,
            back: Section::Top,
            passing: Passing::Statement,
            name: Bytes::new(&[]),
            left: 0,
            point: Bytes::new(&[]),
        }
    }
}

/// What the whole units so far have led to.
#[derive(Drop)]
pub(crate) struct State<'a> {
    pub(crate) place: Place<'a>,
    pub(crate) layers: Layers<'a>,
    /// How many routing layers there are.
    pub(crate) routing: u32,
    /// How many cut layers there are.
    pub(crate) cuts: u32,
    /// The names of all rules.
    pub(crate) rules: NameTable<'a>,
}

impl<'a> State<'a> {
    /// The beginning of a text.
    pub(crate) fn new(alloc: Global) -> Result<State<'a>, AllocError>
        ensures { IfOk result (λ state. state ≡ first_state) }
    {
        Ok(State {
            place: Place::new(),
            layers: Layers::new(alloc)?,
            routing: 0,
            cuts: 0,
            rules: NameTable::with_capacity(alloc, 0)?,
        })
    }
}
