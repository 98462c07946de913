//! What has been read of a design.
//!
//! The words of a whole unit come with what they say, so that no number is read here, and its names are new.
ghost use Rattle.std.specs.Prelude.{[], ◌≡◌, IfOk, OnOk, map};
ghost use Rattle.def_design.specs.inside.Held.{Holds, HoldsSaid, Takes};
ghost use Rattle.def_statements.specs.Standing.{standing_after};
ghost use Rattle.reading.specs.Word.{heard_token};

use crate::blockages::Blockages;
use crate::components::Components;
use crate::record::Row;
use crate::regions::Regions;
use crate::rows::take_row;
use crate::top::Top;
use crate::value::Value;
use def_statements::Standing;
use reading::{Heard, last_heard};
use std::alloc::{AllocError, Global};

/// What the units so far say.
#[derive(Drop)]
pub(crate) struct Said<'a> {
    pub(crate) top: Top,
    pub(crate) rows: Vec<Row>,
    pub(crate) components: Components<'a>,
    pub(crate) blockages: Blockages<'a>,
    pub(crate) regions: Regions<'a>,
}

/// What the units so far say, and where the next one stands.
#[derive(Drop)]
pub(crate) struct Held<'a> {
    pub(crate) said: Said<'a>,
    pub(crate) standing: Standing<'a>,
    pub(crate) alloc: Global,
}

impl<'a> Said<'a> {
    fn new(alloc: Global) -> Result<Said<'a>, AllocError>
        ensures { IfOk result (HoldsSaid []) }
    {
        Ok(Said {
            top: Top::new(),
            rows: Vec::new(alloc),
            components: Components::new(alloc)?,
            blockages: Blockages::new(alloc),
            regions: Regions::new(alloc)?,
        })
    }

    /// What a whole unit says.
    pub(crate) fn take(
        &mut self,
        alloc: Global,
        unit: &[Heard<'a, Value>],
    ) -> Result<(), AllocError>
        ensures { OnOk result (Takes HoldsSaid unit.now self.old self.new) }
    {
        self.top.take(alloc, unit)?;
        take_row(&mut self.rows, alloc, unit)?;
        self.components.take(alloc, unit)?;
        self.blockages.take(alloc, unit)?;
        self.regions.take(alloc, unit)?;
        Ok(())
    }
}

impl<'a> Held<'a> {
    pub(crate) fn new(alloc: Global) -> Result<Held<'a>, AllocError>
        ensures { IfOk result (Holds []) }
    {
        Ok(Held {
            said: Said::new(alloc)?,
            standing: Standing::new(),
            alloc,
        })
    }
}

/// Goes on to where one more unit leads, which its first and its last word tell.
pub(crate) fn go_on<'a>(standing: &mut Standing<'a>, unit: &[Heard<'a, Value>])
    ensures { standing.new ≡ standing_after standing.old (map heard_token unit.now) }
{
    match unit.first() {
        None => standing.go_on(&[]),
        Some(first) => match last_heard(unit) {
            None => standing.go_on(&[]),
            Some(last) => standing.go_on(&[first.word, last.word]),
        },
    }
}
