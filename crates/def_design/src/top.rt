//! What a design says of itself: its name, its units and its die.
ghost use Rattle.std.specs.Prelude.{◌≡◌, [], OnOk, map};
ghost use Rattle.def_design.specs.Record.{SaysName, SaysUnits, SaysDie};
ghost use Rattle.def_design.specs.Unit.{is_design, is_units, is_die};
ghost use Rattle.def_design.specs.inside.Held.{HoldsTop, FirstSays, Leads, WhenWhole};
ghost use Rattle.reading.specs.Word.{heard_token};

use crate::corners::rect_of;
use crate::number::microns_of;
use crate::value::{Value, begins, number_at, text_at};
use def_statements::Sort;
use geom_rect::Rect;
use outside::Name;
use reading::Heard;
use std::alloc::{AllocError, Global};

/// What has been said of the design itself; of each the first.
#[derive(Debug, Drop)]
pub(crate) struct Top {
    pub(crate) name: Option<Name>,
    pub(crate) units: Option<u32>,
    pub(crate) die: Option<Rect>,
}

impl Top {
    pub(crate) fn new() -> Top
        ensures { HoldsTop [] result }
    {
        Top {
            name: None,
            units: None,
            die: None,
        }
    }

    /// Its name, if the unit says the first one.
    fn take_name(&mut self, alloc: Global, unit: &[Heard<'_, Value>]) -> Result<(), AllocError>
        ensures name { OnOk result
            (WhenWhole unit.now
            (Leads (FirstSays is_design SaysName) (map heard_token unit.now) self.old.name self.new.name)) }
        ensures units { self.new.units ≡ self.old.units }
        ensures die { self.new.die ≡ self.old.die }
    {
        if !begins(Sort::Design, 3, unit) {
            return Ok(());
        }
        if self.name.is_some() {
            return Ok(());
        }
        self.name = Some(Name::new(alloc, text_at(1, unit))?);
        Ok(())
    }

    /// Its units, if the unit says the first ones.
    fn take_units(&mut self, unit: &[Heard<'_, Value>])
        ensures name { self.new.name ≡ self.old.name }
        ensures units { WhenWhole unit.now
            (Leads (FirstSays is_units SaysUnits) (map heard_token unit.now) self.old.units self.new.units) }
        ensures die { self.new.die ≡ self.old.die }
    {
        if !begins(Sort::Units, 5, unit) {
            return;
        }
        if self.units.is_some() {
            return;
        }
        self.units = Some(microns_of(number_at(3, unit)));
    }

    /// Its die, if the unit says the first one.
    fn take_die(&mut self, unit: &[Heard<'_, Value>])
        ensures name { self.new.name ≡ self.old.name }
        ensures units { self.new.units ≡ self.old.units }
        ensures die { WhenWhole unit.now
            (Leads (FirstSays is_die SaysDie) (map heard_token unit.now) self.old.die self.new.die) }
    {
        if !begins(Sort::DieArea, 10, unit) {
            return;
        }
        if self.die.is_some() {
            return;
        }
        self.die = Some(rect_of(2, unit));
    }

    /// What a whole unit says of the design itself.
    pub(crate) fn take(
        &mut self,
        alloc: Global,
        unit: &[Heard<'_, Value>],
    ) -> Result<(), AllocError>
        ensures { OnOk result (WhenWhole unit.now (Leads HoldsTop (map heard_token unit.now) self.old self.new)) }
    {
        self.take_name(alloc, unit)?;
        self.take_units(unit);
        self.take_die(unit);
        Ok(())
    }
}
