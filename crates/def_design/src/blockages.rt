//! The blockages of a design.
ghost use Rattle.std.specs.Prelude.{◌≡◌, ◌||◌, [], None, false, OnOk, map};
ghost use Rattle.def_design.specs.inside.Held.{HoldsBlockages, FirstSays, GoesOn, Leads, AddsRect, WhenWhole};
ghost use Rattle.def_design.specs.Record.{SaysSpacing};
ghost use Rattle.def_design.specs.Unit.{is_spacing};
ghost use Rattle.def_design.specs.inside.Value.{said_excepts};
ghost use Rattle.reading.specs.Word.{heard_token};

use crate::corners::rect_of;
use crate::kinds::excepts;
use crate::record::Blockage;
use crate::value::{Value, begins, number_at, text_at};
use def_statements::Sort;
use outside::Name;
use reading::Heard;
use std::alloc::{AllocError, Global};

/// What the last entry over a layer has said so far.
#[derive(Debug, Drop)]
pub(crate) struct Open<'a> {
    pub(crate) layer: &'a [u8],
    /// Its first SPACING.
    pub(crate) spacing: Option<i64>,
    /// Whether a part excepts the wires of power grids.
    pub(crate) excepts: bool,
}

/// The blockages so far, and the last entry.
#[derive(Drop)]
pub(crate) struct Blockages<'a> {
    pub(crate) open: Open<'a>,
    pub(crate) items: Vec<Blockage>,
}

impl<'a> Open<'a> {
    /// An entry over this layer, of which nothing more is read yet.
    fn new(layer: &'a [u8]) -> Open<'a>
        ensures { result ≡ record { layer = layer.entry; spacing = None; excepts = false } }
    {
        Open {
            layer,
            spacing: None,
            excepts: false,
        }
    }

    /// Its spacing, if the unit says the first one.
    fn take_spacing(&mut self, unit: &[Heard<'a, Value>])
        ensures layer { self.new.layer ≡ self.old.layer }
        ensures spacing { WhenWhole unit.now
            (Leads (FirstSays is_spacing SaysSpacing) (map heard_token unit.now) self.old.spacing self.new.spacing) }
        ensures excepts { self.new.excepts ≡ self.old.excepts }
    {
        if !begins(Sort::Spacing, 2, unit) {
            return;
        }
        if self.spacing.is_some() {
            return;
        }
        self.spacing = Some(number_at(1, unit));
    }

    /// Whether it excepts the wires of power grids, with one more unit.
    fn take_excepts(&mut self, unit: &[Heard<'a, Value>])
        ensures layer { self.new.layer ≡ self.old.layer }
        ensures spacing { self.new.spacing ≡ self.old.spacing }
        ensures excepts { self.new.excepts ≡ (self.old.excepts || said_excepts unit.now) }
    {
        self.excepts = self.excepts || excepts(unit);
    }

    /// One more unit of the entry, or the head of another one.
    fn take(&mut self, unit: &[Heard<'a, Value>])
        ensures { WhenWhole unit.now (GoesOn (map heard_token unit.now) self.old self.new) }
    {
        if begins(Sort::Layer, 2, unit) {
            *self = Open::new(text_at(1, unit));
            return;
        }
        self.take_spacing(unit);
        self.take_excepts(unit);
    }
}

impl<'a> Blockages<'a> {
    pub(crate) fn new(alloc: Global) -> Blockages<'a>
        ensures { HoldsBlockages [] result }
    {
        Blockages {
            open: Open::new(b""),
            items: Vec::new(alloc),
        }
    }

    /// One more rectangle, if the unit says one that blocks wires.
    fn add(&mut self, alloc: Global, unit: &[Heard<'a, Value>]) -> Result<(), AllocError>
        ensures open { self.new.open ≡ self.old.open }
        ensures items { OnOk result (WhenWhole unit.now (AddsRect (map heard_token unit.now) self.old self.new)) }
    {
        if !begins(Sort::Rect, 9, unit) {
            return Ok(());
        }
        if self.open.excepts {
            return Ok(());
        }
        self.items.push(Blockage {
            layer: Name::new(alloc, self.open.layer)?,
            spacing: self.open.spacing,
            rect: rect_of(2, unit),
        })?;
        Ok(())
    }

    /// What a whole unit says of the blockages.
    pub(crate) fn take(
        &mut self,
        alloc: Global,
        unit: &[Heard<'a, Value>],
    ) -> Result<(), AllocError>
        ensures { OnOk result (WhenWhole unit.now
            (Leads HoldsBlockages (map heard_token unit.now) self.old self.new)) }
    {
        self.add(alloc, unit)?;
        self.open.take(unit);
        Ok(())
    }
}
