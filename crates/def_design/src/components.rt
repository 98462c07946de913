//! The components of a design.
ghost use Rattle.std.specs.Prelude.{◌≡◌, [], true, false, IfOk, OnOk, map};
ghost use Rattle.def_design.specs.Record.{SaysPlace};
ghost use Rattle.def_design.specs.inside.Held.{HoldsComponents, FirstSays, Leads, Takes, WhenWhole};
ghost use Rattle.def_design.specs.Unit.{is_component, is_placed};
ghost use Rattle.reading.specs.Word.{heard_token};

use crate::corners::point_of;
use crate::kinds::{is_placed, turn_of};
use crate::record::Component;
use crate::value::{Value, begins, sort_at, text_at};
use def_statements::Sort;
use geom_rect::Orient;
use named_entries::NamedEntries;
use outside::Name;
use reading::Heard;
use std::alloc::{AllocError, Global};

/// The components so far, and their names.
#[derive(Drop)]
pub(crate) struct Components<'a> {
    pub(crate) names: NamedEntries<'a, ()>,
    pub(crate) items: Vec<Component>,
}

/// Where the component stands.
fn place_of(unit: &[Heard<'_, Value>]) -> (i64, i64, Orient)
    ensures { WhenWhole unit.now (is_placed (map heard_token unit.now) ≡ true → SaysPlace (map heard_token unit.now) result) }
{
    let point = point_of(2, unit);
    (point.x, point.y, turn_of(sort_at(5, unit)))
}

/// The component with this part, which places it unless it is placed already.
fn placed(last: Component, unit: &[Heard<'_, Value>]) -> Component
    ensures name { result.name ≡ last.name }
    ensures cell { result.cell ≡ last.cell }
    ensures place { WhenWhole unit.now (is_placed (map heard_token unit.now) ≡ true →
        Leads (FirstSays is_placed SaysPlace) (map heard_token unit.now) last.place result.place) }
{
    if last.place.is_some() {
        return last;
    }
    Component {
        name: last.name,
        cell: last.cell,
        place: Some(place_of(unit)),
    }
}

impl<'a> Components<'a> {
    pub(crate) fn new(alloc: Global) -> Result<Components<'a>, AllocError>
        ensures { IfOk result (HoldsComponents []) }
    {
        Ok(Components {
            names: NamedEntries::new(alloc)?,
            items: Vec::new(alloc),
        })
    }

    /// One more component, which is not placed yet.
    fn add(&mut self, alloc: Global, unit: &[Heard<'a, Value>]) -> Result<(), AllocError>
        ensures { OnOk result (is_component (map heard_token unit.now) ≡ true →
            Takes HoldsComponents unit.now self.old self.new) }
    {
        let name = text_at(1, unit);
        self.names.add(name, ())?;
        self.items.push(Component {
            name: Name::new(alloc, name)?,
            cell: Name::new(alloc, text_at(2, unit))?,
            place: None,
        })?;
        Ok(())
    }

    /// The last component is placed, unless it is already.
    fn place(&mut self, unit: &[Heard<'a, Value>]) -> Result<(), AllocError>
        ensures { OnOk result (is_component (map heard_token unit.now) ≡ false →
            is_placed (map heard_token unit.now) ≡ true → Takes HoldsComponents unit.now self.old self.new) }
    {
        match self.items.pop() {
            Some(last) => {
                self.items.push(placed(last, unit))?;
                Ok(())
            }
            None => Ok(()),
        }
    }

    /// What a whole unit says of the components.
    pub(crate) fn take(
        &mut self,
        alloc: Global,
        unit: &[Heard<'a, Value>],
    ) -> Result<(), AllocError>
        ensures { OnOk result (Takes HoldsComponents unit.now self.old self.new) }
    {
        if begins(Sort::Minus, 3, unit) {
            return self.add(alloc, unit);
        }
        if is_placed(unit) {
            return self.place(unit);
        }
        Ok(())
    }
}
