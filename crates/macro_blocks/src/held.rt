//! What has been read of the text of blocks.
//!
//! The words of a whole unit come with what they say, so that no number is read here, and nothing but an allocation can
//! fail.
ghost use Rattle.std.specs.Prelude.{◌≡◌, List, [], ◌∷◌, ◌++◌, None, OnOk, IfOk, map};
ghost use Rattle.std.specs.Int.{int_min, int_max};
ghost use Rattle.macro_blocks.specs.Fault.{AreCoordinates};
ghost use Rattle.macro_blocks.specs.Record.{nothing_said, noted_in, second_text};
ghost use Rattle.macro_blocks.specs.Standing.{pin_name};
ghost use Rattle.macro_blocks.specs.declared.value.Value.{Value as Says};
ghost use Rattle.macro_blocks.specs.Format.{format};
ghost use Rattle.macro_blocks.specs.inside.Value.{says};
ghost use Rattle.reading.specs.Grammar.{AreHeard, IsTaken};
ghost use Rattle.reading.specs.declared.word.Heard.{Heard as Said};
ghost use Rattle.macro_blocks.specs.declared.standing.Standing.{Standing as There};
ghost use Rattle.macro_blocks.specs.inside.Held.{Tells, Holds, Leads};
ghost use Rattle.reading.specs.Word.{Token, heard_token};

use crate::act::{Act, act_of};
use crate::label::Label;
use crate::number::{Bad, Corners, bad_in, corners_of};
use crate::record::{BlockMacro, BlockPin, BlockRect};
use crate::standing::{Standing, pin_name};
use crate::value::Value;
use entry_list::Entries;
use number_place::texts_have_one_number;
use outside::Name;
use reading::Heard;
use std::alloc::{AllocError, Global};
use std::mem;

/// What the sections have said: those that have ended, and what is open.
#[derive(Drop)]
pub(crate) struct Sections<'a> {
    pub(crate) macros: Vec<BlockMacro>,
    /// The pins and the obstructions of the macro that is open.
    pub(crate) pins: Vec<BlockPin>,
    pub(crate) obstructions: Vec<BlockRect>,
    /// The layer and the rectangles of the pin or the obstructions that are open.
    pub(crate) layer: Label<'a>,
    pub(crate) rects: Vec<BlockRect>,
    /// The first number in them that is refused.
    pub(crate) bad: Option<Bad>,
}

impl<'a> Sections<'a> {
    fn new(alloc: Global) -> Sections<'a>
        ensures { Tells nothing_said result }
    {
        Sections {
            macros: Vec::new(alloc),
            pins: Vec::new(alloc),
            obstructions: Vec::new(alloc),
            layer: Label::new(b""),
            rects: Vec::new(alloc),
            bad: None,
        }
    }
}

/// What the units so far say, and where the next one stands.
#[derive(Drop)]
pub(crate) struct Held<'a> {
    pub(crate) said: Sections<'a>,
    pub(crate) standing: Standing<'a>,
    pub(crate) alloc: Global,
}

impl<'a> Held<'a> {
    pub(crate) fn new(alloc: Global) -> Held<'a>
        ensures { Holds [] result }
    {
        Held {
            said: Sections::new(alloc),
            standing: Standing::new(),
            alloc,
        }
    }
}

/// The least rectangle of two corners.
fn between(layer: Name, corners: Corners) -> BlockRect
    ensures layer { result.layer ≡ layer }
    ensures x1 { result.x1 ≡ int_min corners.one.x corners.other.x }
    ensures y1 { result.y1 ≡ int_min corners.one.y corners.other.y }
    ensures x2 { result.x2 ≡ int_max corners.one.x corners.other.x }
    ensures y2 { result.y2 ≡ int_max corners.one.y corners.other.y }
{
    let Corners { one, other } = corners;
    BlockRect {
        layer,
        x1: one.x.min(other.x),
        y1: one.y.min(other.y),
        x2: one.x.max(other.x),
        y2: one.y.max(other.y),
    }
}

/// The pin of this name.
fn pin_of(
    alloc: Global,
    name: &[u8],
    power: bool,
    rects: Vec<BlockRect>,
) -> Result<BlockPin, AllocError>
    ensures name { IfOk result (λ pin. pin.name ≡ name.now) }
    ensures power { IfOk result (λ pin. pin.power ≡ power) }
    ensures rects { IfOk result (λ pin. pin.rects ≡ rects.items) }
{
    Ok(BlockPin {
        name: Name::new(alloc, name)?,
        power,
        rects: Entries::new(rects),
    })
}

/// The macro of this name.
fn macro_of(
    alloc: Global,
    name: &[u8],
    pins: Vec<BlockPin>,
    obstructions: Vec<BlockRect>,
) -> Result<BlockMacro, AllocError>
    ensures name { IfOk result (λ cell. cell.name ≡ name.now) }
    ensures pins { IfOk result (λ cell. cell.pins ≡ pins.items) }
    ensures obstructions { IfOk result (λ cell. cell.obstructions ≡ obstructions.items) }
{
    Ok(BlockMacro {
        name: Name::new(alloc, name)?,
        pins: Entries::new(pins),
        obstructions: Entries::new(obstructions),
    })
}

/// The second word of a unit.
fn second_text<'a>(unit: &[Heard<'a, Value>]) -> Label<'a>
    ensures { result ≡ second_text (map heard_token unit.now) }
{
    match unit {
        [] => Label::new(b""),
        [_] => Label::new(b""),
        [_, second, ..] => Label::new(second.word.text),
    }
}

impl<'a> Sections<'a> {
    /// A pin or obstructions open.
    fn opens(&mut self)
        ensures { (there : There) (unit : List (Said Says)) → Leads Act.Opens there unit self.old self.new }
    {
        self.rects.clear();
        self.bad = None;
    }

    /// `LAYER name`.
    fn names_layer(&mut self, unit: &[Heard<'a, Value>])
        ensures { (there : There) → Leads Act.Layer there unit.now self.old self.new }
    {
        self.layer = second_text(unit);
    }

    /// A RECT where no number is refused, neither before it nor in it.
    fn draw_fine(&mut self, alloc: Global, unit: &[Heard<'_, Value>]) -> Result<(), AllocError>
        requires { self.now.bad ≡ None }
        ensures { OnOk result (((numbers : List Token) → AreCoordinates numbers →
            AreCoordinates (noted_in numbers (map heard_token unit.now))) →
            (there : There) → Leads Act.Draws there unit.now self.old self.new) }
    {
        texts_have_one_number();
        let Some(corners) = corners_of(unit) else {
            return Ok(());
        };
        let layer = Name::new(alloc, self.layer.bytes())?;
        self.rects.push(between(layer, corners))?;
        Ok(())
    }

    /// A RECT where no number before it is refused.
    fn draw(&mut self, alloc: Global, unit: &[Heard<'_, Value>]) -> Result<(), AllocError>
        requires { self.now.bad ≡ None }
        ensures { OnOk result ((there : There) → Leads Act.Draws there unit.now self.old self.new) }
    {
        match bad_in(unit) {
            Some(bad) => {
                self.bad = Some(bad);
                Ok(())
            }
            None => self.draw_fine(alloc, unit),
        }
    }

    /// A RECT, or its words up to one that cannot stand there.
    fn draws(&mut self, alloc: Global, unit: &[Heard<'_, Value>]) -> Result<(), AllocError>
        ensures { OnOk result ((there : There) → Leads Act.Draws there unit.now self.old self.new) }
    {
        match self.bad {
            Some(_) => Ok(()),
            None => self.draw(alloc, unit),
        }
    }

    /// A pin ends, in which no number is refused.
    fn ends_pin(&mut self, alloc: Global, name: &[u8], power: bool) -> Result<(), AllocError>
        ensures { OnOk result ((there : There) (unit : List (Said Says)) → pin_name there.pin ≡ name.now →
            Leads (Act.EndsPin power) there unit self.old self.new) }
    {
        texts_have_one_number();
        let rects = mem::replace(&mut self.rects, Vec::new(alloc));
        self.pins.push(pin_of(alloc, name, power, rects)?)?;
        Ok(())
    }

    /// Obstructions end, in which no number is refused.
    fn ends_obstructions(&mut self) -> Result<(), AllocError>
        ensures { OnOk result ((there : There) (unit : List (Said Says)) →
            Leads Act.EndsObstructions there unit self.old self.new) }
    {
        texts_have_one_number();
        self.obstructions.append(&mut self.rects)?;
        Ok(())
    }

    /// A macro ends.
    fn ends_macro(&mut self, alloc: Global, name: &[u8]) -> Result<(), AllocError>
        ensures { OnOk result ((there : There) (unit : List (Said Says)) → there.cell ≡ name.now →
            Leads Act.EndsMacro there unit self.old self.new) }
    {
        let pins = mem::replace(&mut self.pins, Vec::new(alloc));
        let obstructions = mem::replace(&mut self.obstructions, Vec::new(alloc));
        self.macros
            .push(macro_of(alloc, name, pins, obstructions)?)?;
        Ok(())
    }

    /// A unit that does this.
    fn take(
        &mut self,
        alloc: Global,
        act: Act,
        standing: &Standing<'a>,
        unit: &[Heard<'a, Value>],
    ) -> Result<(), AllocError>
        ensures { OnOk result (Leads act standing.now unit.now self.old self.new) }
    {
        match act {
            Act::Nothing => Ok(()),
            Act::Opens => {
                self.opens();
                Ok(())
            }
            Act::Layer => {
                self.names_layer(unit);
                Ok(())
            }
            Act::Draws => self.draws(alloc, unit),
            Act::EndsPin(power) => self.ends_pin(alloc, pin_name(&standing.pin), power),
            Act::EndsObstructions => self.ends_obstructions(),
            Act::EndsMacro => self.ends_macro(alloc, standing.cell.bytes()),
        }
    }
}

impl<'a> Held<'a> {
    /// Takes what a whole unit says, and goes on to where it leads.
    pub(crate) fn take(&mut self, unit: &[Heard<'a, Value>]) -> Result<(), AllocError>
        ensures { OnOk result ((units : List (List Token)) → Holds units self.old →
            IsTaken format units (map heard_token unit.now) → AreHeard (says units) [] unit.now →
            Holds (units ++ map heard_token unit.now ∷ []) self.new) }
    {
        let act = act_of(self.standing.section(), &self.standing.pin, unit);
        self.said.take(self.alloc, act, &self.standing, unit)?;
        self.standing.go_on(unit);
        Ok(())
    }
}
