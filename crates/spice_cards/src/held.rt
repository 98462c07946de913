//! What has been read of a netlist.
ghost use Rattle.std.specs.Prelude.{◌≡◌, ◌≤◌, ◌≤ℤ◌, ◌^◌, ◌||◌, ℕ, ℤ, pos, neg_ℤ, false, [], ◌∷◌, ◌++◌, All, IfOk, OnOk, Ok, List, map, Option, unsigned_abs};
ghost use Rattle.name_table.specs.Numbering.{TakesName, AreDistinct};
ghost use Rattle.node_names.specs.Folding.{folded};
ghost use Rattle.number_place.specs.Place.{IsNumberAt};
ghost use Rattle.reading.specs.Grammar.{AreHeard};
ghost use Rattle.reading.specs.Word.{Token, heard_token};
ghost use Rattle.spice_cards.specs.Card.{Resistor as ResistorCard, Source as SourceCard, Load as LoadCard, Capacitor as CapacitorCard, Ends, resistor_with, source_with, load_with, capacitor_with, card_with, card_of as card_in_unit};
ghost use Rattle.spice_cards.specs.Number.{ohms as ohms_place, volts as volts_place, amperes, farads as farads_place, IsCapacitance};
ghost use Rattle.spice_cards.specs.Record.{HasNumber, SaysCards, AreNumbered, IsRange, LoadsNode, but_ground};
ghost use Rattle.spice_cards.specs.Card.{is_ground as ground_name};
ghost use Rattle.spice_cards.specs.inside.Held.{Holds, Adds, AddsUnit, AddsPad, AddsShort, AddsLoad};
ghost use Rattle.spice_cards.specs.inside.Value.{SaysOhms, SaysVolts, SaysAmperes, SaysFarads, SaysWord, says};

use crate::card::{is_ground, without_dc};
use crate::fault::is_zero;
use crate::record::{Capacitor, Cards};
use crate::section::Section;
use crate::sort::Sort;
use crate::value::Value;
use grid_net::{Load, Pad, Resistor};
use node_names::NodeNames;
use number_place::values_fit_their_places;
use reading::Heard;
use std::alloc::{AllocError, Global};

/// What the units so far say, and where the next one stands.
#[derive(Drop)]
pub(crate) struct Held<'a> {
    pub(crate) cards: Cards<'a>,
    pub(crate) section: Section,
}

impl<'a> Held<'a> {
    pub(crate) fn new(alloc: Global) -> Result<Held<'a>, AllocError>
        ensures { IfOk result (λ held. Holds [] held) }
    {
        Ok(Held {
            cards: Cards {
                names: NodeNames::with_capacity(alloc, 0)?,
                resistors: Vec::new(alloc),
                shorts: Vec::new(alloc),
                pads: Vec::new(alloc),
                loads: Vec::new(alloc),
                caps: Vec::new(alloc),
            },
            section: Section::Cards,
        })
    }

    /// The record of what the units say.
    pub(crate) fn into_cards(self) -> Cards<'a>
        ensures says { (units : List (List Token)) → Holds units self.entry → SaysCards units result }
        ensures numbers { (units : List (List Token)) → Holds units self.entry → AreNumbered result }
        ensures ranges { (units : List (List Token)) → Holds units self.entry →
            All (λ load. load.low ≤ℤ load.high) result.loads.items }
        ensures farads { (units : List (List Token)) → Holds units self.entry →
            All (λ cap. IsCapacitance cap.farads) result.caps.items }
    {
        values_fit_their_places();
        self.cards
    }
}

/// The number of a node's name. A table of names is full with 2^32 - 1 of them.
fn number_of<'a>(names: &mut NodeNames<'a>, name: &'a [u8]) -> Result<u32, AllocError>
    ensures number { IfOk result (λ number. HasNumber names.new name.now number) }
    ensures taken { OnOk result (TakesName names.old names.new (folded name.now)) }
    ensures distinct { AreDistinct names.new }
{
    match names.number(name) {
        Ok(number) => Ok(number),
        Err(_) => Err(AllocError),
    }
}

/// A resistor, or a short where its value is 0.
fn add_resistor<'a>(
    cards: &mut Cards<'a>,
    a: &'a [u8],
    b: &'a [u8],
    ohms: i128,
) -> Result<(), AllocError>
    ensures { OnOk result ((text : List ℕ) → IsNumberAt ohms_place text (Ok ohms) →
        Adds (ResistorCard a.now b.now text) cards.old cards.new) }
{
    let a = number_of(&mut cards.names, a)?;
    let b = number_of(&mut cards.names, b)?;
    if is_zero(ohms) {
        cards.shorts.push((a, b))?;
    } else {
        cards.resistors.push(Resistor { a, b, ohms })?;
    }
    Ok(())
}

/// What a resistor's card says, by the words after its nodes.
fn take_resistor<'a>(
    cards: &mut Cards<'a>,
    a: &'a [u8],
    b: &'a [u8],
    words: &[Heard<'a, Value>],
) -> Result<(), AllocError>
    ensures { OnOk result (AreHeard SaysOhms [] words.now →
        AddsUnit (resistor_with a.now b.now (map heard_token words.now)) cards.old cards.new) }
{
    match words {
        [value, _] => add_resistor(cards, a, b, value.value.wide()),
        _ => Ok(()),
    }
}

/// A pad of a node.
fn add_pad<'a>(cards: &mut Cards<'a>, name: &'a [u8], volts: i128) -> Result<(), AllocError>
    ensures { OnOk result (AddsPad name.now volts cards.old cards.new) }
{
    let node = number_of(&mut cards.names, name)?;
    cards.pads.push(Pad { node, volts })?;
    Ok(())
}

/// Minus the volts of a source, which are far within their width.
fn turned_volts(volts: i128) -> i128
    ensures { unsigned_abs volts ≤ 10 ^ 30 → result ≡ neg_ℤ volts }
{
    volts.wrapping_neg()
}

/// A short between two nodes.
fn add_short<'a>(cards: &mut Cards<'a>, a: &'a [u8], b: &'a [u8]) -> Result<(), AllocError>
    ensures { OnOk result (AddsShort a.now b.now cards.old cards.new) }
{
    let a = number_of(&mut cards.names, a)?;
    let b = number_of(&mut cards.names, b)?;
    cards.shorts.push((a, b))?;
    Ok(())
}

/// A source of this voltage. Between two nodes other than `0` it has been heard to be 0.
fn add_source<'a>(
    cards: &mut Cards<'a>,
    a: &'a [u8],
    b: &'a [u8],
    volts: i128,
) -> Result<(), AllocError>
    ensures { OnOk result ((text : List ℕ) → IsNumberAt volts_place text (Ok volts) →
        ((ground_name a.now || ground_name b.now) ≡ false → volts ≡ pos 0) →
        Adds (SourceCard a.now b.now text) cards.old cards.new) }
{
    if is_ground(b) {
        add_pad(cards, a, volts)
    } else if is_ground(a) {
        add_pad(cards, b, turned_volts(volts))
    } else {
        add_short(cards, a, b)
    }
}

/// What a source's card says, by the words after its nodes without `DC`.
fn take_source<'a>(
    cards: &mut Cards<'a>,
    a: &'a [u8],
    b: &'a [u8],
    words: &[Heard<'a, Value>],
) -> Result<(), AllocError>
    ensures { OnOk result (AreHeard (SaysVolts a.now b.now) [] words.now →
        AddsUnit (source_with a.now b.now (map heard_token words.now)) cards.old cards.new) }
{
    match words {
        [value, _] => add_source(cards, a, b, value.value.wide()),
        _ => Ok(()),
    }
}

/// A range of current.
#[derive(Clone, Copy)]
struct Range {
    low: i64,
    high: i64,
}

/// The range of the current in the other direction. Both ends are far within their width.
fn turned(range: Range) -> Range
    ensures low { unsigned_abs range.high ≤ 10 ^ 18 → result.low ≡ neg_ℤ range.high }
    ensures high { unsigned_abs range.low ≤ 10 ^ 18 → result.high ≡ neg_ℤ range.low }
{
    Range {
        low: range.high.wrapping_neg(),
        high: range.low.wrapping_neg(),
    }
}

/// The load at a node, and none at `0`.
fn add_load<'a>(cards: &mut Cards<'a>, name: &'a [u8], range: Range) -> Result<(), AllocError>
    ensures { OnOk result (AddsLoad name.now range.low range.high cards.old cards.new) }
{
    if is_ground(name) {
        return Ok(());
    }
    let node = number_of(&mut cards.names, name)?;
    cards.loads.push(Load {
        node,
        low: range.low,
        high: range.high,
    })?;
    Ok(())
}

/// The loads of this range at the nodes of a load's card.
fn add_loads<'a>(
    cards: &mut Cards<'a>,
    a: &'a [u8],
    b: &'a [u8],
    range: Range,
) -> Result<(), AllocError>
    ensures { OnOk result ((text : List ℕ) (ends : Option Ends) (v : ℤ) → IsNumberAt amperes text (Ok v) →
        IsRange ends v range.low range.high → Adds (LoadCard a.now b.now text ends) cards.old cards.new) }
{
    let back = turned(range);
    add_load(cards, a, range)?;
    add_load(cards, b, back)
}

/// What a load's card says, by the words after its nodes without `DC`.
fn take_load<'a>(
    cards: &mut Cards<'a>,
    a: &'a [u8],
    b: &'a [u8],
    words: &[Heard<'a, Value>],
) -> Result<(), AllocError>
    ensures { OnOk result (AreHeard SaysAmperes [] words.now →
        AddsUnit (load_with a.now b.now (map heard_token words.now)) cards.old cards.new) }
{
    match words {
        [value, _] => {
            let value = value.value.small();
            let range = Range {
                low: value,
                high: value,
            };
            add_loads(cards, a, b, range)
        }
        [_, _, low, high, _] => {
            let range = Range {
                low: low.value.small(),
                high: high.value.small(),
            };
            add_loads(cards, a, b, range)
        }
        _ => Ok(()),
    }
}

/// What a capacitor's card says, by the words after its ends.
fn take_capacitor<'a>(
    cards: &mut Cards<'a>,
    a: &'a [u8],
    b: &'a [u8],
    words: &[Heard<'a, Value>],
) -> Result<(), AllocError>
    ensures { OnOk result (AreHeard SaysFarads [] words.now →
        AddsUnit (capacitor_with a.now b.now (map heard_token words.now)) cards.old cards.new) }
{
    match words {
        [value, _] => {
            let farads = value.value.wide();
            cards.caps.push(Capacitor { a, b, farads })?;
            Ok(())
        }
        _ => Ok(()),
    }
}

/// What a card with this letter says, by its nodes and the words after them.
fn take_card<'a>(
    cards: &mut Cards<'a>,
    letter: Sort,
    a: &'a [u8],
    b: &'a [u8],
    words: &[Heard<'a, Value>],
) -> Result<(), AllocError>
    ensures { OnOk result (AreHeard (SaysWord letter a.now b.now) [] words.now →
        AddsUnit (card_with letter a.now b.now (map heard_token words.now)) cards.old cards.new) }
{
    match letter {
        Sort::Resistor => take_resistor(cards, a, b, words),
        Sort::Source => take_source(cards, a, b, without_dc(words)),
        Sort::Load => take_load(cards, a, b, without_dc(words)),
        Sort::Capacitor => take_capacitor(cards, a, b, words),
        _ => Ok(()),
    }
}

/// What a unit says, if it is a card.
pub(crate) fn take_unit<'a>(
    cards: &mut Cards<'a>,
    unit: &[Heard<'a, Value>],
) -> Result<(), AllocError>
    ensures { OnOk result (AreHeard says [] unit.now →
        AddsUnit (card_in_unit (map heard_token unit.now)) cards.old cards.new) }
{
    match unit {
        [first, a, b, words @ ..] => {
            take_card(cards, first.value.letter(), a.word.text, b.word.text, words)
        }
        _ => Ok(()),
    }
}
