//! What is known after one more unit.
ghost use Rattle.std.specs.Prelude.{◌≡◌, ◌+◌, ◌-◌, ◌<◌, ◌≤◌, ◌^◌, Contains, OnOk, length, map};
ghost use Rattle.lef_tech.specs.declared.section.Section.TheVariants as sections;
ghost use Rattle.lef_tech.specs.Known.{name_of};
ghost use Rattle.lef_tech.specs.Turn.{open_passing, passed_to, turned, is_in_rule, named_by, typed, ruled, learnt, moved};
ghost use Rattle.lef_tech.specs.inside.Held.{IsNewRule, IsReady};
ghost use Rattle.lef_statements.specs.Passing.{passing_after};
ghost use Rattle.reading.specs.Word.{token, heard_token};

use crate::known::take_name;
use crate::layer::LayerRef;
use crate::section::Section;
use crate::shape::Shape;
use crate::sort::Sort;
use crate::state::{Place, State};
use crate::text::{Bytes, text_at};
use crate::turn::{Turn, turn_of};
use crate::value::Value;
use lef_statements::Passing;
use reading::{Heard, Word};
use std::alloc::AllocError;
use std::mem;

/// The open section as what is passed over.
fn open_passing<'a>(ended: bool, name: &Bytes<'a>) -> Passing<'a>
    ensures { result ≡ open_passing ended name.now }
{
    if ended {
        Passing::SectionEnd(name.open())
    } else {
        Passing::Section(name.open())
    }
}

/// The place in what is passed over.
fn skip<'a>(place: &mut Place<'a>, passing: Passing<'a>, back: Section)
    ensures { place.new ≡ record place.old { section = sections.Passing; back = back; passing = passing.entry } }
{
    place.section = Section::Passing;
    place.back = back;
    place.passing = passing;
}

/// The place after one more word of what is passed over.
fn pass_word<'a>(place: &mut Place<'a>, word: &Word<'a>)
    ensures { place.new ≡ passed_to place.old (passing_after place.old.passing (token word.now)) }
{
    let passing = mem::replace(&mut place.passing, Passing::Statement);
    match passing.after(word) {
        None => place.section = place.back,
        Some(passing) => place.passing = passing,
    }
}

/// One more point of a table.
fn one_more(left: usize) -> usize
    ensures { left < 2 ^ 64 - 1 → result ≡ left + 1 }
{
    left.saturating_add(1)
}

/// The place after a turn, where this is the unit's last word.
fn turn<'a>(place: &mut Place<'a>, last: &Word<'a>, turn: Turn)
    ensures { place.old.left < 2 ^ 64 - 1 → place.new ≡ turned place.old (token last.now) turn }
{
    match turn {
        Turn::Stay => {}
        Turn::Go(section) => place.section = section,
        Turn::Open(section) => {
            place.section = section;
            place.name = Bytes::new(last.text);
        }
        Turn::Skip(back) => skip(place, Passing::Statement, back),
        Turn::SkipSection => {
            skip(
                place,
                Passing::Section(Bytes::new(last.text).open()),
                Section::Top,
            )
        }
        Turn::SkipExtension => skip(place, Passing::Extension, Section::Top),
        Turn::SkipOpen(ended) => {
            let passing = open_passing(ended, &place.name);
            skip(place, passing, Section::Top)
        }
        Turn::Word => pass_word(place, last),
        Turn::Table(section) => {
            place.back = place.section;
            place.section = section;
            place.left = 1;
            place.point = Bytes::new(last.text);
        }
        Turn::Point => {
            place.left = one_more(place.left);
            place.point = Bytes::new(last.text);
        }
        Turn::Values(section) => {
            place.section = section;
            place.left = place.left.saturating_sub(1);
        }
        Turn::Value => place.left = place.left.saturating_sub(1),
        Turn::Back => place.section = place.back,
    }
}

/// Whether the section has `LAYER name ;` as a statement of a rule.
fn is_in_rule(section: Section) -> bool
    ensures { result ≡ is_in_rule section }
{
    match section {
        Section::RuleHead => true,
        Section::Rule => true,
        Section::WirePart => true,
        Section::CutPart => true,
        _ => false,
    }
}

/// The layer that a statement of a rule names.
pub(crate) fn named<'a>(
    state: &mut State<'a>,
    shape: Shape,
    unit: &[Heard<'a, Value>],
) -> Option<LayerRef>
    ensures same { state.new ≡ state.old }
    ensures is { result ≡ named_by state.old shape (map heard_token unit.now) }
{
    if !is_in_rule(state.place.section) {
        return None;
    }
    match shape {
        Shape::Three(_, _, _) => state.layers.reference(text_at(unit, 1)),
        _ => None,
    }
}

/// The type of the open layer.
fn learn_type(state: &mut State<'_>, sort: Sort) -> Result<(), AllocError>
    ensures { OnOk result ((Contains (map name_of state.old.layers) state.old.place.name → ⊥) →
        state.old.routing + state.old.cuts ≤ length state.old.layers → state.new ≡ typed state.old sort) }
{
    let name = state.place.name.bytes();
    match sort {
        Sort::Routing => {
            state
                .layers
                .add(name, Some(LayerRef::Routing(state.routing)))?;
            state.routing = state.routing.saturating_add(1);
        }
        _ => {
            state.layers.add(name, Some(LayerRef::Cut(state.cuts)))?;
            state.cuts = state.cuts.saturating_add(1);
        }
    }
    Ok(())
}

/// The name of a rule.
fn learn_rule<'a>(state: &mut State<'a>, sort: Sort, name: &'a [u8]) -> Result<(), AllocError>
    ensures { OnOk result (IsNewRule sort state.old.rules name.now → state.new ≡ ruled state.old sort name.now) }
{
    match sort {
        Sort::ViaRule => take_name(&mut state.rules, name),
        _ => Ok(()),
    }
}

/// Which layers and rules are known after a unit with this last word.
fn learn<'a>(state: &mut State<'a>, shape: Shape, last: &Word<'a>) -> Result<(), AllocError>
    ensures { OnOk result (IsReady state.old shape (token last.now) →
        state.new ≡ learnt state.old.place.section state.old shape (token last.now)) }
{
    match (state.place.section, shape) {
        (Section::Top, Shape::Two(word, _)) => learn_rule(state, word, last.text),
        (Section::LayerStart, Shape::Two(_, _)) => {
            state.layers.add(state.place.name.bytes(), None)
        }
        (Section::LayerStart, Shape::Three(_, kind, _)) => learn_type(state, kind),
        _ => Ok(()),
    }
}

/// What is known after one more unit, which names this layer and has this last word.
pub(crate) fn move_on<'a>(
    state: &mut State<'a>,
    shape: Shape,
    reference: Option<LayerRef>,
    last: &Word<'a>,
) -> Result<(), AllocError>
    ensures { OnOk result (IsReady state.old shape (token last.now) → state.new ≡ moved state.old shape reference (token last.now)) }
{
    let next = turn_of(state.place.section, reference, shape);
    learn(state, shape, last)?;
    turn(&mut state.place, last, next);
    Ok(())
}
