//! The words of a refusal of a drawing.
ghost use Rattle.std.specs.Prelude.{◌≡◌, ◌++◌, IfOk, OnOk, codes};
ghost use Rattle.refusal_words.specs.Name.{domain_name};
ghost use Rattle.refusal_words.specs.Words.{draw_words, stack_words, touch_words, point_words, counted_word, truth_word};

use crate::append::{append_named, append_point, append_rect, named, numbered};
use crate::name::{component_name, domain_name, layer_name, row_name, rule_name};
use def_design::Design;
use grid_pieces::{Counted, DrawError, Touching};
use lef_tech::Tech;
use pdn_script::Script;
use std::alloc::{AllocError, Global};
use via_arrays::StackError;

/// The words of a refusal of a drawing of this technology, design and script, without the end of the line. Names stand
/// as they are, whatever bytes they have.
///
/// Want of memory has the word `Want`, which a caller that answers it as that never prints.
pub fn draw_words(
    alloc: Global,
    tech: &Tech,
    design: &Design,
    script: &Script,
    error: &DrawError,
) -> Result<Vec<u8>, AllocError>
    ensures { IfOk result (λ words. words.items ≡ draw_words tech.now design.now script.now error.now) }
{
    match error {
        DrawError::UnknownName(name) => named(alloc, b"UnknownName ", name.bytes()),
        DrawError::RingLayers(ring) => numbered(alloc, b"RingLayers ", *ring as u64),
        DrawError::RailLayer(layer) => named(alloc, b"RailLayer ", layer_name(tech, *layer)),
        DrawError::ParallelConnect(at) => numbered(alloc, b"ParallelConnect ", *at as u64),
        DrawError::NoRows => Vec::from_slice(alloc, b"NoRows"),
        DrawError::OffGrid(length) => numbered(alloc, b"OffGrid ", *length),
        DrawError::OddWidth(width) => numbered(alloc, b"OddWidth ", *width),
        DrawError::RegionShape(of) => named(alloc, b"RegionShape ", domain_name(script, *of)),
        DrawError::RegionsMeet(first, second) => regions_meet(alloc, script, *first, *second),
        DrawError::RowAcross(row) => named(alloc, b"RowAcross ", row_name(design, *row)),
        DrawError::EmptyDomain(of) => named(alloc, b"EmptyDomain ", domain_name(script, *of)),
        DrawError::MacroGrid(over) => named(alloc, b"MacroGrid ", component_name(design, *over)),
        DrawError::TooMany(what) => named(alloc, b"TooMany ", counted_word(*what)),
        DrawError::NoSheet(layer) => named(alloc, b"NoSheet ", layer_name(tech, *layer)),
        DrawError::Stack(error, x, y) => no_stack(alloc, tech, *error, *x, *y),
        DrawError::Touch(touching) => touches(alloc, tech, *touching),
        DrawError::Want => Vec::from_slice(alloc, b"Want"),
    }
}

fn regions_meet(
    alloc: Global,
    script: &Script,
    first: u32,
    second: u32,
) -> Result<Vec<u8>, AllocError>
    ensures { IfOk result (λ words. words.items
        ≡ codes "RegionsMeet " ++ domain_name script.now first ++ codes " " ++ domain_name script.now second) }
{
    let mut words = named(alloc, b"RegionsMeet ", domain_name(script, first))?;
    words.push(b' ')?;
    words.extend_from_slice(domain_name(script, second))?;
    Ok(words)
}

fn counted_word(what: Counted) -> &'static [u8]
    ensures { result.now ≡ counted_word what }
{
    match what {
        Counted::Lines => b"Lines",
        Counted::Pieces => b"Pieces",
        Counted::Stacks => b"Stacks",
    }
}

fn no_stack(
    alloc: Global,
    tech: &Tech,
    error: StackError,
    x: i64,
    y: i64,
) -> Result<Vec<u8>, AllocError>
    ensures { IfOk result (λ words. words.items
        ≡ codes "Stack " ++ stack_words tech.now error ++ codes " " ++ point_words x y) }
{
    let mut words = Vec::from_slice(alloc, b"Stack ")?;
    append_cause(&mut words, tech, error)?;
    append_point(&mut words, x, y)?;
    Ok(words)
}

// Appends why no stack can stand.
fn append_cause(words: &mut Vec<u8>, tech: &Tech, error: StackError) -> Result<(), AllocError>
    ensures { OnOk result (words.new.items ≡ words.old.items ++ stack_words tech.now error) }
{
    match error {
        StackError::NoRule(layer) => append_named(words, b"NoRule ", layer_name(tech, layer)),
        StackError::OffGrid(rule) => append_named(words, b"OffGrid ", rule_name(tech, rule)),
        StackError::NoCutFits(layer) => append_named(words, b"NoCutFits ", layer_name(tech, layer)),
        StackError::NoResistance(at) => append_named(words, b"NoResistance ", layer_name(tech, at)),
        StackError::Want => words.extend_from_slice(b"Want"),
    }
}

pub(crate) fn touches(alloc: Global, tech: &Tech, touching: Touching) -> Result<Vec<u8>, AllocError>
    ensures { IfOk result (λ words. words.items ≡ codes "Touch " ++ touch_words tech.now touching) }
{
    let mut words = named(alloc, b"Touch ", layer_name(tech, touching.layer))?;
    append_rect(&mut words, touching.first)?;
    append_rect(&mut words, touching.second)?;
    words.push(b' ')?;
    words.extend_from_slice(truth_word(touching.same))?;
    Ok(words)
}

fn truth_word(truth: bool) -> &'static [u8]
    ensures { result.now ≡ truth_word truth }
{
    if truth { b"true" } else { b"false" }
}
