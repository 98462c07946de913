//! What has been read of a bias file.
//!
//! The words of a whole unit come with what they say, so that no number is read here. What only takes a line apart has
//! no error.
ghost use Rattle.std.specs.Prelude.{[], IfOk, OnOk, ◌≡◌, ◌≤◌, ◌^◌, true, false, length, map, List, ℕ};
ghost use Rattle.entry_list.specs.InTurn.{InTurn};
ghost use Rattle.number_place.specs.declared.place.NumberPlace.{NumberPlace};
ghost use Rattle.reading.specs.Grammar.{AreHeard};
ghost use Rattle.reading.specs.Word.{heard_token};
ghost use Rattle.bias_file.specs.declared.sort.Sort.TheVariants as sorts;
ghost use Rattle.bias_file.specs.declared.value.Value.{Value as Said};
ghost use Rattle.bias_file.specs.Rule.{lines, has_value, has_range};
ghost use Rattle.bias_file.specs.Sort.{the};
ghost use Rattle.bias_file.specs.Record.{SaysSupply, SaysDropLimit, SaysAmps, SaysPad};
ghost use Rattle.bias_file.specs.inside.Held.{HoldsLines, HoldsLists, Holds, Takes, FindsVolts, FindsAmps};
ghost use Rattle.bias_file.specs.inside.Value.{IsWide, SaysThird, line_of, says};

use crate::record::{Amps, DropLimit, PadAt, Supply};
use crate::section::Section;
use crate::sort::Sort;
use crate::value::Value;
use named_entries::NamedEntries;
use outside::Name;
use reading::{Heard, Numbered};
use std::alloc::{AllocError, Global};

/// What the lines of each kind say.
#[derive(Drop)]
pub(crate) struct Lists<'a> {
    pub(crate) supplies: NamedEntries<'a, Supply>,
    pub(crate) drops: NamedEntries<'a, DropLimit>,
    pub(crate) pads: Vec<PadAt>,
    pub(crate) cells: NamedEntries<'a, Amps>,
    pub(crate) instances: NamedEntries<'a, Amps>,
}

impl<'a> Lists<'a> {
    fn new(alloc: Global) -> Result<Lists<'a>, AllocError>
        ensures { IfOk result (λ lists. HoldsLists [] lists) }
    {
        Ok(Lists {
            supplies: NamedEntries::new(alloc)?,
            drops: NamedEntries::new(alloc)?,
            pads: Vec::new(alloc),
            cells: NamedEntries::new(alloc)?,
            instances: NamedEntries::new(alloc)?,
        })
    }
}

/// What the units so far say, and where the next one stands.
#[derive(Drop)]
pub(crate) struct Held<'a> {
    pub(crate) lists: Lists<'a>,
    pub(crate) section: Section,
    pub(crate) alloc: Global,
}

impl<'a> Held<'a> {
    pub(crate) fn new(alloc: Global) -> Result<Held<'a>, AllocError>
        ensures { IfOk result (λ held. Holds [] held) }
    {
        Ok(Held {
            lists: Lists::new(alloc)?,
            section: Section::LineStart,
            alloc,
        })
    }
}

/// Whether the line begins with the word of this sort.
fn begins(first: &Heard<'_, Value>, word: Sort) -> bool
    ensures { result ≡ the word (line_of first.now.value) }
{
    first.value.line().number() == word.number()
}

/// A line `KEYWORD NET V`, taken apart.
struct NetVolts<'a> {
    /// The number of the line, from 1.
    line: u64,
    net: &'a [u8],
    /// The volts in yV.
    volts: i128,
}

/// A unit taken apart, if it is the line `KEYWORD NET V` with this first word.
fn net_volts<'a>(word: Sort, unit: &[Heard<'a, Value>]) -> Option<NetVolts<'a>>
    requires value { has_value word ≡ true }
    requires no_range { has_range word ≡ false }
    ensures { (place : NumberPlace) → place.limit ≤ 10 ^ 37 →
        ((text : List ℕ) (value : Said) → SaysThird word text value → IsWide place text value) →
        AreHeard says [] unit.now → FindsVolts word place (map heard_token unit.now) result }
{
    let [first, net, value, _] = unit else {
        return None;
    };
    if !begins(first, word) {
        return None;
    }
    Some(NetVolts {
        line: first.word.place.line,
        net: net.word.text,
        volts: value.value.wide(),
    })
}

/// What a unit says if it is `supply NET V`.
pub(crate) fn take_supply<'a>(
    supplies: &mut NamedEntries<'a, Supply>,
    alloc: Global,
    unit: &[Heard<'a, Value>],
) -> Result<(), AllocError>
    ensures { OnOk result (AreHeard says [] unit.now → Takes (HoldsLines SaysSupply sorts.Supply supplies.old)
        (HoldsLines SaysSupply sorts.Supply supplies.new) (map heard_token unit.now)) }
{
    let Some(NetVolts { line, net, volts }) = net_volts(Sort::Supply, unit) else {
        return Ok(());
    };
    let supply = Supply {
        line,
        net: Name::new(alloc, net)?,
        volts,
    };
    supplies.add(net, supply)
}

/// What a unit says if it is `droplimit NET V`.
pub(crate) fn take_drop<'a>(
    drops: &mut NamedEntries<'a, DropLimit>,
    alloc: Global,
    unit: &[Heard<'a, Value>],
) -> Result<(), AllocError>
    ensures { OnOk result (AreHeard says [] unit.now → Takes (HoldsLines SaysDropLimit sorts.DropLimit drops.old)
        (HoldsLines SaysDropLimit sorts.DropLimit drops.new) (map heard_token unit.now)) }
{
    let Some(NetVolts { line, net, volts }) = net_volts(Sort::DropLimit, unit) else {
        return Ok(());
    };
    let limit = DropLimit {
        line,
        net: Name::new(alloc, net)?,
        volts,
    };
    drops.add(net, limit)
}

/// What a unit says if it is `pad NET LAYER x y`.
pub(crate) fn take_pad(
    pads: &mut Vec<PadAt>,
    alloc: Global,
    unit: &[Heard<'_, Value>],
) -> Result<(), AllocError>
    ensures { OnOk result (AreHeard says [] unit.now → Takes (λ units. InTurn SaysPad (lines sorts.Pad units) pads.old.items)
        (λ units. InTurn SaysPad (lines sorts.Pad units) pads.new.items) (map heard_token unit.now)) }
{
    let [first, net, layer, x, y, _] = unit else {
        return Ok(());
    };
    if !begins(first, Sort::Pad) {
        return Ok(());
    }
    pads.push(PadAt {
        line: first.word.place.line,
        x: x.value.small(),
        y: y.value.small(),
        net: Name::new(alloc, net.word.text)?,
        layer: Name::new(alloc, layer.word.text)?,
    })?;
    Ok(())
}

/// A line of a current, taken apart.
struct NameAmps<'a> {
    /// The number of the line, from 1.
    line: u64,
    name: &'a [u8],
    /// The least current in fA.
    low: i64,
    /// The greatest current in fA.
    high: i64,
}

/// The same of four words: `cell MACRO I` or `instance NAME I`.
fn one_current<'a>(word: Sort, unit: &[Heard<'a, Value>]) -> Option<NameAmps<'a>>
    requires word { has_range word ≡ true }
    requires four { length unit.now ≡ 4 }
    ensures { AreHeard says [] unit.now → FindsAmps word (map heard_token unit.now) result }
{
    let [first, name, value, _] = unit else {
        unreachable!();
    };
    if !begins(first, word) {
        return None;
    }
    let current = value.value.small();
    Some(NameAmps {
        line: first.word.place.line,
        name: name.word.text,
        low: current,
        high: current,
    })
}

/// The same of five words: `cell MACRO LOW HIGH` or `instance NAME LOW HIGH`.
fn current_range<'a>(word: Sort, unit: &[Heard<'a, Value>]) -> Option<NameAmps<'a>>
    requires word { has_range word ≡ true }
    requires five { length unit.now ≡ 5 }
    ensures { AreHeard says [] unit.now → FindsAmps word (map heard_token unit.now) result }
{
    let [first, name, low, high, _] = unit else {
        unreachable!();
    };
    if !begins(first, word) {
        return None;
    }
    let least = low.value.small();
    let greatest = high.value.small();
    Some(NameAmps {
        line: first.word.place.line,
        name: name.word.text,
        low: least,
        high: greatest,
    })
}

/// A unit taken apart, if it is a line of a current with this first word.
fn name_amps<'a>(word: Sort, unit: &[Heard<'a, Value>]) -> Option<NameAmps<'a>>
    requires { has_range word ≡ true }
    ensures { AreHeard says [] unit.now → FindsAmps word (map heard_token unit.now) result }
{
    match unit.len() {
        4 => one_current(word, unit),
        5 => current_range(word, unit),
        _ => None,
    }
}

/// What a unit says if it is a line of a current with this first word.
pub(crate) fn take_amps<'a>(
    currents: &mut NamedEntries<'a, Amps>,
    word: Sort,
    alloc: Global,
    unit: &[Heard<'a, Value>],
) -> Result<(), AllocError>
    requires { has_range word ≡ true }
    ensures { OnOk result (AreHeard says [] unit.now → Takes (HoldsLines SaysAmps word currents.old) (HoldsLines SaysAmps word currents.new)
        (map heard_token unit.now)) }
{
    let Some(
        NameAmps {
            line,
            name,
            low,
            high,
        },
    ) = name_amps(word, unit)
    else {
        return Ok(());
    };
    let entry = Amps {
        line,
        name: Name::new(alloc, name)?,
        low,
        high,
    };
    currents.add(name, entry)
}
