//! Whole units into what has been read. Each word comes with the number that it says.
ghost use Rattle.std.specs.Prelude.{◌≡◌, ◌<◌, [], true, false, pos, Some, length, map, OnOk, IfOk, if◌then◌else◌};
ghost use Rattle.reading.specs.Grammar.{AreHeard};
ghost use Rattle.reading.specs.Word.{heard_token};
ghost use Rattle.wiring_file.specs.declared.number.Quantity.TheVariants.{NotNegative};
ghost use Rattle.wiring_file.specs.declared.section.Section.{Section as In};
ghost use Rattle.wiring_file.specs.declared.section.Section.TheVariants as sections;
ghost use Rattle.wiring_file.specs.Fault.{Says};
ghost use Rattle.wiring_file.specs.Number.{numbers_in, quantity_at};
ghost use Rattle.wiring_file.specs.Record.{SaysVia, SaysWire, SaysPlace};
ghost use Rattle.wiring_file.specs.Standing.{Standing};
ghost use Rattle.wiring_file.specs.Unit.{text_at, is_place, ends_net};
ghost use Rattle.wiring_file.specs.inside.Held.{Takes, next_section, counts_list};
ghost use Rattle.wiring_file.specs.inside.Value.{says};

use crate::held::Held;
use crate::record::{PlaceText, ViaText, WireText};
use crate::section::Section;
use crate::unit::{ends_net, is_entry, is_place, text_at, value_at};
use number_place::values_fit_their_places;
use outside::Name;
use reading::Heard;
use std::alloc::{AllocError, Global};

/// The section after one in which each unit leads to the next.
pub(crate) fn next_section(section: Section) -> Section
    ensures { result ≡ next_section section }
{
    match section {
        Section::Version => Section::DividerChar,
        Section::DividerChar => Section::BusBitChars,
        Section::BusBitChars => Section::Design,
        Section::Design => Section::Units,
        Section::Units => Section::Die,
        Section::Die => Section::ViasHead,
        _ => Section::Ended,
    }
}

/// The word that has n words before it, as a name.
fn word(alloc: Global, n: usize, unit: &[Heard<'_, i64>]) -> Result<Name, AllocError>
    ensures { IfOk result (λ name. name ≡ text_at n (map heard_token unit.now)) }
{
    Name::new(alloc, text_at(n, unit))
}

/// A via.
fn via_text(alloc: Global, unit: &[Heard<'_, i64>]) -> Result<ViaText, AllocError>
    ensures { IfOk result (λ via. (s : Standing) → AreHeard (says sections.Vias) [] unit.now → 27 < length unit.now →
        SaysVia (s, map heard_token unit.now) via) }
{
    let name = word(alloc, 1, unit)?;
    let rule = word(alloc, 4, unit)?;
    let lower = word(alloc, 11, unit)?;
    let cut = word(alloc, 12, unit)?;
    let upper = word(alloc, 13, unit)?;
    Ok(ViaText {
        name,
        rule,
        cut_x: value_at(7, unit),
        cut_y: value_at(8, unit),
        lower,
        cut,
        upper,
        gap_x: value_at(16, unit),
        gap_y: value_at(17, unit),
        lower_x: value_at(20, unit),
        lower_y: value_at(21, unit),
        upper_x: value_at(22, unit),
        upper_y: value_at(23, unit),
        rows: value_at(26, unit),
        columns: value_at(27, unit),
    })
}

/// A line of a piece of this net.
fn wire_text(alloc: Global, net: &Name, unit: &[Heard<'_, i64>]) -> Result<WireText, AllocError>
    ensures { IfOk result (λ wire. (s : Standing) → net.now ≡ s.net → AreHeard (says sections.Line) [] unit.now →
        11 < length unit.now → SaysWire (s, map heard_token unit.now) wire) }
{
    Ok(WireText {
        net: Name::new(alloc, net.bytes())?,
        layer: word(alloc, 0, unit)?,
        width: value_at(1, unit),
        shape: word(alloc, 4, unit)?,
        x1: value_at(6, unit),
        y1: value_at(7, unit),
        x2: value_at(10, unit),
        y2: value_at(11, unit),
    })
}

/// A line of an array of this net.
fn place_text(alloc: Global, net: &Name, unit: &[Heard<'_, i64>]) -> Result<PlaceText, AllocError>
    ensures { IfOk result (λ place. (s : Standing) → net.now ≡ s.net → AreHeard (says sections.Line) [] unit.now →
        7 < length unit.now → SaysPlace (s, map heard_token unit.now) place) }
{
    Ok(PlaceText {
        net: Name::new(alloc, net.bytes())?,
        layer: word(alloc, 0, unit)?,
        x: value_at(6, unit),
        y: value_at(7, unit),
        via: word(alloc, 9, unit)?,
    })
}

/// How many entries a head says that its list has.
fn count(unit: &[Heard<'_, i64>]) -> u64
    ensures { (section : In) → quantity_at 1 (numbers_in section) ≡ Some NotNegative → AreHeard (says section) [] unit.now →
        1 < length unit.now → Says NotNegative 1 (map heard_token unit.now) (pos result) }
{
    values_fit_their_places();
    value_at(1, unit).unsigned_abs()
}

/// The head of a list of entries.
pub(crate) fn take_count(said: &mut Held, unit: &[Heard<'_, i64>], section: Section)
    ensures { counts_list said.old.section section → Takes said.old unit.now said.new }
{
    said.count = count(unit);
    said.entries = 0;
    said.section = section;
}

/// A via, or the end of the vias.
pub(crate) fn take_via(said: &mut Held, unit: &[Heard<'_, i64>]) -> Result<(), AllocError>
    ensures { said.old.section ≡ sections.Vias → OnOk result (Takes said.old unit.now said.new) }
{
    if !is_entry(unit) {
        said.section = Section::NetsHead;
        return Ok(());
    }
    let via = via_text(said.alloc, unit)?;
    said.vias.push(via)?;
    said.entries = said.entries.saturating_add(1);
    Ok(())
}

/// The head of a net, or the end of the nets.
pub(crate) fn take_net(said: &mut Held, unit: &[Heard<'_, i64>]) -> Result<(), AllocError>
    ensures { said.old.section ≡ sections.Nets → OnOk result (Takes said.old unit.now said.new) }
{
    if !is_entry(unit) {
        said.section = Section::DesignEnd;
        return Ok(());
    }
    said.net = word(said.alloc, 1, unit)?;
    said.entries = said.entries.saturating_add(1);
    said.section = Section::First;
    said.placed = false;
    Ok(())
}

/// Where the unit leads that begins a line or ends a net.
fn start_section(unit: &[Heard<'_, i64>]) -> Section
    ensures { result ≡ (if ends_net (map heard_token unit.now) then Section.Nets else Section.Line) }
{
    if ends_net(unit) {
        Section::Nets
    } else {
        Section::Line
    }
}

/// How a line begins, or the end of a net.
pub(crate) fn take_start(said: &mut Held, unit: &[Heard<'_, i64>])
    ensures first { said.old.section ≡ sections.First → Takes said.old unit.now said.new }
    ensures next { said.old.section ≡ sections.Next → Takes said.old unit.now said.new }
{
    said.section = start_section(unit);
}

/// A line of wiring.
pub(crate) fn take_line(said: &mut Held, unit: &[Heard<'_, i64>]) -> Result<(), AllocError>
    ensures { said.old.section ≡ sections.Line → OnOk result (Takes said.old unit.now said.new) }
{
    if is_place(unit) {
        take_place(said, unit)
    } else {
        take_wire(said, unit)
    }
}

/// A line that has a via.
fn take_place(said: &mut Held, unit: &[Heard<'_, i64>]) -> Result<(), AllocError>
    ensures { said.old.section ≡ sections.Line → is_place (map heard_token unit.now) ≡ true →
        OnOk result (Takes said.old unit.now said.new) }
{
    let place = place_text(said.alloc, &said.net, unit)?;
    said.places.push(place)?;
    said.placed = true;
    said.section = Section::Next;
    Ok(())
}

/// A line that goes to another point.
fn take_wire(said: &mut Held, unit: &[Heard<'_, i64>]) -> Result<(), AllocError>
    ensures { said.old.section ≡ sections.Line → is_place (map heard_token unit.now) ≡ false →
        OnOk result (Takes said.old unit.now said.new) }
{
    let wire = wire_text(said.alloc, &said.net, unit)?;
    said.wires.push(wire)?;
    said.placed = false;
    said.section = Section::Next;
    Ok(())
}
