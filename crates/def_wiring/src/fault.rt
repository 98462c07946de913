//! The faults that the words of a unit show.
ghost use Rattle.std.specs.Prelude.{◌≡◌, ℕ, List, Some, None};
ghost use Rattle.def_wiring.specs.Fault.{CoordinateFault, SlantFault, UnknownFault, WordFault, shown_as, AtWord, LateFault, ViaEndFault, ViaPartFault, ViaFault, NetFault, FirstFault, TwiceFault, CountFault, SecondFault};
ghost use Rattle.def_wiring.specs.Record.{Asked, Said};
ghost use Rattle.def_wiring.specs.Sort.{sort_of};
ghost use Rattle.def_wiring.specs.inside.Fault.{here, sort_or};
ghost use Rattle.def_wiring.specs.inside.Held.{IsLate, Tells};
ghost use Rattle.reading.specs.Fault.{Finds};
ghost use Rattle.reading.specs.Word.{Token, token};

use crate::act::Act;
use crate::error::{Late, Shown, WiresKind};
use crate::held::Sections;
use crate::label::Words;
use crate::number::{Quantity, is_other, number_fault};
use crate::path::{Path, Point};
use crate::record::ViaDef;
use crate::section::Section;
use crate::sort::Sort;
use crate::standing::{Standing, told};
use crate::via::has_numbers;
use name_table::NameTable;
use named_entries::NamedEntries;
use reading::Word;

/// Why a coordinate is refused.
fn coordinate_fault(last: &Option<Point<'_>>, sort: Sort, text: &[u8]) -> Option<WiresKind>
    ensures { Finds (CoordinateFault last.now sort text.now) result }
{
    match sort {
        Sort::Star => star_fault(last),
        _ => number_fault(Quantity::Any, text),
    }
}

/// Why a `*` is refused.
fn star_fault(last: &Option<Point<'_>>) -> Option<WiresKind>
    ensures { (text : List ℕ) → Finds (CoordinateFault last.now Sort.Star text) result }
{
    match last {
        Some(_) => None,
        None => Some(WiresKind::Syntax),
    }
}

/// Why the second coordinate of a point is refused after this one: the segment is slanted.
fn slanted(point: &Point<'_>, x: &[u8], y: &[u8]) -> Option<WiresKind>
    ensures { Finds (SlantFault (Some point.now) x.now y.now) result }
{
    if !is_other(point.x.bytes(), x) {
        return None;
    }
    if !is_other(point.y.bytes(), y) {
        return None;
    }
    Some(WiresKind::WireForm)
}

/// Why a second coordinate is refused after the first.
fn slant_fault(last: &Option<Point<'_>>, x: &[u8], y: &[u8]) -> Option<WiresKind>
    ensures { Finds (SlantFault last.now x.now y.now) result }
{
    match last {
        Some(point) => slanted(point, x, y),
        None => None,
    }
}

/// Why the second coordinate of a point is refused.
fn second_fault_of(path: &Path<'_>, sort: Sort, text: &[u8]) -> Option<WiresKind>
    ensures { (vias : List (List ℕ)) (word : Token) → sort ≡ sort_of word → text.now ≡ word.text →
        Finds (WordFault vias Act.Y path.now word) result }
{
    match coordinate_fault(&path.last, sort, text) {
        Some(kind) => Some(kind),
        None => slant_fault(&path.last, path.x.bytes(), path.y_of(sort, text).bytes()),
    }
}

/// Why the name of a via is refused.
fn unknown_fault<'a>(vias: &NamedEntries<'a, ViaDef>, via: &'a [u8]) -> Option<WiresKind>
    ensures { Finds (UnknownFault vias.now.names via.now) result }
{
    if vias.contains(via) {
        None
    } else {
        Some(WiresKind::UnknownVia)
    }
}

/// What a word shows that does this.
pub(crate) fn word_fault<'a>(
    vias: &NamedEntries<'a, ViaDef>,
    act: Act,
    path: &Path<'a>,
    sort: Sort,
    word: &Word<'a>,
) -> Option<WiresKind>
    ensures { sort ≡ sort_of (token word.now) → Finds (WordFault vias.now.names act path.now (token word.now)) result }
{
    match act {
        Act::Misplaced | Act::Breaks => Some(WiresKind::Syntax),
        Act::NoWire => Some(WiresKind::WireForm),
        Act::NoVia => Some(WiresKind::ViaForm),
        Act::Number => number_fault(Quantity::Any, word.text),
        Act::Width => number_fault(Quantity::NotNegative, word.text),
        Act::Reach => number_fault(Quantity::NotNegative, word.text),
        Act::X => coordinate_fault(&path.last, sort, word.text),
        Act::Y => second_fault_of(path, sort, word.text),
        Act::Place => unknown_fault(vias, word.text),
        _ => None,
    }
}

/// The kind of the word itself.
fn here(kind: Option<WiresKind>) -> Option<Shown>
    ensures { result ≡ here kind }
{
    match kind {
        Some(kind) => Some(Shown::Here(kind)),
        None => None,
    }
}

/// What a word before shows, where it shows that its entry counts.
fn shown_as(late: Late) -> Shown
    ensures { result ≡ shown_as late.kind late }
{
    match late.kind {
        WiresKind::Syntax => Shown::Here(WiresKind::Syntax),
        _ => Shown::Earlier(late),
    }
}

/// What the words of an entry show where it shows that it counts.
fn late_fault(late: Option<Late>) -> Option<Shown>
    ensures { (vias : List (List ℕ)) (asked : List Asked) → IsLate vias asked late → Finds (LateFault vias asked) result }
{
    match late {
        Some(late) => Some(shown_as(late)),
        None => None,
    }
}

/// What the `;` of a generated via shows.
fn via_end_fault(late: Option<Late>, words: &Words<'_>) -> Option<Shown>
    ensures { (vias : List (List ℕ)) (asked : List Asked) → IsLate vias asked late →
        Finds (ViaEndFault vias asked words.now) result }
{
    if let Some(late) = late {
        return Some(shown_as(late));
    }
    if has_numbers(words) {
        None
    } else {
        Some(Shown::Here(WiresKind::Syntax))
    }
}

/// What a part of a generated via shows that is not read.
fn via_part_fault(late: Option<Late>, words: &Words<'_>) -> Option<Shown>
    ensures { (vias : List (List ℕ)) (asked : List Asked) → IsLate vias asked late →
        Finds (ViaPartFault vias asked words.now) result }
{
    if let Some(late) = late {
        return Some(shown_as(late));
    }
    if has_numbers(words) {
        Some(Shown::Here(WiresKind::ViaForm))
    } else {
        Some(Shown::Here(WiresKind::Syntax))
    }
}

/// What a word of an entry of VIAS shows that does this.
fn via_fault(act: Act, late: Option<Late>, words: &Words<'_>) -> Option<Shown>
    ensures { (vias : List (List ℕ)) (asked : List Asked) → IsLate vias asked late →
        Finds (ViaFault act vias asked words.now) result }
{
    match act {
        Act::EndsVia => via_end_fault(late, words),
        Act::NoVia => via_part_fault(late, words),
        _ => None,
    }
}

/// What the words before show where a word tells the use of a net.
fn use_fault(told: Option<bool>, late: Option<Late>) -> Option<Shown>
    ensures { (vias : List (List ℕ)) (before : List Asked) (asked : Asked) → IsLate vias before late →
        Finds (NetFault None told vias before asked) result }
{
    match told {
        Some(_) => late_fault(late),
        None => None,
    }
}

/// What a word of an entry of SPECIALNETS shows.
fn net_fault<'a>(
    said: &Sections<'a>,
    standing: &Standing<'a>,
    sort: Sort,
    word: &Word<'a>,
) -> Option<Shown>
    ensures { (before : Said) → Tells before said.now → sort ≡ sort_of (token word.now) →
        Finds (FirstFault Section.Net standing.now before (token word.now)) result }
{
    match standing.power {
        Some(_) => {
            let act = standing.act(Section::Net, sort);
            here(word_fault(&said.vias, act, &standing.path, sort, word))
        }
        None => use_fault(told(standing.cue, sort), said.late),
    }
}

/// Why the only word of a unit is refused.
pub(crate) fn first_fault<'a>(
    section: Section,
    said: &Sections<'a>,
    standing: &Standing<'a>,
    sort: Sort,
    word: &Word<'a>,
) -> Option<Shown>
    ensures { (before : Said) → Tells before said.now → sort ≡ sort_of (token word.now) →
        Finds (FirstFault section standing.now before (token word.now)) result }
{
    match section {
        Section::Via => {
            let act = standing.act(Section::Via, sort);
            via_fault(act, said.late, &standing.entry)
        }
        Section::Net => net_fault(said, standing, sort, word),
        _ => None,
    }
}

/// Why the name of an entry is refused.
fn twice_fault<'a>(names: &NameTable<'a>, first: Sort, name: &Word<'a>) -> Option<WiresKind>
    ensures { Finds (TwiceFault names.now first (token name.now)) result }
{
    match first {
        Sort::Minus => named_fault(names, name),
        _ => None,
    }
}

/// Why a name is refused after `-`.
fn named_fault<'a>(names: &NameTable<'a>, name: &Word<'a>) -> Option<WiresKind>
    ensures { Finds (TwiceFault names.now Sort.Minus (token name.now)) result }
{
    if names.contains(name.text) {
        Some(WiresKind::Twice)
    } else {
        None
    }
}

/// Why the number after VIAS or SPECIALNETS is refused.
fn count_fault(first: Sort, count: &Word<'_>) -> Option<WiresKind>
    ensures { Finds (CountFault first (token count.now)) result }
{
    match first {
        Sort::Vias => number_fault(Quantity::NotNegative, count.text),
        Sort::SpecialNets => number_fault(Quantity::NotNegative, count.text),
        _ => None,
    }
}

/// Why the second word of a unit is refused.
fn second_kind<'a>(
    section: Section,
    said: &Sections<'a>,
    first: Sort,
    second: &Word<'a>,
) -> Option<WiresKind>
    ensures { (before : Said) → Tells before said.now →
        Finds (SecondFault section before first (token second.now)) result }
{
    match section {
        Section::Top => count_fault(first, second),
        Section::Vias => twice_fault(&said.via_names, first, second),
        Section::Nets => twice_fault(&said.net_names, first, second),
        _ => None,
    }
}

/// What the second word of a unit shows.
pub(crate) fn second_fault<'a>(
    section: Section,
    said: &Sections<'a>,
    first: Sort,
    second: &Word<'a>,
) -> Option<Shown>
    ensures { (before : Said) → Tells before said.now →
        Finds (AtWord (SecondFault section before first (token second.now))) result }
{
    here(second_kind(section, said, first, second))
}

/// The sort of a word that shows nothing, or what it shows.
pub(crate) fn sort_or(shown: Option<Shown>, sort: Sort) -> Result<Sort, Shown>
    ensures { result ≡ sort_or shown sort }
{
    match shown {
        Some(shown) => Err(shown),
        None => Ok(sort),
    }
}
