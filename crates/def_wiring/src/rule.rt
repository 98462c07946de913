//! The units of a design, as rules.
ghost use Rattle.std.specs.Prelude.{◌≡◌};
ghost use Rattle.def_wiring.specs.Rule.{is_name, is_number, pattern};
ghost use Rattle.def_wiring.specs.Sort.{number_of};
ghost use Rattle.reading.specs.Rule.{IsRule};

use crate::section::Section;
use crate::sort::Sort;
use reading::Rule::{self, One, Or, Then};

/// Any word.
const WORD: Rule<'static, Sort> = Rule::Other(&[Sort::TextEnd]);

/// A name is any bare word but `;`, also a keyword.
const NAME: Rule<'static, Sort> = Rule::Other(&[Sort::Semicolon, Sort::Quoted, Sort::TextEnd]);

/// In the place of a number stands any word but `;`, `(` and `)`.
const NUMBER: Rule<'static, Sort> = Rule::Other(&[
    Sort::Semicolon,
    Sort::Open,
    Sort::Close,
    Sort::TextEnd,
]);

/// `VIAS n ;` and `SPECIALNETS n ;`.
const SECTION_HEAD: Rule<'static, Sort> = Then(
    &One(&[Sort::Vias, Sort::SpecialNets]),
    &Then(&NUMBER, &One(&[Sort::Semicolon])),
);

const DESIGN_END: Rule<'static, Sort> = Then(&One(&[Sort::End]), &One(&[Sort::Design]));

/// A word that begins what is passed over.
const OTHER: Rule<'static, Sort> = Rule::Other(&[
    Sort::Semicolon,
    Sort::Vias,
    Sort::SpecialNets,
    Sort::End,
    Sort::TextEnd,
]);

const TOP: Rule<'static, Sort> = Or(&SECTION_HEAD, &Or(&DESIGN_END, &OTHER));

/// `- name`, which begins an entry.
const ENTRY: Rule<'static, Sort> = Then(&One(&[Sort::Minus]), &NAME);

const VIAS: Rule<'static, Sort> = Or(&ENTRY, &Then(&One(&[Sort::End]), &One(&[Sort::Vias])));

const NETS: Rule<'static, Sort> = Or(
    &ENTRY,
    &Then(&One(&[Sort::End]), &One(&[Sort::SpecialNets])),
);

/// The units of a section.
pub(crate) fn rule(section: Section) -> Rule<'static, Sort>
    ensures { IsRule number_of result (pattern section) }
{
    match section {
        Section::Top => TOP,
        Section::Vias => VIAS,
        Section::Via => WORD,
        Section::Nets => NETS,
        Section::Net => WORD,
        Section::Passed => WORD,
        Section::Ended => One(&[Sort::TextEnd]),
    }
}

/// Whether the sort is one of a name.
pub(crate) fn is_name(sort: Sort) -> bool
    ensures { result ≡ is_name sort }
{
    match sort {
        Sort::Semicolon | Sort::Quoted | Sort::TextEnd => false,
        _ => true,
    }
}

/// Whether the sort may stand in the place of a number.
pub(crate) fn is_number(sort: Sort) -> bool
    ensures { result ≡ is_number sort }
{
    match sort {
        Sort::Semicolon | Sort::Open | Sort::Close | Sort::TextEnd => false,
        _ => true,
    }
}
