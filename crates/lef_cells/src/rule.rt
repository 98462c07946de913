//! The units of a LEF library, as rules.
ghost use Rattle.lef_cells.specs.Sort.{number_of};
ghost use Rattle.lef_cells.specs.Rule.{pattern};
ghost use Rattle.reading.specs.Rule.{IsRule};

use crate::section::Section;
use crate::sort::Sort;
use reading::Rule::{self, One, Or, Then};

/// A name is any bare word but `;`, also a keyword.
const NAME: Rule<'static, Sort> = Rule::Other(&[Sort::Semicolon, Sort::Quoted, Sort::TextEnd]);

/// In the place of a number stands any word but `;`, `(` and `)`.
const NUMBER: Rule<'static, Sort> = Rule::Other(&[Sort::Semicolon, Sort::Bracket, Sort::TextEnd]);

const SITE_HEAD: Rule<'static, Sort> = Then(&One(&[Sort::Site]), &NAME);

const MACRO_HEAD: Rule<'static, Sort> = Then(&One(&[Sort::Macro]), &NAME);

/// `LAYER name` and its like.
const PASSED_HEAD: Rule<'static, Sort> = Then(&One(&[Sort::NamedSection]), &NAME);

const PIN_HEAD: Rule<'static, Sort> = Then(&One(&[Sort::Pin]), &NAME);

const CLASS: Rule<'static, Sort> = Then(&One(&[Sort::Class]), &NAME);

const END: Rule<'static, Sort> = Then(&One(&[Sort::End]), &NAME);

const LIBRARY_END: Rule<'static, Sort> = Then(&One(&[Sort::End]), &One(&[Sort::Library]));

/// What stands after `SIZE w`.
const BY_HEIGHT: Rule<'static, Sort> = Then(
    &One(&[Sort::By]),
    &Then(&NUMBER, &One(&[Sort::Semicolon])),
);

const SIZE: Rule<'static, Sort> = Then(&One(&[Sort::Size]), &Then(&NUMBER, &BY_HEIGHT));

/// A word that begins what is passed over in the library, or the end of the text.
const OTHER: Rule<'static, Sort> = Rule::Other(&[
    Sort::Site,
    Sort::Macro,
    Sort::NamedSection,
    Sort::End,
    Sort::Semicolon,
]);

const LIBRARY: Rule<'static, Sort> = Or(
    &SITE_HEAD,
    &Or(&MACRO_HEAD, &Or(&PASSED_HEAD, &Or(&LIBRARY_END, &OTHER))),
);

/// A word that begins another statement of a site.
const OTHER_OF_SITE: Rule<'static, Sort> = Rule::Other(&[
    Sort::Size,
    Sort::End,
    Sort::Semicolon,
    Sort::TextEnd,
]);

const SITE: Rule<'static, Sort> = Or(&SIZE, &OTHER_OF_SITE);

/// A site may end after its SIZE.
const SIZED_SITE: Rule<'static, Sort> = Or(&END, &SITE);

/// A word that begins another statement or a group of a macro.
const OTHER_OF_MACRO: Rule<'static, Sort> = Rule::Other(&[
    Sort::Size,
    Sort::Class,
    Sort::Pin,
    Sort::End,
    Sort::Semicolon,
    Sort::TextEnd,
]);

const MACRO: Rule<'static, Sort> = Or(&SIZE, &Or(&CLASS, &Or(&PIN_HEAD, &OTHER_OF_MACRO)));

/// A macro may end after its SIZE.
const SIZED_MACRO: Rule<'static, Sort> = Or(&END, &MACRO);

/// The units of a section.
pub(crate) fn rule(section: Section) -> Rule<'static, Sort>
    ensures { IsRule number_of result (pattern section) }
{
    match section {
        Section::Top => LIBRARY,
        Section::Site => SITE,
        Section::SizedSite => SIZED_SITE,
        Section::Macro => MACRO,
        Section::SizedMacro => SIZED_MACRO,
        Section::Passed => Rule::Other(&[Sort::TextEnd]),
        Section::Ended => One(&[Sort::TextEnd]),
    }
}
