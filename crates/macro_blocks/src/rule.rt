//! The units of a LEF library, as rules.
ghost use Rattle.macro_blocks.specs.Sort.{number_of};
ghost use Rattle.macro_blocks.specs.Rule.{pattern};
ghost use Rattle.reading.specs.Rule.{IsRule};

use crate::section::Section;
use crate::sort::Sort;
use reading::Rule::{self, One, Or, Then};

/// Any word.
const WORD: Rule<'static, Sort> = Rule::Other(&[Sort::TextEnd]);

/// A name is any bare word but `;`, also a keyword.
const NAME: Rule<'static, Sort> = Rule::Other(&[Sort::Semicolon, Sort::Quoted, Sort::TextEnd]);

/// In the place of a number stands any word but `;`, `(` and `)`.
const NUMBER: Rule<'static, Sort> = Rule::Other(&[Sort::Semicolon, Sort::Bracket, Sort::TextEnd]);

const MACRO_HEAD: Rule<'static, Sort> = Then(&One(&[Sort::Macro]), &NAME);

/// `LAYER name` and its like.
const PASSED_HEAD: Rule<'static, Sort> = Then(&One(&[Sort::NamedSection, Sort::Layer]), &NAME);

const LIBRARY_END: Rule<'static, Sort> = Then(&One(&[Sort::End]), &One(&[Sort::Library]));

/// A word that begins what else is passed over in the library, or the end of the text.
const OTHER: Rule<'static, Sort> = Rule::Other(&[
    Sort::Macro,
    Sort::NamedSection,
    Sort::Layer,
    Sort::End,
    Sort::Semicolon,
]);

const LIBRARY: Rule<'static, Sort> = Or(&MACRO_HEAD, &Or(&PASSED_HEAD, &Or(&LIBRARY_END, &OTHER)));

const END: Rule<'static, Sort> = Then(&One(&[Sort::End]), &NAME);

const ORIGIN: Rule<'static, Sort> = Then(
    &One(&[Sort::Origin]),
    &Then(&NUMBER, &Then(&NUMBER, &One(&[Sort::Semicolon]))),
);

const PIN_HEAD: Rule<'static, Sort> = Then(&One(&[Sort::Pin]), &NAME);

/// `OBS`, or a word that begins another statement or a group of a macro.
const OTHER_OF_MACRO: Rule<'static, Sort> = Rule::Other(&[
    Sort::End,
    Sort::Origin,
    Sort::Pin,
    Sort::Semicolon,
    Sort::TextEnd,
]);

const MACRO: Rule<'static, Sort> = Or(&END, &Or(&ORIGIN, &Or(&PIN_HEAD, &OTHER_OF_MACRO)));

const USE: Rule<'static, Sort> = Then(&One(&[Sort::Use]), &WORD);

const PIN_END: Rule<'static, Sort> = Then(&One(&[Sort::End]), &WORD);

/// `PORT`, a `;`, or a word that begins another statement of a pin.
const OTHER_OF_PIN: Rule<'static, Sort> = Rule::Other(&[Sort::Use, Sort::End, Sort::TextEnd]);

const PIN: Rule<'static, Sort> = Or(&USE, &Or(&PIN_END, &OTHER_OF_PIN));

const LAYER: Rule<'static, Sort> = Then(&One(&[Sort::Layer]), &WORD);

/// `END`, a `;`, or a word that begins another statement of a port or of obstructions.
const OTHER_OF_PORT: Rule<'static, Sort> = Rule::Other(&[Sort::Layer, Sort::TextEnd]);

const PORT: Rule<'static, Sort> = Or(&LAYER, &OTHER_OF_PORT);

/// A word that ends a RECT in the place of a number.
const BREAKS: Rule<'static, Sort> = One(&[Sort::Semicolon, Sort::Bracket, Sort::Use]);

/// A word with which a RECT goes on in the place of a number.
const GOES_ON: Rule<'static, Sort> = Rule::Other(&[
    Sort::Semicolon,
    Sort::Bracket,
    Sort::Use,
    Sort::TextEnd,
]);

/// The last number of a RECT and the word after it.
const LAST_CORNER: Rule<'static, Sort> = Or(&BREAKS, &Then(&GOES_ON, &WORD));

const THIRD_CORNER: Rule<'static, Sort> = Or(&BREAKS, &Then(&GOES_ON, &LAST_CORNER));

const SECOND_CORNER: Rule<'static, Sort> = Or(&BREAKS, &Then(&GOES_ON, &THIRD_CORNER));

const CORNERS: Rule<'static, Sort> = Or(&BREAKS, &Then(&GOES_ON, &SECOND_CORNER));

/// `RECT x1 y1 x2 y2 ;`, or its words up to the one that cannot stand there.
const RECT: Rule<'static, Sort> = Then(&One(&[Sort::Rect]), &CORNERS);

const OTHER_OF_LAYER: Rule<'static, Sort> = Rule::Other(&[Sort::Layer, Sort::Rect, Sort::TextEnd]);

/// A port or obstructions after a LAYER.
const LAYERED: Rule<'static, Sort> = Or(&LAYER, &Or(&RECT, &OTHER_OF_LAYER));

/// The units of a section.
pub(crate) fn rule(section: Section) -> Rule<'static, Sort>
    ensures { IsRule number_of result (pattern section) }
{
    match section {
        Section::Top => LIBRARY,
        Section::Macro => MACRO,
        Section::Pin => PIN,
        Section::Supplied => One(&[Sort::Semicolon]),
        Section::Port => PORT,
        Section::Layered => LAYERED,
        Section::Unfit => WORD,
        Section::Passed => WORD,
        Section::Ended => One(&[Sort::TextEnd]),
    }
}
