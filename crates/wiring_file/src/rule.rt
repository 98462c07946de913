//! The units of a written wiring, as rules.
ghost use Rattle.wiring_file.specs.Sort.{number_of};
ghost use Rattle.wiring_file.specs.Rule.{pattern};
ghost use Rattle.reading.specs.Rule.{IsRule};

use crate::section::Section;
use crate::sort::Sort;
use reading::Rule::{self, One, Or, Other, Then};

// Words one after the other.
macro_rules! in_turn {
    ($last:expr) => { $last };
    ($first:expr, $($rest:expr),+) => { Then(&$first, &in_turn!($($rest),+)) };
}

/// A name is any bare word but `;`.
const NAME: Rule<'static, Sort> = Other(&[
    Sort::Semicolon,
    Sort::Slash,
    Sort::Brackets,
    Sort::Quoted,
    Sort::TextEnd,
]);

/// In the place of a number stands any word but `;`, `(` and `)`.
const NUMBER: Rule<'static, Sort> = Other(&[
    Sort::Semicolon,
    Sort::Open,
    Sort::Close,
    Sort::TextEnd,
]);

/// In the place of a via's name stands any name but `(`.
const VIA_NAME: Rule<'static, Sort> = Other(&[
    Sort::Semicolon,
    Sort::Open,
    Sort::Slash,
    Sort::Brackets,
    Sort::Quoted,
    Sort::TextEnd,
]);

const SEMICOLON: Rule<'static, Sort> = One(&[Sort::Semicolon]);

const OPEN: Rule<'static, Sort> = One(&[Sort::Open]);

const CLOSE: Rule<'static, Sort> = One(&[Sort::Close]);

const PLUS: Rule<'static, Sort> = One(&[Sort::Plus]);

const MINUS: Rule<'static, Sort> = One(&[Sort::Minus]);

const END: Rule<'static, Sort> = One(&[Sort::End]);

const VIAS_WORD: Rule<'static, Sort> = One(&[Sort::Vias]);

const NETS_WORD: Rule<'static, Sort> = One(&[Sort::SpecialNets]);

const SHAPE: Rule<'static, Sort> = One(&[Sort::Stripe, Sort::Drawn]);

const VERSION: Rule<'static, Sort> = in_turn!(
    One(&[Sort::Version]),
    One(&[Sort::Edition]),
    SEMICOLON
);

const DIVIDER: Rule<'static, Sort> = in_turn!(
    One(&[Sort::DividerChar]),
    One(&[Sort::Slash]),
    SEMICOLON
);

const BUS_BITS: Rule<'static, Sort> = in_turn!(
    One(&[Sort::BusBitChars]),
    One(&[Sort::Brackets]),
    SEMICOLON
);

const DESIGN: Rule<'static, Sort> = in_turn!(One(&[Sort::Design]), NAME, SEMICOLON);

const UNITS: Rule<'static, Sort> = in_turn!(
    One(&[Sort::Units]),
    One(&[Sort::Distance]),
    One(&[Sort::Microns]),
    NUMBER,
    SEMICOLON
);

const DIE: Rule<'static, Sort> = in_turn!(
    One(&[Sort::DieArea]),
    OPEN,
    NUMBER,
    NUMBER,
    CLOSE,
    OPEN,
    NUMBER,
    NUMBER,
    CLOSE,
    SEMICOLON
);

const VIAS_HEAD: Rule<'static, Sort> = in_turn!(VIAS_WORD, NUMBER, SEMICOLON);

/// `- name + VIARULE rule + CUTSIZE x y + LAYERS lower cut upper + CUTSPACING x y + ENCLOSURE x y x y + ROWCOL r c ;`.
const VIA: Rule<'static, Sort> = in_turn!(
    MINUS,
    NAME,
    PLUS,
    One(&[Sort::ViaRule]),
    NAME,
    PLUS,
    One(&[Sort::CutSize]),
    NUMBER,
    NUMBER,
    PLUS,
    One(&[Sort::Layers]),
    NAME,
    NAME,
    NAME,
    PLUS,
    One(&[Sort::CutSpacing]),
    NUMBER,
    NUMBER,
    PLUS,
    One(&[Sort::Enclosure]),
    NUMBER,
    NUMBER,
    NUMBER,
    NUMBER,
    PLUS,
    One(&[Sort::RowCol]),
    NUMBER,
    NUMBER,
    SEMICOLON
);

const VIAS: Rule<'static, Sort> = Or(&VIA, &in_turn!(END, VIAS_WORD));

const NETS_HEAD: Rule<'static, Sort> = in_turn!(NETS_WORD, NUMBER, SEMICOLON);

/// `- name + USE POWER`, or `GROUND`.
const NET: Rule<'static, Sort> = in_turn!(
    MINUS,
    NAME,
    PLUS,
    One(&[Sort::Use]),
    One(&[Sort::Supply])
);

const NETS: Rule<'static, Sort> = Or(&NET, &in_turn!(END, NETS_WORD));

const FIRST: Rule<'static, Sort> = Or(&in_turn!(PLUS, One(&[Sort::Routed])), &SEMICOLON);

/// `layer width + SHAPE shape ( x y )`, and another point or a via.
const LINE: Rule<'static, Sort> = in_turn!(
    NAME,
    NUMBER,
    PLUS,
    One(&[Sort::Shape]),
    SHAPE,
    OPEN,
    NUMBER,
    NUMBER,
    CLOSE,
    Or(&in_turn!(OPEN, NUMBER, NUMBER, CLOSE), &VIA_NAME)
);

const NEXT: Rule<'static, Sort> = Or(&One(&[Sort::New]), &SEMICOLON);

const DESIGN_END: Rule<'static, Sort> = in_turn!(END, One(&[Sort::Design]));

/// The units of a section.
pub(crate) fn rule(section: Section) -> Rule<'static, Sort>
    ensures { IsRule number_of result (pattern section) }
{
    match section {
        Section::Version => VERSION,
        Section::DividerChar => DIVIDER,
        Section::BusBitChars => BUS_BITS,
        Section::Design => DESIGN,
        Section::Units => UNITS,
        Section::Die => DIE,
        Section::ViasHead => VIAS_HEAD,
        Section::Vias => VIAS,
        Section::NetsHead => NETS_HEAD,
        Section::Nets => NETS,
        Section::First => FIRST,
        Section::Line => LINE,
        Section::Next => NEXT,
        Section::DesignEnd => DESIGN_END,
        Section::Ended => One(&[Sort::TextEnd]),
    }
}
