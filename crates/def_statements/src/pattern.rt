//! The units of a design, as rules.
ghost use Rattle.def_statements.specs.Pattern.{pattern};
ghost use Rattle.def_statements.specs.Sort.{number_of};
ghost use Rattle.reading.specs.Rule.{IsRule};

use crate::section::Section;
use crate::sort::Sort;
use reading::Rule::{self, One, Or, Then};

/// A name is any bare word but `;`, also a keyword.
const NAME: Rule<'static, Sort> = Rule::Other(&[Sort::Semicolon, Sort::Quoted, Sort::TextEnd]);

/// In the place of a number stands any word but `;`, `(` and `)`.
const NUMBER: Rule<'static, Sort> = Rule::Other(&[
    Sort::Semicolon,
    Sort::Open,
    Sort::Close,
    Sort::TextEnd,
]);

const TURN: Rule<'static, Sort> = One(&[
    Sort::N,
    Sort::S,
    Sort::W,
    Sort::E,
    Sort::FN,
    Sort::FS,
    Sort::FW,
    Sort::FE,
]);

const SEMICOLON: Rule<'static, Sort> = One(&[Sort::Semicolon]);

/// Any word of the text.
const WORD: Rule<'static, Sort> = Rule::Other(&[Sort::TextEnd]);

/// `( x y )`.
const POINT: Rule<'static, Sort> = Then(
    &One(&[Sort::Open]),
    &Then(&NUMBER, &Then(&NUMBER, &One(&[Sort::Close]))),
);

const DESIGN: Rule<'static, Sort> = Then(&One(&[Sort::Design]), &Then(&NAME, &SEMICOLON));

/// What stands after `UNITS DISTANCE`.
const MICRONS: Rule<'static, Sort> = Then(&One(&[Sort::Microns]), &Then(&NUMBER, &SEMICOLON));

const UNITS: Rule<'static, Sort> = Then(
    &One(&[Sort::Units]),
    &Then(&One(&[Sort::Distance]), &MICRONS),
);

const DIE: Rule<'static, Sort> = Then(
    &One(&[Sort::DieArea]),
    &Then(&POINT, &Then(&POINT, &One(&[Sort::Semicolon, Sort::Open]))),
);

/// What stands after `DO nx BY ny`.
const STEPS: Rule<'static, Sort> = Or(
    &Then(&One(&[Sort::Step]), &Then(&NUMBER, &NUMBER)),
    &Rule::Other(&[Sort::Step, Sort::TextEnd]),
);

const REPEAT: Rule<'static, Sort> = Then(
    &One(&[Sort::Do]),
    &Then(&NUMBER, &Then(&One(&[Sort::By]), &Then(&NUMBER, &STEPS))),
);

/// What stands after `ROW name site x y`.
const TURNED: Rule<'static, Sort> = Then(
    &TURN,
    &Or(&REPEAT, &Rule::Other(&[Sort::Do, Sort::TextEnd])),
);

const ROW: Rule<'static, Sort> = Then(
    &One(&[Sort::Row]),
    &Then(&NAME, &Then(&NAME, &Then(&NUMBER, &Then(&NUMBER, &TURNED)))),
);

/// `COMPONENTS n ;` and its like.
const SECTION_HEAD: Rule<'static, Sort> = Then(
    &One(&[
        Sort::Components,
        Sort::Blockages,
        Sort::Regions,
        Sort::SpecialNets,
    ]),
    &Then(&NUMBER, &SEMICOLON),
);

const DESIGN_END: Rule<'static, Sort> = Then(&One(&[Sort::End]), &One(&[Sort::Design]));

/// A word that begins what is passed over.
const OTHER: Rule<'static, Sort> = Rule::Other(&[
    Sort::Design,
    Sort::Units,
    Sort::DieArea,
    Sort::Row,
    Sort::Components,
    Sort::Blockages,
    Sort::Regions,
    Sort::SpecialNets,
    Sort::End,
    Sort::Semicolon,
    Sort::TextEnd,
]);

/// What may stand between the sections, but for the three statements that stand once.
const SECTIONS: Rule<'static, Sort> = Or(&ROW, &Or(&SECTION_HEAD, &Or(&DESIGN_END, &OTHER)));

const TOP: Rule<'static, Sort> = Or(&DESIGN, &Or(&UNITS, &Or(&DIE, &SECTIONS)));

const COMPONENTS: Rule<'static, Sort> = Or(
    &Then(&One(&[Sort::Minus]), &Then(&NAME, &NAME)),
    &Then(&One(&[Sort::End]), &One(&[Sort::Components])),
);

const ENTRY_PART: Rule<'static, Sort> = Or(
    &Then(&One(&[Sort::Placed, Sort::Fixed]), &Then(&POINT, &TURN)),
    &Rule::Other(&[Sort::Placed, Sort::Fixed, Sort::TextEnd]),
);

const BLOCKAGES: Rule<'static, Sort> = Or(
    &One(&[Sort::Minus]),
    &Then(&One(&[Sort::End]), &One(&[Sort::Blockages])),
);

const BLOCKAGE_KIND: Rule<'static, Sort> = Or(
    &Then(&One(&[Sort::Layer]), &NAME),
    &One(&[Sort::Placement]),
);

/// A rectangle, or a `POLYGON`, which is refused for itself.
const SHAPE: Rule<'static, Sort> = Or(
    &Then(&One(&[Sort::Rect]), &Then(&POINT, &POINT)),
    &One(&[Sort::Polygon]),
);

const PARTS: Rule<'static, Sort> = Or(&One(&[Sort::Plus]), &SHAPE);

const PART: Rule<'static, Sort> = Or(
    &Then(&One(&[Sort::Spacing, Sort::Width]), &NUMBER),
    &Or(
        &Then(&One(&[Sort::Component]), &NAME),
        &One(&[Sort::PushDown, Sort::ExceptPgNet, Sort::Fills]),
    ),
);

const RECTS: Rule<'static, Sort> = Or(&SHAPE, &SEMICOLON);

const REGIONS: Rule<'static, Sort> = Or(
    &Then(&One(&[Sort::Minus]), &Then(&NAME, &Then(&POINT, &POINT))),
    &Then(&One(&[Sort::End]), &One(&[Sort::Regions])),
);

const REGION: Rule<'static, Sort> = Or(
    &Then(&POINT, &POINT),
    &Rule::Other(&[Sort::Open, Sort::TextEnd]),
);

/// The units of a section.
pub fn rule(section: Section) -> Rule<'static, Sort>
    ensures { IsRule number_of result (pattern section) }
{
    match section {
        Section::Top => TOP,
        Section::Components => COMPONENTS,
        Section::Entry => WORD,
        Section::EntryPart => ENTRY_PART,
        Section::Blockages => BLOCKAGES,
        Section::BlockageKind => BLOCKAGE_KIND,
        Section::Parts => PARTS,
        Section::Part => PART,
        Section::Rects => RECTS,
        Section::Placement => WORD,
        Section::Regions => REGIONS,
        Section::Region => REGION,
        Section::Wiring => WORD,
        Section::WiringPart => WORD,
        Section::WiringEnd => WORD,
        Section::Passed => WORD,
        Section::Ended => One(&[Sort::TextEnd]),
    }
}
