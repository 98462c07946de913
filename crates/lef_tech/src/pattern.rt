//! The statements of a technology, as rules.
ghost use Rattle.lef_tech.specs.Sort.{number_of};
ghost use Rattle.lef_tech.specs.Pattern.{pattern};
ghost use Rattle.reading.specs.Rule.{IsRule};

use crate::section::Section;
use crate::sort::Sort;
use reading::Rule::{self, One, Or, Other, Then};

/// A name is a bare word other than `;`.
const NAME: Rule<'static, Sort> = Other(&[Sort::Semicolon, Sort::Quoted, Sort::TextEnd]);

/// In the place of a number stands any word but `;`, `(` and `)`.
const NUMBER: Rule<'static, Sort> = Other(&[Sort::Semicolon, Sort::Bracket, Sort::TextEnd]);

/// Any word.
const ANY: Rule<'static, Sort> = Other(&[Sort::TextEnd]);

/// `;`.
const STOP: Rule<'static, Sort> = One(&[Sort::Semicolon]);

/// Where a number could stand, a word that ends the statement or makes it another one.
const NO_NUMBER: Rule<'static, Sort> = One(&[Sort::Semicolon, Sort::Bracket]);

/// A number and the word after it, which shows whether the number is all that the statement has.
const NUMBER_AND_MORE: Rule<'static, Sort> = Then(&NUMBER, &ANY);

/// Nothing or a number.
const ALONE: Rule<'static, Sort> = Or(&NO_NUMBER, &NUMBER_AND_MORE);

/// `END` and a name.
const SECTION_END: Rule<'static, Sort> = Then(&One(&[Sort::End]), &ANY);

/// `LAYER name` at the top.
const LAYER_HEAD: Rule<'static, Sort> = Then(&One(&[Sort::Layer]), &NAME);

/// `VIARULE name` at the top.
const RULE_HEAD: Rule<'static, Sort> = Then(&One(&[Sort::ViaRule]), &NAME);

/// The head of a section that is passed over.
const PASSED_HEAD: Rule<'static, Sort> = Then(&One(&[Sort::Passed]), &NAME);

/// `END LIBRARY`.
const LIBRARY_END: Rule<'static, Sort> = Then(&One(&[Sort::End]), &One(&[Sort::Library]));

/// The first word of a section without a name or of a statement, or the end of the text.
const TOP_WORD: Rule<'static, Sort> = Other(&[
    Sort::Layer,
    Sort::ViaRule,
    Sort::Passed,
    Sort::End,
    Sort::Semicolon,
]);

/// What may stand between sections.
const TOP: Rule<'static, Sort> = Or(
    &LAYER_HEAD,
    &Or(&RULE_HEAD, &Or(&PASSED_HEAD, &Or(&LIBRARY_END, &TOP_WORD))),
);

/// `TYPE ROUTING ;`, `TYPE CUT ;`, or `TYPE` and another type, which is any other word but `;`.
const LAYER_START: Rule<'static, Sort> = Then(
    &One(&[Sort::LayerType]),
    &Or(
        &Then(&One(&[Sort::Routing, Sort::Cut]), &STOP),
        &Other(&[Sort::Routing, Sort::Cut, Sort::Semicolon, Sort::TextEnd]),
    ),
);

/// `DIRECTION HORIZONTAL ;` or `DIRECTION VERTICAL ;`.
const DIRECTION: Rule<'static, Sort> = Then(
    &One(&[Sort::Direction]),
    &Then(&One(&[Sort::Horizontal, Sort::Vertical]), &STOP),
);

/// `SPACING s ;`, or the beginning of another `SPACING`.
const SPACING: Rule<'static, Sort> = Then(&One(&[Sort::Spacing]), &ALONE);

/// `RESISTANCE RPERSQ v ;`, or the beginning of another `RESISTANCE`.
const WIRE_RESISTANCE: Rule<'static, Sort> = Then(
    &One(&[Sort::Resistance]),
    &Or(
        &Other(&[Sort::PerSquare, Sort::TextEnd]),
        &Then(&One(&[Sort::PerSquare]), &ALONE),
    ),
);

/// `RESISTANCE v ;`, or the beginning of another `RESISTANCE`.
const CUT_RESISTANCE: Rule<'static, Sort> = Then(&One(&[Sort::Resistance]), &ALONE);

/// `DCCURRENTDENSITY AVERAGE v ;`, the head of a table by width, or the beginning of another `DCCURRENTDENSITY`.
const WIRE_CURRENT: Rule<'static, Sort> = Then(
    &One(&[Sort::Current]),
    &Or(
        &Other(&[Sort::Average, Sort::TextEnd]),
        &Then(
            &One(&[Sort::Average]),
            &Or(
                &Then(&One(&[Sort::Width]), &NUMBER),
                &Then(
                    &Other(&[Sort::Width, Sort::Semicolon, Sort::Bracket, Sort::TextEnd]),
                    &STOP,
                ),
            ),
        ),
    ),
);

/// The same with a table by the area of a cut.
const CUT_CURRENT: Rule<'static, Sort> = Then(
    &One(&[Sort::Current]),
    &Or(
        &Other(&[Sort::Average, Sort::TextEnd]),
        &Then(
            &One(&[Sort::Average]),
            &Or(
                &Then(&One(&[Sort::CutArea]), &NUMBER),
                &Then(
                    &Other(&[Sort::CutArea, Sort::Semicolon, Sort::Bracket, Sort::TextEnd]),
                    &STOP,
                ),
            ),
        ),
    ),
);

/// `TYPE ROUTING ;` or `TYPE CUT ;` once more.
const TYPE_AGAIN: Rule<'static, Sort> = Then(
    &One(&[Sort::LayerType]),
    &Then(&One(&[Sort::Routing, Sort::Cut]), &STOP),
);

/// The first word of another statement of a routing layer.
const WIRE_WORD: Rule<'static, Sort> = Other(&[
    Sort::Direction,
    Sort::Spacing,
    Sort::Resistance,
    Sort::Current,
    Sort::LayerType,
    Sort::End,
    Sort::Semicolon,
    Sort::TextEnd,
]);

/// A statement of a routing layer.
const UNDIRECTED: Rule<'static, Sort> = Or(
    &DIRECTION,
    &Or(
        &SPACING,
        &Or(
            &WIRE_RESISTANCE,
            &Or(&WIRE_CURRENT, &Or(&TYPE_AGAIN, &WIRE_WORD)),
        ),
    ),
);

/// A statement of a routing layer, or its end.
const DIRECTED: Rule<'static, Sort> = Or(&SECTION_END, &UNDIRECTED);

/// The first word of another statement of a cut layer.
const CUT_WORD: Rule<'static, Sort> = Other(&[
    Sort::Resistance,
    Sort::Current,
    Sort::LayerType,
    Sort::End,
    Sort::Semicolon,
    Sort::TextEnd,
]);

/// A statement of a cut layer, or its end.
const CUT: Rule<'static, Sort> = Or(
    &SECTION_END,
    &Or(
        &CUT_RESISTANCE,
        &Or(&CUT_CURRENT, &Or(&TYPE_AGAIN, &CUT_WORD)),
    ),
);

/// One more point of a table, or the first entry.
const TABLE: Rule<'static, Sort> = Or(
    &NUMBER,
    &Then(&STOP, &Then(&One(&[Sort::TableEntries]), &NUMBER)),
);

/// One more entry of a table, or its end.
const VALUES: Rule<'static, Sort> = Or(&NUMBER, &STOP);

/// `LAYER name ;` in a rule.
const PART: Rule<'static, Sort> = Then(&One(&[Sort::Layer]), &Then(&NAME, &STOP));

/// The first word of another statement of a rule.
const RULE_WORD: Rule<'static, Sort> = Other(&[
    Sort::Layer,
    Sort::End,
    Sort::Semicolon,
    Sort::TextEnd,
]);

/// A statement of a rule, or its end.
const RULE: Rule<'static, Sort> = Or(&PART, &Or(&SECTION_END, &RULE_WORD));

/// `ENCLOSURE o o ;`.
const ENCLOSURE: Rule<'static, Sort> = Then(
    &One(&[Sort::Enclosure]),
    &Then(&NUMBER, &Then(&NUMBER, &STOP)),
);

/// `WIDTH a TO b ;`.
const WIDTH: Rule<'static, Sort> = Then(
    &One(&[Sort::Width]),
    &Then(&NUMBER, &Then(&One(&[Sort::To]), &Then(&NUMBER, &STOP))),
);

/// The first word of another statement after a routing layer of a rule.
const WIRE_PART_WORD: Rule<'static, Sort> = Other(&[
    Sort::Layer,
    Sort::End,
    Sort::Enclosure,
    Sort::Width,
    Sort::Semicolon,
    Sort::TextEnd,
]);

/// A statement after a routing layer of a rule, or the rule's end.
const WIRE_PART: Rule<'static, Sort> = Or(
    &PART,
    &Or(&SECTION_END, &Or(&ENCLOSURE, &Or(&WIDTH, &WIRE_PART_WORD))),
);

/// `RECT x y x y ;`.
const RECT: Rule<'static, Sort> = Then(
    &One(&[Sort::Rect]),
    &Then(
        &NUMBER,
        &Then(&NUMBER, &Then(&NUMBER, &Then(&NUMBER, &STOP))),
    ),
);

/// `SPACING x BY y ;`.
const PITCH: Rule<'static, Sort> = Then(
    &One(&[Sort::Spacing]),
    &Then(&NUMBER, &Then(&One(&[Sort::By]), &Then(&NUMBER, &STOP))),
);

/// `RESISTANCE v ;`.
const PART_RESISTANCE: Rule<'static, Sort> = Then(&One(&[Sort::Resistance]), &Then(&NUMBER, &STOP));

/// The first word of another statement after the cut layer of a rule.
const CUT_PART_WORD: Rule<'static, Sort> = Other(&[
    Sort::Layer,
    Sort::End,
    Sort::Rect,
    Sort::Spacing,
    Sort::Resistance,
    Sort::Semicolon,
    Sort::TextEnd,
]);

/// A statement after the cut layer of a rule, or the rule's end.
const CUT_PART: Rule<'static, Sort> = Or(
    &PART,
    &Or(
        &SECTION_END,
        &Or(&RECT, &Or(&PITCH, &Or(&PART_RESISTANCE, &CUT_PART_WORD))),
    ),
);

/// `DATABASE MICRONS n ;`.
const DATABASE: Rule<'static, Sort> = Then(
    &One(&[Sort::Database]),
    &Then(&One(&[Sort::Microns]), &Then(&NUMBER, &STOP)),
);

/// The first word of another statement of `UNITS`.
const UNITS_WORD: Rule<'static, Sort> = Other(&[
    Sort::Database,
    Sort::End,
    Sort::Semicolon,
    Sort::TextEnd,
]);

/// A statement of `UNITS`, or its end.
const UNITS: Rule<'static, Sort> = Or(&DATABASE, &Or(&SECTION_END, &UNITS_WORD));

/// The end of the text.
const TEXT_END: Rule<'static, Sort> = One(&[Sort::TextEnd]);

/// The units of a section.
pub(crate) fn rule(section: Section) -> Rule<'static, Sort>
    ensures { IsRule number_of result (pattern section) }
{
    match section {
        Section::Top => TOP,
        Section::Passing | Section::RuleStart => ANY,
        Section::LayerStart => LAYER_START,
        Section::Undirected => UNDIRECTED,
        Section::Directed => DIRECTED,
        Section::Cut => CUT,
        Section::WireTable | Section::CutTable => TABLE,
        Section::WireValues | Section::CutValues => VALUES,
        Section::RuleHead | Section::Rule => RULE,
        Section::WirePart => WIRE_PART,
        Section::CutPart => CUT_PART,
        Section::Units => UNITS,
        Section::Ended => TEXT_END,
    }
}
