//! The cards of a netlist, as rules.
ghost use Rattle.spice_cards.specs.Sort.{number_of};
ghost use Rattle.spice_cards.specs.Rule.{pattern};
ghost use Rattle.reading.specs.Rule.{IsRule};

use crate::section::Section;
use crate::sort::Sort;
use reading::Rule;

/// A name is any word.
const NAME: Rule<'static, Sort> = Rule::Other(&[
    Sort::CardEnd,
    Sort::Range,
    Sort::Stray,
    Sort::TextEnd,
]);

/// In the place of a number stands any word but `;`, `(` and `)`.
const NUMBER: Rule<'static, Sort> = Rule::Other(&[
    Sort::Mark,
    Sort::CardEnd,
    Sort::Range,
    Sort::Stray,
    Sort::TextEnd,
]);

/// Where `DC` may stand before the number, it is no number.
const VALUE: Rule<'static, Sort> = Rule::Other(&[
    Sort::Dc,
    Sort::Mark,
    Sort::CardEnd,
    Sort::Range,
    Sort::Stray,
    Sort::TextEnd,
]);

const DC: Rule<'static, Sort> = Rule::One(&[Sort::Dc]);

const END: Rule<'static, Sort> = Rule::One(&[Sort::CardEnd]);

/// `Rname a b OHMS`
const RESISTOR: Rule<'static, Sort> = Rule::Then(
    &Rule::One(&[Sort::Resistor]),
    &Rule::Then(&NAME, &Rule::Then(&NAME, &Rule::Then(&NUMBER, &END))),
);

/// What stands after the nodes of `Vname a b VOLTS`, `Vname a b DC VOLTS`.
const SOURCE_VALUE: Rule<'static, Sort> = Rule::Or(
    &Rule::Then(&VALUE, &END),
    &Rule::Then(&DC, &Rule::Then(&NUMBER, &END)),
);

const SOURCE: Rule<'static, Sort> = Rule::Then(
    &Rule::One(&[Sort::Source]),
    &Rule::Then(&NAME, &Rule::Then(&NAME, &SOURCE_VALUE)),
);

/// The end of a load, or the line `*range LOW HIGH` after it.
const LOAD_END: Rule<'static, Sort> = Rule::Or(
    &END,
    &Rule::Then(
        &Rule::One(&[Sort::Range]),
        &Rule::Then(&NUMBER, &Rule::Then(&NUMBER, &END)),
    ),
);

/// What stands after the nodes of `Iname a b AMPERES`, `Iname a b DC AMPERES`.
const LOAD_VALUE: Rule<'static, Sort> = Rule::Or(
    &Rule::Then(&VALUE, &LOAD_END),
    &Rule::Then(&DC, &Rule::Then(&NUMBER, &LOAD_END)),
);

const LOAD: Rule<'static, Sort> = Rule::Then(
    &Rule::One(&[Sort::Load]),
    &Rule::Then(&NAME, &Rule::Then(&NAME, &LOAD_VALUE)),
);

/// `Cname a b FARADS`
const CAPACITOR: Rule<'static, Sort> = Rule::Then(
    &Rule::One(&[Sort::Capacitor]),
    &Rule::Then(&NAME, &Rule::Then(&NAME, &Rule::Then(&NUMBER, &END))),
);

/// The first word of a dot line, `.end`, and the first word of any other card, which is refused.
const SINGLE: Rule<'static, Sort> = Rule::One(&[
    Sort::Dc,
    Sort::Mark,
    Sort::Dot,
    Sort::End,
    Sort::Other,
]);

const CARD: Rule<'static, Sort> = Rule::Or(
    &RESISTOR,
    &Rule::Or(&SOURCE, &Rule::Or(&LOAD, &Rule::Or(&CAPACITOR, &SINGLE))),
);

/// Each word of a dot line is passed over, and the line ends with it.
const PASSED: Rule<'static, Sort> = Rule::Other(&[Sort::Range, Sort::Stray, Sort::TextEnd]);

/// After `.end` the text has ended.
const LAST: Rule<'static, Sort> = Rule::One(&[Sort::TextEnd]);

/// The units of a section.
pub(crate) fn rule(section: Section) -> Rule<'static, Sort>
    ensures { IsRule number_of result (pattern section) }
{
    match section {
        Section::Cards => CARD,
        Section::Passing => PASSED,
        Section::Ended => LAST,
    }
}
