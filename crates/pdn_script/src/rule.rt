//! The commands of a script, as rules.
ghost use Rattle.pdn_script.specs.Rule.{pattern};
ghost use Rattle.pdn_script.specs.Sort.{number_of};
ghost use Rattle.reading.specs.Rule.{IsRule};

use crate::section::Section;
use crate::sort::Sort;
use reading::Rule;

/// A word that ends no command.
const WORD: Rule<'static, Sort> = Rule::Other(&[Sort::CommandEnd, Sort::TextEnd]);

/// A command ends with its line, at a `;`, or with the text.
const END: Rule<'static, Sort> = Rule::One(&[Sort::CommandEnd, Sort::TextEnd]);

/// An option with its value, or one word in the place of an option.
const OPTION: Rule<'static, Sort> = Rule::Or(
    &Rule::Then(&Rule::One(&[Sort::Valued]), &WORD),
    &Rule::One(&[Sort::Passed, Sort::Other]),
);

/// A command that is passed over, a command with its options, or none.
const COMMAND: Rule<'static, Sort> = Rule::Or(
    &Rule::One(&[Sort::Passed]),
    &Rule::Or(
        &Rule::Then(
            &Rule::One(&[Sort::Valued, Sort::Other]),
            &Rule::Then(&Rule::Many(&OPTION), &END),
        ),
        &END,
    ),
);

/// Each word of a command that is passed over.
const PASSING: Rule<'static, Sort> = Rule::Other(&[]);

/// The units of a section.
pub(crate) fn rule(section: Section) -> Rule<'static, Sort>
    ensures { IsRule number_of result (pattern section) }
{
    match section {
        Section::Commands => COMMAND,
        Section::Passing => PASSING,
    }
}
