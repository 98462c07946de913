//! The lines of a certificate, as rules.
ghost use Rattle.certificate_file.specs.Sort.{number_of};
ghost use Rattle.certificate_file.specs.Rule.{pattern};
ghost use Rattle.reading.specs.Rule.{IsRule};

use crate::section::Section;
use crate::sort::Sort;
use reading::Rule;

/// A name is any word, also `end` or `;`.
const NAME: Rule<'static, Sort> = Rule::Other(&[Sort::LineEnd, Sort::TextEnd]);

/// In the place of a number stands any word but `;`, `(` and `)`.
const NUMBER: Rule<'static, Sort> = Rule::Other(&[Sort::Mark, Sort::LineEnd, Sort::TextEnd]);

const LINE_END: Rule<'static, Sort> = Rule::One(&[Sort::LineEnd]);

/// The last line may lack its line feed.
const END: Rule<'static, Sort> = Rule::One(&[Sort::LineEnd, Sort::TextEnd]);

/// `pdn certificate 1`.
const HEAD_LINE: Rule<'static, Sort> = Rule::Then(
    &Rule::One(&[Sort::Pdn]),
    &Rule::Then(
        &Rule::One(&[Sort::Certificate]),
        &Rule::Then(&Rule::One(&[Sort::Version]), &LINE_END),
    ),
);

/// `NAME HIGH LOW`.
const ROW_LINE: Rule<'static, Sort> = Rule::Then(
    &NAME,
    &Rule::Then(&NUMBER, &Rule::Then(&NUMBER, &LINE_END)),
);

/// `end`.
const END_LINE: Rule<'static, Sort> = Rule::Then(&Rule::One(&[Sort::Last]), &END);

/// The units of a section.
pub(crate) fn rule(section: Section) -> Rule<'static, Sort>
    ensures { IsRule number_of result (pattern section) }
{
    match section {
        Section::Head => HEAD_LINE,
        Section::Row => ROW_LINE,
        Section::Close => END_LINE,
        Section::Ended => END,
    }
}
