//! The same count by a reader that is written by hand.
ghost use Rattle.std.specs.Prelude.{◌≡◌, Ok};
ghost use Rattle.text_lex.specs.declared.word.Mode.TheVariants.{LefDef};
ghost use Rattle.reading.specs.Outcome.{Reads};
ghost use Rattle.statements.specs.Record.{count_of};
ghost use Rattle.statements.specs.Format.{statements_format};
ghost use Rattle.statements.specs.inside.ByHand.{Stands};

use crate::fault::{Kind, is_whole};
use crate::sort::{Sort, sort_of};
use reading::{Reader, Refusal, Step, Stop, Word, read_text_by_hand};
use text_lex::Mode;

/// How much of the open statement has been seen.
#[derive(Clone, Copy, Debug, PartialEq, Eq)]
enum Seen {
    Nothing,
    /// `SET`.
    Keyword,
    /// `SET name`.
    Name,
    /// `SET name number`.
    Number,
}

/// How many statements were whole, and where in the next one the text stands.
#[derive(Drop)]
struct Counter {
    count: u64,
    seen: Seen,
}

impl<'a> Reader<'a> for Counter {
    type Sort = Sort;

    type Kind = Kind;

    ghost format = { statements_format };

    ghost stands = { Stands };

    fn take(&mut self, word: &Word<'a>) -> Result<Step, Stop<Kind>> {
        match (self.seen, sort_of(word)) {
            (Seen::Nothing, Sort::TextEnd) => Ok(Step::Whole),
            (Seen::Nothing, Sort::Set) => {
                self.seen = Seen::Keyword;
                Ok(Step::Open)
            }
            (Seen::Keyword, Sort::Set | Sort::Bracket | Sort::Other) => {
                self.seen = Seen::Name;
                Ok(Step::Open)
            }
            (Seen::Name, Sort::Set | Sort::Other) => {
                if !is_whole(word.text) {
                    return Err(Stop::Fault(word.place, Kind::NotWhole));
                }
                self.seen = Seen::Number;
                Ok(Step::Open)
            }
            (Seen::Number, Sort::Semicolon) => {
                let Some(count) = self.count.checked_add(1) else {
                    return Err(Stop::Want);
                };
                self.count = count;
                self.seen = Seen::Nothing;
                Ok(Step::Whole)
            }
            _ => Err(Stop::Syntax),
        }
    }

    fn orderly(&self) {}
}

/// How many statements a text has, or the one word at which it is refused, and why.
pub fn count_by_hand(text: &[u8]) -> Result<u64, Refusal<Kind>>
    ensures { Reads LefDef text.now statements_format (λ units. result ≡ Ok (count_of units)) result }
{
    let mut counter = Counter {
        count: 0,
        seen: Seen::Nothing,
    };
    match read_text_by_hand(&mut counter, text, Mode::LefDef) {
        Ok(()) => Ok(counter.count),
        Err(refusal) => Err(refusal),
    }
}
