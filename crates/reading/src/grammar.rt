ghost use Rattle.std.specs.Prelude.{◌≡◌, ◌≤◌, ◌^◌, ◌∷◌, ◌++◌, List, [], OnOk, length, map};
ghost use Rattle.reading.specs.Pattern.{Pattern};
ghost use Rattle.reading.specs.Reading.{Format};
ghost use Rattle.reading.specs.Word.{Token, token, heard_token};
ghost use Rattle.reading.specs.Rule.{IsRule};
ghost use Rattle.reading.specs.Grammar.{AreHeard, IsRegular, IsTaken, Tells};

use crate::numbered::Numbered;
use crate::refusal::Found;
use crate::rule::Rule;
use crate::word::{Heard, Word};
use std::alloc::AllocError;

/// A text format: the sorts of its words, the patterns of its units by sections, their faults, and what a whole unit
/// says. The value is what the format depends on beside the text, as the names that the text has to list. The record
/// may keep slices of the text.
pub trait Grammar<'a> {
    /// The sorts of the words: the keywords, and the kinds of other words.
    type Sort: Numbered;
    /// The sections: what may follow differs in each.
    type Section: Numbered;
    /// What the whole units so far have said.
    type Record;
    /// The kinds of refusal besides Syntax.
    type Kind: Drop;
    /// What a word of the open unit says: a number, the kind of a statement, or nothing.
    type Value: Copy;

    ghost format: { Self → Format Token Self.Sort Self.Kind };
    // The units that may follow in a section.
    ghost pattern: { Self.Section → Pattern Self.Sort };
    // After these units, the last of the open unit's words so far says this value.
    ghost says: { Self → List (List Token) → List Token → Self.Value → Type 0 };
    // These whole units have led to the record.
    ghost holds: { Self → Self.Record → List (List Token) → Type 0 };

    /// The sort of a word.
    fn sort(&self, said: &Self::Record, word: &Word<'a>) -> Self::Sort
        ensures { (units : List (List Token)) → holds self.now said.now units →
            result ≡ (format self.now).sort units (token word.now) };

    /// The section in which the next unit stands.
    fn section(&self, said: &Self::Record) -> Self::Section
        ensures { (units : List (List Token)) → holds self.now said.now units →
            (format self.now).follow units ≡ pattern result };

    /// The pattern of a section's units.
    fn rule(section: Self::Section) -> Rule<'a, Self::Sort>
        ensures { IsRule Self.Sort.number result (pattern section) };

    /// What the word says that comes next in the open unit, or the fault that the unit's words show with it. `before` has
    /// the unit's words before it, each with what it says; the sort is the word's. Numbers are read here, once.
    fn hear(
        &self,
        said: &Self::Record,
        before: &[Heard<'a, Self::Value>],
        word: &Word<'a>,
        sort: Self::Sort,
    ) -> Result<Self::Value, Found<Self::Kind>>
        ensures { (units : List (List Token)) → holds self.now said.now units →
            AreHeard (says self.now units) [] before.now → sort ≡ (format self.now).sort units (token word.now) →
            Tells (format self.now) (says self.now units) units (map heard_token before.now ++ token word.now ∷ [])
            result };

    /// Whether the units so far have ended the text: nothing after them is read, whatever bytes follow, and the end of
    /// the text stands one word after the last one.
    fn ends(&self, said: &Self::Record) -> bool
        ensures { (units : List (List Token)) → holds self.now said.now units → result ≡ (format self.now).ends units };

    /// Takes into the record what a whole unit says: its words, each with its value. There are at most 2^63 units before
    /// it, so that a count of them in 64 bits does not overflow.
    fn take(
        &self,
        said: &mut Self::Record,
        unit: &[Heard<'a, Self::Value>],
    ) -> Result<(), AllocError>
        ensures { OnOk result ((units : List (List Token)) → length units ≤ 2 ^ 63 → holds self.now said.old units →
            IsTaken (format self.now) units (map heard_token unit.now) → AreHeard (says self.now units) [] unit.now →
            holds self.now said.new (units ++ map heard_token unit.now ∷ [])) };

    /// The laws that the format owes. It does nothing.
    fn regular(&self)
        ensures { IsRegular Self.Sort.all pattern (format self.now) };
}
