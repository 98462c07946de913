//! Certificates as a format.
ghost use Rattle.std.specs.Prelude.{◌≤◌, ◌^◌, ◌∷◌, ◌++◌, List, [], ℕ, IsOk, OnOk, length, map};
ghost use Rattle.certificate_file.specs.Rule.{pattern};
ghost use Rattle.certificate_file.specs.Format.{format};
ghost use Rattle.certificate_file.specs.Sort.{all_sorts, number_of};
ghost use Rattle.certificate_file.specs.inside.Held.{Holds, says};
ghost use Rattle.reading.specs.Grammar.{AreHeard, IsRegular, IsTaken};
ghost use Rattle.reading.specs.Rule.{IsRule};
ghost use Rattle.reading.specs.Word.{Token, heard_token};

use crate::error::CertKind;
use crate::fault::{name_value, row_name, voltage_value};
use crate::held::{Held, take_row, value_at};
use crate::rule::rule;
use crate::section::{Section, section_after};
use crate::sort::{Sort, sort_of};
use fixed_decimal::texts_have_one_answer;
use outside::Name;
use reading::{Found, Grammar, Heard, Rule, Word, told_at};
use std::alloc::AllocError;

/// The format of the certificates of nodes with these names.
#[derive(Clone, Copy)]
pub(crate) struct CertificateFormat<'n> {
    pub(crate) names: &'n [Name],
}

impl<'a, 'n> Grammar<'a> for CertificateFormat<'n> {
    type Sort = Sort;

    type Section = Section;

    type Record = Held;

    type Kind = CertKind;

    /// A voltage in yV, and 0 of each word that is none.
    type Value = i128;

    ghost format = { λ certificate. format certificate.names.now };

    ghost pattern = { pattern };

    ghost says = { λ certificate lines. says certificate.names.now (length lines) };

    ghost holds = { λ certificate held lines. Holds certificate.names.now lines held };

    fn sort(&self, _said: &Held, word: &Word<'a>) -> Sort {
        sort_of(word)
    }

    fn section(&self, said: &Held) -> Section {
        section_after(self.names.len(), said.lines)
    }

    fn rule(section: Section) -> Rule<'a, Sort>
        ensures { IsRule number_of result (pattern section) }
    {
        rule(section)
    }

    fn hear(
        &self,
        said: &Held,
        before: &[Heard<'a, i128>],
        word: &Word<'a>,
        _sort: Sort,
    ) -> Result<i128, Found<CertKind>> {
        match before {
            [] => told_at(0, name_value(self.names, said.lines, word.text)),
            [_] => told_at(1, voltage_value(self.names, said.lines, word.text)),
            [_, _] => told_at(2, voltage_value(self.names, said.lines, word.text)),
            _ => Ok(0),
        }
    }

    fn ends(&self, _said: &Held) -> bool {
        false
    }

    // There is room for each node's voltages from the start, so that it never fails.
    fn take(&self, said: &mut Held, unit: &[Heard<'a, i128>]) -> Result<(), AllocError>
        ensures takes { OnOk result ((lines : List (List Token)) → length lines ≤ 2 ^ 63 →
            Holds self.now.names.now lines said.old →
            IsTaken (format self.now.names.now) lines (map heard_token unit.now) →
            AreHeard (says self.now.names.now (length lines)) [] unit.now →
            Holds self.now.names.now (lines ++ map heard_token unit.now ∷ []) said.new) }
        ensures never_fails { (lines : List (List Token)) → Holds self.now.names.now lines said.old → IsOk result }
    {
        if row_name(self.names, said.lines).is_some() {
            take_row(said, value_at(unit, 1), value_at(unit, 2))?;
        }
        said.lines = said.lines.saturating_add(1);
        Ok(())
    }

    fn regular(&self)
        ensures { IsRegular all_sorts pattern (format self.now.names.now) }
    {
        texts_have_one_answer();
    }
}
