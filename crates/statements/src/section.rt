//! The one section.
ghost use Rattle.statements.specs.Section.{section_number, all_sections, listed, few};

use reading::Numbered;

/// Where a unit stands: the same may follow everywhere.
#[derive(Clone, Copy, Debug, PartialEq, Eq)]
pub enum Section {
    Statements,
}

impl Numbered for Section {
    ghost number = { section_number };

    ghost all = { all_sections };

    fn number(self) -> usize {
        self as usize
    }

    ghost listed = { listed };

    ghost few = { few };
}
