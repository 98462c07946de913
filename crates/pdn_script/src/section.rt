ghost use Rattle.std.specs.Prelude.{◌≡◌};
ghost use Rattle.pdn_script.specs.Section.{section_number, all_sections, section_by as by, listed, few};

use reading::Numbered;

/// Where the next unit stands.
#[derive(Clone, Copy, Debug)]
pub(crate) enum Section {
    /// At the start of a command.
    Commands,
    /// In a command that is passed over, of which each word is a unit.
    Passing,
}

impl Numbered for Section {
    ghost number = { section_number };

    ghost all = { all_sections };

    fn number(self) -> usize {
        self as usize
    }

    ghost listed = { listed };

    ghost few = { few };
}

/// The section, where a command is passed over or none.
pub(crate) fn section_by(passing: bool) -> Section
    ensures { result ≡ by passing }
{
    if passing {
        Section::Passing
    } else {
        Section::Commands
    }
}
