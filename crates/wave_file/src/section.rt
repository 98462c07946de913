//! The one section.
ghost use Rattle.wave_file.specs.Section.{section_number, all_sections, listed, few};

use reading::Numbered;

/// Where a line stands: the same may follow everywhere.
#[derive(Clone, Copy, Debug)]
pub(crate) enum Section {
    Lines,
}

impl Numbered for Section {
    ghost number = { section_number };

    ghost all = { all_sections };

    fn number(self) -> usize {
        self as usize
    }

    ghost listed = { listed };

    ghost few = { few };
}
