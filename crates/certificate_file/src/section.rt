ghost use Rattle.std.specs.Prelude.{◌≡◌};
ghost use Rattle.certificate_file.specs.Section.{section_number, all_sections, section_after, listed, few};

use reading::Numbered;

/// Where the next line stands.
#[derive(Clone, Copy, Debug)]
pub(crate) enum Section {
    /// The line `pdn certificate 1`.
    Head,
    /// The line of a node.
    Row,
    /// The line `end`.
    Close,
    /// An empty line behind it.
    Ended,
}

impl Numbered for Section {
    ghost number = { section_number };

    ghost all = { all_sections };

    fn number(self) -> usize {
        self as usize
    }

    ghost listed = { listed };

    ghost few = { few };
}

/// The section after so many lines, where there are so many nodes.
pub(crate) fn section_after(nodes: usize, lines: usize) -> Section
    ensures { result ≡ section_after nodes lines }
{
    if lines == 0 {
        Section::Head
    } else if lines <= nodes {
        Section::Row
    } else if lines - 1 == nodes {
        Section::Close
    } else {
        Section::Ended
    }
}
