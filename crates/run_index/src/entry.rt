ghost use Rattle.std.specs.Prelude.{◌≡◌};
ghost use Rattle.run_index.specs.Entry.{share_cell, lies_across};

use geom_rect::Run;

/// A run of cells along an axis, of a group, with the run of cells that it has across this axis.
#[derive(Clone, Copy, Debug, PartialEq, Eq)]
pub struct Entry {
    /// Entries of different groups are never found together.
    pub group: u32,
    /// The cells across.
    pub across: Run,
    /// The cells along.
    pub along: Run,
}

// Whether the entry is of the group and has a cell of the window across.
pub(crate) fn lies_across(group: u32, window: Run, entry: Entry) -> bool
    ensures { result ≡ lies_across group window entry }
{
    entry.group == group && share_cell(entry.across, window)
}

fn share_cell(a: Run, b: Run) -> bool
    ensures { result ≡ share_cell a b }
{
    a.from.max(b.from) < a.to.min(b.to)
}
