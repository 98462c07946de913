use entry_list::Entries;

/// What a wave file says, in the order of its lines.
#[derive(Debug, Drop)]
pub struct Waves {
    pub changes: Entries<Change>,
}

/// The line `at STEP NODE LOW HIGH`: from the step on the load of the group is this range. A line with one number gives
/// both ends.
#[derive(Clone, Copy, Debug, PartialEq, Eq, Drop)]
pub struct Change {
    /// The step, from 1 to 1000, not below that of the line before.
    pub step: u32,
    /// The number of the group.
    pub node: u32,
    /// The least current that the group draws in fA, within ±10^18.
    pub low: i64,
    /// The greatest current that it draws in fA, from `low` to 10^18.
    pub high: i64,
}
