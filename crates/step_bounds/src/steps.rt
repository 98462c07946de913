use entry_list::Entries;

/// For each step, from step 0 on, a high and a low voltage for each node, in yoctovolts.
#[derive(Debug, Drop)]
pub struct Steps {
    /// The high lists: in every stepped solution each node's voltage is at most its entry.
    pub high: Entries<Entries<i128>>,
    /// The low lists: in every stepped solution each node's voltage is at least its entry.
    pub low: Entries<Entries<i128>>,
}
