use entry_list::Entries;

/// What a netlist is stepped with.
#[derive(Debug, Drop)]
pub struct Stepped {
    /// The text of the certificate of all steps.
    pub certificate: Entries<u8>,
    /// The text of the report of all steps.
    pub report: Entries<u8>,
    /// How many nodes the merged network has.
    pub nodes: u32,
    /// How many steps there are after step 0.
    pub steps: u32,
}
