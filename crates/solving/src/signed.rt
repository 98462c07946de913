use entry_list::Entries;

/// What a netlist is signed off with.
#[derive(Debug, Drop)]
pub struct Signed {
    /// The text of the certificate.
    pub certificate: Entries<u8>,
    /// The text of the report.
    pub report: Entries<u8>,
    /// How many nodes the merged network has.
    pub nodes: u32,
    /// How many resistors it has.
    pub resistors: u32,
    /// In how many sweeps the certificate was made.
    pub sweeps: u64,
}
