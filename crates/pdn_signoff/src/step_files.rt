use command_words::FileName;

/// What `step` is over: the names of its files, two that are read and two that are written, each pair in this order, and its
/// times.
#[derive(Drop)]
pub struct StepFiles {
    /// The netlist.
    pub netlist: FileName,
    /// The waves of its loads.
    pub waves: FileName,
    /// The length of a step, in 10^-18 seconds: from 1 to 10^18.
    pub time: u128,
    /// The number of steps after step 0: from 1 to 1000.
    pub steps: u32,
    /// The certificate of all steps.
    pub certificate: FileName,
    /// The report of all steps.
    pub report: FileName,
}
