/// The numbers of the summary line: the network's sizes, how many verdicts of its branches and nets are of each kind,
/// and in how many sweeps the certificate was made.
#[derive(Clone, Copy, Debug, PartialEq, Eq)]
pub struct Summary {
    pub nodes: u64,
    pub resistors: u64,
    pub pads: u64,
    pub safe: u64,
    pub unsafe_: u64,
    pub undecided: u64,
    pub no_limit: u64,
    pub sweeps: u64,
}
