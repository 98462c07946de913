/// A text that is read, with the name of its file.
#[derive(Clone, Copy, Debug)]
pub struct Input<'a> {
    pub file: &'a str,
    pub text: &'a [u8],
}

/// The inputs of a build, in the order in which they are read.
#[derive(Clone, Copy, Debug)]
pub struct Inputs<'a> {
    /// The technology in LEF. Its sites and macros count too.
    pub lef: Input<'a>,
    /// The cells in LEF.
    pub cells: Input<'a>,
    /// The placed design in DEF.
    pub def: Input<'a>,
    /// The script of PDN commands.
    pub pdn: Input<'a>,
    /// Supplies, drop limits, pads and the currents of cells.
    pub bias: Input<'a>,
}
