use building::Input;

/// The inputs of a sign-off, in the order in which they are read.
#[derive(Clone, Copy, Debug)]
pub struct WiredInputs<'a> {
    /// The technology in LEF. Its sites and macros count too.
    pub lef: Input<'a>,
    /// The cells in LEF.
    pub cells: Input<'a>,
    /// The placed design in DEF.
    pub def: Input<'a>,
    /// The wiring of its power and ground nets in DEF; it may be the text of the placed design.
    pub wires: Input<'a>,
    /// Supplies, drop limits, pads and the currents of cells.
    pub bias: Input<'a>,
}
