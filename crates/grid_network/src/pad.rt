/// A supply pad on a piece, so far along its centre line, at a voltage in yoctovolts.
#[derive(Clone, Copy, Debug, PartialEq, Eq)]
pub struct PadOn {
    pub piece: u32,
    pub along: i64,
    pub volts: i128,
}

/// A load tap on a piece, so far along its centre line, with the range of the current that is drawn there, in
/// femtoamperes.
#[derive(Clone, Copy, Debug, PartialEq, Eq)]
pub struct Tap {
    pub piece: u32,
    pub along: i64,
    pub low: i64,
    pub high: i64,
}
