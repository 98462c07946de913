/// One of the two axes of a drawing.
#[derive(Clone, Copy, Debug, PartialEq, Eq, PartialOrd, Ord)]
pub enum Axis {
    /// From left to right.
    X,
    /// From low to high.
    Y,
}

/// How a row or a component is turned: north, south, west and east, and the four flipped ones
/// (LEF/DEF 5.8 Language Reference, "Specifying Orientation").
#[derive(Clone, Copy, Debug, PartialEq, Eq)]
pub enum Orient {
    N,
    S,
    W,
    E,
    FN,
    FS,
    FW,
    FE,
}
