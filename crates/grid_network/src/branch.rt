/// Which drawn metal a resistor is.
#[derive(Clone, Copy, Debug, PartialEq, Eq, PartialOrd, Ord)]
pub enum Branch {
    /// A part of a piece, which is given by its place among the pieces.
    Wire(u32),
    /// The array of cuts at a level of a stack, which is given by its place among the stacks. The lowest array has
    /// level 0.
    Cuts(u32, u32),
}
