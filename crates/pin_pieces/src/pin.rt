/// A piece of a grid that has metal of a pin of a block: the component that the block is, and the piece, by their places from 0
/// among the components of the design and among the pieces of the grid. They are compared by component and then by piece.
#[derive(Clone, Copy, Debug, PartialEq, Eq, PartialOrd, Ord)]
pub struct PinPiece {
    pub component: u32,
    pub piece: u32,
}
