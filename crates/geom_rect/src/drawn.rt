use crate::direction::Axis;

/// What a shape of a net is drawn as: a side of a ring, a stripe, or a rail along the pins of cells
/// (LEF/DEF 5.8 Language Reference, special wiring, SHAPE).
#[derive(Clone, Copy, Debug, PartialEq, Eq, PartialOrd, Ord)]
pub enum Shape {
    Ring,
    Stripe,
    FollowPin,
}

/// A straight shape of a net on a routing layer, in units of a drawing. It goes along `axis` from `from` up to `to`,
/// `from` at most `to`, with half of its even `width` on each side of the line at `centre`.
///
/// `net` and `layer` are places, from 0, in the lists of nets and of routing layers.
#[derive(Clone, Copy, Debug, PartialEq, Eq)]
pub struct Drawn {
    pub net: u32,
    pub layer: u32,
    pub axis: Axis,
    pub centre: i64,
    pub width: i64,
    pub from: i64,
    pub to: i64,
    pub shape: Shape,
}
