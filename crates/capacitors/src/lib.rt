//! The capacitors of a power grid: where their two ends stand, and how large they are.
#![tactic(auto)]

/// Where an end of a capacitor stands.
#[derive(Clone, Copy, Debug, PartialEq, Eq)]
pub enum End {
    /// At a node, which is given by its number.
    Node(u32),
    /// At ground, which is the name `0`.
    Ground,
    /// At a name that no resistor, source or load has.
    Nowhere,
}

/// A capacitor between two ends.
#[derive(Clone, Copy, Debug, PartialEq, Eq)]
pub struct Cap {
    pub a: End,
    pub b: End,
    /// The capacitance, in 10^-24 farads: from 0 to 10^30.
    pub farads: i128,
}
