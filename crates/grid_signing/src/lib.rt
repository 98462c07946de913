//! A power grid signed off over a placed design: from the grid to the texts of its network, of a tight certificate and of
//! the report.
//!
//! The order is: the network is extracted, the supply is tested, the network is certified out of what a solver proposes, and
//! all texts are made. Whether the grid was drawn by a script or by another tool makes no difference. A network that
//! is extracted already is signed off from the second step on.
#![tactic(auto)]

mod basis;
mod extracted;
mod network;
mod signed;
mod signing;
mod whole;

pub use basis::Basis;
pub use extracted::sign_extracted;
pub use network::unextracted;
pub use signed::SignedGrid;
pub use whole::sign_grid;
