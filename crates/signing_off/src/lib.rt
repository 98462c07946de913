//! The power grid that another tool drew, signed off: from the bytes of a technology, cells, a placed design, its wiring and
//! a bias file to the texts of its network, of a tight certificate and of the report.
//!
//! The order is: the texts are read, the wiring is made a grid, and that is signed off as a drawn one. The definitions stand
//! in `specs/`.
#![tactic(auto)]

mod input;
mod kinds;
mod laws;
mod read_texts;
mod records;
mod whole;
mod wiring;

pub use input::WiredInputs;
pub use laws::answers_to_wiring;
pub use records::WiredRecords;
pub use whole::sign_off;
