//! The certificate of a network: a high and a low voltage for each node, as a text.
//!
//! A certificate is the line `pdn certificate 1`, then for each node in the order of the network a line with its name,
//! its high and its low voltage in yV, and then the line `end`, after which only white space may stand. Words stand
//! between blanks, tabs and carriage returns; the last line may lack its line feed. `read_certificate` reads it for a
//! list of names, and `certificate_text` writes it.
#![tactic(auto)]

mod error;
mod fault;
mod format;
mod held;
mod laws;
mod lists;
mod read;
mod rule;
mod section;
mod sort;
mod voltage;
mod written;

pub use error::{CertError, CertKind};
pub use laws::{
    texts_have_one_certificate, written_certificates_read_back, written_voltages_read_back,
};
pub use lists::Lists;
pub use read::read_certificate;
pub use voltage::VOLTAGE_LIMIT;
pub use written::certificate_text;
