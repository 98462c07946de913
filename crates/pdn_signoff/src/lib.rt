//! The commands of `pdn`, from the words of the command line and the bytes of files to the exit status and the one line
//! that is printed.
#![tactic(auto)]

mod build;
mod build_files;
mod check;
mod command;
mod design_files;
mod faults;
mod generate;
mod inputs;
mod outputs;
mod signoff;
mod signoff_files;
mod solve;
mod step;
mod step_files;

pub use build_files::BuildFiles;
pub use command::{one_answer_has_its_cause, run};
pub use design_files::DesignFiles;
pub use signoff_files::SignoffFiles;
pub use step_files::StepFiles;
