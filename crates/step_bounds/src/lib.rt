//! Bounds of a power grid over whole time steps: capacitors act by the backward Euler rule, and loads change from step to
//! step.
//!
//! What is bounded and what bounds it stands in `specs/`: `Capacitors` (which count, and what they are over a step),
//! `Changes` (the loads of a step), `StepNetwork` (the network of a step over the voltages before), `StepCertificate`,
//! `SteppedSolution` and `Refusal`.
#![tactic(auto)]

mod companion;
mod copies;
mod error;
mod extension;
mod first;
mod floating;
mod laws;
mod lists;
mod loads;
mod network;
mod passed;
mod step;
mod stepping;
mod steps;

pub use companion::{Companion, companions};
pub use error::StepError;
pub use floating::first_floating;
pub use laws::stepped_solutions_lie_between;
pub use stepping::step_all;
pub use steps::Steps;
