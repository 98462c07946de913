//! The report of a certified network: the intervals in which its voltages and currents lie, with their limits and what
//! the intervals say of them, and the summary that counts the verdicts.
//!
//! Units: voltages in yoctovolts, printed in nanovolts; currents in femtoamperes, printed in nanoamperes.
#![tactic(auto)]

mod counting;
mod counts;
mod judging;
mod laws;
mod numbers;
mod records;
mod text;

pub use counting::summary;
pub use counts::Summary;
pub use judging::{branch_verdict, net_verdict};
pub use laws::verdicts_hold;
pub use records::{Limits, NetLimit, no_limits};
pub use text::report_text;
