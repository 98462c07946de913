//! The summary of a certified network.
ghost use Rattle.std.specs.Prelude.{◌≡◌, ◌∷◌, ◌++◌, [], List};
ghost use Rattle.em_rules.specs.declared.words.Verdict.{Verdict as Word};
ghost use Rattle.signoff_report.specs.Limits.{AreLimitsOf};
ghost use Rattle.signoff_report.specs.Counted.{IsTally, HasRoom, net_verdicts, branch_verdicts, summary_of};

use crate::counts::Summary;
use crate::judging::{branch_count, branch_verdict, net_count, net_verdict};
use crate::records::Limits;
use bound_check::Certified;
use em_rules::Verdict;

// How many verdicts of each kind there are.
#[derive(Clone, Copy)]
struct Tally {
    safe: u64,
    unsafe_: u64,
    undecided: u64,
    no_limit: u64,
}

impl Tally {
    // With one verdict more.
    fn add(self, verdict: Verdict) -> Tally
        requires { HasRoom self }
        ensures { (verdicts : List Word) → IsTally verdicts self → IsTally (verdicts ++ verdict ∷ []) result }
    {
        match verdict {
            Verdict::Safe => Tally {
                safe: self.safe + 1,
                ..self
            },
            Verdict::Unsafe => Tally {
                unsafe_: self.unsafe_ + 1,
                ..self
            },
            Verdict::Undecided => Tally {
                undecided: self.undecided + 1,
                ..self
            },
            Verdict::NoLimit => Tally {
                no_limit: self.no_limit + 1,
                ..self
            },
        }
    }
}

/// The summary of a certified network with its limits: its sizes, and how many verdicts of branches and nets are of each
/// kind. It takes no memory.
pub fn summary(certified: &Certified, limits: &Limits) -> Summary
    requires { AreLimitsOf certified.now.net limits.now }
    ensures { result ≡ summary_of certified.now limits.now }
{
    let net = certified.net();
    let tally = count_branches(certified, limits, count_nets(certified, limits));
    Summary {
        nodes: u64::from(net.nodes()),
        resistors: net.resistors().len() as u64,
        pads: net.pads().len() as u64,
        safe: tally.safe,
        unsafe_: tally.unsafe_,
        undecided: tally.undecided,
        no_limit: tally.no_limit,
        sweeps: certified.sweeps(),
    }
}

// The verdicts of the nets.
fn count_nets(certified: &Certified, limits: &Limits) -> Tally
    requires { AreLimitsOf certified.now.net limits.now }
    ensures { IsTally (net_verdicts certified.now limits.now) result }
{
    let mut tally = Tally {
        safe: 0,
        unsafe_: 0,
        undecided: 0,
        no_limit: 0,
    };
    for net in 0..net_count(limits) {
        tally = tally.add(net_verdict(certified, limits, net));
    }
    tally
}

// The verdicts of the nets, of which there is a tally, and of the branches.
fn count_branches(certified: &Certified, limits: &Limits, nets: Tally) -> Tally
    requires limits { AreLimitsOf certified.now.net limits.now }
    requires nets { IsTally (net_verdicts certified.now limits.now) nets }
    ensures { IsTally (net_verdicts certified.now limits.now ++ branch_verdicts certified.now limits.now) result }
{
    let mut tally = nets;
    for branch in 0..branch_count(certified) {
        tally = tally.add(branch_verdict(certified, limits, branch));
    }
    tally
}
