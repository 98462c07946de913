//! From the bytes of a netlist to the texts.
ghost use Rattle.std.specs.Prelude.{◌≡◌, ◌⊎◌, ℕ, ◌<◌, List, Some, IsOk, IfOk, IfErr, length, slice_get};
ghost use Rattle.outside.specs.Counts.{Rose};
ghost use Rattle.answers.specs.declared.answer.Answer.TheVariants.{Want, Unsupplied};
ghost use Rattle.bound_check.specs.Certified.{Certificate};
ghost use Rattle.judging.specs.Stage.{GivesNetwork};
ghost use Rattle.short_merge.specs.declared.merged.Merged.{Merged as Groups};
ghost use Rattle.spice_grid.specs.declared.named.Named.{Named};
ghost use Rattle.solving.specs.Signed.{Signs, LieWithinReport, PassesCheck};
ghost use Rattle.solving.specs.Refusal.{IsUnsigned};
ghost use Rattle.solving.specs.inside.Texts.{AreTextsOf, ReportHolds};

use crate::signed::Signed;
use answers::Answer;
use bound_check::Certified;
use bound_make::Certifier;
use certificate_file::{certificate_text, written_certificates_read_back};
use entry_list::Entries;
use grid_net::Solver;
use group_net::solutions_by_groups;
use judging::read_network;
use outside::Name;
use short_merge::{Merged, merged_names};
use signoff_report::{no_limits, report_text, verdicts_hold};
use spice_grid::names_are_words;
use std::alloc::{AllocError, Global};

/// Signs off the text of a netlist, whose file has this name, with what the solver proposes.
///
/// The order is: the text is read, its shorts are merged, the supply is tested, the network is certified, and the texts of
/// the certificate and of the report are made. Certification always succeeds, whatever the solver proposes.
/// Error: the answer to a text that is refused, to a group without supply, or to want of memory.
pub fn sign_off<V: Solver>(
    alloc: Global,
    netlist: &str,
    netlist_text: &[u8],
    solver: &mut V,
) -> Result<Signed, Answer>
    // The two texts are those of a tight certificate of the merged network, every solution of the netlist as it was
    // written lies within the intervals that the report prints, and who checks the certificate finds that it holds.
    ensures signed { IfOk result (λ signed. (named : Named) × (merged : Groups) × (certificate : Certificate)
        × Signs (V.told solver.old) netlist_text.now named merged certificate signed
        × LieWithinReport named merged certificate × PassesCheck merged signed) }
    ensures refused { IfErr result (λ answer. IsUnsigned netlist.now netlist_text.now answer) }

    // The solver was asked, and what it tells stays.
    ensures asked { IsOk result → Rose (V.proposals solver.old) (V.proposals solver.new) }
    ensures told { V.told solver.new ≡ V.told solver.old }
{
    match read_network(alloc, netlist, netlist_text) {
        Ok(merged) => sign_network(alloc, merged, solver),
        Err(answer) => Err(answer),
    }
}

/// Signs off the network of the groups of a netlist.
fn sign_network<V: Solver>(alloc: Global, merged: Merged, solver: &mut V) -> Result<Signed, Answer>
    requires { length merged.names ≡ merged.net.nodes }
    ensures signed { IfOk result (λ signed. (text : List ℕ) (named : Named) → GivesNetwork text named merged
        → (certificate : Certificate) × Signs (V.told solver.old) text named merged certificate signed
        × LieWithinReport named merged certificate × PassesCheck merged signed) }
    ensures refused { IfErr result (λ answer. (file text : List ℕ) (named : Named) → GivesNetwork text named merged
        → IsUnsigned file text answer) }
    ensures asked { IsOk result → Rose (V.proposals solver.old) (V.proposals solver.new) }
    ensures told { V.told solver.new ≡ V.told solver.old }
{
    solutions_by_groups();
    names_are_words();
    merged_names();
    let Merged { net, names, .. } = merged;
    let names = names.as_slice();
    written_certificates_read_back(names);
    if let Err(node) = net.supply() {
        return Err(unsupplied(alloc, names, node));
    }
    let Ok(certifier) = Certifier::reserve(alloc, net) else {
        return Err(Answer::Want);
    };
    let certified = certifier.certify(solver);
    match texts(alloc, &certified, names) {
        Ok(signed) => Ok(signed),
        Err(_) => Err(Answer::Want),
    }
}

/// The texts of a certified network with these names.
fn texts(alloc: Global, certified: &Certified, names: &[Name]) -> Result<Signed, AllocError>
    requires { length names.now ≡ certified.now.net.nodes }
    ensures texts { IfOk result (AreTextsOf certified.now names.now) }
    ensures holds { IsOk result → ReportHolds certified.now }
{
    let limits = no_limits(alloc, certified.net())?;
    verdicts_hold(certified, &limits);
    let certificate = certificate_text(alloc, names, certified.high(), certified.low())?;
    let report = report_text(alloc, certified, names, &limits)?;
    let net = certified.net();
    Ok(Signed {
        certificate: Entries::new(certificate),
        report: Entries::new(report),
        nodes: net.nodes(),
        resistors: net.resistors().len() as u32,
        sweeps: certified.sweeps(),
    })
}

/// The answer to a node that lacks supply: its name, or want of memory.
pub fn unsupplied(alloc: Global, names: &[Name], node: u32) -> Answer
    requires { node < length names.now }
    ensures { (result ≡ Want)
        ⊎ ((name : List ℕ) × (slice_get names.now node ≡ Some name) × (result ≡ Unsupplied name)) }
{
    match Name::new(alloc, names[node as usize].bytes()) {
        Ok(name) => Answer::Unsupplied(name),
        Err(_) => Answer::Want,
    }
}
