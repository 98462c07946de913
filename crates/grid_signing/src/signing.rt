//! The network is certified, and the texts are made.
ghost use Rattle.std.specs.Prelude.{◌≡◌, ◌⊎◌, ℕ, ◌<◌, List, Some, IsOk, IfOk, IfErr, length, slice_get};
ghost use Rattle.outside.specs.Counts.{Rose};
ghost use Rattle.answers.specs.declared.answer.Answer.TheVariants.{Want, Unsupplied};
ghost use Rattle.bound_check.specs.Certified.{Certificate};
ghost use Rattle.signoff_report.specs.Limits.{AreLimitsOf};
ghost use Rattle.solving.specs.Signed.{EachIsSupplied};
ghost use Rattle.written_netlists.specs.Fits.{CanBeWritten};
ghost use Rattle.grid_signing.specs.Signing.{numbers_of};
ghost use Rattle.grid_signing.specs.Refusal.{LacksSupplyAt};
ghost use Rattle.grid_signing.specs.inside.Stages.{SignsNetwork, AreTextsOf};
ghost use Rattle.signoff_report.specs.Counted.{summary_of};

use crate::signed::SignedGrid;
use answers::{Answer, Built};
use bound_check::Certified;
use bound_make::Certifier;
use certificate_file::certificate_text;
use entry_list::Entries;
use grid_net::{Note, Solver};
use grid_network::Extracted;
use grid_pieces::Grid;
use network_texts::checked_as_written;
use outside::Name;
use signoff_report::{Limits, Summary, report_text, summary, verdicts_hold};
use solving::unsupplied;
use spice_grid::netlist_text;
use std::alloc::{AllocError, Global};

/// Signs off the network of a grid with what the solver proposes.
///
/// Error: the answer to a node without supply, or to want of memory.
pub(crate) fn sign_network<V: Solver>(
    alloc: Global,
    grid: &Grid,
    extracted: Extracted,
    limits: &Limits,
    solver: &mut V,
) -> Result<SignedGrid, Answer>
    requires names { length extracted.names ≡ extracted.net.nodes }
    requires limits { AreLimitsOf extracted.net limits.now }
    requires written { EachIsSupplied extracted.net → CanBeWritten extracted.net extracted.names extracted.notes }
    ensures signed { IfOk result (SignsNetwork (V.told solver.old) grid.now extracted limits.now) }
    ensures refused { IfErr result (LacksSupplyAt extracted) }
    ensures asked { IsOk result → Rose (V.proposals solver.old) (V.proposals solver.new) }
    ensures told { V.told solver.new ≡ V.told solver.old }
{
    let Extracted {
        net,
        names,
        notes,
        ..
    } = extracted;
    let names = names.as_slice();
    checked_as_written(names);
    if let Err(node) = net.supply() {
        return Err(unsupplied(alloc, names, node));
    }
    let Ok(certifier) = Certifier::reserve(alloc, net) else {
        return Err(Answer::Want);
    };
    let certified = certifier.certify(solver);
    match texts(alloc, grid, &certified, names, notes.as_slice(), limits) {
        Ok(signed) => Ok(signed),
        Err(_) => Err(Answer::Want),
    }
}

/// The texts of a certified network with these names.
fn texts(
    alloc: Global,
    grid: &Grid,
    certified: &Certified,
    names: &[Name],
    notes: &[Note],
    limits: &Limits,
) -> Result<SignedGrid, AllocError>
    requires names { length names.now ≡ certified.now.net.nodes }
    requires limits { AreLimitsOf certified.now.net limits.now }
    ensures { IfOk result (AreTextsOf grid.now certified.now names.now notes.now limits.now) }
{
    verdicts_hold(certified, limits);
    let netlist = netlist_text(alloc, certified.net(), names, notes)?;
    let certificate = certificate_text(alloc, names, certified.high(), certified.low())?;
    let report = report_text(alloc, certified, names, limits)?;
    Ok(SignedGrid {
        netlist: Entries::new(netlist),
        certificate: Entries::new(certificate),
        report: Entries::new(report),
        numbers: numbers(grid, summary(certified, limits)),
    })
}

/// The numbers of the line.
fn numbers(grid: &Grid, summary: Summary) -> Built
    ensures { result ≡ numbers_of grid.now summary }
{
    Built {
        pieces: grid.pieces.as_slice().len() as u64,
        stacks: grid.stacks.as_slice().len() as u64,
        nodes: summary.nodes,
        resistors: summary.resistors,
        pads: summary.pads,
        safe: summary.safe,
        unsafe_: summary.unsafe_,
        open: summary.undecided,
        unlimited: summary.no_limit,
        sweeps: summary.sweeps,
    }
}
