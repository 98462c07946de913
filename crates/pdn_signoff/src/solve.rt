//! The command `solve`: a netlist is read and signed off, and the certificate and the report are written.
ghost use Rattle.std.specs.Prelude.{◌≡◌, ◌≢◌};
ghost use Rattle.pdn_signoff.specs.Solve.{Solves};
ghost use Rattle.pdn_signoff.specs.inside.Solve.{Writes};

use crate::faults::{unread, unwritten};
use answers::Answer;
use grid_net::Solver;
use outside::{Files, LONGEST_TEXT, read_whole, write_whole};
use solving::{Signed, netlists_are_solved_once, sign_off};
use std::alloc::Global;

/// Reads the netlist, signs it off, and then writes the certificate and the report.
pub fn solve<F: Files, V: Solver>(
    alloc: Global,
    files: &mut F,
    netlist: &str,
    certificate: &str,
    report: &str,
    solver: &mut V,
) -> Answer
    requires { certificate.now ≢ report.now }
    ensures solves { Solves
        (record { told = V.told solver.old; proposals = V.proposals solver.old })
        (record { told = V.told solver.new; proposals = V.proposals solver.new })
        (record { known = F.known files.old; counts = F.counts files.old })
        (record { known = F.known files.new; counts = F.counts files.new })
        netlist.now certificate.now report.now result }
    ensures told { V.told solver.new ≡ V.told solver.old }
{
    netlists_are_solved_once();
    let text = match read_whole(alloc, files, netlist, LONGEST_TEXT) {
        Ok(text) => text,
        Err(error) => return unread(alloc, error, netlist),
    };
    match sign_off(alloc, netlist, &text, solver) {
        Ok(signed) => write_signed(alloc, files, certificate, report, &signed),
        Err(answer) => answer,
    }
}

/// Writes the certificate and then the report.
fn write_signed<F: Files>(
    alloc: Global,
    files: &mut F,
    certificate: &str,
    report: &str,
    signed: &Signed,
) -> Answer
    requires { certificate.now ≢ report.now }
    ensures { Writes
        (record { known = F.known files.old; counts = F.counts files.old })
        (record { known = F.known files.new; counts = F.counts files.new })
        certificate.now report.now signed.now result }
{
    if let Err(error) = write_whole(files, certificate, signed.certificate.as_slice()) {
        return unwritten(alloc, error, certificate);
    }
    if let Err(error) = write_whole(files, report, signed.report.as_slice()) {
        return unwritten(alloc, error, report);
    }
    Answer::Solved {
        nodes: signed.nodes,
        resistors: signed.resistors,
        sweeps: signed.sweeps,
    }
}
