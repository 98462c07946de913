//! The command `signoff`: five files are read, the wiring of their texts signed off, and the three outputs written.
ghost use Rattle.std.specs.Prelude.{◌≡◌, length};
ghost use Rattle.command_words.specs.Words.{AreApart};
ghost use Rattle.input_files.specs.Inputs.{names_of};
ghost use Rattle.output_files.specs.Outputs.{texts};
ghost use Rattle.signing_off.specs.Inputs.{wired_texts};
ghost use Rattle.pdn_signoff.specs.Signoff.{signoff_files_read, signoff_files_written, signed_texts, SignsOff};
ghost use Rattle.pdn_signoff.specs.inside.Signoff.{wired_of, WritesSigned};

use crate::faults::unread;
use crate::inputs::input;
use crate::outputs::write_outputs;
use crate::signoff_files::SignoffFiles;
use answers::Answer;
use entry_list::Entries;
use grid_net::Solver;
use grid_signing::SignedGrid;
use input_files::read_each;
use output_files::Output;
use outside::{Files, LONGEST_TEXT};
use signing_off::{WiredInputs, sign_off};
use std::alloc::Global;

/// The names of the files that are read, in their order.
fn names_read(names: &SignoffFiles) -> [&str; 5]
    ensures { names_of result ≡ signoff_files_read names.now }
{
    [
        names.lef.as_str(),
        names.cells.as_str(),
        names.def.as_str(),
        names.wires.as_str(),
        names.bias.as_str(),
    ]
}

/// Reads the five files, signs their wiring off, and then writes the three outputs, each into its file.
pub fn signoff<F: Files, V: Solver>(
    alloc: Global,
    files: &mut F,
    names: &SignoffFiles,
    solver: &mut V,
) -> Answer
    requires { AreApart (signoff_files_written names.now) }
    ensures signs { SignsOff
        (record { told = V.told solver.old; proposals = V.proposals solver.old })
        (record { told = V.told solver.new; proposals = V.proposals solver.new })
        (record { known = F.known files.old; counts = F.counts files.old })
        (record { known = F.known files.new; counts = F.counts files.new }) names.now result }
    ensures told { V.told solver.new ≡ V.told solver.old }
{
    let read = names_read(names);
    let texts = match read_each(alloc, files, &read, LONGEST_TEXT) {
        Ok(texts) => texts,
        Err(stopped) => return unread(alloc, stopped.error, read[stopped.place]),
    };
    match sign_off(alloc, &inputs_of(names, &texts), solver) {
        Ok(signed) => write_signed(alloc, files, names, &signed),
        Err(answer) => answer,
    }
}

/// Writes the outputs.
fn write_signed<F: Files>(
    alloc: Global,
    files: &mut F,
    names: &SignoffFiles,
    signed: &SignedGrid,
) -> Answer
    requires { AreApart (signoff_files_written names.now) }
    ensures { WritesSigned
        (record { known = F.known files.old; counts = F.counts files.old })
        (record { known = F.known files.new; counts = F.counts files.new }) names.now signed.now result }
{
    match write_outputs(alloc, files, &in_order(names, signed)) {
        Ok(()) => Answer::SignedOff(signed.numbers),
        Err(answer) => answer,
    }
}

/// The texts with the names of their files.
fn inputs_of<'a>(names: &'a SignoffFiles, texts: &'a [Entries<u8>]) -> WiredInputs<'a>
    requires { length texts.now ≡ 5 }
    ensures { wired_texts result ≡ wired_of names.now texts.now }
{
    WiredInputs {
        lef: input(names.lef.as_str(), texts[0].as_slice()),
        cells: input(names.cells.as_str(), texts[1].as_slice()),
        def: input(names.def.as_str(), texts[2].as_slice()),
        wires: input(names.wires.as_str(), texts[3].as_slice()),
        bias: input(names.bias.as_str(), texts[4].as_slice()),
    }
}

/// The outputs with the names of their files, in the order in which they are written.
fn in_order<'a>(names: &'a SignoffFiles, signed: &'a SignedGrid) -> [Output<'a>; 3]
    ensures { texts result ≡ signed_texts names.now signed.now }
{
    [
        Output {
            file: names.netlist.as_str(),
            text: signed.netlist.as_slice(),
        },
        Output {
            file: names.certificate.as_str(),
            text: signed.certificate.as_slice(),
        },
        Output {
            file: names.report.as_str(),
            text: signed.report.as_slice(),
        },
    ]
}
