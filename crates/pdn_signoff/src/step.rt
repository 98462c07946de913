//! The command `step`: a netlist and its waves are read and stepped, and the certificate and the report are written.
ghost use Rattle.std.specs.Prelude.{◌≡◌, ◌≤◌, ◌^◌, length};
ghost use Rattle.command_words.specs.Words.{AreApart};
ghost use Rattle.input_files.specs.Inputs.{names_of};
ghost use Rattle.output_files.specs.Outputs.{texts};
ghost use Rattle.pdn_signoff.specs.Step.{step_files_read, step_files_written, step_texts, StepsBy};
ghost use Rattle.pdn_signoff.specs.inside.Step.{WritesStepped};

use crate::faults::unread;
use crate::outputs::write_outputs;
use crate::step_files::StepFiles;
use answers::Answer;
use grid_net::Solver;
use input_files::read_each;
use output_files::Output;
use outside::{Files, LONGEST_TEXT};
use std::alloc::Global;
use stepping::{Stepped, Times, netlists_are_stepped_alike, step_through};

/// Reads the netlist and the waves, steps their texts, and then writes the certificate and the report.
pub fn step<F: Files, V: Solver>(
    alloc: Global,
    files: &mut F,
    names: &StepFiles,
    solver: &mut V,
) -> Answer
    requires apart { AreApart (step_files_written names.now) }
    requires time { (1 ≤ names.now.time) × (names.now.time ≤ 10 ^ 18) }
    requires steps { (1 ≤ names.now.steps) × (names.now.steps ≤ 1000) }
    ensures steps { StepsBy
        (record { told = V.told solver.old; proposals = V.proposals solver.old })
        (record { told = V.told solver.new; proposals = V.proposals solver.new })
        (record { known = F.known files.old; counts = F.counts files.old })
        (record { known = F.known files.new; counts = F.counts files.new }) names.now result }
    ensures told { V.told solver.new ≡ V.told solver.old }
{
    netlists_are_stepped_alike();
    let read = names_read(names);
    let texts = match read_each(alloc, files, &read, LONGEST_TEXT) {
        Ok(texts) => texts,
        Err(stopped) => return unread(alloc, stopped.error, read[stopped.place]),
    };
    let times = Times {
        time: names.time,
        steps: names.steps,
    };
    let netlist = texts[0].as_slice();
    let waves = texts[1].as_slice();
    match step_through(
        alloc,
        names.netlist.as_str(),
        netlist,
        names.waves.as_str(),
        waves,
        times,
        solver,
    ) {
        Ok(stepped) => write_stepped(alloc, files, names, &stepped),
        Err(answer) => answer,
    }
}

/// The names of the files that are read, in their order.
fn names_read(names: &StepFiles) -> [&str; 2]
    ensures { names_of result ≡ step_files_read names.now }
{
    [names.netlist.as_str(), names.waves.as_str()]
}

/// Writes the certificate and then the report.
fn write_stepped<F: Files>(
    alloc: Global,
    files: &mut F,
    names: &StepFiles,
    stepped: &Stepped,
) -> Answer
    requires { AreApart (step_files_written names.now) }
    ensures { WritesStepped
        (record { known = F.known files.old; counts = F.counts files.old })
        (record { known = F.known files.new; counts = F.counts files.new }) names.now stepped.now result }
{
    match write_outputs(alloc, files, &in_order(names, stepped)) {
        Ok(()) => Answer::Stepped {
            nodes: stepped.nodes,
            steps: stepped.steps,
        },
        Err(answer) => answer,
    }
}

/// The outputs with the names of their files, in the order in which they are written.
fn in_order<'a>(names: &'a StepFiles, stepped: &'a Stepped) -> [Output<'a>; 2]
    ensures { texts result ≡ step_texts names.now stepped.now }
{
    [
        Output {
            file: names.certificate.as_str(),
            text: stepped.certificate.as_slice(),
        },
        Output {
            file: names.report.as_str(),
            text: stepped.report.as_slice(),
        },
    ]
}
