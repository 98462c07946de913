//! The command `build`: five files are read, their texts built, and the four outputs written.
ghost use Rattle.std.specs.Prelude.{◌≡◌, length};
ghost use Rattle.command_words.specs.Words.{AreApart};
ghost use Rattle.building.specs.Inputs.{five_texts};
ghost use Rattle.input_files.specs.Inputs.{names_of};
ghost use Rattle.output_files.specs.Outputs.{texts};
ghost use Rattle.pdn_signoff.specs.Build.{files_read, files_written, output_texts, Builds};
ghost use Rattle.pdn_signoff.specs.inside.Build.{five_of, WritesBuilt};

use crate::build_files::BuildFiles;
use crate::faults::unread;
use crate::inputs::input;
use crate::outputs::write_outputs;
use answers::Answer;
use building::{Inputs, Outputs};
use entry_list::Entries;
use grid_net::Solver;
use input_files::read_each;
use macro_building::{answers_to_builds, build as build_texts};
use output_files::Output;
use outside::{Files, LONGEST_TEXT};
use std::alloc::Global;

/// Reads the five files, builds their texts, and then writes the four outputs, each into its file.
pub fn build<F: Files, V: Solver>(
    alloc: Global,
    files: &mut F,
    names: &BuildFiles,
    solver: &mut V,
) -> Answer
    requires { AreApart (files_written names.now) }
    ensures builds { Builds
        (record { told = V.told solver.old; proposals = V.proposals solver.old })
        (record { told = V.told solver.new; proposals = V.proposals solver.new })
        (record { known = F.known files.old; counts = F.counts files.old })
        (record { known = F.known files.new; counts = F.counts files.new }) names.now result }
    ensures told { V.told solver.new ≡ V.told solver.old }
{
    answers_to_builds();
    let read = names_read(names);
    let texts = match read_each(alloc, files, &read, LONGEST_TEXT) {
        Ok(texts) => texts,
        Err(stopped) => return unread(alloc, stopped.error, read[stopped.place]),
    };
    match build_texts(alloc, &inputs_of(names, &texts), solver) {
        Ok(outputs) => write_built(alloc, files, names, &outputs),
        Err(answer) => answer,
    }
}

/// The names of the files that are read, in their order.
fn names_read(names: &BuildFiles) -> [&str; 5]
    ensures { names_of result ≡ files_read names.now }
{
    [
        names.lef.as_str(),
        names.cells.as_str(),
        names.def.as_str(),
        names.pdn.as_str(),
        names.bias.as_str(),
    ]
}

/// The texts with the names of their files.
fn inputs_of<'a>(names: &'a BuildFiles, texts: &'a [Entries<u8>]) -> Inputs<'a>
    requires { length texts.now ≡ 5 }
    ensures { five_texts result ≡ five_of names.now texts.now }
{
    Inputs {
        lef: input(names.lef.as_str(), texts[0].as_slice()),
        cells: input(names.cells.as_str(), texts[1].as_slice()),
        def: input(names.def.as_str(), texts[2].as_slice()),
        pdn: input(names.pdn.as_str(), texts[3].as_slice()),
        bias: input(names.bias.as_str(), texts[4].as_slice()),
    }
}

/// Writes the outputs.
fn write_built<F: Files>(
    alloc: Global,
    files: &mut F,
    names: &BuildFiles,
    outputs: &Outputs,
) -> Answer
    requires { AreApart (files_written names.now) }
    ensures { WritesBuilt
        (record { known = F.known files.old; counts = F.counts files.old })
        (record { known = F.known files.new; counts = F.counts files.new }) names.now outputs.now result }
{
    match write_outputs(alloc, files, &in_order(names, outputs)) {
        Ok(()) => Answer::Built(outputs.numbers),
        Err(answer) => answer,
    }
}

/// The outputs with the names of their files, in the order in which they are written.
fn in_order<'a>(names: &'a BuildFiles, outputs: &'a Outputs) -> [Output<'a>; 4]
    ensures { texts result ≡ output_texts names.now outputs.now }
{
    [
        Output {
            file: names.out_def.as_str(),
            text: outputs.def.as_slice(),
        },
        Output {
            file: names.netlist.as_str(),
            text: outputs.netlist.as_slice(),
        },
        Output {
            file: names.certificate.as_str(),
            text: outputs.certificate.as_slice(),
        },
        Output {
            file: names.report.as_str(),
            text: outputs.report.as_slice(),
        },
    ]
}
