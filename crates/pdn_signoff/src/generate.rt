//! The command `generate`: the texts of a made-up design are made and written.
ghost use Rattle.std.specs.Prelude.{◌≡◌};
ghost use Rattle.command_words.specs.Words.{AreApart};
ghost use Rattle.grid_gen.specs.Inputs.{IsSide};
ghost use Rattle.output_files.specs.Outputs.{texts};
ghost use Rattle.pdn_signoff.specs.Generate.{file_names, Generates};
ghost use Rattle.pdn_signoff.specs.inside.Generate.{made_texts};

use crate::design_files::DesignFiles;
use crate::outputs::write_outputs;
use answers::Answer;
use grid_gen::{Inputs, generate as make_inputs};
use output_files::Output;
use outside::Files;
use std::alloc::Global;

/// Makes the texts of the design with this number and this side, and then writes them, each into its file.
pub fn generate<F: Files>(
    alloc: Global,
    files: &mut F,
    number: u64,
    side: u32,
    outputs: &DesignFiles,
) -> Answer
    requires side { IsSide side }
    requires apart { AreApart (file_names outputs.now) }
    ensures { Generates
        (record { known = F.known files.old; counts = F.counts files.old })
        (record { known = F.known files.new; counts = F.counts files.new })
        number side outputs.now result }
{
    let Ok(inputs) = make_inputs(alloc, number, side) else {
        return Answer::Want;
    };
    match write_outputs(alloc, files, &in_order(outputs, &inputs)) {
        Ok(()) => Answer::Generated,
        Err(answer) => answer,
    }
}

/// The texts with the names of their files, in the order in which they are written.
fn in_order<'a>(files: &'a DesignFiles, inputs: &'a Inputs) -> [Output<'a>; 5]
    ensures { texts result ≡ made_texts files.now inputs.now }
{
    [
        Output {
            file: files.lef.as_str(),
            text: inputs.lef.as_slice(),
        },
        Output {
            file: files.cells.as_str(),
            text: inputs.cells.as_slice(),
        },
        Output {
            file: files.def.as_str(),
            text: inputs.def.as_slice(),
        },
        Output {
            file: files.pdn.as_str(),
            text: inputs.pdn.as_slice(),
        },
        Output {
            file: files.bias.as_str(),
            text: inputs.bias.as_slice(),
        },
    ]
}
