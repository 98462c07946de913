//! The words of the command line.
ghost use Rattle.std.specs.Prelude.{◌≡◌, ◌↔◌, ℕ, List, IfOk, IfErr, IsTrue, Err};
ghost use Rattle.command_words.specs.Words.{IsCommand, IsUsage};
ghost use Rattle.command_words.specs.declared.command.Command.{Command as Named};
ghost use Rattle.command_words.specs.inside.Split.{texts};

use crate::build::build;
use crate::file_name::FileName;
use crate::generate::generate;
use crate::short::{check, solve};
use crate::signoff::signoff;
use crate::step::step;
use crate::table::{BUILD, CHECK, GENERATE, SIGNOFF, SOLVE, STEP};
use number_place::texts_have_one_number;
use outside::Argv;
use std::alloc::Global;
use thiserror::Error;

/// A command with the values of its options.
#[derive(Drop)]
pub enum Command {
    /// Draws the network of a design, and signs it off.
    Build {
        /// The technology in LEF.
        lef: FileName,
        /// The cells in LEF.
        cells: FileName,
        /// The placed design in DEF.
        def: FileName,
        /// The script.
        pdn: FileName,
        /// The bias file.
        bias: FileName,
        /// The design with its network, in DEF, which is written.
        out_def: FileName,
        /// The netlist, which is written.
        netlist: FileName,
        /// The certificate, which is written.
        certificate: FileName,
        /// The report, which is written.
        report: FileName,
    },
    /// Bounds the voltages of a netlist.
    Solve {
        netlist: FileName,
        /// The certificate, which is written.
        certificate: FileName,
        /// The report, which is written.
        report: FileName,
    },
    /// Tests a certificate against a netlist.
    Check {
        netlist: FileName,
        certificate: FileName,
    },
    /// Bounds the voltages of a netlist with capacitors from step to step.
    Step {
        netlist: FileName,
        /// The wave file.
        waves: FileName,
        /// How long a step is, in units of 10^-18 s, from 1 to 10^18.
        time: u128,
        /// How many steps there are after the first state, from 1 to 1000.
        steps: u32,
        /// The certificate, which is written.
        certificate: FileName,
        /// The report, which is written.
        report: FileName,
    },
    /// Signs off a network that another tool drew over a design.
    Signoff {
        /// The technology in LEF.
        lef: FileName,
        /// The cells in LEF.
        cells: FileName,
        /// The placed design in DEF.
        def: FileName,
        /// The wiring in DEF.
        wires: FileName,
        /// The bias file.
        bias: FileName,
        /// The netlist, which is written.
        netlist: FileName,
        /// The certificate, which is written.
        certificate: FileName,
        /// The report, which is written.
        report: FileName,
    },
    /// Writes the texts of a made-up design.
    Generate {
        /// Which design it is.
        number: u64,
        /// How many rows it has, from 24 to 300.
        side: u32,
        lef: FileName,
        cells: FileName,
        def: FileName,
        pdn: FileName,
        bias: FileName,
    },
}

/// Why the words give no command.
#[derive(Clone, Copy, Debug, PartialEq, Eq, Error)]
pub enum WordsError {
    /// The words are those of no command.
    #[error("the words are those of no command")]
    Usage,
    /// Memory ran out.
    #[error("out of memory")]
    Want,
}

/// The words in a list.
fn all_words<'a>(alloc: Global, words: &'a Argv) -> Result<Vec<&'a str>, WordsError>
    ensures words { IfOk result (λ all. texts all.items ≡ words.now) }
    ensures want { IfErr result (λ error. error ≡ WordsError.Want) }
{
    let mut all = Vec::new(alloc);
    for at in 0..words.count() {
        let Ok(()) = all.push(words.word(at)) else {
            return Err(WordsError::Want);
        };
    }
    Ok(all)
}

/// The command that the words are.
fn command_of(alloc: Global, words: &[&str]) -> Result<Command, WordsError>
    ensures command { IfOk result (IsCommand (texts words.now)) }
    ensures usage { result ≡ Err WordsError.Usage → IsUsage (texts words.now) }
{
    if words.is_empty() {
        return Err(WordsError::Usage);
    }
    let name = words[0];
    let others = &words[1..];
    if name == BUILD.word {
        return build(alloc, others);
    }
    if name == SOLVE.word {
        return solve(alloc, others);
    }
    if name == CHECK.word {
        return check(alloc, others);
    }
    if name == GENERATE.word {
        return generate(alloc, others);
    }
    if name == STEP.word {
        return step(alloc, others);
    }
    if name == SIGNOFF.word {
        return signoff(alloc, others);
    }
    Err(WordsError::Usage)
}

/// Reads the words after the program's name.
///
/// A command has a name, and then its options in any order, each once, as `--x v` or `--x=v`. A value is not empty, does
/// not begin with `-` and has no line feed in it.
///
/// `COMMANDS` has the commands with their options.
///
/// The files that a command writes have different names: of `build` the last four of its options, of `signoff` the last
/// three, of `solve` and `step` the last two, of `generate` the last five. A number is ASCII digits: that of `--number` fits
/// 64 bits, that of `--side` is from 24 to 300, that of `--steps` from 1 to 1000. That of `--time` is in seconds, with a scale
/// or none, at 18 places, above 0 and at most 1 s.
///
/// `Usage` comes exactly where the words are those of no command.
pub fn read(alloc: Global, words: &Argv) -> Result<Command, WordsError>
    ensures command { IfOk result (IsCommand words.now) }
    ensures usage { result ≡ Err WordsError.Usage → IsUsage words.now }
{
    let all = match all_words(alloc, words) {
        Ok(all) => all,
        Err(error) => return Err(error),
    };
    command_of(alloc, &all)
}

/// Words are those of one command at most.
pub fn words_have_one_command()
    ensures { (words : List (List ℕ)) (a b : Named) → IsCommand words a → IsCommand words b → a ≡ b }
{
    texts_have_one_number();
}
