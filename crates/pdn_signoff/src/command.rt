//! The top call: from the words and the files to the exit status and the line.
ghost use Rattle.std.specs.Prelude.{◌≡◌, ◌≢◌, ◌⊎◌, ℕ, List, Some, IfSome};
ghost use Rattle.outside.specs.Counts.{Rose};
ghost use Rattle.outside.specs.Files.{Holdings};
ghost use Rattle.outside.specs.Known.{WhereKnown};
ghost use Rattle.answers.specs.declared.answer.Answer.{Answer as Told};
ghost use Rattle.answers.specs.declared.answer.Answer.TheVariants.{Want};
ghost use Rattle.command_words.specs.Words.{IsCommand};
ghost use Rattle.certificate_file.specs.declared.lists.Lists.{Lists};
ghost use Rattle.grid_net.specs.Certificate.{IsCertificate};
ghost use Rattle.judging.specs.Texts.{SolutionsLieBetween};
ghost use Rattle.output_files.specs.Outputs.{HoldEach};
ghost use Rattle.short_merge.specs.declared.merged.Merged.{Merged};
ghost use Rattle.solving.specs.Signed.{EachIsSupplied};
ghost use Rattle.spice_grid.specs.declared.named.Named.{Named};
ghost use Rattle.pdn_signoff.specs.Check.{FilesThen};
ghost use Rattle.pdn_signoff.specs.Solve.{SolverThen};
ghost use Rattle.pdn_signoff.specs.declared.design_files.DesignFiles.{DesignFiles as Names};
ghost use Rattle.pdn_signoff.specs.Command.{IsCause, CanRise, Ends, PrintEnds, IsCheckOf, HasCertificate, IsSolveOf, LeavesSigned, LeavesAccepted, LeavesBuildAccepted, LeavesSignoffAccepted, ChangesOnly, ChangesAmong, AreAlike};
ghost use Rattle.pdn_signoff.specs.Generate.{file_names, design_texts};
ghost use Rattle.building.specs.Inputs.{FiveTexts};
ghost use Rattle.pdn_signoff.specs.declared.build_files.BuildFiles.{BuildFiles as BuildNames};
ghost use Rattle.pdn_signoff.specs.Build.{files_written, LeavesBuilt, AreAccepted, AreBuiltAlike};
ghost use Rattle.stepping.specs.Inputs.{TwoTexts};
ghost use Rattle.pdn_signoff.specs.declared.step_files.StepFiles.{StepFiles as StepNames};
ghost use Rattle.pdn_signoff.specs.Step.{step_files_written, LeavesStepped, AreStepsAccepted, AreSteppedAlike};
ghost use Rattle.signing_off.specs.Inputs.{WiredTexts};
ghost use Rattle.pdn_signoff.specs.declared.signoff_files.SignoffFiles.{SignoffFiles as SignoffNames};
ghost use Rattle.pdn_signoff.specs.Signoff.{signoff_files_written, LeavesSignedOff, LeavesNetlistOfBuild, AreWiredAccepted, AreSignedAlike};
ghost use Rattle.pdn_signoff.specs.Words.{IsCheck, IsSolve, IsGenerate, IsBuild, IsStep, IsSignoff, IsNotSolve, IsNotBuild, IsNotStep, IsNotSignoff, WriteNothing, IsUsage};

use crate::build::build;
use crate::build_files::BuildFiles;
use crate::check::check;
use crate::design_files::DesignFiles;
use crate::generate::generate;
use crate::signoff::signoff;
use crate::signoff_files::SignoffFiles;
use crate::solve::solve;
use crate::step::step;
use crate::step_files::StepFiles;
use answers::Answer;
use bound_check::no_failing_test;
use command_words::{Command, WordsError, read, words_have_one_command};
use grid_net::Solver;
use judging::{answers_to_texts, texts_are_judged_once};
use number_place::values_fit_their_places;
use one_build::texts_have_one_build;
use one_design::texts_have_one_wired_design;
use outside::{Argv, Files, Sink, WriteError, send};
use signed_builds::built_wiring_is_signed_off_alike;
use signing_off::answers_to_wiring;
use solving::netlists_are_solved_once;
use std::alloc::Global;
use stepping::netlists_are_stepped_alike;

/// The exit status where the line of the answer could not be written.
const UNWRITTEN: u8 = 3;

/// The exit status where memory ran out.
const WANT: u8 = 10;

/// Runs the command that the words name, over the files and with the solver, prints its one line to `out` and answers the
/// exit status.
///
/// The order of the work of `check` is: the words, the netlist is read, the certificate is read, the netlist's text, its
/// shorts are merged, the certificate's text, the test. That of `solve` is: the words, the netlist is read, its text, its
/// shorts are merged, the supply is tested, the network is certified, the certificate is written, the report is written.
/// That of `generate` is: the words, the texts are made, the five files are written in the order technology, cells, design,
/// script, bias file. That of `build` is: the words, the five files are read, their texts, the pins and obstructions of macros
/// where a grid over macros meets a block, the grid is drawn, its network is extracted, the supply is tested, the network is certified, the four files are written in the order DEF, netlist,
/// certificate, report. That of `step` is: the words, the netlist and the waves are read, the netlist's text, its shorts are merged, the text of
/// the waves, capacitors that float, the number of steps, the supply, the steps are certified one after the other, the
/// certificate is written, the report is written. That of `signoff` is: the words, the five files are read, their texts, the
/// wiring is made a grid, its network is extracted, the supply is tested, the network is certified, the three files are written
/// in the order netlist, certificate, report. The line comes last. What comes later is answered only where nothing earlier is refused. `check`
/// judges a netlist of which some node has no supply as any other.
///
/// | Status | Line | When |
/// |---|---|---|
/// | 0, 1 | `built <p> pieces <s> stacks ..` | `build`: the four outputs are written; 1 where some verdict is UNSAFE or OPEN |
/// | 0, 1 | `signed <p> pieces <s> stacks ..` | `signoff`: the three outputs are written; 1 where some verdict is UNSAFE or OPEN |
/// | 0 | `certified <n> nodes` | `check`: the certificate holds on the merged netlist, of n groups |
/// | 0 | `solved <n> nodes <r> resistors <k> sweeps` | `solve`: certificate and report are written, of n groups |
/// | 0 | `stepped <n> nodes <m> steps` | `step`: certificate and report are written, of n groups and of m steps after step 0 |
/// | 0 | `generated` | `generate`: the five files hold the texts of the design |
/// | 2 | `pdn: Usage` | the words are those of no command |
/// | 3 | `pdn: ReadFault <file>` | the file could not be read |
/// | 3 | `pdn: WriteFault <file>` | `build`, `signoff`, `solve`, `step` and `generate`: the file could not be written |
/// | 3 | none, or a part of it | the line could not be written |
/// | 4 | `pdn: TooLong <file>` | the file has more than 2^28 bytes |
/// | 4 | `pdn: <file>:<line>:<word>: <Kind>` | its text is refused at this word; after `Number` stands why |
/// | 5 | `pdn: <Variant> ..` | `build`: the script draws no grid, `signoff`: the wiring gives none; or no network is extracted from it |
/// | 6 | `pdn: Range <quantity> <at> <number>` | a quantity of the netlist passes its limit, or in `step` one of the network of a step |
/// | 6 | `pdn: Range Steps 0 <number>` | `step`: so many steps times nodes, more than 5·10^6 |
/// | 6 | `pdn: FloatingCapacitor <node>` | `step`: a capacitor that is not 0 joins two groups of which none is a pad; the earlier group of the first such |
/// | 6 | `pdn: PadConflict <node> <first> <second>` | two pads of one node, or of one group, differ |
/// | 7 | `pdn: Unsupplied <node>` | `build`, `signoff`, `solve` and `step`: no chain of resistors joins the node to a pad; the first such node |
/// | 9 | `pdn: NotCertified <node> <side> <found>` | `check`: the certificate fails, first by this test |
/// | 10 | `pdn: Want`, or a part of a line | memory ran out |
pub fn run<F: Files, O: Sink, V: Solver>(
    alloc: Global,
    words: &Argv,
    files: &mut F,
    out: &mut O,
    solver: &mut V,
) -> u8
    // The run comes to an answer that has its cause, and ends with it.
    ensures answer { (answer : Told)
        × IsCause words.now
        (record { told = V.told solver.old; proposals = V.proposals solver.old })
        (record { told = V.told solver.new; proposals = V.proposals solver.new })
        (record { known = F.known files.old; counts = F.counts files.old })
        (record { known = F.known files.new; counts = F.counts files.new }) answer
        × Ends result
        (record { known = O.known out.old; faults = O.faults out.old })
        (record { known = O.known out.new; faults = O.faults out.new }) answer }

    // No file changes but the outputs of `build`, `signoff`, `solve`, `step` and `generate`.
    ensures kept { WriteNothing words.now → F.known files.new ≡ F.known files.old }
    ensures others { (netlist certificate report : List ℕ) → IsSolve words.now netlist certificate report
        → WhereKnown (ChangesOnly certificate report) (F.known files.old) (F.known files.new) }
    ensures among { (number side : ℕ) (names : Names) → IsGenerate words.now number side names
        → WhereKnown (ChangesAmong (file_names names)) (F.known files.old) (F.known files.new) }
    ensures outputs { (names : BuildNames) → IsBuild words.now names
        → WhereKnown (ChangesAmong (files_written names)) (F.known files.old) (F.known files.new) }
    ensures step_outputs { (names : StepNames) → IsStep words.now names
        → WhereKnown (ChangesAmong (step_files_written names)) (F.known files.old) (F.known files.new) }
    ensures signoff_outputs { (names : SignoffNames) → IsSignoff words.now names
        → WhereKnown (ChangesAmong (signoff_files_written names)) (F.known files.old) (F.known files.new) }

    // A run ends with 3 or 10, or no call on the files or the sink failed.
    ensures calm { result ≢ 3 → result ≢ 10
        → (F.counts files.new ≡ F.counts files.old) × (O.faults out.new ≡ O.faults out.old) }

    // What is refused as usage is that, and what is usage is refused.
    ensures usage { result ≡ 2 → IsUsage words.now }
    ensures refused { IsUsage words.now → (result ≡ 2) ⊎ ((result ≡ 3) ⊎ (result ≡ 10)) }

    // The status 0 of `check` says that the certificate holds on the merged netlist, where it is known what the files hold.
    ensures certified { (netlist certificate : List ℕ) → IsCheck words.now netlist certificate → result ≡ 0
        → IfSome (F.known files.old) (λ held. HasCertificate words.now held) }

    // Texts that stand for a netlist and two lists are judged, where no call fails and memory lasts: 0 where the
    // certificate holds, 9 where it does not.
    ensures judged { (held : Holdings) (named : Named) (merged : Merged) (lists : Lists)
        → F.known files.old ≡ Some held → IsCheckOf words.now held named merged lists
        → ¬ Rose (F.counts files.old).faults (F.counts files.new).faults → ¬ Rose (O.faults out.old) (O.faults out.new)
        → ((result ≡ 0) × IsCertificate merged.net lists.high lists.low)
        ⊎ (((result ≡ 9) × ¬ IsCertificate merged.net lists.high lists.low) ⊎ (result ≡ 10)) }

    // After the status 0 every solution of the netlist as it was written, shorts included, lies between the certificate's
    // two lists, at each node those of its group, where it is known what the files hold.
    ensures bounded { (held : Holdings) (named : Named) (merged : Merged) (lists : Lists)
        → F.known files.old ≡ Some held → IsCheckOf words.now held named merged lists → result ≡ 0
        → SolutionsLieBetween named merged lists }

    // After the status 0 of `solve` its two outputs hold the texts of a tight certificate of the merged netlist and of its
    // report, and every solution of the netlist as it was written, shorts included, lies within the intervals that the
    // report prints, where it is known what the files hold. The certificate stands to what the solver tells as
    // certification has it.
    ensures signed { (netlist certificate report : List ℕ) → IsSolve words.now netlist certificate report → result ≡ 0
        → WhereKnown (LeavesSigned (V.told solver.old) netlist certificate report) (F.known files.old) (F.known files.new) }

    // Then `check` over the netlist and the certificate accepts them, unless the netlist is itself one of the outputs, where
    // it is known what the files hold.
    ensures accepted { (netlist certificate report : List ℕ) → IsSolve words.now netlist certificate report → result ≡ 0
        → netlist ≢ certificate → netlist ≢ report
        → WhereKnown (LeavesAccepted netlist certificate) (F.known files.old) (F.known files.new) }

    // Then the solver was asked. What it tells never changes.
    ensures asked { (netlist certificate report : List ℕ) → IsSolve words.now netlist certificate report → result ≡ 0
        → Rose (V.proposals solver.old) (V.proposals solver.new) }
    ensures told { V.told solver.new ≡ V.told solver.old }

    // A text that stands for a netlist is solved, where no call fails and memory lasts: 0 where each node of its merged
    // network is supplied, 7 where one is not.
    ensures solved { (held : Holdings) (named : Named) (merged : Merged)
        → F.known files.old ≡ Some held → IsSolveOf words.now held named merged
        → ¬ Rose (F.counts files.old).faults (F.counts files.new).faults → ¬ Rose (O.faults out.old) (O.faults out.new)
        → ((result ≡ 0) × EachIsSupplied merged.net)
        ⊎ (((result ≡ 7) × ¬ EachIsSupplied merged.net) ⊎ (result ≡ 10)) }

    // After the status 0 of `generate` its five files hold the texts of the design with this number and this side, and all
    // other files stay, where it is known what the files hold.
    ensures generated { (number side : ℕ) (names : Names) → IsGenerate words.now number side names → result ≡ 0
        → WhereKnown (HoldEach (design_texts number side names)) (F.known files.old) (F.known files.new) }

    // Words of `generate` end with 0, where no call fails and memory lasts.
    ensures made { (number side : ℕ) (names : Names) → IsGenerate words.now number side names
        → ¬ Rose (F.counts files.old).faults (F.counts files.new).faults → ¬ Rose (O.faults out.old) (O.faults out.new)
        → (result ≡ 0) ⊎ (result ≡ 10) }

    // After the status 0 or 1 of `build` its four outputs hold the texts of the grid that the script draws over the design
    // and its blocks, of the network of that grid, with one resistor for each piece of wire between neighbouring junctions
    // and for each array of cuts and no other, of a tight certificate of the network, and of the report. The pins of blocks
    // that a grid over macros meets count as straps; the written design is without them. For every solution of Ohm's
    // and Kirchhoff's laws on the network, for every load within its range and over any common denominator, each node's
    // voltage and each branch's current lie within the intervals that the report holds for it, and each branch that is
    // printed SAFE keeps its limit. The status is 1 where some verdict is UNSAFE or OPEN. All of it speaks of what the
    // files held at entry and hold after the call, where that is known.
    ensures built { (names : BuildNames) → IsBuild words.now names → (result ≡ 0) ⊎ (result ≡ 1)
        → WhereKnown (LeavesBuilt (V.told solver.old) names result) (F.known files.old) (F.known files.new) }

    // Then `check` over the netlist and the certificate accepts them, where it is known what the files hold.
    ensures build_accepted { (names : BuildNames) → IsBuild words.now names → (result ≡ 0) ⊎ (result ≡ 1)
        → WhereKnown (LeavesBuildAccepted names) (F.known files.old) (F.known files.new) }

    // Then the solver was asked.
    ensures build_asked { (names : BuildNames) → IsBuild words.now names → (result ≡ 0) ⊎ (result ≡ 1)
        → Rose (V.proposals solver.old) (V.proposals solver.new) }

    // Texts that nothing refuses are built, where no call fails and memory lasts: with 0 or 1.
    ensures completed { (held : Holdings) (names : BuildNames) (texts : FiveTexts) → F.known files.old ≡ Some held
        → IsBuild words.now names → AreAccepted held names texts
        → ¬ Rose (F.counts files.old).faults (F.counts files.new).faults → ¬ Rose (O.faults out.old) (O.faults out.new)
        → (result ≡ 0) ⊎ ((result ≡ 1) ⊎ (result ≡ 10)) }

    // After the status 0 of `step` its two outputs hold the texts of lists for each step that are a certificate of all steps of the
    // merged netlist with the changes of its waves. For every solution of Ohm's and Kirchhoff's laws and of the backward Euler
    // rule over the steps, for every load within its range at each step and over any common denominator, each node's voltage at
    // each step lies within the interval that the report holds for it, where it is known what the files hold.
    ensures stepped { (names : StepNames) → IsStep words.now names → result ≡ 0
        → WhereKnown (LeavesStepped names) (F.known files.old) (F.known files.new) }

    // Then the solver was asked.
    ensures step_asked { (names : StepNames) → IsStep words.now names → result ≡ 0
        → Rose (V.proposals solver.old) (V.proposals solver.new) }

    // Texts that nothing refuses are stepped, where no call fails and memory lasts.
    ensures step_completed { (held : Holdings) (names : StepNames) (texts : TwoTexts) → F.known files.old ≡ Some held
        → IsStep words.now names → AreStepsAccepted held names texts
        → ¬ Rose (F.counts files.old).faults (F.counts files.new).faults → ¬ Rose (O.faults out.old) (O.faults out.new)
        → (result ≡ 0) ⊎ (result ≡ 10) }

    // After the status 0 or 1 of `signoff` its three outputs hold the texts of the network of the grid of the wiring, with one
    // resistor for each piece of wire between neighbouring junctions and for each array of cuts and no other, of a tight
    // certificate of the network, and of the report. For every solution of Ohm's and Kirchhoff's laws on the network, for
    // every load within its range and over any common denominator, each node's voltage and each branch's current lie within
    // the intervals that the report holds for it, and each branch that is printed SAFE keeps its limit. The status is 1
    // where some verdict is UNSAFE or OPEN. All of it speaks of what the files held at entry and hold after the call, where
    // that is known.
    ensures signed_off { (names : SignoffNames) → IsSignoff words.now names → (result ≡ 0) ⊎ (result ≡ 1)
        → WhereKnown (LeavesSignedOff (V.told solver.old) names result) (F.known files.old) (F.known files.new) }

    // Then `check` over the netlist and the certificate accepts them, where it is known what the files hold.
    ensures signoff_accepted { (names : SignoffNames) → IsSignoff words.now names → (result ≡ 0) ⊎ (result ≡ 1)
        → WhereKnown (LeavesSignoffAccepted names) (F.known files.old) (F.known files.new) }

    // Where the wiring is the DEF that a `build` over one domain wrote in which no grid over macros meets a block, and the other texts are those that it read, the netlist is that of the `build`, byte for byte, where it is known
    // what the files hold.
    ensures signoff_of_build { (names : SignoffNames) → IsSignoff words.now names → (result ≡ 0) ⊎ (result ≡ 1)
        → WhereKnown (LeavesNetlistOfBuild names) (F.known files.old) (F.known files.new) }

    // Then the solver was asked.
    ensures signoff_asked { (names : SignoffNames) → IsSignoff words.now names → (result ≡ 0) ⊎ (result ≡ 1)
        → Rose (V.proposals solver.old) (V.proposals solver.new) }

    // Texts that nothing refuses are signed off, where no call fails and memory lasts: with 0 or 1.
    ensures signoff_completed { (held : Holdings) (names : SignoffNames) (texts : WiredTexts)
        → F.known files.old ≡ Some held → IsSignoff words.now names → AreWiredAccepted held names texts
        → ¬ Rose (F.counts files.old).faults (F.counts files.new).faults → ¬ Rose (O.faults out.old) (O.faults out.new)
        → (result ≡ 0) ⊎ ((result ≡ 1) ⊎ (result ≡ 10)) }
{
    no_failing_test();
    answers_to_texts();
    texts_are_judged_once();
    netlists_are_solved_once();
    netlists_are_stepped_alike();
    answers_to_wiring();
    built_wiring_is_signed_off_alike();
    words_have_one_command();
    run_command(alloc, words, files, out, solver)
}

/// Comes to an answer, and tells it.
fn run_command<F: Files, O: Sink, V: Solver>(
    alloc: Global,
    words: &Argv,
    files: &mut F,
    out: &mut O,
    solver: &mut V,
) -> u8
    ensures answer { (answer : Told)
        × IsCause words.now
        (record { told = V.told solver.old; proposals = V.proposals solver.old })
        (record { told = V.told solver.new; proposals = V.proposals solver.new })
        (record { known = F.known files.old; counts = F.counts files.old })
        (record { known = F.known files.new; counts = F.counts files.new }) answer
        × Ends result
        (record { known = O.known out.old; faults = O.faults out.old })
        (record { known = O.known out.new; faults = O.faults out.new }) answer }
    ensures told { V.told solver.new ≡ V.told solver.old }
{
    let answer = answer_of(alloc, words, files, solver);
    tell(alloc, &answer, out)
}

/// The answer to the words.
fn answer_of<F: Files, V: Solver>(
    alloc: Global,
    words: &Argv,
    files: &mut F,
    solver: &mut V,
) -> Answer
    ensures cause { IsCause words.now
        (record { told = V.told solver.old; proposals = V.proposals solver.old })
        (record { told = V.told solver.new; proposals = V.proposals solver.new })
        (record { known = F.known files.old; counts = F.counts files.old })
        (record { known = F.known files.new; counts = F.counts files.new }) result }
    ensures told { V.told solver.new ≡ V.told solver.old }
{
    words_have_one_command();
    match read(alloc, words) {
        Ok(command) => carry_out(alloc, command, files, solver),
        Err(WordsError::Usage) => Answer::Usage,
        Err(WordsError::Want) => Answer::Want,
    }
}

/// Carries out the command.
fn carry_out<F: Files, V: Solver>(
    alloc: Global,
    command: Command,
    files: &mut F,
    solver: &mut V,
) -> Answer
    requires { (words : List (List ℕ)) × IsCommand words command }
    ensures cause { (words : List (List ℕ)) → IsCommand words command → IsCause words
        (record { told = V.told solver.old; proposals = V.proposals solver.old })
        (record { told = V.told solver.new; proposals = V.proposals solver.new })
        (record { known = F.known files.old; counts = F.counts files.old })
        (record { known = F.known files.new; counts = F.counts files.new }) result }
    ensures told { V.told solver.new ≡ V.told solver.old }
{
    words_have_one_command();
    values_fit_their_places();
    match command {
        Command::Check {
            netlist,
            certificate,
        } => check(alloc, files, netlist.as_str(), certificate.as_str()),
        Command::Solve {
            netlist,
            certificate,
            report,
        } => solve(
            alloc,
            files,
            netlist.as_str(),
            certificate.as_str(),
            report.as_str(),
            solver,
        ),
        Command::Generate {
            number,
            side,
            lef,
            cells,
            def,
            pdn,
            bias,
        } => {
            let outputs = DesignFiles {
                lef,
                cells,
                def,
                pdn,
                bias,
            };
            generate(alloc, files, number, side, &outputs)
        }
        Command::Build {
            lef,
            cells,
            def,
            pdn,
            bias,
            out_def,
            netlist,
            certificate,
            report,
        } => {
            let names = BuildFiles {
                lef,
                cells,
                def,
                pdn,
                bias,
                out_def,
                netlist,
                certificate,
                report,
            };
            build(alloc, files, &names, solver)
        }
        Command::Step {
            netlist,
            waves,
            time,
            steps,
            certificate,
            report,
        } => {
            let names = StepFiles {
                netlist,
                waves,
                time,
                steps,
                certificate,
                report,
            };
            step(alloc, files, &names, solver)
        }
        Command::Signoff {
            lef,
            cells,
            def,
            wires,
            bias,
            netlist,
            certificate,
            report,
        } => {
            let names = SignoffFiles {
                lef,
                cells,
                def,
                wires,
                bias,
                netlist,
                certificate,
                report,
            };
            signoff(alloc, files, &names, solver)
        }
    }
}

/// Prints the line of the answer, or, where there is no memory for it, that of want of memory. Answers the exit status.
fn tell<O: Sink>(alloc: Global, answer: &Answer, out: &mut O) -> u8
    ensures { Ends result
        (record { known = O.known out.old; faults = O.faults out.old })
        (record { known = O.known out.new; faults = O.faults out.new }) answer.now
        ⊎ Ends result
        (record { known = O.known out.old; faults = O.faults out.old })
        (record { known = O.known out.new; faults = O.faults out.new }) Want }
{
    match answer.line(alloc) {
        Ok(line) => print(out, &line, answer.status()),
        Err(_) => print(out, b"pdn: Want\n", WANT),
    }
}

/// Writes the line, and answers this status, or that of a line that was not written.
fn print<O: Sink>(out: &mut O, line: &[u8], status: u8) -> u8
    ensures { PrintEnds result status line.now
        (record { known = O.known out.old; faults = O.faults out.old })
        (record { known = O.known out.new; faults = O.faults out.new }) }
{
    match send(out, line) {
        Ok(()) => status,
        Err(WriteError::WriteFault) => UNWRITTEN,
        Err(WriteError::Want) => WANT,
    }
}

/// Where it is known what the files hold and no count stands at its last value, one answer alone, want of memory aside,
/// has its cause: so each of them comes exactly where its cause holds. Of `solve` this leaves open the number of sweeps, of
/// `build` and `signoff` sweeps and verdicts, which another tight certificate of the same network may change, and of `step` whether a limit is passed
/// at some step, and which, over the bounds of the steps before, which are tight and not single.
pub fn one_answer_has_its_cause()
    ensures one { (words : List (List ℕ)) (solver solver' : SolverThen) (before after : FilesThen) (held : Holdings)
        (a b : Told) → before.known ≡ Some held → CanRise after.counts → IsNotSolve words → IsNotBuild words → IsNotStep words
        → IsNotSignoff words
        → IsCause words solver solver' before after a → IsCause words solver solver' before after b
        → a ≢ Want → b ≢ Want → a ≡ b }
    ensures solved { (words : List (List ℕ)) (solver solver' : SolverThen) (before after : FilesThen) (held : Holdings)
        (netlist certificate report : List ℕ) (a b : Told) → before.known ≡ Some held → CanRise after.counts
        → IsSolve words netlist certificate report
        → IsCause words solver solver' before after a → IsCause words solver solver' before after b
        → a ≢ Want → b ≢ Want → AreAlike a b }
    ensures built { (words : List (List ℕ)) (solver solver' : SolverThen) (before after : FilesThen) (held : Holdings)
        (names : BuildNames) (a b : Told) → before.known ≡ Some held → CanRise after.counts → IsBuild words names
        → IsCause words solver solver' before after a → IsCause words solver solver' before after b
        → a ≢ Want → b ≢ Want → AreBuiltAlike a b }
    ensures stepped { (words : List (List ℕ)) (solver solver' : SolverThen) (before after : FilesThen) (held : Holdings)
        (names : StepNames) (a b : Told) → before.known ≡ Some held → CanRise after.counts → IsStep words names
        → IsCause words solver solver' before after a → IsCause words solver solver' before after b
        → a ≢ Want → b ≢ Want → AreSteppedAlike before names a b }
    ensures signed_off { (words : List (List ℕ)) (solver solver' : SolverThen) (before after : FilesThen) (held : Holdings)
        (names : SignoffNames) (a b : Told) → before.known ≡ Some held → CanRise after.counts → IsSignoff words names
        → IsCause words solver solver' before after a → IsCause words solver solver' before after b
        → a ≢ Want → b ≢ Want → AreSignedAlike a b }
{
    texts_are_judged_once();
    netlists_are_solved_once();
    netlists_are_stepped_alike();
    texts_have_one_build();
    texts_have_one_wired_design();
    words_have_one_command();
}
