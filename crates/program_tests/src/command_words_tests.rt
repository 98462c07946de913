//! Words of commands. What else is no command is told by cases of the program.
use crate::same::same;
use command_words::*;
use outside::Argv;
use std::process::Abort;

/// The words in an `Argv`.
fn argv(rt: &(impl Abort + AllocGlobal), words: &[&str]) -> Argv {
    let mut argv = Argv::new(rt.alloc()).expect(rt, "memory");
    for word in words {
        argv.push(*word).expect(rt, "memory");
    }
    argv
}

/// Words of a command, its name, its numbers, and its files in the order of its options.
struct Row {
    words: &'static [&'static str],
    name: &'static str,
    numbers: (u128, u128),
    files: &'static [&'static str],
}

static ROWS: [Row; 7] = [
    Row {
        words: &[],
        name: "usage",
        numbers: (0, 0),
        files: &[],
    },
    Row {
        words: &[
            "build",
            "--report",
            "h",
            "--lef=a",
            "--cells",
            "a",
            "--def=b=1",
            "--pdn",
            "c",
            "--bias",
            "d",
            "--out-def",
            "e",
            "--netlist=f",
            "--certificate",
            "g",
        ],
        name: "build",
        numbers: (0, 0),
        files: &["a", "a", "b=1", "c", "d", "e", "f", "g", "h"],
    },
    Row {
        words: &[
            "signoff",
            "--report=h",
            "--wires",
            "b",
            "--lef=a",
            "--cells=k",
            "--def",
            "b",
            "--bias",
            "d",
            "--certificate=g",
            "--netlist",
            "f",
        ],
        name: "signoff",
        numbers: (0, 0),
        files: &["a", "k", "b", "b", "d", "f", "g", "h"],
    },
    Row {
        words: &[
            "solve",
            "--certificate=x",
            "--netlist",
            "x",
            "--report",
            "y",
        ],
        name: "solve",
        numbers: (0, 0),
        files: &["x", "x", "y"],
    },
    Row {
        words: &["check", "--certificate", "x", "--netlist=x"],
        name: "check",
        numbers: (0, 0),
        files: &["x", "x"],
    },
    Row {
        words: &[
            "generate",
            "--side=0300",
            "--number",
            "18446744073709551615",
            "--lef",
            "a",
            "--cells",
            "b",
            "--def",
            "c",
            "--pdn",
            "d",
            "--bias=e",
        ],
        name: "generate",
        numbers: (18_446_744_073_709_551_615, 300),
        files: &["a", "b", "c", "d", "e"],
    },
    Row {
        words: &[
            "step",
            "--steps",
            "01000",
            "--time=+0.5n",
            "--report",
            "e",
            "--netlist",
            "a",
            "--waves=a",
            "--certificate",
            "d",
        ],
        name: "step",
        numbers: (500_000_000, 1000),
        files: &["a", "a", "d", "e"],
    },
];

/// The name of a command and its numbers.
fn name_of(command: &Command) -> (&'static str, u128, u128) {
    match command {
        Command::Build { .. } => ("build", 0, 0),
        Command::Signoff { .. } => ("signoff", 0, 0),
        Command::Solve { .. } => ("solve", 0, 0),
        Command::Check { .. } => ("check", 0, 0),
        Command::Generate { number, side, .. } => (
            "generate",
            u128::from(*number),
            u128::from(*side),
        ),
        Command::Step { time, steps, .. } => ("step", *time, u128::from(*steps)),
    }
}

/// Compares the files of `build`, `signoff` and `generate`.
fn compare_inputs(rt: &impl Abort, command: &Command, want: &[&str]) {
    match command {
        Command::Build {
            lef,
            cells,
            def,
            pdn,
            bias,
            out_def,
            netlist,
            certificate,
            report,
        } => {
            let inputs = [
                lef.as_str(),
                cells.as_str(),
                def.as_str(),
                pdn.as_str(),
                bias.as_str(),
            ];
            let outputs = [
                out_def.as_str(),
                netlist.as_str(),
                certificate.as_str(),
                report.as_str(),
            ];
            compare_two(rt, &inputs, &outputs, want);
        }
        Command::Signoff {
            lef,
            cells,
            def,
            wires,
            bias,
            netlist,
            certificate,
            report,
        } => {
            let inputs = [
                lef.as_str(),
                cells.as_str(),
                def.as_str(),
                wires.as_str(),
                bias.as_str(),
            ];
            let outputs = [netlist.as_str(), certificate.as_str(), report.as_str()];
            compare_two(rt, &inputs, &outputs, want);
        }
        Command::Generate {
            lef,
            cells,
            def,
            pdn,
            bias,
            ..
        } => {
            let inputs = [
                lef.as_str(),
                cells.as_str(),
                def.as_str(),
                pdn.as_str(),
                bias.as_str(),
            ];
            compare_two(rt, &inputs, &[], want);
        }
        _ => {}
    }
}

/// Compares the files of `solve`, `check` and `step`.
fn compare_netlists(rt: &impl Abort, command: &Command, want: &[&str]) {
    match command {
        Command::Solve {
            netlist,
            certificate,
            report,
        } => {
            let outputs = [certificate.as_str(), report.as_str()];
            compare_two(rt, &[netlist.as_str()], &outputs, want);
        }
        Command::Check {
            netlist,
            certificate,
        } => compare_two(rt, &[netlist.as_str()], &[certificate.as_str()], want),
        Command::Step {
            netlist,
            waves,
            certificate,
            report,
            ..
        } => {
            let inputs = [netlist.as_str(), waves.as_str()];
            let outputs = [certificate.as_str(), report.as_str()];
            compare_two(rt, &inputs, &outputs, want);
        }
        _ => {}
    }
}

/// Compares inputs and outputs with a list of both.
fn compare_two(rt: &impl Abort, inputs: &[&str], outputs: &[&str], want: &[&str]) {
    assert!(rt; inputs.len() <= want.len(), "the inputs");
    same(rt, inputs, &want[..inputs.len()]);
    same(rt, outputs, &want[inputs.len()..]);
}

/// Compares what is read of words.
fn compare(
    rt: &(impl Abort + AllocGlobal),
    words: &[&str],
    name: (&'static str, u128, u128),
    files: &[&str],
) {
    let argv = argv(rt, words);
    match &read(rt.alloc(), &argv) {
        Ok(command) => {
            same(rt, name_of(command), name);
            compare_inputs(rt, command, files);
            compare_netlists(rt, command, files);
        }
        Err(WordsError::Usage) => same(rt, ("usage", 0, 0), name),
        Err(_) => panic!(rt; "want of memory"),
    }
}

#[test]
fn options_in_any_order(rt: HostRuntime) {
    for row in &ROWS {
        compare(
            &rt,
            row.words,
            (row.name, row.numbers.0, row.numbers.1),
            row.files,
        );
    }
}

/// Times of a step, in units of 10^-18 s.
static TIMES: [(&str, u128); 9] = [
    ("1n", 1_000_000_000),
    ("1e-9s", 1_000_000_000),
    ("1NSEC", 1_000_000_000),
    ("5e-19", 1),
    ("1.4e-18", 1),
    ("1.5e-18", 2),
    ("1e-15meg", 1_000_000_000),
    ("1000m", 1_000_000_000_000_000_000),
    ("1.0000000000000000004", 1_000_000_000_000_000_000),
];

#[test]
fn times_of_steps(rt: HostRuntime) {
    for (text, units) in &TIMES {
        let words = [
            "step",
            "--netlist",
            "a",
            "--waves",
            "b",
            "--time",
            *text,
            "--steps",
            "1",
            "--certificate",
            "c",
            "--report",
            "d",
        ];
        compare(&rt, &words, ("step", *units, 1), &["a", "b", "c", "d"]);
    }
}

#[test]
fn one_law(_rt: HostRuntime) {
    words_have_one_command();
}
