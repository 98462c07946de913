//! The table of commands: the options of each, and what help says of them.

/// An option of a command.
#[derive(Clone, Copy)]
pub struct OptionText {
    /// The name, without the dashes before it.
    pub name: &'static str,
    /// What help calls the value.
    pub value: &'static str,
    /// What the value is.
    pub help: &'static str,
}

/// A command.
#[derive(Clone, Copy)]
pub struct CommandText {
    /// The word of the command line.
    pub word: &'static str,
    /// The program and the word, as usage shows them.
    pub name: &'static str,
    /// What the command does.
    pub about: &'static str,
    /// The options, in the order in which help shows them.
    pub options: &'static [OptionText],
}

const LEF: OptionText = OptionText {
    name: "lef",
    value: "FILE",
    help: "LEF technology to read: layers, cut layers, generated via rules",
};

const CELLS: OptionText = OptionText {
    name: "cells",
    value: "FILE",
    help: "LEF cells to read: sites and macros; may be the file of --lef",
};

const PLACED: OptionText = OptionText {
    name: "def",
    value: "FILE",
    help: "Placed DEF to read, without a power grid: die area, rows, components",
};

const DRAWN: OptionText = OptionText {
    name: "def",
    value: "FILE",
    help: "Placed DEF to read: die area, rows, components; wires in it are passed over",
};

const SCRIPT: OptionText = OptionText {
    name: "pdn",
    value: "FILE",
    help: "PDN script to read: OpenROAD's power grid commands",
};

const WIRES: OptionText = OptionText {
    name: "wires",
    value: "FILE",
    help: "DEF to read with the wires of the power and ground nets; may be the file of --def",
};

const BIAS: OptionText = OptionText {
    name: "bias",
    value: "FILE",
    help: "Bias file to read: supplies, pads, currents of cells, drop limits",
};

const OUT_DEF: OptionText = OptionText {
    name: "out-def",
    value: "FILE",
    help: "DEF to write: the design with its power grid",
};

const OUT_NETLIST: OptionText = OptionText {
    name: "netlist",
    value: "FILE",
    help: "SPICE netlist to write: the resistors, supplies and loads of the grid",
};

const OUT_CERTIFICATE: OptionText = OptionText {
    name: "certificate",
    value: "FILE",
    help: "Certificate to write: two voltages for each node",
};

const OUT_REPORT: OptionText = OptionText {
    name: "report",
    value: "FILE",
    help: "Report to write: bounds of voltages and currents, with verdicts",
};

const OUT_BOUNDS: OptionText = OptionText {
    name: "report",
    value: "FILE",
    help: "Report to write: bounds of voltages and currents",
};

const NETLIST: OptionText = OptionText {
    name: "netlist",
    value: "FILE",
    help: "SPICE netlist to read: resistors, voltage sources and loads",
};

const CERTIFICATE: OptionText = OptionText {
    name: "certificate",
    value: "FILE",
    help: "Certificate to read: two voltages for each node",
};

const CAPACITORS: OptionText = OptionText {
    name: "netlist",
    value: "FILE",
    help: "SPICE netlist to read: resistors, capacitors, voltage sources and loads",
};

const WAVES: OptionText = OptionText {
    name: "waves",
    value: "FILE",
    help: "Wave file to read: what loads draw from a step on",
};

const TIME: OptionText = OptionText {
    name: "time",
    value: "SECONDS",
    help: "Time step, with a SPICE scale or none, as 0.5n: above 0, at most 1",
};

const STEPS: OptionText = OptionText {
    name: "steps",
    value: "COUNT",
    help: "Number of steps: 1 to 1000",
};

const STEP_CERTIFICATE: OptionText = OptionText {
    name: "certificate",
    value: "FILE",
    help: "Certificate to write: two voltages for each node at each step",
};

const STEP_REPORT: OptionText = OptionText {
    name: "report",
    value: "FILE",
    help: "Report to write: bounds of voltages at each step",
};

const NUMBER: OptionText = OptionText {
    name: "number",
    value: "SEED",
    help: "Seed number of the design: 0 to 18446744073709551615",
};

const SIDE: OptionText = OptionText {
    name: "side",
    value: "ROWS",
    help: "Side of the design in rows: 24 to 300",
};

const OUT_LEF: OptionText = OptionText {
    name: "lef",
    value: "FILE",
    help: "LEF technology to write",
};

const OUT_CELLS: OptionText = OptionText {
    name: "cells",
    value: "FILE",
    help: "LEF cells to write",
};

const OUT_PLACED: OptionText = OptionText {
    name: "def",
    value: "FILE",
    help: "Placed DEF to write",
};

const OUT_SCRIPT: OptionText = OptionText {
    name: "pdn",
    value: "FILE",
    help: "PDN script to write",
};

const OUT_BIAS: OptionText = OptionText {
    name: "bias",
    value: "FILE",
    help: "Bias file to write",
};

const BUILD_OPTIONS: [OptionText; 9] = [
    LEF,
    CELLS,
    PLACED,
    SCRIPT,
    BIAS,
    OUT_DEF,
    OUT_NETLIST,
    OUT_CERTIFICATE,
    OUT_REPORT,
];

const SOLVE_OPTIONS: [OptionText; 3] = [NETLIST, OUT_CERTIFICATE, OUT_BOUNDS];

const CHECK_OPTIONS: [OptionText; 2] = [NETLIST, CERTIFICATE];

const STEP_OPTIONS: [OptionText; 6] = [
    TIME,
    STEPS,
    CAPACITORS,
    WAVES,
    STEP_CERTIFICATE,
    STEP_REPORT,
];

const SIGNOFF_OPTIONS: [OptionText; 8] = [
    LEF,
    CELLS,
    DRAWN,
    WIRES,
    BIAS,
    OUT_NETLIST,
    OUT_CERTIFICATE,
    OUT_REPORT,
];

const GENERATE_OPTIONS: [OptionText; 7] = [
    NUMBER, SIDE, OUT_LEF, OUT_CELLS, OUT_PLACED, OUT_SCRIPT, OUT_BIAS,
];

pub(crate) const BUILD: CommandText = CommandText {
    word: "build",
    name: "pdn build",
    about: "Draws the power grid of a placed design, extracts it, and signs off its IR drop and currents",
    options: &BUILD_OPTIONS,
};

pub(crate) const SIGNOFF: CommandText = CommandText {
    word: "signoff",
    name: "pdn signoff",
    about: "Signs off the IR drop and the currents of a power grid that another tool drew",
    options: &SIGNOFF_OPTIONS,
};

pub(crate) const SOLVE: CommandText = CommandText {
    word: "solve",
    name: "pdn solve",
    about: "Bounds the voltages and currents of a netlist, with a certificate",
    options: &SOLVE_OPTIONS,
};

pub(crate) const STEP: CommandText = CommandText {
    word: "step",
    name: "pdn step",
    about: "Bounds the voltages of a netlist with capacitors at each of many time steps",
    options: &STEP_OPTIONS,
};

pub(crate) const CHECK: CommandText = CommandText {
    word: "check",
    name: "pdn check",
    about: "Checks whether a certificate holds on a netlist",
    options: &CHECK_OPTIONS,
};

pub(crate) const GENERATE: CommandText = CommandText {
    word: "generate",
    name: "pdn generate",
    about: "Writes the five input files of a made-up design",
    options: &GENERATE_OPTIONS,
};

/// The commands of `pdn`, in the order in which help shows them.
pub const COMMANDS: [CommandText; 6] = [BUILD, SIGNOFF, SOLVE, STEP, CHECK, GENERATE];
