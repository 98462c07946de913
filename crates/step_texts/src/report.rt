//! The report of all steps.
ghost use Rattle.std.specs.Prelude.{◌≡◌, ◌++◌, ◌∷◌, ◌<◌, ℤ, List, length, All, IfOk, OnOk};
ghost use Rattle.fixed_decimal.specs.Printed.{printed};
ghost use Rattle.signoff_report.specs.Report.{line_of, node_words};
ghost use Rattle.step_texts.specs.Texts.{shown_by, node_lines, reported_step, steps_report};

use crate::step::append_step;
use bound_check::NANOVOLT;
use entry_list::Entries;
use fixed_decimal::print;
use outside::Name;
use rounding::{div_ceil, div_floor};
use std::alloc::{AllocError, Global};

/// The report of all steps, from step 0 on: its first line, for each step the line `step <t>` and a line for each node,
/// and the line `end`. The line of a node has the two ends of its voltage at the step with 9 places, in volts, rounded
/// outward.
///
/// There is one list of each kind for each step, with one voltage for each name, in yoctovolts.
/// Error: want of memory.
pub fn report_of_steps(
    alloc: Global,
    names: &[Name],
    high: &[Entries<i128>],
    low: &[Entries<i128>],
) -> Result<Vec<u8>, AllocError>
    requires steps { length low.now ≡ length high.now }
    requires high { All (λ (list : List ℤ). length list ≡ length names.now) high.now }
    requires low { All (λ (list : List ℤ). length list ≡ length names.now) low.now }
    ensures { IfOk result (λ text. text.items ≡ steps_report names.now high.now low.now) }
{
    let mut out = Vec::new(alloc);
    out.extend_from_slice(b"pdn steps 1\n")?;
    for (step, list) in high.iter().enumerate() {
        append_step(&mut out, step)?;
        append_nodes(&mut out, names, list.as_slice(), low[step].as_slice())?;
    }
    out.extend_from_slice(b"end\n")?;
    Ok(out)
}

/// Adds the lines of the nodes.
fn append_nodes(
    out: &mut Vec<u8>,
    names: &[Name],
    high: &[i128],
    low: &[i128],
) -> Result<(), AllocError>
    requires high { length high.now ≡ length names.now }
    requires low { length low.now ≡ length names.now }
    ensures { OnOk result (out.new.items ≡ out.old.items ++ node_lines names.now high.now low.now) }
{
    for (node, name) in names.iter().enumerate() {
        append_node(out, name.bytes(), shown_by(high, low, node))?;
    }
    Ok(())
}

/// Between which two voltages a node lies by two lists, in nanovolts.
fn shown_by(high: &[i128], low: &[i128], node: usize) -> (i128, i128)
    requires high { node < length high.now }
    requires low { node < length low.now }
    ensures { result ≡ shown_by high.now low.now node }
{
    (
        div_floor(low[node], NANOVOLT),
        div_ceil(high[node], NANOVOLT),
    )
}

/// Adds the line of a node.
fn append_node(out: &mut Vec<u8>, name: &[u8], shown: (i128, i128)) -> Result<(), AllocError>
    ensures { OnOk result (out.new.items ≡ out.old.items ++ line_of (node_words name.now shown)) }
{
    out.extend_from_slice(b"node ")?;
    out.extend_from_slice(name)?;
    append_voltage(out, shown.0)?;
    append_voltage(out, shown.1)?;
    out.push(b'\n')?;
    Ok(())
}

/// Adds a blank and a voltage with 9 places.
fn append_voltage(out: &mut Vec<u8>, value: i128) -> Result<(), AllocError>
    ensures { OnOk result (out.new.items ≡ out.old.items ++ (32 ∷ printed value 9)) }
{
    out.push(b' ')?;
    print(out, value, 9)?;
    Ok(())
}
