//! The text of a report.
ghost use Rattle.std.specs.Prelude.{◌≡◌, ◌<◌, ◌+◌, ◌++◌, ◌∷◌, [], length, codes, decimal, IfOk, OnOk};
ghost use Rattle.std.specs.List.{flat_map, enumerate_from, zip};
ghost use Rattle.fixed_decimal.specs.Printed.{printed};
ghost use Rattle.em_rules.specs.declared.words.Verdict.{Verdict as Word};
ghost use Rattle.signoff_report.specs.Limits.{AreLimitsOf, branch_at};
ghost use Rattle.signoff_report.specs.inside.Intervals.{IsShort, longest_current};
ghost use Rattle.signoff_report.specs.inside.Lines.{flow_text};
ghost use Rattle.signoff_report.specs.Report.{word_of, net_line, net_words, node_line, node_words, branch_line, line_of, written_report};

use crate::judging::{
    branch_count, current_shown, current_verdict, limit_at, net_verdict, resistor_at, voltage_shown,
};
use crate::numbers::{append_count, append_drop, append_limit, append_nano};
use crate::records::{Limits, NetLimit};
use bound_check::Certified;
use em_rules::Verdict;
use outside::Name;
use std::alloc::{AllocError, Global};

/// The report of a certified network, with the names of its nodes and with its limits.
///
/// One line for each net, node and branch: a net's drop limit with 24 places or `none` and its verdict; the two ends of
/// a node's voltage with 9 places, in volts; the two ends of the current from a branch's end a to its end b with 9 places,
/// in amperes, its limit with 15 places or `none`, and its verdict. One buffer grows with the text.
/// Error: want of memory.
pub fn report_text(
    alloc: Global,
    certified: &Certified,
    names: &[Name],
    limits: &Limits,
) -> Result<Vec<u8>, AllocError>
    requires names { length names.now ≡ certified.now.net.nodes }
    requires limits { AreLimitsOf certified.now.net limits.now }
    ensures { IfOk result (λ text. text.items ≡ written_report certified.now names.now limits.now) }
{
    let mut out = Vec::new(alloc);
    out.extend_from_slice(b"pdn report 1\n")?;
    append_nets(&mut out, certified, limits)?;
    append_nodes(&mut out, certified, names)?;
    append_branches(&mut out, certified, names, limits)?;
    out.extend_from_slice(b"end\n")?;
    Ok(out)
}

// The lines of the nets.
fn append_nets(out: &mut Vec<u8>, certified: &Certified, limits: &Limits) -> Result<(), AllocError>
    requires { AreLimitsOf certified.now.net limits.now }
    ensures { OnOk result (out.new.items ≡ out.old.items
        ++ flat_map (net_line certified.now limits.now) (enumerate_from 0 limits.now.nets)) }
{
    for (place, net) in limits.nets.as_slice().iter().enumerate() {
        let verdict = net_verdict(certified, limits, place as u32);
        append_net(out, net, verdict)?;
    }
    Ok(())
}

// The line of a net.
fn append_net(out: &mut Vec<u8>, net: &NetLimit, verdict: Verdict) -> Result<(), AllocError>
    ensures { OnOk result (out.new.items ≡ out.old.items ++ line_of (net_words net.now verdict)) }
{
    out.extend_from_slice(b"net ")?;
    out.extend_from_slice(net.name.bytes())?;
    out.push(b' ')?;
    append_drop(out, net.drop)?;
    append_end(out, verdict)
}

// The lines of the nodes.
fn append_nodes(out: &mut Vec<u8>, certified: &Certified, names: &[Name]) -> Result<(), AllocError>
    requires { length names.now ≡ certified.now.net.nodes }
    ensures { OnOk result (out.new.items ≡ out.old.items
        ++ flat_map (node_line certified.now) (enumerate_from 0 names.now)) }
{
    let _nodes = certified.net().nodes();
    for (place, name) in names.iter().enumerate() {
        append_node(out, name.bytes(), voltage_shown(certified, place as u32))?;
    }
    Ok(())
}

// The line of a node.
fn append_node(out: &mut Vec<u8>, name: &[u8], shown: (i128, i128)) -> Result<(), AllocError>
    ensures { OnOk result (out.new.items ≡ out.old.items ++ line_of (node_words name.now shown)) }
{
    out.extend_from_slice(b"node ")?;
    out.extend_from_slice(name)?;
    append_interval(out, shown.0, shown.1)?;
    out.push(b'\n')?;
    Ok(())
}

// The two ends of an interval, each after a blank.
fn append_interval(out: &mut Vec<u8>, low: i128, high: i128) -> Result<(), AllocError>
    ensures { OnOk result (out.new.items ≡ out.old.items ++ ((32 ∷ printed low 9) ++ (32 ∷ printed high 9))) }
{
    append_end_of_interval(out, low)?;
    append_end_of_interval(out, high)?;
    Ok(())
}

// One end of an interval after a blank.
fn append_end_of_interval(out: &mut Vec<u8>, value: i128) -> Result<(), AllocError>
    ensures { OnOk result (out.new.items ≡ out.old.items ++ (32 ∷ printed value 9)) }
{
    out.push(b' ')?;
    append_nano(out, value)?;
    Ok(())
}

// The lines of the branches.
fn append_branches(
    out: &mut Vec<u8>,
    certified: &Certified,
    names: &[Name],
    limits: &Limits,
) -> Result<(), AllocError>
    requires names { length names.now ≡ certified.now.net.nodes }
    requires limits { AreLimitsOf certified.now.net limits.now }
    ensures { OnOk result (out.new.items ≡ out.old.items ++ flat_map (branch_line certified.now names.now)
        (enumerate_from 1 (zip certified.now.net.resistors limits.now.branches))) }
{
    for branch in 0..branch_count(certified) {
        append_branch(out, certified, names, limits, branch)?;
    }
    Ok(())
}

// The line of a branch.
fn append_branch(
    out: &mut Vec<u8>,
    certified: &Certified,
    names: &[Name],
    limits: &Limits,
    branch: u32,
) -> Result<(), AllocError>
    requires names { length names.now ≡ certified.now.net.nodes }
    requires limits { AreLimitsOf certified.now.net limits.now }
    requires branch { branch < length certified.now.net.resistors }
    ensures { OnOk result (out.new.items ≡ out.old.items
        ++ branch_line certified.now names.now (branch + 1, branch_at certified.now limits.now branch)) }
{
    let resistor = resistor_at(certified, branch);
    let from = names[resistor.a as usize].bytes();
    let to = names[resistor.b as usize].bytes();
    let shown = current_shown(certified, branch);
    let limit = limit_at(limits, branch);
    append_ends(out, branch as u64 + 1, from, to)?;
    append_flow(out, shown, limit)?;
    Ok(())
}

// The number of a branch and the names of its ends.
fn append_ends(out: &mut Vec<u8>, number: u64, from: &[u8], to: &[u8]) -> Result<(), AllocError>
    ensures { OnOk result (out.new.items ≡ out.old.items
        ++ (codes "branch R" ++ (decimal number ++ (32 ∷ (from.now ++ (32 ∷ to.now)))))) }
{
    out.extend_from_slice(b"branch R")?;
    append_count(out, number)?;
    out.push(b' ')?;
    out.extend_from_slice(from)?;
    out.push(b' ')?;
    out.extend_from_slice(to)
}

// The current of a branch, its limit and its verdict, each after a blank, and the end of the line.
fn append_flow(
    out: &mut Vec<u8>,
    shown: (i128, i128),
    limit: Option<u128>,
) -> Result<(), AllocError>
    requires { IsShort longest_current shown }
    ensures { OnOk result (out.new.items ≡ out.old.items ++ flow_text shown limit) }
{
    append_interval(out, shown.0, shown.1)?;
    out.push(b' ')?;
    append_limit(out, limit)?;
    append_end(out, current_verdict(shown, limit))?;
    Ok(())
}

// A verdict after a blank, and the end of the line.
fn append_end(out: &mut Vec<u8>, verdict: Verdict) -> Result<(), AllocError>
    ensures { OnOk result (out.new.items ≡ out.old.items ++ (32 ∷ (word_of verdict ++ 10 ∷ []))) }
{
    out.push(b' ')?;
    match verdict {
        Verdict::Safe => out.extend_from_slice(b"SAFE\n"),
        Verdict::Unsafe => out.extend_from_slice(b"UNSAFE\n"),
        Verdict::Undecided => out.extend_from_slice(b"OPEN\n"),
        Verdict::NoLimit => out.extend_from_slice(b"NOLIMIT\n"),
    }
}
