ghost use Rattle.std.specs.Prelude.{◌≡◌, ◌<◌, ◌≤◌, ◌^◌, OnOk, IfErr, length};
ghost use Rattle.lef_tech.specs.Limits.{TechKeeps};
ghost use Rattle.wire_names.specs.Keeping.{NamedKeep};
ghost use Rattle.wire_limits.specs.Limits.{AreWithin, AreRefused, LayersFit, SizesFit, WidthsFit, SheetsStand, CutsStand};
ghost use Rattle.wire_limits.specs.inside.Counts.{AreMany, HaveOtherLayers, AreTooLong, AreOdd, AreBare, AreWithoutCuts};
ghost use Rattle.wire_limits.specs.inside.Used.{AreUses};

use crate::error::{LimitError, WireCount};
use crate::segment::{bare_layer, odd_net};
use crate::used::uses;
use crate::via::{other_layers, too_long, without_cut};
use def_wiring::Wires;
use lef_tech::Tech;
use std::alloc::Global;
use wire_names::NamedWires;

/// The columns of a via times their pitch, and its rows times theirs, are at most so many units.
pub const MOST_SIZE: i64 = 4_294_967_296;

/// The nets of wiring have at most so many segments.
pub const MOST_SEGMENTS: usize = 1_000_000;

/// The nets of wiring have at most so many vias.
pub const MOST_VIAS: usize = 1_000_000;

/// Refuses wiring whose vias, segments or counts are not within their limits.
///
/// Errors: of several causes the first in the order of the variants, and of one cause the first in the order of the text;
/// want of memory.
#[tactic(auto, using(crate::proofs::Refused::layers_refused, crate::proofs::Refused::sizes_refused, crate::proofs::Refused::widths_refused, crate::proofs::Refused::sheets_refused, crate::proofs::Refused::cuts_refused, crate::proofs::Refused::counts_refused))]
pub fn check_limits(
    alloc: Global,
    tech: &Tech,
    wires: &Wires,
    named: &NamedWires,
) -> Result<(), LimitError>
    requires tech { TechKeeps tech.now }
    requires named { NamedKeep tech.now named.now }
    ensures within { OnOk result (AreWithin tech.now wires.now named.now) }
    ensures refused { IfErr result (AreRefused tech.now wires.now named.now) }
{
    let used = uses(alloc, named.vias.as_slice().len(), named.spots.as_slice())?;
    check_layers(tech, named, &used)?;
    check_sizes(named, &used)?;
    check_widths(wires)?;
    check_sheets(tech, named)?;
    check_cuts(tech, named, &used)?;
    check_counts(named.shapes.as_slice().len(), named.spots.as_slice().len())
}

// Refuses the first used via whose layers are not those of its rule.
fn check_layers(tech: &Tech, named: &NamedWires, used: &[bool]) -> Result<(), LimitError>
    requires named { NamedKeep tech.now named.now }
    requires used { AreUses (length named.now.vias) named.now.spots used.now }
    ensures fit { OnOk result (LayersFit tech.now named.now) }
    ensures refused { IfErr result (HaveOtherLayers tech.now named.now) }
{
    match other_layers(tech, named.vias.as_slice(), named.spots.as_slice(), used)? {
        Some(via) => Err(LimitError::ViaLayers(via)),
        None => Ok(()),
    }
}

// Refuses the first used via whose columns or rows are too long.
fn check_sizes(named: &NamedWires, used: &[bool]) -> Result<(), LimitError>
    requires { AreUses (length named.now.vias) named.now.spots used.now }
    ensures fit { OnOk result (SizesFit named.now) }
    ensures refused { IfErr result (AreTooLong named.now) }
{
    match too_long(named.vias.as_slice(), named.spots.as_slice(), used)? {
        Some(via) => Err(LimitError::ViaSize(via)),
        None => Ok(()),
    }
}

// Refuses the first segment whose width is odd or 0.
fn check_widths(wires: &Wires) -> Result<(), LimitError>
    ensures fit { OnOk result (WidthsFit wires.now) }
    ensures refused { IfErr result (AreOdd wires.now) }
{
    match odd_net(wires.nets.as_slice())? {
        Some((net, width)) => Err(LimitError::OddWidth(net, width)),
        None => Ok(()),
    }
}

// Refuses the first segment on a layer without a resistance of a square.
fn check_sheets(tech: &Tech, named: &NamedWires) -> Result<(), LimitError>
    requires { NamedKeep tech.now named.now }
    ensures stand { OnOk result (SheetsStand tech.now named.now) }
    ensures refused { IfErr result (AreBare tech.now named.now) }
{
    match bare_layer(tech, named.shapes.as_slice()) {
        Some(layer) => Err(LimitError::NoSheet(layer)),
        None => Ok(()),
    }
}

// Refuses the first used via without a resistance of a cut.
fn check_cuts(tech: &Tech, named: &NamedWires, used: &[bool]) -> Result<(), LimitError>
    requires tech { TechKeeps tech.now }
    requires named { NamedKeep tech.now named.now }
    requires used { AreUses (length named.now.vias) named.now.spots used.now }
    ensures stand { OnOk result (CutsStand tech.now named.now) }
    ensures refused { IfErr result (AreWithoutCuts tech.now named.now) }
{
    match without_cut(tech, named.vias.as_slice(), named.spots.as_slice(), used) {
        Some(layer) => Err(LimitError::NoResistance(layer)),
        None => Ok(()),
    }
}

// Refuses too many segments, and then too many vias.
fn check_counts(segments: usize, vias: usize) -> Result<(), LimitError>
    ensures segments { OnOk result (segments ≤ MOST_SEGMENTS) }
    ensures vias { OnOk result (vias ≤ MOST_VIAS) }
    ensures refused { IfErr result (AreMany segments vias) }
{
    if segments > MOST_SEGMENTS {
        return Err(LimitError::TooMany(WireCount::Segments));
    }
    if vias > MOST_VIAS {
        return Err(LimitError::TooMany(WireCount::Vias));
    }
    Ok(())
}
