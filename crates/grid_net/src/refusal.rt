ghost use Rattle.std.specs.Prelude.{◌≡◌, IfSome, IfNone, ◌≤ℤ◌, ◌^◌, ◌||◌, true, false, nat_le, position, Some, None, if◌then◌else◌, int_le, pos, max, unsigned_abs, map};
ghost use Rattle.grid_net.specs.declared.error.Quantity.TheVariants.{Resistance, Voltage};
ghost use Rattle.grid_net.specs.declared.error.NetError.TheVariants.{Range};
ghost use Rattle.grid_net.specs.Adding.{given_load};
ghost use Rattle.grid_net.specs.Building.{KeepsLimits, first_net_refusal, first_bad_end, first_unfit, resistance_fits, voltage_fits, first_beyond_limit};

use crate::error::{NetError, Quantity};
use crate::limits::{
    GREATEST_LOAD, GREATEST_RESISTANCE, GREATEST_VOLTAGE, MOST_NODES, MOST_RESISTORS,
};
use crate::part::{Load, Pad, Resistor};

/// The place of the first resistor with an end beyond the last node.
fn bad_resistor(nodes: u32, resistors: &[Resistor]) -> Option<usize>
    ensures { result ≡ position (λ r. nat_le nodes r.a || nat_le nodes r.b) resistors.now }
{
    resistors.iter().position(|r| nodes <= r.a || nodes <= r.b)
}

/// The place of the first pad beyond the last node.
fn bad_pad(nodes: u32, pads: &[Pad]) -> Option<usize>
    ensures { result ≡ position (λ p. nat_le nodes p.node) pads.now }
{
    pads.iter().position(|p| nodes <= p.node)
}

/// The place of the first load beyond the last node.
fn bad_load(nodes: u32, loads: &[Load]) -> Option<usize>
    ensures { result ≡ position (λ l. nat_le nodes l.node) loads.now }
{
    loads.iter().position(|l| nodes <= l.node)
}

/// The place of the first entry that names a node beyond the last, in the first list that has one.
fn bad_end(nodes: u32, resistors: &[Resistor], pads: &[Pad], loads: &[Load]) -> Option<usize>
    ensures { result ≡ first_bad_end nodes resistors.now pads.now loads.now }
{
    let pad_or_load = bad_pad(nodes, pads).or(bad_load(nodes, loads));
    bad_resistor(nodes, resistors).or(pad_or_load)
}

/// The refusal of a number of the whole network that passes its limit.
fn beyond(quantity: Quantity, number: i128, limit: i128) -> Option<NetError>
    ensures { result ≡ (if int_le number limit then None else Some (Range quantity 0 number)) }
{
    if number <= limit {
        None
    } else {
        Some(NetError::Range {
            quantity,
            at: 0,
            number,
        })
    }
}

/// The place of the first resistance that is out of its range.
fn unfit_resistance(resistors: &[Resistor]) -> Option<usize>
    ensures { result ≡ position (λ r. if resistance_fits r.ohms then false else true) resistors.now }
{
    resistors
        .iter()
        .position(|r| !(1 <= r.ohms && r.ohms <= GREATEST_RESISTANCE))
}

/// The refusal of the first resistance that is out of its range.
fn bad_resistance(resistors: &[Resistor]) -> Option<NetError>
    ensures { result ≡ first_unfit Resistance resistance_fits (map (λ r. r.ohms) resistors.now) }
{
    let at = unfit_resistance(resistors)?;
    Some(NetError::Range {
        quantity: Quantity::Resistance,
        at: at as u64,
        number: resistors[at].ohms,
    })
}

/// The place of the first voltage that is out of its range.
fn unfit_voltage(pads: &[Pad]) -> Option<usize>
    ensures { result ≡ position (λ p. if voltage_fits p.volts then false else true) pads.now }
{
    pads.iter().position(|p| !(-GREATEST_VOLTAGE <= p.volts && p.volts <= GREATEST_VOLTAGE))
}

/// The refusal of the first voltage that is out of its range.
fn bad_voltage(pads: &[Pad]) -> Option<NetError>
    ensures { result ≡ first_unfit Voltage voltage_fits (map (λ p. p.volts) pads.now) }
{
    let at = unfit_voltage(pads)?;
    Some(NetError::Range {
        quantity: Quantity::Voltage,
        at: at as u64,
        number: pads[at].volts,
    })
}

/// The greater magnitude of the two ends of a load.
fn load_size(load: &Load) -> i128
    ensures size { result ≡ pos (max (unsigned_abs load.now.low) (unsigned_abs load.now.high)) }
    ensures small { result ≤ℤ pos (2 ^ 63) }
{
    let low = load.low.unsigned_abs();
    let high = load.high.unsigned_abs();
    low.max(high) as i128
}

/// The sum of the greater magnitudes of the loads' ends.
fn sum_of_loads(loads: &[Load]) -> i128
    ensures { result ≡ pos (given_load loads.now) }
{
    let mut sum: i128 = 0;
    for load in loads {
        let size = load_size(load);
        sum += size;
    }
    sum
}

/// The refusal of the first quantity that passes its limit.
fn beyond_limit(
    nodes: u32,
    resistors: &[Resistor],
    pads: &[Pad],
    loads: &[Load],
) -> Option<NetError>
    ensures { result ≡ first_beyond_limit nodes resistors.now pads.now loads.now }
{
    let too_many_nodes = beyond(Quantity::Nodes, nodes as i128, MOST_NODES);
    let too_many_resistors = beyond(Quantity::Resistors, resistors.len() as i128, MOST_RESISTORS);
    let too_much_load = beyond(Quantity::Loads, sum_of_loads(loads), GREATEST_LOAD);
    let entry_or_load = bad_resistance(resistors).or(bad_voltage(pads).or(too_much_load));
    too_many_nodes.or(too_many_resistors.or(entry_or_load))
}

/// What refuses the lists, pads that differ aside: an end that is no node, and then a quantity beyond its limit.
pub fn limit_refusal(
    nodes: u32,
    resistors: &[Resistor],
    pads: &[Pad],
    loads: &[Load],
) -> Option<NetError>
    ensures refused { IfSome result (λ e. first_net_refusal nodes resistors.now pads.now loads.now ≡ Some e) }
    ensures kept { IfNone result (KeepsLimits nodes resistors.now pads.now loads.now) }
{
    if let Some(at) = bad_end(nodes, resistors, pads, loads) {
        return Some(NetError::BadEnd { at: at as u64 });
    }
    beyond_limit(nodes, resistors, pads, loads)
}
