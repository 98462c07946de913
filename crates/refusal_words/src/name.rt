//! The names of things by their places. A place that a list lacks, which no refusal has, gives no bytes.
ghost use Rattle.std.specs.Prelude.{◌≡◌};
ghost use Rattle.refusal_words.specs.Name.{layer_name, rule_name, domain_name, row_name, component_name, net_name, via_name, wired_net_name};

use def_design::Design;
use def_wiring::Wires;
use grid_pieces::Grid;
use lef_tech::Tech;
use pdn_script::Script;

/// The name of a routing layer.
pub(crate) fn layer_name(tech: &Tech, layer: u32) -> &[u8]
    ensures { result.now ≡ layer_name tech.now layer }
{
    match tech.routing.as_slice().get(layer as usize) {
        Some(layer) => layer.name.bytes(),
        None => b"",
    }
}

/// The name of a rule.
pub(crate) fn rule_name(tech: &Tech, rule: u32) -> &[u8]
    ensures { result.now ≡ rule_name tech.now rule }
{
    match tech.rules.as_slice().get(rule as usize) {
        Some(rule) => rule.name.bytes(),
        None => b"",
    }
}

/// The name of a domain.
pub(crate) fn domain_name(script: &Script, domain: u32) -> &[u8]
    ensures { result.now ≡ domain_name script.now domain }
{
    match script.domains.as_slice().get(domain as usize) {
        Some(domain) => domain.name.bytes(),
        None => b"",
    }
}

/// The name of a row.
pub(crate) fn row_name(design: &Design, row: u32) -> &[u8]
    ensures { result.now ≡ row_name design.now row }
{
    match design.rows.as_slice().get(row as usize) {
        Some(row) => row.name.bytes(),
        None => b"",
    }
}

/// The name of a component.
pub(crate) fn component_name(design: &Design, component: u32) -> &[u8]
    ensures { result.now ≡ component_name design.now component }
{
    match design.components.as_slice().get(component as usize) {
        Some(component) => component.name.bytes(),
        None => b"",
    }
}

/// The name of a net.
pub(crate) fn net_name(grid: &Grid, net: u32) -> &[u8]
    ensures { result.now ≡ net_name grid.now net }
{
    match grid.nets.as_slice().get(net as usize) {
        Some(net) => net.bytes(),
        None => b"",
    }
}

/// The name of a generated via of wiring.
pub(crate) fn via_name(wires: &Wires, via: u32) -> &[u8]
    ensures { result.now ≡ via_name wires.now via }
{
    match wires.vias.as_slice().get(via as usize) {
        Some(via) => via.name.bytes(),
        None => b"",
    }
}

/// The name of a net of wiring.
pub(crate) fn wired_net_name(wires: &Wires, net: u32) -> &[u8]
    ensures { result.now ≡ wired_net_name wires.now net }
{
    match wires.nets.as_slice().get(net as usize) {
        Some(net) => net.name.bytes(),
        None => b"",
    }
}
