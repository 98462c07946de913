ghost use Rattle.std.specs.Prelude.{◌≡◌, map, IfOk};
ghost use Rattle.lef_tech.specs.declared.layer.CutLayer.{CutLayer};
ghost use Rattle.lef_tech.specs.declared.layer.RoutingLayer.{RoutingLayer};
ghost use Rattle.lef_tech.specs.declared.rule.ViaRule.{ViaRule};
ghost use Rattle.def_wiring.specs.Limits.{via_name};
ghost use Rattle.wire_names.specs.Names.{names_of};
ghost use Rattle.wire_names.specs.inside.Tables.{names_in};

use def_wiring::Wires;
use lef_tech::Tech;
use name_places::NamePlaces;
use std::alloc::{AllocError, Global};

// Tables of all names that wiring may use.
#[derive(Drop)]
pub(crate) struct Tables<'a> {
    pub(crate) layers: NamePlaces<'a>,
    pub(crate) cuts: NamePlaces<'a>,
    pub(crate) rules: NamePlaces<'a>,
    pub(crate) vias: NamePlaces<'a>,
}

fn layers<'a>(alloc: Global, tech: &'a Tech) -> Result<NamePlaces<'a>, AllocError>
    ensures { IfOk result (λ table. table ≡ map (λ (layer : RoutingLayer). layer.name) tech.now.routing) }
{
    let mut names: Vec<&'a [u8]> = Vec::new(alloc);
    for layer in tech.routing.as_slice() {
        names.push(layer.name.bytes())?;
    }
    NamePlaces::new(alloc, names)
}

fn cuts<'a>(alloc: Global, tech: &'a Tech) -> Result<NamePlaces<'a>, AllocError>
    ensures { IfOk result (λ table. table ≡ map (λ (layer : CutLayer). layer.name) tech.now.cuts) }
{
    let mut names: Vec<&'a [u8]> = Vec::new(alloc);
    for layer in tech.cuts.as_slice() {
        names.push(layer.name.bytes())?;
    }
    NamePlaces::new(alloc, names)
}

pub(crate) fn tables_of<'a>(
    alloc: Global,
    tech: &'a Tech,
    wires: &'a Wires,
) -> Result<Tables<'a>, AllocError>
    ensures { IfOk result (λ tables. names_in tables ≡ names_of tech.now wires.now) }
{
    Ok(Tables {
        layers: layers(alloc, tech)?,
        cuts: cuts(alloc, tech)?,
        rules: rules(alloc, tech)?,
        vias: vias(alloc, wires)?,
    })
}

fn rules<'a>(alloc: Global, tech: &'a Tech) -> Result<NamePlaces<'a>, AllocError>
    ensures { IfOk result (λ table. table ≡ map (λ (rule : ViaRule). rule.name) tech.now.rules) }
{
    let mut names: Vec<&'a [u8]> = Vec::new(alloc);
    for rule in tech.rules.as_slice() {
        names.push(rule.name.bytes())?;
    }
    NamePlaces::new(alloc, names)
}

fn vias<'a>(alloc: Global, wires: &'a Wires) -> Result<NamePlaces<'a>, AllocError>
    ensures { IfOk result (λ table. table ≡ map via_name wires.now.vias) }
{
    let mut names: Vec<&'a [u8]> = Vec::new(alloc);
    for via in wires.vias.as_slice() {
        names.push(via.name.bytes())?;
    }
    NamePlaces::new(alloc, names)
}
