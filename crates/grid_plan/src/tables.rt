ghost use Rattle.std.specs.Prelude.{◌≡◌, map, IfOk};
ghost use Rattle.std.specs.Option.{unwrap_or};
ghost use Rattle.def_design.specs.declared.record.Fence.{Fence};
ghost use Rattle.lef_cells.specs.declared.record.MacroCell.{MacroCell};
ghost use Rattle.lef_cells.specs.declared.record.Site.{Site};
ghost use Rattle.lef_tech.specs.declared.layer.CutLayer.{CutLayer};
ghost use Rattle.lef_tech.specs.declared.layer.RoutingLayer.{RoutingLayer};
ghost use Rattle.pdn_script.specs.declared.record.Domain.{Domain};
ghost use Rattle.pdn_script.specs.declared.record.GridRule.{GridRule};
ghost use Rattle.grid_plan.specs.Names.{names_of, place_in};
ghost use Rattle.grid_plan.specs.inside.Tables.{names_in};

use def_design::Design;
use lef_cells::Cells;
use lef_tech::Tech;
use name_places::NamePlaces;
use outside::Name;
use pdn_script::Script;
use std::alloc::{AllocError, Global};

// Tables of all names that a script and a design may use.
#[derive(Drop)]
pub(crate) struct Tables<'a> {
    pub(crate) layers: NamePlaces<'a>,
    pub(crate) cuts: NamePlaces<'a>,
    pub(crate) sites: NamePlaces<'a>,
    pub(crate) macros: NamePlaces<'a>,
    pub(crate) regions: NamePlaces<'a>,
    pub(crate) domains: NamePlaces<'a>,
    pub(crate) grids: NamePlaces<'a>,
}

pub(crate) fn tables_of<'a>(
    alloc: Global,
    tech: &'a Tech,
    cells: &'a Cells,
    design: &'a Design,
    script: &'a Script,
) -> Result<Tables<'a>, AllocError>
    ensures { IfOk result (λ tables. names_in tables ≡ names_of tech.now cells.now design.now script.now) }
{
    Ok(Tables {
        layers: layers(alloc, tech)?,
        cuts: cuts(alloc, tech)?,
        sites: sites(alloc, cells)?,
        macros: macros(alloc, cells)?,
        regions: regions(alloc, design)?,
        domains: domains(alloc, script)?,
        grids: grids(alloc, script)?,
    })
}

fn layers<'a>(alloc: Global, tech: &'a Tech) -> Result<NamePlaces<'a>, AllocError>
    ensures { IfOk result (λ table. table ≡ map (λ (layer : RoutingLayer). layer.name) tech.now.routing) }
{
    let mut names: Vec<&'a [u8]> = Vec::new(alloc);
    for layer in tech.routing.as_slice() {
        names.push(layer.name.bytes())?;
    }
    NamePlaces::new(alloc, names)
}

fn cuts<'a>(alloc: Global, tech: &'a Tech) -> Result<NamePlaces<'a>, AllocError>
    ensures { IfOk result (λ table. table ≡ map (λ (layer : CutLayer). layer.name) tech.now.cuts) }
{
    let mut names: Vec<&'a [u8]> = Vec::new(alloc);
    for layer in tech.cuts.as_slice() {
        names.push(layer.name.bytes())?;
    }
    NamePlaces::new(alloc, names)
}

fn sites<'a>(alloc: Global, cells: &'a Cells) -> Result<NamePlaces<'a>, AllocError>
    ensures { IfOk result (λ table. table ≡ map (λ (site : Site). site.name) cells.now.sites) }
{
    let mut names: Vec<&'a [u8]> = Vec::new(alloc);
    for site in cells.sites.as_slice() {
        names.push(site.name.bytes())?;
    }
    NamePlaces::new(alloc, names)
}

fn macros<'a>(alloc: Global, cells: &'a Cells) -> Result<NamePlaces<'a>, AllocError>
    ensures { IfOk result (λ table. table ≡ map (λ (cell : MacroCell). cell.name) cells.now.macros) }
{
    let mut names: Vec<&'a [u8]> = Vec::new(alloc);
    for cell in cells.macros.as_slice() {
        names.push(cell.name.bytes())?;
    }
    NamePlaces::new(alloc, names)
}

fn regions<'a>(alloc: Global, design: &'a Design) -> Result<NamePlaces<'a>, AllocError>
    ensures { IfOk result (λ table. table ≡ map (λ (region : Fence). region.name) design.now.regions) }
{
    let mut names: Vec<&'a [u8]> = Vec::new(alloc);
    for region in design.regions.as_slice() {
        names.push(region.name.bytes())?;
    }
    NamePlaces::new(alloc, names)
}

fn domains<'a>(alloc: Global, script: &'a Script) -> Result<NamePlaces<'a>, AllocError>
    ensures { IfOk result (λ table. table ≡ map (λ (domain : Domain). domain.name) script.now.domains) }
{
    let mut names: Vec<&'a [u8]> = Vec::new(alloc);
    for domain in script.domains.as_slice() {
        names.push(domain.name.bytes())?;
    }
    NamePlaces::new(alloc, names)
}

fn grids<'a>(alloc: Global, script: &'a Script) -> Result<NamePlaces<'a>, AllocError>
    ensures { IfOk result (λ table. table ≡ map (λ (grid : GridRule). grid.name) script.now.grids) }
{
    let mut names: Vec<&'a [u8]> = Vec::new(alloc);
    for grid in script.grids.as_slice() {
        names.push(grid.name.bytes())?;
    }
    NamePlaces::new(alloc, names)
}

// The place of a name, 0 where it stands nowhere.
pub(crate) fn place_in<'a>(names: &NamePlaces<'a>, name: &'a Name) -> usize
    ensures { result ≡ place_in names.now name.now }
{
    names.place(name.bytes()).unwrap_or(0)
}
