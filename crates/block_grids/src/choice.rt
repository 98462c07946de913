//! The grid of a block.
ghost use Rattle.std.specs.Prelude.{◌≡◌};
ghost use Rattle.std.specs.List.{list_any, position};
ghost use Rattle.std.specs.Str.{bytes_eq};
ghost use Rattle.block_grids.specs.Choice.{is_for, names, has_neither, has_instance, has_cell, is_open, grid_of};

use crate::orient::allows;
use entry_list::Entries;
use geom_rect::Orient;
use outside::Name;
use pdn_script::GridRule;

// The place of the grid of a block: the first that names its component, else the first that names its macro, else the
// first that names neither.
pub(crate) fn grid_of(
    grids: &[GridRule],
    component: &Name,
    cell: &Name,
    orient: Orient,
) -> Option<usize>
    ensures { result ≡ grid_of grids.now component.now cell.now orient }
{
    if let Some(place) = first_with_instance(grids, component, orient) {
        return Some(place);
    }
    if let Some(place) = first_with_cell(grids, cell, orient) {
        return Some(place);
    }
    first_open(grids, orient)
}

fn first_with_instance(grids: &[GridRule], component: &Name, orient: Orient) -> Option<usize>
    ensures { result ≡ position (has_instance component.now orient) grids.now }
{
    grids
        .iter()
        .position(|grid| has_instance(grid, component, orient))
}

fn first_with_cell(grids: &[GridRule], cell: &Name, orient: Orient) -> Option<usize>
    ensures { result ≡ position (has_cell cell.now orient) grids.now }
{
    grids.iter().position(|grid| has_cell(grid, cell, orient))
}

fn first_open(grids: &[GridRule], orient: Orient) -> Option<usize>
    ensures { result ≡ position (is_open orient) grids.now }
{
    grids.iter().position(|grid| is_open(grid, orient))
}

fn has_instance(grid: &GridRule, component: &Name, orient: Orient) -> bool
    ensures { result ≡ has_instance component.now orient grid.now }
{
    is_for(grid, orient) && names(&grid.instances, component)
}

fn has_cell(grid: &GridRule, cell: &Name, orient: Orient) -> bool
    ensures { result ≡ has_cell cell.now orient grid.now }
{
    is_for(grid, orient) && names(&grid.cells, cell)
}

fn is_open(grid: &GridRule, orient: Orient) -> bool
    ensures { result ≡ is_open orient grid.now }
{
    is_for(grid, orient) && has_neither(grid)
}

// Whether it is a grid over macros, for blocks with this orientation.
fn is_for(grid: &GridRule, orient: Orient) -> bool
    ensures { result ≡ is_for orient grid.now }
{
    grid.macro_ && allows(&grid.orient, orient)
}

fn has_neither(grid: &GridRule) -> bool
    ensures { result ≡ has_neither grid.now }
{
    grid.instances.is_none() && grid.cells.is_none()
}

// Whether the option is stated, and the name is one of its list.
fn names(stated: &Option<Entries<Name>>, name: &Name) -> bool
    ensures { result ≡ names stated.now name.now }
{
    match stated {
        Some(listed) => stands_in(listed.as_slice(), name),
        None => false,
    }
}

fn stands_in(listed: &[Name], name: &Name) -> bool
    ensures { result ≡ list_any (bytes_eq name.now) listed.now }
{
    listed.iter().any(|other| name.bytes() == other.bytes())
}
