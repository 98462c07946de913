//! The outline of a block, and how far it reaches with its halo.
ghost use Rattle.std.specs.Prelude.{◌≡◌, ◌≤◌, ◌^◌, pos, All};
ghost use Rattle.geom_rect.specs.declared.rect.Rect.{Rect};
ghost use Rattle.lef_cells.specs.Limits.{CellsKeep};
ghost use Rattle.macro_turns.specs.Limits.{PlacedKeeps, RectKeeps};
ghost use Rattle.macro_turns.specs.Turns.{box_in_place};
ghost use Rattle.via_arrays.specs.Lengths.{IsUnits, in_units};
ghost use Rattle.placed_blocks.specs.Placed.{width_at, height_at, placed_at, halos_of, halo_at, grown_by};
ghost use Rattle.placed_blocks.specs.inside.Near.{IsSide, HaloKeeps, AtKeeps, IsSmall, IsOutline};

use block_grids::{BlockAt, Halo};
use geom_rect::Rect;
use lef_cells::Cells;
use macro_turns::{Placed, Point, box_in_place};
use via_arrays::PICOMETRES;

// How the macro of a block is placed.
pub(crate) fn placed_at(cells: &Cells, units: u32, at: BlockAt) -> Placed
    requires cells { CellsKeep cells.now }
    requires units { IsUnits units }
    requires at { AtKeeps at }
    ensures value { result ≡ placed_at cells.now units at }
    ensures small { IsSmall result }
{
    Placed {
        corner: Point { x: at.x, y: at.y },
        orient: at.orient,
        width: length_of(units, width_at(cells, at.cell)),
        height: length_of(units, height_at(cells, at.cell)),
    }
}

fn width_at(cells: &Cells, cell: u32) -> u64
    requires { CellsKeep cells.now }
    ensures value { result ≡ width_at cells.now cell }
    ensures within { result ≤ 10 ^ 11 }
{
    match cells.macros.as_slice().get(cell as usize) {
        Some(cell) => cell.width,
        None => 0,
    }
}

fn height_at(cells: &Cells, cell: u32) -> u64
    requires { CellsKeep cells.now }
    ensures value { result ≡ height_at cells.now cell }
    ensures within { result ≤ 10 ^ 11 }
{
    match cells.macros.as_slice().get(cell as usize) {
        Some(cell) => cell.height,
        None => 0,
    }
}

// A length in pm as units, rounded down.
fn length_of(units: u32, length: u64) -> i64
    requires units { IsUnits units }
    requires length { length ≤ 10 ^ 11 }
    ensures value { result ≡ pos (in_units units length) }
    ensures side { IsSide result }
{
    (length * u64::from(units) / PICOMETRES) as i64
}

// The box of a macro that is placed.
pub(crate) fn outline_of(placed: Placed) -> Rect
    requires { IsSmall placed }
    ensures value { result ≡ box_in_place placed }
    ensures outline { IsOutline result }
{
    box_in_place(placed)
}

// The halo of the grid at a place, which keeps nothing away where there is no grid.
pub(crate) fn halo_at(halos: &[Halo], grid: Option<u32>) -> Halo
    requires { All HaloKeeps halos.now }
    ensures value { result ≡ halo_at halos.now grid }
    ensures keeps { HaloKeeps result }
{
    let Some(grid) = grid else {
        return NO_HALO;
    };
    match halos.get(grid as usize) {
        Some(halo) => *halo,
        None => NO_HALO,
    }
}

const NO_HALO: Halo = Halo {
    left: 0,
    bottom: 0,
    right: 0,
    top: 0,
};

// The rectangle with each side further out by the halo.
pub(crate) fn grown_by(halo: Halo, rect: Rect) -> Rect
    requires halo { HaloKeeps halo }
    requires rect { IsOutline rect }
    ensures value { result ≡ grown_by halo rect }
    ensures keeps { RectKeeps result }
{
    Rect {
        x1: rect.x1 - halo.left,
        y1: rect.y1 - halo.bottom,
        x2: rect.x2 + halo.right,
        y2: rect.y2 + halo.top,
    }
}
