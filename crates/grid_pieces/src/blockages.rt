ghost use Rattle.std.specs.Prelude.{◌≡◌, ◌↔◌, ℤ, IfOk};
ghost use Rattle.std.specs.List.{filter_map};
ghost use Rattle.std.specs.List.Sorted.{IsPermutation};
ghost use Rattle.geom_rect.specs.Drawn.{half};
ghost use Rattle.geom_rect.specs.Run.{IsHeld};
ghost use Rattle.grid_pieces.specs.Piece.{IsBlocked};
ghost use Rattle.grid_pieces.specs.Line.{along, across};
ghost use Rattle.grid_pieces.specs.inside.Blockages.{LineKeeps, entry_of, window_of, BlockAlike};

use crate::line::Line;
use crate::piece::Block;
use geom_rect::{Axis, Rect, Run};
use lef_tech::LayerRef;
use run_index::{Entry, RunIndex};
use std::alloc::{AllocError, Global};
use std::marker::Model;

// Blockages of routing layers, found by what lies across a line. A contract sees them as a list of blockages.
#[derive(Drop)]
pub(crate) struct Blockages {
    along_x: RunIndex,
    along_y: RunIndex,
}

impl Model for Blockages {
    ghost use Rattle.std.specs.Prelude.{List};
    ghost use Rattle.grid_pieces.specs.declared.piece.Block.{Block};
    ghost use Rattle.grid_pieces.specs.inside.Blockages.{blocks_of, AreIndexed};

    ghost Value = { List Block };

    ghost view = { λ blockages. blocks_of blockages.along_x };

    ghost invariant = { λ blockages. AreIndexed blockages.along_x blockages.along_y };
}

impl Blockages {
    // Blockages that block the same cells as these.
    pub(crate) fn new(alloc: Global, blocks: &[Block]) -> Result<Blockages, AllocError>
        ensures { IfOk result (λ blockages. BlockAlike blockages blocks.now) }
    {
        let along_x = index_along(alloc, Axis::X, blocks)?;
        let along_y = index_along(alloc, Axis::Y, blocks)?;
        Ok(Blockages { along_x, along_y })
    }

    // The cells of the line that are blocked.
    pub(crate) fn runs(&self, alloc: Global, line: Line) -> Result<Vec<Run>, AllocError>
        requires { LineKeeps line }
        ensures { IfOk result (λ runs. (t : ℤ) → IsHeld runs.items t ↔ IsBlocked self.now line t) }
    {
        let window = window_of(line);
        match line.axis {
            Axis::X => self.along_x.found(alloc, line.layer, window),
            Axis::Y => self.along_y.found(alloc, line.layer, window),
        }
    }
}

// The cells that the line has across.
fn window_of(line: Line) -> Run
    requires { LineKeeps line }
    ensures { result ≡ window_of line }
{
    let half = line.width / 2;
    Run {
        from: line.centre - half,
        to: line.centre + half,
    }
}

// The blockages of routing layers, for lines along the axis.
fn index_along(alloc: Global, axis: Axis, blocks: &[Block]) -> Result<RunIndex, AllocError>
    ensures { IfOk result (λ index. IsPermutation (filter_map (entry_of axis) blocks.now) index) }
{
    let entries = entries_along(alloc, axis, blocks)?;
    RunIndex::new(alloc, entries)
}

fn entries_along(alloc: Global, axis: Axis, blocks: &[Block]) -> Result<Vec<Entry>, AllocError>
    ensures { IfOk result (λ entries. entries.items ≡ filter_map (entry_of axis) blocks.now) }
{
    blocks
        .iter()
        .filter_map(|block| entry_of(axis, block))
        .collect(alloc)
}

fn entry_of(axis: Axis, block: &Block) -> Option<Entry>
    ensures { result ≡ entry_of axis block.now }
{
    match block.layer {
        LayerRef::Routing(layer) => Some(Entry {
            group: layer,
            across: across(axis, block.grown),
            along: along(axis, block.grown),
        }),
        LayerRef::Cut(_) => None,
    }
}

fn along(axis: Axis, rect: Rect) -> Run
    ensures { result ≡ along axis rect }
{
    match axis {
        Axis::X => Run {
            from: rect.x1,
            to: rect.x2,
        },
        Axis::Y => Run {
            from: rect.y1,
            to: rect.y2,
        },
    }
}

fn across(axis: Axis, rect: Rect) -> Run
    ensures { result ≡ across axis rect }
{
    match axis {
        Axis::X => along(Axis::Y, rect),
        Axis::Y => along(Axis::X, rect),
    }
}
