//! The halos over a shape, and what they leave of it.
ghost use Rattle.std.specs.Prelude.{◌≡◌, ◌++◌, [], ◌∷◌, IfOk, OnOk, All, false, if◌then◌else◌, slice_index_or};
ghost use Rattle.grid_cores.specs.Line.{LineKeeps, AreLineShapes, AddsLine};
ghost use Rattle.halo_cuts.specs.declared.shape.GridShape.{GridShape};
ghost use Rattle.halo_cuts.specs.Cut.{cuts_on, is_own, cuts, halos_over, AreCut};

use crate::shape::GridShape;
use geom_rect::{Drawn, Rect};
use grid_cores::add_runs;
use placed_blocks::PlacedBlock;
use std::alloc::{AllocError, Global};

/// What is left of shapes where they are cut at the halos of blocks (OpenROAD PDN manual, define_pdn_grid: -halo), in units of the
/// drawing: of each shape in turn its maximal runs outside the grown outlines of the blocks that cut on its layer, but for those that
/// have the grid that drew it. Where such an outline overlaps a part of a shape's width the whole width is cut out; one that only touches
/// the shape cuts nothing.
///
/// Error: want of memory.
pub fn cut_shapes(
    alloc: Global,
    blocks: &[PlacedBlock],
    shapes: &[GridShape],
) -> Result<Vec<Drawn>, AllocError>
    requires { All (λ (s : GridShape). LineKeeps s.shape) shapes.now }
    ensures { IfOk result (λ left. AreCut blocks.now shapes.now left.items) }
{
    let mut left = Vec::new(alloc);
    for shape in shapes {
        add_left(alloc, &mut left, blocks, *shape)?;
    }
    Ok(left)
}

// Adds what is left of one shape.
fn add_left(
    alloc: Global,
    left: &mut Vec<Drawn>,
    blocks: &[PlacedBlock],
    shape: GridShape,
) -> Result<(), AllocError>
    requires { LineKeeps shape.shape }
    ensures { OnOk result (AddsLine (halos_over blocks.now shape) shape.shape left.old.items left.new.items) }
{
    let halos = halos_over(alloc, blocks, shape)?;
    let line = [shape.shape];
    add_runs(alloc, left, &line, &halos)?;
    Ok(())
}

// The grown outlines of the blocks that cut the shape.
fn halos_over(
    alloc: Global,
    blocks: &[PlacedBlock],
    shape: GridShape,
) -> Result<Vec<Rect>, AllocError>
    ensures { IfOk result (λ halos. halos.items ≡ halos_over blocks.now shape) }
{
    let mut halos = Vec::new(alloc);
    for block in blocks {
        if cuts(block, shape) {
            halos.push(block.grown)?;
        }
    }
    Ok(halos)
}

// Whether the block cuts the shape: on its layer, and not as one of the grid that drew it.
fn cuts(block: &PlacedBlock, shape: GridShape) -> bool
    ensures { result ≡ cuts shape block.now }
{
    cuts_on(block.cuts.as_slice(), shape.shape.layer) && !is_own(block.grid, shape.grid)
}

fn cuts_on(cuts: &[bool], layer: u32) -> bool
    ensures { result ≡ cuts_on cuts.now layer }
{
    match cuts.get(layer as usize) {
        Some(is) => *is,
        None => false,
    }
}

fn is_own(own: Option<u32>, grid: u32) -> bool
    ensures { result ≡ is_own own grid }
{
    match own {
        Some(own) => own == grid,
        None => false,
    }
}
