ghost use Rattle.std.specs.Prelude.{◌≡◌, List, All};
ghost use Rattle.geom_rect.specs.declared.drawn.Drawn.{Drawn};
ghost use Rattle.halo_cuts.specs.Cut.{AreCut, IsPartOfOne};
ghost use Rattle.halo_cuts.specs.declared.shape.GridShape.{GridShape};
ghost use Rattle.placed_blocks.specs.declared.block.PlacedBlock.{PlacedBlock};

use geom_rect::maximal_runs_are_unique;

/// The law of cuts: blocks leave one list of shapes, so that nothing else meets what `cut_shapes` ensures.
pub fn one_cut()
    ensures { (blocks : List PlacedBlock) (shapes : List GridShape) (one other : List Drawn)
        → AreCut blocks shapes one → AreCut blocks shapes other → one ≡ other }
{
    maximal_runs_are_unique();
}

/// The law of what is left: each of it is a part of one of the shapes, so that no metal is added and none changes its net, its layer, its
/// centre or its width.
pub fn cuts_leave_parts()
    ensures { (blocks : List PlacedBlock) (shapes : List GridShape) (left : List Drawn) → AreCut blocks shapes left
        → All (IsPartOfOne shapes) left }
{}
