ghost use Rattle.std.specs.Prelude.{◌≡◌, List, All};
ghost use Rattle.geom_rect.specs.declared.drawn.Drawn.{Drawn};
ghost use Rattle.halo_cuts.specs.Cut.{halos_over};
ghost use Rattle.placed_blocks.specs.declared.block.PlacedBlock.{PlacedBlock};
ghost use Rattle.macro_shapes.specs.Shapes.{IsOther, plain_shape, halos_on};

/// The law of shapes that no grid over macros draws: they are cut by each block that cuts on their layer, whatever grid it has.
pub fn each_block_cuts_plain_shapes()
    ensures { (blocks : List PlacedBlock) (line : Drawn) → All IsOther blocks
        → halos_over blocks (plain_shape line) ≡ halos_on blocks line.layer }
{}
