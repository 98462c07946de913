ghost use Rattle.std.specs.Prelude.{◌≡◌};
ghost use Rattle.block_rects.specs.Limits.{PartKeeps};
ghost use Rattle.block_rects.specs.declared.part.PinPart.{PinPart};
ghost use Rattle.geom_rect.specs.Drawn.{drawn_rect};
ghost use Rattle.grid_pieces.specs.declared.grid.DomainAt.{DomainAt};
ghost use Rattle.lef_tech.specs.declared.tech.Tech.{Tech};
ghost use Rattle.pin_shapes.specs.Pins.{pin_shape};

/// The law of pins as shapes: a shape has exactly the metal of the part of a pin that it is of.
pub fn pins_keep_their_metal()
    ensures { (tech : Tech) (domain : DomainAt) (part : PinPart) → PartKeeps tech part
        → drawn_rect (pin_shape tech domain part) ≡ part.rect }
{}
