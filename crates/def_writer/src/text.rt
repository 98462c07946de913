//! The text of a grid.
ghost use Rattle.std.specs.Prelude.{◌≡◌, ◌++◌, IfOk, OnOk, map};
ghost use Rattle.def_writer.specs.Limits.{GridFits};
ghost use Rattle.def_writer.specs.Line.{line_of, text_of};
ghost use Rattle.def_writer.specs.Written.{written_def, head_lines, design_lines, die_line};
ghost use Rattle.lef_tech.specs.Limits.{TechKeeps};

use crate::line::{append_line, digits};
use crate::net::append_nets;
use crate::via::by_via;
use crate::vias::append_vias;
use def_design::Design;
use geom_rect::Rect;
use grid_pieces::Grid;
use itoa::Buffer;
use lef_tech::Tech;
use std::alloc::{AllocError, Global};

/// The text of a power grid as DEF.
///
/// One buffer grows with the text. Error: want of memory.
pub fn def_text(
    alloc: Global,
    design: &Design,
    tech: &Tech,
    grid: &Grid,
) -> Result<Vec<u8>, AllocError>
    requires tech { TechKeeps tech.now }
    requires grid { GridFits tech.now grid.now }
    ensures { IfOk result (λ text. text.items ≡ written_def design.now tech.now grid.now) }
{
    let vias = by_via(alloc, grid.stacks.as_slice())?;
    let mut out = Vec::new(alloc);
    append_head(&mut out)?;
    append_design(&mut out, design)?;
    append_vias(&mut out, tech, &vias)?;
    append_nets(&mut out, tech, grid)?;
    append_line(&mut out, &[b"END", b"DESIGN"])?;
    Ok(out)
}

// The lines before the design.
fn append_head(out: &mut Vec<u8>) -> Result<(), AllocError>
    ensures { OnOk result (out.new.items ≡ out.old.items ++ text_of head_lines) }
{
    append_line(out, &[b"VERSION", b"5.8", b";"])?;
    append_line(out, &[b"DIVIDERCHAR", b"\"/\"", b";"])?;
    append_line(out, &[b"BUSBITCHARS", b"\"[]\"", b";"])?;
    Ok(())
}

// The name of the design, its units and its die.
fn append_design(out: &mut Vec<u8>, design: &Design) -> Result<(), AllocError>
    ensures { OnOk result (out.new.items ≡ out.old.items ++ text_of (design_lines design.now)) }
{
    let mut units = Buffer::new();
    append_line(out, &[b"DESIGN", design.name.bytes(), b";"])?;
    append_line(
        out,
        &[
            b"UNITS",
            b"DISTANCE",
            b"MICRONS",
            units.format(design.units).as_bytes(),
            b";",
        ],
    )?;
    append_die(out, design.die)?;
    Ok(())
}

// The corners of the die.
fn append_die(out: &mut Vec<u8>, die: Rect) -> Result<(), AllocError>
    ensures { OnOk result (out.new.items ≡ out.old.items ++ line_of (die_line die)) }
{
    let (mut x1, mut y1) = (Buffer::new(), Buffer::new());
    let (mut x2, mut y2) = (Buffer::new(), Buffer::new());
    let left = digits(&mut x1, die.x1);
    let low = digits(&mut y1, die.y1);
    let right = digits(&mut x2, die.x2);
    let high = digits(&mut y2, die.y2);
    append_line(
        out,
        &[
            b"DIEAREA", b"(", left, low, b")", b"(", right, high, b")", b";",
        ],
    )
}
