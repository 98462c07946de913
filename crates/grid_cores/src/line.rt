ghost use Rattle.std.specs.Prelude.{◌≡◌, All, IfOk, OnOk};
ghost use Rattle.grid_cores.specs.Line.{along, across, share_cell, width_of, regions_over, over_run, AddsLine, AddsLines, LineKeeps};

use geom_rect::{Axis, Drawn, Rect, Run, runs};
use std::alloc::{AllocError, Global};

/// Adds the shapes of the lines, line after line: the maximal runs of each outside the regions that overlap its width.
pub fn add_runs(
    alloc: Global,
    shapes: &mut Vec<Drawn>,
    lines: &[Drawn],
    regions: &[Rect],
) -> Result<(), AllocError>
    requires { All LineKeeps lines.now }
    ensures { OnOk result (AddsLines regions.now lines.now shapes.old.items shapes.new.items) }
{
    for line in lines {
        add_line(alloc, shapes, *line, regions)?;
    }
    Ok(())
}

// Adds the shapes of one line.
fn add_line(
    alloc: Global,
    shapes: &mut Vec<Drawn>,
    line: Drawn,
    regions: &[Rect],
) -> Result<(), AllocError>
    requires { LineKeeps line }
    ensures { OnOk result (AddsLine regions.now line shapes.old.items shapes.new.items) }
{
    let whole = [Run {
        from: line.from,
        to: line.to,
    }];
    let over = regions_over(alloc, regions, line)?;
    let left = runs(alloc, &whole, &over)?;
    for run in &left {
        shapes.push(over_run(line, *run))?;
    }
    Ok(())
}

// The extents along a line of the regions that overlap its width.
fn regions_over(alloc: Global, regions: &[Rect], line: Drawn) -> Result<Vec<Run>, AllocError>
    requires { LineKeeps line }
    ensures { IfOk result (λ over. over.items ≡ regions_over regions.now line) }
{
    let width = width_of(line);
    let mut over = Vec::new(alloc);
    for region in regions {
        if share_cell(across(line.axis, *region), width) {
            over.push(along(line.axis, *region))?;
        }
    }
    Ok(over)
}

fn width_of(line: Drawn) -> Run
    requires { LineKeeps line }
    ensures { result ≡ width_of line }
{
    let half = line.width / 2;
    Run {
        from: line.centre - half,
        to: line.centre + half,
    }
}

fn share_cell(a: Run, b: Run) -> bool
    ensures { result ≡ share_cell a b }
{
    a.from.max(b.from) < a.to.min(b.to)
}

fn over_run(line: Drawn, run: Run) -> Drawn
    ensures { result ≡ over_run line run }
{
    Drawn {
        net: line.net,
        layer: line.layer,
        axis: line.axis,
        centre: line.centre,
        width: line.width,
        from: run.from,
        to: run.to,
        shape: line.shape,
    }
}

fn along(axis: Axis, rect: Rect) -> Run
    ensures { result ≡ along axis rect }
{
    match axis {
        Axis::X => Run {
            from: rect.x1,
            to: rect.x2,
        },
        Axis::Y => Run {
            from: rect.y1,
            to: rect.y2,
        },
    }
}

fn across(axis: Axis, rect: Rect) -> Run
    ensures { result ≡ across axis rect }
{
    match axis {
        Axis::X => Run {
            from: rect.y1,
            to: rect.y2,
        },
        Axis::Y => Run {
            from: rect.x1,
            to: rect.x2,
        },
    }
}
