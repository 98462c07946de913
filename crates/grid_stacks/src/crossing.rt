ghost use Rattle.std.specs.Prelude.{◌≡◌, ◌≢◌, ◌≤ℤ◌, ◌↔◌, IsTrue};
ghost use Rattle.grid_stacks.specs.Crossing.{limit_of};
ghost use Rattle.grid_stacks.specs.inside.Standing.{Passes, Fits, bar_site};

use crate::bar::Bar;
use crate::connect::{Connect, Site};
use geom_rect::{Rect, Run};

// Whether the two cross and the whole width of the upright one lies in the run along the flat one.
pub(crate) fn fits(flat: Bar, run: Run, upright: Bar) -> bool
    ensures { IsTrue result ↔ Fits flat run upright }
{
    passes(flat, upright) && lies_in(run, upright)
}

fn passes(flat: Bar, upright: Bar) -> bool
    ensures { IsTrue result ↔ Passes flat upright }
{
    share_net(flat, upright) && nested(flat.low, flat.high, upright.from, upright.to)
}

fn share_net(flat: Bar, upright: Bar) -> bool
    ensures { IsTrue result ↔ ((flat.net ≡ upright.net) × (flat.layer ≢ upright.layer)) }
{
    flat.net == upright.net && flat.layer != upright.layer
}

fn lies_in(run: Run, upright: Bar) -> bool
    ensures { IsTrue result ↔ ((run.from ≤ℤ upright.low) × (upright.high ≤ℤ run.to)) }
{
    nested(upright.low, upright.high, run.from, run.to)
}

// Whether the span from `low` to `high` lies in that from `from` to `to`.
fn nested(low: i64, high: i64, from: i64, to: i64) -> bool
    ensures { IsTrue result ↔ ((from ≤ℤ low) × (high ≤ℤ to)) }
{
    from <= low && high <= to
}

// The place of a crossing.
pub(crate) fn site(connect: &Connect, flat: Bar, upright: Bar) -> Site
    ensures { result ≡ bar_site connect.now flat upright }
{
    Site {
        net: flat.net,
        x: upright.centre,
        y: flat.centre,
        from: connect.from,
        to: connect.to,
        crossing: Rect {
            x1: upright.low,
            y1: flat.low,
            x2: upright.high,
            y2: flat.high,
        },
        max_columns: limit(connect.max_columns),
        max_rows: limit(connect.max_rows),
    }
}

fn limit(stated: Option<u32>) -> u32
    ensures { result ≡ limit_of stated }
{
    match stated {
        Some(limit) => limit,
        None => u32::MAX,
    }
}
