ghost use Rattle.std.specs.Prelude.{◌≡◌, [], List, MatchOption};
ghost use Rattle.geom_rect.specs.declared.rect.Rect.{Rect};
ghost use Rattle.rail_layout.specs.declared.row.RowBox.{RowBox};
ghost use Rattle.grid_cores.specs.Core.{IsCore};
ghost use Rattle.grid_cores.specs.inside.Core.{join};

use geom_rect::Rect;
use rail_layout::RowBox;

/// The core of a domain with these rows: the smallest rectangle that holds them. None where there is no row.
pub fn core_of(rows: &[RowBox]) -> Option<Rect>
    ensures { MatchOption result (rows.now ≡ []) (IsCore rows.now) }
{
    if rows.is_empty() {
        return None;
    }
    let mut core = rows[0].rect;
    for row in rows {
        core = join(core, row.rect);
    }
    Some(core)
}

/// The law of cores: rows have one core at most.
pub fn one_core()
    ensures { (rows : List RowBox) (one other : Rect) → IsCore rows one → IsCore rows other → one ≡ other }
{}

// The smallest rectangle that holds both.
fn join(a: Rect, b: Rect) -> Rect
    ensures { result ≡ join a b }
{
    Rect {
        x1: a.x1.min(b.x1),
        y1: a.y1.min(b.y1),
        x2: a.x2.max(b.x2),
        y2: a.y2.max(b.y2),
    }
}
