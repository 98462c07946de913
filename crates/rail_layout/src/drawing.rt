ghost use Rattle.std.specs.Prelude.{◌≡◌, IfOk};
ghost use Rattle.rail_layout.specs.Rails.{Edge, rail_at, rails_of};

use crate::row::RowBox;
use crate::rule::RailRule;
use geom_rect::{Axis, Drawn, Run, Shape};
use std::alloc::{AllocError, Global};

/// The rails of a rule along rows: two of each row, the lower one first, in the order of the rows. Ground lies at the
/// lower edge of a row and power at its upper one; of a flipped row they are exchanged.
pub fn rails(alloc: Global, rule: &RailRule, rows: &[RowBox]) -> Result<Vec<Drawn>, AllocError>
    ensures { IfOk result (λ rails. rails.items ≡ rails_of rule.now rows.now) }
{
    let mut rails = Vec::new(alloc);
    for row in rows {
        rails.push(rail(rule, row, row.rect.y1, row.flipped))?;
        rails.push(rail(rule, row, row.rect.y2, !row.flipped))?;
    }
    Ok(rails)
}

// The rail of power, or else of ground, at an edge of a row.
fn rail(rule: &RailRule, row: &RowBox, edge: i64, is_power: bool) -> Drawn
    ensures { result ≡ rail_at rule.now row.now (record { height = edge; is_power = is_power }) }
{
    let (net, reach) = if is_power {
        (rule.power, rule.power_reach)
    } else {
        (rule.ground, rule.ground_reach)
    };
    let along = reach.unwrap_or(Run {
        from: row.rect.x1,
        to: row.rect.x2,
    });
    Drawn {
        net,
        layer: rule.layer,
        axis: Axis::X,
        centre: edge,
        width: rule.width,
        from: along.from,
        to: along.to,
        shape: Shape::FollowPin,
    }
}
