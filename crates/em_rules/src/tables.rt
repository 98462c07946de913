//! The densities of tables.
ghost use Rattle.std.specs.Prelude.{◌≡◌, ◌*◌, ◌^◌, ◌<◌, ◌≤◌, ◌↔◌, IsTrue};
ghost use Rattle.em_rules.specs.Density.{on_line, IsTableDensity};
ghost use Rattle.em_rules.specs.inside.Tables.{IsSmall, Fits};

// The density on the line between two points, at n / d.
fn on_line(p: (u64, u64), q: (u64, u64), n: u128, d: u128) -> u128
    requires some { 0 < d }
    requires few { d ≤ 4 * 10 ^ 8 }
    requires rise { p.0 < q.0 }
    requires from { p.0 * d ≤ n }
    requires to { n ≤ q.0 * d }
    requires first { IsSmall d p q }
    requires second { IsSmall d q q }
    ensures { result ≡ on_line p q n d }
{
    let before = n - u128::from(p.0) * d;
    let after = u128::from(q.0) * d - n;
    let width = u128::from(q.0 - p.0) * d;
    (u128::from(p.1) * after + u128::from(q.1) * before) / width
}

// Whether n / d is at most the place of a point.
fn reaches(point: (u64, u64), n: u128, d: u128) -> bool
    requires { d ≤ 4 * 10 ^ 8 }
    ensures { IsTrue result ↔ (n ≤ point.0 * d) }
{
    n <= u128::from(point.0) * d
}

// The density of a table at n / d.
pub(crate) fn table_density(points: &[(u64, u64)], n: u128, d: u128) -> u128
    requires some { 0 < d }
    requires few { d ≤ 4 * 10 ^ 8 }
    requires fits { Fits points.now d }
    ensures { IsTableDensity points.now n d result }
{
    if reaches(points[0], n, d) {
        return u128::from(points[0].1);
    }
    for place in 1..points.len() {
        if reaches(points[place], n, d) {
            return on_line(points[place - 1], points[place], n, d);
        }
    }
    u128::from(points[points.len() - 1].1)
}
