use crate::same::same_at;
use load_shares::*;
use std::test::Fail;

#[test]
fn shares_of_loads(rt: HostRuntime) -> Result<(), Fail> {
    let cases: [(&str, (i64, i64), &[(i64, i64)]); 6] = [
        ("a power pin's", (10, 10), &[(4, 4), (3, 3), (3, 3)]),
        (
            "a ground pin's",
            (-10, -10),
            &[(-4, -4), (-3, -3), (-3, -3)],
        ),
        ("a range", (-1, 5), &[(-1, 3), (0, 2)]),
        ("fewer units than pieces", (0, 2), &[(0, 1), (0, 1), (0, 0)]),
        ("one piece", (-7, 9), &[(-7, 9)]),
        (
            "the least and the greatest number",
            (i64::MIN, i64::MAX),
            &[
                (-4611686018427387904, 4611686018427387904),
                (-4611686018427387904, 4611686018427387903),
            ],
        ),
    ];
    for (name, (low, high), want) in cases {
        let count = match want.len() {
            1 => 1,
            2 => 2,
            _ => 3,
        };
        let given = shares(rt.alloc(), Share { low, high }, count)?;
        same_at(&rt, given.len(), want.len(), name);
        for (share, (low, high)) in given.iter().zip(want) {
            same_at(
                &rt,
                *share,
                Share {
                    low: *low,
                    high: *high,
                },
                name,
            );
        }
    }
    Ok(())
}
