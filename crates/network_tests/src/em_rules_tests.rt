//! The worked rows, tables of one point, widths at a point, and the greatest numbers.
ghost use Rattle.lef_tech.specs.Limits.{TechKeeps};
ghost use Rattle.em_rules.specs.Limit.{IsWidth, HasCuts};
ghost use Rattle.via_arrays.specs.Lengths.{IsUnits};

use crate::same::{same, same_at};
use em_rules::*;
use lef_tech::{Tech, read_tech};
use std::test::Fail;
use via_arrays::CutArray;

#[test]
fn verdicts_are_closed(rt: HostRuntime) {
    let limit = Some(5_000_000_000);
    for (low, high, limit, want) in [
        (0, 5_000_000_000, limit, Verdict::Safe),
        (0, 5_001_000_000, limit, Verdict::Undecided),
        (6_000_000_000, 7_000_000_000, limit, Verdict::Unsafe),
        (0, 0, None, Verdict::NoLimit),
        (-5_000_000_000, 5_000_000_000, limit, Verdict::Safe),
        (-5_000_000_001, 0, limit, Verdict::Undecided),
        (-7_000_000_000, -6_000_000_000, limit, Verdict::Unsafe),
        (5_000_000_000, 6_000_000_000, limit, Verdict::Undecided),
        (-6_000_000_000, -5_000_000_000, limit, Verdict::Undecided),
        (-6_000_000_000, 6_000_000_000, limit, Verdict::Undecided),
        (0, 0, Some(0), Verdict::Safe),
        (1, 1, Some(0), Verdict::Unsafe),
        (i128::MIN, i128::MAX, Some(u128::MAX), Verdict::Safe),
        (i128::MIN, 0, Some(1 << 127), Verdict::Safe),
        (i128::MIN, 0, Some((1 << 127) - 1), Verdict::Undecided),
    ] {
        same_at(&rt, verdict(low, high, limit), want, (low, high));
    }
}

// A table of two points, a table of one, one density for all, and none.
const TECHNOLOGY: &[u8] = b"
LAYER metal1 TYPE ROUTING ; DIRECTION HORIZONTAL ;
  DCCURRENTDENSITY AVERAGE WIDTH 0.1 0.5 ; TABLEENTRIES 1 3 ; END metal1
LAYER via1 TYPE CUT ; DCCURRENTDENSITY AVERAGE CUTAREA 0.01 0.03 ; TABLEENTRIES 10 30 ; END via1
LAYER metal2 TYPE ROUTING ; DIRECTION VERTICAL ;
  DCCURRENTDENSITY AVERAGE WIDTH 0.2 ; TABLEENTRIES 5 ; END metal2
LAYER via2 TYPE CUT ; DCCURRENTDENSITY AVERAGE 1000 ; END via2
LAYER metal3 TYPE ROUTING ; DIRECTION HORIZONTAL ; DCCURRENTDENSITY AVERAGE 1000000 ; END metal3
LAYER via3 TYPE CUT ; END via3
LAYER metal4 TYPE ROUTING ; DIRECTION VERTICAL ; END metal4
END LIBRARY
";

// The limit of a wire of the layer of this place, and 0 where there is no such layer.
fn wire(tech: &Tech, layer: usize, width: i64, units: u32) -> Option<u128>
    requires tech { TechKeeps tech.now }
    requires width { IsWidth width }
    requires units { IsUnits units }
{
    let layers = tech.routing.as_slice();
    if layer < layers.len() {
        wire_limit(&layers[layer], width, units)
    } else {
        Some(0)
    }
}

// The limit of an array of the layer of this place, and 0 where there is no such layer.
fn cuts(tech: &Tech, layer: usize, array: &CutArray, units: u32) -> Option<u128>
    requires tech { TechKeeps tech.now }
    requires array { HasCuts array.now }
    requires units { IsUnits units }
{
    let layers = tech.cuts.as_slice();
    if layer < layers.len() {
        cut_limit(&layers[layer], array, units)
    } else {
        Some(0)
    }
}

#[test]
fn limits_from_a_table(rt: HostRuntime) -> Result<(), Fail> {
    let Ok(tech) = read_tech(rt.alloc(), TECHNOLOGY) else {
        return Err("refused")?;
    };
    for (width, want) in [
        (400, 300_000_000_000),
        (100, 50_000_000_000),
        (2000, 3_000_000_000_000),
    ] {
        same_at(&rt, wire(&tech, 0, width, 2000), Some(want), width);
    }
    Ok(())
}

#[test]
fn widths_at_a_point(rt: HostRuntime) -> Result<(), Fail> {
    let Ok(tech) = read_tech(rt.alloc(), TECHNOLOGY) else {
        return Err("refused")?;
    };
    for (width, units, want) in [
        (199, 2000, 99_500_000_000),
        (200, 2000, 100_000_000_000),
        (201, 2000, 100_751_250_000),
        (999, 2000, 1_497_251_250_000),
        (1000, 2000, 1_500_000_000_000),
        (1001, 2000, 1_501_500_000_000),
        (1, 3, 722_222_222_222),
        (2, 7, 551_020_408_163),
    ] {
        same_at(
            &rt,
            wire(&tech, 0, width, units),
            Some(want),
            (width, units),
        );
    }
    Ok(())
}

#[test]
fn tables_of_one_point(rt: HostRuntime) -> Result<(), Fail> {
    let Ok(tech) = read_tech(rt.alloc(), TECHNOLOGY) else {
        return Err("refused")?;
    };
    same(&rt, wire(&tech, 1, 100, 2000), Some(250_000_000_000));
    same(&rt, wire(&tech, 1, 400, 2000), Some(1_000_000_000_000));
    same(&rt, wire(&tech, 1, 4000, 2000), Some(10_000_000_000_000));
    same(&rt, wire(&tech, 3, 4000, 2000), None);
    Ok(())
}

#[test]
fn greatest_numbers(rt: HostRuntime) -> Result<(), Fail> {
    let Ok(tech) = read_tech(rt.alloc(), TECHNOLOGY) else {
        return Err("refused")?;
    };
    let most = 4_294_967_296;
    same(
        &rt,
        wire(&tech, 2, most, 1),
        Some(4_294_967_296_000_000_000_000_000_000),
    );
    same(
        &rt,
        wire(&tech, 0, most, 20000),
        Some(644_245_094_400_000_000),
    );
    let array = CutArray {
        cut_x: most,
        cut_y: most,
        columns: 1,
        rows: 1,
        ..ARRAY
    };
    same(
        &rt,
        cuts(&tech, 1, &array, 1),
        Some(18_446_744_073_709_551_616_000_000_000_000_000),
    );
    same(
        &rt,
        cuts(&tech, 0, &array, 1),
        Some(553_402_322_211_286_548_480_000_000_000_000),
    );
    Ok(())
}

// Three columns and two rows of cuts of 0.1 by 0.1 micrometres, at 2000 units in a micrometre.
const ARRAY: CutArray = CutArray {
    rule: 0,
    columns: 3,
    rows: 2,
    cut_x: 200,
    cut_y: 200,
    pitch_x: 300,
    pitch_y: 300,
    lower_x: 0,
    lower_y: 0,
    upper_x: 0,
    upper_y: 0,
};

#[test]
fn limits_of_arrays(rt: HostRuntime) -> Result<(), Fail> {
    let Ok(tech) = read_tech(rt.alloc(), TECHNOLOGY) else {
        return Err("refused")?;
    };
    for (cut_x, cut_y, want) in [
        (200, 200, 600_000_000_000),
        (200, 400, 2_400_000_000_000),
        (400, 600, 10_800_000_000_000),
        (100, 100, 150_000_000_000),
    ] {
        let array = CutArray {
            cut_x,
            cut_y,
            ..ARRAY
        };
        same_at(
            &rt,
            cuts(&tech, 0, &array, 2000),
            Some(want),
            (cut_x, cut_y),
        );
    }
    same(&rt, cuts(&tech, 2, &ARRAY, 2000), None);
    Ok(())
}
