//! The worked rows, crossings at the edges of what fits, and rules of every kind.

ghost use Rattle.std.specs.Prelude.{◌≡◌, ◌<◌, ◌≤◌, length, IsTrue, IfOk, IfSome};
ghost use Rattle.lef_tech.specs.Limits.{TechKeeps, RoutingKeeps, CutKeeps, Keeps, AreLengths, IsOhms, IsLength};
ghost use Rattle.geom_rect.specs.Rect.{IsInOrder, HasCoordinates};
ghost use Rattle.via_arrays.specs.inside.Lengths.{RuleLengths};
ghost use Rattle.drawing_tests.specs.inside.Arrays.{RuleFits, tested_order, AreLayers, AreCuts, AreRules, IsTested};

use crate::same::{same, same_at};
use entry_list::Entries;
use geom_rect::{Axis, Rect};
use lef_tech::{
    CutLayer, Density, LENGTH_LIMIT, LayerRef, RESISTANCE_LIMIT, RoutingLayer, Tech, ViaRule,
};
use outside::Name;
use std::alloc::{AllocError, Global};
use std::test::Fail;
use via_arrays::StackError::{NoCutFits, NoResistance, NoRule, OffGrid};
use via_arrays::*;

// What a rule of the technology below says: it joins the layer `lower` and the next one by cuts of the layer between.
#[derive(Clone, Copy)]
struct Said {
    lower: u32,
    lower_enclosure: (u64, u64),
    upper_enclosure: (u64, u64),
    lower_widths: Option<(u64, u64)>,
    upper_widths: Option<(u64, u64)>,
    cut: (u64, u64),
    pitch: (u64, u64),
    per_cut: Option<u64>,
}

fn are_lengths(pair: (u64, u64)) -> bool
    ensures { IsTrue result → AreLengths pair }
{
    u128::from(pair.0) <= LENGTH_LIMIT && u128::from(pair.1) <= LENGTH_LIMIT
}

fn may_be_lengths(pair: Option<(u64, u64)>) -> bool
    ensures { IsTrue result → Keeps AreLengths pair }
{
    match pair {
        Some(pair) => are_lengths(pair),
        None => true,
    }
}

fn may_be_ohms(ohms: Option<u64>) -> bool
    ensures { IsTrue result → Keeps IsOhms ohms }
{
    match ohms {
        Some(ohms) => u128::from(ohms) <= RESISTANCE_LIMIT,
        None => true,
    }
}

fn has_lengths(rule: &ViaRule) -> bool
    ensures { IsTrue result → RuleLengths rule.now }
{
    are_lengths(rule.lower_enclosure)
        && are_lengths(rule.upper_enclosure)
        && may_be_lengths(rule.lower_widths)
        && may_be_lengths(rule.upper_widths)
        && are_lengths((rule.cut_x, rule.cut_y))
        && are_lengths((rule.pitch_x, rule.pitch_y))
}

fn fits(rule: &ViaRule) -> bool
    ensures { IsTrue result → RuleFits rule.now }
{
    rule.upper < 4
        && rule.lower < rule.upper
        && rule.cut < 3
        && has_lengths(rule)
        && 0 < rule.cut_x
        && 0 < rule.cut_y
        && rule.cut_x <= rule.pitch_x
        && rule.cut_y <= rule.pitch_y
        && may_be_ohms(rule.per_cut)
}

// A rule with a name, where it keeps what a rule keeps.
fn rule(alloc: Global, name: &[u8], said: Said) -> Result<Option<ViaRule>, AllocError>
    ensures { IfOk result (λ made. IfSome made RuleFits) }
{
    let rule = ViaRule {
        name: Name::new(alloc, name)?,
        lower: said.lower,
        upper: said.lower.saturating_add(1),
        cut: said.lower,
        lower_enclosure: said.lower_enclosure,
        upper_enclosure: said.upper_enclosure,
        lower_widths: said.lower_widths,
        upper_widths: said.upper_widths,
        cut_x: said.cut.0,
        cut_y: said.cut.1,
        pitch_x: said.pitch.0,
        pitch_y: said.pitch.1,
        per_cut: said.per_cut,
    };
    Ok(if fits(&rule) { Some(rule) } else { None })
}

fn routing(alloc: Global, name: &[u8], direction: Axis) -> Result<RoutingLayer, AllocError>
    ensures { IfOk result RoutingKeeps }
{
    Ok(RoutingLayer {
        name: Name::new(alloc, name)?,
        direction,
        spacing: 65_000,
        sheet: Some(380_000_000),
        density: Density::Unlimited,
    })
}

fn cut(alloc: Global, name: &[u8], per_cut: Option<u64>) -> Result<CutLayer, AllocError>
    requires { Keeps IsOhms per_cut }
    ensures { IfOk result CutKeeps }
{
    Ok(CutLayer {
        name: Name::new(alloc, name)?,
        per_cut,
        density: Density::Unlimited,
    })
}

fn order(alloc: Global) -> Result<Vec<LayerRef>, AllocError>
    ensures { IfOk result (λ order. order.items ≡ tested_order) }
{
    Ok(vec![in alloc;
        LayerRef::Routing(0),
        LayerRef::Cut(0),
        LayerRef::Routing(1),
        LayerRef::Cut(1),
        LayerRef::Routing(2),
        LayerRef::Cut(2),
        LayerRef::Routing(3),
    ]?)
}

// Four layers, horizontal and vertical in turn.
fn layers(alloc: Global) -> Result<Vec<RoutingLayer>, AllocError>
    ensures { IfOk result (λ layers. AreLayers layers.items) }
{
    let first = routing(alloc, b"1", Axis::X)?;
    let second = routing(alloc, b"2", Axis::Y)?;
    let third = routing(alloc, b"3", Axis::X)?;
    let fourth = routing(alloc, b"4", Axis::Y)?;
    Ok(vec![in alloc; first, second, third, fourth]?)
}

fn cuts(alloc: Global, per_cut: Option<u64>) -> Result<Vec<CutLayer>, AllocError>
    requires { Keeps IsOhms per_cut }
    ensures { IfOk result (λ cuts. AreCuts cuts.items) }
{
    let first = cut(alloc, b"1", per_cut)?;
    let second = cut(alloc, b"2", per_cut)?;
    let third = cut(alloc, b"3", per_cut)?;
    Ok(vec![in alloc; first, second, third]?)
}

// The rules, where all of them keep what a rule keeps.
fn rules(alloc: Global, said: [Said; 3]) -> Result<Option<Vec<ViaRule>>, AllocError>
    ensures { IfOk result (λ made. IfSome made (λ rules. AreRules rules.items)) }
{
    let Some(first) = rule(alloc, b"1", said[0])? else {
        return Ok(None);
    };
    let Some(second) = rule(alloc, b"2", said[1])? else {
        return Ok(None);
    };
    let Some(third) = rule(alloc, b"3", said[2])? else {
        return Ok(None);
    };
    Ok(Some(vec![in alloc; first, second, third]?))
}

// Four routing layers, a cut layer between each two, and three rules; none where a number passes its limit.
fn tech(alloc: Global, said: [Said; 3], per_cut: Option<u64>) -> Result<Option<Tech>, AllocError>
    ensures { IfOk result (λ made. IfSome made (λ tech. IsTested tech)) }
{
    if !may_be_ohms(per_cut) {
        return Ok(None);
    }
    let order = order(alloc)?;
    let routing = layers(alloc)?;
    let cuts = cuts(alloc, per_cut)?;
    let Some(rules) = rules(alloc, said)? else {
        return Ok(None);
    };
    Ok(Some(assembled(order, routing, cuts, rules)))
}

fn assembled(
    order: Vec<LayerRef>,
    routing: Vec<RoutingLayer>,
    cuts: Vec<CutLayer>,
    rules: Vec<ViaRule>,
) -> Tech
    requires order { order.items ≡ tested_order }
    requires layers { AreLayers routing.items }
    requires cuts { AreCuts cuts.items }
    requires rules { AreRules rules.items }
    ensures { IsTested result }
{
    Tech {
        order: Entries::new(order),
        routing: Entries::new(routing),
        cuts: Entries::new(cuts),
        rules: Entries::new(rules),
    }
}

// The rule of a generated technology that joins `lower` and the next layer.
fn plain(lower: u32) -> Said {
    Said {
        lower,
        lower_enclosure: (0, 35_000),
        upper_enclosure: (0, 35_000),
        lower_widths: None,
        upper_widths: None,
        cut: (70_000, 70_000),
        pitch: (150_000, 150_000),
        per_cut: None,
    }
}

// A rule whose lengths all differ. At 1000 units in a micrometre n columns need 180, 430, 680 units, and n rows 160, 310,
// 460.
fn uneven() -> Said {
    Said {
        lower: 0,
        lower_enclosure: (10_000, 40_000),
        upper_enclosure: (50_000, 20_000),
        lower_widths: None,
        upper_widths: None,
        cut: (100_000, 60_000),
        pitch: (250_000, 150_000),
        per_cut: None,
    }
}

// A crossing of this width and height, away from 0.
fn crossing(width: u32, height: u32) -> Rect
    ensures { IsInOrder result × HasCoordinates result }
{
    Rect {
        x1: -170,
        y1: 1300,
        x2: i64::from(width) - 170,
        y2: i64::from(height) + 1300,
    }
}

#[test]
fn three_arrays_or_no_cut(rt: HostRuntime) -> Result<(), Fail> {
    let alloc = rt.alloc();
    let said = [plain(0), plain(1), plain(2)];
    let Some(tech) = tech(alloc, said, Some(5_000_000_000))? else {
        assert!(rt; false, "the technology keeps its limits");
        return Ok(());
    };
    let horizontal_first = CutArray {
        rule: 0,
        columns: 3,
        rows: 1,
        cut_x: 140,
        cut_y: 140,
        pitch_x: 300,
        pitch_y: 300,
        lower_x: 70,
        lower_y: 0,
        upper_x: 0,
        upper_y: 70,
    };
    let vertical_first = CutArray {
        rule: 1,
        lower_x: 0,
        lower_y: 70,
        upper_x: 70,
        upper_y: 0,
        ..horizontal_first
    };
    let last = CutArray {
        rule: 2,
        ..horizontal_first
    };
    match stack(alloc, &tech, 0, 3, crossing(960, 340), 2000, 9, 9) {
        Ok(stack) => {
            same(&rt, (stack.from, stack.to), (0, 3));
            same(
                &rt,
                stack.arrays.as_slice(),
                [horizontal_first, vertical_first, last].as_slice(),
            );
            same(
                &rt,
                stack.ohms.as_slice(),
                [1_666_666_667u64, 1_666_666_667, 1_666_666_667].as_slice(),
            );
        }
        Err(error) => same_at(&rt, error, StackError::Want, "it is a stack"),
    }
    for from in 0..3 {
        match stack(alloc, &tech, from, 3, crossing(960, 200), 2000, 9, 9) {
            Err(error) => same(&rt, error, StackError::NoCutFits(from)),
            Ok(_) => assert!(rt; false, "not a single cut fits"),
        }
    }
    Ok(())
}

#[test]
fn columns_and_rows_that_fit(rt: HostRuntime) -> Result<(), Fail> {
    let Some(tech) = tech(rt.alloc(), [uneven(), uneven(), uneven()], None)? else {
        assert!(rt; false, "the technology keeps its limits");
        return Ok(());
    };
    let most = u32::MAX;
    // The crossing's width and height, the limits of columns and rows, and the columns and rows that stand; none where not
    // a single cut fits.
    let cases: [(u32, u32, u32, u32, Option<(u32, u32)>); 15] = [
        (680, 460, most, most, Some((3, 3))),
        (680, 310, most, most, Some((3, 2))),
        (430, 460, most, most, Some((2, 3))),
        (681, 461, most, most, Some((3, 3))),
        (679, 459, most, most, Some((2, 2))),
        (180, 160, most, most, Some((1, 1))),
        (179, 160, most, most, None),
        (180, 159, most, most, None),
        (0, 0, most, most, None),
        (680, 460, 2, 1, Some((2, 1))),
        (680, 460, 3, 3, Some((3, 3))),
        (680, 460, 0, 9, None),
        (680, 460, 9, 0, None),
        (most, most, most, most, Some((17_179_869, 28_633_115))),
        (most, most, 7, 28_633_115, Some((7, 28_633_115))),
    ];
    for (width, height, max_columns, max_rows, want) in cases {
        let place = crossing(width, height);
        match (array(&tech, 2, place, 1000, max_columns, max_rows), want) {
            (Ok(array), Some(want)) => {
                let whole = CutArray {
                    rule: 2,
                    columns: want.0,
                    rows: want.1,
                    cut_x: 100,
                    cut_y: 60,
                    pitch_x: 250,
                    pitch_y: 150,
                    lower_x: 40,
                    lower_y: 10,
                    upper_x: 20,
                    upper_y: 50,
                };
                same_at(&rt, array, whole, (width, height));
            }
            (Err(error), None) => same_at(&rt, error, ArrayError::NoCutFits, (width, height)),
            _ => assert!(rt; false, "at {width} by {height}"),
        }
    }
    Ok(())
}

#[test]
fn lengths_off_the_grid(rt: HostRuntime) -> Result<(), Fail> {
    let whole = Said {
        lower_widths: Some((100_000, 900_000)),
        upper_widths: Some((100_000, 900_000)),
        ..uneven()
    };
    // One length after another is no whole number of units at 1000 of them in a micrometre, but one at 2000.
    let cases = [
        Said {
            lower_enclosure: (10_500, 40_000),
            ..whole
        },
        Said {
            lower_enclosure: (10_000, 40_500),
            ..whole
        },
        Said {
            upper_enclosure: (50_500, 20_000),
            ..whole
        },
        Said {
            upper_enclosure: (50_000, 20_500),
            ..whole
        },
        Said {
            lower_widths: Some((100_500, 900_000)),
            ..whole
        },
        Said {
            lower_widths: Some((100_000, 900_500)),
            ..whole
        },
        Said {
            upper_widths: Some((100_500, 900_000)),
            ..whole
        },
        Said {
            upper_widths: Some((100_000, 900_500)),
            ..whole
        },
        Said {
            cut: (100_500, 60_000),
            ..whole
        },
        Said {
            cut: (100_000, 60_500),
            ..whole
        },
        Said {
            pitch: (250_500, 150_000),
            ..whole
        },
        Said {
            pitch: (250_000, 150_500),
            ..whole
        },
    ];
    for (place, case) in cases.iter().enumerate() {
        let Some(tech) = tech(rt.alloc(), [whole, *case, whole], None)? else {
            assert!(rt; false, "the technology keeps its limits");
            return Ok(());
        };
        for (width, units, want) in [
            (680, 1000, Err(ArrayError::OffGrid)),
            // Not a single cut fits either: the length off the grid goes first.
            (0, 1000, Err(ArrayError::OffGrid)),
            (2000, 2000, Ok(())),
            (0, 2000, Err(ArrayError::NoCutFits)),
        ] {
            let got = array(&tech, 1, crossing(width, 2000), units, 9, 9);
            same_at(&rt, got.map(|_| ()), want, (place, units));
        }
    }
    Ok(())
}

#[test]
fn first_rule_that_suits(rt: HostRuntime) -> Result<(), Fail> {
    let narrow = Said {
        lower_widths: Some((200_000, 400_000)),
        ..uneven()
    };
    let off_grid = Said {
        lower_widths: Some((100_500, 599_500)),
        upper_widths: Some((300_000, 300_000)),
        ..uneven()
    };
    let Some(tech) = tech(rt.alloc(), [narrow, off_grid, plain(1)], None)? else {
        assert!(rt; false, "the technology keeps its limits");
        return Ok(());
    };
    // The layers, the crossing's width and height at 1000 units in a micrometre, and the number of the rule. The lower layer
    // is horizontal, so that its width is the crossing's height.
    let cases: [(u32, u32, u32, u32, Option<u32>); 14] = [
        (0, 1, 300, 200, Some(0)),
        (0, 1, 300, 400, Some(0)),
        (0, 1, 999, 300, Some(0)),
        (0, 1, 300, 199, Some(1)),
        (0, 1, 300, 401, Some(1)),
        (0, 1, 300, 101, Some(1)),
        (0, 1, 300, 599, Some(1)),
        (0, 1, 300, 100, None),
        (0, 1, 300, 600, None),
        (0, 1, 299, 401, None),
        (0, 1, 301, 401, None),
        (1, 2, 1, 1, Some(2)),
        (1, 0, 300, 300, None),
        (2, 3, 300, 300, None),
    ];
    for (lower, upper, width, height, want) in cases {
        assert!(rt; lower < 4 && upper < 4);
        let got = choose_rule(&tech, lower, upper, crossing(width, height), 1000);
        same_at(&rt, got, want, (lower, upper, width, height));
    }
    Ok(())
}

#[test]
fn range_that_falls_fits_nothing(rt: HostRuntime) -> Result<(), Fail> {
    let falling = Said {
        upper_widths: Some((400_000, 300_000)),
        ..uneven()
    };
    let Some(tech) = tech(rt.alloc(), [falling, plain(0), plain(0)], None)? else {
        assert!(rt; false, "the technology keeps its limits");
        return Ok(());
    };
    for width in [299, 300, 350, 400, 401] {
        let got = choose_rule(&tech, 0, 1, crossing(width, 300), 1000);
        same_at(&rt, got, Some(1), ("at a width of", width));
    }
    Ok(())
}

// The resistances of a stack from the lowest layer to this one, or why there is none.
fn ohms(
    alloc: Global,
    tech: &Tech,
    to: u32,
    crossing: Rect,
) -> Result<Result<Vec<u64>, StackError>, AllocError>
    requires tech { TechKeeps tech.now }
    requires rising { 0 < to }
    requires to { to < length tech.now.routing }
    requires crossing { IsInOrder crossing × HasCoordinates crossing }
{
    match stack(alloc, tech, 0, to, crossing, 1000, u32::MAX, u32::MAX) {
        Ok(stack) => Ok(Ok(stack.ohms.as_slice().to_vec(alloc)?)),
        Err(StackError::Want) => Err(AllocError),
        Err(error) => Ok(Err(error)),
    }
}

#[test]
fn first_fault_upwards(rt: HostRuntime) -> Result<(), Fail> {
    let own = |lower| Said {
        per_cut: Some(7_000_000_000),
        ..plain(lower)
    };
    let off_grid = |lower| Said {
        pitch: (150_500, 150_000),
        ..own(lower)
    };
    let wide = |lower| Said {
        lower_widths: Some((900_000, 900_000)),
        ..own(lower)
    };
    // The rules, the width and height of the crossing, and the fault.
    let cases = [
        // no rule
        ([own(1), own(2), own(2)], 960, NoRule(0)),
        // no rule of this width
        ([wide(0), own(1), own(2)], 960, NoRule(0)),
        // no rule above
        ([own(0), wide(1), own(2)], 960, NoRule(1)),
        // off the grid
        ([off_grid(0), own(1), own(2)], 960, OffGrid(0)),
        // off the grid above
        ([own(2), off_grid(1), own(0)], 960, OffGrid(1)),
        // off the grid and no cut
        ([off_grid(0), own(1), own(2)], 100, OffGrid(0)),
        // no cut
        ([own(0), own(1), own(2)], 139, NoCutFits(0)),
        // no cut and no resistance
        ([plain(0), own(1), own(2)], 139, NoCutFits(0)),
        // no resistance
        ([plain(0), own(1), own(2)], 960, NoResistance(0)),
        // no resistance above
        ([own(0), plain(1), own(2)], 960, NoResistance(1)),
        // no resistance below no rule
        ([plain(0), wide(1), own(2)], 960, NoResistance(0)),
        // no rule below no resistance
        ([wide(0), plain(1), own(2)], 960, NoRule(0)),
    ];
    for (said, side, want) in cases {
        let Some(tech) = tech(rt.alloc(), said, None)? else {
            assert!(rt; false, "the technology keeps its limits");
            return Ok(());
        };
        match ohms(rt.alloc(), &tech, 3, crossing(side, side))? {
            Err(error) => same(&rt, error, want),
            Ok(_) => assert!(rt; false, "a stack stands"),
        }
    }
    Ok(())
}

#[test]
fn resistance_of_a_rule_goes_first(rt: HostRuntime) -> Result<(), Fail> {
    let own = Said {
        per_cut: Some(7_000_000_000),
        ..plain(0)
    };
    let nothing = Said {
        per_cut: Some(0),
        ..plain(1)
    };
    // The resistance of a cut of each cut layer, the side of the crossing, and the resistances of the two arrays.
    let cases: [(Option<u64>, u32, [u64; 2]); 5] = [
        (Some(5_000_000_000), 140, [7_000_000_000, 1]),
        (Some(5_000_000_000), 290, [1_750_000_000, 1]),
        (Some(5_000_000_000), 440, [777_777_778, 1]),
        (None, 440, [777_777_778, 1]),
        // 28633115 columns and as many rows: more cuts than nano-ohms.
        (Some(5_000_000_000), u32::MAX, [1, 1]),
    ];
    for (per_cut, side, want) in cases {
        let Some(tech) = tech(rt.alloc(), [own, nothing, plain(2)], per_cut)? else {
            assert!(rt; false, "the technology keeps its limits");
            return Ok(());
        };
        match ohms(rt.alloc(), &tech, 2, crossing(side, side))? {
            Ok(got) => same_at(&rt, got.as_slice(), want.as_slice(), side),
            Err(_) => assert!(rt; false, "at {side}"),
        }
    }
    Ok(())
}

#[test]
fn resistance_of_a_wire(rt: HostRuntime) {
    // The resistance of a square in nano-ohms times the wire's length, its width, and the wire's resistance.
    for (total, width, want) in [
        (380_000_000 * 112_000, 960, 44_333_333_333),
        (380_000_000, 4_000_000_000, 1),
        (5, 2, 3),
        (7, 2, 4),
        (7, 3, 2),
        (8, 3, 3),
        (1, 2, 1),
        (1, 3, 1),
        (0, 960, 1),
        (
            1_000_000_000_000_000_000 << 62,
            2,
            500_000_000_000_000_000 << 62,
        ),
        (u128::MAX, 1, u128::MAX),
        (u128::MAX, u128::MAX, 1),
        (u128::MAX, 2, 1 << 127),
    ] {
        assert!(rt; 0 < width);
        same_at(&rt, resistance(total, width), want, (total, width));
    }
}
