ghost use Rattle.std.specs.Prelude.{◌≡◌, ◌<◌, ◌≤◌, ◌⊎◌, ◌<ℤ◌, ◌≤ℤ◌, ℕ, All, AllPairs, Contains, IsTrue, MatchOption, OnOk, IfOk, length, slice_index_or};
ghost use Rattle.geom_rect.specs.declared.run.Run.{Run};
ghost use Rattle.grid_stacks.specs.declared.bar.Bar.{Bar};
ghost use Rattle.grid_stacks.specs.declared.bar.Start.{Start};
ghost use Rattle.grid_stacks.specs.declared.connect.Site.{Site};
ghost use Rattle.grid_stacks.specs.Crossing.{At};
ghost use Rattle.grid_stacks.specs.inside.Bar.{AreByLow, AreByNet, AreStarts, BarsApart};
ghost use Rattle.grid_stacks.specs.inside.Standing.{AreByStart, IsNextIn, IsBefore, IsBehind, IsMet, Lies, Fits, Crosses, RunAdded, FlatAdded, AllAdded, NoneIs, StillLie, EachHas, OnOneLayer, bar_site};
ghost use Rattle.grid_stacks.specs.Stacking.{AreDifferent, AreMany};

use crate::bar::{Bar, Start};
use crate::connect::{Connect, Site};
use crate::crossing::{fits, site};
use crate::inner::Inner;
use crate::lying::{Lying, next_from, put_in, take_out};
use crate::over::free_runs;
use geom_rect::Run;
use std::alloc::{AllocError, Global};

/// How many stacks a grid may have.
pub const MOST_STACKS: usize = 1_000_000;

// Adds the sites of a connect at which nothing obstructs a stack, or so many that they are too many.
//
// This sweeps in y. An upright bar is put in when the sweep has come to where it begins, and taken out when it is met
// and has ended. Of those that lie a flat one meets those alone that lie in a part of it that is free.
pub(crate) fn cross_all(
    alloc: Global,
    connect: &Connect,
    flats: &[Bar],
    uprights: &[Bar],
    starts: &[Start],
    inner: &Inner,
    sites: &mut Vec<Site>,
) -> Result<(), AllocError>
    requires flats { AreByLow flats.now }
    requires uprights { AreByNet uprights.now }
    requires starts { AreStarts uprights.now starts.now }
    requires wide { All (λ (bar : Bar). bar.low <ℤ bar.high) flats.now }
    requires wide_too { All (λ (bar : Bar). bar.low <ℤ bar.high) uprights.now }
    requires apart { AllPairs BarsApart flats.now }
    requires apart_too { AllPairs BarsApart uprights.now }
    requires one_layer { OnOneLayer flats.now }
    requires one_layer_too { OnOneLayer uprights.now }
    requires differ { AreDifferent sites.old.items }
    requires others { All (λ (s : Site). s.from ≡ connect.now.from → s.to ≡ connect.now.to → ⊥) sites.old.items }
    ensures added { OnOk result
        (AllAdded connect.now inner.now flats.now uprights.now (length flats.now) sites.old.items sites.new.items) }
    ensures every { OnOk result (AreMany sites.new.items
        ⊎ ((flat upright : Bar) → Contains flats.now flat → Contains uprights.now upright
        → Crosses inner.now flat upright
        → Contains sites.new.items (bar_site connect.now flat upright))) }
{
    let mut lying = Lying::new(alloc);
    let mut next = 0;
    for flat in flats {
        next = open_up_to(&mut lying, uprights, starts, next, flat.low)?;
        cross_flat(alloc, connect, *flat, uprights, inner, &mut lying, sites)?;
        if sites.len() > MOST_STACKS {
            return Ok(());
        }
    }
    Ok(())
}

// Puts in the upright bars from a place of `starts` on that begin up to `low`.
fn open_up_to(
    lying: &mut Lying,
    uprights: &[Bar],
    starts: &[Start],
    next: usize,
    low: i64,
) -> Result<usize, AllocError>
    requires in_order { AreByStart starts.now }
    requires within { next ≤ length starts.now }
    ensures within { IfOk result (λ n. (next ≤ n) × (n ≤ length starts.now)) }
    ensures put { IfOk result (λ n. (k : ℕ) (s : Start) → next ≤ k → k < n → At starts.now k s
        → Lies lying.new s.place) }
    ensures kept { OnOk result ((p : ℕ) → Lies lying.old p → Lies lying.new p) }
    ensures behind { IfOk result (λ n. (k : ℕ) (s : Start) → n ≤ k → At starts.now k s → low <ℤ s.from) }
{
    let mut next = next;
    while next < starts.len() && starts[next].from <= low {
        put_in(lying, starts[next].place)?;
        next += 1;
    }
    Ok(next)
}

// Adds the sites of one flat bar.
fn cross_flat(
    alloc: Global,
    connect: &Connect,
    flat: Bar,
    uprights: &[Bar],
    inner: &Inner,
    lying: &mut Lying,
    sites: &mut Vec<Site>,
) -> Result<(), AllocError>
    requires uprights { AreByNet uprights.now }
    requires wide { flat.low <ℤ flat.high }
    requires wide_too { All (λ (bar : Bar). bar.low <ℤ bar.high) uprights.now }
    requires apart { AllPairs BarsApart uprights.now }
    requires one_layer { OnOneLayer uprights.now }
    requires differ { AreDifferent sites.old.items }
    requires others { NoneIs connect.now flat (Crosses inner.now flat) uprights.now sites.old.items }
    ensures added { OnOk result (FlatAdded connect.now inner.now flat uprights.now sites.old.items sites.new.items) }
    ensures still { OnOk result (StillLie uprights.now flat lying.old lying.new) }
    ensures every { OnOk result (AreMany sites.new.items
        ⊎ EachHas connect.now flat (Crosses inner.now flat) uprights.now lying.old sites.new.items) }
{
    let free = free_runs(alloc, flat, inner)?;
    for run in &free {
        cross_run(connect, flat, *run, uprights, lying, sites)?;
    }
    Ok(())
}

// Adds the sites in a free run of one flat bar.
fn cross_run(
    connect: &Connect,
    flat: Bar,
    run: Run,
    uprights: &[Bar],
    lying: &mut Lying,
    sites: &mut Vec<Site>,
) -> Result<(), AllocError>
    requires uprights { AreByNet uprights.now }
    requires wide { flat.low <ℤ flat.high }
    requires wide_too { All (λ (bar : Bar). bar.low <ℤ bar.high) uprights.now }
    requires apart { AllPairs BarsApart uprights.now }
    requires one_layer { OnOneLayer uprights.now }
    requires differ { AreDifferent sites.old.items }
    requires others { NoneIs connect.now flat (Fits flat run) uprights.now sites.old.items }
    ensures added { OnOk result
        (RunAdded connect.now flat run uprights.now (λ _. Unit {0}) sites.old.items sites.new.items) }
    ensures still { OnOk result (StillLie uprights.now flat lying.old lying.new) }
    ensures every { OnOk result (AreMany sites.new.items
        ⊎ EachHas connect.now flat (Fits flat run) uprights.now lying.old sites.new.items) }
{
    let mut from = first_in(uprights, flat.net, run.from);
    while let Some(place) = next_in(lying, uprights, flat.net, run.to, from) {
        from = place + 1;
        meet(connect, flat, run, uprights[place], place, lying, sites)?;
        if sites.len() > MOST_STACKS {
            return Ok(());
        }
    }
    Ok(())
}

// Adds the site of a flat and an upright bar where it fits into the run. An upright one that ends below the flat one is
// taken out.
fn meet(
    connect: &Connect,
    flat: Bar,
    run: Run,
    upright: Bar,
    place: usize,
    lying: &mut Lying,
    sites: &mut Vec<Site>,
) -> Result<(), AllocError>
    requires wide { flat.low <ℤ flat.high }
    ensures met { OnOk result (IsMet connect.now flat run upright sites.old.items sites.new.items) }
    ensures lie { OnOk result ((p : ℕ) → ((p ≡ place) × (upright.to <ℤ flat.low) → ⊥) → Lies lying.old p
        → Lies lying.new p) }
{
    if upright.to < flat.low {
        take_out(lying, place);
    } else if fits(flat, run, upright) {
        sites.push(site(connect, flat, upright))?;
    }
    Ok(())
}

// A place before which no upright bar of this net begins at `x` or right of it: the first that is not before it, by a
// binary search.
fn first_in(uprights: &[Bar], net: u32, x: i64) -> usize
    requires { AreByNet uprights.now }
    ensures { (p : ℕ) (bar : Bar) → p < result → At uprights.now p bar → net ≡ bar.net → bar.low <ℤ x }
{
    let mut low = 0;
    let mut high = uprights.len();
    while low < high {
        let middle = low + (high - low) / 2;
        if is_before(uprights[middle], net, x) {
            low = middle + 1;
        } else {
            high = middle;
        }
    }
    low
}

fn is_before(bar: Bar, net: u32, x: i64) -> bool
    ensures { IsTrue result → IsBefore bar net x }
{
    bar.net < net || bar.net == net && bar.low < x
}

// Whether a bar is of a later net, or of this one and begins at `x` or right of it.
fn is_behind(bar: Bar, net: u32, x: i64) -> bool
    ensures { IsTrue result → IsBehind bar net x }
{
    net < bar.net || net == bar.net && x <= bar.low
}

// The next place from `from` on of an upright bar that lies, unless it is of a later net, or of this net and does not
// begin left of `x`.
fn next_in(lying: &Lying, uprights: &[Bar], net: u32, x: i64, from: usize) -> Option<usize>
    requires { AreByNet uprights.now }
    ensures { MatchOption result ((p : ℕ) (bar : Bar) → from ≤ p → At uprights.now p bar → Lies lying.now p
        → net ≡ bar.net → bar.low <ℤ x → ⊥)
        (λ place. IsNextIn uprights.now lying.now from place) }
{
    let place = next_from(lying, from)?;
    let upright = *uprights.get(place)?;
    if is_behind(upright, net, x) {
        return None;
    }
    Some(place)
}
