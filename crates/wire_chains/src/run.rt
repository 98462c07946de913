ghost use Rattle.std.specs.Prelude.{◌≡◌, ◌<◌, ◌≤◌, ◌++◌, ◌∷◌, [], AllPairs, IfOk, OnOk, length, map};
ghost use Rattle.std.specs.List.Sorted.{IsPermutation};
ghost use Rattle.wire_chains.specs.declared.via.ViaAt.{ViaAt};
ghost use Rattle.wire_chains.specs.Chain.{AreChains, AreHeldAlike, AreNumbered};
ghost use Rattle.wire_chains.specs.inside.Run.{IsSorted, IsStart, AddsRun, gone_on};

use crate::chain::Chain;
use crate::level::{goes_on, level_end};
use crate::via::{ViaAt, sort};
use std::alloc::{AllocError, Global};

/// Where two vias of one net and layer stand at one place, the vias above and below them stand in more than one chain, and
/// the number of chains at a place is a product over its layers. Where the lengths of all chains would add up to so many
/// more than there are vias, the answer is want of memory.
pub const MOST_LINKS: usize = 1_000_000;

/// The maximal chains of the vias, each once, in the order of net, x, y, lowest layer and then the vias' numbers, bottom
/// up. Where a via stands twice at one place there are two chains, each with one of the two.
pub fn chains(alloc: Global, vias: Vec<ViaAt>) -> Result<Vec<Chain>, AllocError>
    requires numbered { AreNumbered vias.items }
    requires held { AreHeldAlike vias.items }
    ensures { IfOk result (λ chains. AreChains vias.items chains.items) }
{
    let all = in_order(vias);
    let mut left = all.len().saturating_add(MOST_LINKS);
    let mut chains = Vec::new(alloc);
    let mut from = 0;
    while from < all.len() {
        from = add_run(alloc, &all, from, &mut left, &mut chains)?;
    }
    Ok(chains)
}

fn in_order(vias: Vec<ViaAt>) -> Vec<ViaAt>
    requires { AreNumbered vias.items }
    ensures same { IsPermutation vias.items result.items }
    ensures sorted { IsSorted result.items }
{
    let mut all = vias;
    sort(&mut all);
    all
}

// Adds the chains that begin with the vias at `from` and on its layer, of which nothing goes on from a lower one. The
// answer is the place after all vias that stand in them.
fn add_run(
    alloc: Global,
    all: &[ViaAt],
    from: usize,
    left: &mut usize,
    chains: &mut Vec<Chain>,
) -> Result<usize, AllocError>
    requires sorted { IsSorted all.now }
    requires held { AreHeldAlike all.now }
    requires from { from < length all.now }
    requires start { IsStart all.now from }
    ensures behind { IfOk result (λ to. from < to) }
    ensures within { IfOk result (λ to. to ≤ length all.now) }
    ensures start { IfOk result (λ to. IsStart all.now to) }
    ensures added { IfOk result (λ to. AddsRun all.now from to chains.old.items chains.new.items) }
{
    let mut to = level_end(all, from);
    let mut paths = begun(alloc, &all[from..to])?;
    let mut height: usize = 1;
    'levels: while goes_on(all, to) {
        let next = level_end(all, to);
        height = height.saturating_add(1);
        ask(paths.len(), next - to, height, *left)?;
        go_on(alloc, &mut paths, &all[to..next])?;
        to = next;
    }
    *left = left.saturating_sub(paths.len().saturating_mul(height));
    chains.append(&mut paths)?;
    Ok(to)
}

// Want of memory where more links would stand in chains than may: so many chains, each to go on in so many ways, with so
// many levels then.
fn ask(chains: usize, ways: usize, height: usize, left: usize) -> Result<(), AllocError> {
    if chains.saturating_mul(ways).saturating_mul(height) > left {
        return Err(AllocError);
    }
    Ok(())
}

// The chains of one via each.
fn begun(alloc: Global, level: &[ViaAt]) -> Result<Vec<Chain>, AllocError>
    ensures { IfOk result (λ paths. paths.items ≡ map (λ via. via ∷ []) level.now) }
{
    let mut paths = Vec::new(alloc);
    for via in level {
        paths.push(Chain::one(alloc, *via)?)?;
    }
    Ok(paths)
}

// Each of the chains goes on by each of the vias.
fn go_on(alloc: Global, paths: &mut Vec<Chain>, level: &[ViaAt]) -> Result<(), AllocError>
    ensures { OnOk result (paths.new.items ≡ gone_on level.now paths.old.items) }
{
    if level.len() == 1 {
        push_each(paths, level)?;
    } else {
        *paths = extended(alloc, paths, level)?;
    }
    Ok(())
}

// Each of the chains goes on by the one via.
fn push_each(paths: &mut [Chain], level: &[ViaAt]) -> Result<(), AllocError>
    requires { length level.now ≡ 1 }
    ensures { OnOk result (paths.new ≡ gone_on level.now paths.old) }
{
    let via = only(level);
    for chain in paths.iter_mut() {
        chain.push(via)?;
    }
    Ok(())
}

fn only(level: &[ViaAt]) -> ViaAt
    requires { length level.now ≡ 1 }
    ensures { level.now ≡ result ∷ [] }
{
    level[0]
}

fn extended(alloc: Global, paths: &[Chain], level: &[ViaAt]) -> Result<Vec<Chain>, AllocError>
    ensures { IfOk result (λ more. more.items ≡ gone_on level.now paths.now) }
{
    let mut more = Vec::new(alloc);
    for chain in paths {
        add_extended(alloc, chain, level, &mut more)?;
    }
    Ok(more)
}

// Adds the chains that go on from this one by a via.
fn add_extended(
    alloc: Global,
    chain: &Chain,
    level: &[ViaAt],
    more: &mut Vec<Chain>,
) -> Result<(), AllocError>
    ensures { OnOk result (more.new.items ≡ more.old.items ++ map (λ via. chain.now ++ via ∷ []) level.now) }
{
    for via in level {
        more.push(chain.with(alloc, *via)?)?;
    }
    Ok(())
}
