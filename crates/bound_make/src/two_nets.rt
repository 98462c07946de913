//! The high list of one network and the low list of another one.
ghost use Rattle.std.specs.Prelude.{◌≡◌, ◌<◌, ◌≤◌, ℕ, length, IfOk, IsOk};
ghost use Rattle.outside.specs.Counts.{Rose};
ghost use Rattle.grid_net.specs.Network.{entry_of};
ghost use Rattle.grid_net.specs.Level.{IsSupplied};
ghost use Rattle.bound_make.specs.Scale.{IsGreatestLevel};
ghost use Rattle.bound_make.specs.Halves.{IsTightHigh, IsTightLow};

use crate::certifier::{greatest_level, list_span};
use crate::half::Half;
use crate::make::make;
use crate::scale::scale_of;
use crate::work_list::WorkList;
use grid_net::{Net, Solver};
use level_region::Region;
use std::alloc::{AllocError, Global};

/// The first entry of a list that is not asked for. A solver may leave such a list as it is.
const NOT_ASKED: i128 = i128::MIN;

// Tells a solver that a list is not asked for.
fn ask_not(list: &mut [i128])
    ensures { length list.new ≡ length list.old }
{
    if let Some(first) = list.get_mut(0) {
        *first = NOT_ASKED;
    }
}

// Fills the high list of the first network and the low list of the second one, of what a solver proposes for each. A third
// list takes what it proposes besides.
//
// The cells of the work list come first in the region, before those that the solver works in, so that what it leaves there
// stays until it is asked again.
fn fill_halves<V: Solver>(
    of_high: &Net,
    of_low: &Net,
    levels: (u32, u32),
    work: &mut Region,
    high: &mut [i128],
    low: &mut [i128],
    besides: &mut [i128],
    solver: &mut V,
)
    requires high { length high.old ≡ of_high.now.nodes }
    requires low { length low.old ≡ of_high.now.nodes }
    requires besides { length besides.old ≡ of_high.now.nodes }
    requires nodes { of_low.now.nodes ≡ of_high.now.nodes }
    requires high_level { IsGreatestLevel of_high.now levels.0 }
    requires low_level { IsGreatestLevel of_low.now levels.1 }
    ensures high { IsTightHigh of_high.now (entry_of high.new) }
    ensures high_size { length high.new ≡ of_high.now.nodes }
    ensures low { IsTightLow of_low.now (entry_of low.new) }
    ensures low_size { length low.new ≡ of_high.now.nodes }
    ensures asked { Rose (V.proposals solver.old) (V.proposals solver.new) }
    ensures counted { V.proposals solver.old ≤ V.proposals solver.new }
    ensures told { V.told solver.new ≡ V.told solver.old }
    ensures cells { length work.new.cells ≡ length work.old.cells }
{
    let nodes = of_high.nodes() as usize;
    let _as_many = of_low.nodes();
    ask_not(besides);
    list_span(work, nodes);
    solver.propose(of_high, work, high, besides);
    ask_not(besides);
    list_span(work, nodes);
    solver.propose(of_low, work, besides, low);
    let span = list_span(work, nodes);
    let mut list = WorkList::new(work.get_mut(span));
    let high_scale = scale_of(of_high, levels.0);
    make(of_high, Half::High, high_scale, high, &mut list);
    let low_scale = scale_of(of_low, levels.1);
    make(of_low, Half::Low, low_scale, low, &mut list);
}

/// The high list of a tight certificate of one network and the low list of one of another network with as many nodes, out
/// of what a solver proposes for each. Errors: want of memory.
///
/// All nodes of both are supplied. Whatever is proposed, there is no refusal. Where the two networks are one, the two lists
/// are a tight certificate of it. The region is lent to be worked in, of any size; one of `region_for` of as many nodes and
/// resistors is large enough. A solver may find there what it left the last time.
pub fn certify_halves<V: Solver>(
    alloc: Global,
    of_high: &Net,
    of_low: &Net,
    work: &mut Region,
    solver: &mut V,
) -> Result<(Vec<i128>, Vec<i128>), AllocError>
    requires high_supplied { (i : ℕ) → i < of_high.now.nodes → IsSupplied of_high.now i }
    requires low_supplied { (i : ℕ) → i < of_low.now.nodes → IsSupplied of_low.now i }
    requires nodes { of_low.now.nodes ≡ of_high.now.nodes }
    ensures high { IfOk result (λ lists. IsTightHigh of_high.now (entry_of lists.0.items)) }
    ensures high_size { IfOk result (λ lists. length lists.0.items ≡ of_high.now.nodes) }
    ensures low { IfOk result (λ lists. IsTightLow of_low.now (entry_of lists.1.items)) }
    ensures low_size { IfOk result (λ lists. length lists.1.items ≡ of_high.now.nodes) }
    ensures asked { IsOk result → Rose (V.proposals solver.old) (V.proposals solver.new) }
    ensures counted { V.proposals solver.old ≤ V.proposals solver.new }
    ensures told { V.told solver.new ≡ V.told solver.old }
    ensures cells { length work.new.cells ≡ length work.old.cells }
{
    let high_level = greatest_level(of_high);
    let low_level = greatest_level(of_low);
    let nodes = of_high.nodes() as usize;
    let mut high = vec![in alloc; 0; nodes]?;
    let mut low = vec![in alloc; 0; nodes]?;
    let mut besides = vec![in alloc; 0; nodes]?;
    fill_halves(
        of_high,
        of_low,
        (high_level, low_level),
        work,
        &mut high,
        &mut low,
        &mut besides,
        solver,
    );
    Ok((high, low))
}
