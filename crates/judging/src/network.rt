//! The text of a netlist, up to the network of its groups.
ghost use Rattle.std.specs.Prelude.{◌≡◌, ℕ, List, Ok, IfOk, IfErr, length};
ghost use Rattle.spice_grid.specs.declared.named.Named.{Named as Netlist};
ghost use Rattle.spice_grid.specs.Caps.{EndAmong, HaveCapacitance};
ghost use Rattle.spice_grid.specs.Netlist.{ReadsNetlist, NamedKeeps};
ghost use Rattle.judging.specs.Stage.{GivesNetwork, HasNoNetwork};

use crate::refused::{merge_refused, netlist_refused};
use answers::Answer;
use short_merge::{Merged, merge, merged_names};
use spice_grid::{Named, read_netlist};
use std::alloc::Global;

/// Reads the text of a netlist, whose file has this name, and merges its shorts.
///
/// Error: the answer to a text that is refused, to two pads of a group that differ, or to want of memory.
pub fn read_network(alloc: Global, netlist: &str, netlist_text: &[u8]) -> Result<Merged, Answer>
    ensures network { IfOk result (λ merged. (named : Netlist) × GivesNetwork netlist_text.now named merged) }
    ensures names { IfOk result (λ merged. length merged.names ≡ merged.net.nodes) }
    ensures ends { IfOk result (λ merged. EndAmong merged.net.nodes merged.caps) }
    ensures capacitances { IfOk result (λ merged. HaveCapacitance merged.caps) }
    ensures refused { IfErr result (λ answer. HasNoNetwork netlist.now netlist_text.now answer) }
{
    match read_netlist(alloc, netlist_text) {
        Ok(named) => merge_named(alloc, named),
        Err(error) => Err(netlist_refused(alloc, netlist, error)),
    }
}

/// Merges the shorts of a netlist.
fn merge_named(alloc: Global, named: Named) -> Result<Merged, Answer>
    requires { NamedKeeps named }
    ensures network { IfOk result (λ merged. (text : List ℕ) → ReadsNetlist text (Ok named)
        → GivesNetwork text named merged) }
    ensures names { IfOk result (λ merged. length merged.names ≡ merged.net.nodes) }
    ensures ends { IfOk result (λ merged. EndAmong merged.net.nodes merged.caps) }
    ensures capacitances { IfOk result (λ merged. HaveCapacitance merged.caps) }
    ensures refused { IfErr result (λ answer. (netlist text : List ℕ) → ReadsNetlist text (Ok named)
        → HasNoNetwork netlist text answer) }
{
    merged_names();
    match merge(alloc, named) {
        Ok(merged) => {
            let _nodes = merged.net.nodes();
            Ok(merged)
        }
        Err(error) => Err(merge_refused(error)),
    }
}
