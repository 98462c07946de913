//! The laws, each on a function whose body only recalls laws of the crates below.
ghost use Rattle.std.specs.Prelude.{◌≡◌, ℕ, List, [], length, Ok, Err};
ghost use Rattle.grid_net.specs.Limits.{IsBuilt};
ghost use Rattle.grid_net.specs.Network.{Network};
ghost use Rattle.grid_net.specs.declared.note.Note.{Note};
ghost use Rattle.group_net.specs.Merging.{PadsOfGroupsAgree};
ghost use Rattle.short_merge.specs.Merged.{IsMerged};
ghost use Rattle.short_merge.specs.declared.merged.Merged.{Merged as Groups};
ghost use Rattle.spice_grid.specs.Netlist.{ReadsNetlist};
ghost use Rattle.spice_grid.specs.Written.{written_netlist};
ghost use Rattle.spice_grid.specs.declared.error.SpiceError.{SpiceError as Error};
ghost use Rattle.spice_grid.specs.declared.error.SpiceKind.TheVariants.{Want};
ghost use Rattle.spice_grid.specs.declared.named.Named.{Named as Record};
ghost use Rattle.written_netlists.specs.Fits.{CanBeWritten, read_back};
ghost use Rattle.written_netlists.specs.Alone.{unmerged};

use fixed_decimal::{decimals_are_spice_numbers, numbers_are_words, printed_values_read_back};
use grid_net::no_net_refusal;
use group_net::nothing_shorted;
use number_place::texts_have_one_number;
use spice_cards::whole_cards_are_read;
use spice_grid::texts_have_one_netlist;

/// A written netlist reads back: where a network, the names of its nodes and the notes of its layers can be written,
/// reading what is written of them gives the same network with the same names, no short and no capacitor; and nothing else,
/// want of memory aside.
pub fn written_netlists_read_back()
    ensures reads { (net : Network) (names : List (List ℕ)) (notes : List Note) → CanBeWritten net names notes →
        ReadsNetlist (written_netlist net names notes) (Ok (read_back net names)) }
    ensures alone { (net : Network) (names : List (List ℕ)) (notes : List Note) (named : Record) →
        CanBeWritten net names notes → ReadsNetlist (written_netlist net names notes) (Ok named) →
        named ≡ read_back net names }
    ensures never_refused { (net : Network) (names : List (List ℕ)) (notes : List Note) (error : Error) →
        CanBeWritten net names notes → ReadsNetlist (written_netlist net names notes) (Err error) → error.kind ≡ Want }
{
    decimals_are_spice_numbers();
    numbers_are_words();
    printed_values_read_back();
    no_net_refusal();
    nothing_shorted();
    texts_have_one_number();
    texts_have_one_netlist();
    whole_cards_are_read();
}

/// A netlist without shorts and capacitors is its own network of groups: there is nothing to merge, and no two pads of a group differ.
pub fn nothing_to_merge()
    ensures merged { (net : Network) (names : List (List ℕ)) → IsBuilt net → length names ≡ net.nodes →
        IsMerged (read_back net names) (unmerged net names) }
    ensures alone { (net : Network) (names : List (List ℕ)) (merged : Groups) → IsBuilt net → length names ≡ net.nodes →
        IsMerged (read_back net names) merged → merged ≡ unmerged net names }
    ensures agree { (net : Network) → IsBuilt net → PadsOfGroupsAgree net [] }
{
    nothing_shorted();
}
