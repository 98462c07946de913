//! Laws of the definition, on functions that do nothing.
ghost use Rattle.std.specs.Prelude.{◌≡◌, ◌≢◌, ℕ, true, List, [], All, Ok, Err};
ghost use Rattle.text_lex.specs.Piece.{IsBare};
ghost use Rattle.text_lex.specs.declared.word.Mode.TheVariants.{Lines};
ghost use Rattle.spice_grid.specs.declared.error.SpiceError.{SpiceError as Error};
ghost use Rattle.spice_grid.specs.declared.error.SpiceKind.TheVariants.{Want};
ghost use Rattle.spice_grid.specs.declared.named.Named.{Named as Record};
ghost use Rattle.spice_grid.specs.Netlist.{ReadsNetlist, IsAtWord};

use name_table::one_order;
use number_place::texts_have_one_number;
use spice_cards::{netlists_have_one_reading, node_names_are_words};

/// A text has one record or one refusal, and not both; want of memory aside. Where the network of the whole text is
/// refused, nothing is said of a place.
pub fn texts_have_one_netlist()
    ensures record { (text : List ℕ) (a b : Record) → ReadsNetlist text (Ok a) → ReadsNetlist text (Ok b) → a ≡ b }
    ensures kind { (text : List ℕ) (a b : Error) → ReadsNetlist text (Err a) → ReadsNetlist text (Err b) →
        a.kind ≢ Want → b.kind ≢ Want → a.kind ≡ b.kind }
    ensures place { (text : List ℕ) (a b : Error) → ReadsNetlist text (Err a) → ReadsNetlist text (Err b) →
        IsAtWord a.kind → b.kind ≢ Want → a.place ≡ b.place }
    ensures not_both { (text : List ℕ) (named : Record) (error : Error) → ReadsNetlist text (Ok named) →
        ReadsNetlist text (Err error) → error.kind ≡ Want }
{
    netlists_have_one_reading();
    texts_have_one_number();
    one_order();
}

/// Each name of a node of a netlist is one word of a line: neither white space nor the end of a line stands in it.
pub fn names_are_words()
    ensures { (text : List ℕ) (named : Record) → ReadsNetlist text (Ok named) →
        All (λ name. IsBare Lines true name []) named.names }
{
    node_names_are_words();
}
