//! Laws of the definitions, each on a function that does nothing.
ghost use Rattle.std.specs.Prelude.{◌≡◌, ℕ, ◌*◌, ◌<◌, pos, List, Some, map};
ghost use Rattle.lef_tech.specs.declared.layer.RoutingLayer.{RoutingLayer};
ghost use Rattle.lef_tech.specs.declared.tech.Tech.{Tech};
ghost use Rattle.grid_pieces.specs.declared.piece.Piece.{Piece};
ghost use Rattle.via_arrays.specs.Resistances.{IsResistance};
ghost use Rattle.grid_net.specs.declared.error.NetError.{NetError};
ghost use Rattle.grid_net.specs.declared.error.NetError.TheVariants.{BadEnd};
ghost use Rattle.grid_network.specs.declared.error.ExtractError.TheVariants.{Net as OfNet};
ghost use Rattle.grid_network.specs.declared.extracted.Extracted.{Extracted};
ghost use Rattle.grid_network.specs.declared.key.Key.{Key};
ghost use Rattle.grid_network.specs.Listing.{EachOnce};
ghost use Rattle.grid_network.specs.Drawing.{Drawing};
ghost use Rattle.grid_network.specs.Asked.{IsDrawing, sheet_of};
ghost use Rattle.grid_network.specs.Nodes.{AreNodes, name_of};
ghost use Rattle.grid_network.specs.Segments.{wire_ohms};
ghost use Rattle.grid_network.specs.Network.{IsNetworkOf, IsRefused};

use grid_net::no_net_refusal;

/// Nodes that differ have names that differ.
pub fn names_differ()
    ensures { (d : Drawing) (layers : ℕ) (keys : List Key) → AreNodes d layers keys
        → EachOnce (map (name_of layers) keys) }
{}

/// Each end of a resistor, each pad and each load of a drawing stands at a node: no network is refused for an end that
/// is none.
pub fn ends_are_nodes()
    ensures { (d : Drawing) (tech : Tech) (at : ℕ) → IsDrawing d tech → ¬ IsRefused d tech (OfNet (BadEnd at)) }
{}

/// The resistance of a wire is by the same rule as that of an array of cuts: the resistance of a square times the
/// wire's length, over its width, rounded to nearest, halves up, and at least 1 nano-ohm.
pub fn one_rule_of_resistance()
    ensures { (layers : List RoutingLayer) (piece : Piece) (square long width : ℕ)
        → sheet_of layers piece.layer ≡ Some square → piece.width ≡ pos width → 0 < width
        → (ohms : ℕ) × IsResistance (square * long) width ohms × (wire_ohms layers piece (pos long) ≡ pos ohms) }
{}

/// A drawing has one network, and then no network of it is refused.
pub fn one_network_or_refusal()
    ensures one { (d : Drawing) (tech : Tech) (a b : Extracted) → IsNetworkOf d tech a → IsNetworkOf d tech b → a ≡ b }
    ensures or_refused { (d : Drawing) (tech : Tech) (a : Extracted) (error : NetError) → IsNetworkOf d tech a
        → ¬ IsRefused d tech (OfNet error) }
{
    no_net_refusal();
}
