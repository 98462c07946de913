//! Laws of the definitions, for the crates above. Each is a function without a body.
ghost use Rattle.std.specs.Prelude.{◌≡◌, ◌<◌, ◌≤ℤ◌, ◌↔◌, ℕ, ℤ, List, [], All, None};
ghost use Rattle.grid_net.specs.declared.part.Resistor.{Resistor};
ghost use Rattle.grid_net.specs.declared.part.Pad.{Pad};
ghost use Rattle.grid_net.specs.declared.part.Load.{Load};
ghost use Rattle.grid_net.specs.Network.{Network, first_pad, pad_at};
ghost use Rattle.grid_net.specs.Limits.{IsBuilt};
ghost use Rattle.grid_net.specs.Solution.{IsSolution};
ghost use Rattle.grid_net.specs.Shorted.{IsShortedSolution};
ghost use Rattle.grid_net.specs.Adding.{LoadsAddUp};
ghost use Rattle.grid_net.specs.Building.{network_of, KeepsLimits, PadsAgree, first_net_refusal};

/// The laws of `Net::build`'s network: it keeps the pads and the sums of the loads, and holds what a built network
/// does.
pub fn built_network()
    ensures kept_pads { (nodes : ℕ) (resistors : List Resistor) (pads : List Pad) (loads : List Load) (i : ℕ)
        → i < nodes → pad_at (network_of nodes resistors pads loads) i ≡ first_pad pads i }
    ensures loads_add_up { (nodes : ℕ) (resistors : List Resistor) (pads : List Pad) (loads : List Load)
        → LoadsAddUp (network_of nodes resistors pads loads) loads }
    ensures is_built { (nodes : ℕ) (resistors : List Resistor) (pads : List Pad) (loads : List Load)
        → KeepsLimits nodes resistors pads loads → All (λ l. l.low ≤ℤ l.high) loads
        → IsBuilt (network_of nodes resistors pads loads) }
{}

/// Nothing refuses the lists exactly where every limit is kept and the pads of each node agree.
pub fn no_net_refusal()
    ensures limits { (nodes : ℕ) (resistors : List Resistor) (pads : List Pad) (loads : List Load)
        → first_net_refusal nodes resistors pads loads ≡ None → KeepsLimits nodes resistors pads loads }
    ensures pads { (nodes : ℕ) (resistors : List Resistor) (pads : List Pad) (loads : List Load)
        → first_net_refusal nodes resistors pads loads ≡ None → PadsAgree pads }
    ensures none { (nodes : ℕ) (resistors : List Resistor) (pads : List Pad) (loads : List Load)
        → KeepsLimits nodes resistors pads loads → PadsAgree pads
        → first_net_refusal nodes resistors pads loads ≡ None }
{}

/// Without shorts the solutions of a network with shorts are those of the network, whatever stands for the currents of
/// the shorts.
pub fn no_short_changes_nothing()
    ensures { (net : Network) (q : ℕ) (p c l s : ℕ → ℤ)
        → IsShortedSolution net [] q p c l s ↔ IsSolution net q p c l }
{}
