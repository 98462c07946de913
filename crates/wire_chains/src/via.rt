ghost use Rattle.std.specs.Prelude.{◌≡◌, ◌↔◌, ◌+◌, AllPairs, IsTrue, false};
ghost use Rattle.std.specs.List.Sorted.{IsPermutation};
ghost use Rattle.std.specs.Ordering.{is_gt};
ghost use Rattle.wire_chains.specs.declared.via.ViaAt.{ViaAt};
ghost use Rattle.wire_chains.specs.Chain.{IsJoined, LiesOn, via_order};

/// A via of a net at a place, in units of a drawing. It joins the routing layer `layer` and the next one.
#[derive(Clone, Copy, Debug, PartialEq, Eq)]
pub struct ViaAt {
    /// The place of its net in the list of nets.
    pub net: u32,
    pub x: i64,
    pub y: i64,
    /// The place of its lower layer in the list of routing layers.
    pub layer: u32,
    /// Whether a piece of its net on its lower layer has the place on its centre line.
    pub held: bool,
    /// What it is: a place in the list of vias that are defined.
    pub via: u32,
    /// Its number among all that are placed.
    pub number: u32,
}

// Puts vias in order.
pub(crate) fn sort(vias: &mut [ViaAt])
    ensures same { IsPermutation vias.old vias.new }
    ensures in_order { AllPairs (λ (a b : ViaAt). is_gt (via_order a b) ≡ false) vias.new }
{
    vias.sort_unstable_by_key(|via| (via.net, via.x, via.y, via.layer, via.number));
}

// Whether the other via is of the net and at the place of this one, and has this lower layer.
pub(crate) fn lies_on(one: &ViaAt, layer: u32, other: &ViaAt) -> bool
    ensures { IsTrue result ↔ LiesOn one.now layer other.now }
{
    other.net == one.net && other.x == one.x && other.y == one.y && other.layer == layer
}

// Whether the other via goes on from this one.
pub(crate) fn is_joined(one: &ViaAt, other: &ViaAt) -> bool
    ensures { IsTrue result ↔ IsJoined one.now other.now }
{
    is_next(one.layer, other.layer) && lies_on(one, other.layer, other) && !other.held
}

fn is_next(layer: u32, other: u32) -> bool
    ensures { IsTrue result ↔ (other ≡ layer + 1) }
{
    layer < other && other - layer == 1
}
