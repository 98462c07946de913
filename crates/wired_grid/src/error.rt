ghost use Rattle.std.specs.Prelude.{◌≡◌};
ghost use Rattle.wired_grid.specs.declared.error.WiredError.TheVariants.{Want};
ghost use Rattle.wired_grid.specs.Errors.{of_name, of_limit, of_end};

use grid_pieces::Touching;
use outside::Name;
use std::alloc::{AllocError, AllocFailed};
use wire_limits::{LimitError, WireCount};
use wire_names::NameError;
use wire_stacks::OffError;

/// Why wiring gives no grid. A via and a net are places from 0 in the lists of vias and of nets of the wiring, a layer is a
/// place in the list of routing layers; a width and a place in x and y are in units.
#[derive(Debug, Drop)]
pub enum WiredError {
    /// A layer or a rule of this name is not known, or the layer is of the other type.
    UnknownName(Name),
    /// The nets with wiring are not one power net and one ground net, but so many of each.
    NetCount(u64, u64),
    /// This via stands somewhere, and its layers are not those of its rule, bottom up, or its upper routing layer is not
    /// the one directly after its lower one.
    ViaLayers(u32),
    /// This via stands somewhere, and its columns times the pitch in x, or its rows times the pitch in y, pass 2^32.
    ViaSize(u32),
    /// A segment of this net has this width, which is odd or 0.
    OddWidth(u32, i64),
    /// A segment lies on this layer, which has no resistance of a square.
    NoSheet(u32),
    /// A via that stands somewhere begins on this layer, and neither its rule nor its cut layer has a resistance of a cut.
    NoResistance(u32),
    /// More segments or vias stand than the limit.
    TooMany(WireCount),
    /// This via is an end of a stack at this place in x and y, and the place lies on no centre line of a piece of the net
    /// on that layer.
    ViaOff(u32, i64, i64),
    /// Metal touches.
    Touch(Touching),
    /// There was not enough memory.
    Want,
}

impl From<AllocError> for WiredError {
    ghost from_gives = { λ _ e. e ≡ Want };

    fn from(_error: AllocError) -> WiredError {
        WiredError::Want
    }
}

impl<T: Drop> From<AllocFailed<T>> for WiredError {
    ghost from_gives = { λ _ e. e ≡ Want };

    fn from(_error: AllocFailed<T>) -> WiredError {
        WiredError::Want
    }
}

impl From<NameError> for WiredError {
    ghost from_gives = { λ error e. e ≡ of_name error };

    fn from(error: NameError) -> WiredError {
        match error {
            NameError::UnknownName(name) => WiredError::UnknownName(name),
            NameError::NetCount(power, ground) => WiredError::NetCount(power, ground),
            NameError::Want => WiredError::Want,
        }
    }
}

impl From<LimitError> for WiredError {
    ghost from_gives = { λ error e. e ≡ of_limit error };

    fn from(error: LimitError) -> WiredError {
        match error {
            LimitError::ViaLayers(via) => WiredError::ViaLayers(via),
            LimitError::ViaSize(via) => WiredError::ViaSize(via),
            LimitError::OddWidth(net, width) => WiredError::OddWidth(net, width),
            LimitError::NoSheet(layer) => WiredError::NoSheet(layer),
            LimitError::NoResistance(layer) => WiredError::NoResistance(layer),
            LimitError::TooMany(what) => WiredError::TooMany(what),
            LimitError::Want => WiredError::Want,
        }
    }
}

impl From<OffError> for WiredError {
    ghost from_gives = { λ error e. e ≡ of_end error };

    fn from(error: OffError) -> WiredError {
        match error {
            OffError::ViaOff(via, x, y) => WiredError::ViaOff(via, x, y),
            OffError::Want => WiredError::Want,
        }
    }
}
