ghost use Rattle.std.specs.Prelude.{◌≡◌};
ghost use Rattle.grid_network.specs.declared.error.ExtractError.TheVariants.{Want};

use grid_net::NetError;
use std::alloc::AllocError;

/// Why no network is extracted.
#[derive(Clone, Copy, Debug, PartialEq, Eq)]
pub enum ExtractError {
    /// A line of the bias file names no net, layer, macro or component.
    UnknownName(u64),
    /// A net with a piece has no supply line.
    NoSupply(u32),
    /// A pad's place lies on no piece of its net and layer.
    PadOff(u64),
    /// A component that draws a current has no rail of each net.
    LoadOff(u32),
    /// The lists make no network.
    Net(NetError),
    /// There was not enough memory.
    Want,
}

impl From<AllocError> for ExtractError {
    ghost from_gives = { λ _ e. e ≡ Want };

    fn from(_error: AllocError) -> ExtractError {
        ExtractError::Want
    }
}
