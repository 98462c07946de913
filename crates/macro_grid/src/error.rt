ghost use Rattle.std.specs.Prelude.{◌≡◌};
ghost use Rattle.grid_pieces.specs.declared.error.DrawError.TheVariants.{Want};
ghost use Rattle.macro_grid.specs.declared.error.MacroError.TheVariants.{Draw};

use grid_pieces::DrawError;
use std::alloc::{AllocError, AllocFailed};

/// Why a script draws no grid over blocks.
#[derive(Debug, Drop)]
pub enum MacroError {
    /// The halo of this grid, by its place from 0 in the script, is not one, two or four lengths, or one of them is no whole number
    /// of units.
    Halo(u32),
    /// What a drawing is refused for; want of memory among it.
    Draw(DrawError),
}

impl From<DrawError> for MacroError {
    ghost from_gives = { λ error e. e ≡ Draw error };

    fn from(error: DrawError) -> MacroError {
        MacroError::Draw(error)
    }
}

impl From<AllocError> for MacroError {
    ghost from_gives = { λ _ e. e ≡ Draw Want };

    fn from(_error: AllocError) -> MacroError {
        MacroError::Draw(DrawError::Want)
    }
}

impl<T: Drop> From<AllocFailed<T>> for MacroError {
    ghost from_gives = { λ _ e. e ≡ Draw Want };

    fn from(_error: AllocFailed<T>) -> MacroError {
        MacroError::Draw(DrawError::Want)
    }
}
