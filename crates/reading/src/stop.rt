ghost use Rattle.reading.specs.inside.Engine.{Names};

use crate::refusal::{Cause, Refusal};
use outside::Place;

/// What a word did to the open unit.
#[derive(Clone, Copy, Debug, PartialEq, Eq)]
pub enum Step {
    /// The unit goes on after it.
    Open,
    /// The unit is whole with it.
    Whole,
}

/// Why a reader stops at a word.
#[derive(Clone, Copy, Debug, PartialEq, Eq)]
pub enum Stop<K> {
    /// There was not enough memory.
    Want,
    /// With this word the words so far are no start.
    Syntax,
    /// The words show a fault of the word at this place.
    Fault(Place, K),
}

/// The refusal at the word that begins at the place.
pub(crate) fn refused<K>(place: Place, stop: Stop<K>) -> Refusal<K>
    ensures { Names place stop result }
{
    match stop {
        Stop::Want => Refusal::Want,
        Stop::Syntax => Refusal::At(place, Cause::Syntax),
        Stop::Fault(at, kind) => Refusal::At(at, Cause::Fault(kind)),
    }
}
