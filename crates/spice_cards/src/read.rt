ghost use Rattle.std.specs.Prelude.{◌≡◌, ◌≤ℤ◌, All, IfOk};
ghost use Rattle.spice_cards.specs.Format.{kinds, told_at, ReadsCards};
ghost use Rattle.spice_cards.specs.Record.{AreNumbered};
ghost use Rattle.spice_cards.specs.Number.{IsCapacitance};
ghost use Rattle.spice_cards.specs.inside.Told.{told_error};
ghost use Rattle.reading.specs.Error.{kind_of as kind_in};

use crate::error::{CardsError, CardsKind};
use crate::format::CardsFormat;
use crate::held::Held;
use crate::record::Cards;
use netlist_words::NetlistWords;
use outside::Place;
use reading::{Cause, ErrorKind, ReadError, Refusal, read_words};
use std::alloc::Global;

/// The kind of a cause.
fn kind_of(cause: Cause<CardsKind>) -> CardsKind
    ensures { result ≡ kind_in kinds cause }
{
    match cause {
        Cause::Syntax => CardsKind::Syntax,
        Cause::Lex(kind) => CardsKind::word(kind),
        Cause::Fault(kind) => kind,
    }
}

/// Where a cause at this word is told: a negative number of the first line at the line's end, behind its four words.
fn told_at(cause: Cause<CardsKind>, place: Place) -> Place
    ensures { result ≡ told_at cause place }
{
    match cause {
        Cause::Fault(CardsKind::Syntax) if place.line == 1 => Place { line: 1, word: 5 },
        _ => place,
    }
}

/// The error of a refusal.
fn error_of(refusal: Refusal<CardsKind>) -> CardsError
    ensures { result ≡ told_error refusal }
{
    match refusal {
        Refusal::Want => ReadError::want(),
        Refusal::At(place, cause) => ReadError {
            place: told_at(cause, place),
            kind: kind_of(cause),
        },
    }
}

/// The most bytes of a text that is read, so that its words, at most two more than its bytes, are at most 2^63. A slice may have one byte more, for
/// which there is no memory.
const MOST_BYTES: usize = 9_223_372_036_854_775_806;

/// Reads the cards of a netlist: `R`, `V`, `I` and `C` cards in either case, with comments, a title, lines that go on with a card, dot lines that are
/// passed over, ranges of loads in `*range` lines, and `.end`, which ends the text.
///
/// All numbers may have a scale: ohms have 9 places and the limit 10^30 nΩ, volts 24 and 10^30 yV, amperes 15 and 10^18 fA, and
/// farads 24 and 10^30, and are not below 0.
///
/// Errors: the refusal at the earliest word, and there of the first kind, as `CardsKind` lists them; `Want` for want of memory.
pub fn read_cards<'a>(alloc: Global, text: &'a [u8]) -> Result<Cards<'a>, CardsError>
    ensures reads { ReadsCards text.now result }
    ensures numbers { IfOk result AreNumbered }
    ensures ranges { IfOk result (λ cards. All (λ load. load.low ≤ℤ load.high) cards.loads.items) }
    ensures farads { IfOk result (λ cards. All (λ cap. IsCapacitance cap.farads) cards.caps.items) }
{
    if text.len() > MOST_BYTES {
        return Err(ReadError::want());
    }
    let Ok(mut held) = Held::new(alloc) else {
        return Err(ReadError::want());
    };
    let mut words = NetlistWords::new(text);
    match read_words(alloc, &CardsFormat, &mut held, &mut words) {
        Ok(()) => Ok(held.into_cards()),
        Err(refusal) => Err(error_of(refusal)),
    }
}
