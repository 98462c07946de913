//! Places of names as numbers of 32 bits.
//!
//! A number that does not fit is answered as want of memory. So is a name that stands nowhere: when places are asked for, the
//! first such name was refused before.
ghost use Rattle.std.specs.Prelude.{◌≡◌, ◌<◌, IfOk, length};
ghost use Rattle.wire_names.specs.Names.{place_in};

use name_places::NamePlaces;
use outside::Name;
use std::alloc::AllocError;

// The place of a name.
pub(crate) fn place<'a>(names: &NamePlaces<'a>, name: &'a Name) -> Result<u32, AllocError>
    ensures is { IfOk result (λ place. place ≡ place_in names.now name.now) }
    ensures within { IfOk result (λ place. place < length names.now) }
{
    match names.place(name.bytes()) {
        Some(place) => number(place),
        None => Err(AllocError),
    }
}

fn number(place: usize) -> Result<u32, AllocError>
    ensures { IfOk result (λ number. number ≡ place) }
{
    match u32::try_from(place) {
        Ok(number) => Ok(number),
        Err(_) => Err(AllocError),
    }
}
