//! The groups by their names.
ghost use Rattle.std.specs.Prelude.{◌≡◌, ◌≤◌, ◌^◌, length};
ghost use Rattle.name_places.specs.Places.{place_of};

use name_places::NamePlaces;

/// As many groups as a change can name: its node has 32 bits.
pub(crate) const MOST_GROUPS: usize = 4_294_967_296;

/// The names of the groups, of which there are no more than a change can name.
#[derive(Drop)]
pub(crate) struct Groups<'a> {
    names: NamePlaces<'a>,
    ghost few: { length names ≤ 2 ^ 32 },
}

impl<'a> Groups<'a> {
    /// The groups with these names.
    pub(crate) fn new(names: NamePlaces<'a>) -> Groups<'a>
        requires { length names ≤ 2 ^ 32 }
        ensures { result.names ≡ names.entry }
    {
        Groups { names }
    }

    /// The number of the group that has the name. None where no group has it.
    pub(crate) fn place(&self, name: &'a [u8]) -> Option<u32>
        ensures { result ≡ place_of self.now.names name.now }
    {
        match self.names.place(name) {
            Some(place) => Some(place as u32),
            None => None,
        }
    }
}
