//! The places of names in a list: a name stands for the first place at which it stands.
#![tactic(auto)]

ghost use Rattle.std.specs.Prelude.{◌≡◌, ℕ, List, Some, None, cond, map, IfOk, OnOk};
ghost use Rattle.std.specs.Option.{option_or};
ghost use Rattle.std.specs.Str.{bytes_eq};
ghost use Rattle.name_places.specs.inside.Table.{place_in};
ghost use Rattle.name_places.specs.Places.{place_of};

use std::alloc::{AllocError, Global};
use std::collections::BTreeMap;
use std::marker::Model;

/// Names, and a table that tells of a name the first place, from 0, at which it stands among them.
///
/// A contract sees the names, in their order.
#[derive(Drop)]
pub struct NamePlaces<'a> {
    names: Vec<&'a [u8]>,
    places: BTreeMap<&'a [u8], usize>,
}

impl<'a> Model for NamePlaces<'a> {
    ghost use Rattle.std.specs.Prelude.{◌≡◌, ℕ, List, map};
    ghost use Rattle.name_places.specs.Places.{place_of};
    ghost use Rattle.name_places.specs.inside.Table.{place_in};

    ghost Value = { List (List ℕ) };

    ghost view = { λ table. map (λ name. name.now) table.names.items };

    ghost invariant = { λ table. (name : List ℕ) → place_in table.places name
        ≡ place_of (map (λ name. name.now) table.names.items) name };
}

impl<'a> NamePlaces<'a> {
    /// The table of these names.
    pub fn new(alloc: Global, names: Vec<&'a [u8]>) -> Result<NamePlaces<'a>, AllocError>
        ensures { IfOk result (λ table. table ≡ map (λ name. name.now) names.entry.items) }
    {
        let mut places = BTreeMap::new(alloc);
        for (place, name) in names.iter().enumerate() {
            add(&mut places, name, place)?;
        }
        Ok(NamePlaces { names, places })
    }

    /// The names, in their order.
    pub fn names(&self) -> &[&'a [u8]]
        ensures { map (λ name. name.now) result.now ≡ self.now }
    {
        &self.names
    }

    /// The first place at which the name stands. None where it stands nowhere.
    pub fn place(&self, name: &'a [u8]) -> Option<usize>
        ensures { result ≡ place_of self.now name.now }
    {
        self.places.get(name).copied()
    }
}

// The name has this place, if it has none.
fn add<'a>(
    places: &mut BTreeMap<&'a [u8], usize>,
    name: &'a [u8],
    place: usize,
) -> Result<(), AllocError>
    ensures { OnOk result ((other : List ℕ) → place_in places.new other
        ≡ option_or (place_in places.old other) (cond (bytes_eq name.now other) (Some place) None)) }
{
    if places.contains_key(name) {
        return Ok(());
    }
    places.insert(name, place)?;
    Ok(())
}
