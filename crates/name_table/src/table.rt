//! The table of names, and the names in byte order.
ghost use Rattle.std.specs.Prelude.{◌≡◌, ℕ, ◌-◌, ◌<◌, ◌^◌, ◌↔◌, List, [], map, length, slice_get, slice_index, slice_index_or, All, Contains, EachIndex, IfOk, IsPermutation, IsSorted, IsTrue, OnErr, OnOk};
ghost use Rattle.name_table.specs.ByteOrder.{IsInByteOrder};
ghost use Rattle.name_table.specs.inside.Numbered.{numbered, numbered_cmp, IsPlaced};
ghost use Rattle.name_table.specs.Numbering.{TakesName, AreDistinct};

use crate::key::Key;
use entry_list::Entries;
use indexmap::IndexSet;
use std::alloc::{AllocError, Global};
use std::marker::Model;

/// The most names that a table holds: 2^32 - 1, so that their count fits 32 bits too.
pub const MOST_NAMES: usize = 4_294_967_295;

/// Why a name gets no number.
#[derive(Clone, Copy, Debug, PartialEq, Eq)]
pub enum NameError {
    /// The name is new, and the table holds 2^32 - 1 names already.
    Full,
    /// There is no memory for one more name.
    Want,
}

/// Distinct names in the order in which they first came. The number of a name is its place, from 0 on.
///
/// A contract sees the table as the list of its names.
#[derive(Drop)]
pub struct NameTable<'a> {
    names: IndexSet<Key<'a>>,
}

impl<'a> Model for NameTable<'a> {
    ghost use Rattle.std.specs.Prelude.{ℕ, ◌^◌, ◌<◌, List, map, length};

    ghost Value = { List (List ℕ) };

    ghost view = { λ t. map (λ k. k.name.now) t.names.keys };

    ghost invariant = { λ t. length t.names.keys < 2 ^ 32 };
}

/// Names in byte order, and where each number of the table went.
#[derive(Debug, Drop)]
pub struct OrderedNames<'a> {
    /// The names, each before all later ones.
    pub names: Entries<&'a [u8]>,
    /// For each number of the table, the place of its name in `names`.
    pub places: Entries<u32>,
}

/// A name with its number in the table.
#[derive(Clone, Copy, PartialEq, Eq, PartialOrd, Ord)]
struct NumberedName<'a> {
    name: Key<'a>,
    number: u32,
}

impl<'a> NameTable<'a> {
    /// An empty table with room for `names` names.
    pub fn with_capacity(alloc: Global, names: usize) -> Result<Self, AllocError>
        ensures { IfOk result (λ table. table ≡ []) }
    {
        let names = IndexSet::with_capacity(alloc, names)?;
        Ok(NameTable { names })
    }

    /// How many names the table holds.
    pub fn len(&self) -> usize
        ensures len { result ≡ length self.now }
        ensures most { result < 2 ^ 32 }
        ensures distinct { AreDistinct self.now }
    {
        self.names.len()
    }

    /// Whether the table holds no name.
    pub fn is_empty(&self) -> bool
        ensures { IsTrue result ↔ (self.now ≡ []) }
    {
        self.names.len() == 0
    }

    /// Whether the table holds the name.
    pub fn contains(&self, name: &'a [u8]) -> bool
        ensures { IsTrue result ↔ Contains self.now name.now }
    {
        self.names.contains(&Key { name })
    }

    /// The number of a name. A name that is new gets the next number. A name that is there always has its answer.
    pub fn number(&mut self, name: &'a [u8]) -> Result<u32, NameError>
        ensures number { IfOk result (λ number. slice_get self.new number ≡ Some name.now) }
        ensures taken { OnOk result (TakesName self.old self.new name.now) }
        ensures err { OnErr result (self.new ≡ self.old) }
        ensures full { (result ≡ Err NameError.Full) ↔
            ((length self.old ≡ 2 ^ 32 - 1) × (¬ Contains self.old name.now)) }
        ensures want { result ≡ Err NameError.Want → ¬ Contains self.old name.now }
        ensures distinct { AreDistinct self.new }
    {
        let key = Key { name };
        if self.names.len() == MOST_NAMES {
            let Some(number) = self.names.get_index_of(&key) else {
                return Err(NameError::Full);
            };
            return Ok(number as u32);
        }
        let Ok((number, _)) = self.names.insert_full(key) else {
            return Err(NameError::Want);
        };
        Ok(number as u32)
    }

    /// The names in byte order, and the new place of each number.
    pub fn ordered(&self, alloc: Global) -> Result<OrderedNames<'a>, AllocError>
        ensures order { IfOk result (λ ordered. IsInByteOrder (map (λ n. n.now) ordered.names)) }
        ensures same_names { IfOk result (λ ordered. IsPermutation self.now (map (λ n. n.now) ordered.names)) }
        ensures every_number { IfOk result (λ ordered. length ordered.places ≡ length self.now) }
        ensures places { IfOk result (λ ordered. EachIndex self.now (λ number.
            slice_get (map (λ n. n.now) ordered.names) (slice_index ordered.places number)
            ≡ slice_get self.now number)) }
    {
        let sorted = sorted(alloc, self.names.as_slice())?;
        let names = names_of(alloc, &sorted)?;
        let places = places_of(alloc, &sorted)?;
        Ok(OrderedNames {
            names: Entries::new(names),
            places: Entries::new(places),
        })
    }
}

// The names with their numbers, in byte order.
fn sorted<'a>(alloc: Global, names: &[Key<'a>]) -> Result<Vec<NumberedName<'a>>, AllocError>
    requires { length names.now < 2 ^ 32 }
    ensures permutation { IfOk result (λ sorted. IsPermutation (numbered names.now) sorted.items) }
    ensures sorted { IfOk result (λ sorted. IsSorted numbered_cmp sorted.items) }
{
    let mut sorted = Vec::with_capacity(alloc, names.len())?;
    for (number, name) in names.iter().enumerate() {
        sorted.push(NumberedName {
            name: *name,
            number: number as u32,
        })?;
    }
    sorted.sort_unstable();
    Ok(sorted)
}

// The names without their numbers.
fn names_of<'a>(alloc: Global, sorted: &[NumberedName<'a>]) -> Result<Vec<&'a [u8]>, AllocError>
    ensures { IfOk result (λ names. names.items ≡ map (λ n. n.name.name) sorted.now) }
{
    let mut names = Vec::with_capacity(alloc, sorted.len())?;
    for numbered in sorted {
        names.push(numbered.name.name)?;
    }
    Ok(names)
}

// For each number the place where it stands.
fn places_of(alloc: Global, sorted: &[NumberedName]) -> Result<Vec<u32>, AllocError>
    requires few { length sorted.now < 2 ^ 32 }
    requires within { All (λ n. n.number < length sorted.now) sorted.now }
    ensures count { IfOk result (λ places. length places.items ≡ length sorted.now) }
    ensures placed { IfOk result (λ places. IsPlaced (map (λ n. n.number) sorted.now) places.items) }
{
    let mut places = vec![in alloc; 0u32; sorted.len()]?;
    for (place, numbered) in sorted.iter().enumerate() {
        places[numbered.number as usize] = place as u32;
    }
    Ok(places)
}
