//! The table of the names of nodes, and the names in byte order.
ghost use Rattle.std.specs.List.{enumerate_from};
ghost use Rattle.std.specs.Str.{bytes_eq};
ghost use Rattle.std.specs.Prelude.{◌≡◌, ℕ, ◌-◌, ◌<◌, ◌^◌, ◌↔◌, List, [], map, length, position, slice_get, slice_index, All, Contains, EachIndex, IfOk, IsPermutation, IsSorted, IsTrue, OnErr, OnOk};
ghost use Rattle.name_table.specs.ByteOrder.{IsInByteOrder};
ghost use Rattle.name_table.specs.Numbering.{TakesName, AreDistinct};
ghost use Rattle.node_names.specs.Folding.{folded};
ghost use Rattle.node_names.specs.inside.Keys.{names_in};
ghost use Rattle.node_names.specs.inside.Entries.{entry_of, entries_of, entry_cmp, IsPlaced};

use crate::key::{Key, head_of};
use indexmap::IndexSet;
use name_table::{MOST_NAMES, NameError};
use outside::Name;
use std::alloc::{AllocError, Global};
use std::marker::Model;

/// Distinct names of nodes in the order in which they first came. The number of a name is its place, from 0 on. Names
/// that are the same in lower case are one name.
///
/// A contract sees the table as the list of its names in lower case.
#[derive(Drop)]
pub struct NodeNames<'a> {
    keys: IndexSet<Key<'a>>,
}

impl<'a> Model for NodeNames<'a> {
    ghost use Rattle.std.specs.Prelude.{ℕ, ◌^◌, ◌<◌, List, length};
    ghost use Rattle.node_names.specs.inside.Keys.{names_in};

    ghost Value = { List (List ℕ) };

    ghost view = { λ t. names_in t.keys.keys };

    ghost invariant = { λ t. length t.keys.keys < 2 ^ 32 };
}

/// Names of nodes in byte order, and where each number of the table went.
#[derive(Debug, Drop)]
pub struct OrderedNodes {
    /// The names in lower case, each before all later ones.
    pub names: Vec<Name>,
    /// For each number of the table, the place of its name in `names`.
    pub places: Vec<u32>,
}

// A name with its number in the table.
#[derive(Clone, Copy, PartialEq, Eq, PartialOrd, Ord)]
struct Numbered<'a> {
    key: Key<'a>,
    number: u32,
}

impl<'a> NodeNames<'a> {
    /// An empty table with room for `names` names.
    pub fn with_capacity(alloc: Global, names: usize) -> Result<Self, AllocError>
        ensures { IfOk result (λ table. table ≡ []) }
    {
        let keys = IndexSet::with_capacity(alloc, names)?;
        Ok(NodeNames { keys })
    }

    /// How many names the table holds.
    pub fn len(&self) -> usize
        ensures len { result ≡ length self.now }
        ensures most { result < 2 ^ 32 }
        ensures distinct { AreDistinct self.now }
    {
        self.keys.len()
    }

    /// Whether the table holds no name.
    pub fn is_empty(&self) -> bool
        ensures { IsTrue result ↔ (self.now ≡ []) }
    {
        self.keys.len() == 0
    }

    /// Whether the table holds the name.
    pub fn contains(&self, name: &'a [u8]) -> bool
        ensures { IsTrue result ↔ Contains self.now (folded name.now) }
    {
        self.keys.contains(&Key {
            name,
            head: head_of(name),
        })
    }

    /// The number of a name that the table holds.
    pub fn get(&self, name: &'a [u8]) -> Option<u32>
        ensures { result ≡ position (bytes_eq (folded name.now)) self.now }
    {
        let number = self.keys.get_index_of(&Key {
            name,
            head: head_of(name),
        })?;
        Some(number as u32)
    }

    /// The number of a name. A name that is new gets the next number. A name that is there always has its answer.
    pub fn number(&mut self, name: &'a [u8]) -> Result<u32, NameError>
        ensures number { IfOk result (λ number. slice_get self.new number ≡ Some (folded name.now)) }
        ensures taken { OnOk result (TakesName self.old self.new (folded name.now)) }
        ensures err { OnErr result (self.new ≡ self.old) }
        ensures full { (result ≡ Err NameError.Full) ↔
            ((length self.old ≡ 2 ^ 32 - 1) × (¬ Contains self.old (folded name.now))) }
        ensures want { result ≡ Err NameError.Want → ¬ Contains self.old (folded name.now) }
        ensures distinct { AreDistinct self.new }
    {
        let key = Key {
            name,
            head: head_of(name),
        };
        if self.keys.len() == MOST_NAMES {
            let Some(number) = self.keys.get_index_of(&key) else {
                return Err(NameError::Full);
            };
            return Ok(number as u32);
        }
        let Ok((number, _)) = self.keys.insert_full(key) else {
            return Err(NameError::Want);
        };
        Ok(number as u32)
    }

    /// The names in lower case, in byte order, and the new place of each number.
    pub fn ordered(&self, alloc: Global) -> Result<OrderedNodes, AllocError>
        ensures order { IfOk result (λ ordered. IsInByteOrder ordered.names.items) }
        ensures same_names { IfOk result (λ ordered. IsPermutation self.now ordered.names.items) }
        ensures every_number { IfOk result (λ ordered. length ordered.places.items ≡ length self.now) }
        ensures places { IfOk result (λ ordered. EachIndex self.now (λ number.
            slice_get ordered.names.items (slice_index ordered.places.items number) ≡ slice_get self.now number)) }
    {
        let sorted = sorted(alloc, self.keys.as_slice())?;
        let names = names_of(alloc, &sorted)?;
        let places = places_of(alloc, &sorted)?;
        Ok(OrderedNodes { names, places })
    }
}

// The keys with their numbers, in byte order.
fn sorted<'a>(alloc: Global, keys: &[Key<'a>]) -> Result<Vec<Numbered<'a>>, AllocError>
    requires { length keys.now < 2 ^ 32 }
    ensures permutation { IfOk result (λ sorted.
        IsPermutation (enumerate_from 0 (names_in keys.now)) (entries_of sorted.items)) }
    ensures sorted { IfOk result (λ sorted. IsSorted (λ x y. entry_cmp (entry_of x) (entry_of y)) sorted.items) }
{
    let mut sorted = Vec::with_capacity(alloc, keys.len())?;
    for (number, key) in keys.iter().enumerate() {
        sorted.push(Numbered {
            key: *key,
            number: number as u32,
        })?;
    }
    sorted.sort()?;
    Ok(sorted)
}

// The names in lower case, without their numbers.
fn names_of(alloc: Global, sorted: &[Numbered]) -> Result<Vec<Name>, AllocError>
    ensures { IfOk result (λ names. names.items ≡ map (λ e. e.1) (entries_of sorted.now)) }
{
    let mut names = Vec::with_capacity(alloc, sorted.len())?;
    let mut lower = Vec::new(alloc);
    for numbered in sorted {
        lower.clear();
        put_folded(&mut lower, numbered.key.name)?;
        names.push(Name::new(alloc, &lower)?)?;
    }
    Ok(names)
}

// Puts a name in lower case into an empty buffer.
fn put_folded(buffer: &mut Vec<u8>, name: &[u8]) -> Result<(), AllocError>
    requires { buffer.old.items ≡ [] }
    ensures { OnOk result (buffer.new.items ≡ folded name.now) }
{
    for byte in name {
        buffer.push(byte.to_ascii_lowercase())?;
    }
    Ok(())
}

// For each number the place where it stands.
fn places_of(alloc: Global, sorted: &[Numbered]) -> Result<Vec<u32>, AllocError>
    requires few { length sorted.now < 2 ^ 32 }
    requires within { All (λ e. e.0 < length sorted.now) (entries_of sorted.now) }
    ensures count { IfOk result (λ places. length places.items ≡ length sorted.now) }
    ensures placed { IfOk result (λ places. IsPlaced (map (λ e. e.0) (entries_of sorted.now)) places.items) }
{
    let mut places = vec![in alloc; 0u32; sorted.len()]?;
    for (place, numbered) in sorted.iter().enumerate() {
        places[numbered.number as usize] = place as u32;
    }
    Ok(places)
}
