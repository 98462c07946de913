//! The layers of a text, by name.
ghost use Rattle.std.specs.Prelude.{◌≡◌, ◌↔◌, ◌<◌, ◌^◌, [], ◌∷◌, ◌++◌, Contains, IfOk, IsTrue, OnErr, OnOk, length, map, slice_index_or};
ghost use Rattle.name_table.specs.Numbering.{TakesName};
ghost use Rattle.lef_tech.specs.Known.{name_of, reference_in};
ghost use Rattle.lef_tech.specs.declared.known.Known.{Known as Record};

use crate::layer::LayerRef;
use crate::text::Bytes;
use name_table::{NameError, NameTable};
use std::alloc::{AllocError, Global};
use std::marker::Model;

/// A layer of the text, and which routing or cut layer it is. A layer of another type is none.
#[derive(Debug, Drop)]
pub(crate) struct Known<'a> {
    pub(crate) name: Bytes<'a>,
    pub(crate) reference: Option<LayerRef>,
}

/// The layers of the text so far, in its order, with distinct names.
///
/// A contract sees the list of them.
#[derive(Drop)]
pub(crate) struct Layers<'a> {
    names: NameTable<'a>,
    known: Vec<Known<'a>>,
}

impl<'a> Model for Layers<'a> {
    ghost use Rattle.std.specs.Prelude.{◌≡◌, List, map};
    ghost use Rattle.lef_tech.specs.declared.known.Known.{Known};

    ghost Value = { List Known };

    ghost view = { λ layers. layers.known.items };

    ghost invariant = { λ layers. layers.names ≡ map (λ (known : Known). known.name) layers.known.items };
}

/// Which routing or cut layer stands at this place.
fn reference_at(known: &[Known<'_>], place: usize) -> Option<LayerRef>
    requires { place < length known.now }
    ensures { (other : Record) → result ≡ (slice_index_or known.now place other).reference }
{
    known[place].reference
}

/// One more name. A table of names is full with 2^32 - 1 of them, more than a text of 2^28 bytes has.
pub(crate) fn take_name<'a>(names: &mut NameTable<'a>, name: &'a [u8]) -> Result<(), AllocError>
    ensures taken { OnOk result (TakesName names.old names.new name.now) }
    ensures kept { OnErr result (names.new ≡ names.old) }
    ensures few { length names.new < 2 ^ 32 }
{
    let taken = names.number(name);
    let _count = names.len();
    match taken {
        Ok(_) => Ok(()),
        Err(_) => Err(AllocError),
    }
}

impl<'a> Layers<'a> {
    /// No layers.
    pub(crate) fn new(alloc: Global) -> Result<Layers<'a>, AllocError>
        ensures { IfOk result (λ layers. layers ≡ []) }
    {
        Ok(Layers {
            names: NameTable::with_capacity(alloc, 0)?,
            known: Vec::new(alloc),
        })
    }

    /// Whether a layer has the name.
    pub(crate) fn contains(&self, name: &'a [u8]) -> bool
        ensures { IsTrue result ↔ Contains (map name_of self.now) name.now }
    {
        self.names.contains(name)
    }

    /// Which routing or cut layer has the name.
    pub(crate) fn reference(&mut self, name: &'a [u8]) -> Option<LayerRef>
        ensures same { self.new ≡ self.old }
        ensures is { result ≡ reference_in self.old name.now }
    {
        if !self.names.contains(name) {
            return None;
        }
        match self.names.number(name) {
            Ok(number) => reference_at(self.known.as_slice(), number as usize),
            Err(NameError::Full) => unreachable!(),
            Err(NameError::Want) => unreachable!(),
        }
    }

    /// One more layer, where its name is new.
    pub(crate) fn add(
        &mut self,
        name: &'a [u8],
        reference: Option<LayerRef>,
    ) -> Result<(), AllocError>
        ensures added { OnOk result ((Contains (map name_of self.old) name.now → ⊥) →
            self.new ≡ self.old ++ record { name = name.now; reference = reference } ∷ []) }
        ensures few { length self.new < 2 ^ 32 }
    {
        let _count = self.names.len();
        if self.names.contains(name) {
            return Ok(());
        }
        let count = self.known.len();
        let known = Known {
            name: Bytes::new(name),
            reference,
        };
        self.known.push(known)?;
        let taken = take_name(&mut self.names, name);
        if taken.is_err() {
            self.known.truncate(count);
        }
        taken
    }
}
