//! Lists of entries, as the fields of records have them.
#![tactic(auto)]

ghost use Rattle.std.specs.Prelude.{◌≡◌};

use std::marker::Model;

/// A list of entries, in a record. It is made from a `Vec` and read as a slice.
///
/// A contract sees it as the list of its entries.
#[derive(Debug, Drop)]
pub struct Entries<T> {
    items: Vec<T>,
}

impl<T> Model for Entries<T> {
    ghost use Rattle.std.specs.Prelude.{List};

    ghost Value = { List T };

    ghost view = { λ entries. entries.items.items };
}

impl<T> Entries<T> {
    /// The list of these entries, in their order.
    pub fn new(items: Vec<T>) -> Entries<T>
        ensures { result ≡ items.items }
    {
        Entries { items }
    }

    /// The entries in their order, as a `Vec` again.
    pub fn into_items(self) -> Vec<T>
        ensures { result.items ≡ self }
    {
        self.items
    }

    /// The entries, in their order.
    pub fn as_slice(&self) -> &[T]
        ensures { result.now ≡ self.now }
    {
        &self.items
    }
}
