ghost use Rattle.std.specs.Prelude.{◌≡◌, IfOk, filter, map};
ghost use Rattle.rect_index.specs.Entry.{is_at, first_at, item_of};

use crate::entry::Entry;
use crate::tree::{Tree, build, find, first};
use geom_rect::Rect;
use std::alloc::{AllocError, Global};
use std::marker::Model;

/// An index of entries, which are found by their groups and by the points of a window.
///
/// A contract sees it as the list of its entries. Where entries that stand near one another in the list lie near one
/// another, to find k of n entries takes about (k + 1) log n steps.
#[derive(Drop)]
pub struct RectIndex<T> {
    tree: Tree<T>,
}

impl<T> Model for RectIndex<T> {
    ghost use Rattle.std.specs.Prelude.{List};
    ghost use Rattle.rect_index.specs.declared.entry.Entry.{Entry};
    ghost use Rattle.rect_index.specs.inside.Tree.{entries_of, IsBounded};

    ghost Value = { List (Entry T) };

    ghost view = { λ index. entries_of index.tree };

    ghost invariant = { λ index. IsBounded index.tree };
}

impl<T: Copy> RectIndex<T> {
    /// The index of these entries, in their order.
    ///
    /// Error: want of memory.
    pub fn new(alloc: Global, entries: &[Entry<T>]) -> Result<RectIndex<T>, AllocError>
        ensures { IfOk result (λ index. index ≡ entries.now) }
    {
        let tree = build(alloc, entries)?;
        Ok(RectIndex { tree })
    }

    /// What all entries of the group stand for that have a point of the window, edges included, in the order of the
    /// entries.
    ///
    /// Error: want of memory.
    pub fn found(&self, alloc: Global, group: u32, window: Rect) -> Result<Vec<T>, AllocError>
        ensures { IfOk result (λ found. found.items ≡ map item_of (filter (is_at group window) self.now)) }
    {
        let mut found = Vec::new(alloc);
        find(&self.tree, group, window, &mut found)?;
        Ok(found)
    }

    /// What the first of them stands for.
    pub fn first(&self, group: u32, window: Rect) -> Option<T>
        ensures { result ≡ first_at group window self.now }
    {
        first(&self.tree, group, window)
    }
}
