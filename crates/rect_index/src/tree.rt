ghost use Rattle.std.specs.Prelude.{◌≡◌, ◌++◌, IfOk, OnOk, filter, map};
ghost use Rattle.rect_index.specs.Entry.{is_at, first_at, item_of};
ghost use Rattle.rect_index.specs.inside.Tree.{entries_of, IsBounded};

use crate::bounds::{Bounds, bounds_of, misses};
use crate::entry::{Entry, is_at};
use geom_rect::Rect;
use std::alloc::{AllocError, Global};

// A list of entries with so few is not divided.
const FEW: usize = 16;

// A list of entries with its bounds, divided until few are left.
#[derive(Drop)]
pub(crate) enum Tree<T> {
    Few(Bounds, Vec<Entry<T>>),
    Two(Bounds, Box<Tree<T>>, Box<Tree<T>>),
}

pub(crate) fn build<T: Copy>(alloc: Global, entries: &[Entry<T>]) -> Result<Tree<T>, AllocError>
    ensures entries { IfOk result (λ tree. entries_of tree ≡ entries.now) }
    ensures bounded { IfOk result (λ tree. IsBounded tree) }
{
    let bounds = bounds_of(entries);
    if entries.len() <= FEW {
        return Ok(Tree::Few(bounds, copy(alloc, entries)?));
    }
    let (left, right) = entries.split_at(entries.len() / 2);
    let low = Box::new(alloc, build(alloc, left)?)?;
    let high = Box::new(alloc, build(alloc, right)?)?;
    Ok(Tree::Two(bounds, low, high))
}

fn copy<T: Copy>(alloc: Global, entries: &[Entry<T>]) -> Result<Vec<Entry<T>>, AllocError>
    ensures { IfOk result (λ copy. copy.items ≡ entries.now) }
{
    entries.iter().copied().collect(alloc)
}

// Adds what the entries of the group stand for that have a point of the window.
pub(crate) fn find<T: Copy>(
    tree: &Tree<T>,
    group: u32,
    window: Rect,
    found: &mut Vec<T>,
) -> Result<(), AllocError>
    requires { IsBounded tree.now }
    ensures { OnOk result (found.new.items
        ≡ found.old.items ++ map item_of (filter (is_at group window) (entries_of tree.now))) }
{
    match tree {
        Tree::Few(_, entries) => find_among(entries, group, window, found),
        Tree::Two(bounds, left, right) => {
            if misses(*bounds, group, window) {
                return Ok(());
            }
            find(left, group, window, found)?;
            find(right, group, window, found)
        }
    }
}

fn find_among<T: Copy>(
    entries: &[Entry<T>],
    group: u32,
    window: Rect,
    found: &mut Vec<T>,
) -> Result<(), AllocError>
    ensures { OnOk result (found.new.items
        ≡ found.old.items ++ map item_of (filter (is_at group window) entries.now)) }
{
    for entry in entries {
        if is_at(group, window, *entry) {
            found.push(entry.item)?;
        }
    }
    Ok(())
}

// What the first entry of the group stands for that has a point of the window.
pub(crate) fn first<T: Copy>(tree: &Tree<T>, group: u32, window: Rect) -> Option<T>
    requires { IsBounded tree.now }
    ensures { result ≡ first_at group window (entries_of tree.now) }
{
    match tree {
        Tree::Few(_, entries) => first_among(entries, group, window),
        Tree::Two(bounds, left, right) => {
            if misses(*bounds, group, window) {
                return None;
            }
            match first(left, group, window) {
                Some(item) => Some(item),
                None => first(right, group, window),
            }
        }
    }
}

fn first_among<T: Copy>(entries: &[Entry<T>], group: u32, window: Rect) -> Option<T>
    ensures { result ≡ first_at group window entries.now }
{
    let entry = entries.iter().find(|entry| is_at(group, window, **entry))?;
    Some(entry.item)
}
