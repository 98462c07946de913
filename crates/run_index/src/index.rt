ghost use Rattle.std.specs.Prelude.{◌≡◌, IfOk, filter, map};
ghost use Rattle.std.specs.List.Sorted.{IsPermutation};
ghost use Rattle.run_index.specs.Entry.{lies_across, along_of};
ghost use Rattle.run_index.specs.inside.Boxed.{box_of, window_of};

use crate::entry::{Entry, lies_across};
use geom_rect::{Rect, Run};
use rect_index::{Entry as Boxed, RectIndex};
use std::alloc::{AllocError, Global};
use std::marker::Model;

/// An index of entries by their groups and by the cells that they have across.
///
/// A contract sees it as a list of its entries. To find k of n entries takes about (k + 1) log n steps.
#[derive(Drop)]
pub struct RunIndex {
    boxes: RectIndex<Entry>,
}

impl Model for RunIndex {
    ghost use Rattle.std.specs.Prelude.{List, map};
    ghost use Rattle.rect_index.specs.Entry.{item_of};
    ghost use Rattle.run_index.specs.declared.entry.Entry.{Entry};
    ghost use Rattle.run_index.specs.inside.Boxed.{AreBoxed};

    ghost Value = { List Entry };

    ghost view = { λ index. map item_of index.boxes };

    ghost invariant = { λ index. AreBoxed index.boxes };
}

impl RunIndex {
    /// The index of these entries.
    pub fn new(alloc: Global, mut entries: Vec<Entry>) -> Result<RunIndex, AllocError>
        ensures { IfOk result (λ index. IsPermutation entries.items index) }
    {
        sort(&mut entries);
        in_order(alloc, &entries)
    }

    /// The runs along of all entries of the group that have a cell of the window across.
    pub fn found(&self, alloc: Global, group: u32, window: Run) -> Result<Vec<Run>, AllocError>
        ensures { IfOk result (λ runs. runs.items ≡ map along_of (filter (lies_across group window) self.now)) }
    {
        let near = self.boxes.found(alloc, group, window_of(window))?;
        along_those(alloc, group, window, &near)
    }
}

// The order only keeps the steps few: entries that stand near one another have near bounds.
fn sort(entries: &mut [Entry])
    ensures { IsPermutation entries.old entries.new }
{
    entries.sort_unstable_by_key(|entry| (entry.group, entry.across.from));
}

// The index of the entries in this order.
fn in_order(alloc: Global, entries: &[Entry]) -> Result<RunIndex, AllocError>
    ensures { IfOk result (λ index. index ≡ entries.now) }
{
    let boxes = boxes_of(alloc, entries)?;
    Ok(RunIndex {
        boxes: RectIndex::new(alloc, &boxes)?,
    })
}

fn boxes_of(alloc: Global, entries: &[Entry]) -> Result<Vec<Boxed<Entry>>, AllocError>
    ensures { IfOk result (λ boxes. boxes.items ≡ map box_of entries.now) }
{
    entries.iter().map(|entry| box_of(*entry)).collect(alloc)
}

// The entry with its run across as a rectangle that is flat.
fn box_of(entry: Entry) -> Boxed<Entry>
    ensures { result ≡ box_of entry }
{
    Boxed {
        group: entry.group,
        rect: window_of(entry.across),
        item: entry,
    }
}

fn window_of(run: Run) -> Rect
    ensures { result ≡ window_of run }
{
    Rect {
        x1: run.from,
        y1: 0,
        x2: run.to,
        y2: 0,
    }
}

// The runs along of those that have a cell of the window. A rectangle has its edges too, and so is found where it has none.
fn along_those(
    alloc: Global,
    group: u32,
    window: Run,
    near: &[Entry],
) -> Result<Vec<Run>, AllocError>
    ensures { IfOk result (λ runs. runs.items ≡ map along_of (filter (lies_across group window) near.now)) }
{
    let mut runs = Vec::new(alloc);
    for entry in near {
        if lies_across(group, window, *entry) {
            runs.push(entry.along)?;
        }
    }
    Ok(runs)
}
