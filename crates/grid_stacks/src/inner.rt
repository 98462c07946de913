ghost use Rattle.std.specs.Prelude.{◌≡◌, ◌↔◌, ℤ, Contains, IfOk, map};
ghost use Rattle.geom_rect.specs.declared.rect.Rect.{Rect};
ghost use Rattle.geom_rect.specs.Run.{IsHeld};
ghost use Rattle.grid_stacks.specs.inside.Inner.{entry_of};
ghost use Rattle.grid_stacks.specs.inside.Standing.{IsOverCell};

use crate::bar::Bar;
use geom_rect::{Rect, Run};
use run_index::{Entry, RunIndex};
use std::alloc::{AllocError, Global};
use std::marker::Model;

// Rectangles that a stack may not meet, found by what lies across a flat bar. A contract sees them as a list.
#[derive(Drop)]
pub(crate) struct Inner {
    index: RunIndex,
}

impl Model for Inner {
    ghost use Rattle.std.specs.Prelude.{List, map};
    ghost use Rattle.geom_rect.specs.declared.rect.Rect.{Rect};
    ghost use Rattle.grid_stacks.specs.inside.Inner.{rect_of, AreAlone};

    ghost Value = { List Rect };

    ghost view = { λ inner. map rect_of inner.index };

    ghost invariant = { λ inner. AreAlone inner.index };
}

impl Inner {
    pub(crate) fn new(alloc: Global, rects: &[Rect]) -> Result<Inner, AllocError>
        ensures { IfOk result (λ inner. (r : Rect) → Contains inner r ↔ Contains rects.now r) }
    {
        let entries = entries(alloc, rects)?;
        let index = RunIndex::new(alloc, entries)?;
        Ok(Inner { index })
    }

    // The cells along a flat bar over which one of the rectangles lies.
    pub(crate) fn runs_over(&self, alloc: Global, flat: Bar) -> Result<Vec<Run>, AllocError>
        ensures { IfOk result (λ runs. (t : ℤ) → IsHeld runs.items t ↔ IsOverCell flat self.now t) }
    {
        let window = Run {
            from: flat.low,
            to: flat.high,
        };
        self.index.found(alloc, 0, window)
    }
}

fn entries(alloc: Global, rects: &[Rect]) -> Result<Vec<Entry>, AllocError>
    ensures { IfOk result (λ entries. entries.items ≡ map entry_of rects.now) }
{
    rects.iter().map(|rect| entry_of(rect)).collect(alloc)
}

fn entry_of(rect: &Rect) -> Entry
    ensures { result ≡ entry_of rect.now }
{
    Entry {
        group: 0,
        across: Run {
            from: rect.y1,
            to: rect.y2,
        },
        along: Run {
            from: rect.x1,
            to: rect.x2,
        },
    }
}
