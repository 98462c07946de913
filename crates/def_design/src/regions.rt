//! The regions of a design.
ghost use Rattle.std.specs.Prelude.{◌≡◌, ◌++◌, ◌∷◌, [], true, false, IfOk, OnOk, map};
ghost use Rattle.def_design.specs.inside.Held.{HoldsRegions, Takes};
ghost use Rattle.def_design.specs.Unit.{is_region, is_more};
ghost use Rattle.reading.specs.Word.{heard_token};

use crate::corners::rect_of;
use crate::record::Fence;
use crate::value::{Value, begins, text_at};
use def_statements::Sort;
use entry_list::Entries;
use geom_rect::Rect;
use named_entries::NamedEntries;
use outside::Name;
use reading::Heard;
use std::alloc::{AllocError, Global};

/// The regions so far, and their names.
#[derive(Drop)]
pub(crate) struct Regions<'a> {
    pub(crate) names: NamedEntries<'a, ()>,
    pub(crate) items: Vec<Fence>,
}

/// The region with one more rectangle.
fn with_rect(region: Fence, rect: Rect) -> Result<Fence, AllocError>
    ensures name { IfOk result (λ more. more.name ≡ region.name) }
    ensures rects { IfOk result (λ more. more.rects ≡ region.rects ++ rect ∷ []) }
{
    let mut rects = region.rects.into_items();
    rects.push(rect)?;
    Ok(Fence {
        name: region.name,
        rects: Entries::new(rects),
    })
}

impl<'a> Regions<'a> {
    pub(crate) fn new(alloc: Global) -> Result<Regions<'a>, AllocError>
        ensures { IfOk result (HoldsRegions []) }
    {
        Ok(Regions {
            names: NamedEntries::new(alloc)?,
            items: Vec::new(alloc),
        })
    }

    /// One more region, with its first rectangle.
    fn add(&mut self, alloc: Global, unit: &[Heard<'a, Value>]) -> Result<(), AllocError>
        ensures { OnOk result (is_region (map heard_token unit.now) ≡ true →
            Takes HoldsRegions unit.now self.old self.new) }
    {
        let name = text_at(1, unit);
        self.names.add(name, ())?;
        let mut rects = Vec::new(alloc);
        rects.push(rect_of(3, unit))?;
        self.items.push(Fence {
            name: Name::new(alloc, name)?,
            rects: Entries::new(rects),
        })?;
        Ok(())
    }

    /// One more rectangle of the last region.
    fn extend(&mut self, unit: &[Heard<'a, Value>]) -> Result<(), AllocError>
        ensures { OnOk result (is_region (map heard_token unit.now) ≡ false →
            is_more (map heard_token unit.now) ≡ true → Takes HoldsRegions unit.now self.old self.new) }
    {
        match self.items.pop() {
            Some(last) => {
                self.items.push(with_rect(last, rect_of(1, unit))?)?;
                Ok(())
            }
            None => Ok(()),
        }
    }

    /// What a whole unit says of the regions.
    pub(crate) fn take(
        &mut self,
        alloc: Global,
        unit: &[Heard<'a, Value>],
    ) -> Result<(), AllocError>
        ensures { OnOk result (Takes HoldsRegions unit.now self.old self.new) }
    {
        if begins(Sort::Minus, 10, unit) {
            return self.add(alloc, unit);
        }
        if begins(Sort::Open, 8, unit) {
            return self.extend(unit);
        }
        Ok(())
    }
}
