//! Lengths in units of the drawing.
//!
//! A number that does not fit is answered as want of memory. No record within the limits of its reader has one.
ghost use Rattle.std.specs.Prelude.{◌≡◌, ◌*◌, ◌+ℤ◌, ◌-ℤ◌, IfOk, Some, pos};
ghost use Rattle.std.specs.Int.{div_ceil};
ghost use Rattle.geom_rect.specs.Rect.{grown_by};
ghost use Rattle.grid_plan.specs.Resolved.{spacing_of, layer_spacing};

use geom_rect::Rect;
use lef_tech::{LayerRef, Tech};
use std::alloc::AllocError;
use via_arrays::PICOMETRES;

// How far metal of a layer keeps from metal; cuts keep no spacing of their own.
pub(crate) fn layer_spacing(tech: &Tech, units: u32, layer: LayerRef) -> Result<i64, AllocError>
    ensures { IfOk result (λ z. z ≡ layer_spacing tech.now units layer) }
{
    match layer {
        LayerRef::Routing(layer) => spacing_of(tech, units, layer as usize),
        LayerRef::Cut(_) => Ok(0),
    }
}

fn spacing_of(tech: &Tech, units: u32, layer: usize) -> Result<i64, AllocError>
    ensures { IfOk result (λ z. z ≡ spacing_of tech.now units layer) }
{
    match tech.routing.as_slice().get(layer) {
        Some(layer) => rounded_up(units, layer.spacing),
        None => Ok(0),
    }
}

// A length in pm as units.
fn rounded_up(units: u32, length: u64) -> Result<i64, AllocError>
    ensures { IfOk result (λ z. z ≡ pos (div_ceil (length * units) 1000000)) }
{
    whole((u128::from(length) * u128::from(units)).div_ceil(u128::from(PICOMETRES)))
}

fn whole(number: u128) -> Result<i64, AllocError>
    ensures { IfOk result (λ z. z ≡ pos number) }
{
    match i64::try_from(number) {
        Ok(number) => Ok(number),
        Err(_) => Err(AllocError),
    }
}

// The rectangle with each edge further out.
pub(crate) fn grown_by(rect: Rect, by: i64) -> Result<Rect, AllocError>
    ensures { IfOk result (λ grown. grown ≡ grown_by rect by) }
{
    Ok(Rect {
        x1: minus(rect.x1, by)?,
        y1: minus(rect.y1, by)?,
        x2: plus(rect.x2, by)?,
        y2: plus(rect.y2, by)?,
    })
}

fn plus(a: i64, b: i64) -> Result<i64, AllocError>
    ensures { IfOk result (λ z. z ≡ a +ℤ b) }
{
    fit(a.checked_add(b))
}

fn minus(a: i64, b: i64) -> Result<i64, AllocError>
    ensures { IfOk result (λ z. z ≡ a -ℤ b) }
{
    fit(a.checked_sub(b))
}

// A number that fits.
fn fit(number: Option<i64>) -> Result<i64, AllocError>
    ensures { IfOk result (λ z. number ≡ Some z) }
{
    match number {
        Some(number) => Ok(number),
        None => Err(AllocError),
    }
}
