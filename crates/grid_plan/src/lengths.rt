//! Lengths that are refused.
ghost use Rattle.std.specs.Prelude.{◌≡◌};
ghost use Rattle.std.specs.Option.{option_to_list};
ghost use Rattle.pdn_script.specs.declared.record.Ring.{Ring};
ghost use Rattle.pdn_script.specs.declared.record.Stripe.{Stripe};
ghost use Rattle.def_design.specs.declared.record.Row.{Row};
ghost use Rattle.grid_plan.specs.Lengths.{off_grid, odd, first_off, off_in_script, first_off_grid, first_odd, stripe_lengths, ring_lengths, row_lengths};
ghost use Rattle.grid_plan.specs.Order.{first_some, placed};
ghost use Rattle.grid_plan.specs.Planning.{length_refusal};
ghost use Rattle.grid_plan.specs.inside.Tables.{names_in};
ghost use Rattle.grid_plan.specs.inside.Answers.{Tells};

use crate::order::{earlier, placed, unplaced};
use crate::rows::site_size;
use crate::tables::Tables;
use crate::units::scaled;
use def_design::{Design, Row};
use grid_pieces::DrawError;
use lef_cells::Cells;
use outside::Place;
use pdn_script::{Ring, Script, Stripe};
use via_arrays::PICOMETRES;

// Refuses a design without rows, and lengths that are no whole number of units or odd.
pub(crate) fn check_lengths<'a>(
    cells: &Cells,
    tables: &Tables<'a>,
    design: &'a Design,
    script: &Script,
) -> Result<(), DrawError>
    ensures { Tells (length_refusal cells.now (names_in tables.now) design.now script.now) result }
{
    if design.rows.as_slice().is_empty() {
        return Err(DrawError::NoRows);
    }
    if let Some(length) = first_off_grid(cells, tables, design, script) {
        return Err(DrawError::OffGrid(length));
    }
    if let Some(width) = first_odd(script, design.units) {
        return Err(DrawError::OddWidth(width));
    }
    Ok(())
}

fn first_off_grid<'a>(
    cells: &Cells,
    tables: &Tables<'a>,
    design: &'a Design,
    script: &Script,
) -> Option<u64>
    ensures { result ≡ first_off_grid cells.now (names_in tables.now) design.now script.now design.now.units }
{
    let script = off_in_script(script, design.units);
    script.or(off_in_rows(cells, tables, design.units, design.rows.as_slice()))
}

fn off_in_script(script: &Script, units: u32) -> Option<u64>
    ensures { result ≡ off_in_script units script.now }
{
    let stripe = off_in_stripes(units, script.stripes.as_slice());
    let ring = off_in_rings(units, script.rings.as_slice());
    unplaced(earlier(stripe, ring))
}

#[tactic(auto, using(crate::proofs::Ordered::found_at, crate::proofs::Ordered::none_at))]
fn off_in_stripes(units: u32, stripes: &[Stripe]) -> Option<(Place, u64)>
    ensures { result ≡ first_some (λ (s : Stripe). placed s.place (first_off units (stripe_lengths s))) stripes.now }
{
    for stripe in stripes {
        if let Some(length) = off_in_stripe(units, stripe) {
            return placed(stripe.place, Some(length));
        }
    }
    None
}

#[tactic(auto, using(crate::proofs::Ordered::found_at, crate::proofs::Ordered::none_at))]
fn off_in_rings(units: u32, rings: &[Ring]) -> Option<(Place, u64)>
    ensures { result ≡ first_some (λ (r : Ring). placed r.place (first_off units (ring_lengths r))) rings.now }
{
    for ring in rings {
        if let Some(length) = off_in_ring(units, ring) {
            return placed(ring.place, Some(length));
        }
    }
    None
}

#[tactic(auto, using(crate::proofs::Ordered::found_at, crate::proofs::Ordered::none_at))]
fn off_in_rows<'a>(cells: &Cells, tables: &Tables<'a>, units: u32, rows: &'a [Row]) -> Option<u64>
    ensures { result ≡ first_some (λ (row : Row). first_off units (row_lengths cells.now (names_in tables.now) row)) rows.now }
{
    for row in rows {
        if let Some(length) = off_in_row(cells, tables, units, row) {
            return Some(length);
        }
    }
    None
}

fn off_in_row<'a>(cells: &Cells, tables: &Tables<'a>, units: u32, row: &'a Row) -> Option<u64>
    ensures { result ≡ first_off units (row_lengths cells.now (names_in tables.now) row.now) }
{
    let (width, height) = site_size(cells, tables, row);
    off_grid(units, width).or(off_grid(units, height))
}

fn off_in_stripe(units: u32, stripe: &Stripe) -> Option<u64>
    ensures { result ≡ first_off units (stripe_lengths stripe.now) }
{
    let width = off_grid(units, stripe.width);
    if stripe.followpins {
        return width;
    }
    let pitch = off_stated(units, stripe.pitch);
    let spacing = off_stated(units, stripe.spacing);
    width.or(pitch.or(spacing.or(off_grid(units, stripe.offset))))
}

#[tactic(auto, using(crate::proofs::Ordered::some_append))]
fn off_in_ring(units: u32, ring: &Ring) -> Option<u64>
    ensures { result ≡ first_off units (ring_lengths ring.now) }
{
    let widths = first_off(units, ring.widths.as_slice());
    let spacings = first_off(units, ring.spacings.as_slice());
    widths.or(spacings.or(first_off(units, ring.core_offsets.as_slice())))
}

#[tactic(auto, using(crate::proofs::Ordered::some_found, crate::proofs::Ordered::some_none))]
fn first_off(units: u32, lengths: &[u64]) -> Option<u64>
    ensures { result ≡ first_off units lengths.now }
{
    for length in lengths {
        if let Some(length) = off_grid(units, *length) {
            return Some(length);
        }
    }
    None
}

fn off_stated(units: u32, length: Option<u64>) -> Option<u64>
    ensures { result ≡ first_off units (option_to_list length) }
{
    match length {
        Some(length) => off_grid(units, length),
        None => None,
    }
}

fn off_grid(units: u32, length: u64) -> Option<u64>
    ensures { result ≡ off_grid units length }
{
    if scaled(units, length) % u128::from(PICOMETRES) == 0 {
        None
    } else {
        Some(length)
    }
}

// The first width that is odd.
fn first_odd(script: &Script, units: u32) -> Option<u64>
    ensures { result ≡ first_odd script.now units }
{
    let stripe = odd_in_stripes(units, script.stripes.as_slice());
    let ring = odd_in_rings(units, script.rings.as_slice());
    unplaced(earlier(stripe, ring))
}

#[tactic(auto, using(crate::proofs::Ordered::found_at, crate::proofs::Ordered::none_at))]
fn odd_in_stripes(units: u32, stripes: &[Stripe]) -> Option<(Place, u64)>
    ensures { result ≡ first_some (λ (s : Stripe). placed s.place (odd units s.width)) stripes.now }
{
    for stripe in stripes {
        if let Some(width) = odd(units, stripe.width) {
            return placed(stripe.place, Some(width));
        }
    }
    None
}

#[tactic(auto, using(crate::proofs::Ordered::found_at, crate::proofs::Ordered::none_at))]
fn odd_in_rings(units: u32, rings: &[Ring]) -> Option<(Place, u64)>
    ensures { result ≡ first_some (λ (r : Ring). placed r.place (first_some (odd units) r.widths)) rings.now }
{
    for ring in rings {
        if let Some(width) = first_odd_of(units, ring.widths.as_slice()) {
            return placed(ring.place, Some(width));
        }
    }
    None
}

#[tactic(auto, using(crate::proofs::Ordered::some_found, crate::proofs::Ordered::some_none))]
fn first_odd_of(units: u32, widths: &[u64]) -> Option<u64>
    ensures { result ≡ first_some (odd units) widths.now }
{
    for width in widths {
        if let Some(width) = odd(units, *width) {
            return Some(width);
        }
    }
    None
}

fn odd(units: u32, width: u64) -> Option<u64>
    ensures { result ≡ odd units width }
{
    if scaled(units, width) / u128::from(PICOMETRES) % 2 == 0 {
        None
    } else {
        Some(width)
    }
}
