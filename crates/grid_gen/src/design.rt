//! The placed design.
ghost use Rattle.std.specs.Prelude.{◌≡◌, ◌*◌, ◌<◌, ◌≤◌, ◌++◌, IfOk, OnOk};
ghost use Rattle.std.specs.List.{flat_map, range_with_len};
ghost use Rattle.grid_gen.specs.Inputs.{IsSide};
ghost use Rattle.grid_gen.specs.Design.{design_text, area_line, head_of, orient_of, row_line, components_head, name_part, corner_part, component_entry, component_line, next_state, cell_of};

use crate::fixed::{END, UNITS};
use crate::part::{append_part, append_text};
use std::alloc::{AllocError, Global};

/// The text of the design.
#[tactic(auto, using(crate::proofs::Literals::end_is))]
pub(crate) fn design_text(alloc: Global, number: u64, side: u32) -> Result<Vec<u8>, AllocError>
    requires { IsSide side }
    ensures { IfOk result (λ text. text.items ≡ design_text number side) }
{
    let mut out = Vec::new(alloc);
    append_head(&mut out, side)?;
    append_rows(&mut out, side)?;
    append_components_head(&mut out, side)?;
    append_components(&mut out, number, side)?;
    append_text(&mut out, END)?;
    Ok(out)
}

// What stands before the rows.
fn append_head(out: &mut Vec<u8>, side: u32) -> Result<(), AllocError>
    requires { IsSide side }
    ensures { OnOk result (out.new.items ≡ out.old.items ++ head_of side) }
{
    append_text(out, UNITS)?;
    append_area(out, side)?;
    Ok(())
}

// The die.
fn append_area(out: &mut Vec<u8>, side: u32) -> Result<(), AllocError>
    requires { IsSide side }
    ensures { OnOk result (out.new.items ≡ out.old.items ++ area_line side) }
{
    append_part(out, b"DIEAREA ( 0 0 ) ( ", 2800 * side)?;
    append_part(out, b" ", 2800 * side)?;
    append_text(out, b" ) ;\n")?;
    Ok(())
}

// The rows.
fn append_rows(out: &mut Vec<u8>, side: u32) -> Result<(), AllocError>
    requires { IsSide side }
    ensures { OnOk result (out.new.items ≡ out.old.items ++ flat_map (row_line side) (range_with_len 0 side)) }
{
    for row in 0..side {
        append_row(out, side, row)?;
    }
    Ok(())
}

// A row.
fn append_row(out: &mut Vec<u8>, side: u32, row: u32) -> Result<(), AllocError>
    requires side { IsSide side }
    requires row { row < side }
    ensures { OnOk result (out.new.items ≡ out.old.items ++ row_line side row) }
{
    append_part(out, b"ROW row_", row)?;
    append_part(out, b" unit 0 ", 2800 * row)?;
    append_text(out, orient_of(row))?;
    append_part(out, b" DO ", 7 * side)?;
    append_text(out, b" BY 1 STEP 400 0 ;\n")?;
    Ok(())
}

// The orientation of a row and of what stands in it, after a blank.
fn orient_of(row: u32) -> &'static [u8]
    ensures { result.now ≡ orient_of row }
{
    if row % 2 == 0 { b" N" } else { b" FS" }
}

// What stands before the components.
fn append_components_head(out: &mut Vec<u8>, side: u32) -> Result<(), AllocError>
    requires { IsSide side }
    ensures { OnOk result (out.new.items ≡ out.old.items ++ components_head side) }
{
    append_part(out, b"COMPONENTS ", side * side)?;
    append_text(out, b" ;\n")?;
    Ok(())
}

// The components.
fn append_components(out: &mut Vec<u8>, number: u64, side: u32) -> Result<(), AllocError>
    requires { IsSide side }
    ensures { OnOk result (out.new.items ≡ out.old.items
        ++ flat_map (component_line number side) (range_with_len 0 (side * side))) }
{
    let mut state = number;
    for k in 0..side * side {
        state = next_state(state);
        append_component(out, k / side, k % side, cell_of(state))?;
    }
    Ok(())
}

// What follows on a state.
fn next_state(state: u64) -> u64
    ensures { result ≡ next_state state }
{
    state
        .wrapping_mul(6_364_136_223_846_793_005)
        .wrapping_add(1_442_695_040_888_963_407)
}

// The number of the cell that a state picks: its two highest bits.
fn cell_of(state: u64) -> u32
    ensures { result ≡ cell_of state }
{
    (state / 4_611_686_018_427_387_904) as u32
}

// The component at a place in a row, with its cell.
fn append_component(out: &mut Vec<u8>, row: u32, place: u32, cell: u32) -> Result<(), AllocError>
    requires row { row ≤ 300 }
    requires place { place ≤ 300 }
    ensures { OnOk result (out.new.items ≡ out.old.items ++ component_entry row place cell) }
{
    append_name(out, row, place, cell)?;
    append_corner(out, row, place)?;
    append_text(out, orient_of(row))?;
    append_text(out, b" ;\n")?;
    Ok(())
}

// The names of a component and of its cell.
fn append_name(out: &mut Vec<u8>, row: u32, place: u32, cell: u32) -> Result<(), AllocError>
    ensures { OnOk result (out.new.items ≡ out.old.items ++ name_part row place cell) }
{
    append_part(out, b"- u", row)?;
    append_part(out, b"_", place)?;
    append_part(out, b" C", cell)?;
    Ok(())
}

// The lower left corner of a component.
fn append_corner(out: &mut Vec<u8>, row: u32, place: u32) -> Result<(), AllocError>
    requires row { row ≤ 300 }
    requires place { place ≤ 300 }
    ensures { OnOk result (out.new.items ≡ out.old.items ++ corner_part row place) }
{
    append_part(out, b" + PLACED ( ", 2800 * place)?;
    append_part(out, b" ", 2800 * row)?;
    append_text(out, b" )")?;
    Ok(())
}
