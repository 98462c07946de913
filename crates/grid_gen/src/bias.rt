//! The bias file.
ghost use Rattle.std.specs.Prelude.{◌≡◌, ◌≤◌, ◌++◌, IfOk, OnOk};
ghost use Rattle.std.specs.List.{flat_map, range_with_len};
ghost use Rattle.grid_gen.specs.Inputs.{IsSide};
ghost use Rattle.grid_gen.specs.Bias.{bias_text, tenths, pad_line, pads_at, pad_lines, pad_count};

use crate::fixed::SUPPLIES;
use crate::part::{append_part, append_text};
use std::alloc::{AllocError, Global};

/// The text of the bias file.
#[tactic(auto, using(crate::proofs::Literals::supplies_is))]
pub(crate) fn bias_text(alloc: Global, side: u32) -> Result<Vec<u8>, AllocError>
    requires { IsSide side }
    ensures { IfOk result (λ text. text.items ≡ bias_text side) }
{
    let mut out = Vec::new(alloc);
    append_text(&mut out, SUPPLIES)?;
    append_pads(&mut out, b"VSS", 20, side)?;
    append_pads(&mut out, b"VDD", 220, side)?;
    Ok(out)
}

// The pads of a net, of which the first two stand at a height in tenths of a micrometre.
fn append_pads(out: &mut Vec<u8>, net: &[u8], first: u32, side: u32) -> Result<(), AllocError>
    requires side { IsSide side }
    requires first { first ≤ 220 }
    ensures { OnOk result (out.new.items ≡ out.old.items ++ pad_lines net.now first side) }
{
    for k in 0..pad_count(first, side) {
        append_pads_at(out, net, 14 * side, first + 400 * k)?;
    }
    Ok(())
}

// How many pads a net has at each side.
fn pad_count(first: u32, side: u32) -> u32
    requires side { IsSide side }
    requires first { first ≤ 220 }
    ensures count { result ≡ pad_count first side }
    ensures few { result ≤ 11 }
{
    (14 * side - (first + 7)) / 400 + 1
}

// The left and the right pad at a height, on a die of a width.
fn append_pads_at(out: &mut Vec<u8>, net: &[u8], width: u32, height: u32) -> Result<(), AllocError>
    ensures { OnOk result (out.new.items ≡ out.old.items ++ pads_at net.now width height) }
{
    append_pad(out, net, 0, height)?;
    append_pad(out, net, width, height)?;
    Ok(())
}

// A pad.
fn append_pad(out: &mut Vec<u8>, net: &[u8], x: u32, y: u32) -> Result<(), AllocError>
    ensures { OnOk result (out.new.items ≡ out.old.items ++ pad_line net.now x y) }
{
    append_text(out, b"pad ")?;
    append_text(out, net)?;
    append_tenths(out, b" metal7 ", x)?;
    append_tenths(out, b" ", y)?;
    append_text(out, b"\n")?;
    Ok(())
}

// A text, and a length of so many tenths of a micrometre, with one place.
fn append_tenths(out: &mut Vec<u8>, text: &[u8], length: u32) -> Result<(), AllocError>
    ensures { OnOk result (out.new.items ≡ out.old.items ++ tenths text.now length) }
{
    append_part(out, text, length / 10)?;
    append_part(out, b".", length % 10)?;
    Ok(())
}
