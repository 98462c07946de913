//! The words of a refusal of wiring that another tool drew.
ghost use Rattle.std.specs.Prelude.{◌≡◌, ◌++◌, IfOk, OnOk, codes, decimal};
ghost use Rattle.std.specs.Fmt.{signed_decimal};
ghost use Rattle.refusal_words.specs.Name.{via_name, wired_net_name};
ghost use Rattle.refusal_words.specs.Words.{wired_words, wire_count_word, point_words};

use crate::append::{append_number, append_point, append_whole, named};
use crate::drawing::touches;
use crate::name::{layer_name, via_name, wired_net_name};
use def_wiring::Wires;
use lef_tech::Tech;
use std::alloc::{AllocError, Global};
use wired_grid::{WireCount, WiredError};

/// The words of a refusal of this wiring over this technology, without the end of the line. Names stand as they are,
/// whatever bytes they have.
///
/// Want of memory has the word `Want`, which a caller that answers it as that never prints.
pub fn wired_words(
    alloc: Global,
    tech: &Tech,
    wires: &Wires,
    error: &WiredError,
) -> Result<Vec<u8>, AllocError>
    ensures { IfOk result (λ words. words.items ≡ wired_words tech.now wires.now error.now) }
{
    match error {
        WiredError::UnknownName(name) => named(alloc, b"UnknownName ", name.bytes()),
        WiredError::NetCount(power, ground) => net_count(alloc, *power, *ground),
        WiredError::ViaLayers(via) => named(alloc, b"ViaLayers ", via_name(wires, *via)),
        WiredError::ViaSize(via) => named(alloc, b"ViaSize ", via_name(wires, *via)),
        WiredError::OddWidth(net, width) => odd_width(alloc, wires, *net, *width),
        WiredError::NoSheet(layer) => named(alloc, b"NoSheet ", layer_name(tech, *layer)),
        WiredError::NoResistance(at) => named(alloc, b"NoResistance ", layer_name(tech, *at)),
        WiredError::TooMany(what) => named(alloc, b"TooMany ", wire_count_word(*what)),
        WiredError::ViaOff(via, x, y) => via_off(alloc, wires, *via, *x, *y),
        WiredError::Touch(touching) => touches(alloc, tech, *touching),
        WiredError::Want => Vec::from_slice(alloc, b"Want"),
    }
}

fn wire_count_word(what: WireCount) -> &'static [u8]
    ensures { result.now ≡ wire_count_word what }
{
    match what {
        WireCount::Segments => b"Segments",
        WireCount::Vias => b"Vias",
    }
}

fn net_count(alloc: Global, power: u64, ground: u64) -> Result<Vec<u8>, AllocError>
    ensures { IfOk result (λ words. words.items ≡ codes "NetCount " ++ decimal power ++ codes " " ++ decimal ground) }
{
    let mut words = Vec::from_slice(alloc, b"NetCount ")?;
    append_whole(&mut words, power)?;
    words.push(b' ')?;
    append_whole(&mut words, ground)?;
    Ok(words)
}

fn odd_width(alloc: Global, wires: &Wires, net: u32, width: i64) -> Result<Vec<u8>, AllocError>
    ensures { IfOk result (λ words. words.items
        ≡ codes "OddWidth " ++ wired_net_name wires.now net ++ codes " " ++ signed_decimal width) }
{
    let mut words = named(alloc, b"OddWidth ", wired_net_name(wires, net))?;
    append_number(&mut words, width)?;
    Ok(words)
}

fn via_off(alloc: Global, wires: &Wires, via: u32, x: i64, y: i64) -> Result<Vec<u8>, AllocError>
    ensures { IfOk result (λ words. words.items
        ≡ codes "ViaOff " ++ via_name wires.now via ++ codes " " ++ point_words x y) }
{
    let mut words = named(alloc, b"ViaOff ", via_name(wires, via))?;
    append_point(&mut words, x, y)?;
    Ok(words)
}
