//! The names of the nodes.
ghost use Rattle.std.specs.Prelude.{◌≡◌, ◌<◌, ◌^◌, map, length, slice_index, All, IfOk, OnOk};
ghost use Rattle.std.specs.List.{range_with_len};
ghost use Rattle.grid_network.specs.Nodes.{layer_number, name_of};
ghost use Rattle.grid_network.specs.inside.Steps.{front_of, numbered_name, IsShort};

use crate::key::Key;
use crate::numbered_names::NumberedName;
use itoa::Buffer;
use outside::Name;
use std::alloc::{AllocError, Global};

// So many bytes of a name tell it from most others.
const FRONT: usize = 16;

/// The number of a layer of a net, where there are so many routing layers.
pub(crate) fn layer_number(layers: u64, key: &Key) -> u64
    requires { layers < 2 ^ 32 }
    ensures { result ≡ layer_number layers key.now.net key.now.layer }
{
    u64::from(key.net) * layers + u64::from(key.layer) + 1
}

// Writes the name of a node.
fn write_name(text: &mut Vec<u8>, layers: u64, key: Key) -> Result<(), AllocError>
    requires { layers < 2 ^ 32 }
    ensures written { OnOk result (text.new.items ≡ name_of layers key) }
    ensures short { OnOk result (IsShort key) }
{
    let mut buffer = Buffer::new();
    text.clear();
    text.push(b'n')?;
    text.extend_from_slice(buffer.format(layer_number(layers, &key)).as_bytes())?;
    text.push(b'_')?;
    text.extend_from_slice(buffer.format(key.x).as_bytes())?;
    text.push(b'_')?;
    text.extend_from_slice(buffer.format(key.y).as_bytes())
}

// The byte of a name at a place, or 0 where the name has ended.
fn byte_at(name: &[u8], place: usize) -> u8
    ensures { result ≡ slice_index name.now place }
{
    match name.get(place) {
        Some(byte) => *byte,
        None => 0,
    }
}

// The first 16 bytes of a name as one number.
fn front_of(name: &[u8]) -> u128
    ensures { result ≡ front_of name.now 16 }
{
    let mut front = 0u128;
    for place in 0..FRONT {
        front = front * 256 + u128::from(byte_at(name, place));
    }
    front
}

/// The names of the nodes at these points, as they stand, each with the number of its point.
pub(crate) fn names(
    alloc: Global,
    layers: u64,
    keys: &[Key],
) -> Result<Vec<NumberedName>, AllocError>
    requires layers { layers < 2 ^ 32 }
    requires few { length keys.now < 2 ^ 32 }
    ensures named { IfOk result (λ names. names.items ≡ map (numbered_name layers keys.now) (range_with_len 0 (length keys.now))) }
    ensures short { IfOk result (λ names. All IsShort keys.now) }
{
    let mut names = Vec::with_capacity(alloc, keys.len())?;
    let mut text = Vec::new(alloc);
    for (number, key) in keys.iter().enumerate() {
        write_name(&mut text, layers, *key)?;
        names.push(NumberedName {
            front: front_of(&text),
            name: Name::new(alloc, &text)?,
            number: number as u32,
        })?;
    }
    Ok(names)
}
