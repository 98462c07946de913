//! The lines of the answers.
ghost use Rattle.std.specs.Prelude.{◌≡◌, ◌++◌, IfOk, codes, decimal};
ghost use Rattle.std.specs.Fmt.{signed_decimal};
ghost use Rattle.fixed_decimal.specs.Printed.{printed};
ghost use Rattle.answers.specs.Answer.{grid_words, kind_words, quantity_word, side_word, verdict_words};

use crate::built::Built;
use crate::kind::TextKind;
use bound_check::Side;
use fixed_decimal::print;
use grid_net::Quantity;
use itoa::Buffer;
use outside::Place;
use std::alloc::{AllocError, Global};

/// A line with the name of a file or of a node in it.
pub(crate) fn file_line(
    alloc: Global,
    before: &[u8],
    name: &[u8],
    after: &[u8],
) -> Result<Vec<u8>, AllocError>
    ensures { IfOk result (λ line. line.items ≡ before.now ++ name.now ++ after.now) }
{
    let mut line = Vec::from_slice(alloc, before)?;
    line.extend_from_slice(name)?;
    line.extend_from_slice(after)?;
    Ok(line)
}

/// The line of a text that is refused at the word of a place.
pub(crate) fn refused_line(
    alloc: Global,
    file: &[u8],
    place: Place,
    kind: TextKind,
) -> Result<Vec<u8>, AllocError>
    ensures { IfOk result (λ line. line.items ≡
        codes "pdn: " ++ file.now ++ codes ":" ++ decimal place.line ++ codes ":" ++ decimal place.word ++ codes ": "
        ++ kind_words kind ++ codes "\n") }
{
    let mut buffer = Buffer::new();
    let mut line = Vec::from_slice(alloc, b"pdn: ")?;
    line.extend_from_slice(file)?;
    line.extend_from_slice(b":")?;
    line.extend_from_slice(buffer.format(place.line).as_bytes())?;
    line.extend_from_slice(b":")?;
    line.extend_from_slice(buffer.format(place.word).as_bytes())?;
    line.extend_from_slice(b": ")?;
    line.extend_from_slice(kind.words())?;
    line.extend_from_slice(b"\n")?;
    Ok(line)
}

/// The word for a quantity.
fn quantity_word_of(quantity: Quantity) -> &'static [u8]
    ensures { result.now ≡ quantity_word quantity }
{
    match quantity {
        Quantity::Nodes => b"Nodes",
        Quantity::Resistors => b"Resistors",
        Quantity::Resistance => b"Resistance",
        Quantity::Voltage => b"Voltage",
        Quantity::Loads => b"Loads",
    }
}

/// The line of a quantity that passes its limit.
pub(crate) fn range_line(
    alloc: Global,
    quantity: Quantity,
    at: u64,
    number: i128,
) -> Result<Vec<u8>, AllocError>
    ensures { IfOk result (λ line. line.items ≡
        codes "pdn: Range " ++ quantity_word quantity ++ codes " " ++ decimal at ++ codes " " ++ signed_decimal number
        ++ codes "\n") }
{
    let mut buffer = Buffer::new();
    let mut line = Vec::from_slice(alloc, b"pdn: Range ")?;
    line.extend_from_slice(quantity_word_of(quantity))?;
    line.extend_from_slice(b" ")?;
    line.extend_from_slice(buffer.format(at).as_bytes())?;
    line.extend_from_slice(b" ")?;
    line.extend_from_slice(buffer.format(number).as_bytes())?;
    line.extend_from_slice(b"\n")?;
    Ok(line)
}

/// The line of too many steps: their number times that of the nodes.
pub(crate) fn steps_line(alloc: Global, number: u64) -> Result<Vec<u8>, AllocError>
    ensures { IfOk result (λ line. line.items ≡ codes "pdn: Range Steps 0 " ++ decimal number ++ codes "\n") }
{
    let mut buffer = Buffer::new();
    file_line(
        alloc,
        b"pdn: Range Steps 0 ",
        buffer.format(number).as_bytes(),
        b"\n",
    )
}

/// The line of a network that was bounded at so many steps.
pub(crate) fn stepped_line(alloc: Global, nodes: u32, steps: u32) -> Result<Vec<u8>, AllocError>
    ensures { IfOk result (λ line. line.items ≡
        codes "stepped " ++ decimal nodes ++ codes " nodes " ++ decimal steps ++ codes " steps\n") }
{
    let mut buffer = Buffer::new();
    let mut line = Vec::from_slice(alloc, b"stepped ")?;
    line.extend_from_slice(buffer.format(nodes).as_bytes())?;
    line.extend_from_slice(b" nodes ")?;
    line.extend_from_slice(buffer.format(steps).as_bytes())?;
    line.extend_from_slice(b" steps\n")?;
    Ok(line)
}

/// The line of two pads that differ: volts with 24 places, which are whole yoctovolts.
pub(crate) fn conflict_line(
    alloc: Global,
    node: &[u8],
    first: i128,
    second: i128,
) -> Result<Vec<u8>, AllocError>
    ensures { IfOk result (λ line. line.items ≡
        codes "pdn: PadConflict " ++ node.now ++ codes " " ++ printed first 24 ++ codes " " ++ printed second 24
        ++ codes "\n") }
{
    let mut line = Vec::from_slice(alloc, b"pdn: PadConflict ")?;
    line.extend_from_slice(node)?;
    line.extend_from_slice(b" ")?;
    print(&mut line, first, 24)?;
    line.extend_from_slice(b" ")?;
    print(&mut line, second, 24)?;
    line.extend_from_slice(b"\n")?;
    Ok(line)
}

/// The line of a certificate that holds, on a network of this many nodes.
pub(crate) fn certified_line(alloc: Global, nodes: u32) -> Result<Vec<u8>, AllocError>
    ensures { IfOk result (λ line. line.items ≡ codes "certified " ++ decimal nodes ++ codes " nodes\n") }
{
    let mut buffer = Buffer::new();
    file_line(
        alloc,
        b"certified ",
        buffer.format(nodes).as_bytes(),
        b" nodes\n",
    )
}

/// The line of a grid that is built.
pub(crate) fn built_line(alloc: Global, built: Built) -> Result<Vec<u8>, AllocError>
    ensures { IfOk result (λ line. line.items ≡ codes "built " ++ grid_words built ++ verdict_words built ++ codes "\n") }
{
    let mut line = Vec::from_slice(alloc, b"built ")?;
    built.append_grid(&mut line)?;
    built.append_verdicts(&mut line)?;
    line.extend_from_slice(b"\n")?;
    Ok(line)
}

/// The line of a grid that is signed off.
pub(crate) fn signed_line(alloc: Global, numbers: Built) -> Result<Vec<u8>, AllocError>
    ensures { IfOk result
        (λ line. line.items ≡ codes "signed " ++ grid_words numbers ++ verdict_words numbers ++ codes "\n") }
{
    let mut line = Vec::from_slice(alloc, b"signed ")?;
    numbers.append_grid(&mut line)?;
    numbers.append_verdicts(&mut line)?;
    line.extend_from_slice(b"\n")?;
    Ok(line)
}

/// The line of a network that was certified in so many sweeps.
pub(crate) fn solved_line(
    alloc: Global,
    nodes: u32,
    resistors: u32,
    sweeps: u64,
) -> Result<Vec<u8>, AllocError>
    ensures { IfOk result (λ line. line.items ≡
        codes "solved " ++ decimal nodes ++ codes " nodes " ++ decimal resistors ++ codes " resistors " ++ decimal sweeps
        ++ codes " sweeps\n") }
{
    let mut buffer = Buffer::new();
    let mut line = Vec::from_slice(alloc, b"solved ")?;
    line.extend_from_slice(buffer.format(nodes).as_bytes())?;
    line.extend_from_slice(b" nodes ")?;
    line.extend_from_slice(buffer.format(resistors).as_bytes())?;
    line.extend_from_slice(b" resistors ")?;
    line.extend_from_slice(buffer.format(sweeps).as_bytes())?;
    line.extend_from_slice(b" sweeps\n")?;
    Ok(line)
}

/// The word for a side.
fn side_word_of(side: Side) -> &'static [u8]
    ensures { result.now ≡ side_word side }
{
    match side {
        Side::HighValue => b"HighValue",
        Side::LowValue => b"LowValue",
        Side::HighFlow => b"HighFlow",
        Side::LowFlow => b"LowFlow",
        Side::High => b"High",
        Side::Low => b"Low",
    }
}

/// The line of a certificate that does not hold.
pub(crate) fn not_certified_line(
    alloc: Global,
    node: &[u8],
    side: Side,
    found: i128,
) -> Result<Vec<u8>, AllocError>
    ensures { IfOk result (λ line. line.items ≡
        codes "pdn: NotCertified " ++ node.now ++ codes " " ++ side_word side ++ codes " "
        ++ signed_decimal found ++ codes "\n") }
{
    let mut buffer = Buffer::new();
    let mut line = Vec::from_slice(alloc, b"pdn: NotCertified ")?;
    line.extend_from_slice(node)?;
    line.extend_from_slice(b" ")?;
    line.extend_from_slice(side_word_of(side))?;
    line.extend_from_slice(b" ")?;
    line.extend_from_slice(buffer.format(found).as_bytes())?;
    line.extend_from_slice(b"\n")?;
    Ok(line)
}
