//! What the words of a line say, or the faults that they show.
ghost use Rattle.std.specs.Prelude.{◌≡◌, ◌≤◌, IfNone, IfSome, length};
ghost use Rattle.certificate_file.specs.Fault.{IsRow, name_of_row, NameFault, VoltageFault};
ghost use Rattle.certificate_file.specs.inside.Held.{SaysVoltage};
ghost use Rattle.reading.specs.Fault.{FindsValue};

use crate::error::CertKind;
use crate::voltage::voltage;
use fixed_decimal::texts_have_one_answer;
use outside::Name;

/// The name of the node whose line comes after so many lines, if a node's line comes there.
pub(crate) fn row_name<'n>(names: &'n [Name], lines: usize) -> Option<&'n Name>
    ensures none { IfNone result (¬ IsRow (length names.now) lines) }
    ensures row { IfSome result (λ name. IsRow (length names.now) lines) }
    ensures name { IfSome result (λ name. name.now ≡ name_of_row names.now lines) }
{
    if lines == 0 {
        return None;
    }
    names.get(lines - 1)
}

/// What the name says on the line that comes after so many lines, which is nothing, or why it is refused.
pub(crate) fn name_value(names: &[Name], lines: usize, name: &[u8]) -> Result<i128, CertKind>
    ensures { FindsValue (NameFault names.now lines name.now) (λ value. Unit {0}) result }
{
    match row_name(names, lines) {
        Some(node) if node.bytes() != name => Err(CertKind::WrongNode),
        _ => Ok(0),
    }
}

/// The voltage that the text stands for on the line that comes after so many lines, or why it is refused. On a line of
/// no node it says nothing.
pub(crate) fn voltage_value(names: &[Name], lines: usize, text: &[u8]) -> Result<i128, CertKind>
    ensures { FindsValue (VoltageFault names.now lines text.now) (SaysVoltage names.now lines text.now) result }
{
    if row_name(names, lines).is_none() {
        return Ok(0);
    }
    texts_have_one_answer();
    match voltage(text) {
        Ok(value) => Ok(value),
        Err(error) => Err(CertKind::Number(error)),
    }
}
