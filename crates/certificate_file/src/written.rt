ghost use Rattle.std.specs.Prelude.{◌≡◌, ◌++◌, IfOk, OnOk, length, codes, ◌<◌, slice_index_or, pos};
ghost use Rattle.fixed_decimal.specs.Printed.{printed};
ghost use Rattle.certificate_file.specs.Written.{row_text, certificate_text};

use fixed_decimal::print;
use outside::Name;
use std::alloc::{AllocError, Global};

/// Adds a blank and a voltage.
fn write_voltage(text: &mut Vec<u8>, voltage: i128) -> Result<(), AllocError>
    ensures { OnOk result (text.new.items ≡ text.old.items ++ (codes " " ++ printed voltage 0)) }
{
    text.push(b' ')?;
    print(text, voltage, 0)?;
    Ok(())
}

/// Adds the line of a node.
fn write_row(text: &mut Vec<u8>, name: &Name, high: i128, low: i128) -> Result<(), AllocError>
    ensures { OnOk result (text.new.items ≡ text.old.items ++ row_text name.now high low) }
{
    text.extend_from_slice(name.bytes())?;
    write_voltage(text, high)?;
    write_voltage(text, low)?;
    text.push(b'\n')?;
    Ok(())
}

/// The voltage of a node in a list.
fn voltage_of(voltages: &[i128], node: usize) -> i128
    requires { node < length voltages.now }
    ensures { result ≡ slice_index_or voltages.now node (pos 0) }
{
    voltages[node]
}

/// Writes the certificate of the nodes with these names: for each node its high and its low voltage in yV.
///
/// It fails only for want of memory.
pub fn certificate_text(
    alloc: Global,
    names: &[Name],
    high: &[i128],
    low: &[i128],
) -> Result<Vec<u8>, AllocError>
    requires high { length high.now ≡ length names.now }
    requires low { length low.now ≡ length names.now }
    ensures { IfOk result (λ text. text.items ≡ certificate_text names.now high.now low.now) }
{
    let mut text = Vec::new(alloc);
    text.extend_from_slice(b"pdn certificate 1\n")?;
    for (node, name) in names.iter().enumerate() {
        write_row(
            &mut text,
            name,
            voltage_of(high, node),
            voltage_of(low, node),
        )?;
    }
    text.extend_from_slice(b"end\n")?;
    Ok(text)
}
