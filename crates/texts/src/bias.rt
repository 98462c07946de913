//! Bias files: `supply LINE NET VOLTS`, `droplimit LINE NET VOLTS`, `pad LINE NET LAYER X Y`, `cell LINE NAME LOW HIGH`
//! and `instance LINE NAME LOW HIGH`, one list after the other.
use crate::line::{add_number, add_word, begin, end, number_kind, refusal};
use crate::{Printed, RECORD};
use bias_file::{Amps, Bias, BiasKind, DropLimit, PadAt, Supply, read_bias};
use std::alloc::{AllocError, Global};

/// The kind of a refusal, as it is printed. Want of memory is no kind.
fn kind_text(kind: BiasKind) -> Option<&'static [u8]> {
    match kind {
        BiasKind::Syntax => Some(b"Syntax"),
        BiasKind::Number(error) => Some(number_kind(error)),
        BiasKind::Falling => Some(b"Falling"),
        BiasKind::Twice => Some(b"Twice"),
        BiasKind::Want => None,
    }
}

fn add_supply(out: &mut Vec<u8>, supply: &Supply) -> Result<(), AllocError> {
    begin(out, b"supply")?;
    add_number(out, i128::from(supply.line))?;
    add_word(out, supply.net.bytes())?;
    add_number(out, supply.volts)?;
    end(out)
}

fn add_drop(out: &mut Vec<u8>, limit: &DropLimit) -> Result<(), AllocError> {
    begin(out, b"droplimit")?;
    add_number(out, i128::from(limit.line))?;
    add_word(out, limit.net.bytes())?;
    add_number(out, limit.volts)?;
    end(out)
}

fn add_pad(out: &mut Vec<u8>, pad: &PadAt) -> Result<(), AllocError> {
    begin(out, b"pad")?;
    add_number(out, i128::from(pad.line))?;
    add_word(out, pad.net.bytes())?;
    add_word(out, pad.layer.bytes())?;
    add_number(out, i128::from(pad.x))?;
    add_number(out, i128::from(pad.y))?;
    end(out)
}

fn add_amps(out: &mut Vec<u8>, first: &[u8], amps: &Amps) -> Result<(), AllocError> {
    begin(out, first)?;
    add_number(out, i128::from(amps.line))?;
    add_word(out, amps.name.bytes())?;
    add_number(out, i128::from(amps.low))?;
    add_number(out, i128::from(amps.high))?;
    end(out)
}

fn record(alloc: Global, bias: &Bias) -> Result<Vec<u8>, AllocError> {
    let mut out = Vec::new(alloc);
    for supply in bias.supplies.as_slice() {
        add_supply(&mut out, supply)?;
    }
    for limit in bias.drops.as_slice() {
        add_drop(&mut out, limit)?;
    }
    for pad in bias.pads.as_slice() {
        add_pad(&mut out, pad)?;
    }
    for amps in bias.cells.as_slice() {
        add_amps(&mut out, b"cell", amps)?;
    }
    for amps in bias.instances.as_slice() {
        add_amps(&mut out, b"instance", amps)?;
    }
    Ok(out)
}

/// What is printed of a bias file.
pub(crate) fn told(alloc: Global, text: &[u8]) -> Result<Printed, AllocError> {
    match read_bias(alloc, text) {
        Ok(bias) => Ok(Printed {
            text: record(alloc, &bias)?,
            status: RECORD,
        }),
        Err(error) => refusal(alloc, error.place, kind_text(error.kind)),
    }
}
