//! The certificate of all steps.
ghost use Rattle.std.specs.Prelude.{◌≡◌, ◌++◌, ℤ, List, length, All, IfOk, OnOk};
ghost use Rattle.step_texts.specs.Texts.{certified_step, steps_certificate};

use crate::step::append_step;
use certificate_file::certificate_text;
use entry_list::Entries;
use outside::Name;
use std::alloc::{AllocError, Global};

/// The certificate of all steps, from step 0 on: for each one the line `step <t>` and the certificate of its high and its
/// low list.
///
/// There is one list of each kind for each step, with one voltage for each name, in yoctovolts.
/// Error: want of memory.
pub fn certificate_of_steps(
    alloc: Global,
    names: &[Name],
    high: &[Entries<i128>],
    low: &[Entries<i128>],
) -> Result<Vec<u8>, AllocError>
    requires steps { length low.now ≡ length high.now }
    requires high { All (λ (list : List ℤ). length list ≡ length names.now) high.now }
    requires low { All (λ (list : List ℤ). length list ≡ length names.now) low.now }
    ensures { IfOk result (λ text. text.items ≡ steps_certificate names.now high.now low.now) }
{
    let mut text = Vec::new(alloc);
    for (step, list) in high.iter().enumerate() {
        append_certificate(
            alloc,
            &mut text,
            names,
            step,
            list.as_slice(),
            low[step].as_slice(),
        )?;
    }
    Ok(text)
}

/// Adds a step of the certificate.
fn append_certificate(
    alloc: Global,
    text: &mut Vec<u8>,
    names: &[Name],
    step: usize,
    high: &[i128],
    low: &[i128],
) -> Result<(), AllocError>
    requires high { length high.now ≡ length names.now }
    requires low { length low.now ≡ length names.now }
    ensures { OnOk result (text.new.items ≡ text.old.items ++ certified_step names.now (step, (high.now, low.now))) }
{
    let certificate = certificate_text(alloc, names, high, low)?;
    append_step(text, step)?;
    text.extend_from_slice(&certificate)?;
    Ok(())
}
