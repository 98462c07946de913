//! The line that begins a step.
ghost use Rattle.std.specs.Prelude.{◌≡◌, ◌++◌, OnOk};
ghost use Rattle.step_texts.specs.Texts.{step_line};

use itoa::Buffer;
use std::alloc::AllocError;

/// Adds the line that begins a step.
pub(crate) fn append_step(out: &mut Vec<u8>, step: usize) -> Result<(), AllocError>
    ensures { OnOk result (out.new.items ≡ out.old.items ++ step_line step) }
{
    let mut buffer = Buffer::new();
    out.extend_from_slice(b"step ")?;
    out.extend_from_slice(buffer.format(step as u64).as_bytes())?;
    out.push(b'\n')?;
    Ok(())
}
