//! What has been read of a certificate.
ghost use Rattle.std.specs.Prelude.{◌≡◌, ◌<◌, ◌≤◌, [], ◌∷◌, ◌++◌, ℕ, List, IfOk, IsOk, OnOk, length, unsigned_abs, vec_len, vec_capacity};
ghost use Rattle.certificate_file.specs.Voltage.{limit};
ghost use Rattle.certificate_file.specs.inside.Held.{Holds, value_at};

use reading::Heard;
use std::alloc::{AllocError, Global};

/// What the lines so far say.
#[derive(Drop)]
pub(crate) struct Held {
    /// How many lines there were.
    pub(crate) lines: usize,
    pub(crate) high: Vec<i128>,
    pub(crate) low: Vec<i128>,
}

impl Held {
    /// No lines yet, and room for the voltages of so many nodes.
    pub(crate) fn new(alloc: Global, nodes: usize) -> Result<Held, AllocError>
        ensures { IfOk result (λ held. (names : List (List ℕ)) → length names ≡ nodes → Holds names [] held) }
    {
        Ok(Held {
            lines: 0,
            high: Vec::with_capacity(alloc, nodes)?,
            low: Vec::with_capacity(alloc, nodes)?,
        })
    }
}

/// The voltage that the word says which has so many words of its line before it, and 0 where there is none.
pub(crate) fn value_at(unit: &[Heard<'_, i128>], at: usize) -> i128
    ensures { unsigned_abs (value_at unit.now at) ≤ limit → result ≡ value_at unit.now at }
{
    match unit.get(at) {
        Some(heard) => heard.value,
        None => 0,
    }
}

/// The voltages of one more node. It fails only where there is no room.
pub(crate) fn take_row(held: &mut Held, high: i128, low: i128) -> Result<(), AllocError>
    ensures lines { held.new.lines ≡ held.old.lines }
    ensures high { OnOk result (held.new.high.items ≡ held.old.high.items ++ high ∷ []) }
    ensures low { OnOk result (held.new.low.items ≡ held.old.low.items ++ low ∷ []) }
    ensures high_room { OnOk result (vec_capacity held.old.high ≤ vec_capacity held.new.high) }
    ensures low_room { OnOk result (vec_capacity held.old.low ≤ vec_capacity held.new.low) }
    ensures succeeds { vec_len held.old.high < vec_capacity held.old.high →
        vec_len held.old.low < vec_capacity held.old.low → IsOk result }
{
    held.high.push(high)?;
    held.low.push(low)?;
    Ok(())
}
