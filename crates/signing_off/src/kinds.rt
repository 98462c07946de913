//! The kinds of the refusals of wiring as those of the answers.
ghost use Rattle.std.specs.Prelude.{◌≡◌};
ghost use Rattle.signing_off.specs.Kinds.{wires_kind};

use answers::TextKind;
use def_wiring::WiresKind;

/// The kind of a refusal of wiring; none for want of memory.
pub(crate) fn wires_kind(kind: WiresKind) -> Option<TextKind>
    ensures { result ≡ wires_kind kind }
{
    match kind {
        WiresKind::Syntax => Some(TextKind::Syntax),
        WiresKind::BadString => Some(TextKind::BadString),
        WiresKind::Number(error) => Some(TextKind::Number(error)),
        WiresKind::Twice => Some(TextKind::Twice),
        WiresKind::UnknownVia => Some(TextKind::UnknownVia),
        WiresKind::WireForm => Some(TextKind::WireForm),
        WiresKind::ViaForm => Some(TextKind::ViaForm),
        WiresKind::Want => None,
    }
}
