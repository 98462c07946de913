//! The kinds of the refusals of blocks as those of the answers.
ghost use Rattle.std.specs.Prelude.{◌≡◌};
ghost use Rattle.macro_building.specs.Kinds.{blocks_kind};

use answers::TextKind;
use macro_blocks::BlocksKind;

/// The kind of a refusal of blocks; none for want of memory.
pub(crate) fn blocks_kind(kind: BlocksKind) -> Option<TextKind>
    ensures { result ≡ blocks_kind kind }
{
    match kind {
        BlocksKind::Syntax => Some(TextKind::Syntax),
        BlocksKind::BadString => Some(TextKind::BadString),
        BlocksKind::Number(error) => Some(TextKind::Number(error)),
        BlocksKind::Origin => Some(TextKind::Origin),
        BlocksKind::Want => None,
    }
}
