//! The ends of stacks.
ghost use Rattle.std.specs.Prelude.{◌≡◌, All, IfErr, OnOk};
ghost use Rattle.wire_stacks.specs.Stacks.{HasEnds};
ghost use Rattle.wire_stacks.specs.declared.made.Made.{Made};
ghost use Rattle.wire_stacks.specs.inside.Ends.{IsFirstMadeOff, OneIsOff};

use crate::error::OffError;
use crate::made::Made;
use wire_pieces::CentreLines;

// Refuses the first stack with an end that lies on no piece.
pub(crate) fn check_ends(made: &[Made], lines: &CentreLines) -> Result<(), OffError>
    ensures ends { OnOk result (All (λ (one : Made). HasEnds lines.now one.at) made.now) }
    ensures refused { IfErr result (IsFirstMadeOff lines.now made.now) }
{
    for one in made {
        check_one(one, lines)?;
    }
    Ok(())
}

// Refuses a stack whose lower end lies on no piece, and then one whose upper end does.
fn check_one(one: &Made, lines: &CentreLines) -> Result<(), OffError>
    ensures ends { OnOk result (HasEnds lines.now one.now.at) }
    ensures refused { IfErr result (OneIsOff lines.now one.now) }
{
    let at = &one.at;
    if !lines.have(at.net, at.stack.from, at.x, at.y) {
        return Err(OffError::ViaOff(one.low, at.x, at.y));
    }
    if !lines.have(at.net, at.stack.to, at.x, at.y) {
        return Err(OffError::ViaOff(one.high, at.x, at.y));
    }
    Ok(())
}
