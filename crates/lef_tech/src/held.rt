//! What has been read of a technology.
ghost use Rattle.std.specs.Prelude.{◌≡◌, ◌++◌, [], IfOk, OnOk};
ghost use Rattle.lef_tech.specs.Record.{stated_one};
ghost use Rattle.lef_tech.specs.inside.Held.{Holds};

use crate::state::State;
use crate::statement::Statement;
use std::alloc::{AllocError, Global};

/// What the units so far say, and where the next one stands.
#[derive(Drop)]
pub(crate) struct Held<'a> {
    pub(crate) state: State<'a>,
    /// The statements that say something of a layer or a rule, in the order of the text.
    pub(crate) statements: Vec<Statement>,
    pub(crate) alloc: Global,
}

impl<'a> Held<'a> {
    pub(crate) fn new(alloc: Global) -> Result<Held<'a>, AllocError>
        ensures { IfOk result (λ held. Holds [] held) }
    {
        Ok(Held {
            state: State::new(alloc)?,
            statements: Vec::new(alloc),
            alloc,
        })
    }
}

/// One more statement, if the unit says one.
pub(crate) fn add_told(
    statements: &mut Vec<Statement>,
    told: Option<Statement>,
) -> Result<(), AllocError>
    ensures { OnOk result (statements.new.items ≡ statements.old.items ++ stated_one told) }
{
    if let Some(statement) = told {
        statements.push(statement)?;
    }
    Ok(())
}
