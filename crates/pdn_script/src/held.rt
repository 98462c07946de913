//! What has been read of a script.
ghost use Rattle.std.specs.Prelude.{◌≡◌, [], IfOk, OnOk};
ghost use Rattle.pdn_script.specs.Record.{no_commands, with_statement};
ghost use Rattle.pdn_script.specs.inside.Held.{script_in, Holds};

use crate::known::Known;
use crate::record::{Connect, Domain, GridRule, Ring, Stripe};
use crate::statement::Statement;
use std::alloc::{AllocError, Global};

/// What the commands so far say.
#[derive(Drop)]
pub(crate) struct Lists {
    pub(crate) domains: Vec<Domain>,
    pub(crate) grids: Vec<GridRule>,
    pub(crate) stripes: Vec<Stripe>,
    pub(crate) rings: Vec<Ring>,
    pub(crate) connects: Vec<Connect>,
}

impl Lists {
    fn new(alloc: Global) -> Lists
        ensures { script_in result ≡ no_commands }
    {
        Lists {
            domains: Vec::new(alloc),
            grids: Vec::new(alloc),
            stripes: Vec::new(alloc),
            rings: Vec::new(alloc),
            connects: Vec::new(alloc),
        }
    }

    /// One more command, if it says something.
    pub(crate) fn add(&mut self, told: Option<Statement>) -> Result<(), AllocError>
        ensures { OnOk result (script_in self.new ≡ with_statement (script_in self.old) told) }
    {
        match told {
            None => {}
            Some(Statement::Domain(domain)) => self.domains.push(domain)?,
            Some(Statement::Grid(grid)) => self.grids.push(grid)?,
            Some(Statement::Stripe(stripe)) => self.stripes.push(stripe)?,
            Some(Statement::Ring(ring)) => self.rings.push(ring)?,
            Some(Statement::Connect(connect)) => self.connects.push(connect)?,
        }
        Ok(())
    }
}

/// What the units so far say and name.
#[derive(Drop)]
pub(crate) struct Held<'a> {
    pub(crate) lists: Lists,
    pub(crate) known: Known<'a>,
    pub(crate) alloc: Global,
}

impl<'a> Held<'a> {
    pub(crate) fn new(alloc: Global) -> Result<Held<'a>, AllocError>
        ensures { IfOk result (λ held. Holds [] held) }
    {
        Ok(Held {
            lists: Lists::new(alloc),
            known: Known::new(alloc)?,
            alloc,
        })
    }
}
