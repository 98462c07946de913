//! What the commands so far have named.
ghost use Rattle.std.specs.Prelude.{◌≡◌, IfOk, OnOk, map, None};
ghost use Rattle.pdn_script.specs.Known.{nothing_known, known_after, or_empty, domain_name as name_of_domain, or_last, after_domain, after_grid, after_ring, after_command, after_first};
ghost use Rattle.reading.specs.Word.{heard_token};
ghost use Rattle.pdn_script.specs.Given.{value as value_of};

use crate::given::value;
use crate::names::Names;
use crate::sort::is_end;
use crate::text::Bytes;
use crate::value::Value;
use reading::Heard;
use script_options::{Command, ScriptOption, command_named};
use std::alloc::{AllocError, Global};

/// What the commands so far have named.
#[derive(Drop)]
pub(crate) struct Known<'a> {
    /// The names of the domains.
    pub(crate) domains: Names<'a>,
    /// The nets that are a domain's power.
    pub(crate) powers: Names<'a>,
    /// The nets that are a domain's ground.
    pub(crate) grounds: Names<'a>,
    /// The names of the grids.
    pub(crate) grids: Names<'a>,
    /// The names of the grids that have a ring.
    pub(crate) ringed: Names<'a>,
    pub(crate) last_domain: Option<Bytes<'a>>,
    pub(crate) last_grid: Option<Bytes<'a>>,
    /// A domain has no region.
    pub(crate) regionless: bool,
    /// `pdngen` stands.
    pub(crate) ended: bool,
    /// The command that is open is passed over.
    pub(crate) passing: bool,
}

/// The value, or nothing where it is absent.
pub(crate) fn or_empty<'a>(text: &Option<Bytes<'a>>) -> &'a [u8]
    ensures { result.now ≡ or_empty text.now }
{
    match text {
        Some(text) => text.bytes(),
        None => &[],
    }
}

/// The name of a domain: its own, or that of its region.
pub(crate) fn domain_name<'a>(words: &[Heard<'a, Value>]) -> &'a [u8]
    ensures { result.now ≡ name_of_domain (map heard_token words.now) }
{
    match value(ScriptOption::Name, words) {
        Some(name) => name.bytes(),
        None => match value(ScriptOption::Region, words) {
            Some(region) => region.bytes(),
            None => b"Core",
        },
    }
}

/// The name that a command states, or the last one.
pub(crate) fn or_last<'a>(stated: &Option<Bytes<'a>>, last: &Option<Bytes<'a>>) -> &'a [u8]
    ensures { result.now ≡ or_last stated.now last.now }
{
    match stated {
        Some(name) => name.bytes(),
        None => or_empty(last),
    }
}

impl<'a> Known<'a> {
    pub(crate) fn new(alloc: Global) -> Result<Known<'a>, AllocError>
        ensures { IfOk result (λ known. known ≡ nothing_known) }
    {
        Ok(Known {
            domains: Names::new(alloc)?,
            powers: Names::new(alloc)?,
            grounds: Names::new(alloc)?,
            grids: Names::new(alloc)?,
            ringed: Names::new(alloc)?,
            last_domain: None,
            last_grid: None,
            regionless: false,
            ended: false,
            passing: false,
        })
    }

    /// One more domain.
    fn take_domain(&mut self, words: &[Heard<'a, Value>]) -> Result<(), AllocError>
        ensures { OnOk result (self.new ≡ after_domain self.old (map heard_token words.now)) }
    {
        let name = domain_name(words);
        self.domains.add(name)?;
        self.powers
            .add(or_empty(&value(ScriptOption::Power, words)))?;
        self.grounds
            .add(or_empty(&value(ScriptOption::Ground, words)))?;
        self.last_domain = Some(Bytes::new(name));
        if value(ScriptOption::Region, words).is_none() {
            self.regionless = true;
        }
        Ok(())
    }

    /// One more grid.
    fn take_grid(&mut self, words: &[Heard<'a, Value>]) -> Result<(), AllocError>
        ensures { OnOk result (self.new ≡ after_grid self.old (map heard_token words.now)) }
    {
        let name = or_empty(&value(ScriptOption::Name, words));
        self.grids.add(name)?;
        self.last_grid = Some(Bytes::new(name));
        Ok(())
    }

    /// One more ring.
    fn take_ring(&mut self, words: &[Heard<'a, Value>]) -> Result<(), AllocError>
        ensures { OnOk result (self.new ≡ after_ring self.old (map heard_token words.now)) }
    {
        self.ringed.add(or_last(&value(ScriptOption::Grid, words), &self.last_grid))
    }

    /// One more command.
    fn take_command(
        &mut self,
        command: Command,
        words: &[Heard<'a, Value>],
    ) -> Result<(), AllocError>
        ensures { OnOk result (self.new ≡ after_command self.old command (map heard_token words.now)) }
    {
        match command {
            Command::SetVoltageDomain => self.take_domain(words),
            Command::DefinePdnGrid => self.take_grid(words),
            Command::AddPdnRing => self.take_ring(words),
            Command::Pdngen => {
                self.ended = true;
                Ok(())
            }
            Command::PassedOver => {
                self.passing = true;
                Ok(())
            }
            _ => Ok(()),
        }
    }

    /// One more unit, by its first word.
    fn take_first(
        &mut self,
        first: &Heard<'a, Value>,
        words: &[Heard<'a, Value>],
    ) -> Result<(), AllocError>
        ensures { OnOk result (self.new ≡ after_first self.old (heard_token first.now) (map heard_token words.now)) }
    {
        if self.passing {
            self.passing = !is_end(&first.word);
            return Ok(());
        }
        if is_end(&first.word) {
            return Ok(());
        }
        self.take_command(command_named(first.word.text), words)
    }

    /// One more unit.
    pub(crate) fn take_unit(&mut self, unit: &[Heard<'a, Value>]) -> Result<(), AllocError>
        ensures { OnOk result (self.new ≡ known_after self.old (map heard_token unit.now)) }
    {
        match unit.split_first() {
            None => Ok(()),
            Some((first, words)) => self.take_first(first, words),
        }
    }
}
