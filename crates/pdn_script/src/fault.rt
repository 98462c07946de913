//! The faults that the words of a command show.
ghost use Rattle.std.specs.Prelude.{◌≡◌, [], map, None};
ghost use Rattle.pdn_script.specs.Fault.{refused_kind as kind_of_refused, first_kind, first_command as first_of_command, option_kind as kind_of_option, option_need as kind_of_need, name_kind as kind_of_name, own_name, known_domain, known_grid, has_ring, net_use as use_kind, is_text, lacks as lacking, is_missing as missing, needs as need_stands, end_kind as kind_at_end, domain_end, ring_end, missing_kind, if_so as kind_if, plain_kind as kind_of_plain, ValueKind, AtRole, AtLast};
ghost use Rattle.pdn_script.specs.Given.{if_valued};
ghost use Rattle.pdn_script.specs.inside.Value.{waits_of, SaysValue, SaysRole, SaysAfter};
ghost use Rattle.script_options.specs.Command.{command_named as command_of_text};
ghost use Rattle.reading.specs.Fault.{FindsValue};
ghost use Rattle.reading.specs.Word.{token, heard_token};

use crate::error::ScriptKind;
use crate::given::{option_of, stands, value};
use crate::known::{Known, domain_name, or_empty};
use crate::names::Names;
use crate::sort::{is_end, takes_value};
use crate::text::Bytes;
use crate::value::Value;
use number_place::Refused;
use reading::{Heard, Word};
use script_options::{
    Command, Need, ScriptOption, command_named, form_of, need_of, options_of, value_told,
};

/// The kind of a value that is refused.
fn refused_kind(refused: Refused) -> ScriptKind
    ensures { result ≡ kind_of_refused refused }
{
    match refused {
        Refused::Syntax => ScriptKind::Syntax,
        Refused::Number(error) => ScriptKind::Number(error),
    }
}

/// Why a command of this name may not stand here.
fn first_command(known: &Known<'_>, command: Command) -> Option<ScriptKind>
    ensures { result ≡ first_of_command known.now command }
{
    match command {
        Command::Unknown => Some(ScriptKind::UnknownCommand),
        Command::DefinePdnGrid => match known.last_domain {
            None => Some(ScriptKind::UnknownDomain),
            Some(_) => None,
        },
        Command::AddPdnStripe | Command::AddPdnRing | Command::AddPdnConnect =>
            match known.last_grid {
                None => Some(ScriptKind::UnknownGrid),
                Some(_) => None,
            },
        _ => None,
    }
}

/// Why the first word of a command, which is this one, is refused.
fn first_fault(known: &Known<'_>, first: &Word<'_>, command: Command) -> Option<ScriptKind>
    requires { command ≡ command_of_text first.now.text.now }
    ensures { result ≡ first_kind known.now (token first.now) }
{
    if known.passing || is_end(first) {
        return None;
    }
    if known.ended {
        return Some(ScriptKind::AfterPdngen);
    }
    first_command(known, command)
}

/// What the first word of a command says, or why it is refused.
pub(crate) fn first_value(known: &Known<'_>, first: &Word<'_>) -> Result<Value, ScriptKind>
    ensures { FindsValue (AtLast known.now (token first.now) []) (SaysAfter known.now (token first.now) [] None) result }
{
    let command = command_named(first.text);
    match first_fault(known, first, command) {
        Some(kind) => Err(kind),
        None => Ok(Value::Command(command)),
    }
}

/// Why an option that the command has so far, or has not, is refused.
fn need_fault(need: Option<Need>, stands: bool) -> Option<ScriptKind>
    ensures { result ≡ kind_of_need need stands }
{
    match need {
        None => Some(ScriptKind::UnknownOption),
        Some(_) => {
            if stands {
                Some(ScriptKind::Twice)
            } else {
                None
            }
        }
    }
}

/// Why a word in the place of an option is refused after these words.
fn option_fault(
    command: Command,
    before: &[Heard<'_, Value>],
    option: ScriptOption,
) -> Option<ScriptKind>
    ensures { result ≡ kind_of_option command (map heard_token before.now) option }
{
    match option {
        ScriptOption::LeftOut => Some(ScriptKind::OutOfProfile),
        _ => need_fault(need_of(command, option), stands(option, before)),
    }
}

/// The kind, if it is so.
fn if_so(holds: bool, kind: ScriptKind) -> Option<ScriptKind>
    ensures { result ≡ kind_if holds kind }
{
    if holds { Some(kind) } else { None }
}

/// Why the name of a new domain or grid is refused.
fn own_name_fault<'a>(known: &Known<'a>, command: Command, text: &'a [u8]) -> Option<ScriptKind>
    ensures { result ≡ own_name known.now command text.now }
{
    let stands = match command {
        Command::SetVoltageDomain => known.domains.contains(text),
        Command::DefinePdnGrid => known.grids.contains(text),
        _ => false,
    };
    if_so(stands, ScriptKind::Twice)
}

/// Why the name of a domain is refused that an earlier command has to define.
fn domain_fault<'a>(domains: &Names<'a>, text: &'a [u8]) -> Option<ScriptKind>
    ensures { result ≡ known_domain domains.now text.now }
{
    if domains.contains(text) {
        None
    } else {
        Some(ScriptKind::UnknownDomain)
    }
}

/// Whether a grid with this name may not have one more ring.
fn is_ringed<'a>(known: &Known<'a>, command: Command, text: &'a [u8]) -> bool
    ensures { result ≡ has_ring known.now command text.now }
{
    match command {
        Command::AddPdnRing => known.ringed.contains(text),
        _ => false,
    }
}

/// Why the name of a grid is refused that an earlier command has to define.
fn grid_fault<'a>(known: &Known<'a>, command: Command, text: &'a [u8]) -> Option<ScriptKind>
    ensures { result ≡ known_grid known.now command text.now }
{
    if is_ringed(known, command, text) {
        return Some(ScriptKind::Twice);
    }
    if known.grids.contains(text) {
        None
    } else {
        Some(ScriptKind::UnknownGrid)
    }
}

/// Whether it is this text.
fn is_same(value: &Option<Bytes<'_>>, text: &[u8]) -> bool
    ensures { result ≡ is_text value.now text.now }
{
    match value {
        Some(other) => other.bytes() == text,
        None => false,
    }
}

/// Why a net is refused that is named for the one use, where these nets have the other.
fn net_fault<'a>(
    others: &Names<'a>,
    other: &Option<Bytes<'_>>,
    text: &'a [u8],
) -> Option<ScriptKind>
    ensures { result ≡ use_kind others.now other.now text.now }
{
    if_so(
        others.contains(text) || is_same(other, text),
        ScriptKind::NetUse,
    )
}

/// Why the name in a value is refused, whose form is right.
fn name_fault<'a>(
    known: &Known<'a>,
    command: Command,
    before: &[Heard<'a, Value>],
    option: ScriptOption,
    text: &'a [u8],
) -> Option<ScriptKind>
    ensures { result ≡ kind_of_name known.now command (map heard_token before.now) option text.now }
{
    match option {
        ScriptOption::Name => own_name_fault(known, command, text),
        ScriptOption::VoltageDomains => domain_fault(&known.domains, text),
        ScriptOption::Grid => grid_fault(known, command, text),
        ScriptOption::Power => net_fault(
            &known.grounds,
            &value(ScriptOption::Ground, before),
            text,
        ),
        ScriptOption::Ground => net_fault(&known.powers, &value(ScriptOption::Power, before), text),
        _ => None,
    }
}

/// The number that the value of an option says, or why the value is refused.
fn option_value<'a>(
    known: &Known<'a>,
    command: Command,
    before: &[Heard<'a, Value>],
    option: ScriptOption,
    text: &'a [u8],
) -> Result<Value, ScriptKind>
    ensures { FindsValue (ValueKind known.now command (map heard_token before.now) option text.now)
        (SaysValue known.now command (map heard_token before.now) option text.now) result }
{
    match value_told(form_of(option), text) {
        Err(refused) => Err(refused_kind(refused)),
        Ok(number) => match name_fault(known, command, before, option, text) {
            Some(kind) => Err(kind),
            None => Ok(Value::Number(number)),
        },
    }
}

/// Whether a command that needs an option so much cannot end without it.
fn needs(need: Need, rail: bool) -> bool
    ensures { result ≡ need_stands need rail }
{
    match need {
        Need::Required => true,
        Need::RequiredOfStraps => !rail,
        _ => false,
    }
}

/// Whether the option is missing.
fn is_missing(need: Need, rail: bool, option: ScriptOption, words: &[Heard<'_, Value>]) -> bool
    ensures { result ≡ missing need rail option (map heard_token words.now) }
{
    needs(need, rail) && !stands(option, words)
}

/// Whether the command lacks an option that it needs.
fn lacks(command: Command, words: &[Heard<'_, Value>]) -> bool
    ensures { result ≡ lacking command (map heard_token words.now) }
{
    let rail = stands(ScriptOption::Followpins, words);
    for row in options_of(command) {
        if is_missing(row.need, rail, row.option, words) {
            return true;
        }
    }
    false
}

/// The kind of a missing option.
fn missing_fault(missing: bool) -> Option<ScriptKind>
    ensures { result ≡ missing_kind missing }
{
    if_so(missing, ScriptKind::MissingOption)
}

/// Why a domain may not end here.
fn domain_end_fault<'a>(known: &Known<'a>, words: &[Heard<'a, Value>]) -> Option<ScriptKind>
    ensures { result ≡ domain_end known.now (map heard_token words.now) }
{
    let regionless = value(ScriptOption::Region, words).is_none();
    if regionless
        && value(ScriptOption::Name, words).is_none()
        && known.domains.contains(domain_name(words))
    {
        return Some(ScriptKind::Twice);
    }
    missing_fault((regionless && known.regionless) || lacks(Command::SetVoltageDomain, words))
}

/// Why a ring may not end here.
fn ring_end_fault<'a>(known: &Known<'a>, words: &[Heard<'a, Value>]) -> Option<ScriptKind>
    ensures { result ≡ ring_end known.now (map heard_token words.now) }
{
    if value(ScriptOption::Grid, words).is_none()
        && known.ringed.contains(or_empty(&known.last_grid))
    {
        return Some(ScriptKind::Twice);
    }
    missing_fault(lacks(Command::AddPdnRing, words))
}

/// Why the end of a command is refused.
fn end_fault<'a>(
    known: &Known<'a>,
    command: Command,
    words: &[Heard<'a, Value>],
) -> Option<ScriptKind>
    ensures { result ≡ kind_at_end known.now command (map heard_token words.now) }
{
    match command {
        Command::SetVoltageDomain => domain_end_fault(known, words),
        Command::AddPdnRing => ring_end_fault(known, words),
        _ => missing_fault(lacks(command, words)),
    }
}

/// Why a word is refused that is no value.
fn plain_fault<'a>(
    known: &Known<'a>,
    command: Command,
    before: &[Heard<'a, Value>],
    last: &Word<'a>,
) -> Option<ScriptKind>
    ensures { result ≡ kind_of_plain known.now command (map heard_token before.now) (token last.now) }
{
    if is_end(last) {
        end_fault(known, command, before)
    } else {
        option_fault(command, before, option_of(last))
    }
}

/// What the name of an option says.
fn name_value(option: ScriptOption) -> Value
    ensures { waits_of result ≡ if_valued option }
{
    if takes_value(option) {
        Value::Waits(option)
    } else {
        Value::Nothing
    }
}

/// What a word after the first one says, where this waits for its value, or why it is refused.
pub(crate) fn word_value<'a>(
    known: &Known<'a>,
    command: Command,
    waits: Option<ScriptOption>,
    before: &[Heard<'a, Value>],
    last: &Word<'a>,
) -> Result<Value, ScriptKind>
    ensures { FindsValue (AtRole known.now command (map heard_token before.now) (token last.now) waits)
        (SaysRole known.now command (map heard_token before.now) waits (token last.now)) result }
{
    match waits {
        Some(option) => option_value(known, command, before, option, last.text),
        None => match plain_fault(known, command, before, last) {
            Some(kind) => Err(kind),
            None => Ok(name_value(option_of(last))),
        },
    }
}
