//! The faults that the end of a command shows at an earlier word.
ghost use Rattle.std.specs.Prelude.{◌≡◌, ◌<◌, IfSome, map};
ghost use Rattle.pdn_script.specs.Fault.{end_late, domain_late, grid_late, late_at as late_found, late_role};
ghost use Rattle.reading.specs.Word.{token, heard_token};

use crate::error::ScriptKind;
use crate::given::{macro_at, stands, value, value_at};
use crate::known::{Known, or_empty};
use crate::sort::is_end;
use crate::value::Value;
use reading::{Found, Heard, Word};
use script_options::{Command, ScriptOption};

/// The fault of the word that has so many words after the first one before it.
fn late_at(before: Option<usize>, count: usize, kind: ScriptKind) -> Option<Found<ScriptKind>>
    requires { IfSome before (λ at. at < count) }
    ensures { result ≡ late_found before kind }
{
    match before {
        Some(before) => Some(Found {
            at: before + 1,
            kind,
        }),
        None => None,
    }
}

/// The name of a region that is a domain's name and stands again.
fn domain_late_fault<'a>(known: &Known<'a>, words: &[Heard<'a, Value>]) -> Option<Found<ScriptKind>>
    ensures { result ≡ domain_late known.now (map heard_token words.now) }
{
    if value(ScriptOption::Name, words).is_none()
        && known
            .domains
            .contains(or_empty(&value(ScriptOption::Region, words)))
    {
        late_at(
            value_at(ScriptOption::Region, words),
            words.len(),
            ScriptKind::Twice,
        )
    } else {
        None
    }
}

/// The first option of macro grids on another grid.
fn grid_late_fault(words: &[Heard<'_, Value>]) -> Option<Found<ScriptKind>>
    ensures { result ≡ grid_late (map heard_token words.now) }
{
    if stands(ScriptOption::Macro, words) {
        None
    } else {
        late_at(macro_at(words), words.len(), ScriptKind::UnknownOption)
    }
}

/// The fault at an earlier word that the end of a command shows.
fn end_late_fault<'a>(
    known: &Known<'a>,
    command: Command,
    words: &[Heard<'a, Value>],
) -> Option<Found<ScriptKind>>
    ensures { result ≡ end_late known.now command (map heard_token words.now) }
{
    match command {
        Command::SetVoltageDomain => domain_late_fault(known, words),
        Command::DefinePdnGrid => grid_late_fault(words),
        _ => None,
    }
}

/// The fault at an earlier word that a word after the first one shows, where this waits for its value.
pub(crate) fn late_fault<'a>(
    known: &Known<'a>,
    command: Command,
    waits: Option<ScriptOption>,
    before: &[Heard<'a, Value>],
    last: &Word<'a>,
) -> Option<Found<ScriptKind>>
    ensures { result ≡ late_role known.now command (map heard_token before.now) (token last.now) waits }
{
    match waits {
        Some(_) => None,
        None => {
            if is_end(last) {
                end_late_fault(known, command, before)
            } else {
                None
            }
        }
    }
}
