ghost use Rattle.std.specs.Prelude.{◌≡◌, ◌<◌, ◌^◌, List, IfOk, length};
ghost use Rattle.lef_tech.specs.Format.{ReadsTech};
ghost use Rattle.lef_tech.specs.Limits.{TechKeeps};
ghost use Rattle.lef_tech.specs.Record.{tech_of, IsTech};
ghost use Rattle.lef_tech.specs.inside.Held.{Holds};
ghost use Rattle.lef_tech.specs.inside.Looks.{StatementsKeep};
ghost use Rattle.reading.specs.Word.{Token};

use crate::error::TechError;
use crate::format::TechFormat;
use crate::held::Held;
use crate::keeping::{is_few, keeps_limits};
use crate::rules::rules_in;
use crate::stack::stack_of;
use crate::statement::Statement;
use crate::tech::Tech;
use entry_list::Entries;
use number_place::values_fit_their_places;
use reading::{ReadError, read_into};
use std::alloc::{AllocError, Global};
use text_lex::Mode;

/// Reads a technology in LEF.
///
/// Lengths have 6 places and the limit 10^11 pm (100 mm), resistances 9 and 10^18 nΩ, densities of wires 12 and 10^18 fA,
/// those of cuts 12 and 10^15 fA, areas of cuts 12 and 10^14. None of them is below 0 but the corners of a `RECT`.
///
/// Errors: the refusal at the earliest word, and there of the first kind, as `TechKind` lists them; `Want` for want of
/// memory.
pub fn read_tech(alloc: Global, text: &[u8]) -> Result<Tech, TechError>
    ensures reads { ReadsTech text.now result }
    ensures keeps { IfOk result TechKeeps }
{
    let Ok(mut held) = Held::new(alloc) else {
        return Err(ReadError::want());
    };
    match read_into(alloc, &TechFormat, &mut held, text, Mode::LefDef) {
        Ok(()) => match tech_in(held) {
            Ok(tech) => Ok(tech),
            Err(_) => Err(ReadError::want()),
        },
        Err(error) => Err(error),
    }
}

/// The technology that has been read.
fn tech_in(held: Held<'_>) -> Result<Tech, AllocError>
    ensures is { (units : List (List Token)) → Holds units held.entry → IfOk result (IsTech units) }
    ensures keeps { (units : List (List Token)) → Holds units held.entry → IfOk result TechKeeps }
{
    values_fit_their_places();
    tech_of(held.alloc, &held.statements)
}

/// The technology of the statements. What no statement says by itself is looked at once more, and where it is not kept the
/// answer is want of memory, which no clause ties to anything; it never comes, since what a text says keeps it, and no text
/// of 2^28 bytes has 2^32 statements.
fn tech_of(alloc: Global, statements: &[Statement]) -> Result<Tech, AllocError>
    ensures is { IfOk result (λ tech. tech ≡ tech_of statements.now) }
    ensures keeps { StatementsKeep statements.now → IfOk result TechKeeps }
{
    if is_few(statements.len()) {
        let tech = gathered(alloc, statements)?;
        if keeps_limits(&tech) {
            return Ok(tech);
        }
    }
    Err(AllocError)
}

/// The layers and rules of the statements.
fn gathered(alloc: Global, statements: &[Statement]) -> Result<Tech, AllocError>
    requires { length statements.now < 2 ^ 32 }
    ensures { IfOk result (λ tech. tech ≡ tech_of statements.now) }
{
    let stack = stack_of(alloc, statements)?;
    Ok(Tech {
        order: Entries::new(stack.order),
        routing: Entries::new(stack.wires),
        cuts: Entries::new(stack.cuts),
        rules: Entries::new(rules_in(alloc, statements)?),
    })
}
