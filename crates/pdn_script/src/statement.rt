//! What a command says.
ghost use Rattle.std.specs.Prelude.{◌≡◌, [], List, map, IfOk};
ghost use Rattle.pdn_script.specs.Record.{IsDomain, IsGrid, IsStripe, IsRing, IsConnect, SaysCommand, SaysFirst, Says};
ghost use Rattle.pdn_script.specs.Format.{format};
ghost use Rattle.pdn_script.specs.Known.{known_of};
ghost use Rattle.pdn_script.specs.inside.Value.{AreSaid, IsGiven, IsWhole, says};
ghost use Rattle.reading.specs.Grammar.{AreHeard, IsTaken};
ghost use Rattle.reading.specs.Word.{Token, heard_token};
ghost use Rattle.script_options.specs.declared.command.Command.{Command as Asked};
ghost use Rattle.script_options.specs.declared.option.ScriptOption.TheVariants as options;
ghost use Rattle.script_options.specs.Command.{command_named as command_of_text};

use crate::field::{
    maybe_count, maybe_lengths, maybe_name, maybe_names, maybe_start, name, names, numbers,
    start_or_ground,
};
use crate::given::{number, stands, value};
use crate::known::{Known, domain_name, or_last};
use crate::record::{Connect, Domain, GridRule, Ring, Stripe};
use crate::sort::is_end;
use crate::value::Value;
use outside::Name;
use reading::Heard;
use script_options::{Command, Quantity, ScriptOption, command_named, numbers_keep_limits};
use std::alloc::{AllocError, Global};

/// What a command says.
#[derive(Debug, Drop)]
pub(crate) enum Statement {
    Domain(Domain),
    Grid(GridRule),
    Stripe(Stripe),
    Ring(Ring),
    Connect(Connect),
}

/// What `set_voltage_domain` says.
fn domain_of(
    alloc: Global,
    first: &Heard<'_, Value>,
    words: &[Heard<'_, Value>],
) -> Result<Domain, AllocError>
    ensures { IfOk result (λ domain. IsDomain (heard_token first.now) (map heard_token words.now) domain) }
{
    let own_name = Name::new(alloc, domain_name(words))?;
    let power = name(alloc, &value(ScriptOption::Power, words))?;
    let ground = name(alloc, &value(ScriptOption::Ground, words))?;
    let region = maybe_name(alloc, &value(ScriptOption::Region, words))?;
    Ok(Domain {
        name: own_name,
        power,
        ground,
        region,
        place: first.word.place,
    })
}

/// What `define_pdn_grid` says.
fn grid_of<'a>(
    alloc: Global,
    known: &Known<'a>,
    first: &Heard<'a, Value>,
    words: &[Heard<'a, Value>],
) -> Result<GridRule, AllocError>
    ensures { IfOk result (λ grid. (command : Asked) → AreSaid known.now command [] words.now →
        IsGrid known.now (heard_token first.now) (map heard_token words.now) grid) }
{
    let own_name = name(alloc, &value(ScriptOption::Name, words))?;
    let domain = or_last(
        &value(ScriptOption::VoltageDomains, words),
        &known.last_domain,
    );
    let voltage_domains = Name::new(alloc, domain)?;
    let pins = maybe_names(alloc, &value(ScriptOption::Pins, words))?;
    let orient = maybe_names(alloc, &value(ScriptOption::Orient, words))?;
    let halo = maybe_lengths(alloc, &value(ScriptOption::Halo, words))?;
    let cells = maybe_names(alloc, &value(ScriptOption::Cells, words))?;
    let instances = maybe_names(alloc, &value(ScriptOption::Instances, words))?;
    Ok(GridRule {
        name: own_name,
        voltage_domains,
        starts_with: start_or_ground(&value(ScriptOption::StartsWith, words)),
        pins,
        macro_: stands(ScriptOption::Macro, words),
        orient,
        halo,
        cells,
        instances,
        default: stands(ScriptOption::Default, words),
        grid_over_boundary: stands(ScriptOption::GridOverBoundary, words),
        grid_over_pg_pins: stands(ScriptOption::GridOverPgPins, words),
        place: first.word.place,
    })
}

/// What `add_pdn_stripe` says.
fn stripe_of<'a>(
    alloc: Global,
    known: &Known<'a>,
    first: &Heard<'a, Value>,
    words: &[Heard<'a, Value>],
) -> Result<Stripe, AllocError>
    ensures { IfOk result (λ stripe. (command : Asked) → AreSaid known.now command [] words.now →
        IsGiven options.Width (map heard_token words.now) → IsStripe known.now (heard_token first.now) (map heard_token words.now) stripe) }
{
    numbers_keep_limits();
    let layer = name(alloc, &value(ScriptOption::Layer, words))?;
    let own_grid = or_last(&value(ScriptOption::Grid, words), &known.last_grid);
    let grid = Name::new(alloc, own_grid)?;
    let nets = maybe_names(alloc, &value(ScriptOption::Nets, words))?;
    Ok(Stripe {
        layer,
        width: number(ScriptOption::Width, words).unwrap_or(0),
        pitch: number(ScriptOption::Pitch, words),
        grid,
        spacing: number(ScriptOption::Spacing, words),
        offset: number(ScriptOption::Offset, words).unwrap_or(0),
        followpins: stands(ScriptOption::Followpins, words),
        extend_to_core_ring: stands(ScriptOption::ExtendToCoreRing, words),
        extend_to_boundary: stands(ScriptOption::ExtendToBoundary, words),
        number_of_straps: maybe_count(number(ScriptOption::NumberOfStraps, words)),
        starts_with: maybe_start(&value(ScriptOption::StartsWith, words)),
        nets,
        place: first.word.place,
    })
}

/// What `add_pdn_ring` says.
fn ring_of<'a>(
    alloc: Global,
    known: &Known<'a>,
    first: &Heard<'a, Value>,
    words: &[Heard<'a, Value>],
) -> Result<Ring, AllocError>
    ensures { IfOk result (λ ring. (command : Asked) → AreSaid known.now command [] words.now →
        IsRing known.now (heard_token first.now) (map heard_token words.now) ring) }
{
    let layers = names(alloc, &value(ScriptOption::Layers, words))?;
    let widths = numbers(alloc, Quantity::Width, &value(ScriptOption::Widths, words))?;
    let spacings = numbers(
        alloc,
        Quantity::Length,
        &value(ScriptOption::Spacings, words),
    )?;
    let core_offsets = numbers(
        alloc,
        Quantity::Length,
        &value(ScriptOption::CoreOffsets, words),
    )?;
    let own_grid = or_last(&value(ScriptOption::Grid, words), &known.last_grid);
    let grid = Name::new(alloc, own_grid)?;
    let nets = maybe_names(alloc, &value(ScriptOption::Nets, words))?;
    Ok(Ring {
        layers,
        widths,
        spacings,
        core_offsets,
        grid,
        starts_with: maybe_start(&value(ScriptOption::StartsWith, words)),
        nets,
        add_connect: stands(ScriptOption::AddConnect, words),
        place: first.word.place,
    })
}

/// What `add_pdn_connect` says.
fn connect_of<'a>(
    alloc: Global,
    known: &Known<'a>,
    first: &Heard<'a, Value>,
    words: &[Heard<'a, Value>],
) -> Result<Connect, AllocError>
    ensures { IfOk result (λ connect. (command : Asked) → AreSaid known.now command [] words.now →
        IsConnect known.now (heard_token first.now) (map heard_token words.now) connect) }
{
    numbers_keep_limits();
    let layers = names(alloc, &value(ScriptOption::Layers, words))?;
    let own_grid = or_last(&value(ScriptOption::Grid, words), &known.last_grid);
    let grid = Name::new(alloc, own_grid)?;
    Ok(Connect {
        layers,
        grid,
        max_rows: maybe_count(number(ScriptOption::MaxRows, words)),
        max_columns: maybe_count(number(ScriptOption::MaxColumns, words)),
        place: first.word.place,
    })
}

/// What a command says.
fn command_says<'a>(
    alloc: Global,
    known: &Known<'a>,
    first: &Heard<'a, Value>,
    words: &[Heard<'a, Value>],
) -> Result<Option<Statement>, AllocError>
    ensures { IfOk result (λ told. IsWhole known.now (command_of_text first.now.word.text.now) words.now →
        SaysFirst known.now (heard_token first.now) (map heard_token words.now) told) }
{
    match command_named(first.word.text) {
        Command::SetVoltageDomain => Ok(Some(Statement::Domain(domain_of(alloc, first, words)?))),
        Command::DefinePdnGrid => Ok(Some(Statement::Grid(grid_of(alloc, known, first, words)?))),
        Command::AddPdnStripe => Ok(Some(Statement::Stripe(stripe_of(
            alloc, known, first, words,
        )?))),
        Command::AddPdnRing => Ok(Some(Statement::Ring(ring_of(alloc, known, first, words)?))),
        Command::AddPdnConnect => Ok(Some(Statement::Connect(connect_of(
            alloc, known, first, words,
        )?))),
        _ => Ok(None),
    }
}

/// What a unit says.
pub(crate) fn unit_says<'a>(
    alloc: Global,
    known: &Known<'a>,
    unit: &[Heard<'a, Value>],
) -> Result<Option<Statement>, AllocError>
    ensures { IfOk result (λ told. (units : List (List Token)) → known.now ≡ known_of units →
        IsTaken format units (map heard_token unit.now) → AreHeard (says units) [] unit.now →
        Says known.now (map heard_token unit.now) told) }
{
    match unit.split_first() {
        None => Ok(None),
        Some((first, words)) => {
            if known.passing || is_end(&first.word) {
                Ok(None)
            } else {
                command_says(alloc, known, first, words)
            }
        }
    }
}
