//! The table, and the values of options.
use crate::same::{same, same_at};
use fixed_decimal::DecimalError;
use number_place::Refused;
use script_options::*;

const NO_NUMBER: Refused = Refused::Number(DecimalError::NotNumber);

const WIDTHS: ValueForm = ValueForm::Numbers(Quantity::Width, Counts::OneOrTwo);

const OFFSETS: ValueForm = ValueForm::Numbers(Quantity::Length, Counts::OneTwoOrFour);

// Values of options, and why they are refused.
const VALUES: [(ValueForm, &[u8], Option<Refused>); 24] = [
    // One name, which may not be a list of one.
    (ValueForm::Name, b"VDD", None),
    (ValueForm::Name, b"(", None),
    (ValueForm::Name, b" VDD ", Some(Refused::Syntax)),
    (ValueForm::Name, b"", Some(Refused::Syntax)),
    (ValueForm::Name, b";", Some(Refused::Syntax)),
    (ValueForm::Name, b"#VDD", Some(Refused::Syntax)),
    // One number.
    (ValueForm::Number(Quantity::Length), b"-0.0", None),
    (
        ValueForm::Number(Quantity::Length),
        b"-1e-9",
        Some(Refused::Syntax),
    ),
    (
        ValueForm::Number(Quantity::Width),
        b"-0",
        Some(Refused::Syntax),
    ),
    (ValueForm::Number(Quantity::Width), b" 1 ", Some(NO_NUMBER)),
    (
        ValueForm::Number(Quantity::Width),
        b"(",
        Some(Refused::Syntax),
    ),
    (ValueForm::Number(Quantity::Count), b"1000000", None),
    (
        ValueForm::Number(Quantity::Count),
        b"1000001",
        Some(Refused::Syntax),
    ),
    (ValueForm::Number(Quantity::Count), b"2.0", Some(NO_NUMBER)),
    // Lists, split at white space and at joined lines.
    (WIDTHS, b" 1\\\r\n2\\\n", None),
    (WIDTHS, b"1\\2", Some(NO_NUMBER)),
    (WIDTHS, b"1 2 3", Some(Refused::Syntax)),
    (WIDTHS, b"", Some(Refused::Syntax)),
    (WIDTHS, b"x 0", Some(Refused::Syntax)),
    (OFFSETS, b"1 2 3", Some(Refused::Syntax)),
    (OFFSETS, b"x 1e-9 2 3", Some(NO_NUMBER)),
    (ValueForm::Names(Counts::Any), b"", None),
    (ValueForm::Names(Counts::Two), b"a\nb", None),
    (
        ValueForm::Names(Counts::Two),
        b"a \"b\"",
        Some(Refused::Syntax),
    ),
];

#[test]
fn values(rt: HostRuntime) {
    for (form, text, refused) in VALUES {
        same_at(&rt, value_refused(form, text), refused, text);
    }
}

#[test]
fn numbers(rt: HostRuntime) {
    same(&rt, number_in(Quantity::Width, b"0.48"), Some(480_000));
    same(
        &rt,
        number_in(Quantity::Length, b"1e5"),
        Some(100_000_000_000),
    );
    same(&rt, number_in(Quantity::Count, b"12"), Some(12));
    match list_numbers(rt.alloc(), Quantity::Length, b"1 2\n0.5") {
        Ok(values) => same(
            &rt,
            values.as_slice(),
            [1_000_000, 2_000_000, 500_000].as_slice(),
        ),
        Err(_) => panic!(rt; "refused"),
    }
}

#[test]
fn names_of_commands_and_options(rt: HostRuntime) {
    same(&rt, command_named(b"global_connect"), Command::PassedOver);
    same(&rt, command_named(b"Pdngen"), Command::Unknown);
    same(
        &rt,
        option_named(b"-grid_over_pg_pins"),
        ScriptOption::GridOverPgPins,
    );
    same(
        &rt,
        option_named(b"-secondary_power"),
        ScriptOption::LeftOut,
    );
    same(&rt, option_named(b"grid"), ScriptOption::Unknown);
}

#[test]
fn rows_of_the_table(rt: HostRuntime) {
    same(
        &rt,
        need_of(Command::AddPdnStripe, ScriptOption::Width),
        Some(Need::Required),
    );
    same(
        &rt,
        need_of(Command::AddPdnStripe, ScriptOption::Pitch),
        Some(Need::RequiredOfStraps),
    );
    same(
        &rt,
        need_of(Command::DefinePdnGrid, ScriptOption::Halo),
        Some(Need::OfMacroGrids),
    );
    same(
        &rt,
        need_of(Command::AddPdnConnect, ScriptOption::Region),
        None,
    );
    same(&rt, need_of(Command::Pdngen, ScriptOption::Name), None);
}
