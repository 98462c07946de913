//! What the words of a statement say, and the faults that they show.
ghost use Rattle.std.specs.Prelude.{◌≡◌, ◌<◌, ◌≤◌, ◌-◌, ◌^◌, ◌∷◌, ◌++◌, [], IsTrue, length, map};
ghost use Rattle.lef_tech.specs.Fault.{refused_kind, NumberFault, count_kind, MicronsFault, PointFault, ValueFault, TableEndFault, TwiceFault, UnknownFault, OwnNameFault, LastFault, used_found};
ghost use Rattle.lef_tech.specs.declared.state.State.{State as Known};
ghost use Rattle.lef_tech.specs.Sort.{sort_of};
ghost use Rattle.lef_tech.specs.inside.Value.{IsText, SaysLast, used_of, SaysHeard, SaysPlain, TellsBy, TellsUsed};
ghost use Rattle.reading.specs.Fault.{FindsValue};
ghost use Rattle.reading.specs.Word.{Token, token, heard_token};

use crate::error::TechKind;
use crate::number::Quantity;
use crate::question::Question;
use crate::sort::Sort;
use crate::state::State;
use crate::value::{Value, is_at_most, plain, read_number};
use fixed_decimal::DecimalError;
use lef_statements::is_word;
use number_place::Refused;
use reading::{Found, Heard, Word, last_heard, told_at};

/// The kind of a number that is refused.
fn refused_kind(refused: Refused) -> TechKind
    ensures { result ≡ refused_kind refused }
{
    match refused {
        Refused::Syntax => TechKind::Syntax,
        Refused::Number(error) => TechKind::Number(error),
    }
}

/// What a number of this kind says, or why the text is refused.
fn number_value(quantity: Quantity, sort: Sort, text: &[u8]) -> Result<Value, TechKind>
    ensures { FindsValue (NumberFault quantity text.now) (SaysHeard (IsText quantity text.now) sort) result }
{
    match read_number(quantity, sort, text) {
        Ok(value) => Ok(value),
        Err(refused) => Err(refused_kind(refused)),
    }
}

/// The kind of a count that is refused.
fn count_kind(refused: Refused) -> TechKind
    ensures { result ≡ count_kind refused }
{
    match refused {
        Refused::Number(DecimalError::Range) => TechKind::Syntax,
        _ => refused_kind(refused),
    }
}

/// The units of a micrometre, or why they are refused.
fn microns_value(sort: Sort, text: &[u8]) -> Result<Value, TechKind>
    ensures { FindsValue (MicronsFault text.now) (SaysPlain sort) result }
{
    match read_number(Quantity::Microns, sort, text) {
        Ok(value) => Ok(value),
        Err(refused) => Err(count_kind(refused)),
    }
}

/// What a point of a table says, or why it is refused after the point before.
fn point_value(
    quantity: Quantity,
    before: &[u8],
    sort: Sort,
    point: &[u8],
) -> Result<Value, TechKind>
    ensures { FindsValue (PointFault quantity before.now point.now) (SaysHeard (IsText quantity point.now) sort) result }
{
    match (
        read_number(quantity, sort, before),
        read_number(quantity, sort, point),
    ) {
        (_, Err(refused)) => Err(refused_kind(refused)),
        (Err(_), Ok(value)) => Ok(value),
        (Ok(low), Ok(value)) => {
            if is_at_most(value, low) {
                return Err(TechKind::BadTable);
            }
            Ok(value)
        }
    }
}

/// What an entry of a table says, or why it is refused where so many points have none.
fn entry_value(quantity: Quantity, left: usize, sort: Sort, text: &[u8]) -> Result<Value, TechKind>
    ensures { FindsValue (ValueFault quantity left text.now) (SaysHeard (IsText quantity text.now) sort) result }
{
    match read_number(quantity, sort, text) {
        Err(refused) => Err(refused_kind(refused)),
        Ok(value) => {
            if left == 0 {
                return Err(TechKind::BadTable);
            }
            Ok(value)
        }
    }
}

/// The fault of a number that is refused and has this many words before it, where the word after it shows that it is
/// used.
fn used_found(refused: Refused, at: usize) -> Found<TechKind>
    requires { at < 2 ^ 64 - 1 }
    ensures { result ≡ used_found refused at }
{
    match refused {
        Refused::Syntax => Found {
            at: at + 1,
            kind: TechKind::Syntax,
        },
        Refused::Number(error) => Found {
            at,
            kind: TechKind::Number(error),
        },
    }
}

/// What the word says that shows the number before it to be used, or that number's fault.
fn used_value(
    quantity: Quantity,
    before: &[u8],
    at: usize,
    sort: Sort,
) -> Result<Value, Found<TechKind>>
    requires { at < 2 ^ 64 - 1 }
    ensures { TellsUsed quantity before.now at sort result }
{
    match read_number(quantity, sort, before) {
        Ok(value) => Ok(value),
        Err(refused) => Err(used_found(refused, at)),
    }
}

/// What the `;` of a table says, or why it is refused where so many points have no entry.
fn table_end_value(left: usize, sort: Sort) -> Result<Value, TechKind>
    ensures { FindsValue (TableEndFault left) (SaysPlain sort) result }
{
    if left == 0 {
        Ok(plain(sort))
    } else {
        Err(TechKind::BadTable)
    }
}

/// What the name of a new layer or rule says, or why it is refused.
fn new_name_value(stands: bool, sort: Sort) -> Result<Value, TechKind>
    ensures { FindsValue (TwiceFault (IsTrue stands)) (SaysPlain sort) result }
{
    if stands {
        Err(TechKind::Twice)
    } else {
        Ok(plain(sort))
    }
}

/// What the name of a layer says, or why it is refused.
fn layer_value(stands: bool, sort: Sort) -> Result<Value, TechKind>
    ensures { FindsValue (UnknownFault (IsTrue stands)) (SaysPlain sort) result }
{
    if stands {
        Ok(plain(sort))
    } else {
        Err(TechKind::UnknownLayer)
    }
}

/// What the word after `END` says, or why it is refused.
fn own_name_value(is: bool, sort: Sort) -> Result<Value, TechKind>
    ensures { FindsValue (OwnNameFault is) (SaysPlain sort) result }
{
    if is {
        Ok(plain(sort))
    } else {
        Err(TechKind::Syntax)
    }
}

/// What the last word says, of which this is asked, or why it is refused.
fn last_value<'a>(
    state: &State<'a>,
    question: Question,
    last: &Word<'a>,
    sort: Sort,
) -> Result<Value, TechKind>
    ensures { FindsValue (LastFault state.now (token last.now) question)
        (SaysHeard (SaysLast question last.now.text.now) sort) result }
{
    let text = last.text;
    match question {
        Question::Nothing | Question::Used(_) => Ok(plain(sort)),
        Question::Number(quantity) => number_value(quantity, sort, text),
        Question::Microns => microns_value(sort, text),
        Question::Point(quantity) => point_value(quantity, state.place.point.bytes(), sort, text),
        Question::Value(quantity) => entry_value(quantity, state.place.left, sort, text),
        Question::AllValues => table_end_value(state.place.left, sort),
        Question::NewLayer => new_name_value(state.layers.contains(text), sort),
        Question::NewRule => new_name_value(state.rules.contains(text), sort),
        Question::KnownLayer => layer_value(state.layers.contains(text), sort),
        Question::OwnName => own_name_value(is_word(state.place.name.bytes(), last), sort),
    }
}

/// The kind of the number before the last word, which that word shows to be used.
fn used_of(question: Question) -> Option<Quantity>
    ensures { result ≡ used_of question }
{
    match question {
        Question::Used(quantity) => Some(quantity),
        _ => None,
    }
}

/// What the word says that comes after these and shows the number before it to be used, or that number's fault.
fn used_after(
    quantity: Quantity,
    before: &[Heard<'_, Value>],
    sort: Sort,
) -> Result<Value, Found<TechKind>>
    ensures { (state : Known) (word : Token) → sort ≡ sort_of word → length before.now < 6 →
        TellsBy state (Question.Used quantity) (map heard_token before.now ++ word ∷ []) result }
{
    match last_heard(before) {
        Some(last) => {
            used_value(
                quantity,
                last.word.text,
                before.len().saturating_sub(1),
                sort,
            )
        },
        None => Ok(plain(sort)),
    }
}

/// What the word says that comes after these, of which this is asked, or the fault that it shows. Nothing is asked of
/// a seventh word.
pub(crate) fn heard_value<'a>(
    state: &State<'a>,
    question: Question,
    before: &[Heard<'a, Value>],
    word: &Word<'a>,
    sort: Sort,
) -> Result<Value, Found<TechKind>>
    ensures { sort ≡ sort_of (token word.now) → (6 ≤ length before.now → question ≡ Question.Nothing) →
        TellsBy state.now question (map heard_token before.now ++ token word.now ∷ []) result }
{
    match used_of(question) {
        Some(quantity) => used_after(quantity, before, sort),
        None => told_at(before.len(), last_value(state, question, word, sort)),
    }
}
