//! What a word of an entry does there.
ghost use Rattle.std.specs.Prelude.{◌≡◌, ◌&&◌, slice_get, if◌then◌else◌};
ghost use Rattle.def_wiring.specs.Rule.{is_name, is_number};
ghost use Rattle.def_wiring.specs.Sort.{the};
ghost use Rattle.def_wiring.specs.Act.{via_form, is_whole, is_more, takes, kept, passes, asked_act, inner_act, via_act, in_parts, in_part, in_layer, in_width, in_head, in_head_part, in_shape, in_first, in_first_part, in_x, in_y, in_reach, in_close, in_one, in_whole, in_more, in_turned, in_placed, in_lost, in_stage, broken, net_act};

use crate::rule::{is_name, is_number};
use crate::sort::{Sort, is_the};

/// What is asked for in a place of an entry of VIAS.
#[derive(Clone, Copy, Debug)]
pub(crate) enum Ask {
    Key(Sort),
    Name,
    Number,
}

/// What the next word of an entry of SPECIALNETS is.
#[derive(Clone, Copy, Debug)]
pub(crate) enum Stage {
    /// The `+` of a part, the `;`, or a word that is passed over.
    Parts,
    /// What the part is.
    Part,
    /// The layer of a path.
    Layer,
    Width,
    /// After the width: `+`, or the first point.
    Head,
    /// After the `+`: SHAPE.
    HeadPart,
    Shape,
    /// After the shape: the first point.
    First,
    FirstPart,
    /// A coordinate of a point.
    X,
    Y,
    /// The lengthening at the point, or `)`.
    Reach,
    /// The `)` of a point.
    Close,
    /// After one point: another one, or the name of a via.
    One,
    /// After several points.
    More,
    /// After the name of a via.
    Placed,
    /// After its `N`.
    Turned,
    /// After a word that cannot stand there.
    Lost,
}

/// What a unit does.
#[derive(Clone, Copy, Debug)]
pub(crate) enum Act {
    Nothing,
    /// `- name` in VIAS.
    OpensVia,
    /// The word belongs to the form of a generated via; so does a number.
    Keeps,
    Number,
    /// The `;` of a generated via.
    EndsVia,
    /// The word shows that the entry is no generated via: its `;`, or another word.
    Drops,
    Passes,
    /// `- name` in SPECIALNETS.
    OpensNet,
    /// The word only leads to this stage.
    Goes(Stage),
    /// It cannot stand there; a `;` ends the net all the same.
    Misplaced,
    Breaks,
    /// It stands for metal that is not read.
    NoWire,
    /// It gives a via a form that is not read.
    NoVia,
    /// It is the layer of a path, and so on.
    Layer,
    Width,
    Shape,
    X,
    Y,
    Reach,
    /// It ends a point.
    Point,
    /// It is the name of a via.
    Place,
    /// It ends the net.
    EndsNet,
}

/// The words of a generated via after its name, and a `+` after them.
const VIA_FORM: [Ask; 27] = [
    Ask::Key(Sort::Plus),
    Ask::Key(Sort::ViaRule),
    Ask::Name,
    Ask::Key(Sort::Plus),
    Ask::Key(Sort::CutSize),
    Ask::Number,
    Ask::Number,
    Ask::Key(Sort::Plus),
    Ask::Key(Sort::Layers),
    Ask::Name,
    Ask::Name,
    Ask::Name,
    Ask::Key(Sort::Plus),
    Ask::Key(Sort::CutSpacing),
    Ask::Number,
    Ask::Number,
    Ask::Key(Sort::Plus),
    Ask::Key(Sort::Enclosure),
    Ask::Number,
    Ask::Number,
    Ask::Number,
    Ask::Number,
    Ask::Key(Sort::Plus),
    Ask::Key(Sort::RowCol),
    Ask::Number,
    Ask::Number,
    Ask::Key(Sort::Plus),
];

/// Whether so many words are all parts of a generated via.
fn is_whole(words: usize) -> bool
    ensures { result ≡ is_whole words }
{
    words == 22 || words == 26
}

/// Whether so many are all these parts and a `+`.
fn is_more(words: usize) -> bool
    ensures { result ≡ is_more words }
{
    words == 23 || words == 27
}

/// Whether a word of this sort is what is asked for.
fn takes(ask: Ask, sort: Sort) -> bool
    ensures { result ≡ takes ask sort }
{
    match ask {
        Ask::Key(this) => is_the(this, sort),
        Ask::Name => is_name(sort),
        Ask::Number => is_number(sort),
    }
}

fn kept(ask: Ask) -> Act
    ensures { result ≡ kept ask }
{
    match ask {
        Ask::Number => Act::Number,
        _ => Act::Keeps,
    }
}

fn passes(sort: Sort) -> Act
    ensures { result ≡ passes sort }
{
    match sort {
        Sort::Semicolon => Act::Drops,
        _ => Act::Passes,
    }
}

/// What a word does in this place of an entry of VIAS.
fn asked_act(ask: Option<Ask>, sort: Sort) -> Act
    ensures { result ≡ asked_act ask sort }
{
    match ask {
        Some(ask) => {
            if takes(ask, sort) {
                kept(ask)
            } else {
                passes(sort)
            }
        }
        None => passes(sort),
    }
}

/// What is asked for after so many words.
fn ask_at(words: usize) -> Option<Ask>
    ensures { result ≡ slice_get via_form words }
{
    match VIA_FORM.get(words) {
        Some(ask) => Some(*ask),
        None => None,
    }
}

/// Whether a word ends a generated via.
fn ends_via(words: usize, sort: Sort) -> bool
    ensures { result ≡ (is_whole words && the Sort.Semicolon sort) }
{
    is_whole(words) && is_the(Sort::Semicolon, sort)
}

/// Whether a word begins a part of a generated via that is not read.
fn is_unread(words: usize, sort: Sort) -> bool
    ensures { result ≡ (is_more words && the Sort.Unread sort) }
{
    is_more(words) && is_the(Sort::Unread, sort)
}

/// What a word does after so many words of an entry of VIAS, where it does not end a generated via.
fn inner_act(words: usize, sort: Sort) -> Act
    ensures { result ≡ inner_act words sort }
{
    if is_unread(words, sort) {
        Act::NoVia
    } else {
        asked_act(ask_at(words), sort)
    }
}

/// What a word does after so many words of an entry of VIAS.
pub(crate) fn via_act(words: usize, sort: Sort) -> Act
    ensures { result ≡ via_act words sort }
{
    if ends_via(words, sort) {
        Act::EndsVia
    } else {
        inner_act(words, sort)
    }
}

fn in_parts(sort: Sort) -> Act
    ensures { result ≡ in_parts sort }
{
    match sort {
        Sort::Semicolon => Act::EndsNet,
        Sort::Plus => Act::Goes(Stage::Part),
        _ => Act::Goes(Stage::Parts),
    }
}

fn in_part(sort: Sort) -> Act
    ensures { result ≡ in_part sort }
{
    match sort {
        Sort::Routed => Act::Goes(Stage::Layer),
        Sort::Unwired | Sort::Via => Act::NoWire,
        _ => in_parts(sort),
    }
}

/// What a word does where a name is asked for.
fn named(sort: Sort, act: Act) -> Act
    ensures { result ≡ (if is_name sort then act else Act.Misplaced) }
{
    if is_name(sort) { act } else { Act::Misplaced }
}

/// What a word does where a number is asked for.
fn numbered(sort: Sort, act: Act) -> Act
    ensures { result ≡ (if is_number sort then act else Act.Misplaced) }
{
    if is_number(sort) { act } else { Act::Misplaced }
}

fn in_head(sort: Sort) -> Act
    ensures { result ≡ in_head sort }
{
    match sort {
        Sort::Plus => Act::Goes(Stage::HeadPart),
        Sort::Open => Act::Goes(Stage::X),
        Sort::Unwired => Act::NoWire,
        _ => Act::Misplaced,
    }
}

fn in_head_part(sort: Sort) -> Act
    ensures { result ≡ in_head_part sort }
{
    match sort {
        Sort::ShapeWord => Act::Goes(Stage::Shape),
        Sort::Unwired | Sort::Via => Act::NoWire,
        _ => Act::Misplaced,
    }
}

fn in_first(sort: Sort) -> Act
    ensures { result ≡ in_first sort }
{
    match sort {
        Sort::Plus => Act::Goes(Stage::FirstPart),
        Sort::Open => Act::Goes(Stage::X),
        Sort::Unwired => Act::NoWire,
        _ => Act::Misplaced,
    }
}

fn in_first_part(sort: Sort) -> Act
    ensures { result ≡ in_first_part sort }
{
    match sort {
        Sort::Unwired | Sort::Via => Act::NoWire,
        _ => Act::Misplaced,
    }
}

fn in_reach(sort: Sort) -> Act
    ensures { result ≡ in_reach sort }
{
    match sort {
        Sort::Close => Act::Point,
        _ => numbered(sort, Act::Reach),
    }
}

fn in_close(sort: Sort) -> Act
    ensures { result ≡ in_close sort }
{
    match sort {
        Sort::Close => Act::Point,
        _ => Act::Misplaced,
    }
}

fn in_one(sort: Sort) -> Act
    ensures { result ≡ in_one sort }
{
    match sort {
        Sort::Open => Act::Goes(Stage::X),
        Sort::Unwired => Act::NoWire,
        Sort::Plus | Sort::New => Act::Misplaced,
        _ => named(sort, Act::Place),
    }
}

fn in_whole(sort: Sort) -> Act
    ensures { result ≡ in_whole sort }
{
    match sort {
        Sort::New => Act::Goes(Stage::Layer),
        Sort::Plus => Act::Goes(Stage::Part),
        Sort::Semicolon => Act::EndsNet,
        Sort::Unwired => Act::NoWire,
        _ => Act::Misplaced,
    }
}

fn in_more(sort: Sort) -> Act
    ensures { result ≡ in_more sort }
{
    match sort {
        Sort::Open => Act::Goes(Stage::X),
        _ => in_whole(sort),
    }
}

fn in_turned(sort: Sort) -> Act
    ensures { result ≡ in_turned sort }
{
    match sort {
        Sort::Open => Act::NoWire,
        Sort::Do => Act::NoVia,
        _ => in_whole(sort),
    }
}

fn in_placed(sort: Sort) -> Act
    ensures { result ≡ in_placed sort }
{
    match sort {
        Sort::North => Act::Goes(Stage::Turned),
        Sort::Turn => Act::NoVia,
        _ => in_turned(sort),
    }
}

fn in_lost(sort: Sort) -> Act
    ensures { result ≡ in_lost sort }
{
    match sort {
        Sort::Semicolon => Act::EndsNet,
        _ => Act::Goes(Stage::Lost),
    }
}

/// What a word does at this place of an entry of SPECIALNETS.
fn in_stage(stage: Stage, sort: Sort) -> Act
    ensures { result ≡ in_stage stage sort }
{
    match stage {
        Stage::Parts => in_parts(sort),
        Stage::Part => in_part(sort),
        Stage::Layer => named(sort, Act::Layer),
        Stage::Width => numbered(sort, Act::Width),
        Stage::Head => in_head(sort),
        Stage::HeadPart => in_head_part(sort),
        Stage::Shape => named(sort, Act::Shape),
        Stage::First => in_first(sort),
        Stage::FirstPart => in_first_part(sort),
        Stage::X => numbered(sort, Act::X),
        Stage::Y => numbered(sort, Act::Y),
        Stage::Reach => in_reach(sort),
        Stage::Close => in_close(sort),
        Stage::One => in_one(sort),
        Stage::More => in_more(sort),
        Stage::Placed => in_placed(sort),
        Stage::Turned => in_turned(sort),
        Stage::Lost => in_lost(sort),
    }
}

/// The same, where a `;` that cannot stand there ends the net.
fn broken(sort: Sort, act: Act) -> Act
    ensures { result ≡ broken sort act }
{
    match (sort, act) {
        (Sort::Semicolon, Act::Misplaced) => Act::Breaks,
        _ => act,
    }
}

/// What a word does at this place of an entry of SPECIALNETS.
pub(crate) fn net_act(stage: Stage, sort: Sort) -> Act
    ensures { result ≡ net_act stage sort }
{
    broken(sort, in_stage(stage, sort))
}
