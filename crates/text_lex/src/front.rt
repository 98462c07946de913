//! What stands in front of a text: what separates words, or a word.
ghost use Rattle.std.specs.Prelude.{◌≡◌, ◌<◌, ◌∷◌, Bool, true, MatchOption, length};
ghost use Rattle.text_lex.specs.Bytes.{
  quote,
  open_brace,
  is_script as script_mode,
  has_quotes as quote_mode,
  has_comment,
  is_white as white_byte,
  is_plain as plain_byte,
  begins_joined,
  begins_substitution as substitutes,
  has_substitution as substitutes_anywhere,
};
ghost use Rattle.text_lex.specs.Piece.{ClosesNone};
ghost use Rattle.text_lex.specs.declared.word.Mode.{Mode};
ghost use Rattle.text_lex.specs.inside.Front.{ClosesAt, IsLineLen, IsJoinedLen, IsPlainLen, IsSingle, BeginsNoOther, BeginsWithGap, BeginsWithWord, IsInFront};

use crate::word::{Form, LexKind, Mode};
use memchr::memchr;

/// The first word of a text, and what comes after it.
#[derive(Clone, Copy)]
pub(crate) enum Front<'a> {
    /// The text has ended.
    End,
    /// A word, without its quotes or braces, and the text after it.
    Word {
        form: Form,
        text: &'a [u8],
        rest: &'a [u8],
    },
    /// The word in front is refused.
    Refused(LexKind),
}

/// Whether the text is a script.
fn is_script(mode: Mode) -> bool
    ensures { result ≡ script_mode mode }
{
    match mode {
        Mode::LefDef => false,
        Mode::Tcl => true,
        Mode::Lines => false,
    }
}

/// Whether a `"` begins a quoted word.
fn has_quotes(mode: Mode) -> bool
    ensures { result ≡ quote_mode mode }
{
    match mode {
        Mode::LefDef => true,
        Mode::Tcl => true,
        Mode::Lines => false,
    }
}

/// Whether a `#` makes a comment.
fn makes_comment(mode: Mode, command_could_begin: bool) -> bool
    ensures { result ≡ has_comment mode command_could_begin }
{
    match mode {
        Mode::LefDef => true,
        Mode::Tcl => command_could_begin,
        Mode::Lines => false,
    }
}

/// Whether a byte is white space, which separates words.
fn is_white(mode: Mode, byte: u8) -> bool
    ensures { result ≡ white_byte mode byte }
{
    match mode {
        Mode::LefDef => byte == b' ' || byte == b'\t' || byte == b'\r' || byte == b'\n',
        Mode::Tcl | Mode::Lines => byte == b' ' || byte == b'\t' || byte == b'\r',
    }
}

/// Whether a byte may stand in a bare word.
fn is_plain(mode: Mode, byte: u8) -> bool
    ensures { result ≡ plain_byte mode byte }
{
    if is_white(mode, byte) || byte == b'\n' {
        return false;
    }
    if !is_script(mode) {
        return true;
    }
    byte != b';' && byte != b'$' && byte != b'[' && byte != b'\\'
}

/// How many bytes stand before the end of the first line.
fn line_len(text: &[u8]) -> usize
    ensures { IsLineLen text.now result }
{
    match memchr(b'\n', text) {
        Some(at) => at,
        None => text.len(),
    }
}

/// How many bytes a backslash in front takes with the line feed whose lines it joins, or 0 where it joins none.
fn joined_len(text: &[u8]) -> usize
    ensures { IsJoinedLen text.now result }
{
    if text.len() < 2 || text[0] != b'\\' {
        return 0;
    }
    if text[1] == b'\n' {
        return 2;
    }
    if text[1] == b'\r' && text.len() > 2 && text[2] == b'\n' {
        3
    } else {
        0
    }
}

/// How many bytes the white byte, the comment or the joined line in front takes, or 0 where none stands there.
pub(crate) fn gap_len(mode: Mode, command_could_begin: bool, text: &[u8]) -> usize
    ensures { BeginsWithGap mode command_could_begin text.now result }
{
    if text.is_empty() {
        return 0;
    }
    if is_white(mode, text[0]) {
        return 1;
    }
    if text[0] == b'#' && makes_comment(mode, command_could_begin) {
        return line_len(text);
    }
    if is_script(mode) { joined_len(text) } else { 0 }
}

/// Whether what a script would substitute stands in front: a `$`, a `[`, or a backslash that joins no lines.
fn begins_substitution(text: &[u8]) -> bool
    ensures { result ≡ substitutes text.now }
{
    if text.is_empty() {
        return false;
    }
    text[0] == b'$' || text[0] == b'[' || (text[0] == b'\\' && joined_len(text) == 0)
}

/// Whether what a script would substitute stands anywhere.
fn has_substitution(text: &[u8]) -> bool
    ensures { result ≡ substitutes_anywhere text.now }
{
    for i in 0..text.len() {
        if begins_substitution(&text[i..]) {
            return true;
        }
    }
    false
}

/// How many plain bytes stand in front.
pub(crate) fn plain_len(mode: Mode, text: &[u8]) -> usize
    ensures { IsPlainLen mode text.now result }
{
    for (i, byte) in text.iter().enumerate() {
        if !is_plain(mode, *byte) {
            return i;
        }
    }
    text.len()
}

/// Where the brace is closed after whose `{` the text stands.
fn closing_brace(text: &[u8]) -> Option<usize>
    ensures { MatchOption result (ClosesNone text.now) (ClosesAt text.now) }
{
    let mut open: usize = 0;
    for (i, byte) in text.iter().enumerate() {
        if *byte == b'{' {
            open += 1;
        } else if *byte == b'}' {
            if open == 0 {
                return Some(i);
            }
            open -= 1;
        }
    }
    None
}

/// The bare word in front.
fn bare(mode: Mode, text: &[u8]) -> Front<'_>
    requires { BeginsNoOther mode text.now }
    ensures { (command_could_begin : Bool) → BeginsWithWord mode command_could_begin text.now
        → IsInFront mode command_could_begin text.now result }
{
    let len = plain_len(mode, text);
    if is_script(mode) && begins_substitution(&text[len..]) {
        return Front::Refused(LexKind::Substitution);
    }
    Front::Word {
        form: Form::Bare,
        text: &text[..len],
        rest: &text[len..],
    }
}

/// The quoted word after whose first quote the text stands.
fn quoted(mode: Mode, text: &[u8]) -> Front<'_>
    requires { quote_mode mode ≡ true }
    ensures { (command_could_begin : Bool) → IsInFront mode command_could_begin (quote ∷ text.now) result }
{
    let Some(len) = memchr(b'"', text) else {
        return Front::Refused(LexKind::BadString);
    };
    if is_script(mode) && has_substitution(&text[..len]) {
        return Front::Refused(LexKind::Substitution);
    }
    Front::Word {
        form: Form::Quoted,
        text: &text[..len],
        rest: &text[len + 1..],
    }
}

/// The braced word after whose first brace the text stands.
fn braced(text: &[u8]) -> Front<'_>
    ensures { (mode : Mode) (command_could_begin : Bool) → script_mode mode ≡ true
        → IsInFront mode command_could_begin (open_brace ∷ text.now) result }
{
    let Some(len) = closing_brace(text) else {
        return Front::Refused(LexKind::BadString);
    };
    Front::Word {
        form: Form::Braced,
        text: &text[..len],
        rest: &text[len + 1..],
    }
}

/// A word of one byte.
fn single(form: Form, text: &[u8]) -> Front<'_>
    requires { 0 < length text.now }
    ensures { IsSingle form text.now result }
{
    Front::Word {
        form,
        text: &text[..1],
        rest: &text[1..],
    }
}

/// The word in front of a text that begins with no gap.
pub(crate) fn first_word(mode: Mode, text: &[u8]) -> Front<'_>
    ensures { (command_could_begin : Bool) → BeginsWithWord mode command_could_begin text.now
        → IsInFront mode command_could_begin text.now result }
{
    if text.is_empty() {
        return Front::End;
    }
    let first = text[0];
    if first == b'\n' {
        single(Form::Break, text)
    } else if first == b';' && is_script(mode) {
        single(Form::Semicolon, text)
    } else if first == b'"' && has_quotes(mode) {
        quoted(mode, &text[1..])
    } else if first == b'{' && is_script(mode) {
        braced(&text[1..])
    } else {
        bare(mode, text)
    }
}
