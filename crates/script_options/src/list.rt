//! A word that is a list, which is split at white space.
ghost use Rattle.std.specs.Prelude.{◌≡◌, ◌<◌, ◌≤◌, ◌∷◌, [], false, drop, take, length, IfNone, IfOk, IfSome};
ghost use Rattle.script_options.specs.ListWords.{separates, words_of};
ghost use Rattle.text_lex.specs.Bytes.{begins_joined as joined};

use outside::Name;
use std::alloc::{AllocError, Global};

/// The first word of a list, and what comes after it.
#[derive(Clone, Copy, Debug)]
pub struct Part<'a> {
    pub word: &'a [u8],
    pub rest: &'a [u8],
}

/// Whether a backslash that joins lines stands in front.
fn begins_joined(text: &[u8]) -> bool
    ensures { result ≡ joined text.now }
{
    if text.len() < 2 || text[0] != b'\\' {
        return false;
    }
    text[1] == b'\n' || (text[1] == b'\r' && text.len() > 2 && text[2] == b'\n')
}

/// Whether white space stands in front.
fn separates(text: &[u8]) -> bool
    ensures { result ≡ separates text.now }
{
    if text.is_empty() {
        return false;
    }
    text[0] == b' '
        || text[0] == b'\t'
        || text[0] == b'\r'
        || text[0] == b'\n'
        || begins_joined(text)
}

/// What is left of the list from its first word on.
fn after_white(text: &[u8]) -> &[u8]
    ensures is { words_of result.now ≡ words_of text.now }
    ensures word { separates result.now ≡ false }
    ensures within { length result.now ≤ length text.now }
{
    for at in 0..text.len() {
        if !separates(&text[at..]) {
            return &text[at..];
        }
    }
    &[]
}

/// How many bytes the word in front has.
fn word_len(text: &[u8]) -> usize
    requires some { 0 < length text.now }
    requires word { separates text.now ≡ false }
    ensures is { words_of text.now ≡ take result text.now ∷ words_of (drop result text.now) }
    ensures some { 0 < result }
    ensures within { result ≤ length text.now }
{
    for at in 0..text.len() {
        if separates(&text[at..]) {
            return at;
        }
    }
    text.len()
}

/// The first word of a list, and what comes after it. None where the list has no word.
pub fn first_part(text: &[u8]) -> Option<Part<'_>>
    ensures none { IfNone result (words_of text.now ≡ []) }
    ensures some { IfSome result (λ part. words_of text.now ≡ part.word.now ∷ words_of part.rest.now) }
    ensures shorter { IfSome result (λ part. length part.rest.now < length text.now) }
{
    let start = after_white(text);
    if start.is_empty() {
        return None;
    }
    let len = word_len(start);
    Some(Part {
        word: &start[..len],
        rest: &start[len..],
    })
}

/// The words of a list.
pub fn parts_of(alloc: Global, text: &[u8]) -> Result<Vec<Name>, AllocError>
    ensures { IfOk result (λ names. names.items ≡ words_of text.now) }
{
    let mut names = Vec::new(alloc);
    let mut rest = text;
    loop {
        let Some(part) = first_part(rest) else {
            return Ok(names);
        };
        names.push(Name::new(alloc, part.word)?)?;
        rest = part.rest;
    }
}
