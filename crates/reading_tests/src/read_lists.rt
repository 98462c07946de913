//! The engine reads lists: units of any length.
use crate::lists::{Listed, Lists};
use outside::Place;
use reading::{Cause, Form, Refusal, Word, read_words};
use std::alloc::{AllocError, Global};
use std::test::Fail;

/// A word of this form, in the place with this number.
fn word(form: Form, number: u64) -> Word<'static> {
    Word {
        text: b"w",
        place: Place {
            line: 1,
            word: number,
        },
        form,
    }
}

/// The words of one list after the other, whose numbers of words between the first and the last one are these.
fn words(alloc: Global, middles: &[usize]) -> Result<Vec<Word<'static>>, AllocError> {
    let mut words = Vec::new(alloc);
    let mut number = 1u64;
    for middle in middles {
        words.push(word(Form::Quoted, number))?;
        for _ in 0..*middle {
            number = number.wrapping_add(1);
            words.push(word(Form::Bare, number))?;
        }
        words.push(word(Form::Braced, number.wrapping_add(1)))?;
        number = number.wrapping_add(2);
    }
    Ok(words)
}

/// How many words the longest unit has.
fn longest<'a>(alloc: Global, words: &'a [Word<'a>]) -> Result<usize, Refusal<u8>> {
    let mut source = Listed {
        words,
        told: 0,
        ended: false,
    };
    let mut longest = 0;
    read_words(alloc, &Lists, &mut longest, &mut source)?;
    Ok(longest)
}

#[test]
fn units_of_any_length(rt: HostRuntime) -> Result<(), Fail> {
    let alloc = rt.alloc();
    assert_eq!(rt; longest(alloc, &[]), Ok(1));
    assert_eq!(rt; longest(alloc, &words(alloc, &[0])?), Ok(2));
    assert_eq!(rt; longest(alloc, &words(alloc, &[1, 4, 3])?), Ok(6));
    assert_eq!(rt; longest(alloc, &words(alloc, &[0, 98, 5])?), Ok(100));
    assert_eq!(rt; longest(alloc, &words(alloc, &[5000])?), Ok(5002));
    Ok(())
}

#[test]
fn a_long_unit_that_goes_wrong(rt: HostRuntime) -> Result<(), Fail> {
    let alloc = rt.alloc();
    let list = words(alloc, &[98])?;
    assert_eq!(rt;
        longest(alloc, list.get(..99).unwrap_or(&[])),
        Err(Refusal::At(Place { line: 2, word: 1 }, Cause::Syntax))
    );
    assert_eq!(rt;
        longest(alloc, list.get(1..).unwrap_or(&[])),
        Err(Refusal::At(Place { line: 1, word: 2 }, Cause::Syntax))
    );
    let mut twice = words(alloc, &[98])?;
    if let Some(middle) = twice.get_mut(70) {
        *middle = word(Form::Quoted, 71);
    }
    assert_eq!(rt;
        longest(alloc, &twice),
        Err(Refusal::At(Place { line: 1, word: 71 }, Cause::Syntax))
    );
    Ok(())
}
