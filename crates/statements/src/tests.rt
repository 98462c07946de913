//! Texts whose statements were counted by hand.

use crate::by_hand::count_by_hand;
use crate::fault::Kind;
use crate::read::count_statements;
use outside::Place;
use reading::{Cause, Refusal};
use std::alloc::{AllocError, Global};
use std::process::Abort;
use std::test::Fail;
use text_lex::LexKind;

/// The count, or where the text is refused, and why.
type Found = Result<u64, (u64, u64, Cause<Kind>)>;

fn found(read: Result<u64, Refusal<Kind>>) -> Result<Found, AllocError> {
    match read {
        Ok(count) => Ok(Ok(count)),
        Err(Refusal::At(Place { line, word }, cause)) => Ok(Err((line, word, cause))),
        Err(Refusal::Want) => Err(AllocError),
    }
}

const SYNTAX: Cause<Kind> = Cause::Syntax;

const NOT_WHOLE: Cause<Kind> = Cause::Fault(Kind::NotWhole);

const BAD_STRING: Cause<Kind> = Cause::Lex(LexKind::BadString);

const TEXTS: &[(&str, Found)] = &[
    ("", Ok(0)),
    ("SET a 1 ;", Ok(1)),
    ("SET SET 22 ; SET\n( 333 ; # SET\n", Ok(2)),
    ("SET a 1 ; b", Err((1, 5, SYNTAX))),
    ("SET a 1 ;\nSET ; 1 ;", Err((2, 2, SYNTAX))),
    ("SET a\n ) ;", Err((2, 1, SYNTAX))),
    ("SET a 1", Err((1, 4, SYNTAX))),
    ("SET a 1 ; \"SET\" a 1 ;", Err((1, 5, SYNTAX))),
    ("SET a SET ;", Err((1, 3, NOT_WHOLE))),
    ("SET a \"\" ;", Err((1, 3, NOT_WHOLE))),
    ("SET a -1 SET", Err((1, 3, NOT_WHOLE))),
    ("SET a \"1 ;", Err((1, 3, BAD_STRING))),
];

fn try_all(rt: &impl Abort, alloc: Global, table: &[(&str, Found)]) -> Result<(), Fail> {
    for (text, want) in table {
        let bytes = text.as_bytes();
        assert_eq!(rt;
            found(count_statements(alloc, bytes))?,
            *want,
            "at {text:?}"
        );
        assert_eq!(rt; found(count_by_hand(bytes))?, *want, "by hand at {text:?}");
    }
    Ok(())
}

#[test]
fn counts_and_refusals(rt: HostRuntime) -> Result<(), Fail> {
    try_all(&rt, rt.alloc(), TEXTS)
}
