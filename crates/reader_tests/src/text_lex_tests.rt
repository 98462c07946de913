//! Texts whose words, forms and places were counted by hand.
use crate::same::{same, same_at};
use std::alloc::Global;
use std::fmt::Write;
use std::process::Abort;
use std::test::Fail;
use text_lex::*;

/// The words of a text in one line: for each its place, form and bytes, and then the end or the refusal.
fn told(rt: &impl Abort, alloc: Global, text: &[u8], mode: Mode) -> Result<String, Fail> {
    let mut out = String::new(alloc);
    let mut words = Words::new(text, mode);
    for _ in 0..=text.len() {
        let place = words.place();
        match words.next() {
            Ok(Some(word)) => {
                same(rt, word.place, place);
                let bytes = std::str::from_utf8(word.text)?;
                write!(out, "{}:{} ", place.line, place.word)?;
                match word.form {
                    Form::Bare => write!(out, "bare <{bytes}>, ")?,
                    Form::Quoted => write!(out, "quoted <{bytes}>, ")?,
                    Form::Braced => write!(out, "braced <{bytes}>, ")?,
                    Form::Break => write!(out, "break, ")?,
                    Form::Semicolon => write!(out, "semicolon, ")?,
                }
            }
            Ok(None) => {
                assert!(rt; matches!(words.next(), Ok(None)));
                write!(out, "{}:{} end", place.line, place.word)?;
                return Ok(out);
            }
            Err(refusal) => {
                same(rt, refusal.place, place);
                for _ in 0..3 {
                    match words.next() {
                        Err(again) => same(rt, again, refusal),
                        Ok(_) => return Err(Fail::from("went on after a refusal")),
                    }
                }
                same(rt, words.place(), place);
                write!(out, "{}:{} {:?}", place.line, place.word, refusal.kind)?;
                return Ok(out);
            }
        }
    }
    Ok(out)
}

/// Splits each text of a table, and compares what is told of its words.
fn try_all(rt: &impl Abort, alloc: Global, mode: Mode, table: &[(&str, &str)]) -> Result<(), Fail> {
    for (text, want) in table {
        let found = told(rt, alloc, text.as_bytes(), mode)?;
        same_at(rt, found.as_str(), *want, text);
    }
    Ok(())
}

const LEF_DEF: &[(&str, &str)] = &[
    ("", "1:1 end"),
    (" \t\r", "1:1 end"),
    ("\n", "2:1 end"),
    ("\n\n\n", "4:1 end"),
    ("a", "1:1 bare <a>, 1:2 end"),
    (
        "LAYER metal1",
        "1:1 bare <LAYER>, 1:2 bare <metal1>, 1:3 end",
    ),
    (
        "  a\tb\rc ",
        "1:1 bare <a>, 1:2 bare <b>, 1:3 bare <c>, 1:4 end",
    ),
    ("a\nb", "1:1 bare <a>, 2:1 bare <b>, 2:2 end"),
    ("a\r\nb\r\n", "1:1 bare <a>, 2:1 bare <b>, 3:1 end"),
    ("a ;", "1:1 bare <a>, 1:2 bare <;>, 1:3 end"),
    ("a;b", "1:1 bare <a;b>, 1:2 end"),
    ("# c", "1:1 end"),
    ("# c\n", "2:1 end"),
    ("a # b c\nd", "1:1 bare <a>, 2:1 bare <d>, 2:2 end"),
    ("a#b", "1:1 bare <a#b>, 1:2 end"),
    ("a #", "1:1 bare <a>, 1:2 end"),
    ("#\n#\n", "3:1 end"),
    ("# \" \na", "2:1 bare <a>, 2:2 end"),
    ("\"a\"", "1:1 quoted <a>, 1:2 end"),
    ("\"\"", "1:1 quoted <>, 1:2 end"),
    ("\"a b\" c", "1:1 quoted <a b>, 1:2 bare <c>, 1:3 end"),
    ("\"a\"b", "1:1 quoted <a>, 1:2 bare <b>, 1:3 end"),
    ("\"a\"\"b\"", "1:1 quoted <a>, 1:2 quoted <b>, 1:3 end"),
    ("a\"b c\"", "1:1 bare <a\"b>, 1:2 bare <c\">, 1:3 end"),
    (
        "x \"a\nb\nc\" y z",
        "1:1 bare <x>, 1:2 quoted <a\nb\nc>, 3:1 bare <y>, 3:2 bare <z>, 3:3 end",
    ),
    (
        "x \"a\n\" \"b\"",
        "1:1 bare <x>, 1:2 quoted <a\n>, 2:1 quoted <b>, 2:2 end",
    ),
    ("\"a # b\"", "1:1 quoted <a # b>, 1:2 end"),
    ("\"a\"# b\nc", "1:1 quoted <a>, 2:1 bare <c>, 2:2 end"),
    ("a \"b", "1:1 bare <a>, 1:2 BadString"),
    ("\"", "1:1 BadString"),
    ("a\n\"b\nc ;", "1:1 bare <a>, 2:1 BadString"),
    ("\"a\\\"b", "1:1 quoted <a\\>, 1:2 bare <b>, 1:3 end"),
    (
        "$x [y] {z} \\",
        "1:1 bare <$x>, 1:2 bare <[y]>, 1:3 bare <{z}>, 1:4 bare <\\>, 1:5 end",
    ),
    ("a\\\nb", "1:1 bare <a\\>, 2:1 bare <b>, 2:2 end"),
    (
        "( 0 -7 )",
        "1:1 bare <(>, 1:2 bare <0>, 1:3 bare <-7>, 1:4 bare <)>, 1:5 end",
    ),
    ("a\x0cb\x0bc", "1:1 bare <a\x0cb\x0bc>, 1:2 end"),
];

const TCL: &[(&str, &str)] = &[
    ("", "1:1 end"),
    (" \t\r", "1:1 end"),
    ("\n", "1:1 break, 2:1 end"),
    ("\n\n", "1:1 break, 2:1 break, 3:1 end"),
    ("pdngen\n", "1:1 bare <pdngen>, 1:2 break, 2:1 end"),
    (
        "a b\r\nc",
        "1:1 bare <a>, 1:2 bare <b>, 1:3 break, 2:1 bare <c>, 2:2 end",
    ),
    ("a;b", "1:1 bare <a>, 1:2 semicolon, 1:3 bare <b>, 1:4 end"),
    (" ; ;\n", "1:1 semicolon, 1:2 semicolon, 1:3 break, 2:1 end"),
    ("pdngen;# x", "1:1 bare <pdngen>, 1:2 semicolon, 1:3 end"),
    (
        "pdngen # x",
        "1:1 bare <pdngen>, 1:2 bare <#>, 1:3 bare <x>, 1:4 end",
    ),
    (
        "# a ; b $c [d] {e \"f \\\nx",
        "1:1 break, 2:1 bare <x>, 2:2 end",
    ),
    ("# a", "1:1 end"),
    (" # a\n#\nb", "1:1 break, 2:1 break, 3:1 bare <b>, 3:2 end"),
    ("a#b", "1:1 bare <a#b>, 1:2 end"),
    ("\\\n# a\nb", "2:1 break, 3:1 bare <b>, 3:2 end"),
    ("a \\\nb", "1:1 bare <a>, 2:1 bare <b>, 2:2 end"),
    ("a\\\nb", "1:1 bare <a>, 2:1 bare <b>, 2:2 end"),
    (
        "a \\\r\nb c",
        "1:1 bare <a>, 2:1 bare <b>, 2:2 bare <c>, 2:3 end",
    ),
    (
        "a \\\n # b",
        "1:1 bare <a>, 2:1 bare <#>, 2:2 bare <b>, 2:3 end",
    ),
    ("a \\", "1:1 bare <a>, 1:2 Substitution"),
    ("a\\ b", "1:1 Substitution"),
    ("a \\\rb", "1:1 bare <a>, 1:2 Substitution"),
    ("pdngen $x", "1:1 bare <pdngen>, 1:2 Substitution"),
    ("a;b[c", "1:1 bare <a>, 1:2 semicolon, 1:3 Substitution"),
    ("a{$x}", "1:1 Substitution"),
    ("a{b c}", "1:1 bare <a{b>, 1:2 bare <c}>, 1:3 end"),
    ("{a {b} c}", "1:1 braced <a {b} c>, 1:2 end"),
    ("{a}b{c}", "1:1 braced <a>, 1:2 bare <b{c}>, 1:3 end"),
    ("{}{{}}", "1:1 braced <>, 1:2 braced <{}>, 1:3 end"),
    ("{^VDD$}", "1:1 braced <^VDD$>, 1:2 end"),
    ("{[a] \\ ; # \" $}", "1:1 braced <[a] \\ ; # \" $>, 1:2 end"),
    ("{a", "1:1 BadString"),
    ("a {b {c} d\n", "1:1 bare <a>, 1:2 BadString"),
    ("{a\\}", "1:1 braced <a\\>, 1:2 end"),
    ("{a\\{b}", "1:1 BadString"),
    ("} ]", "1:1 bare <}>, 1:2 bare <]>, 1:3 end"),
    (
        "\"a b\";\"\"",
        "1:1 quoted <a b>, 1:2 semicolon, 1:3 quoted <>, 1:4 end",
    ),
    ("\"a\"b", "1:1 quoted <a>, 1:2 bare <b>, 1:3 end"),
    ("\"a\"$b", "1:1 quoted <a>, 1:2 Substitution"),
    ("\"a $b\"", "1:1 Substitution"),
    ("\"a $b", "1:1 BadString"),
    ("\"a\\\nb\" c", "1:1 quoted <a\\\nb>, 2:1 bare <c>, 2:2 end"),
    ("\"a\\\"", "1:1 Substitution"),
    ("\"a {b\" }", "1:1 quoted <a {b>, 1:2 bare <}>, 1:3 end"),
    (
        "\"a\nb\nc\"\nd",
        "1:1 quoted <a\nb\nc>, 3:1 break, 4:1 bare <d>, 4:2 end",
    ),
    (
        "{a\nb} c\n",
        "1:1 braced <a\nb>, 2:1 bare <c>, 2:2 break, 3:1 end",
    ),
    ("{m1 \\\n m4}", "1:1 braced <m1 \\\n m4>, 2:1 end"),
    (
        "{a}# b",
        "1:1 braced <a>, 1:2 bare <#>, 1:3 bare <b>, 1:4 end",
    ),
    (
        "\"# b\" {# c}",
        "1:1 quoted <# b>, 1:2 braced <# c>, 1:3 end",
    ),
    (
        "a\"b c\"\x0c",
        "1:1 bare <a\"b>, 1:2 bare <c\"\x0c>, 1:3 end",
    ),
];

const LINES: &[(&str, &str)] = &[
    ("", "1:1 end"),
    (" \t\r", "1:1 end"),
    ("\n", "1:1 break, 2:1 end"),
    ("\n\n\n", "1:1 break, 2:1 break, 3:1 break, 4:1 end"),
    (" \n \n", "1:1 break, 2:1 break, 3:1 end"),
    ("\r\n", "1:1 break, 2:1 end"),
    ("a", "1:1 bare <a>, 1:2 end"),
    ("a\n", "1:1 bare <a>, 1:2 break, 2:1 end"),
    (
        "a b\n c\td\r\n",
        "1:1 bare <a>, 1:2 bare <b>, 1:3 break, 2:1 bare <c>, 2:2 bare <d>, 2:3 break, 3:1 end",
    ),
    (
        "a\n\n b",
        "1:1 bare <a>, 1:2 break, 2:1 break, 3:1 bare <b>, 3:2 end",
    ),
    ("\ta\t\tb\t", "1:1 bare <a>, 1:2 bare <b>, 1:3 end"),
    ("\ra\rb", "1:1 bare <a>, 1:2 bare <b>, 1:3 end"),
    (
        "* pdn netlist 1\n",
        "1:1 bare <*>, 1:2 bare <pdn>, 1:3 bare <netlist>, 1:4 bare <1>, 1:5 break, 2:1 end",
    ),
    ("*a\n", "1:1 bare <*a>, 1:2 break, 2:1 end"),
    (
        "R1 p n 1k\n.end\n",
        "1:1 bare <R1>, 1:2 bare <p>, 1:3 bare <n>, 1:4 bare <1k>, 1:5 break, 2:1 bare <.end>, 2:2 break, 3:1 end",
    ),
    (
        "R1 p#2 #3 1",
        "1:1 bare <R1>, 1:2 bare <p#2>, 1:3 bare <#3>, 1:4 bare <1>, 1:5 end",
    ),
    (
        "+ 5\n+5",
        "1:1 bare <+>, 1:2 bare <5>, 1:3 break, 2:1 bare <+5>, 2:2 end",
    ),
    ("# a\n", "1:1 bare <#>, 1:2 bare <a>, 1:3 break, 2:1 end"),
    ("a # b", "1:1 bare <a>, 1:2 bare <#>, 1:3 bare <b>, 1:4 end"),
    (
        "supply VDD#\n#",
        "1:1 bare <supply>, 1:2 bare <VDD#>, 1:3 break, 2:1 bare <#>, 2:2 end",
    ),
    (
        "pad VDD m4 3 0",
        "1:1 bare <pad>, 1:2 bare <VDD>, 1:3 bare <m4>, 1:4 bare <3>, 1:5 bare <0>, 1:6 end",
    ),
    ("\"a b\"", "1:1 bare <\"a>, 1:2 bare <b\">, 1:3 end"),
    ("\"a\nb", "1:1 bare <\"a>, 1:2 break, 2:1 bare <b>, 2:2 end"),
    ("\"", "1:1 bare <\">, 1:2 end"),
    ("{a b}", "1:1 bare <{a>, 1:2 bare <b}>, 1:3 end"),
    ("{", "1:1 bare <{>, 1:2 end"),
    ("a;b ;", "1:1 bare <a;b>, 1:2 bare <;>, 1:3 end"),
    ("$x [y]", "1:1 bare <$x>, 1:2 bare <[y]>, 1:3 end"),
    ("a\\\nb", "1:1 bare <a\\>, 1:2 break, 2:1 bare <b>, 2:2 end"),
    (
        "a \\\r\nb",
        "1:1 bare <a>, 1:2 bare <\\>, 1:3 break, 2:1 bare <b>, 2:2 end",
    ),
    ("a\x0cb\x0b\x00", "1:1 bare <a\x0cb\x0b\x00>, 1:2 end"),
    ("5\u{b5}A", "1:1 bare <5\u{b5}A>, 1:2 end"),
];

#[test]
fn words_of_lef_and_def(rt: HostRuntime) -> Result<(), Fail> {
    try_all(&rt, rt.alloc(), Mode::LefDef, LEF_DEF)
}

#[test]
fn words_of_scripts(rt: HostRuntime) -> Result<(), Fail> {
    try_all(&rt, rt.alloc(), Mode::Tcl, TCL)
}

#[test]
fn words_of_lines(rt: HostRuntime) -> Result<(), Fail> {
    try_all(&rt, rt.alloc(), Mode::Lines, LINES)
}
