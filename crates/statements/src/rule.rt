//! The rules of the units.
use crate::sort::Sort;
use reading::Rule::{self, One, Or, Other, Then};

const SET: Rule<'static, Sort> = One(&[Sort::Set]);

const SEMICOLON: Rule<'static, Sort> = One(&[Sort::Semicolon]);

const END: Rule<'static, Sort> = One(&[Sort::TextEnd]);

const NAME: Rule<'static, Sort> = Other(&[Sort::Semicolon, Sort::TextEnd]);

const NUMBER: Rule<'static, Sort> = Other(&[Sort::Semicolon, Sort::Bracket, Sort::TextEnd]);

/// `number ;`.
const VALUE: Rule<'static, Sort> = Then(&NUMBER, &SEMICOLON);
/// `name number ;`.
const ASSIGNED: Rule<'static, Sort> = Then(&NAME, &VALUE);
/// `SET name number ;`.
const STATEMENT: Rule<'static, Sort> = Then(&SET, &ASSIGNED);
/// A statement or the end of the text.
pub(crate) const UNIT: Rule<'static, Sort> = Or(&STATEMENT, &END);
