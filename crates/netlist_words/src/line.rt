//! The lines of a text.
ghost use Rattle.netlist_words.specs.inside.Left.{lines_in, CanCountLines, TakesLine};

use memchr::memchr;

/// A line of a text.
#[derive(Clone, Copy)]
pub(crate) struct Line<'a> {
    /// Its number, from 1.
    pub(crate) number: u64,
    /// Its bytes without the line feed.
    pub(crate) bytes: &'a [u8],
}

/// The lines of a text that are still to come.
#[derive(Clone, Copy)]
pub(crate) struct Lines<'a> {
    /// The number of the next one.
    pub(crate) number: u64,
    /// Its bytes and those after it.
    pub(crate) rest: &'a [u8],
    /// Whether there is a next one.
    pub(crate) more: bool,
}

impl<'a> Lines<'a> {
    /// The next line.
    pub(crate) fn next(&mut self) -> Option<Line<'a>>
        requires { CanCountLines self.old }
        ensures takes { TakesLine (lines_in self.old) result (lines_in self.new) }
        ensures counts { CanCountLines self.new }
    {
        if !self.more {
            return None;
        }
        let number = self.number;
        match memchr(b'\n', self.rest) {
            Some(at) => {
                let bytes = &self.rest[..at];
                self.rest = &self.rest[at + 1..];
                self.number = number + 1;
                Some(Line { number, bytes })
            }
            None => {
                self.more = false;
                Some(Line {
                    number,
                    bytes: self.rest,
                })
            }
        }
    }
}
