/// A place in a text. Lines count from 1, and the words of a line from 1.
/// A word belongs to the line on which it begins, and the end of a line or of a text counts as the word after the last
/// one of its line.
#[derive(Clone, Copy, Debug, PartialEq, Eq, PartialOrd, Ord)]
pub struct Place {
    pub line: u64,
    pub word: u64,
}
