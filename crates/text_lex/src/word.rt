use outside::Place;

/// How the words of a text are split.
#[derive(Clone, Copy, Debug, PartialEq, Eq)]
pub enum Mode {
    /// LEF and DEF: words between blanks, tabs, carriage returns and line feeds. A word that begins with `#` begins a
    /// comment to the end of its line, one that begins with `"` goes to the next `"`.
    LefDef,
    /// A script: commands that end at a line feed or a `;`, of bare, `"quoted"` and `{braced}` words.
    Tcl,
    /// Lines of words between blanks, tabs and carriage returns. No byte makes a comment, a quote or a brace.
    Lines,
}

/// What kind of word it is.
#[derive(Clone, Copy, Debug, PartialEq, Eq)]
pub enum Form {
    /// A word without quotes or braces around it.
    Bare,
    /// A word that stood between two `"`.
    Quoted,
    /// A word that stood between a `{` and its `}`.
    Braced,
    /// The line feed that ends a line of mode `Lines`, or a command.
    Break,
    /// The `;` that ends a command.
    Semicolon,
}

/// A word of a text.
#[derive(Clone, Copy, Debug)]
pub struct Word<'a> {
    /// The word's slice of the text, without its quotes or braces.
    pub text: &'a [u8],
    /// Where it begins.
    pub place: Place,
    /// What kind of word it is.
    pub form: Form,
}

/// Why a word is refused.
#[derive(Clone, Copy, Debug, PartialEq, Eq)]
pub enum LexKind {
    /// A quote or a brace that is not closed by the end of the text.
    BadString,
    /// A `$`, a `[`, or a backslash that joins no lines, outside braces and comments of a script.
    Substitution,
}

/// A word that is refused. Nothing after it is read.
#[derive(Clone, Copy, Debug, PartialEq, Eq)]
pub struct LexError {
    /// Where the word begins.
    pub place: Place,
    /// Why it is refused.
    pub kind: LexKind,
}
