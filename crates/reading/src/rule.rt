/// A pattern of words as the source of a format writes it, built from named parts. `S` are the sorts of the format's
/// words.
#[derive(Drop)]
pub enum Rule<'a, S> {
    /// No list of words: nothing may follow.
    Nothing,
    /// One word, of one of these sorts.
    One(&'a [S]),
    /// One word, of none of these sorts.
    Other(&'a [S]),
    /// The first, then the second.
    Then(&'a Rule<'a, S>, &'a Rule<'a, S>),
    /// The first or the second.
    Or(&'a Rule<'a, S>, &'a Rule<'a, S>),
    /// Any number of times.
    Many(&'a Rule<'a, S>),
}
