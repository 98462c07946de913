/// The range in which a current lies that is drawn, or a part of it, in femtoamperes.
#[derive(Clone, Copy, Debug, PartialEq, Eq)]
pub struct Share {
    pub low: i64,
    pub high: i64,
}
