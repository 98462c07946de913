use outside::ReadError;

/// The first input that was not read, by its place from 0, and why.
#[derive(Clone, Copy, Debug, PartialEq, Eq)]
pub struct Unread {
    pub place: usize,
    pub error: ReadError,
}
