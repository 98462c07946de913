use outside::WriteError;

/// A text that is to be written, with the name of its file.
#[derive(Clone, Copy, Debug)]
pub struct Output<'a> {
    pub file: &'a str,
    pub text: &'a [u8],
}

/// The first output that was not written, by its place from 0, and why.
#[derive(Clone, Copy, Debug, PartialEq, Eq)]
pub struct Unwritten {
    pub place: usize,
    pub error: WriteError,
}
