//! What a test asks of a value by a call: its proof then has no branch for it, and stays short.
use std::fmt::Debug;
use std::process::Abort;

/// Ends the test where a value is another than the one that is wanted, and tells both.
pub(crate) fn same<T: PartialEq + Debug + Drop>(rt: &impl Abort, is: T, want: T) {
    assert_eq!(rt; is, want);
}
