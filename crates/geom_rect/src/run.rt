/// Unit cells in a row: those from `from` up to below `to`, where cell t is the unit from t to t + 1. `from` is at most
/// `to`, and where they are equal the run has no cell.
#[derive(Clone, Copy, Debug, PartialEq, Eq)]
pub struct Run {
    pub from: i64,
    pub to: i64,
}
