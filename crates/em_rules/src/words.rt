/// What the interval in which a current lies says of its limit.
#[derive(Clone, Copy, Debug, PartialEq, Eq)]
pub enum Verdict {
    /// Each current of the interval keeps the limit. Printed `SAFE`.
    Safe,
    /// No current of the interval keeps the limit. Printed `UNSAFE`.
    Unsafe,
    /// Some currents of the interval keep the limit and some do not. Printed `OPEN`.
    Undecided,
    /// There is no limit. Printed `NOLIMIT`.
    NoLimit,
}
