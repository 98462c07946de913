//! What the words of a line say.
ghost use Rattle.std.specs.Prelude.{◌≡◌};
ghost use Rattle.wave_file.specs.inside.Value.{step_of, node_of, amps_of};

/// What a word of a line says.
#[derive(Clone, Copy, Debug)]
pub(crate) enum Value {
    /// The number of the step.
    Step(u32),
    /// The number of the group that has the name.
    Node(u32),
    /// Amperes in fA.
    Amps(i64),
    /// Any other word says nothing.
    Nothing,
}

impl Value {
    /// The step, or 0 of another word.
    pub(crate) fn step(self) -> u32
        ensures { result ≡ step_of self }
    {
        match self {
            Value::Step(step) => step,
            _ => 0,
        }
    }

    /// The group, or 0 of another word.
    pub(crate) fn node(self) -> u32
        ensures { result ≡ node_of self }
    {
        match self {
            Value::Node(node) => node,
            _ => 0,
        }
    }

    /// The amperes, or 0 of another word.
    pub(crate) fn amps(self) -> i64
        ensures { result ≡ amps_of self }
    {
        match self {
            Value::Amps(amps) => amps,
            _ => 0,
        }
    }
}
