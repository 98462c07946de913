//! What is wrong with the text of a file.
ghost use Rattle.std.specs.Prelude.{◌≡◌};
ghost use Rattle.answers.specs.Answer.{kind_words};

use fixed_decimal::DecimalError;

/// Why the text of a file is refused at one of its words, whatever the file's format.
#[derive(Clone, Copy, Debug, PartialEq, Eq)]
pub enum TextKind {
    /// With this word the words so far begin no text of the format.
    Syntax,
    /// A netlist's word begins a card or a dot line other than those that are read.
    OutOfProfileCard,
    /// A netlist's word is a number other than 0, the value of a source between two nodes other than `0`.
    FloatingSource,
    /// The word is no number, a number other than 0 that rounds to 0, or one beyond the limit.
    Number(DecimalError),
    /// A netlist's word is an end of a load's range on the wrong side of its value.
    OutOfRange,
    /// The name of a certificate's line is not that of the node in its place.
    WrongNode,
    /// A quote or a brace begins here that is not closed by the end of the text.
    BadString,
    /// A script has a `$`, a `[` or a backslash that joins no lines here, outside braces and comments.
    Substitution,
    /// The word is a name or an option that stands before, or begins again what stands once alone.
    Twice,
    /// A technology's generate rule names a layer that no section before has.
    UnknownLayer,
    /// The points of a technology's table do not rise here, or it has more or fewer entries than points.
    BadTable,
    /// A design's word begins a third point of the die, or a polygon of a blockage.
    Polygon,
    /// A design's row is turned by it to another side than N, S, FN and FS, or has more than one site in the other
    /// direction.
    RowForm,
    /// A design's special net has wires.
    AlreadyRouted,
    /// A design ends without its name.
    MissingDesign,
    /// A design ends without its units.
    MissingUnits,
    /// A design ends without its die.
    MissingDieArea,
    /// A script's command follows `pdngen`.
    AfterPdngen,
    /// A script's command is not known.
    UnknownCommand,
    /// A script's option is one of the manual that is left out.
    OutOfProfile,
    /// A script's command has no such option, or has it on grids with `-macro` alone.
    UnknownOption,
    /// No command before in a script has defined the grid, or any grid.
    UnknownGrid,
    /// No command before in a script has defined the domain, or any domain.
    UnknownDomain,
    /// A script's command ends without an option that it needs.
    MissingOption,
    /// A script names the net as power and as ground.
    NetUse,
    /// A word is the second number of a range, and its value is below that of the first; or it is the step of a wave, below
    /// that of the line before.
    Falling,
    /// No group of a netlist's nodes has the name of a wave's line.
    UnknownNode,
    /// A path of wiring ends with a name that is no generated via before it.
    UnknownVia,
    /// Wiring has metal that is not read, as a rectangle or a slanted segment, or a point after a via.
    WireForm,
    /// A via of wiring is turned or repeated, or has an origin, an offset or a pattern.
    ViaForm,
    /// The first ORIGIN of a macro has a number other than 0 here.
    Origin,
}

impl TextKind {
    /// The words for the kind; for a number, and for what is missing, the inner name stands after a blank.
    pub fn words(self) -> &'static [u8]
        ensures { result.now ≡ kind_words self }
    {
        match self {
            TextKind::Syntax => b"Syntax",
            TextKind::OutOfProfileCard => b"OutOfProfileCard",
            TextKind::FloatingSource => b"FloatingSource",
            TextKind::Number(DecimalError::NotNumber) => b"Number NotNumber",
            TextKind::Number(DecimalError::Vanishes) => b"Number Vanishes",
            TextKind::Number(DecimalError::Range) => b"Number Range",
            TextKind::OutOfRange => b"OutOfRange",
            TextKind::WrongNode => b"WrongNode",
            TextKind::BadString => b"BadString",
            TextKind::Substitution => b"Substitution",
            TextKind::Twice => b"Twice",
            TextKind::UnknownLayer => b"UnknownLayer",
            TextKind::BadTable => b"BadTable",
            TextKind::Polygon => b"Polygon",
            TextKind::RowForm => b"RowForm",
            TextKind::AlreadyRouted => b"AlreadyRouted",
            TextKind::MissingDesign => b"Missing Design",
            TextKind::MissingUnits => b"Missing Units",
            TextKind::MissingDieArea => b"Missing DieArea",
            TextKind::AfterPdngen => b"AfterPdngen",
            TextKind::UnknownCommand => b"UnknownCommand",
            TextKind::OutOfProfile => b"OutOfProfile",
            TextKind::UnknownOption => b"UnknownOption",
            TextKind::UnknownGrid => b"UnknownGrid",
            TextKind::UnknownDomain => b"UnknownDomain",
            TextKind::MissingOption => b"MissingOption",
            TextKind::NetUse => b"NetUse",
            TextKind::Falling => b"Falling",
            TextKind::UnknownNode => b"UnknownNode",
            TextKind::UnknownVia => b"UnknownVia",
            TextKind::WireForm => b"WireForm",
            TextKind::ViaForm => b"ViaForm",
            TextKind::Origin => b"Origin",
        }
    }
}
