//! The technology of a chip: its layers, and the rules by which arrays of cuts join them.
//!
//! It has the routing and cut layers and the generated via rules of the LEF/DEF 5.8 Language Reference ("LEF Syntax",
//! the sections LAYER and VIARULE GENERATE). What a drawing, an extraction and the limits of currents ask of a layer or
//! a rule stands in a record of its own here; everything else of a technology is left out. `read_tech` reads it.
#![tactic(auto)]

mod density;
mod error;
mod facts;
mod fault;
mod format;
mod held;
mod keeping;
mod known;
mod laws;
mod layer;
mod limits;
mod moving;
mod number;
mod pattern;
mod question;
mod read;
mod rule;
mod rules;
mod section;
mod shape;
mod sort;
mod stack;
mod state;
mod statement;
mod tech;
mod text;
mod turn;
mod value;

pub use error::{TechError, TechKind};
pub use laws::texts_have_one_tech;
pub use layer::{CutLayer, Density, LayerRef, RoutingLayer};
pub use limits::{
    AREA_LIMIT, CUT_DENSITY_LIMIT, LENGTH_LIMIT, RESISTANCE_LIMIT, WIRE_DENSITY_LIMIT,
};
pub use read::read_tech;
pub use rule::ViaRule;
pub use tech::Tech;
