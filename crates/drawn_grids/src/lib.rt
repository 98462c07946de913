//! Laws of grids and of their networks: what is asked of a grid that goes on is said of each that is drawn, and what is
//! asked of a network that goes on is said of each that a grid has.
#![tactic(auto)]

mod laws;

pub use laws::{
    branches_are_of_the_grid, drawings_are_grids, each_node_has_a_name, limits_are_of_the_network,
    lists_name_nodes_and_pads_agree, names_are_words,
};
