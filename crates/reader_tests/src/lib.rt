//! Tests of the words of texts, and of the readers that stand on them.
//!
//! They stand in a crate of their own, since a crate that has tests is proved once more with them.
#![tactic(auto)]

#[cfg(test)]
mod bias_file_tests;
#[cfg(test)]
mod def_design_tests;
#[cfg(test)]
mod fixed_decimal_tests;
#[cfg(test)]
mod lef_cells_tests;
#[cfg(test)]
mod lef_tech_tests;
#[cfg(test)]
mod macro_blocks_tests;
#[cfg(test)]
mod pdn_script_tests;
#[cfg(test)]
mod same;
#[cfg(test)]
mod script_options_tests;
#[cfg(test)]
mod text_lex_tests;
