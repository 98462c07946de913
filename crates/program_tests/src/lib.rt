//! Tests of the layers between the texts and the program: the words of a command, files, refusals, solving and stepping.
//!
//! They stand in a crate of their own, since a crate that has tests is proved once more with them.
#![tactic(auto)]

#[cfg(test)]
mod command_words_tests;
#[cfg(test)]
mod grid_gen_tests;
#[cfg(test)]
mod input_files_tests;
#[cfg(test)]
mod output_files_tests;
#[cfg(test)]
mod random_words_tests;
#[cfg(test)]
mod refusal_words_tests;
#[cfg(test)]
mod same;
#[cfg(test)]
mod solving_tests;
#[cfg(test)]
mod step_texts_tests;
#[cfg(test)]
mod stepping_tests;
