//! The parser of the procedure division.
#![tactic(auto)]

mod file_statements;
mod nodes;
mod phrases;
mod procedure;
mod statements;
#[cfg(test)]
mod tests;
#[cfg(test)]
mod tests_more_words;
#[cfg(test)]
mod tests_words;

pub use procedure::{parse_procedure, programs_are_definite};
