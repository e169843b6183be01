//! The parser of the identification, environment and data divisions.
#![tactic(auto)]

mod data_division;
mod environment_division;
mod file_clauses;
mod fronts;
mod headers;
#[cfg(test)]
mod tests;
#[cfg(test)]
mod tests_entries;
#[cfg(test)]
mod tests_fronts;

pub use fronts::{FrontRead, fronts_are_definite, parse_front};
