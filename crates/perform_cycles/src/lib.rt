//! Which paragraphs of a program lead back to themselves through the ranges that PERFORM statements run.
#![tactic(auto)]

mod arrows;
mod cycles;
mod finding;
mod lowest;
mod plain;
mod search;
mod segment_tree;
mod unseen;

pub use arrows::{Arrow, are_within};
pub use cycles::on_cycles;

#[cfg(test)]
mod tests;
