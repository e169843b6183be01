//! The words of a program text and its entries.
#![tactic(auto)]

mod before;
mod cell;
mod chunk;
mod cutter;
mod fault;
mod joining;
mod literal;
mod number;
mod picture;
mod run;
mod sentence;
mod take;

pub use fault::{EntryFault, WordFault};
pub use joining::read_words;
pub use sentence::entries;

#[cfg(test)]
mod tests;
