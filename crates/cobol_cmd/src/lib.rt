//! The commands of `cobol`: what the words ask for, done over any shelf and any sink.
#![tactic(auto)]

mod answer;
mod call;
mod command;
mod fault;
mod program;
mod report;
mod small;

pub use answer::Answer;
pub use call::cobol_plain;
pub use command::Action;
pub use fault::ProgramFault;
pub use program::read_program;

#[cfg(test)]
mod tests;
