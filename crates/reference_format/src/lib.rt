//! The lines of a program text, in fixed and in free form.
#![tactic(auto)]

mod columns;
mod directive;
mod lines;

pub use cob_base::TextFault;
pub use lines::read_lines;

#[cfg(test)]
mod tests;
