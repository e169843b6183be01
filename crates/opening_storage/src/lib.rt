//! The opening storage of a program: the bytes that its data items hold before the first statement.
#![tactic(auto)]

mod filling;
mod laws;
mod values;
mod whole;

pub use laws::openings_are_definite;
pub use whole::{can_open, opening};

#[cfg(test)]
mod test_cases;
#[cfg(test)]
mod tests;
