//! What numeric and edited items hold, and what MOVE, comparisons and arithmetic make of values.
#![tactic(auto)]

mod arithmetic;
mod comparison;
mod figure;
mod moves;
mod texts;
mod values;

pub use arithmetic::{add, divide, multiply, subtract};
pub use cob_base::Figurative as Figure;
pub use comparison::{compare_bytes, compare_fill, may_compare, may_compare_fill};
pub use moves::{fill, may_fill, may_move, move_bytes};
pub use values::{load, store};

#[cfg(test)]
mod tests;
#[cfg(test)]
mod tests_arithmetic;
#[cfg(test)]
mod tests_comparisons;
#[cfg(test)]
mod tests_moves;
#[cfg(test)]
mod tests_values;
