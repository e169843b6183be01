//! The rules of the language on what statements do with values: moves, arithmetic, counts, comparisons and tests of 88 entries.
#![tactic(auto)]

mod judged_conditions;
mod sides;
mod values;

pub use judged_conditions::JudgedConditions;
pub use values::has_bad_values;
