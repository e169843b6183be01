//! The statements of a procedure division, whatever they stand in, and what each of them names.
#![tactic(auto)]

mod leaves;
mod listed;
mod names;
mod phrases;
mod references;
mod values;

pub use listed::{all_statements, statements_of};
pub use names::{NameKind, Wanted, names_of};
pub use phrases::{condition_of, retries_of, tests_of, times_of, varying_of};
pub use references::{conditions_of, items_of};
pub use values::{
    Comparing, Moving, comparisons_of, counts_of, moves_of, numeric_items_of, operands_of,
    results_of,
};
