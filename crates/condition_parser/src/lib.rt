//! Reading expressions, conditions and the loops that conditions end.
#![tactic(auto)]

mod conditions;
mod expressions;
mod loops;
mod relations;
#[cfg(test)]
mod tests;

pub use conditions::cond;
pub use expressions::expr;
pub use loops::optional_repeated;
pub use relations::relation;
