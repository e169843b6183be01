//! The parser of data description entries and of screen description entries.
#![tactic(auto)]

mod data_entries;
mod item_clauses;
mod screen_clauses;
mod screen_entries;
#[cfg(test)]
mod tests;
#[cfg(test)]
mod tests_data_entries;
#[cfg(test)]
mod tests_screen_entries;

pub use data_entries::{data_entry, opens_data_entry, opens_level};
pub use screen_entries::screen_entry;
