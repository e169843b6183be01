//! Storage of a program: which bytes each data item has, and why entries have no layout.
#![tactic(auto)]

mod clauses;
mod fault;
mod judging;
mod layout;
mod least;
mod levels;
mod placing;
mod reading;
mod row;
mod walk;

pub use clauses::ClauseKind;
pub use fault::LayoutFault;
pub use judging::does_level_fit;
pub use layout::{Item, Layout, lay_out};
pub use levels::{does_go_on, is_allowed, is_sized, members_of, own_bytes, rank_of};
pub use reading::{Gathered, Reading, gather, reading_of};
pub use row::{Described, Row, Spelled};
pub use walk::{Walk, bytes_of, bytes_with};

#[cfg(test)]
mod test_cases;
#[cfg(test)]
mod test_faults;
#[cfg(test)]
mod test_places;
#[cfg(test)]
mod tests;
