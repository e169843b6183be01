//! The rules of the language as far as they speak of a program's front: the faults of each, with line and reason.
#![tactic(auto)]

mod front_faults;
mod kinds;
mod levels;
mod limits;
mod outside;
mod pictures;
mod values;

pub use front_faults::note_front_faults;
pub use kinds::{is_no_integer, note_subscripts as note_no_integers};
