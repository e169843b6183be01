//! The rules of the language as far as they speak of a procedure division: the faults of each, with line and reason.
#![tactic(auto)]

mod keys;
mod kinds;
mod known_files;
mod known_program;
mod performed;
mod phrases;
mod procedure_faults;
mod reading;

pub use procedure_faults::note_procedure_faults;
