//! Reading words and entries by the forms of the grammar: the phrases that the divisions share, and lists of anything.
#![tactic(auto)]

mod entries;
mod faults;
mod laws;
mod listed;
mod operands;
mod phrases;
mod stopping;
mod words;

pub use entries::{entry, first_opens, whole_entry};
pub use faults::{EntryFault, PhraseFault, found, no_fit};
pub use laws::{entries_are_definite, reading_is_exact};
pub use listed::{joined, many, many_entries, some, some_entries};
pub use operands::{
    constant, figurative_of, opens_constant, opens_operand, opens_qualifier, operand, qualifier,
    qualifiers, reference,
};
pub use phrases::sharing;
pub use stopping::fault_of;
pub use words::{
    expect, expect_mark, from_stop, full_stop, int, int_of, name, next_is, noise, opens_int,
    opens_name, past, same_key, same_mark,
};
