//! The rules on names as far as they speak of a program's front, and the list of faults.
#![tactic(auto)]

mod declared;
mod double_names;
mod fault;
mod faults;
mod members;
mod mentions;
mod subscripts;
mod unknown_names;

pub use declared::{DeclaredName, NameClass, declared_names};
pub use double_names::note_clashes;
pub use fault::Fault;
pub use faults::{Faults, least};
pub use members::{note_twin_items, note_twin_screens};
pub use mentions::{Mention, Mentions, add as add_mention, all_mentions, subscript_items};
pub use subscripts::{note_miscounted, note_miscounted_in};
pub use unknown_names::{
    NameSet, note_ambiguous, note_ambiguous_names, note_unknown, note_unknown_names,
};
