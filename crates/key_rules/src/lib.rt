//! The rules of the language on the keys of files and where they lie, and what is known of the descriptions of files.
#![tactic(auto)]

mod descriptions;
mod key_places;

pub use descriptions::{Description, Descriptions};
pub use key_places::note_bad_keys;
