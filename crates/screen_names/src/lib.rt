//! Which item of a layout a reference names: the only one that its name with its qualifiers matches.
#![tactic(auto)]

mod directory;
mod matching;
mod names;
mod pairs;

pub use directory::Directory;
pub use matching::is_single_item;
