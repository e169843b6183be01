//! The rules on entries of screens: what goes together in an entry, and where items stand.
#![tactic(auto)]

mod placing;
mod screen_kinds;

pub use placing::note_off_screen;
pub use screen_kinds::is_screen_of_wrong_kind;
