//! The clauses of entries of files, items and screens, and the entries of a program's screens.
#![tactic(auto)]

pub mod file_clauses;
pub mod item_clauses;
mod laws;
pub mod screen_clauses;
mod screens;
mod spelled;

pub use laws::screens_are_definite;
pub use screens::{KnownScreen, screen_items};
pub use spelled::{is_missing, is_too_wide, is_unreadable};
