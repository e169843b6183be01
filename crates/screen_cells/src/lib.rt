//! The screen of a run unit: 24 lines of 80 cells and a cursor.
#![tactic(auto)]

mod cell;
mod screen;

pub use cell::{Cell, Style};
pub use screen::Screen;

#[cfg(test)]
mod tests;
