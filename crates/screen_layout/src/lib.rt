//! Screens of a program: where each screen item stands, what it shows, and what showing it leaves in the cells.
#![tactic(auto)]

mod fault;
mod judging;
mod laying;
mod least;
mod levels;
mod looks;
mod painting;
mod place;
mod plan;
mod planning;
mod walk;

pub use fault::ScreenFault;
pub use laying::lay_screens;
pub use painting::show_plan;
pub use place::{End, Spot, Start};
pub use plan::{Blank, Placed, ScreenPlan};
pub use screen_rows::{ClauseKind, Content, Look, Own, ScreenRow, Show};

#[cfg(test)]
mod test_blanks;
#[cfg(test)]
mod test_cases;
#[cfg(test)]
mod test_faults;
#[cfg(test)]
mod test_fixture;
#[cfg(test)]
mod test_names;
#[cfg(test)]
mod test_showing;
#[cfg(test)]
mod test_shown;
#[cfg(test)]
mod test_styles;
#[cfg(test)]
mod tests;
