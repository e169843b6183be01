//! Whether a program keeps the rules of the language, and the first rule that it breaks.
#![tactic(auto)]

mod checking;
mod fault;
mod laws;
mod references;
mod shapes;

pub use checking::{Checked, check};
pub use fault::CheckFault;
pub use laws::{checks_are_definite, shapes_are_sound};
