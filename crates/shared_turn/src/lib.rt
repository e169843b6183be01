//! One object, handed from caller to caller: each caller draws a ticket, waits until it is served, and makes one step
//! of the object, which is entered in a journal. Callers are threads that share one `Turn` by reference.
#![tactic(auto)]

mod happened;
mod pass;
mod rule;
mod serial;
mod turn;
mod view;

pub use happened::{Happened, HappenedOf};
pub use pass::{Pass, PassOf};
pub use serial::{Serial, Twice};
pub use turn::{Closed, Turn};

#[cfg(test)]
mod tests;
