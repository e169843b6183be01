//! What connectors and files share: how a file is opened and locked, and the shape of its records.
#![tactic(auto)]

mod connector;
mod shape;

pub use cob_base::{Access, LockMode, OpenMode, Sharing};
pub use connector::LockRule;
pub use shape::{KeyPlace, Shape};
