//! What the entry of a screen says: its clauses, its size and picture, what it shows and fills, and whether it is at fault by itself.
#![tactic(auto)]

mod clauses;
mod constants;
mod contents;
mod references;
mod row;
mod rows;

pub use clauses::{ClauseKind, Look, Own};
pub use row::{Content, ScreenRow, Show};
pub use rows::{ScreenRows, read_rows};
