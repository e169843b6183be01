//! The items of a program's data division: what surrounds each of them, and which one a reference stands for.
#![tactic(auto)]

mod asked;
mod facts;
mod item_clauses;
mod known;
mod laws;
mod names;
mod pairs;
mod parts;
mod table;

pub use asked::AskedPairs;
pub use facts::{Facts, facts_of, has_value, is_record};
pub use item_clauses::{picture, value};
pub use known::{FiledEntry, KnownItem, Told, known_items, tell};
pub use laws::{items_are_definite, pictures_are_definite};
pub use names::{Names, fewest, folded, same_name};
pub use pairs::{Pairs, put_in_group, put_in_groups};
pub use parts::{crt_status, descriptions, files, screen_entries, working_storage};
pub use table::{Found, Table};
