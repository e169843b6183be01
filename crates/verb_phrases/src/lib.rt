//! Reading what stands behind a verb and holds no statement: operands and receivers, retries and locks, and the phrases of files.
#![tactic(auto)]

mod arithmetic;
mod file_phrases;
mod locks;

pub use arithmetic::{Receivers, added, divided, multiplied, references, subtracted};
pub use file_phrases::{
    names, open_phrases, optional_by_key, optional_direction, optional_from, optional_into,
    optional_place, optional_record_word,
};
pub use locks::{optional_lock, optional_locking, optional_retry};
