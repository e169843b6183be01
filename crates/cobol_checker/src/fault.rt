use cob_base::{Line, NoMemory};
use std::alloc::{AllocError, AllocFailed};
use thiserror::Error;

/// Why a program is refused.
#[derive(Clone, Copy, Debug, PartialEq, Eq, Error)]
pub enum CheckFault {
    /// The least fault, by line, then by reason: the line of the first word of the entry, statement or paragraph header at fault, and
    /// the number of the rule that it breaks, from 1 to 13.
    #[error("line {}: rule {reason} is broken", .line.0)]
    Reason { line: Line, reason: u8 },
    /// Memory ran out.
    #[error("memory ran out")]
    NoMemory,
}

impl From<NoMemory> for CheckFault {
    fn from(_: NoMemory) -> Self {
        CheckFault::NoMemory
    }
}

impl From<AllocError> for CheckFault {
    fn from(_: AllocError) -> Self {
        CheckFault::NoMemory
    }
}

impl<T: Drop> From<AllocFailed<T>> for CheckFault {
    fn from(_: AllocFailed<T>) -> Self {
        CheckFault::NoMemory
    }
}
