ghost use Rattle.std.specs.Prelude.{◌≡◌};
ghost use Rattle.data_layout.specs.declared.fault.LayoutFault.TheVariants as faults;

use cob_base::{Line, NoMemory};
use std::alloc::{AllocError, AllocFailed};
use thiserror::Error;

/// Why the entries of a data division have no layout: the fault in the least line, and of several in one line the one that
/// comes first here.
#[derive(Clone, Copy, Debug, PartialEq, Eq, Error)]
pub enum LayoutFault {
    /// With this entry storage passes 1,000,000 bytes.
    #[error("line {}: storage passes 1,000,000 bytes", .0.0)]
    StorageLimit(Line),
    /// The record of a file has more than 512 bytes. The line is that of its level-01 entry.
    #[error("line {}: a record of more than 512 bytes", .0.0)]
    RecordLimit(Line),
    /// A level that returns to no group, no 01 or 77 at the start of a section, 77 on a group, an 88 entry after no item,
    /// a group with PICTURE or an elementary item without, OCCURS on 01 or 77 or inside OCCURS, an OCCURS number that is
    /// not 1 to 9,999, or a clause written twice.
    #[error("line {}: an entry that does not fit among those around it", .0.0)]
    BadLevel(Line),
    /// The text after PICTURE is no picture, or one past its limits.
    #[error("line {}: no picture, or one past its limits", .0.0)]
    BadPicture(Line),
    /// Memory ran out.
    #[error("memory ran out")]
    NoMemory,
}

impl From<NoMemory> for LayoutFault {
    ghost from_gives = { λ _ fault. fault ≡ faults.NoMemory };

    fn from(_: NoMemory) -> Self {
        LayoutFault::NoMemory
    }
}

impl From<AllocError> for LayoutFault {
    ghost from_gives = { λ _ fault. fault ≡ faults.NoMemory };

    fn from(_: AllocError) -> Self {
        LayoutFault::NoMemory
    }
}

impl<T: Drop> From<AllocFailed<T>> for LayoutFault {
    ghost from_gives = { λ _ fault. fault ≡ faults.NoMemory };

    fn from(_: AllocFailed<T>) -> Self {
        LayoutFault::NoMemory
    }
}
