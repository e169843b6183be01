ghost use Rattle.std.specs.Prelude.{◌≡◌};
ghost use Rattle.screen_layout.specs.declared.fault.ScreenFault.TheVariants as faults;

use cob_base::{Line, NoMemory};
use std::alloc::{AllocError, AllocFailed};
use thiserror::Error;

/// Why the entries of a screen section have no plans: the fault in the least line, and of both in one line the first.
#[derive(Clone, Copy, Debug, PartialEq, Eq, Error)]
pub enum ScreenFault {
    /// An item stands outside the 24 lines of 80 columns. Column 81 is right for an item without a size.
    #[error("line {}: an item outside the screen", .0.0)]
    OffScreen(Line),
    /// A level that returns to no group or is 77, a group with a clause of items, clauses that do not go together, a bad
    /// picture, a colour past 7, or an item that cannot be shown or filled.
    #[error("line {}: an item that cannot be shown or filled", .0.0)]
    BadItem(Line),
    /// Memory ran out.
    #[error("memory ran out")]
    NoMemory,
}

impl From<NoMemory> for ScreenFault {
    ghost from_gives = { λ _ fault. fault ≡ faults.NoMemory };

    fn from(_: NoMemory) -> Self {
        ScreenFault::NoMemory
    }
}

impl From<AllocError> for ScreenFault {
    ghost from_gives = { λ _ fault. fault ≡ faults.NoMemory };

    fn from(_: AllocError) -> Self {
        ScreenFault::NoMemory
    }
}

impl<T: Drop> From<AllocFailed<T>> for ScreenFault {
    ghost from_gives = { λ _ fault. fault ≡ faults.NoMemory };

    fn from(_: AllocFailed<T>) -> Self {
        ScreenFault::NoMemory
    }
}
