ghost use Rattle.std.specs.Prelude.{◌≡◌};
ghost use Rattle.cob_base.specs.declared.fault.TextFault.TheVariants as faults;

use crate::{Line, NoMemory};
use std::alloc::{AllocError, AllocFailed};
use thiserror::Error;

/// Why a text has no lines: the first line at fault, and what it breaks.
#[derive(Clone, Copy, Debug, PartialEq, Eq, Error)]
pub enum TextFault {
    /// A line that is no comment line has a byte outside 32 to 126 in a column that counts.
    #[error("line {}: a byte that no line may have", .0.0)]
    BadByte(Line),
    /// Column 7 of a fixed line is none of space, `*`, `/`, `D`, `d` and `-`.
    #[error("line {}: a bad indicator in column 7", .0.0)]
    BadIndicator(Line),
    /// A line that begins with `>>` sets no form of the lines after it.
    #[error("line {}: a directive that sets no form", .0.0)]
    BadDirective(Line),
    /// Memory ran out.
    #[error("memory ran out")]
    NoMemory,
}

impl From<NoMemory> for TextFault {
    ghost from_gives = { λ _ fault. fault ≡ faults.NoMemory };

    fn from(_: NoMemory) -> Self {
        TextFault::NoMemory
    }
}

impl From<AllocError> for TextFault {
    ghost from_gives = { λ _ fault. fault ≡ faults.NoMemory };

    fn from(_: AllocError) -> Self {
        TextFault::NoMemory
    }
}

impl<T: Drop> From<AllocFailed<T>> for TextFault {
    ghost from_gives = { λ _ fault. fault ≡ faults.NoMemory };

    fn from(_: AllocFailed<T>) -> Self {
        TextFault::NoMemory
    }
}
