ghost use Rattle.std.specs.Prelude.{◌≡◌};
ghost use Rattle.cobol_words.specs.declared.fault.WordFault.TheVariants as faults;
ghost use Rattle.cobol_words.specs.declared.fault.EntryFault.TheVariants as entry_faults;

use cob_base::{Line, NoMemory};
use std::alloc::{AllocError, AllocFailed};
use thiserror::Error;

/// Why lines have no words: the leftmost fault of the first line that has one. All but `BadContinuation` have the line in
/// which the word at fault begins.
#[derive(Clone, Copy, Debug, PartialEq, Eq, Error)]
pub enum WordFault {
    /// A byte that begins no word, an empty literal, or a run of letters, digits, `-` and `_` that is neither a name nor
    /// made of digits alone.
    #[error("line {}: a character that begins no word", .0.0)]
    BadCharacter(Line),
    /// A literal that is open at the end of a free line, or of a fixed line after which no continuation line comes.
    #[error("line {}: a literal without an end", .0.0)]
    OpenLiteral(Line),
    /// A run with a letter and of more than 31 bytes.
    #[error("line {}: a word of more than 31 bytes", .0.0)]
    LongWord(Line),
    /// A number of more than 18 digits, or of more than 6 after the period.
    #[error("line {}: a number with too many digits", .0.0)]
    LongNumber(Line),
    /// A literal that stands for more than 160 bytes.
    #[error("line {}: a literal of more than 160 bytes", .0.0)]
    LongLiteral(Line),
    /// A continuation line, which this is, before which nothing stands, or that doesn't go on with the mark of the
    /// literal that is open.
    #[error("line {}: a continuation line that continues nothing", .0.0)]
    BadContinuation(Line),
    /// Memory ran out.
    #[error("memory ran out")]
    NoMemory,
}

/// Why words have no entries.
#[derive(Clone, Copy, Debug, PartialEq, Eq, Error)]
pub enum EntryFault {
    /// The last word, which begins in this line, is no separator period.
    #[error("line {}: the last word is no period", .0.0)]
    NoStop(Line),
    /// Memory ran out.
    #[error("memory ran out")]
    NoMemory,
}

impl From<NoMemory> for WordFault {
    ghost from_gives = { λ _ fault. fault ≡ faults.NoMemory };

    fn from(_: NoMemory) -> Self {
        WordFault::NoMemory
    }
}

impl From<AllocError> for WordFault {
    ghost from_gives = { λ _ fault. fault ≡ faults.NoMemory };

    fn from(_: AllocError) -> Self {
        WordFault::NoMemory
    }
}

impl<T: Drop> From<AllocFailed<T>> for WordFault {
    ghost from_gives = { λ _ fault. fault ≡ faults.NoMemory };

    fn from(_: AllocFailed<T>) -> Self {
        WordFault::NoMemory
    }
}

impl From<AllocError> for EntryFault {
    ghost from_gives = { λ _ fault. fault ≡ entry_faults.NoMemory };

    fn from(_: AllocError) -> Self {
        EntryFault::NoMemory
    }
}

impl<T: Drop> From<AllocFailed<T>> for EntryFault {
    ghost from_gives = { λ _ fault. fault ≡ entry_faults.NoMemory };

    fn from(_: AllocFailed<T>) -> Self {
        EntryFault::NoMemory
    }
}
