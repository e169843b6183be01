ghost use Rattle.std.specs.Prelude.{◌≡◌};
ghost use Rattle.phrase_parser.specs.Reading.{Gives, or_no_fit, seen_rest};
ghost use Rattle.phrase_parser.specs.declared.faults.PhraseFault.TheVariants as phrase_faults;
ghost use Rattle.phrase_parser.specs.declared.faults.EntryFault.TheVariants as entry_faults;

use cob_base::{Line, Misfit, NoMemory, Token};
use std::alloc::{AllocError, AllocFailed};

/// Why words are not read.
#[derive(Clone, Copy, Debug, PartialEq, Eq)]
pub enum PhraseFault {
    NoMemory,
    /// The words spell something else, or nest too deep.
    Misfit(Misfit),
}

/// Why entries are not read.
#[derive(Clone, Copy, Debug, PartialEq, Eq)]
pub enum EntryFault {
    NoMemory,
    /// An entry does not fit at its place, or one more must follow: why, and the entry's line, where there is one.
    Stops(Misfit, Option<Line>),
}

impl From<AllocError> for PhraseFault {
    ghost from_gives = { λ _ e. e ≡ phrase_faults.NoMemory };

    fn from(_: AllocError) -> PhraseFault {
        PhraseFault::NoMemory
    }
}

impl<T: Drop> From<AllocFailed<T>> for PhraseFault {
    ghost from_gives = { λ _ e. e ≡ phrase_faults.NoMemory };

    fn from(_: AllocFailed<T>) -> PhraseFault {
        PhraseFault::NoMemory
    }
}

impl From<NoMemory> for PhraseFault {
    ghost from_gives = { λ _ e. e ≡ phrase_faults.NoMemory };

    fn from(_: NoMemory) -> PhraseFault {
        PhraseFault::NoMemory
    }
}

impl From<AllocError> for EntryFault {
    ghost from_gives = { λ _ e. e ≡ entry_faults.NoMemory };

    fn from(_: AllocError) -> EntryFault {
        EntryFault::NoMemory
    }
}

impl<T: Drop> From<AllocFailed<T>> for EntryFault {
    ghost from_gives = { λ _ e. e ≡ entry_faults.NoMemory };

    fn from(_: AllocFailed<T>) -> EntryFault {
        EntryFault::NoMemory
    }
}

impl From<NoMemory> for EntryFault {
    ghost from_gives = { λ _ e. e ≡ entry_faults.NoMemory };

    fn from(_: NoMemory) -> EntryFault {
        EntryFault::NoMemory
    }
}

/// The words spell something else.
pub fn no_fit() -> PhraseFault
    ensures { result ≡ phrase_faults.Misfit Misfit.NoFit }
{
    PhraseFault::Misfit(Misfit::NoFit)
}

/// What was found, or else that the words spell something else.
pub fn found<T: Drop>(found: Option<(T, &[Token])>) -> Result<(T, &[Token]), PhraseFault>
    ensures { Gives (λ x. (x.0, x.1.now)) result (or_no_fit (seen_rest found.entry)) }
{
    match found {
        Some((found, rest)) => Ok((found, rest)),
        None => Err(no_fit()),
    }
}
