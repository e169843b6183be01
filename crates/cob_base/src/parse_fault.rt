ghost use Rattle.std.specs.Prelude.{◌≡◌};
ghost use Rattle.cob_base.specs.declared.parse_fault.ParseFault.TheVariants as faults;

use crate::{Line, NoMemory};
use thiserror::Error;

/// How many statements and parentheses may be open at any word of a program.
pub const MAX_OPEN: usize = 50;

/// Why words do not spell what must stand at their place.
#[derive(Clone, Copy, Debug, PartialEq, Eq)]
pub enum Misfit {
    /// A statement or a parenthesis opens where as many are open as may be.
    Nesting,
    /// They spell something else, or nothing.
    NoFit,
}

/// Why entries are no program.
#[derive(Clone, Copy, Debug, PartialEq, Eq, Error)]
pub enum ParseFault {
    /// The first entry that does not fit at its place nests too deep; the line is that of its first word.
    #[error("line {}: statements and parentheses nest too deep", .0.0)]
    Nesting(Line),
    /// The first entry that does not fit at its place spells something else, or nothing, and the line is that of its first
    /// word; or every entry fits and more must follow, and the line is that of the last entry's first word, or 1 where
    /// there is no entry.
    #[error("line {}: an entry that does not fit, or after which more must follow", .0.0)]
    NoEntry(Line),
    #[error("memory ran out")]
    NoMemory,
}

impl From<NoMemory> for ParseFault {
    ghost from_gives = { λ _ e. e ≡ faults.NoMemory };

    fn from(_: NoMemory) -> ParseFault {
        ParseFault::NoMemory
    }
}
