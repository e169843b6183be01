ghost use Rattle.std.specs.Prelude.{◌≡◌};
ghost use Rattle.cob_base.specs.EntryForm.{last_line};
ghost use Rattle.phrase_parser.specs.Faults.{fault_of};

use cob_base::{Line, Misfit, ParseFault, SeenEntry};

/// The line of the last entry, or 1 where there is none.
fn last_line(entries: &[SeenEntry]) -> Line
    ensures { result ≡ last_line entries.now }
{
    match entries {
        [.., last] => last.line,
        [] => Line(1),
    }
}

/// The fault of entries that stop, in the line where they do, or in that of the last entry.
pub fn fault_of(entries: &[SeenEntry], reason: Misfit, line: Option<Line>) -> ParseFault
    ensures { result ≡ fault_of entries.now reason line }
{
    let line = match line {
        Some(line) => line,
        None => last_line(entries),
    };
    match reason {
        Misfit::Nesting => ParseFault::Nesting(line),
        Misfit::NoFit => ParseFault::NoEntry(line),
    }
}
