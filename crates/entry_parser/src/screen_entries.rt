//! Screen description entries.

ghost use Rattle.std.specs.Prelude.{◌≡◌};
ghost use Rattle.cob_base.specs.Form.{many};
ghost use Rattle.cob_base.specs.ScreenEntries as screens;
ghost use Rattle.phrase_parser.specs.Reading.{Gives, read};

use crate::data_entries::{item_name, level};
use crate::screen_clauses::{opens_screen_clause, screen_clause};
use cob_base::{Items, Line, ScreenClause, ScreenEntry, Token};
use phrase_parser::{PhraseFault, full_stop, many, no_fit};
use std::alloc::Global;

fn screen_clauses(
    alloc: Global,
    words: &[Token],
) -> Result<(Items<ScreenClause>, &[Token]), PhraseFault>
    ensures { Gives (λ x. (x.0, x.1.now)) result (read (many screens.screen_clause) words.now) }
{
    many(alloc, 0, &opens_screen_clause, &screen_clause, words)
}

/// `level [name|FILLER] screenclause* .`
#[tactic(auto, unfolding(cob_base::specs::ScreenEntries::screen_entry))]
pub fn screen_entry(
    alloc: Global,
    line: Line,
    words: &[Token],
) -> Result<(ScreenEntry, &[Token]), PhraseFault>
    ensures { Gives (λ x. (x.0, x.1.now)) result (read (screens.screen_entry line) words.now) }
{
    match level(words) {
        Some((level, rest)) => {
            let (name, rest) = item_name(alloc, rest)?;
            let (clauses, rest) = screen_clauses(alloc, rest)?;
            let rest = full_stop(rest)?;
            Ok((
                ScreenEntry {
                    line,
                    level,
                    name,
                    clauses,
                },
                rest,
            ))
        }
        None => Err(no_fit()),
    }
}
