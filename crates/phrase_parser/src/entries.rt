//! Single entries.

ghost use Rattle.std.specs.Prelude.{◌≡◌, List, Bool};
ghost use Rattle.cob_base.specs.declared.line.Line.{Line};
ghost use Rattle.cob_base.specs.declared.tokens.Token.{Token};
ghost use Rattle.phrase_parser.specs.Reading.{Gives, Outcome};
ghost use Rattle.phrase_parser.specs.EntryReading.{EntryGives, read_whole, read_entry, first_opens};
ghost use Rattle.phrase_parser.specs.Repeats.{Tests, ReadsWords};

use crate::{EntryFault, PhraseFault};
use cob_base::{Line, Misfit, SeenEntry, Token};
use std::alloc::Global;

/// The next entry, which fits where `read` reads all its words; `read` is given the line of its first word.
pub fn entry<'a, T: Drop, F: Fn(Global, Line, &[Token]) -> Result<(T, &[Token]), PhraseFault>>(
    alloc: Global,
    read: &F,
    entries: &'a [SeenEntry],
) -> Result<(T, &'a [SeenEntry]), EntryFault>
    requires { (alloc : _) (line : _) (w : _) → F.pre read.now alloc line w }
    ensures { (read_one : Line → List Token → Outcome T) → ReadsWords read_one (F.post read.now) → EntryGives (λ x. (x.0, x.1.now)) result (read_entry read_one entries.now) }
{
    match entries {
        [first, rest @ ..] => whole_entry(
            first.line,
            read(alloc, first.line, first.tokens.as_slice()),
            rest,
        ),
        [] => Err(EntryFault::Stops(Misfit::NoFit, None)),
    }
}

/// What an entry that begins in a line gives whose words were read so, before the entries `rest`.
pub fn whole_entry<'a, T: Drop>(
    line: Line,
    read: Result<(T, &[Token]), PhraseFault>,
    rest: &'a [SeenEntry],
) -> Result<(T, &'a [SeenEntry]), EntryFault>
    ensures { (outcome : Outcome T) → Gives (λ x. (x.0, x.1.now)) read.entry outcome → EntryGives (λ x. (x.0, x.1.now)) result (read_whole line rest.now outcome) }
{
    match read {
        Ok((found, words)) => {
            if !words.is_empty() {
                return Err(EntryFault::Stops(Misfit::NoFit, Some(line)));
            }
            Ok((found, rest))
        }
        Err(PhraseFault::Misfit(reason)) => Err(EntryFault::Stops(reason, Some(line))),
        Err(PhraseFault::NoMemory) => Err(EntryFault::NoMemory),
    }
}

/// Whether the words of the next entry open what `opens` tests.
pub fn first_opens<O: Fn(&[Token]) -> bool>(entries: &[SeenEntry], opens: &O) -> bool
    requires { O.IsAlwaysCallable opens.now }
    ensures { (opened : List Token → Bool) → Tests opened (O.post opens.now) → result ≡ first_opens opened entries.now }
{
    match entries {
        [first, ..] => opens(first.tokens.as_slice()),
        [] => false,
    }
}
