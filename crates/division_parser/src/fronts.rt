//! The front of a program, up to and with the header of the procedure division.

ghost use Rattle.std.specs.Prelude.{◌≡◌, ◌^◌, ◌<◌, length};
ghost use Rattle.cob_base.specs.Front as front;
ghost use Rattle.division_parser.specs.Answer.{Answers, IsDefinite};
ghost use Rattle.phrase_parser.specs.EntryReading.{EntryGives, read_entries};

use crate::data_division::optional_data_division;
use crate::environment_division::optional_environment;
use crate::headers::{name_entry, paragraph_header, section_header};
use cob_base::{ByteText, Entry, Front, Keyword, ParseFault, SeenEntry, see_entries};
use phrase_parser::{EntryFault, entries_are_definite, fault_of, reading_is_exact};
use std::alloc::Global;

/// A front, and how many entries it takes, up to and with the header of the procedure division.
#[derive(Debug, Drop)]
pub struct FrontRead {
    pub front: Front,
    pub used: u32,
}

/// `(IDENTIFICATION|ID) DIVISION . PROGRAM-ID . name .`
#[tactic(auto, unfolding(cob_base::specs::Front::identification))]
fn identification(
    alloc: Global,
    entries: &[SeenEntry],
) -> Result<(ByteText, &[SeenEntry]), EntryFault>
    ensures { EntryGives (λ x. (x.0, x.1.now)) result (read_entries front.identification entries.now) }
{
    let (_division, rest) = section_header(entries, Keyword::Identification, Keyword::Division)?;
    let (_paragraph, rest) = paragraph_header(rest, Keyword::ProgramId)?;
    name_entry(alloc, rest)
}

/// The front that entries begin with, and the entries after it.
#[tactic(auto, unfolding(cob_base::specs::Front::front))]
fn front(alloc: Global, entries: &[SeenEntry]) -> Result<(Front, &[SeenEntry]), EntryFault>
    ensures { EntryGives (λ x. (x.0, x.1.now)) result (read_entries front.front entries.now) }
{
    let (program, rest) = identification(alloc, entries)?;
    let (environment, rest) = optional_environment(alloc, rest)?;
    let (data, rest) = optional_data_division(alloc, rest)?;
    let (_procedure, rest) = section_header(rest, Keyword::Procedure, Keyword::Division)?;
    Ok((
        Front {
            program,
            environment,
            data,
        },
        rest,
    ))
}

/// Reads the identification, environment and data divisions that a program's entries begin with, up to and with the header
/// of the procedure division.
///
/// Where the entries do not begin with a front, the answer is `Nesting` or `NoEntry`, as `ParseFault` says. What stands
/// after the front is not looked at.
pub fn parse_front(alloc: Global, entries: &[Entry]) -> Result<FrontRead, ParseFault>
    requires { length entries.now < 2 ^ 32 }
    ensures { Answers entries.now result }
{
    reading_is_exact();
    let seen = see_entries(alloc, entries)?;
    match front(alloc, seen.as_slice()) {
        Ok((front, rest)) => Ok(FrontRead {
            front,
            used: (entries.len() - rest.len()) as u32,
        }),
        Err(EntryFault::Stops(reason, line)) => Err(fault_of(seen.as_slice(), reason, line)),
        Err(EntryFault::NoMemory) => Err(ParseFault::NoMemory),
    }
}

/// A list of entries reads as one front at most, or stops at one place, with the same entries left, for one reason at most, and
/// never both.
pub fn fronts_are_definite()
    ensures { IsDefinite }
{
    entries_are_definite();
}
