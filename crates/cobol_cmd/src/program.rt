ghost use Rattle.std.specs.Prelude.{◌≡◌, ◌<◌, ◌^◌, length, IfOk, IfErr};
ghost use Rattle.cob_base.specs.Procedure.{program_of};
ghost use Rattle.cobol_cmd.specs.declared.command.Action.TheVariants.{Show, Check};
ghost use Rattle.cobol_cmd.specs.declared.command.Action.{Action};
ghost use Rattle.division_parser.specs.Answer.{ReadsAs};
ghost use Rattle.cobol_cmd.specs.Checking.{IsProgram};
ghost use Rattle.cobol_cmd.specs.Programs.{HasWords, HasEntries, HasProgram, IsCheckFault, Prints, FailsOrNoMemory};
ghost use Rattle.cobol_checker.specs.Outcome.{IsInProfile};
ghost use Rattle.cobol_checker.specs.Seen.{seen_checked};

use crate::command::Action;
use crate::fault::ProgramFault;
use crate::report::report_of;
use crate::small::small_item;
use cob_base::{
    Entry, Front, Items, Line, NoMemory, ParseFault, Procedure, Program, Spoken, TextFault,
};
use cobol_checker::{CheckFault, Checked};
use cobol_words::{EntryFault, WordFault, entries, read_words};
use division_parser::{FrontRead, parse_front};
use procedure_parser::{parse_procedure, programs_are_definite};
use reference_format::read_lines;
use std::alloc::Global;

/// The words of a text.
fn words_of(alloc: Global, text: &[u8]) -> Result<Items<Spoken>, ProgramFault>
    requires { length text.now < 2 ^ 31 }
    ensures words { IfOk result (λ words. HasWords text.now words) }
    ensures fault { (action : Action) → IfErr result (λ fault. FailsOrNoMemory action fault text.now) }
{
    let lines = match read_lines(alloc, text) {
        Ok(lines) => lines,
        Err(TextFault::NoMemory) => return Err(ProgramFault::NoMemory),
        Err(fault) => return Err(ProgramFault::Lines(fault)),
    };
    match read_words(alloc, lines.as_slice()) {
        Ok(words) => Ok(words),
        Err(WordFault::NoMemory) => Err(ProgramFault::NoMemory),
        Err(fault) => Err(ProgramFault::Words(fault)),
    }
}

/// What `show` prints for a text.
fn show(alloc: Global, text: &[u8]) -> Result<Vec<u8>, ProgramFault>
    requires { length text.now < 2 ^ 31 }
    ensures output { IfOk result (λ output. Prints Show text.now output.items) }
    ensures fault { IfErr result (λ fault. FailsOrNoMemory Show fault text.now) }
{
    let words = words_of(alloc, text)?;
    let Some(item) = small_item(words.as_slice()) else {
        return Err(ProgramFault::Entries(Line(1)));
    };
    match report_of(alloc, item) {
        Ok(report) => Ok(report),
        Err(NoMemory) => Err(ProgramFault::NoMemory),
    }
}

/// The entries of a text.
fn entries_of(alloc: Global, text: &[u8]) -> Result<Items<Entry>, ProgramFault>
    requires { length text.now < 2 ^ 31 }
    ensures entries { IfOk result (λ entries. HasEntries text.now entries) }
    ensures fault { IfErr result (λ fault. FailsOrNoMemory Check fault text.now) }
{
    let words = words_of(alloc, text)?;
    match entries(alloc, words) {
        Ok(entries) => Ok(entries),
        Err(EntryFault::NoStop(line)) => Err(ProgramFault::Entries(line)),
        Err(EntryFault::NoMemory) => Err(ProgramFault::NoMemory),
    }
}

/// The program of a front and the procedure division behind it.
fn with_front(front: Front, behind: Procedure) -> Program
    ensures { result ≡ program_of (front, behind) }
{
    let Procedure {
        paragraphs,
        end_program,
    } = behind;
    Program {
        front,
        paragraphs,
        end_program,
    }
}

/// The program of entries that begin with this front.
fn program_behind(
    alloc: Global,
    entries: &[Entry],
    read: FrontRead,
) -> Result<Program, ProgramFault>
    requires { ReadsAs entries.now read }
    ensures program { IfOk result (λ program. IsProgram entries.now program) }
    ensures fault { IfErr result (λ fault. IsCheckFault entries.now fault) }
{
    programs_are_definite();
    match parse_procedure(alloc, &entries[read.used as usize..]) {
        Ok(found) => Ok(with_front(read.front, found)),
        Err(ParseFault::Nesting(line)) => Err(ProgramFault::Nesting(line)),
        Err(ParseFault::NoEntry(line)) => Err(ProgramFault::Entries(line)),
        Err(ParseFault::NoMemory) => Err(ProgramFault::NoMemory),
    }
}

/// The program of entries.
fn program_of_entries(alloc: Global, entries: &[Entry]) -> Result<Program, ProgramFault>
    ensures program { IfOk result (λ program. IsProgram entries.now program) }
    ensures fault { IfErr result (λ fault. IsCheckFault entries.now fault) }
{
    // An entry number is a `u32`; there is no memory for more entries.
    if entries.len() > u32::MAX as usize {
        return Err(ProgramFault::NoMemory);
    }
    match parse_front(alloc, entries) {
        Ok(read) => program_behind(alloc, entries, read),
        Err(ParseFault::Nesting(line)) => Err(ProgramFault::Nesting(line)),
        Err(ParseFault::NoEntry(line)) => Err(ProgramFault::Entries(line)),
        Err(ParseFault::NoMemory) => Err(ProgramFault::NoMemory),
    }
}

/// The program of a text, whether it keeps the rules or not.
fn program_of_text(alloc: Global, text: &[u8]) -> Result<Program, ProgramFault>
    requires { length text.now < 2 ^ 31 }
    ensures program { IfOk result (λ program. HasProgram text.now program) }
    ensures fault { IfErr result (λ fault. FailsOrNoMemory Check fault text.now) }
{
    let entries = entries_of(alloc, text)?;
    program_of_entries(alloc, entries.as_slice())
}

/// Reads the text of a program and checks it: the program with its layout, the plans of its screens and the shapes of its files, or
/// the first pass that refuses it, with the line and, where the pass has several, the reason; or memory ran out. The text has fewer
/// than 2^31 bytes.
pub fn read_program(alloc: Global, text: &[u8]) -> Result<Checked, ProgramFault>
    requires { length text.now < 2 ^ 31 }
    ensures program { IfOk result (λ checked. HasProgram text.now checked.program × IsInProfile (seen_checked checked)) }
    ensures fault { IfErr result (λ fault. FailsOrNoMemory Check fault text.now) }
{
    let program = program_of_text(alloc, text)?;
    match cobol_checker::check(alloc, program) {
        Ok(checked) => Ok(checked),
        Err(CheckFault::Reason { line, reason }) => Err(ProgramFault::Profile { line, reason }),
        Err(CheckFault::NoMemory) => Err(ProgramFault::NoMemory),
    }
}

/// What `check` prints for a text.
fn check(alloc: Global, text: &[u8]) -> Result<Vec<u8>, ProgramFault>
    requires { length text.now < 2 ^ 31 }
    ensures output { IfOk result (λ output. Prints Check text.now output.items) }
    ensures fault { IfErr result (λ fault. FailsOrNoMemory Check fault text.now) }
{
    read_program(alloc, text)?;
    match Vec::from_slice(alloc, b"in profile\n") {
        Ok(output) => Ok(output),
        Err(_) => Err(ProgramFault::NoMemory),
    }
}

/// What a command prints for a text.
pub(crate) fn output_of(alloc: Global, action: Action, text: &[u8]) -> Result<Vec<u8>, ProgramFault>
    requires { length text.now < 2 ^ 31 }
    ensures output { IfOk result (λ output. Prints action text.now output.items) }
    ensures fault { IfErr result (λ fault. FailsOrNoMemory action fault text.now) }
{
    match action {
        Action::Show => show(alloc, text),
        Action::Check => check(alloc, text),
    }
}
