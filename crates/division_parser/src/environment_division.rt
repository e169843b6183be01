//! The environment division.

ghost use Rattle.std.specs.Prelude.{◌≡◌};
ghost use Rattle.cob_base.specs.EntryForm.EntryForm.{entry, optional};
ghost use Rattle.cob_base.specs.EntryForm.{begins, many};
ghost use Rattle.cob_base.specs.FileEntries as files;
ghost use Rattle.cob_base.specs.Form.{opens, many as many_words};
ghost use Rattle.cob_base.specs.Front as front;
ghost use Rattle.cob_base.specs.Phrases as phrases;
ghost use Rattle.phrase_parser.specs.EntryReading.{EntryGives, read_entries};
ghost use Rattle.phrase_parser.specs.Reading.{Gives, read};

use crate::file_clauses::{file_clause, opens_file_clause};
use crate::headers::{
    begins_paragraph, begins_section, name_words, optional_name, paragraph_header, section_header,
};
use cob_base::{
    Assigned, Computer, Configuration, CrtStatus, Environment, FileClause, FileEntry, InputOutput,
    Items, Keyword, Line, SeenEntry, SpecialNames, Token,
};
use phrase_parser::{
    EntryFault, PhraseFault, entry, expect, full_stop, many, many_entries, name, next_is, no_fit,
    noise, same_key,
};
use std::alloc::Global;

/// `SOURCE-COMPUTER . [name .]`, and OBJECT-COMPUTER alike.
#[tactic(auto, unfolding(cob_base::specs::Front::computer))]
fn computer(
    alloc: Global,
    paragraph: Keyword,
    entries: &[SeenEntry],
) -> Result<(Computer, &[SeenEntry]), EntryFault>
    ensures { EntryGives (λ x. (x.0, x.1.now)) result (read_entries (front.computer paragraph) entries.now) }
{
    let (_header, rest) = paragraph_header(entries, paragraph)?;
    let (name, rest) = optional_name(alloc, rest)?;
    Ok((Computer { name }, rest))
}

#[tactic(auto, using(crate::proofs::FrontDispatch::begins_computer_is))]
fn optional_computer(
    alloc: Global,
    paragraph: Keyword,
    entries: &[SeenEntry],
) -> Result<(Option<Computer>, &[SeenEntry]), EntryFault>
    ensures { EntryGives (λ x. (x.0, x.1.now)) result (read_entries (optional (front.computer paragraph)) entries.now) }
{
    if !begins_paragraph(entries, paragraph) {
        return Ok((None, entries));
    }
    let (computer, rest) = computer(alloc, paragraph, entries)?;
    Ok((Some(computer), rest))
}

/// `CRT STATUS [IS] name .`
#[tactic(auto, unfolding(cob_base::specs::Front::crt_status))]
fn crt_status(
    alloc: Global,
    line: Line,
    words: &[Token],
) -> Result<(CrtStatus, &[Token]), PhraseFault>
    ensures { Gives (λ x. (x.0, x.1.now)) result (read (front.crt_status line) words.now) }
{
    let rest = expect(words, Keyword::Crt)?;
    let rest = expect(rest, Keyword::Status)?;
    let (_is, rest) = noise(rest, Keyword::Is);
    let (name, rest) = name_words(alloc, rest)?;
    Ok((CrtStatus { line, name }, rest))
}

fn crt_status_entry(
    alloc: Global,
    entries: &[SeenEntry],
) -> Result<(CrtStatus, &[SeenEntry]), EntryFault>
    ensures { EntryGives (λ x. (x.0, x.1.now)) result (read_entries (entry front.crt_status) entries.now) }
{
    entry(alloc, &crt_status, entries)
}

/// Whether CRT STATUS comes next.
#[tactic(auto, unfolding(cob_base::specs::Front::crt_status, cob_base::specs::Front::name_entry, cob_base::specs::Phrases::name, cob_base::specs::Phrases::noise))]
fn opens_crt_status(line: Line, words: &[Token]) -> bool
    ensures { result ≡ opens (front.crt_status line) words.now }
{
    match words {
        [Token::Key(have), Token::Key(after), ..] => same_key(*have, Keyword::Crt)
            && same_key(*after, Keyword::Status),
        _ => false,
    }
}

/// Whether the next entry begins with CRT STATUS.
fn begins_crt_status(entries: &[SeenEntry]) -> bool
    ensures { result ≡ begins (entry front.crt_status) entries.now }
{
    match entries {
        [entry, ..] => opens_crt_status(entry.line, entry.tokens.as_slice()),
        [] => false,
    }
}

/// `[CRT STATUS [IS] name .]`
fn optional_crt_status(
    alloc: Global,
    entries: &[SeenEntry],
) -> Result<(Option<CrtStatus>, &[SeenEntry]), EntryFault>
    ensures { EntryGives (λ x. (x.0, x.1.now)) result (read_entries (optional (entry front.crt_status)) entries.now) }
{
    if !begins_crt_status(entries) {
        return Ok((None, entries));
    }
    let (status, rest) = crt_status_entry(alloc, entries)?;
    Ok((Some(status), rest))
}

/// `SPECIAL-NAMES . [CRT STATUS [IS] name .]`
#[tactic(auto, unfolding(cob_base::specs::Front::special_names))]
fn special_names(
    alloc: Global,
    entries: &[SeenEntry],
) -> Result<(SpecialNames, &[SeenEntry]), EntryFault>
    ensures { EntryGives (λ x. (x.0, x.1.now)) result (read_entries front.special_names entries.now) }
{
    let (_header, rest) = paragraph_header(entries, Keyword::SpecialNames)?;
    let (crt_status, rest) = optional_crt_status(alloc, rest)?;
    Ok((SpecialNames { crt_status }, rest))
}

#[tactic(auto, using(crate::proofs::FrontDispatch::begins_special_names_is))]
fn optional_special_names(
    alloc: Global,
    entries: &[SeenEntry],
) -> Result<(Option<SpecialNames>, &[SeenEntry]), EntryFault>
    ensures { EntryGives (λ x. (x.0, x.1.now)) result (read_entries (optional front.special_names) entries.now) }
{
    if !begins_paragraph(entries, Keyword::SpecialNames) {
        return Ok((None, entries));
    }
    let (names, rest) = special_names(alloc, entries)?;
    Ok((Some(names), rest))
}

/// The configuration section.
#[tactic(auto, unfolding(cob_base::specs::Front::configuration))]
fn configuration(
    alloc: Global,
    entries: &[SeenEntry],
) -> Result<(Configuration, &[SeenEntry]), EntryFault>
    ensures { EntryGives (λ x. (x.0, x.1.now)) result (read_entries front.configuration entries.now) }
{
    let (_header, rest) = section_header(entries, Keyword::Configuration, Keyword::Section)?;
    let (source_computer, rest) = optional_computer(alloc, Keyword::SourceComputer, rest)?;
    let (object_computer, rest) = optional_computer(alloc, Keyword::ObjectComputer, rest)?;
    let (special_names, rest) = optional_special_names(alloc, rest)?;
    Ok((
        Configuration {
            source_computer,
            object_computer,
            special_names,
        },
        rest,
    ))
}

#[tactic(auto, using(crate::proofs::FrontDispatch::begins_configuration_is))]
fn optional_configuration(
    alloc: Global,
    entries: &[SeenEntry],
) -> Result<(Option<Configuration>, &[SeenEntry]), EntryFault>
    ensures { EntryGives (λ x. (x.0, x.1.now)) result (read_entries (optional front.configuration) entries.now) }
{
    if !begins_section(entries, Keyword::Configuration, Keyword::Section) {
        return Ok((None, entries));
    }
    let (section, rest) = configuration(alloc, entries)?;
    Ok((Some(section), rest))
}

/// `text|name`
#[tactic(auto, unfolding(cob_base::specs::FileEntries::assigned))]
fn assigned(alloc: Global, words: &[Token]) -> Result<(Assigned, &[Token]), PhraseFault>
    ensures { Gives (λ x. (x.0, x.1.now)) result (read files.assigned words.now) }
{
    match words {
        [Token::Text(text), rest @ ..] => Ok((Assigned::Text(text.copy(alloc)?), rest)),
        [Token::Name(name), rest @ ..] => Ok((Assigned::Name(name.copy(alloc)?), rest)),
        _ => Err(no_fit()),
    }
}

fn file_clauses(
    alloc: Global,
    words: &[Token],
) -> Result<(Items<FileClause>, &[Token]), PhraseFault>
    ensures { Gives (λ x. (x.0, x.1.now)) result (read (many_words files.file_clause) words.now) }
{
    many(alloc, 0, &opens_file_clause, &file_clause, words)
}

/// `SELECT [OPTIONAL] name ASSIGN [TO] (text|name) fileclause* .`
#[tactic(auto, unfolding(cob_base::specs::FileEntries::select))]
fn select(alloc: Global, line: Line, words: &[Token]) -> Result<(FileEntry, &[Token]), PhraseFault>
    ensures { Gives (λ x. (x.0, x.1.now)) result (read (files.select line) words.now) }
{
    let rest = expect(words, Keyword::Select)?;
    let (optional, rest) = noise(rest, Keyword::Optional);
    let (name, rest) = name(alloc, rest)?;
    let rest = expect(rest, Keyword::Assign)?;
    let (_to, rest) = noise(rest, Keyword::To);
    let (assigned, rest) = assigned(alloc, rest)?;
    let (clauses, rest) = file_clauses(alloc, rest)?;
    let rest = full_stop(rest)?;
    Ok((
        FileEntry {
            line,
            optional,
            name,
            assigned,
            clauses,
        },
        rest,
    ))
}

fn select_entry(
    alloc: Global,
    entries: &[SeenEntry],
) -> Result<(FileEntry, &[SeenEntry]), EntryFault>
    ensures { EntryGives (λ x. (x.0, x.1.now)) result (read_entries (entry files.select) entries.now) }
{
    entry(alloc, &select, entries)
}

/// Whether the next entry begins with SELECT.
#[tactic(auto, using(crate::proofs::FrontDispatch::opens_select_is))]
fn begins_select(entries: &[SeenEntry]) -> bool
    ensures { result ≡ begins (entry files.select) entries.now }
{
    match entries {
        [entry, ..] => next_is(entry.tokens.as_slice(), Keyword::Select),
        [] => false,
    }
}

fn selects(
    alloc: Global,
    entries: &[SeenEntry],
) -> Result<(Items<FileEntry>, &[SeenEntry]), EntryFault>
    ensures { EntryGives (λ x. (x.0, x.1.now)) result (read_entries (many (entry files.select)) entries.now) }
{
    many_entries(alloc, &begins_select, &select_entry, entries)
}

/// `FILE-CONTROL . select*`
#[tactic(auto, unfolding(cob_base::specs::Front::file_control))]
fn file_control(
    alloc: Global,
    entries: &[SeenEntry],
) -> Result<(Items<FileEntry>, &[SeenEntry]), EntryFault>
    ensures { EntryGives (λ x. (x.0, x.1.now)) result (read_entries front.file_control entries.now) }
{
    let (_header, rest) = paragraph_header(entries, Keyword::FileControl)?;
    let (files, rest) = selects(alloc, rest)?;
    Ok((files, rest))
}

#[tactic(auto, using(crate::proofs::FrontDispatch::begins_file_control_is))]
fn optional_file_control(
    alloc: Global,
    entries: &[SeenEntry],
) -> Result<(Option<Items<FileEntry>>, &[SeenEntry]), EntryFault>
    ensures { EntryGives (λ x. (x.0, x.1.now)) result (read_entries (optional front.file_control) entries.now) }
{
    if !begins_paragraph(entries, Keyword::FileControl) {
        return Ok((None, entries));
    }
    let (files, rest) = file_control(alloc, entries)?;
    Ok((Some(files), rest))
}

/// The input-output section.
#[tactic(auto, unfolding(cob_base::specs::Front::input_output))]
fn input_output(
    alloc: Global,
    entries: &[SeenEntry],
) -> Result<(InputOutput, &[SeenEntry]), EntryFault>
    ensures { EntryGives (λ x. (x.0, x.1.now)) result (read_entries front.input_output entries.now) }
{
    let (_header, rest) = section_header(entries, Keyword::InputOutput, Keyword::Section)?;
    let (file_control, rest) = optional_file_control(alloc, rest)?;
    Ok((InputOutput { file_control }, rest))
}

#[tactic(auto, using(crate::proofs::FrontDispatch::begins_input_output_is))]
fn optional_input_output(
    alloc: Global,
    entries: &[SeenEntry],
) -> Result<(Option<InputOutput>, &[SeenEntry]), EntryFault>
    ensures { EntryGives (λ x. (x.0, x.1.now)) result (read_entries (optional front.input_output) entries.now) }
{
    if !begins_section(entries, Keyword::InputOutput, Keyword::Section) {
        return Ok((None, entries));
    }
    let (section, rest) = input_output(alloc, entries)?;
    Ok((Some(section), rest))
}

/// The environment division.
#[tactic(auto, unfolding(cob_base::specs::Front::environment))]
fn environment(
    alloc: Global,
    entries: &[SeenEntry],
) -> Result<(Environment, &[SeenEntry]), EntryFault>
    ensures { EntryGives (λ x. (x.0, x.1.now)) result (read_entries front.environment entries.now) }
{
    let (_header, rest) = section_header(entries, Keyword::Environment, Keyword::Division)?;
    let (configuration, rest) = optional_configuration(alloc, rest)?;
    let (input_output, rest) = optional_input_output(alloc, rest)?;
    Ok((
        Environment {
            configuration,
            input_output,
        },
        rest,
    ))
}

/// The environment division, where it comes next.
#[tactic(auto, using(crate::proofs::FrontDispatch::begins_environment_is))]
pub fn optional_environment(
    alloc: Global,
    entries: &[SeenEntry],
) -> Result<(Option<Environment>, &[SeenEntry]), EntryFault>
    ensures { EntryGives (λ x. (x.0, x.1.now)) result (read_entries (optional front.environment) entries.now) }
{
    if !begins_section(entries, Keyword::Environment, Keyword::Division) {
        return Ok((None, entries));
    }
    let (division, rest) = environment(alloc, entries)?;
    Ok((Some(division), rest))
}
