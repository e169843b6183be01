//! The data division.

ghost use Rattle.std.specs.Prelude.{◌≡◌};
ghost use Rattle.cob_base.specs.DataEntries as data_entries;
ghost use Rattle.cob_base.specs.EntryForm.EntryForm.{entry, optional, some};
ghost use Rattle.cob_base.specs.EntryForm.{begins, many};
ghost use Rattle.cob_base.specs.Front as front;
ghost use Rattle.cob_base.specs.ScreenEntries as screen_entries;
ghost use Rattle.phrase_parser.specs.EntryReading.{EntryGives, read_entries};
ghost use Rattle.phrase_parser.specs.Reading.{Gives, read};

use crate::headers::{begins_section, name_words, section_header};
use cob_base::{
    ByteText, DataDivision, DataEntry, FileDescription, Items, Keyword, Line, ScreenEntry,
    SeenEntry, Token,
};
use entry_parser::{data_entry, opens_data_entry, opens_level, screen_entry};
use phrase_parser::{EntryFault, PhraseFault, entry, expect, many_entries, next_is, some_entries};
use std::alloc::Global;

/// A data description entry, as a member of a list.
fn one_data_entry(
    alloc: Global,
    line: Line,
    words: &[Token],
) -> Result<(DataEntry, &[Token]), PhraseFault>
    ensures { Gives (λ x. (x.0, x.1.now)) result (read (data_entries.data_entry line) words.now) }
{
    data_entry(alloc, line, words)
}

#[tactic(auto, unfolding(cob_base::specs::Front::item))]
fn item(alloc: Global, entries: &[SeenEntry]) -> Result<(DataEntry, &[SeenEntry]), EntryFault>
    ensures { EntryGives (λ x. (x.0, x.1.now)) result (read_entries front.item entries.now) }
{
    entry(alloc, &one_data_entry, entries)
}

/// Whether the next entry begins with a level or with 88.
#[tactic(auto, unfolding(cob_base::specs::Front::item))]
fn begins_item(entries: &[SeenEntry]) -> bool
    ensures { result ≡ begins front.item entries.now }
{
    match entries {
        [entry, ..] => opens_data_entry(entry.line, entry.tokens.as_slice()),
        [] => false,
    }
}

fn items(
    alloc: Global,
    entries: &[SeenEntry],
) -> Result<(Items<DataEntry>, &[SeenEntry]), EntryFault>
    ensures { EntryGives (λ x. (x.0, x.1.now)) result (read_entries (many front.item) entries.now) }
{
    many_entries(alloc, &begins_item, &item, entries)
}

fn some_items(
    alloc: Global,
    entries: &[SeenEntry],
) -> Result<(Items<DataEntry>, &[SeenEntry]), EntryFault>
    ensures { EntryGives (λ x. (x.0, x.1.now)) result (read_entries (some front.item) entries.now) }
{
    some_entries(alloc, &begins_item, &item, entries)
}

/// A screen description entry, as a member of a list.
fn one_screen_entry(
    alloc: Global,
    line: Line,
    words: &[Token],
) -> Result<(ScreenEntry, &[Token]), PhraseFault>
    ensures { Gives (λ x. (x.0, x.1.now)) result (read (screen_entries.screen_entry line) words.now) }
{
    screen_entry(alloc, line, words)
}

#[tactic(auto, unfolding(cob_base::specs::Front::screen))]
fn screen(alloc: Global, entries: &[SeenEntry]) -> Result<(ScreenEntry, &[SeenEntry]), EntryFault>
    ensures { EntryGives (λ x. (x.0, x.1.now)) result (read_entries front.screen entries.now) }
{
    entry(alloc, &one_screen_entry, entries)
}

/// Whether the next entry begins with a level.
#[tactic(auto, unfolding(cob_base::specs::Front::screen), using(crate::proofs::FrontDispatch::opens_screen_entry_is))]
fn begins_screen(entries: &[SeenEntry]) -> bool
    ensures { result ≡ begins front.screen entries.now }
{
    match entries {
        [entry, ..] => opens_level(entry.tokens.as_slice()),
        [] => false,
    }
}

fn screens(
    alloc: Global,
    entries: &[SeenEntry],
) -> Result<(Items<ScreenEntry>, &[SeenEntry]), EntryFault>
    ensures { EntryGives (λ x. (x.0, x.1.now)) result (read_entries (many front.screen) entries.now) }
{
    many_entries(alloc, &begins_screen, &screen, entries)
}

/// `FD name .`
#[tactic(auto, unfolding(cob_base::specs::Front::fd_entry))]
fn fd(
    alloc: Global,
    line: Line,
    words: &[Token],
) -> Result<((Line, ByteText), &[Token]), PhraseFault>
    ensures { Gives (λ x. (x.0, x.1.now)) result (read (front.fd_entry line) words.now) }
{
    let rest = expect(words, Keyword::Fd)?;
    let (name, rest) = name_words(alloc, rest)?;
    Ok(((line, name), rest))
}

fn fd_entry(
    alloc: Global,
    entries: &[SeenEntry],
) -> Result<((Line, ByteText), &[SeenEntry]), EntryFault>
    ensures { EntryGives (λ x. (x.0, x.1.now)) result (read_entries (entry front.fd_entry) entries.now) }
{
    entry(alloc, &fd, entries)
}

/// `FD name . item+`
#[tactic(auto, unfolding(cob_base::specs::Front::file_description))]
fn file_description(
    alloc: Global,
    entries: &[SeenEntry],
) -> Result<(FileDescription, &[SeenEntry]), EntryFault>
    ensures { EntryGives (λ x. (x.0, x.1.now)) result (read_entries front.file_description entries.now) }
{
    let ((line, name), rest) = fd_entry(alloc, entries)?;
    let (records, rest) = some_items(alloc, rest)?;
    Ok((
        FileDescription {
            line,
            name,
            records,
        },
        rest,
    ))
}

/// Whether the next entry begins with FD.
#[tactic(auto, unfolding(cob_base::specs::Front::file_description), using(crate::proofs::FrontDispatch::opens_fd_is))]
fn begins_file_description(entries: &[SeenEntry]) -> bool
    ensures { result ≡ begins front.file_description entries.now }
{
    match entries {
        [entry, ..] => next_is(entry.tokens.as_slice(), Keyword::Fd),
        [] => false,
    }
}

fn file_descriptions(
    alloc: Global,
    entries: &[SeenEntry],
) -> Result<(Items<FileDescription>, &[SeenEntry]), EntryFault>
    ensures { EntryGives (λ x. (x.0, x.1.now)) result (read_entries (many front.file_description) entries.now) }
{
    many_entries(alloc, &begins_file_description, &file_description, entries)
}

/// The file section.
#[tactic(auto, unfolding(cob_base::specs::Front::file_section))]
fn file_section(
    alloc: Global,
    entries: &[SeenEntry],
) -> Result<(Items<FileDescription>, &[SeenEntry]), EntryFault>
    ensures { EntryGives (λ x. (x.0, x.1.now)) result (read_entries front.file_section entries.now) }
{
    let (_header, rest) = section_header(entries, Keyword::File, Keyword::Section)?;
    let (described, rest) = file_descriptions(alloc, rest)?;
    Ok((described, rest))
}

#[tactic(auto, using(crate::proofs::FrontDispatch::begins_file_section_is))]
fn optional_file_section(
    alloc: Global,
    entries: &[SeenEntry],
) -> Result<(Option<Items<FileDescription>>, &[SeenEntry]), EntryFault>
    ensures { EntryGives (λ x. (x.0, x.1.now)) result (read_entries (optional front.file_section) entries.now) }
{
    if !begins_section(entries, Keyword::File, Keyword::Section) {
        return Ok((None, entries));
    }
    let (section, rest) = file_section(alloc, entries)?;
    Ok((Some(section), rest))
}

/// The working-storage section.
#[tactic(auto, unfolding(cob_base::specs::Front::working_storage))]
fn working_storage(
    alloc: Global,
    entries: &[SeenEntry],
) -> Result<(Items<DataEntry>, &[SeenEntry]), EntryFault>
    ensures { EntryGives (λ x. (x.0, x.1.now)) result (read_entries front.working_storage entries.now) }
{
    let (_header, rest) = section_header(entries, Keyword::WorkingStorage, Keyword::Section)?;
    let (described, rest) = items(alloc, rest)?;
    Ok((described, rest))
}

#[tactic(auto, using(crate::proofs::FrontDispatch::begins_working_storage_is))]
fn optional_working_storage(
    alloc: Global,
    entries: &[SeenEntry],
) -> Result<(Option<Items<DataEntry>>, &[SeenEntry]), EntryFault>
    ensures { EntryGives (λ x. (x.0, x.1.now)) result (read_entries (optional front.working_storage) entries.now) }
{
    if !begins_section(entries, Keyword::WorkingStorage, Keyword::Section) {
        return Ok((None, entries));
    }
    let (section, rest) = working_storage(alloc, entries)?;
    Ok((Some(section), rest))
}

/// The screen section.
#[tactic(auto, unfolding(cob_base::specs::Front::screen_section))]
fn screen_section(
    alloc: Global,
    entries: &[SeenEntry],
) -> Result<(Items<ScreenEntry>, &[SeenEntry]), EntryFault>
    ensures { EntryGives (λ x. (x.0, x.1.now)) result (read_entries front.screen_section entries.now) }
{
    let (_header, rest) = section_header(entries, Keyword::Screen, Keyword::Section)?;
    let (described, rest) = screens(alloc, rest)?;
    Ok((described, rest))
}

#[tactic(auto, using(crate::proofs::FrontDispatch::begins_screen_section_is))]
fn optional_screen_section(
    alloc: Global,
    entries: &[SeenEntry],
) -> Result<(Option<Items<ScreenEntry>>, &[SeenEntry]), EntryFault>
    ensures { EntryGives (λ x. (x.0, x.1.now)) result (read_entries (optional front.screen_section) entries.now) }
{
    if !begins_section(entries, Keyword::Screen, Keyword::Section) {
        return Ok((None, entries));
    }
    let (section, rest) = screen_section(alloc, entries)?;
    Ok((Some(section), rest))
}

/// The data division.
#[tactic(auto, unfolding(cob_base::specs::Front::data_division))]
fn data_division(
    alloc: Global,
    entries: &[SeenEntry],
) -> Result<(DataDivision, &[SeenEntry]), EntryFault>
    ensures { EntryGives (λ x. (x.0, x.1.now)) result (read_entries front.data_division entries.now) }
{
    let (_header, rest) = section_header(entries, Keyword::Data, Keyword::Division)?;
    let (files, rest) = optional_file_section(alloc, rest)?;
    let (working_storage, rest) = optional_working_storage(alloc, rest)?;
    let (screens, rest) = optional_screen_section(alloc, rest)?;
    Ok((
        DataDivision {
            files,
            working_storage,
            screens,
        },
        rest,
    ))
}

/// The data division, where it comes next.
#[tactic(auto, using(crate::proofs::FrontDispatch::begins_data_division_is))]
pub fn optional_data_division(
    alloc: Global,
    entries: &[SeenEntry],
) -> Result<(Option<DataDivision>, &[SeenEntry]), EntryFault>
    ensures { EntryGives (λ x. (x.0, x.1.now)) result (read_entries (optional front.data_division) entries.now) }
{
    if !begins_section(entries, Keyword::Data, Keyword::Division) {
        return Ok((None, entries));
    }
    let (division, rest) = data_division(alloc, entries)?;
    Ok((Some(division), rest))
}
