ghost use Rattle.std.specs.Prelude.{◌≡◌, ℕ, ◌+◌, ◌^◌, ◌<◌, List, drop, [], ◌∷◌, ◌++◌, All, length, OnOk, IfOk, IfSome, map};
ghost use Rattle.std.specs.Option.{option_copied};
ghost use Rattle.data_layout.specs.Rows.{rank, next_level, is_above, sign_size, picture_text, IsRow, AreAllRows, sections, data_sections, leading_conditions, strays, file_section, or_none};
ghost use Rattle.cob_base.specs.declared.data_entries.DataEntry.{DataEntry};
ghost use Rattle.data_layout.specs.declared.row.Row.{Row};
ghost use Rattle.data_layout.specs.declared.row.Described.{Described};
ghost use Rattle.data_layout.specs.Gathered.{IsReading, Adds, Goes};

use crate::clauses;
use crate::levels::rank_of;
use crate::row::{Described, Row, Spelled};
use cob_base::{
    ByteText, DataDivision, DataEntry, FileDescription, Front, ItemEntry, Items, Line, NoMemory,
};
use picture_rule::{Picture, PictureFault, SignPlace, read_picture};
use std::alloc::Global;

/// The rows of a program's entries, what the items take from them as it is, and the lines of the 88 entries that stand after
/// no item.
#[derive(Drop)]
pub struct Gathered {
    pub rows: Vec<Row>,
    pub texts: Vec<Described>,
    pub strays: Vec<Line>,
}

/// A picture as it was read.
#[derive(Drop)]
pub struct Reading {
    pub spelled: Spelled,
    pub size: u64,
    pub picture: Option<Picture>,
}

/// Gathers all rows: those of the files' records in order, then those of working storage.
pub fn gather(alloc: Global, front: &Front) -> Result<Gathered, NoMemory>
    ensures { IfOk result (λ gathered. AreAllRows 0 (sections front.now) gathered.rows.items gathered.texts.items × (gathered.strays.items ≡ strays (sections front.now))) }
{
    let mut gathered = Gathered {
        rows: Vec::new(alloc),
        texts: Vec::new(alloc),
        strays: Vec::new(alloc),
    };
    match &front.data {
        None => Ok(gathered),
        Some(data) => {
            gathered.add_data(alloc, data)?;
            Ok(gathered)
        }
    }
}

fn items_or_none<T>(items: &Option<Items<T>>) -> &[T]
    ensures { result.now ≡ or_none items.now }
{
    match items {
        Some(items) => items.as_slice(),
        None => &[],
    }
}

impl Gathered {
    fn add_data(&mut self, alloc: Global, division: &DataDivision) -> Result<(), NoMemory>
        ensures { OnOk result (Adds (data_sections (Some division.now)) self.old self.new) }
    {
        self.add_files(alloc, items_or_none(&division.files))?;
        self.add_section(alloc, false, items_or_none(&division.working_storage))?;
        Ok(())
    }

    fn add_files(&mut self, alloc: Global, files: &[FileDescription]) -> Result<(), NoMemory>
        ensures { OnOk result (Adds (map file_section files.now) self.old self.new) }
    {
        for file in files {
            self.add_section(alloc, true, file.records.as_slice())?;
        }
        Ok(())
    }

    fn add_section(
        &mut self,
        alloc: Global,
        in_file: bool,
        entries: &[DataEntry],
    ) -> Result<(), NoMemory>
        ensures { OnOk result (Adds (record { in_file = in_file; entries = entries.now } ∷ []) self.old self.new) }
    {
        push_strays(&mut self.strays, entries)?;
        let mut starts = true;
        for (at, entry) in entries.iter().enumerate() {
            starts = self.add_entry(alloc, in_file, starts, entry, &entries[at + 1..])?;
        }
        Ok(())
    }

    /// Adds the row of an item's entry, which the rest follows. Says whether no item of the section has come yet.
    fn add_entry(
        &mut self,
        alloc: Global,
        in_file: bool,
        starts: bool,
        entry: &DataEntry,
        rest: &[DataEntry],
    ) -> Result<bool, NoMemory>
        ensures { (entries : List DataEntry) (i : ℕ) (rows : List Row) (texts : List Described) → drop i entries ≡ entry.now ∷ drop (i + 1) entries → rest.now ≡ drop (i + 1) entries
            → Goes in_file starts entries i rows self.old.rows.items texts self.old.texts.items
            → IfOk result (λ still. Goes in_file still entries (i + 1) rows self.new.rows.items texts self.new.texts.items × (self.new.strays.items ≡ self.old.strays.items)) }
    {
        match entry {
            DataEntry::Condition(_) => Ok(starts),
            DataEntry::Item(item) => {
                let number = count(self.rows.len())?;
                let (row, text) = row_of(alloc, number, in_file, starts, item, rest)?;
                self.rows.push(row)?;
                self.texts.push(text)?;
                Ok(false)
            }
        }
    }
}

/// So many rows, where there are not too many to be counted.
fn count(rows: usize) -> Result<u32, NoMemory>
    ensures { IfOk result (λ number. number ≡ rows) }
{
    u32::try_from(rows).map_err(|_| NoMemory)
}

fn push_strays(strays: &mut Vec<Line>, entries: &[DataEntry]) -> Result<(), NoMemory>
    ensures { OnOk result (strays.new.items ≡ strays.old.items ++ leading_conditions entries.now) }
{
    for entry in entries {
        match entry {
            DataEntry::Item(_) => return Ok(()),
            DataEntry::Condition(condition) => strays.push(condition.line)?,
        }
    }
    Ok(())
}

fn row_of(
    alloc: Global,
    number: u32,
    in_file: bool,
    starts: bool,
    entry: &ItemEntry,
    rest: &[DataEntry],
) -> Result<(Row, Described), NoMemory>
    ensures { IfOk result (λ made. IsRow in_file starts number entry.now rest.now made.0 made.1) }
{
    let clauses = entry.clauses.as_slice();
    let reading = reading_of(alloc, clauses::picture(clauses), clauses::sign(clauses))?;
    let text = Described {
        name: copy_name(alloc, &entry.name)?,
        picture: reading.picture,
    };
    let row = Row {
        number,
        line: entry.line,
        level: entry.level,
        in_file,
        starts,
        group: has_members(entry.level, rest),
        occurs: clauses::occurs(clauses),
        twice: clauses::is_written_twice(clauses),
        spelled: reading.spelled,
        size: reading.size,
    };
    Ok((row, text))
}

fn copy_name(alloc: Global, name: &Option<ByteText>) -> Result<Option<ByteText>, NoMemory>
    ensures { IfOk result (λ copy. copy ≡ name.now) }
{
    match name {
        None => Ok(None),
        Some(name) => Ok(Some(name.copy(alloc)?)),
    }
}

/// Whether members follow an item of this level.
fn has_members(level: u8, rest: &[DataEntry]) -> bool
    ensures { result ≡ is_above level (next_level rest.now) }
{
    for entry in rest {
        if let DataEntry::Item(item) = entry {
            return rank_of(level) < rank_of(item.level);
        }
    }
    false
}

/// What the text after PICTURE comes to, with the sign at this place.
pub fn reading_of(
    alloc: Global,
    text: Option<&ByteText>,
    place: SignPlace,
) -> Result<Reading, NoMemory>
    ensures { IfOk result (λ reading. IsReading (option_copied text.entry) place reading) }
{
    match text {
        None => Ok(no_picture(Spelled::Missing)),
        Some(text) => read_text(alloc, text.as_bytes(), place),
    }
}

fn read_text(alloc: Global, text: &[u8], place: SignPlace) -> Result<Reading, NoMemory>
    ensures { IfOk result (λ reading. IsReading (Some text.now) place reading) }
{
    match read_picture(alloc, text) {
        Ok(picture) => Ok(sized(picture.with_sign(place))),
        Err(PictureFault::NoPicture) => Ok(no_picture(Spelled::Unreadable)),
        Err(PictureFault::TooWide { size, signed, .. }) => Ok(Reading {
            spelled: Spelled::TooWide,
            size: u64::from(size) + sign_bytes_of(signed, place),
            picture: None,
        }),
        Err(PictureFault::NoMemory) => Err(NoMemory),
    }
}

fn sized(picture: Picture) -> Reading
    ensures spelled { result.spelled ≡ Spelled.Fits }
    ensures size { result.size ≡ picture.size }
    ensures picture { result.picture ≡ Some picture }
{
    let size = u64::from(picture.size);
    Reading {
        spelled: Spelled::Fits,
        size,
        picture: Some(picture),
    }
}

fn no_picture(spelled: Spelled) -> Reading
    ensures spelled { result.spelled ≡ spelled }
    ensures size { result.size ≡ 0 }
    ensures picture { result.picture ≡ None }
{
    Reading {
        spelled,
        size: 0,
        picture: None,
    }
}

/// The bytes of a separate sign, which only a signed picture has.
fn sign_bytes_of(signed: bool, place: SignPlace) -> u64
    ensures { result ≡ sign_size signed place }
{
    if !signed {
        return 0;
    }
    match place {
        SignPlace::Inside => 0,
        SignPlace::Leading => 1,
        SignPlace::Trailing => 1,
    }
}
