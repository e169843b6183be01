ghost use Rattle.std.specs.Prelude.{◌≡◌, ◌++◌, length, map, All, OnOk, IfOk};
ghost use Rattle.std.specs.Option.{option_copied};
ghost use Rattle.picture_rule.specs.Text.{IsWhole};
ghost use Rattle.data_layout.specs.Rows.{sections, AreAllRows};
ghost use Rattle.data_names.specs.Parts.{item_entries};
ghost use Rattle.data_names.specs.Items.{sources, file_sources, IsTold, IsToldWhole, AreDataItems};
ghost use Rattle.data_names.specs.Seen.{seen_source, seen_item, filed, IsToldItem, IsToldWholeItem};

use crate::item_clauses;
use crate::parts::{descriptions, working_storage};
use cob_base::{ByteText, DataEntry, FileDescription, Front, ItemEntry, NoMemory};
use data_layout::{Described, Row};
use picture_rule::{PictureFault, PictureKind, read_picture};
use std::alloc::Global;

/// The entry of an item, and where it stands.
#[derive(Clone, Copy, Debug)]
pub struct FiledEntry<'a> {
    /// The number of the file description under which it stands, counted from 0; None in working storage.
    pub file: Option<usize>,
    pub entry: &'a ItemEntry,
}

/// What the text after PICTURE spells, whatever its size.
#[derive(Clone, Copy, Debug, PartialEq, Eq)]
pub struct Told {
    /// The category; None where there is no picture.
    pub kind: Option<PictureKind>,
    /// Whether there is an S.
    pub signed: bool,
    /// Whether there is a picture, and it has no decimals.
    pub whole: bool,
}

/// An item of the data division.
#[derive(Clone, Copy, Debug)]
pub struct KnownItem<'a> {
    pub source: FiledEntry<'a>,
    /// What of its entry decides its place.
    pub row: Row,
    /// Its name, and its picture where that keeps the limits.
    pub text: &'a Described,
    pub told: Told,
}

/// The entries of all items, those of the files in order and then those of working storage.
fn sources_of<'a>(alloc: Global, front: &'a Front) -> Result<Vec<FiledEntry<'a>>, NoMemory>
    ensures { IfOk result (λ made. map seen_source made.items ≡ sources front.entry.now) }
{
    let mut sources = file_sources(alloc, descriptions(front))?;
    push_sources(&mut sources, None, working_storage(front))?;
    Ok(sources)
}

/// The entries of the files' items.
fn file_sources<'a>(
    alloc: Global,
    files: &'a [FileDescription],
) -> Result<Vec<FiledEntry<'a>>, NoMemory>
    ensures { IfOk result (λ made. map seen_source made.items ≡ file_sources 0 files.entry.now) }
{
    let mut sources = Vec::new(alloc);
    for (number, file) in files.iter().enumerate() {
        push_sources(&mut sources, Some(number), file.records.as_slice())?;
    }
    Ok(sources)
}

fn push_sources<'a>(
    sources: &mut Vec<FiledEntry<'a>>,
    file: Option<usize>,
    entries: &'a [DataEntry],
) -> Result<(), NoMemory>
    ensures { OnOk result (map seen_source sources.exit.now.items ≡ map seen_source sources.entry.now.items ++ map (filed file) (item_entries entries.entry.now)) }
{
    for entry in entries {
        if let DataEntry::Item(entry) = entry {
            sources.push(FiledEntry { file, entry })?;
        }
    }
    Ok(())
}

/// What the text after PICTURE spells.
pub fn tell(alloc: Global, text: Option<&ByteText>) -> Result<Told, NoMemory>
    ensures told { IfOk result (λ told. IsTold (option_copied text.entry) told.kind told.signed) }
    ensures whole { IfOk result (λ told. IsToldWhole (option_copied text.entry) told.whole) }
{
    match text {
        None => Ok(Told {
            kind: None,
            signed: false,
            whole: false,
        }),
        Some(text) => tell_text(alloc, text.as_bytes()),
    }
}

fn tell_text(alloc: Global, text: &[u8]) -> Result<Told, NoMemory>
    ensures told { IfOk result (λ told. IsTold (Some text.now) told.kind told.signed) }
    ensures whole { IfOk result (λ told. IsWhole text.now told.whole) }
{
    match read_picture(alloc, text) {
        Ok(picture) => Ok(Told {
            kind: Some(picture.kind),
            signed: picture.signed,
            whole: picture.decimals == 0,
        }),
        Err(PictureFault::NoPicture) => Ok(Told {
            kind: None,
            signed: false,
            whole: false,
        }),
        Err(
            PictureFault::TooWide {
                kind,
                signed,
                whole,
                ..
            },
        ) => Ok(Told {
            kind: Some(kind),
            signed,
            whole,
        }),
        Err(PictureFault::NoMemory) => Err(NoMemory),
    }
}

/// The items of a program, in the order of their entries. The rows and texts are those that were gathered of it.
pub fn known_items<'a>(
    alloc: Global,
    front: &'a Front,
    rows: &[Row],
    texts: &'a [Described],
) -> Result<Vec<KnownItem<'a>>, NoMemory>
    requires { AreAllRows 0 (sections front.now) rows.now texts.now }
    ensures { IfOk result (λ items. AreDataItems front.entry.now (map seen_item items.items)) }
{
    let sources = sources_of(alloc, front)?;
    let items = join(alloc, sources.as_slice(), rows, texts)?;
    Ok(items)
}

/// Items of entries, rows and texts, which go together one by one.
fn join<'a>(
    alloc: Global,
    sources: &[FiledEntry<'a>],
    rows: &[Row],
    texts: &'a [Described],
) -> Result<Vec<KnownItem<'a>>, NoMemory>
    requires rows { length rows.now ≡ length sources.now }
    requires texts { length texts.now ≡ length sources.now }
    ensures sources { IfOk result (λ items. map (λ item. seen_source item.source) items.items ≡ map seen_source sources.entry.now) }
    ensures rows { IfOk result (λ items. map (λ item. item.row) items.items ≡ rows.now) }
    ensures texts { IfOk result (λ items. map (λ item. item.text.now) items.items ≡ texts.entry.now) }
    ensures told { IfOk result (λ items. All IsToldItem items.items) }
    ensures whole { IfOk result (λ items. All IsToldWholeItem items.items) }
{
    let mut items = Vec::new(alloc);
    for (at, source) in sources.iter().enumerate() {
        let told = tell(
            alloc,
            item_clauses::picture(source.entry.clauses.as_slice()),
        )?;
        items.push(KnownItem {
            source: *source,
            row: rows[at],
            text: &texts[at],
            told,
        })?;
    }
    Ok(items)
}
