ghost use Rattle.std.specs.Prelude.{◌≡◌, ◌<◌, ◌≤◌, false, List, Some, length, IsPermutation, IfOk, slice_get};
ghost use Rattle.data_layout.specs.Storage.{storage};
ghost use Rattle.data_names.specs.Items.{DataItem, AreDataItems};
ghost use Rattle.data_names.specs.Parts.{files};
ghost use Rattle.data_names.specs.Spots.{Spot, spots};
ghost use Rattle.data_names.specs.Table.{IsTable, items_of};
ghost use Rattle.cob_base.specs.declared.operands.Reference.{Reference};
ghost use Rattle.entry_clauses.specs.Clauses.{record_key, alternates};
ghost use Rattle.sharing_table.specs.declared.shape.KeyPlace.{KeyPlace};
ghost use Rattle.key_rules.specs.Descriptions.{AreDescriptions};
ghost use Rattle.cobol_checker.specs.Judged.{IsFaultless};
ghost use Rattle.cobol_checker.specs.Sound.{IsPlaceAt, IsPlaceOf, IsKeyIn, AreKeysIn, IsPrimeIn, IsRecordAt, AreApart, IsSoundFile, AreSoundFiles, rank};
ghost use Rattle.sharing_table.specs.Sound.{AreAscending};
ghost use Rattle.cobol_checker.specs.Shapes.{IsKeyPlace, AreKeyPlaces, IsShape, AreShapes, AreShapesOf};

use cob_base::{FileClause, FileEntry, Front, Items, NoMemory, Reference};
use data_names::{Table, files};
use entry_clauses::file_clauses::record_key;
use key_rules::Descriptions;
use sharing_table::{KeyPlace, Shape};
use std::alloc::Global;

/// A number of bytes of a record, which are 512 at most.
fn narrow(number: u64) -> u16
    requires { number ≤ 65535 }
    ensures { result ≡ number }
{
    number as u16
}

/// The place of the item of this number in the record before which so many bytes stand.
fn place_at(table: &Table, begins: u64, at: usize, duplicates: bool) -> KeyPlace
    requires table { IsTable table.now }
    requires within { at < length table.now.items.now }
    requires inside { IsPlaceAt (items_of table.now) begins at }
    ensures { (spot : Spot DataItem) → slice_get (spots (items_of table.now)) at ≡ Some spot → IsPlaceOf begins spot duplicates result }
{
    let facts = table.facts_at(at);
    KeyPlace {
        offset: narrow(facts.before - begins),
        length: narrow(facts.bytes),
        duplicates,
    }
}

/// The place of a key in the record before which so many bytes stand.
fn key_place(
    alloc: Global,
    table: &Table,
    begins: u64,
    key: &Reference,
    duplicates: bool,
) -> Result<KeyPlace, NoMemory>
    requires table { IsTable table.now }
    requires inside { IsKeyIn (items_of table.now) begins key.now }
    ensures { IfOk result (λ place. IsKeyPlace (items_of table.now) begins key.now duplicates place) }
{
    match table.found(alloc, key)? {
        Some(at) => Ok(place_at(table, begins, at, duplicates)),
        None => unreachable!(),
    }
}

/// The places of the alternate keys, in the order of their clauses.
fn alternates(
    alloc: Global,
    table: &Table,
    begins: u64,
    clauses: &[FileClause],
) -> Result<Vec<KeyPlace>, NoMemory>
    requires table { IsTable table.now }
    requires inside { AreKeysIn (items_of table.now) begins (alternates clauses.now) }
    ensures { IfOk result (λ places. AreKeyPlaces (items_of table.now) begins (alternates clauses.now) places.items) }
{
    let mut places = Vec::new(alloc);
    for clause in clauses {
        if let FileClause::AlternateKey { key, duplicates } = clause {
            places.push(key_place(alloc, table, begins, key, *duplicates)?)?;
        }
    }
    Ok(places)
}

/// Grows with the offset of a place, then with its length.
fn rank(place: &KeyPlace) -> u32
    ensures { result ≡ rank place.now }
{
    u32::from(place.offset) * 65536 + u32::from(place.length)
}

/// Places that lie apart, in ascending order of offset, then of length.
fn ascending(places: Vec<KeyPlace>) -> Result<Vec<KeyPlace>, NoMemory>
    requires apart { AreApart places.items }
    ensures same { IfOk result (λ sorted. IsPermutation places.items sorted.items) }
    ensures ascending { IfOk result (λ sorted. AreAscending sorted.items) }
{
    let mut places = places;
    places.sort_by_key(|place| rank(place))?;
    Ok(places)
}

/// The number of the record of a file.
fn record_at(
    alloc: Global,
    front: &Front,
    known: &Descriptions,
    table: &Table,
    file: &FileEntry,
) -> Result<usize, NoMemory>
    requires known { AreDescriptions front.now (items_of table.now) known.now }
    requires sound { IsSoundFile front.now (items_of table.now) file.now }
    ensures { IfOk result (λ at. IsRecordAt front.now (items_of table.now) file.now at) }
{
    match known.of_file(alloc, file)? {
        Some(description) => match description.record {
            Some(at) => Ok(at),
            None => unreachable!(),
        },
        None => unreachable!(),
    }
}

/// The place of the prime key.
fn prime(
    alloc: Global,
    table: &Table,
    begins: u64,
    clauses: &[FileClause],
) -> Result<KeyPlace, NoMemory>
    requires table { IsTable table.now }
    requires inside { IsPrimeIn (items_of table.now) begins clauses.now }
    ensures { IfOk result (λ place. (key : Reference) → record_key clauses.now ≡ Some key → IsKeyPlace (items_of table.now) begins key false place) }
{
    match record_key(clauses) {
        Some(key) => key_place(alloc, table, begins, key, false),
        None => unreachable!(),
    }
}

/// The places of the alternate keys, in ascending order of offset, then of length.
fn sorted_alternates(
    alloc: Global,
    table: &Table,
    begins: u64,
    clauses: &[FileClause],
) -> Result<Items<KeyPlace>, NoMemory>
    requires table { IsTable table.now }
    requires inside { AreKeysIn (items_of table.now) begins (alternates clauses.now) }
    requires apart { (places : List KeyPlace) → AreKeyPlaces (items_of table.now) begins (alternates clauses.now) places → AreApart places }
    ensures { IfOk result (λ sorted. (places : List KeyPlace) × AreKeyPlaces (items_of table.now) begins (alternates clauses.now) places × IsPermutation places sorted × AreAscending sorted) }
{
    let places = alternates(alloc, table, begins, clauses)?;
    let sorted = ascending(places)?;
    Ok(Items::from_vec(sorted))
}

/// The shape of a file whose record is the item of this number.
fn shape_at(
    alloc: Global,
    front: &Front,
    table: &Table,
    file: &FileEntry,
    at: usize,
) -> Result<Shape, NoMemory>
    requires table { IsTable table.now }
    requires at { IsRecordAt front.now (items_of table.now) file.now at }
    requires sound { IsSoundFile front.now (items_of table.now) file.now }
    ensures { IfOk result (λ shape. IsShape front.now (items_of table.now) file.now shape) }
{
    let record = table.facts_at(at);
    let begins = record.before;
    let clauses = file.clauses.as_slice();
    Ok(Shape {
        length: narrow(record.bytes),
        prime: prime(alloc, table, begins, clauses)?,
        alternates: sorted_alternates(alloc, table, begins, clauses)?,
    })
}

/// The shape of a file.
fn shape_of(
    alloc: Global,
    front: &Front,
    known: &Descriptions,
    table: &Table,
    file: &FileEntry,
) -> Result<Shape, NoMemory>
    requires table { IsTable table.now }
    requires known { AreDescriptions front.now (items_of table.now) known.now }
    requires sound { IsSoundFile front.now (items_of table.now) file.now }
    ensures { IfOk result (λ shape. IsShape front.now (items_of table.now) file.now shape) }
{
    let at = record_at(alloc, front, known, table, file)?;
    shape_at(alloc, front, table, file, at)
}

/// The shapes of these files.
fn shapes_in(
    alloc: Global,
    front: &Front,
    known: &Descriptions,
    table: &Table,
    files: &[FileEntry],
) -> Result<Items<Shape>, NoMemory>
    requires table { IsTable table.now }
    requires known { AreDescriptions front.now (items_of table.now) known.now }
    requires sound { AreSoundFiles front.now (items_of table.now) files.now }
    ensures { IfOk result (λ shapes. AreShapesOf front.now (items_of table.now) files.now shapes) }
{
    let mut shapes = Items::new(alloc);
    for file in files {
        shapes.push(shape_of(alloc, front, known, table, file)?)?;
    }
    Ok(shapes)
}

/// The shape of each file of a front without faults.
pub fn shapes_of(
    alloc: Global,
    front: &Front,
    known: &Descriptions,
    table: &Table,
) -> Result<Items<Shape>, NoMemory>
    requires table { IsTable table.now }
    requires items { AreDataItems front.now (items_of table.now) }
    requires known { AreDescriptions front.now (items_of table.now) known.now }
    requires faultless { IsFaultless front.now }
    ensures { IfOk result (λ shapes. AreShapes front.now (items_of table.now) shapes) }
{
    shapes_in(alloc, front, known, table, files(front))
}
