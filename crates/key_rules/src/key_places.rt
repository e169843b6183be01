ghost use Rattle.std.specs.Prelude.{◌≡◌, not, ◌++◌, ◌<◌, ◌||◌, ◌&&◌, nat_lt, position, ℕ, Bool, List, length, map, filter, count_by, Some, None, option_to_list, IfOk, OnOk, slice_get};
ghost use Rattle.std.specs.List.{list_any, filter_map};
ghost use Rattle.cob_base.specs.declared.divisions.Front.{Front};
ghost use Rattle.data_names.specs.Items.{DataItem};
ghost use Rattle.data_names.specs.Seen.{seen_item};
ghost use Rattle.data_names.specs.Facts.{IsFacts};
ghost use Rattle.data_names.specs.Spots.{Spot, spots, is_table, is_sized};
ghost use Rattle.data_names.specs.References.{found};
ghost use Rattle.data_names.specs.Table.{IsTable, items_of};
ghost use Rattle.entry_clauses.specs.Clauses.{record_key, alternates};
ghost use Rattle.name_rules.specs.Mentions.{keys_of};
ghost use Rattle.key_rules.specs.Descriptions.{AreDescriptions, IsDescriptionOf};
ghost use Rattle.key_rules.specs.KeyPlaces.{same_number, is_of_record, is_signed_item, is_no_key, is_unsized_under, placed_key, same_place, has_twins, has_bad_clauses, has_no_key, are_at_one_place, description_of, has_bad_keys, bad_key_places};
ghost use Rattle.key_rules.specs.SeenKeys.{is_sized_before, seen_place, span_of_key, same_span};
ghost use Rattle.name_rules.specs.Faults.{faults_at};

use crate::descriptions::{Description, Descriptions};
use cob_base::{FileClause, FileEntry, Front, NoMemory, Reference};
use data_names::{Facts, KnownItem, Table, files};
use entry_clauses::file_clauses;
use name_rules::Faults;
use std::alloc::Global;

/// Where a key lies among the items with bytes. Bytes themselves have no bound, and are not counted.
#[derive(Clone, Copy, Debug)]
struct Span {
    /// How many elementary items with bytes stand before it.
    before: usize,
    /// How many it has.
    inside: usize,
}

/// The keys of a file: its prime key, then the alternates.
fn keys_of<'a>(alloc: Global, file: &'a FileEntry) -> Result<Vec<&'a Reference>, NoMemory>
    ensures { IfOk result (λ keys. map (λ key. key.now) keys.items ≡ keys_of file.entry.now) }
{
    let clauses = file.clauses.as_slice();
    let mut keys = prime_key(alloc, clauses)?;
    push_alternates(&mut keys, clauses)?;
    Ok(keys)
}

fn prime_key<'a>(alloc: Global, clauses: &'a [FileClause]) -> Result<Vec<&'a Reference>, NoMemory>
    ensures { IfOk result (λ keys. map (λ key. key.now) keys.items ≡ option_to_list (record_key clauses.entry.now)) }
{
    let mut keys = Vec::new(alloc);
    if let Some(prime) = file_clauses::record_key(clauses) {
        keys.push(prime)?;
    }
    Ok(keys)
}

fn push_alternates<'a>(
    keys: &mut Vec<&'a Reference>,
    clauses: &'a [FileClause],
) -> Result<(), NoMemory>
    ensures { OnOk result (map (λ key. key.now) keys.exit.now.items ≡ map (λ key. key.now) keys.entry.now.items ++ map (λ alternate. alternate.key) (alternates clauses.entry.now)) }
{
    for clause in clauses {
        if let FileClause::AlternateKey { key, .. } = clause {
            keys.push(key)?;
        }
    }
    Ok(())
}

fn same_number(number: Option<usize>, other: Option<usize>) -> bool
    ensures { result ≡ same_number number other }
{
    match (number, other) {
        (Some(number), Some(other)) => number == other,
        _ => false,
    }
}

/// Whether the item of this number is the record under a description, or one of its members.
fn is_of_record(table: &Table, description: Option<usize>, at: usize) -> bool
    requires table { IsTable table.now }
    requires within { at < length table.now.items.now }
    ensures { (spot : Spot DataItem) → slice_get (spots (items_of table.now)) at ≡ Some spot → result ≡ is_of_record description spot }
{
    same_number(description, table.item_at(at).source.file) && table.facts_at(at).in_record
}

fn is_signed_item(item: KnownItem) -> bool
    ensures { result ≡ is_signed_item (seen_item item.entry) }
{
    !item.row.group && item.told.signed
}

/// Whether the item of this number is no key.
fn is_no_key_at(table: &Table, description: Option<usize>, at: usize) -> bool
    requires table { IsTable table.now }
    requires within { at < length table.now.items.now }
    ensures { (spot : Spot DataItem) → slice_get (spots (items_of table.now)) at ≡ Some spot → result ≡ is_no_key description (Some spot) }
{
    !is_of_record(table, description, at)
        || table.facts_at(at).table
        || is_signed_item(table.item_at(at))
}

fn is_no_key(
    alloc: Global,
    table: &Table,
    description: Option<usize>,
    key: &Reference,
) -> Result<bool, NoMemory>
    requires { IsTable table.now }
    ensures { IfOk result (λ bad. bad ≡ is_no_key description (found (items_of table.now) key.now)) }
{
    match table.found(alloc, key)? {
        Some(at) => Ok(is_no_key_at(table, description, at)),
        None => Ok(false),
    }
}

fn has_no_key(
    alloc: Global,
    table: &Table,
    description: Option<usize>,
    keys: &[&Reference],
) -> Result<bool, NoMemory>
    requires { IsTable table.now }
    ensures { IfOk result (λ bad. bad ≡ list_any (λ key. is_no_key description (found (items_of table.now) key)) (map (λ key. key.now) keys.now)) }
{
    for key in keys {
        if is_no_key(alloc, table, description, *key)? {
            return Ok(true);
        }
    }
    Ok(false)
}

/// Whether the size of each item before the one of this number is known, where the first of unknown size has the other number.
fn is_sized_before(unsized_at: Option<usize>, at: usize) -> bool
    ensures { result ≡ is_sized_before unsized_at at }
{
    match unsized_at {
        Some(first) => at <= first,
        None => true,
    }
}

/// Whether an item has no OCCURS in or above it, and every size in it is known.
fn is_sized_alone(facts: &Facts) -> bool
    ensures { (spot : Spot DataItem) → IsFacts spot facts.now → result ≡ (not (is_table spot) && is_sized spot) }
{
    !facts.table && facts.sized
}

/// Whether the place of the item of this number is known, where it is one of the record.
fn has_place(table: &Table, unsized_at: Option<usize>, at: usize) -> bool
    requires table { IsTable table.now }
    requires within { at < length table.now.items.now }
    ensures { (spot : Spot DataItem) → slice_get (spots (items_of table.now)) at ≡ Some spot → result ≡ seen_place unsized_at spot }
{
    is_sized_alone(table.facts_at(at)) && is_sized_before(unsized_at, at)
}

/// Where the item of this number lies, where it is one of the record and its place is known.
fn span_at(
    table: &Table,
    description: Option<usize>,
    unsized_at: Option<usize>,
    at: usize,
) -> Option<Span>
    requires table { IsTable table.now }
    requires within { at < length table.now.items.now }
    ensures { (spot : Spot DataItem) → slice_get (spots (items_of table.now)) at ≡ Some spot → result ≡ span_of_key description unsized_at (Some spot) }
{
    let facts = table.facts_at(at);
    if is_of_record(table, description, at) && has_place(table, unsized_at, at) {
        Some(Span {
            before: facts.with_bytes_before,
            inside: facts.with_bytes,
        })
    } else {
        None
    }
}

fn span_of_key(
    alloc: Global,
    table: &Table,
    description: Option<usize>,
    unsized_at: Option<usize>,
    key: &Reference,
) -> Result<Option<Span>, NoMemory>
    requires { IsTable table.now }
    ensures { IfOk result (λ span. span ≡ span_of_key description unsized_at (found (items_of table.now) key.now)) }
{
    match table.found(alloc, key)? {
        Some(at) => Ok(span_at(table, description, unsized_at, at)),
        None => Ok(None),
    }
}

fn spans_of(
    alloc: Global,
    table: &Table,
    description: Option<usize>,
    unsized_at: Option<usize>,
    keys: &[&Reference],
) -> Result<Vec<Span>, NoMemory>
    requires { IsTable table.now }
    ensures { IfOk result (λ spans. spans.items ≡ filter_map (λ key. span_of_key description unsized_at (found (items_of table.now) key)) (map (λ key. key.now) keys.now)) }
{
    let mut spans = Vec::new(alloc);
    for key in keys {
        if let Some(span) = span_of_key(alloc, table, description, unsized_at, *key)? {
            spans.push(span)?;
        }
    }
    Ok(spans)
}

fn same_span(span: &Span, other: &Span) -> bool
    ensures { result ≡ same_span span.now other.now }
{
    span.before == other.before && span.inside == other.inside
}

fn is_among(span: &Span, others: &[Span]) -> bool
    ensures { result ≡ list_any (same_span span.now) others.now }
{
    others.iter().any(|other| same_span(span, other))
}

/// Whether two of these are the same. A file without other faults of its keys has four at most.
fn has_twins(spans: &[Span]) -> bool
    ensures { result ≡ has_twins same_span spans.now }
{
    let mut rest = spans;
    while let [span, others @ ..] = rest {
        if is_among(span, others) {
            return true;
        }
        rest = others;
    }
    false
}

fn are_at_one_place(
    alloc: Global,
    table: &Table,
    description: Option<usize>,
    unsized_at: Option<usize>,
    keys: &[&Reference],
) -> Result<bool, NoMemory>
    requires { IsTable table.now }
    ensures { unsized_at ≡ position (is_unsized_under description) (items_of table.now) → IfOk result (λ same. same ≡ has_twins same_place (filter_map (λ key. placed_key description (found (items_of table.now) key)) (map (λ key. key.now) keys.now))) }
{
    let spans = spans_of(alloc, table, description, unsized_at, keys)?;
    Ok(has_twins(spans.as_slice()))
}

fn count_of_alternates(clauses: &[FileClause]) -> usize
    ensures { result ≡ length (alternates clauses.now) }
{
    let mut count = 0;
    for clause in clauses {
        if let FileClause::AlternateKey { .. } = clause {
            count += 1;
        }
    }
    count
}

fn count_with_duplicates(clauses: &[FileClause]) -> usize
    ensures { result ≡ count_by (λ alternate. alternate.duplicates) (alternates clauses.now) }
{
    let mut count = 0;
    for clause in clauses {
        if let FileClause::AlternateKey { duplicates, .. } = clause {
            if *duplicates {
                count += 1;
            }
        }
    }
    count
}

/// Whether RECORD KEY is missing, or there are too many alternates or too many of them with duplicates.
fn has_bad_clauses(clauses: &[FileClause]) -> bool
    ensures { result ≡ has_bad_clauses clauses.now }
{
    file_clauses::record_key(clauses).is_none()
        || count_of_alternates(clauses) > 3
        || count_with_duplicates(clauses) > 1
}

fn number_of(description: Option<Description>) -> Option<usize>
    ensures { (front : Front) (items : List DataItem) (name : List ℕ) → IsDescriptionOf front items name description → result ≡ description_of front name }
{
    match description {
        Some(description) => Some(description.number),
        None => None,
    }
}

fn unsized_under(description: Option<Description>) -> Option<usize>
    ensures { (front : Front) (items : List DataItem) (name : List ℕ) → IsDescriptionOf front items name description → result ≡ position (is_unsized_under (description_of front name)) items }
{
    match description {
        Some(description) => description.unsized_at,
        None => None,
    }
}

/// Whether some key is none, or two lie at one place.
fn are_bad(
    alloc: Global,
    table: &Table,
    description: Option<usize>,
    unsized_at: Option<usize>,
    file: &FileEntry,
) -> Result<bool, NoMemory>
    requires { IsTable table.now }
    ensures { unsized_at ≡ position (is_unsized_under description) (items_of table.now) → IfOk result (λ bad. bad ≡ (has_no_key (items_of table.now) description file.now || are_at_one_place (items_of table.now) description file.now)) }
{
    let keys = keys_of(alloc, file)?;
    if has_no_key(alloc, table, description, keys.as_slice())? {
        return Ok(true);
    }
    are_at_one_place(alloc, table, description, unsized_at, keys.as_slice())
}

fn has_bad_keys(
    alloc: Global,
    known: &Descriptions,
    table: &Table,
    file: &FileEntry,
) -> Result<bool, NoMemory>
    requires { IsTable table.now }
    ensures { (front : Front) → AreDescriptions front (items_of table.now) known.now → IfOk result (λ bad. bad ≡ has_bad_keys front (items_of table.now) file.now) }
{
    if has_bad_clauses(file.clauses.as_slice()) {
        return Ok(true);
    }
    let description = known.of_file(alloc, file)?;
    are_bad(
        alloc,
        table,
        number_of(description),
        unsized_under(description),
        file,
    )
}

fn note_keys(
    alloc: Global,
    faults: &mut Faults,
    files: &[FileEntry],
    known: &Descriptions,
    table: &Table,
) -> Result<(), NoMemory>
    requires { IsTable table.now }
    ensures { (front : Front) → AreDescriptions front (items_of table.now) known.now → OnOk result (faults.new.found.items ≡ faults.old.found.items ++ faults_at 7 (map (λ file. file.line) (filter (has_bad_keys front (items_of table.now)) files.now))) }
{
    for file in files {
        let is_bad = has_bad_keys(alloc, known, table, file)?;
        faults.note(7, file.line, is_bad)?;
    }
    Ok(())
}

/// Notes reason 7 at the line of each file control entry whose keys are missing or too many, are none of its record's, or lie at one
/// place. The table and the descriptions are those of the front.
pub fn note_bad_keys(
    alloc: Global,
    faults: &mut Faults,
    front: &Front,
    known: &Descriptions,
    table: &Table,
) -> Result<(), NoMemory>
    requires table { IsTable table.now }
    requires known { AreDescriptions front.now (items_of table.now) known.now }
    ensures { OnOk result (faults.new.found.items ≡ faults.old.found.items ++ faults_at 7 (bad_key_places front.now (items_of table.now))) }
{
    note_keys(alloc, faults, files(front), known, table)
}
