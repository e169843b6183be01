ghost use Rattle.std.specs.Prelude.{◌≡◌, ◌++◌, ◌∷◌, [], List, filter, map, take, OnOk, option_to_list};
ghost use Rattle.std.specs.List.{flat_map};
ghost use Rattle.data_layout.specs.Rows.{leading_conditions};
ghost use Rattle.data_names.specs.Spots.{Spot};
ghost use Rattle.data_names.specs.Items.{DataItem};
ghost use Rattle.data_names.specs.Seen.{seen_item};
ghost use Rattle.data_names.specs.Facts.{IsFacts};
ghost use Rattle.front_rules.specs.Levels.{has_bad_level, line_of_entry, is_record_entry, is_beside_record, misplaced, misplaced_entries};
ghost use Rattle.name_rules.specs.Faults.{faults_at};

use cob_base::{DataEntry, FileDescription, Front, Line, NoMemory};
use data_layout::rank_of;
use data_names::{Facts, KnownItem, descriptions, working_storage};
use entry_clauses::is_missing;
use name_rules::Faults;

/// Whether a level returns to no group or begins with neither 01 nor 77, 77 or PICTURE stands on a group, OCCURS on 01 or 77, or an
/// elementary item has no PICTURE.
pub fn has_bad_level(item: &KnownItem, facts: &Facts) -> bool
    ensures { (spot : Spot DataItem) → spot.item ≡ seen_item item.now → IsFacts spot facts.now → result ≡ has_bad_level spot }
{
    let row = item.row;
    !facts.level_fits
        || (row.group && row.level == 77)
        || (row.occurs.is_some() && rank_of(row.level) == 1)
        || (row.group && !is_missing(row.spelled))
        || (!row.group && is_missing(row.spelled))
}

fn line_of(entry: &DataEntry) -> Line
    ensures { result ≡ line_of_entry entry.now }
{
    match entry {
        DataEntry::Item(entry) => entry.line,
        DataEntry::Condition(entry) => entry.line,
    }
}

fn is_record_entry(entry: &DataEntry) -> bool
    ensures { result ≡ is_record_entry entry.now }
{
    match entry {
        DataEntry::Item(entry) => entry.level == 1,
        DataEntry::Condition(_) => false,
    }
}

fn is_beside_record(entry: &DataEntry) -> bool
    ensures { result ≡ is_beside_record entry.now }
{
    match entry {
        DataEntry::Item(entry) => rank_of(entry.level) == 1,
        DataEntry::Condition(_) => false,
    }
}

/// The line of the first entry that stands beside a record.
fn beside_record(entries: &[DataEntry]) -> Option<Line>
    ensures { option_to_list result ≡ map line_of_entry (take 1 (filter is_beside_record entries.now)) }
{
    for entry in entries {
        if is_beside_record(entry) {
            return Some(line_of(entry));
        }
    }
    None
}

/// The line of the first entry under a file description that is neither its level-01 record, a member of that, nor an 88 entry.
fn misplaced(entries: &[DataEntry]) -> Option<Line>
    ensures { option_to_list result ≡ misplaced entries.now }
{
    match entries {
        [] => None,
        [first, rest @ ..] => if is_record_entry(first) {
            beside_record(rest)
        } else {
            Some(line_of(first))
        },
    }
}

/// Notes the 88 entries of a section that stand after no item.
fn note_strays(faults: &mut Faults, entries: &[DataEntry]) -> Result<(), NoMemory>
    ensures { OnOk result (faults.new.found.items ≡ faults.old.found.items ++ faults_at 6 (leading_conditions entries.now)) }
{
    for entry in entries {
        match entry {
            DataEntry::Item(_) => return Ok(()),
            DataEntry::Condition(condition) => faults.note(6, condition.line, true)?,
        }
    }
    Ok(())
}

/// Notes the entries under file descriptions that have no place there.
fn note_beside_records(faults: &mut Faults, files: &[FileDescription]) -> Result<(), NoMemory>
    ensures { OnOk result (faults.new.found.items ≡ faults.old.found.items ++ faults_at 6 (flat_map (λ file. misplaced file.records) files.now)) }
{
    for file in files {
        if let Some(line) = misplaced(file.records.as_slice()) {
            faults.note(6, line, true)?;
        }
    }
    Ok(())
}

/// Notes the 88 entries of files that stand after no item.
fn note_strays_of_files(faults: &mut Faults, files: &[FileDescription]) -> Result<(), NoMemory>
    ensures { OnOk result (faults.new.found.items ≡ faults.old.found.items ++ faults_at 6 (flat_map (λ file. leading_conditions file.records) files.now)) }
{
    for file in files {
        note_strays(faults, file.records.as_slice())?;
    }
    Ok(())
}

/// Notes 88 entries after no item, and entries that have no place under their file description.
pub fn note_misplaced(faults: &mut Faults, front: &Front) -> Result<(), NoMemory>
    ensures { OnOk result (faults.new.found.items ≡ faults.old.found.items ++ faults_at 6 (misplaced_entries front.now)) }
{
    note_strays_of_files(faults, descriptions(front))?;
    note_strays(faults, working_storage(front))?;
    note_beside_records(faults, descriptions(front))?;
    Ok(())
}
