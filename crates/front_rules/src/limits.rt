ghost use Rattle.std.specs.Prelude.{◌≡◌, ◌||◌, ◌++◌, Some, map, filter, drop, option_to_list, IfOk, OnOk};
ghost use Rattle.std.specs.List.{list_any};
ghost use Rattle.data_layout.specs.Faults.{passes_storage, passes_record};
ghost use Rattle.data_names.specs.Items.{DataItem};
ghost use Rattle.data_names.specs.Spots.{Spot, spots, rows_before, rows_after};
ghost use Rattle.data_names.specs.Seen.{seen_item};
ghost use Rattle.data_names.specs.Facts.{IsFacts};
ghost use Rattle.data_names.specs.Table.{IsTable, items_of};
ghost use Rattle.entry_clauses.specs.SeenScreens.{seen_screen};
ghost use Rattle.entry_clauses.specs.Spelled.{is_too_wide};
ghost use Rattle.front_rules.specs.Limits.{is_item_past_limit, is_key_past_limit, has_key_past_limit};
ghost use Rattle.entry_clauses.specs.Clauses.{record_key, alternates};
ghost use Rattle.data_names.specs.References.{found};
ghost use Rattle.name_rules.specs.Faults.{faults_at};

use cob_base::{FileClause, FileEntry, NoMemory, Reference};
use data_layout::is_allowed;
use data_names::{Facts, KnownItem, Table};
use entry_clauses::{KnownScreen, file_clauses, is_too_wide};
use name_rules::Faults;
use std::alloc::Global;

/// How many bytes storage may have.
const STORAGE_LIMIT: u64 = 1_000_000;

/// How many bytes a record may have.
const RECORD_LIMIT: u64 = 512;

/// How many bytes a key may have.
const KEY_LIMIT: u64 = 64;

/// How many file control entries there may be.
const FILE_LIMIT: usize = 65_535;

/// Whether storage passes its limit with an item.
fn passes_storage(facts: &Facts) -> bool
    ensures { (spot : Spot DataItem) → IsFacts spot facts.now → result ≡ passes_storage (rows_before spot) spot.item.row }
{
    facts.sized_so_far && facts.before <= STORAGE_LIMIT && STORAGE_LIMIT < facts.after
}

/// Whether an item is a file's record that is too long.
fn passes_record(item: &KnownItem, facts: &Facts) -> bool
    ensures { (spot : Spot DataItem) → spot.item ≡ seen_item item.now → IsFacts spot facts.now → result ≡ passes_record spot.item.row (rows_after spot) }
{
    item.row.in_file && item.row.level == 1 && facts.sized && RECORD_LIMIT < facts.record_bytes
}

/// Whether an item is past a limit: its picture, its OCCURS number, storage with it, or a file's record.
fn is_item_past_limit(item: &KnownItem, facts: &Facts) -> bool
    ensures { (spot : Spot DataItem) → spot.item ≡ seen_item item.now → IsFacts spot facts.now → result ≡ is_item_past_limit spot }
{
    is_too_wide(item.row.spelled)
        || !is_allowed(item.row.occurs)
        || passes_storage(facts)
        || passes_record(item, facts)
}

/// Notes the items that are past a limit.
pub fn note_items_past_limits(faults: &mut Faults, table: &Table) -> Result<(), NoMemory>
    requires { IsTable table.now }
    ensures { OnOk result (faults.new.found.items ≡ faults.old.found.items ++ faults_at 5 (map (λ spot. spot.item.row.line) (filter is_item_past_limit (spots (items_of table.now))))) }
{
    for (at, item) in table.items.iter().enumerate() {
        let is_past = is_item_past_limit(item, table.facts_at(at));
        faults.note(5, item.row.line, is_past)?;
    }
    Ok(())
}

/// Notes the too wide pictures of screens.
pub fn note_screens_past_limits(
    faults: &mut Faults,
    screens: &[KnownScreen],
) -> Result<(), NoMemory>
    ensures { OnOk result (faults.new.found.items ≡ faults.old.found.items ++ faults_at 5 (map (λ item. item.row.line) (filter (λ item. is_too_wide item.row.spelled) (map seen_screen screens.now)))) }
{
    for item in screens {
        faults.note(5, item.row.line, is_too_wide(item.row.spelled))?;
    }
    Ok(())
}

fn is_past_key_limit(facts: &Facts) -> bool
    ensures { (spot : Spot DataItem) → IsFacts spot facts.now → result ≡ is_key_past_limit (Some spot) }
{
    facts.sized && (facts.bytes == 0 || KEY_LIMIT < facts.bytes)
}

fn is_key_past_limit(alloc: Global, table: &Table, key: &Reference) -> Result<bool, NoMemory>
    requires { IsTable table.now }
    ensures { IfOk result (λ past. past ≡ is_key_past_limit (found (items_of table.now) key.now)) }
{
    match table.found(alloc, key)? {
        Some(at) => Ok(is_past_key_limit(table.facts_at(at))),
        None => Ok(false),
    }
}

fn is_prime_past_limit(
    alloc: Global,
    table: &Table,
    clauses: &[FileClause],
) -> Result<bool, NoMemory>
    requires { IsTable table.now }
    ensures { IfOk result (λ past. past ≡ list_any (λ key. is_key_past_limit (found (items_of table.now) key)) (option_to_list (record_key clauses.now))) }
{
    match file_clauses::record_key(clauses) {
        Some(key) => is_key_past_limit(alloc, table, key),
        None => Ok(false),
    }
}

fn is_alternate_past_limit(
    alloc: Global,
    table: &Table,
    clauses: &[FileClause],
) -> Result<bool, NoMemory>
    requires { IsTable table.now }
    ensures { IfOk result (λ past. past ≡ list_any (λ alternate. is_key_past_limit (found (items_of table.now) alternate.key)) (alternates clauses.now)) }
{
    for clause in clauses {
        if let FileClause::AlternateKey { key, .. } = clause {
            if is_key_past_limit(alloc, table, key)? {
                return Ok(true);
            }
        }
    }
    Ok(false)
}

fn has_key_past_limit(alloc: Global, table: &Table, file: &FileEntry) -> Result<bool, NoMemory>
    requires { IsTable table.now }
    ensures { IfOk result (λ past. past ≡ has_key_past_limit (items_of table.now) file.now) }
{
    let clauses = file.clauses.as_slice();
    let prime = is_prime_past_limit(alloc, table, clauses)?;
    let alternate = is_alternate_past_limit(alloc, table, clauses)?;
    Ok(is_either(prime, alternate))
}

fn is_either(first: bool, second: bool) -> bool
    ensures { result ≡ (first || second) }
{
    first || second
}

/// Notes the files with a key past its limit.
pub fn note_keys_past_limits(
    alloc: Global,
    faults: &mut Faults,
    files: &[FileEntry],
    table: &Table,
) -> Result<(), NoMemory>
    requires { IsTable table.now }
    ensures { OnOk result (faults.new.found.items ≡ faults.old.found.items ++ faults_at 5 (map (λ file. file.line) (filter (has_key_past_limit (items_of table.now)) files.now))) }
{
    for file in files {
        let is_past = has_key_past_limit(alloc, table, file)?;
        faults.note(5, file.line, is_past)?;
    }
    Ok(())
}

fn note_all(faults: &mut Faults, files: &[FileEntry]) -> Result<(), NoMemory>
    ensures { OnOk result (faults.new.found.items ≡ faults.old.found.items ++ faults_at 5 (map (λ file. file.line) files.now)) }
{
    for file in files {
        faults.note(5, file.line, true)?;
    }
    Ok(())
}

/// Notes the files after the 65,535th.
pub fn note_files_past_limit(faults: &mut Faults, files: &[FileEntry]) -> Result<(), NoMemory>
    ensures { OnOk result (faults.new.found.items ≡ faults.old.found.items ++ faults_at 5 (map (λ file. file.line) (drop 65535 files.now))) }
{
    let first = FILE_LIMIT.min(files.len());
    note_all(faults, &files[first..])?;
    Ok(())
}
