ghost use Rattle.std.specs.Prelude.{◌≡◌, ◌&&◌, ◌++◌, is_some, map, filter, OnOk};
ghost use Rattle.data_names.specs.Spots.{Spot, spots};
ghost use Rattle.data_names.specs.Table.{IsTable, items_of};
ghost use Rattle.data_names.specs.Items.{DataItem};
ghost use Rattle.data_names.specs.Seen.{seen_item};
ghost use Rattle.data_names.specs.Facts.{IsFacts};
ghost use Rattle.entry_clauses.specs.SeenScreens.{seen_screen};
ghost use Rattle.front_rules.specs.Outside.{is_file_outside, is_item_outside, is_screen_outside};
ghost use Rattle.name_rules.specs.Faults.{faults_at};

use cob_base::{FileEntry, NoMemory};
use data_names::{Facts, KnownItem, Table};
use entry_clauses::file_clauses::FileClauseKind;
use entry_clauses::screen_clauses::ScreenClauseKind;
use entry_clauses::{KnownScreen, file_clauses, item_clauses, screen_clauses};
use name_rules::Faults;

fn is_file_outside(file: &FileEntry) -> bool
    ensures { result ≡ is_file_outside file.now }
{
    let clauses = file.clauses.as_slice();
    file_clauses::has(clauses, FileClauseKind::Outside)
        || !file_clauses::has(clauses, FileClauseKind::Organization)
}

/// Notes each file with an outside clause or without ORGANIZATION INDEXED.
pub fn note_files_left_out(faults: &mut Faults, files: &[FileEntry]) -> Result<(), NoMemory>
    ensures { OnOk result (faults.new.found.items ≡ faults.old.found.items ++ faults_at 10 (map (λ file. file.line) (filter is_file_outside files.now))) }
{
    for file in files {
        faults.note(10, file.line, is_file_outside(file))?;
    }
    Ok(())
}

fn is_nested(item: &KnownItem, facts: &Facts) -> bool
    ensures { result ≡ (is_some item.now.row.occurs && facts.now.repeated) }
{
    item.row.occurs.is_some() && facts.repeated
}

fn is_item_outside(item: &KnownItem, facts: &Facts) -> bool
    ensures { (spot : Spot DataItem) → spot.item ≡ seen_item item.now → IsFacts spot facts.now → result ≡ is_item_outside spot }
{
    item_clauses::has_outside(item.source.entry.clauses.as_slice()) || is_nested(item, facts)
}

/// Notes each item with an outside clause, and each OCCURS inside OCCURS.
pub fn note_items_left_out(faults: &mut Faults, table: &Table) -> Result<(), NoMemory>
    requires { IsTable table.now }
    ensures { OnOk result (faults.new.found.items ≡ faults.old.found.items ++ faults_at 10 (map (λ spot. spot.item.row.line) (filter is_item_outside (spots (items_of table.now))))) }
{
    for (at, item) in table.items.iter().enumerate() {
        let is_outside = is_item_outside(item, table.facts_at(at));
        faults.note(10, item.row.line, is_outside)?;
    }
    Ok(())
}

fn is_screen_outside(item: &KnownScreen) -> bool
    ensures { result ≡ is_screen_outside (seen_screen item.now) }
{
    screen_clauses::has(item.entry.clauses.as_slice(), ScreenClauseKind::Outside)
}

/// Notes each entry of a screen with an outside clause.
pub fn note_screens_left_out(faults: &mut Faults, screens: &[KnownScreen]) -> Result<(), NoMemory>
    ensures { OnOk result (faults.new.found.items ≡ faults.old.found.items ++ faults_at 10 (map (λ item. item.row.line) (filter is_screen_outside (map seen_screen screens.now)))) }
{
    for item in screens {
        faults.note(10, item.row.line, is_screen_outside(item))?;
    }
    Ok(())
}
