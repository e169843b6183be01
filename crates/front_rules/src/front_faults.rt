ghost use Rattle.std.specs.Prelude.{◌≡◌, ◌++◌, [], map, OnOk};
ghost use Rattle.data_names.specs.Items.{AreDataItems};
ghost use Rattle.data_names.specs.Parts.{screen_entries};
ghost use Rattle.data_names.specs.Table.{IsTable, items_of};
ghost use Rattle.name_rules.specs.DoubleNames.{double_names};
ghost use Rattle.front_rules.specs.Pictures.{bad_pictures};
ghost use Rattle.front_rules.specs.Limits.{past_limits};
ghost use Rattle.front_rules.specs.Kinds.{wrong_kinds};
ghost use Rattle.key_rules.specs.KeyPlaces.{bad_key_places};
ghost use Rattle.front_rules.specs.Outside.{left_out};
ghost use Rattle.screen_rules.specs.Placing.{off_screen};
ghost use Rattle.name_rules.specs.Subscripts.{miscounted_subscripts};
ghost use Rattle.name_rules.specs.UnknownNames.{unknown_names, ambiguous_names};
ghost use Rattle.key_rules.specs.Descriptions.{AreDescriptions};
ghost use Rattle.name_rules.specs.SeenMentions.{AreMentions};
ghost use Rattle.entry_clauses.specs.SeenScreens.{seen_screen, ArePlacedAfter, AreKnownScreens};
ghost use Rattle.name_rules.specs.Faults.{faults_at};
ghost use Rattle.front_rules.specs.Faults.{front_faults};

use crate::kinds::note_wrong_kinds;
use crate::limits::{
    note_files_past_limit, note_items_past_limits, note_keys_past_limits, note_screens_past_limits,
};
use crate::outside::{note_files_left_out, note_items_left_out, note_screens_left_out};
use crate::pictures::{note_item_pictures, note_screen_pictures};
use cob_base::{Front, NoMemory};
use data_names::{Table, files};
use entry_clauses::KnownScreen;
use key_rules::{Descriptions, note_bad_keys};
use name_rules::{
    Faults, Mentions, all_mentions, declared_names, note_ambiguous_names, note_clashes,
    note_miscounted, note_twin_items, note_twin_screens, note_unknown_names,
};
use screen_rules::note_off_screen;
use std::alloc::Global;

/// Notes all faults of a front.
pub fn note_front_faults(
    alloc: Global,
    faults: &mut Faults,
    front: &Front,
    table: &Table,
    known: &Descriptions,
    screens: &[KnownScreen],
) -> Result<(), NoMemory>
    requires table { IsTable table.now }
    requires items { AreDataItems front.now (items_of table.now) }
    requires known { AreDescriptions front.now (items_of table.now) known.now }
    requires screens { AreKnownScreens (screen_entries front.now) screens.now }
    ensures { OnOk result (faults.new.found.items ≡ faults.old.found.items ++ front_faults front.now (items_of table.now) (map seen_screen screens.now)) }
{
    let mentions = all_mentions(alloc, front, table)?;
    note_references(alloc, faults, front, table, &mentions)?;
    note_double_names(alloc, faults, front, table, screens)?;
    note_entries(alloc, faults, front, table, screens)?;
    note_kinds(alloc, faults, front, table, known, &mentions, screens)?;
    note_left_out(faults, front, table, screens)?;
    note_off_screen(faults, screens)?;
    note_miscounted(faults, table, &mentions)?;
    Ok(())
}

/// Notes names that stand for nothing, and references that match several items.
fn note_references(
    alloc: Global,
    faults: &mut Faults,
    front: &Front,
    table: &Table,
    mentions: &Mentions,
) -> Result<(), NoMemory>
    requires table { IsTable table.now }
    requires mentions { AreMentions front.now (items_of table.now) mentions.now }
    ensures { OnOk result (faults.new.found.items ≡ faults.old.found.items ++ (faults_at 1 (unknown_names front.now (items_of table.now)) ++ faults_at 2 (ambiguous_names front.now (items_of table.now)))) }
{
    note_unknown_names(alloc, faults, front, mentions)?;
    note_ambiguous_names(faults, mentions)?;
    Ok(())
}

/// Notes names that are declared twice.
fn note_double_names(
    alloc: Global,
    faults: &mut Faults,
    front: &Front,
    table: &Table,
    screens: &[KnownScreen],
) -> Result<(), NoMemory>
    requires table { IsTable table.now }
    requires screens { ArePlacedAfter [] screens.now }
    ensures { OnOk result (faults.new.found.items ≡ faults.old.found.items ++ faults_at 3 (double_names front.now (items_of table.now) (map seen_screen screens.now))) }
{
    let names = declared_names(alloc, front)?;
    note_clashes(alloc, faults, names.as_slice())?;
    note_twin_items(alloc, faults, table)?;
    note_twin_screens(alloc, faults, screens)?;
    Ok(())
}

/// Notes texts that are no pictures, and what is past a limit.
fn note_entries(
    alloc: Global,
    faults: &mut Faults,
    front: &Front,
    table: &Table,
    screens: &[KnownScreen],
) -> Result<(), NoMemory>
    requires { IsTable table.now }
    ensures { OnOk result (faults.new.found.items ≡ faults.old.found.items ++ (faults_at 4 (bad_pictures (items_of table.now) (map seen_screen screens.now)) ++ faults_at 5 (past_limits front.now (items_of table.now) (map seen_screen screens.now)))) }
{
    note_pictures(faults, table, screens)?;
    note_past_limits(alloc, faults, front, table, screens)?;
    Ok(())
}

/// Notes texts that are no pictures, and signed pictures on screens.
fn note_pictures(
    faults: &mut Faults,
    table: &Table,
    screens: &[KnownScreen],
) -> Result<(), NoMemory>
    ensures { OnOk result (faults.new.found.items ≡ faults.old.found.items ++ faults_at 4 (bad_pictures (items_of table.now) (map seen_screen screens.now))) }
{
    note_item_pictures(faults, table.items)?;
    note_screen_pictures(faults, screens)?;
    Ok(())
}

/// Notes what is past a limit.
fn note_past_limits(
    alloc: Global,
    faults: &mut Faults,
    front: &Front,
    table: &Table,
    screens: &[KnownScreen],
) -> Result<(), NoMemory>
    requires { IsTable table.now }
    ensures { OnOk result (faults.new.found.items ≡ faults.old.found.items ++ faults_at 5 (past_limits front.now (items_of table.now) (map seen_screen screens.now))) }
{
    note_items_past_limits(faults, table)?;
    note_screens_past_limits(faults, screens)?;
    note_keys_past_limits(alloc, faults, files(front), table)?;
    note_files_past_limit(faults, files(front))?;
    Ok(())
}

/// Notes what is of the wrong kind, and keys that are none or lie where they must not.
fn note_kinds(
    alloc: Global,
    faults: &mut Faults,
    front: &Front,
    table: &Table,
    known: &Descriptions,
    mentions: &Mentions,
    screens: &[KnownScreen],
) -> Result<(), NoMemory>
    requires table { IsTable table.now }
    requires known { AreDescriptions front.now (items_of table.now) known.now }
    requires mentions { AreMentions front.now (items_of table.now) mentions.now }
    requires screens { ArePlacedAfter [] screens.now }
    ensures { OnOk result (faults.new.found.items ≡ faults.old.found.items ++ (faults_at 6 (wrong_kinds front.now (items_of table.now) (map seen_screen screens.now)) ++ faults_at 7 (bad_key_places front.now (items_of table.now)))) }
{
    note_wrong_kinds(alloc, faults, front, table, mentions, screens)?;
    note_bad_keys(alloc, faults, front, known, table)?;
    Ok(())
}

/// Notes what is left out of the language.
fn note_left_out(
    faults: &mut Faults,
    front: &Front,
    table: &Table,
    screens: &[KnownScreen],
) -> Result<(), NoMemory>
    requires { IsTable table.now }
    ensures { OnOk result (faults.new.found.items ≡ faults.old.found.items ++ faults_at 10 (left_out front.now (items_of table.now) (map seen_screen screens.now))) }
{
    note_files_left_out(faults, files(front))?;
    note_items_left_out(faults, table)?;
    note_screens_left_out(faults, screens)?;
    Ok(())
}
