ghost use Rattle.std.specs.Prelude.{◌≡◌, ◌++◌, ◌||◌, ◌<◌, [], ℕ, List, length, map, filter, All, IfOk, OnOk, slice_get, Some, option_to_list};
ghost use Rattle.std.specs.Option.{option_copied};
ghost use Rattle.data_layout.specs.Faults.{has_size};
ghost use Rattle.data_names.specs.Items.{DataItem};
ghost use Rattle.data_names.specs.Seen.{seen_item};
ghost use Rattle.data_names.specs.Facts.{IsFacts};
ghost use Rattle.data_names.specs.Parts.{files, crt_status};
ghost use Rattle.data_names.specs.Spots.{Spot, spots, picture_of_item};
ghost use Rattle.data_names.specs.References.{found};
ghost use Rattle.data_names.specs.Table.{IsTable, items_of};
ghost use Rattle.name_rules.specs.Mentions.{reference_of_crt, subscript_items};
ghost use Rattle.name_rules.specs.SeenMentions.{IsFoundMention, AreMentions, seen_mention};
ghost use Rattle.entry_clauses.specs.SeenScreens.{seen_screen, ArePlacedAfter};
ghost use Rattle.entry_clauses.specs.Clauses.{has_leading_sign};
ghost use Rattle.cob_value.specs.Figures.{is_numeric};
ghost use Rattle.front_rules.specs.Kinds.{is_text_kind, is_text, is_no_status, is_bad_status, is_file_of_wrong_kind, is_four_digits, is_no_crt_status, is_number_kind, is_integer, is_no_integer, is_item_of_wrong_kind, wrong_in_environment, wrong_in_data, wrong_kinds};
ghost use Rattle.screen_rules.specs.ScreenKinds.{is_screen_of_wrong_kind};
ghost use Rattle.name_rules.specs.Faults.{faults_at};

use crate::levels::{has_bad_level, note_misplaced};
use crate::values::has_bad_value;
use cob_base::{CrtStatus, FileEntry, Front, NoMemory, Reference};
use data_layout::is_sized;
use data_names::{Facts, Found, KnownItem, Table, crt_status, files};
use entry_clauses::{KnownScreen, file_clauses, item_clauses};
use name_rules::{Faults, Mention, Mentions};
use picture_rule::{Picture, PictureKind};
use screen_rules::is_screen_of_wrong_kind;
use std::alloc::Global;

fn is_text_kind(kind: Option<PictureKind>) -> bool
    ensures { result ≡ is_text_kind kind }
{
    match kind {
        Some(PictureKind::Alphanumeric | PictureKind::Group) => true,
        Some(PictureKind::Numeric | PictureKind::Edited) => false,
        None => false,
    }
}

fn is_text(item: KnownItem) -> bool
    ensures { (spot : Spot DataItem) → spot.item ≡ seen_item item.entry → result ≡ is_text spot }
{
    item.row.group || is_text_kind(item.told.kind)
}

/// Whether the item of this number is no alphanumeric item or group of 2 bytes.
fn is_no_status(table: &Table, at: usize) -> bool
    requires table { IsTable table.now }
    requires within { at < length table.now.items.now }
    ensures { (spot : Spot DataItem) → slice_get (spots (items_of table.now)) at ≡ Some spot → result ≡ is_no_status (Some spot) }
{
    let facts = table.facts_at(at);
    facts.sized && !(is_text(table.item_at(at)) && facts.bytes == 2)
}

/// Whether what FILE STATUS names is subscripted, or no item of 2 bytes.
fn is_bad_status(alloc: Global, table: &Table, status: Option<&Reference>) -> Result<bool, NoMemory>
    requires { IsTable table.now }
    ensures { IfOk result (λ bad. bad ≡ is_bad_status (items_of table.now) (option_copied status.entry)) }
{
    let Some(reference) = status else {
        return Ok(false);
    };
    if reference.subscript.is_some() {
        return Ok(true);
    }
    match table.found(alloc, reference)? {
        Some(at) => Ok(is_no_status(table, at)),
        None => Ok(false),
    }
}

fn is_file_of_wrong_kind(alloc: Global, table: &Table, file: &FileEntry) -> Result<bool, NoMemory>
    requires { IsTable table.now }
    ensures { IfOk result (λ wrong. wrong ≡ is_file_of_wrong_kind (items_of table.now) file.now) }
{
    let clauses = file.clauses.as_slice();
    if file_clauses::is_written_twice(clauses) {
        return Ok(true);
    }
    is_bad_status(alloc, table, file_clauses::file_status(clauses))
}

fn is_numeric(kind: PictureKind) -> bool
    ensures { result ≡ is_numeric kind }
{
    matches!(kind, PictureKind::Numeric)
}

fn is_four_digits(picture: &Picture) -> bool
    ensures { result ≡ is_four_digits (Some picture.now) }
{
    is_numeric(picture.kind) && picture.digits == 4 && picture.decimals == 0 && !picture.signed
}

fn has_four_digits(item: KnownItem) -> bool
    ensures { (spot : Spot DataItem) → spot.item ≡ seen_item item.entry → result ≡ is_four_digits (picture_of_item spot) }
{
    let text = item.text;
    if item.row.group {
        return false;
    }
    match &text.picture {
        Some(picture) => is_four_digits(picture),
        None => false,
    }
}

/// Whether an item is none of four digits without a sign or decimals.
fn is_no_crt_status(item: KnownItem) -> bool
    ensures { (spot : Spot DataItem) → spot.item ≡ seen_item item.entry → result ≡ is_no_crt_status (Some spot) }
{
    is_sized(&item.row) && !has_four_digits(item)
}

/// Whether what CRT STATUS names is no item of four digits.
fn is_bad_crt_status(alloc: Global, table: &Table, crt: &CrtStatus) -> Result<bool, NoMemory>
    requires { IsTable table.now }
    ensures { IfOk result (λ bad. bad ≡ is_no_crt_status (found (items_of table.now) (reference_of_crt crt.now))) }
{
    match table.find(alloc, &crt.name, &[])? {
        Found::One(at) => Ok(is_no_crt_status(table.item_at(at))),
        Found::Nothing => Ok(false),
        Found::Several => Ok(false),
    }
}

fn is_number_kind(kind: Option<PictureKind>) -> bool
    ensures { result ≡ is_number_kind kind }
{
    match kind {
        Some(PictureKind::Numeric) => true,
        Some(PictureKind::Alphanumeric | PictureKind::Group | PictureKind::Edited) => false,
        None => false,
    }
}

fn is_integer(item: KnownItem) -> bool
    ensures { (spot : Spot DataItem) → spot.item ≡ seen_item item.entry → result ≡ is_integer spot }
{
    !item.row.group && is_number_kind(item.told.kind) && item.told.whole
}

/// Whether an item is no number without decimals. One past its limits may be one.
pub fn is_no_integer(item: KnownItem) -> bool
    ensures { (spot : Spot DataItem) → spot.item ≡ seen_item item.entry → result ≡ is_no_integer (Some spot) }
{
    is_sized(&item.row) && !is_integer(item)
}

/// Whether a reference stands for an item that is no integer.
fn is_bad_subscript(table: &Table, mention: &Mention) -> bool
    requires table { IsTable table.now }
    requires found { IsFoundMention (items_of table.now) mention.now }
    ensures { result ≡ is_no_integer (found (items_of table.now) (seen_mention mention.now).reference) }
{
    match mention.found {
        Found::One(at) => is_no_integer(table.item_at(at)),
        Found::Nothing => false,
        Found::Several => false,
    }
}

/// Whether an item has a bad level or VALUE, a clause written twice, or SIGN LEADING without SEPARATE.
fn is_item_of_wrong_kind(alloc: Global, item: &KnownItem, facts: &Facts) -> Result<bool, NoMemory>
    ensures { (spot : Spot DataItem) → spot.item ≡ seen_item item.now → IsFacts spot facts.now → IfOk result (λ wrong. wrong ≡ is_item_of_wrong_kind spot) }
{
    if has_bad_level(item, facts) {
        return Ok(true);
    }
    if is_badly_written(item) {
        return Ok(true);
    }
    has_bad_value(alloc, item, facts)
}

/// Whether a clause is written twice, or SIGN is LEADING without SEPARATE.
fn is_badly_written(item: &KnownItem) -> bool
    ensures { result ≡ (item.now.row.twice || has_leading_sign item.now.source.entry.now.clauses) }
{
    item.row.twice || item_clauses::has_leading_sign(item.source.entry.clauses.as_slice())
}

/// Notes the files with a clause twice or a bad FILE STATUS.
fn note_files(
    alloc: Global,
    faults: &mut Faults,
    files: &[FileEntry],
    table: &Table,
) -> Result<(), NoMemory>
    requires { IsTable table.now }
    ensures { OnOk result (faults.new.found.items ≡ faults.old.found.items ++ faults_at 6 (map (λ file. file.line) (filter (is_file_of_wrong_kind (items_of table.now)) files.now))) }
{
    for file in files {
        let is_wrong = is_file_of_wrong_kind(alloc, table, file)?;
        faults.note(6, file.line, is_wrong)?;
    }
    Ok(())
}

/// Notes a bad CRT STATUS.
fn note_crt_status(
    alloc: Global,
    faults: &mut Faults,
    crt: Option<&CrtStatus>,
    table: &Table,
) -> Result<(), NoMemory>
    requires { IsTable table.now }
    ensures { OnOk result (faults.new.found.items ≡ faults.old.found.items ++ faults_at 6 (map (λ crt. crt.line) (filter (λ crt. is_no_crt_status (found (items_of table.now) (reference_of_crt crt))) (option_to_list (option_copied crt.entry))))) }
{
    match crt {
        Some(crt) => {
            let is_bad = is_bad_crt_status(alloc, table, crt)?;
            faults.note(6, crt.line, is_bad)
        }
        None => Ok(()),
    }
}

/// Notes each subscript whose item is no integer.
pub fn note_subscripts(
    faults: &mut Faults,
    table: &Table,
    subscripts: &[Mention],
) -> Result<(), NoMemory>
    requires table { IsTable table.now }
    requires found { All (IsFoundMention (items_of table.now)) subscripts.now }
    ensures { OnOk result (faults.new.found.items ≡ faults.old.found.items ++ faults_at 6 (map (λ one. one.line) (filter (λ one. is_no_integer (found (items_of table.now) one.reference)) (map seen_mention subscripts.now)))) }
{
    for mention in subscripts {
        faults.note(6, mention.line, is_bad_subscript(table, mention))?;
    }
    Ok(())
}

/// Notes the items of the wrong kind.
fn note_items(alloc: Global, faults: &mut Faults, table: &Table) -> Result<(), NoMemory>
    requires { IsTable table.now }
    ensures { OnOk result (faults.new.found.items ≡ faults.old.found.items ++ faults_at 6 (map (λ spot. spot.item.row.line) (filter is_item_of_wrong_kind (spots (items_of table.now))))) }
{
    for (at, item) in table.items.iter().enumerate() {
        let is_wrong = is_item_of_wrong_kind(alloc, item, table.facts_at(at))?;
        faults.note(6, item.row.line, is_wrong)?;
    }
    Ok(())
}

/// Notes the entries of screens that are of the wrong kind.
fn note_screens(
    alloc: Global,
    faults: &mut Faults,
    table: &Table,
    screens: &[KnownScreen],
) -> Result<(), NoMemory>
    requires table { IsTable table.now }
    requires screens { ArePlacedAfter [] screens.now }
    ensures { OnOk result (faults.new.found.items ≡ faults.old.found.items ++ faults_at 6 (map (λ spot. spot.item.row.line) (filter (is_screen_of_wrong_kind (items_of table.now)) (spots (map seen_screen screens.now))))) }
{
    for item in screens {
        let is_wrong = is_screen_of_wrong_kind(alloc, table, item)?;
        faults.note(6, item.row.line, is_wrong)?;
    }
    Ok(())
}

/// Notes what is of the wrong kind in the environment division.
fn note_environment(
    alloc: Global,
    faults: &mut Faults,
    front: &Front,
    table: &Table,
) -> Result<(), NoMemory>
    requires { IsTable table.now }
    ensures { OnOk result (faults.new.found.items ≡ faults.old.found.items ++ faults_at 6 (wrong_in_environment front.now (items_of table.now))) }
{
    note_files(alloc, faults, files(front), table)?;
    note_crt_status(alloc, faults, crt_status(front), table)
}

/// Notes what is of the wrong kind among subscripts, items and in the order of levels.
fn note_data(
    alloc: Global,
    faults: &mut Faults,
    front: &Front,
    table: &Table,
    mentions: &Mentions,
) -> Result<(), NoMemory>
    requires table { IsTable table.now }
    requires mentions { AreMentions front.now (items_of table.now) mentions.now }
    ensures { OnOk result (faults.new.found.items ≡ faults.old.found.items ++ faults_at 6 (wrong_in_data front.now (items_of table.now))) }
{
    note_subscripts(faults, table, mentions.subscripts.as_slice())?;
    note_misplaced(faults, front)?;
    note_items(alloc, faults, table)
}

/// Notes what is of the wrong kind.
pub fn note_wrong_kinds(
    alloc: Global,
    faults: &mut Faults,
    front: &Front,
    table: &Table,
    mentions: &Mentions,
    screens: &[KnownScreen],
) -> Result<(), NoMemory>
    requires table { IsTable table.now }
    requires mentions { AreMentions front.now (items_of table.now) mentions.now }
    requires screens { ArePlacedAfter [] screens.now }
    ensures { OnOk result (faults.new.found.items ≡ faults.old.found.items ++ faults_at 6 (wrong_kinds front.now (items_of table.now) (map seen_screen screens.now))) }
{
    note_environment(alloc, faults, front, table)?;
    note_data(alloc, faults, front, table, mentions)?;
    note_screens(alloc, faults, table, screens)
}
