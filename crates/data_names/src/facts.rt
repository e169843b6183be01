ghost use Rattle.std.specs.Prelude.{reverse, ◌≡◌, ◌+◌, ◌^◌, ◌<◌, ◌||◌, ◌&&◌, ◌++◌, ◌∷◌, [], if◌then◌else◌, List, map, is_some, option_map, None, IfOk};
ghost use Rattle.std.specs.List.{list_any, list_all, last_or};
ghost use Rattle.data_layout.specs.Storage.{members};
ghost use Rattle.data_layout.specs.Faults.{has_size};
ghost use Rattle.data_layout.specs.Layout.{size_of};
ghost use Rattle.data_layout.specs.Walk.{counted};
ghost use Rattle.data_names.specs.Items.{DataItem};
ghost use Rattle.data_names.specs.Spots.{has_value, is_record, spot_of};
ghost use Rattle.data_names.specs.Seen.{seen_item};
ghost use Rattle.data_names.specs.Facts.{has_bytes, count_with_bytes, count_inside, record_bytes, IsFacts, AreFacts};
ghost use Rattle.data_names.specs.Survey.{IsSurvey};

use crate::item_clauses;
use crate::known::KnownItem;
use cob_base::{ByteText, NoMemory};
use data_layout::{
    Row, Walk, bytes_of, bytes_with, does_go_on, does_level_fit, is_sized, members_of, own_bytes,
};
use std::alloc::Global;

/// What an item's surroundings say of it.
#[derive(Debug, Drop)]
pub struct Facts<'a> {
    /// The number of the innermost group that it is in; None where it is in none.
    pub parent: Option<u32>,
    /// The names of the groups that it is in, from the inside out.
    pub groups: Vec<Option<&'a ByteText>>,
    /// Whether its level fits after the entries before it.
    pub level_fits: bool,
    /// Whether a group that it is in has OCCURS.
    pub repeated: bool,
    /// Whether it or a group that it is in has OCCURS.
    pub table: bool,
    /// Whether a group that it is in has VALUE.
    pub in_value: bool,
    /// Whether it is the record under its file description or a member of it.
    pub in_record: bool,
    /// Whether no size in it hangs on a text that is no picture.
    pub sized: bool,
    /// The bytes of one occurrence, 2^64 - 1 at most, where the count stands still.
    pub bytes: u64,
    /// The bytes before it, 2^64 - 1 at most.
    pub before: u64,
    /// The bytes up to its end, 2^64 - 1 at most.
    pub after: u64,
    /// How many elementary items with bytes stand before it.
    pub with_bytes_before: usize,
    /// How many elementary items with bytes it has: a group its members, any other itself.
    pub with_bytes: usize,
    /// Whether every size up to it is known.
    pub sized_so_far: bool,
    /// The bytes of the item with its members by themselves where it is of level 01 in the file section, else 0.
    pub record_bytes: u64,
}

/// A group that is open.
#[derive(Clone, Copy, Debug)]
struct OpenGroup<'a> {
    name: Option<&'a ByteText>,
    row: Row,
    has_value: bool,
    is_record: bool,
}

/// What is known after some items.
#[derive(Drop)]
struct Survey<'a> {
    walk: Walk,
    groups: Vec<OpenGroup<'a>>,
    with_bytes: usize,
    sized_so_far: bool,
}

impl<'a> Survey<'a> {
    /// Before the first item.
    fn new(alloc: Global) -> Survey<'a>
        ensures { IsSurvey [] result }
    {
        Survey {
            walk: Walk::new(alloc),
            groups: Vec::new(alloc),
            with_bytes: 0,
            sized_so_far: true,
        }
    }

    /// Takes in one more item, whose row the rest follows.
    fn enter(
        &mut self,
        alloc: Global,
        item: &KnownItem<'a>,
        rest: &[Row],
    ) -> Result<Facts<'a>, NoMemory>
        requires { self.now.with_bytes < 2 ^ 63 }
        ensures { (before after : List DataItem) → IsSurvey before self.old → map (λ other. other.row) after ≡ rest.now → IfOk result (λ facts. IsFacts (spot_of before (seen_item item.now) after) facts × IsSurvey (before ++ seen_item item.now ∷ []) self.new) }
    {
        let row = item.row;
        let level_fits = does_level_fit(&self.walk, &row);
        self.walk.close(&row);
        self.groups.retain(|group| does_go_on(&group.row, &row));
        let before = self.walk.total;
        self.walk.enter(&row)?;
        let with_bytes_before = self.with_bytes;
        self.with_bytes = count_with(with_bytes_before, &row);
        self.sized_so_far = stays_sized(self.sized_so_far, &row);
        let groups = self.groups.as_slice();
        let repeated = has_occurs(groups);
        let facts = Facts {
            parent: number_of_last(groups),
            groups: names_of(alloc, groups)?,
            level_fits,
            repeated,
            table: is_table(repeated, &row),
            in_value: has_group_value(groups),
            in_record: is_in_record(groups, item),
            sized: is_item_sized(&row, rest),
            bytes: bytes_of_item(alloc, &row, rest)?,
            before,
            after: self.walk.total,
            with_bytes_before,
            with_bytes: with_bytes_of_item(&row, rest),
            sized_so_far: self.sized_so_far,
            record_bytes: bytes_of_record(alloc, &row, rest)?,
        };
        self.groups.push(OpenGroup {
            name: item.text.name.as_ref(),
            row,
            has_value: has_value(item),
            is_record: is_record(item),
        })?;
        Ok(facts)
    }
}

fn number_of_last(groups: &[OpenGroup]) -> Option<u32>
    ensures { result ≡ option_map (λ group. group.row.number) (last_or None groups.now) }
{
    match groups.last() {
        Some(group) => Some(group.row.number),
        None => None,
    }
}

/// The names of groups, from the last one on.
fn names_of<'a>(
    alloc: Global,
    groups: &[OpenGroup<'a>],
) -> Result<Vec<Option<&'a ByteText>>, NoMemory>
    ensures { IfOk result (λ names. names.items ≡ reverse (map (λ group. group.name) groups.entry.now)) }
{
    let mut names = Vec::new(alloc);
    for group in groups {
        names.push(group.name)?;
    }
    names.as_mut_slice().reverse();
    Ok(names)
}

fn has_occurs(groups: &[OpenGroup]) -> bool
    ensures { result ≡ list_any (λ group. is_some group.row.occurs) groups.now }
{
    groups.iter().any(|group| group.row.occurs.is_some())
}

fn has_group_value(groups: &[OpenGroup]) -> bool
    ensures { result ≡ list_any (λ group. group.has_value) groups.now }
{
    groups.iter().any(|group| group.has_value)
}

fn has_record(groups: &[OpenGroup]) -> bool
    ensures { result ≡ list_any (λ group. group.is_record) groups.now }
{
    groups.iter().any(|group| group.is_record)
}

fn is_in_record(groups: &[OpenGroup], item: &KnownItem) -> bool
    ensures { result ≡ (list_any (λ group. group.is_record) groups.now || is_record (seen_item item.now)) }
{
    has_record(groups) || is_record(item)
}

fn is_table(repeated: bool, row: &Row) -> bool
    ensures { result ≡ (repeated || is_some row.now.occurs) }
{
    repeated || row.occurs.is_some()
}

fn stays_sized(sized: bool, row: &Row) -> bool
    ensures { result ≡ (sized && has_size row.now) }
{
    sized && is_sized(row)
}

fn is_item_sized(row: &Row, rest: &[Row]) -> bool
    ensures { result ≡ list_all has_size (row.now ∷ members row.now rest.now) }
{
    is_sized(row) && are_sized(members_of(row, rest))
}

fn are_sized(rows: &[Row]) -> bool
    ensures { result ≡ list_all has_size rows.now }
{
    rows.iter().all(|row| is_sized(row))
}

/// Whether a row is an elementary item with bytes.
fn has_bytes(row: &Row) -> bool
    ensures { result ≡ has_bytes row.now }
{
    own_bytes(row) != 0
}

/// One more than before where the row is an elementary item with bytes.
fn count_with(before: usize, row: &Row) -> usize
    requires { before < 2 ^ 63 }
    ensures { result ≡ before + (if has_bytes row.now then 1 else 0) }
{
    if has_bytes(row) { before + 1 } else { before }
}

fn count_with_bytes(rows: &[Row]) -> usize
    ensures { result ≡ count_with_bytes rows.now }
{
    rows.iter().filter(|row| has_bytes(row)).count()
}

/// How many elementary items with bytes an item has.
fn with_bytes_of_item(row: &Row, rest: &[Row]) -> usize
    ensures { result ≡ count_inside row.now rest.now }
{
    if row.group {
        count_with_bytes(members_of(row, rest))
    } else {
        count_with(0, row)
    }
}

fn bytes_of_item(alloc: Global, row: &Row, rest: &[Row]) -> Result<u64, NoMemory>
    ensures { IfOk result (λ bytes. bytes ≡ counted (size_of row.now rest.now)) }
{
    if row.group {
        bytes_of(alloc, members_of(row, rest))
    } else {
        Ok(own_bytes(row))
    }
}

fn bytes_of_record(alloc: Global, row: &Row, rest: &[Row]) -> Result<u64, NoMemory>
    ensures { IfOk result (λ bytes. bytes ≡ counted (record_bytes row.now rest.now)) }
{
    if row.in_file && row.level == 1 {
        bytes_with(alloc, row, members_of(row, rest))
    } else {
        Ok(0)
    }
}

/// Whether an item is the record of its file description: the first there, of level 01.
pub fn is_record(item: &KnownItem) -> bool
    ensures { result ≡ is_record (seen_item item.now) }
{
    item.row.starts && item.row.level == 1
}

/// Whether an item has VALUE.
pub fn has_value(item: &KnownItem) -> bool
    ensures { result ≡ has_value (seen_item item.now) }
{
    item_clauses::value(item.source.entry.clauses.as_slice()).is_some()
}

/// What the surroundings of each item say of it. The rows are those of the items.
pub fn facts_of<'a>(
    alloc: Global,
    items: &[KnownItem<'a>],
    rows: &[Row],
) -> Result<Vec<Facts<'a>>, NoMemory>
    requires { map (λ item. item.row) items.now ≡ rows.now }
    ensures { IfOk result (λ facts. AreFacts (map seen_item items.entry.now) facts.items) }
{
    let mut survey = Survey::new(alloc);
    let mut facts = Vec::new(alloc);
    for (at, item) in items.iter().enumerate() {
        facts.push(survey.enter(alloc, item, &rows[at + 1..])?)?;
    }
    Ok(facts)
}
