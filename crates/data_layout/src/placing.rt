ghost use Rattle.std.specs.Prelude.{◌≡◌, ◌^◌, ◌<◌, List, [], ◌∷◌, ◌++◌, length, IfOk, IfSome, OnOk, MatchResult, MatchBool, Option, Some, IsSome, ⊤, true, if◌then◌else◌};
ghost use Rattle.data_layout.specs.Storage.{storage, members, last_of};
ghost use Rattle.data_layout.specs.Faults.{faults_after, is_in_range};
ghost use Rattle.data_layout.specs.Layout.{size_of, IsItemPicture, IsItem, IsInside, IsLayout, number_of, occurs_or_zero};
ghost use Rattle.data_layout.specs.Walk.{counted};
ghost use Rattle.data_layout.specs.Placed.{IsPlacing, CanBePlaced, AreMatched, NumberedFrom};
ghost use Rattle.data_layout.specs.declared.row.Row.{Row};

use crate::layout::{Item, Layout};
use crate::levels::{members_of, own_bytes};
use crate::row::{Described, Row};
use crate::walk::{Walk, bytes_of};
use cob_base::{Items, NoMemory};
use picture_rule::Picture;
use std::alloc::Global;

/// Where the next item lies.
#[derive(Drop)]
pub struct Placing {
    pub walk: Walk,
    /// The place right after the last row, counted in the occurrence that it stands in.
    pub next: u64,
}

impl Placing {
    /// The item of one more row, which the rest follows.
    fn place(
        &mut self,
        alloc: Global,
        row: &Row,
        rest: &[Row],
        text: Described,
    ) -> Result<Item, NoMemory>
        ensures { (before : List Row) → IsPlacing before self.old → CanBePlaced before row.now rest.now text → IfOk result (λ item. IsItem before row.now rest.now text item × IsPlacing (before ++ row.now ∷ []) self.new × IsInside (storage (before ++ row.now ∷ rest.now)) item) }
    {
        self.walk.close(row);
        let parent = number_of_last(self.walk.rows.as_slice());
        let place = place_in(self.walk.is_in_table(), self.next, self.walk.total);
        self.next = place.saturating_add(own_bytes(row));
        self.walk.enter(row)?;
        let size = bytes_of_item(alloc, row, rest)?;
        let Described { name, picture } = text;
        Ok(Item {
            line: row.line,
            name,
            level: row.level,
            parent,
            offset: narrow(place),
            size,
            occurs: occurs_of_item(row),
            picture: picture_of_item(alloc, row, size, picture),
        })
    }
}

/// The next place within a table, or else all bytes so far.
fn place_in(in_table: bool, next: u64, total: u64) -> u64
    ensures { result ≡ (if in_table then next else total) }
{
    if in_table { next } else { total }
}

/// The number after OCCURS, or 0 without such a clause.
fn occurs_of_item(row: &Row) -> u32
    ensures { is_in_range row.now.occurs ≡ true → result ≡ occurs_or_zero row.now.occurs }
{
    match row.occurs {
        Some(number) => narrow(number),
        None => 0,
    }
}

fn number_of_last(rows: &[Row]) -> Option<u32>
    ensures { result ≡ number_of (last_of rows.now) }
{
    match rows.last() {
        Some(row) => Some(row.number),
        None => None,
    }
}

/// The number in 32 bits, or the largest there.
fn narrow(number: u64) -> u32
    ensures { number < 2 ^ 32 → result ≡ number }
{
    number.min(u64::from(u32::MAX)) as u32
}

fn bytes_of_item(alloc: Global, row: &Row, rest: &[Row]) -> Result<u32, NoMemory>
    ensures { size_of row.now rest.now < 2 ^ 32 → IfOk result (λ size. size ≡ size_of row.now rest.now) }
{
    if row.group {
        Ok(narrow(bytes_of(alloc, members_of(row, rest))?))
    } else {
        Ok(narrow(row.size))
    }
}

/// The picture of a group of this size, or else the one that is given.
fn picture_of_item(alloc: Global, row: &Row, size: u32, given: Option<Picture>) -> Picture
    ensures { MatchBool row.now.group ⊤ (IsSome given) → IsItemPicture row.now.group size given result }
{
    match given {
        Some(picture) => if row.group {
            Picture::group(alloc, size)
        } else {
            picture
        },
        None => Picture::group(alloc, size),
    }
}

/// The layout of rows that have no fault.
pub fn place(alloc: Global, rows: &[Row], texts: Vec<Described>) -> Result<Layout, NoMemory>
    requires matched { AreMatched rows.now texts.items }
    requires faultless { faults_after [] rows.now ≡ [] }
    requires numbered { NumberedFrom 0 rows.now }
    ensures { IfOk result (λ layout. IsLayout rows.now texts.items layout) }
{
    let mut items = Items::new(alloc);
    let mut placing = Placing {
        walk: Walk::new(alloc),
        next: 0,
    };
    let mut texts = texts.into_iter();
    for (at, row) in rows.iter().enumerate() {
        let text = texts.next().unwrap();
        let item = placing.place(alloc, row, &rows[at + 1..], text)?;
        items.push(item)?;
    }
    Ok(Layout {
        items,
        total: narrow(placing.walk.total),
    })
}
