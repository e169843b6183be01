ghost use Rattle.std.specs.Prelude.{◌≡◌, ◌++◌, ◌&&◌, Bool, if◌then◌else◌, length, true, not, IfOk, OnOk, Some, [], map};
ghost use Rattle.std.specs.List.{AllZip};
ghost use Rattle.data_layout.specs.Storage.{number_of_times};
ghost use Rattle.data_names.specs.Clauses.{value_clause};
ghost use Rattle.data_names.specs.Facts.{AreFacts};
ghost use Rattle.data_names.specs.Seen.{seen_item};
ghost use Rattle.data_names.specs.Spots.{spots};
ghost use Rattle.opening_storage.specs.Opening.{CanHold, can_hold};
ghost use Rattle.opening_storage.specs.Filling.{IsSized, added, before_all, closed, with_more, entered, entered_all, may_give, often, own_bytes, piece_of, pieces, seen_filling};

use crate::values::opening_bytes;
use cob_base::NoMemory;
use data_layout::{Item, Row};
use data_names::{Facts, KnownItem, has_value, value};
use picture_rule::Picture;
use std::alloc::Global;

/// A group with OCCURS that may have more members.
#[derive(Drop)]
struct OpenTable {
    /// The bytes of one occurrence so far.
    once: Vec<u8>,
    /// How often it occurs.
    times: u64,
}

/// The bytes of the items so far.
#[derive(Drop)]
pub struct Filling {
    /// Those before the table that is open.
    bytes: Vec<u8>,
    table: Option<OpenTable>,
}

/// Adds some bytes again and again.
fn push_often(bytes: &mut Vec<u8>, more: &[u8], times: u64) -> Result<(), NoMemory>
    ensures { OnOk result (bytes.new.items ≡ bytes.old.items ++ often times more.entry.now) }
{
    for _ in 0..times {
        bytes.extend_from_slice(more)?;
    }
    Ok(())
}

/// How often a row's item occurs in its group.
fn times_of(row: &Row) -> u64
    ensures { result ≡ number_of_times row.now.occurs }
{
    match row.occurs {
        None => 1,
        Some(number) => if number == 0 { 1 } else { number },
    }
}

/// Whether an item is elementary or has VALUE.
fn may_give(item: &KnownItem) -> bool
    ensures { result ≡ may_give (seen_item item.now) }
{
    !item.row.group || has_value(item)
}

impl Filling {
    /// Before the first item.
    pub fn new(alloc: Global) -> Filling
        ensures { seen_filling result ≡ before_all }
    {
        Filling {
            bytes: Vec::new(alloc),
            table: None,
        }
    }

    /// Gives the table that is open all of its occurrences.
    fn close(&mut self) -> Result<(), NoMemory>
        ensures { OnOk result (seen_filling self.new ≡ closed (seen_filling self.old)) }
    {
        if let Some(table) = self.table.take() {
            push_often(&mut self.bytes, table.once.as_slice(), table.times)?;
        }
        Ok(())
    }

    /// Closes the table that is open, but before an item that stands in it.
    fn close_before(&mut self, repeated: bool) -> Result<(), NoMemory>
        ensures { OnOk result (seen_filling self.new ≡ (if repeated then seen_filling self.old else closed (seen_filling self.old))) }
    {
        if repeated {
            return Ok(());
        }
        self.close()?;
        Ok(())
    }

    /// Adds bytes to the table that is open, or after all so far.
    fn push(&mut self, more: &[u8], times: u64) -> Result<(), NoMemory>
        ensures { OnOk result (seen_filling self.new ≡ with_more (seen_filling self.old).bytes (seen_filling self.old).table (often times more.entry.now)) }
    {
        match &mut self.table {
            Some(table) => push_often(&mut table.once, more, times),
            None => push_often(&mut self.bytes, more, times),
        }
    }

    /// Begins a table.
    fn open(&mut self, alloc: Global, times: u64)
        ensures { seen_filling self.new ≡ record { bytes = (seen_filling self.old).bytes; table = Some (record { bytes = []; times = times }) } }
    {
        self.table = Some(OpenTable {
            once: Vec::new(alloc),
            times,
        });
    }

    /// Adds an item that no group with VALUE is around, after the table that it doesn't stand in.
    fn add(&mut self, alloc: Global, item: &KnownItem, picture: &Picture) -> Result<(), NoMemory>
        requires { can_hold picture.now (value_clause (seen_item item.now).source.entry.clauses) ≡ true }
        ensures filled { (in_value repeated : Bool) → OnOk result (seen_filling self.new ≡ added (seen_filling self.old) (piece_of in_value repeated (seen_item item.entry.now) picture.entry.now)) }
        ensures sized { may_give (seen_item item.entry.now) ≡ true → OnOk result (length (own_bytes (seen_item item.entry.now) picture.entry.now) ≡ picture.entry.now.size) }
    {
        if may_give(item) {
            let bytes = opening_bytes(alloc, picture, value(item.source.entry.clauses.as_slice()))?;
            self.push(bytes.as_slice(), times_of(&item.row))?;
        } else if item.row.occurs.is_some() {
            self.open(alloc, times_of(&item.row));
        }
        Ok(())
    }

    /// Adds the next item.
    fn enter(
        &mut self,
        alloc: Global,
        item: &KnownItem,
        facts: &Facts,
        picture: &Picture,
    ) -> Result<(), NoMemory>
        requires { can_hold picture.now (value_clause (seen_item item.now).source.entry.clauses) ≡ true }
        ensures filled { OnOk result (seen_filling self.new ≡ entered (seen_filling self.old) (piece_of facts.entry.now.in_value facts.entry.now.repeated (seen_item item.entry.now) picture.entry.now)) }
        ensures sized { (may_give (seen_item item.entry.now) && not facts.entry.now.in_value) ≡ true → OnOk result (length (own_bytes (seen_item item.entry.now) picture.entry.now) ≡ picture.entry.now.size) }
    {
        if facts.in_value {
            return Ok(());
        }
        self.close_before(facts.repeated)?;
        self.add(alloc, item, picture)?;
        Ok(())
    }
}

/// The opening bytes of items with these facts and places.
pub fn fill_all(
    alloc: Global,
    items: &[KnownItem],
    facts: &[Facts],
    places: &[Item],
) -> Result<Vec<u8>, NoMemory>
    requires facts { AreFacts (map seen_item items.now) facts.now }
    requires many { length facts.now ≡ length items.now }
    requires held { AllZip CanHold (map seen_item items.now) places.now }
    ensures filled { IfOk result (λ bytes. bytes.items ≡ (closed (entered_all before_all (pieces (spots (map seen_item items.entry.now)) places.entry.now))).bytes) }
    ensures sized { IfOk result (λ bytes. AllZip IsSized (spots (map seen_item items.entry.now)) places.entry.now) }
{
    let mut filling = Filling::new(alloc);
    for (at, item) in items.iter().enumerate() {
        filling.enter(alloc, item, &facts[at], &places[at].picture)?;
    }
    filling.close()?;
    Ok(filling.bytes)
}
