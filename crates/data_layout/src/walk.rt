ghost use Rattle.std.specs.Prelude.{◌≡◌, ℕ, ◌+◌, ◌*◌, ◌^◌, ◌-◌, List, [], ◌∷◌, ◌++◌, filter, min, OnOk, IfOk, is_some};
ghost use Rattle.std.specs.List.{list_any};
ghost use Rattle.data_layout.specs.Storage.{goes_on, opened, groups, times, storage, is_repeated};
ghost use Rattle.data_layout.specs.Walk.{counted, IsAfter, IsBetween, any_level};
ghost use Rattle.data_layout.specs.declared.row.Row.{Row};

use crate::levels::{does_go_on, occurrences, own_bytes, rank_of};
use crate::row::Row;
use cob_base::NoMemory;
use std::alloc::Global;

/// What is known after some rows: those that are open, from the outside in, and the bytes of all, as far as they are counted.
#[derive(Drop)]
pub struct Walk {
    pub rows: Vec<Row>,
    pub total: u64,
}

impl Walk {
    /// Before the first row.
    pub fn new(alloc: Global) -> Walk
        ensures { IsAfter [] result }
    {
        Walk {
            rows: Vec::new(alloc),
            total: 0,
        }
    }

    /// Leaves only those rows open in which this one goes on.
    pub fn close(&mut self, row: &Row)
        ensures { (before : List Row) → IsAfter before self.old → IsBetween before row.now self.new }
    {
        self.rows.retain(|group| does_go_on(group, row));
    }

    /// Takes this row in, after those in which it doesn't go on were closed.
    pub fn enter(&mut self, row: &Row) -> Result<(), NoMemory>
        ensures { (before : List Row) → IsBetween before row.now self.old → OnOk result (IsAfter (before ++ row.now ∷ []) self.new) }
    {
        let often = occurrences(row).saturating_mul(product(self.rows.as_slice()));
        self.total = self
            .total
            .saturating_add(own_bytes(row).saturating_mul(often));
        self.rows.push(*row)?;
        Ok(())
    }

    /// Whether one of the open rows has OCCURS.
    pub fn is_in_table(&self) -> bool
        ensures { result ≡ list_any (λ row. is_some row.occurs) self.now.rows.items }
    {
        self.rows.iter().any(|row| row.occurs.is_some())
    }

    /// Whether an open row has the rank of this one.
    pub fn has_rank(&self, row: &Row) -> bool
        ensures { result ≡ any_level row.now self.now.rows.items }
    {
        self.rows
            .iter()
            .any(|other| rank_of(other.level) == rank_of(row.level))
    }
}

/// How often the innermost of groups occurs, as far as it is counted.
fn product(rows: &[Row]) -> u64
    ensures { result ≡ counted (times rows.now) }
{
    let mut product = 1u64;
    for row in rows {
        product = product.saturating_mul(occurrences(row));
    }
    product
}

/// Takes in rows one after another.
fn walk_over(walk: &mut Walk, rows: &[Row]) -> Result<(), NoMemory>
    ensures { (before : List Row) → IsAfter before walk.old → OnOk result (IsAfter (before ++ rows.now) walk.new) }
{
    for row in rows {
        walk.close(row);
        walk.enter(row)?;
    }
    Ok(())
}

/// The bytes of rows by themselves, as far as they are counted.
pub fn bytes_of(alloc: Global, rows: &[Row]) -> Result<u64, NoMemory>
    ensures { IfOk result (λ bytes. bytes ≡ counted (storage rows.now)) }
{
    let mut walk = Walk::new(alloc);
    walk_over(&mut walk, rows)?;
    Ok(walk.total)
}

/// The bytes of a row and its members by themselves, as far as they are counted.
pub fn bytes_with(alloc: Global, row: &Row, members: &[Row]) -> Result<u64, NoMemory>
    ensures { IfOk result (λ bytes. bytes ≡ counted (storage (row.now ∷ members.now))) }
{
    let mut walk = Walk::new(alloc);
    walk.close(row);
    walk.enter(row)?;
    walk_over(&mut walk, members)?;
    Ok(walk.total)
}
