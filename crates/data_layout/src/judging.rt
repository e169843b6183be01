ghost use Rattle.std.specs.Prelude.{◌==◌, ◌||◌, ◌&&◌, not, nat_le, nat_lt, is_some, ◌≡◌, ℕ, List, [], ◌∷◌, ◌++◌, Bool, OnOk, IfOk, Option, None, drop, take};
ghost use Rattle.std.specs.List.{list_all};
ghost use Rattle.data_layout.specs.Storage.{goes_on, opened, members, storage, is_repeated, last_of};
ghost use Rattle.data_layout.specs.Rows.{rank};
ghost use Rattle.data_layout.specs.Faults.{has_size, has_bad_clauses, level_fits, goes_deeper, is_bad_level, passes_storage, passes_record, row_faults, faults_after, layout_faults};
ghost use Rattle.data_layout.specs.Best.{IsBest};
ghost use Rattle.data_layout.specs.Walk.{IsAfter};
ghost use Rattle.data_layout.specs.Judge.{IsJudged};
ghost use Rattle.data_layout.specs.declared.row.Row.{Row};
ghost use Rattle.data_layout.specs.declared.fault.LayoutFault.{LayoutFault};

use crate::fault::LayoutFault;
use crate::least::{least_stray, note_where};
use crate::levels::{does_go_on, is_bad_alone, is_refused_picture, is_sized, members_of, rank_of};
use crate::row::Row;
use crate::walk::{Walk, bytes_with};
use cob_base::{Line, NoMemory};
use std::alloc::Global;

/// How many bytes storage may have.
const STORAGE_LIMIT: u64 = 1_000_000;

/// How many bytes a record may have.
const RECORD_LIMIT: u64 = 512;

/// What is known of faults after some rows.
#[derive(Drop)]
pub struct Judge {
    pub walk: Walk,
    /// Whether every size so far is known.
    pub sized: bool,
    pub best: Option<LayoutFault>,
}

impl Judge {
    /// Takes in one more row, which the rest follows.
    fn judge(&mut self, alloc: Global, row: &Row, rest: &[Row]) -> Result<(), NoMemory>
        ensures { (before : List Row) (found : List LayoutFault) → IsJudged before found self.old → OnOk result (IsJudged (before ++ row.now ∷ []) (found ++ row_faults before row.now rest.now) self.new) }
    {
        let fits = does_level_fit(&self.walk, row);
        self.walk.close(row);
        let in_table = self.walk.is_in_table();
        let had = self.walk.total;
        self.walk.enter(row)?;
        self.sized = stays_sized(self.sized, row);
        let full = does_fill(self.sized, had, self.walk.total);
        let long = is_long_record(alloc, row, rest)?;
        let bad = is_level_bad(fits, in_table, row);
        let refused = is_refused_picture(row.spelled);
        let best = note_where(self.best, full, LayoutFault::StorageLimit(row.line));
        let best = note_where(best, long, LayoutFault::RecordLimit(row.line));
        let best = note_where(best, bad, LayoutFault::BadLevel(row.line));
        self.best = note_where(best, refused, LayoutFault::BadPicture(row.line));
        Ok(())
    }
}

/// Whether a row's level fits after those that were walked over.
pub fn does_level_fit(walk: &Walk, row: &Row) -> bool
    ensures { (before : List Row) → IsAfter before walk.now → result ≡ level_fits before row.now }
{
    let deeper = does_go_deeper(walk.rows.as_slice(), row);
    let returns = walk.has_rank(row);
    is_level_good(deeper, returns, row)
}

/// Whether a row's level fits, where it goes on in the row before or has the level of one that is open.
fn is_level_good(deeper: bool, returns: bool, row: &Row) -> bool
    ensures { result ≡ ((rank row.now.level == 1) || (not row.now.starts && (deeper || returns))) }
{
    rank_of(row.level) == 1 || (!row.starts && (deeper || returns))
}

/// Whether a row's level, its table or its clauses are at fault.
fn is_level_bad(fits: bool, in_table: bool, row: &Row) -> bool
    ensures { result ≡ (not fits || (is_some row.now.occurs && in_table) || has_bad_clauses row.now) }
{
    !fits || (row.occurs.is_some() && in_table) || is_bad_alone(row)
}

/// Whether every size is still known.
fn stays_sized(sized: bool, row: &Row) -> bool
    ensures { result ≡ (sized && has_size row.now) }
{
    sized && is_sized(row)
}

/// Whether storage passes its limit between these numbers of bytes.
fn does_fill(sized: bool, had: u64, has: u64) -> bool
    ensures { result ≡ (sized && nat_le had 1000000 && nat_lt 1000000 has) }
{
    sized && had <= STORAGE_LIMIT && STORAGE_LIMIT < has
}

/// Whether a row goes on in the last of these.
fn does_go_deeper(rows: &[Row], row: &Row) -> bool
    ensures { result ≡ goes_deeper (last_of rows.now) row.now }
{
    match rows.last() {
        Some(last) => does_go_on(last, row),
        None => false,
    }
}

/// Whether a row is a file's record that is too long.
fn is_long_record(alloc: Global, row: &Row, rest: &[Row]) -> Result<bool, NoMemory>
    ensures { IfOk result (λ long. long ≡ passes_record row.now rest.now) }
{
    if !row.in_file || row.level != 1 {
        return Ok(false);
    }
    let members = members_of(row, rest);
    if !is_sized(row) || !are_sized(members) {
        return Ok(false);
    }
    Ok(RECORD_LIMIT < bytes_with(alloc, row, members)?)
}

fn are_sized(rows: &[Row]) -> bool
    ensures { result ≡ list_all has_size rows.now }
{
    rows.iter().all(|row| is_sized(row))
}

/// The least fault of rows, and of 88 entries in these lines that stand after no item.
pub fn least_fault(
    alloc: Global,
    strays: &[Line],
    rows: &[Row],
) -> Result<Option<LayoutFault>, NoMemory>
    ensures { IfOk result (λ best. IsBest (layout_faults strays.now rows.now) best) }
{
    let mut judge = Judge {
        walk: Walk::new(alloc),
        sized: true,
        best: least_stray(strays),
    };
    for (at, row) in rows.iter().enumerate() {
        judge.judge(alloc, row, &rows[at + 1..])?;
    }
    Ok(judge.best)
}
