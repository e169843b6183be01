ghost use Rattle.std.specs.Prelude.{◌≡◌, ◌||◌, ◌&&◌, not, List, ◌∷◌, ◌++◌, [], IfOk, OnOk};
ghost use Rattle.screen_layout.specs.Placing.{is_off_screen};
ghost use Rattle.screen_layout.specs.ScreenFaults.{row_faults, faults_after, screen_faults, fault_where};
ghost use Rattle.screen_layout.specs.Best.{IsBest};
ghost use Rattle.screen_layout.specs.Walk.{IsAfter};
ghost use Rattle.screen_rows.specs.declared.row.ScreenRow.{ScreenRow};
ghost use Rattle.screen_layout.specs.declared.fault.ScreenFault.{ScreenFault};

use crate::fault::ScreenFault;
use crate::least::note_where;
use crate::place::leaves_screen;
use crate::walk::ScreenWalk;
use cob_base::NoMemory;
use screen_rows::ScreenRow;
use std::alloc::Global;

/// The least fault, with those of one more row.
fn judge(walk: &ScreenWalk, best: Option<ScreenFault>, row: &ScreenRow) -> Option<ScreenFault>
    ensures { (before : List ScreenRow) (found : List ScreenFault) → IsAfter before walk.now → IsBest found best → IsBest (found ++ row_faults before row.now) result }
{
    let off = is_off(walk, row);
    let bad = is_bad(row.bad, walk.does_level_fit(row));
    let best = note_where(best, off, ScreenFault::OffScreen(row.line));
    note_where(best, bad, ScreenFault::BadItem(row.line))
}

fn is_bad(bad: bool, fits: bool) -> bool
    ensures { result ≡ (bad || not fits) }
{
    bad || !fits
}

fn is_off(walk: &ScreenWalk, row: &ScreenRow) -> bool
    ensures { (before : List ScreenRow) → IsAfter before walk.now → result ≡ is_off_screen before row.now }
{
    let leaves = leaves_screen(walk.place(row), row.size);
    item_leaves(row.group, leaves)
}

fn item_leaves(group: bool, leaves: bool) -> bool
    ensures { result ≡ (not group && leaves) }
{
    !group && leaves
}

/// The least fault of rows.
pub fn least_fault(alloc: Global, rows: &[ScreenRow]) -> Result<Option<ScreenFault>, NoMemory>
    ensures { IfOk result (λ best. IsBest (screen_faults rows.now) best) }
{
    let mut walk = ScreenWalk::new(alloc);
    let mut best = None;
    for row in rows {
        best = judge(&walk, best, row);
        walk.enter(row)?;
    }
    Ok(best)
}
