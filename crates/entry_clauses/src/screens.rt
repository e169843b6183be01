ghost use Rattle.std.specs.Prelude.{◌≡◌, ℕ, ◌==◌, Bool, List, [], ◌∷◌, ◌++◌, map, drop, None, IfOk, option_map};
ghost use Rattle.std.specs.List.{last_or};
ghost use Rattle.data_layout.specs.Rows.{is_above};
ghost use Rattle.data_layout.specs.Walk.{IsAfter};
ghost use Rattle.data_names.specs.Items.{DataItem};
ghost use Rattle.entry_clauses.specs.ScreenItems.{ScreenItem, level_after, IsScreenItem};
ghost use Rattle.entry_clauses.specs.SeenScreens.{seen_screen, IsPlacedScreen, AreKnownScreens};

use crate::screen_clauses;
use cob_base::{NoMemory, ScreenEntry};
use data_layout::{Row, Walk, does_level_fit, rank_of, reading_of};
use data_names::tell;
use picture_rule::{Picture, SignPlace};
use std::alloc::Global;

/// An entry of a screen.
#[derive(Debug, Drop)]
pub struct KnownScreen<'a> {
    pub entry: &'a ScreenEntry,
    /// Its level and its picture, seen as those of a data item are.
    pub row: Row,
    pub picture: Option<Picture>,
    /// Whether its picture has an S.
    pub signed: bool,
    /// Whether its level fits after the entries before it.
    pub level_fits: bool,
    /// The number of the innermost group that it is in.
    pub parent: Option<u32>,
}

/// The entries of a program's screens.
pub fn screen_items<'a>(
    alloc: Global,
    entries: &'a [ScreenEntry],
) -> Result<Vec<KnownScreen<'a>>, NoMemory>
    ensures { IfOk result (λ screens. AreKnownScreens entries.entry.now screens.items) }
{
    let mut items = Vec::new(alloc);
    let mut walk = Walk::new(alloc);
    for (at, entry) in entries.iter().enumerate() {
        let item = screen_item(alloc, &mut walk, at, entry, &entries[at + 1..])?;
        items.push(item)?;
    }
    Ok(items)
}

/// So many entries, where there are not too many to be counted.
fn count(entries: usize) -> Result<u32, NoMemory>
    ensures { IfOk result (λ number. number ≡ entries) }
{
    u32::try_from(entries).map_err(|_| NoMemory)
}

/// Whether members follow an entry of this level.
fn has_members(level: u8, rest: &[ScreenEntry]) -> bool
    ensures { result ≡ is_above level (level_after rest.now) }
{
    match rest {
        [next, ..] => rank_of(level) < rank_of(next.level),
        [] => false,
    }
}

/// The item of an entry, before which so many stand and which the rest follows.
fn screen_item<'a>(
    alloc: Global,
    walk: &mut Walk,
    at: usize,
    entry: &'a ScreenEntry,
    rest: &[ScreenEntry],
) -> Result<KnownScreen<'a>, NoMemory>
    ensures { (before : List ScreenItem) → IsAfter (map (λ other. other.row) before) walk.old → IfOk result (λ made.
        (made.entry.now ≡ entry.entry.now) × IsScreenItem (at == 0) at rest.now (seen_screen made) × IsPlacedScreen before made × IsAfter (map (λ other. other.row) before ++ made.row ∷ []) walk.new) }
{
    let clauses = entry.clauses.as_slice();
    let text = screen_clauses::picture(clauses);
    let reading = reading_of(alloc, text, SignPlace::Inside)?;
    let told = tell(alloc, text)?;
    let row = Row {
        number: count(at)?,
        line: entry.line,
        level: entry.level,
        in_file: false,
        starts: at == 0,
        group: has_members(entry.level, rest),
        occurs: None,
        twice: screen_clauses::is_written_twice(clauses),
        spelled: reading.spelled,
        size: reading.size,
    };
    let level_fits = does_level_fit(walk, &row);
    walk.close(&row);
    let parent = number_of_last(walk.rows.as_slice());
    walk.enter(&row)?;
    Ok(KnownScreen {
        entry,
        row,
        picture: reading.picture,
        signed: told.signed,
        level_fits,
        parent,
    })
}

/// The number of the last of some rows.
fn number_of_last(rows: &[Row]) -> Option<u32>
    ensures { result ≡ option_map (λ row. row.number) (last_or None rows.now) }
{
    match rows.last() {
        Some(row) => Some(row.number),
        None => None,
    }
}
