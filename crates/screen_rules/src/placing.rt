ghost use Rattle.std.specs.Prelude.{◌≡◌, ◌+ℤ◌, ◌-ℤ◌, ℕ, List, [], ◌∷◌, ◌++◌, map, pos, is_some, option_map, IfOk, OnOk};
ghost use Rattle.entry_clauses.specs.Clauses.{line_named, column_named};
ghost use Rattle.entry_clauses.specs.ScreenItems.{ScreenItem};
ghost use Rattle.entry_clauses.specs.SeenScreens.{seen_screen};
ghost use Rattle.screen_rules.specs.Placing.{line_at, column_at, shown_size, last_column, is_beyond, is_no_column, is_off_screen, begun, off_screen, off_screen_after};
ghost use Rattle.screen_rules.specs.SeenPlaces as seen;
ghost use Rattle.screen_rules.specs.SeenPlaces.{seen_end, seen_place, or_given, place_of, IsPlacing, Places, is_past_edge_at};
ghost use Rattle.name_rules.specs.Faults.{faults_at};

use cob_base::{NoMemory, Position};
use data_layout::rank_of;
use entry_clauses::{KnownScreen, is_unreadable, screen_clauses};
use name_rules::Faults;

/// Where an item ends: its line and its last column, which is not known after a text that is no picture.
#[derive(Clone, Copy, Debug, PartialEq, Eq)]
struct End {
    line: i128,
    column: Option<i128>,
}

/// Where an item stands, and how many bytes it shows, as far as they are known.
#[derive(Clone, Copy, Debug, PartialEq, Eq)]
struct Place {
    line: i128,
    column: Option<i128>,
    size: Option<u64>,
}

/// What is known before an entry: where the item before it ends, and the LINE and COLUMN that the groups right before it give.
#[derive(Clone, Copy, Debug)]
struct Placing {
    last: End,
    line: Option<Position>,
    column: Option<Position>,
}

/// What the first item of a screen stands after.
fn start() -> End
    ensures { seen_end result ≡ seen.start }
{
    End {
        line: 1,
        column: Some(0),
    }
}

/// A sum, where it can be counted.
fn sum(number: i128, other: i128) -> Result<i128, NoMemory>
    ensures { IfOk result (λ sum. sum ≡ number +ℤ other) }
{
    number.checked_add(other).ok_or(NoMemory)
}

/// A difference, where it can be counted.
fn difference(number: i128, other: i128) -> Result<i128, NoMemory>
    ensures { IfOk result (λ difference. difference ≡ number -ℤ other) }
{
    number.checked_sub(other).ok_or(NoMemory)
}

/// The line of an item with this LINE after another.
fn line_after(last: i128, position: Option<Position>) -> Result<i128, NoMemory>
    ensures { IfOk result (λ line. line ≡ line_at last position) }
{
    match position {
        None => Ok(last),
        Some(Position::At(number)) => Ok(i128::from(number)),
        Some(Position::Plus(number)) => sum(last, i128::from(number)),
        Some(Position::Minus(number)) => difference(last, i128::from(number)),
    }
}

/// So many columns after the last one, where that is known.
fn columns_after(last: Option<i128>, number: u64) -> Result<Option<i128>, NoMemory>
    ensures { IfOk result (λ column. column ≡ option_map (λ last. last +ℤ pos number) last) }
{
    match last {
        None => Ok(None),
        Some(last) => {
            let column = sum(last, i128::from(number))?;
            Ok(Some(column))
        }
    }
}

/// So many columns before the last one, where that is known.
fn columns_before(last: Option<i128>, number: u64) -> Result<Option<i128>, NoMemory>
    ensures { IfOk result (λ column. column ≡ option_map (λ last. last -ℤ pos number) last) }
{
    match last {
        None => Ok(None),
        Some(last) => {
            let column = difference(last, i128::from(number))?;
            Ok(Some(column))
        }
    }
}

/// The column of an item with this COLUMN after another; without it the next one, or 1 where the item has LINE.
fn column_after(
    last: Option<i128>,
    position: Option<Position>,
    has_line: bool,
) -> Result<Option<i128>, NoMemory>
    ensures { IfOk result (λ column. column ≡ column_at last position has_line) }
{
    match position {
        None => if has_line {
            Ok(Some(1))
        } else {
            columns_after(last, 1)
        },
        Some(Position::At(number)) => Ok(Some(i128::from(number))),
        Some(Position::Plus(number)) => columns_after(last, number),
        Some(Position::Minus(number)) => columns_before(last, number),
    }
}

/// The bytes that an item shows; None where its picture is refused.
fn shown_size(item: &KnownScreen) -> Option<u64>
    ensures { result ≡ shown_size (seen_screen item.now) }
{
    let clauses = item.entry.clauses.as_slice();
    if screen_clauses::picture(clauses).is_some() {
        return size_of_picture(item);
    }
    match screen_clauses::value(clauses) {
        Some(text) => Some(text.as_bytes().len() as u64),
        None => Some(0),
    }
}

fn size_of_picture(item: &KnownScreen) -> Option<u64>
    ensures { result ≡ seen.size_of_picture (seen_screen item.now) }
{
    if is_unreadable(item.row.spelled) {
        return None;
    }
    if item.signed {
        return None;
    }
    Some(item.row.size)
}

/// The place of an item for which these LINE and COLUMN count.
fn place_of(
    last: End,
    line: Option<Position>,
    column: Option<Position>,
    item: &KnownScreen,
) -> Result<Place, NoMemory>
    ensures { IfOk result (λ place. seen_place place ≡ place_of (seen_end last) line column (seen_screen item.now)) }
{
    Ok(Place {
        line: line_after(last.line, line)?,
        column: column_after(last.column, column, line.is_some())?,
        size: shown_size(item),
    })
}

fn last_column(column: Option<i128>, size: Option<u64>) -> Result<Option<i128>, NoMemory>
    ensures { IfOk result (λ last. last ≡ last_column column size) }
{
    match (column, size) {
        (Some(column), Some(size)) => {
            let next = sum(column, i128::from(size))?;
            let last = difference(next, 1)?;
            Ok(Some(last))
        }
        (None, _) => Ok(None),
        (Some(_), None) => Ok(None),
    }
}

fn is_beyond(low: i128, high: i128, number: i128) -> bool
    ensures { result ≡ is_beyond low high number }
{
    number < low || high < number
}

fn is_no_column(column: Option<i128>) -> bool
    ensures { result ≡ is_no_column column }
{
    match column {
        None => false,
        Some(column) => is_beyond(1, 81, column),
    }
}

/// Whether an item of some size ends past column 80.
fn is_past_edge(last: Option<i128>, size: Option<u64>) -> bool
    ensures { result ≡ is_past_edge_at last size }
{
    match (last, size) {
        (Some(last), Some(size)) => 0 < size && 80 < last,
        (None, _) => false,
        (Some(_), None) => false,
    }
}

/// Whether an item that ends in this column leaves the screen.
fn is_off_screen(place: Place, last: Option<i128>) -> bool
    ensures { last ≡ last_column place.column place.size → result ≡ is_off_screen (seen_place place) }
{
    is_beyond(1, 24, place.line) || is_no_column(place.column) || is_past_edge(last, place.size)
}

/// Each level-01 entry begins a screen.
fn begun(last: End, item: &KnownScreen) -> End
    ensures { seen_end result ≡ begun (seen_end last) (seen_screen item.now) }
{
    if rank_of(item.row.level) == 1 {
        start()
    } else {
        last
    }
}

/// What a clause of the entry says, or else what the groups right before it give.
fn or_given(own: Option<Position>, given: Option<Position>) -> Option<Position>
    ensures { result ≡ or_given own given }
{
    match own {
        Some(position) => Some(position),
        None => given,
    }
}

/// Notes an item that leaves the screen, and says what is known after it.
fn place_item(
    faults: &mut Faults,
    last: End,
    line: Option<Position>,
    column: Option<Position>,
    item: &KnownScreen,
) -> Result<Placing, NoMemory>
    ensures { IfOk result (λ next. Places (place_of (seen_end last) line column (seen_screen item.now)) item.now.row.line faults.old.found.items faults.new.found.items next) }
{
    let place = place_of(last, line, column, item)?;
    let end = last_column(place.column, place.size)?;
    faults.note(11, item.row.line, is_off_screen(place, end))?;
    Ok(Placing {
        last: End {
            line: place.line,
            column: end,
        },
        line: None,
        column: None,
    })
}

/// Notes an entry where it is an item that leaves the screen, and says what is known after it.
fn step(faults: &mut Faults, before: Placing, item: &KnownScreen) -> Result<Placing, NoMemory>
    ensures { (some rest : List ScreenItem) → IsPlacing some before → IfOk result (λ next. IsPlacing (some ++ seen_screen item.now ∷ []) next
        × (faults.new.found.items ++ faults_at 11 (off_screen_after (seen_end next.last) (some ++ seen_screen item.now ∷ []) rest) ≡ faults.old.found.items ++ faults_at 11 (off_screen_after (seen_end before.last) some (seen_screen item.now ∷ rest)))) }
{
    let clauses = item.entry.clauses.as_slice();
    let last = begun(before.last, item);
    let line = or_given(screen_clauses::line(clauses), before.line);
    let column = or_given(screen_clauses::column(clauses), before.column);
    if item.row.group {
        return Ok(Placing { last, line, column });
    }
    let next = place_item(faults, last, line, column, item)?;
    Ok(next)
}

/// Notes each item whose line is not 1 to 24, whose column is not 1 to 81, or whose bytes leave the screen.
pub fn note_off_screen(faults: &mut Faults, screens: &[KnownScreen]) -> Result<(), NoMemory>
    ensures { OnOk result (faults.new.found.items ≡ faults.old.found.items ++ faults_at 11 (off_screen (map seen_screen screens.now))) }
{
    let mut before = Placing {
        last: start(),
        line: None,
        column: None,
    };
    for item in screens {
        before = step(faults, before, item)?;
    }
    Ok(())
}
