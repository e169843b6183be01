ghost use Rattle.std.specs.Prelude.{◌≡◌, ◌+◌, ◌-◌, ◌<◌, ◌≤◌, ◌^◌, ◌==◌, if◌then◌else◌};
ghost use Rattle.data_layout.specs.Rows.{rank};
ghost use Rattle.screen_layout.specs.Placing.{spot_of, counted_from, after_line, after_column, line_at, column_at, start_after, is_end_off, known, last_column, end_of, no_item, begun, is_off, is_start_off};

use cob_base::Position;
use data_layout::rank_of;
use screen_rows::ScreenRow;

/// A line or a column.
#[derive(Clone, Copy, Debug)]
pub enum Spot {
    /// It hangs on an item whose place or size is not known, or that is off the screen.
    Unknown,
    /// It is off the screen.
    Off,
    /// The number, counted from 1. A column may be 81.
    On(u8),
}

/// Where an item begins.
#[derive(Clone, Copy, Debug)]
pub struct Start {
    pub line: Spot,
    pub column: Spot,
}

/// Where an item ends: its line, and its last column, which is one less than its own without a size. None where that is not known.
#[derive(Clone, Copy, Debug)]
pub struct End {
    pub line: Option<u8>,
    pub column: Option<u8>,
}

fn spot_within(most: u8, number: u128) -> Spot
    ensures { result ≡ spot_of most number }
{
    if 1 <= number && number <= u128::from(most) {
        Spot::On(number as u8)
    } else {
        Spot::Off
    }
}

fn count_from(most: u8, before: Option<u8>, position: Position) -> Spot
    ensures { result ≡ counted_from most before position }
{
    match position {
        Position::At(number) => spot_within(most, u128::from(number)),
        Position::Plus(number) => match before {
            Some(before) => spot_within(most, u128::from(before) + u128::from(number)),
            None => Spot::Unknown,
        },
        Position::Minus(number) => match before {
            Some(before) => spot_within(
                most,
                u128::from(before).saturating_sub(u128::from(number)),
            ),
            None => Spot::Unknown,
        },
    }
}

fn line_after(before: End, line: Option<Position>) -> Spot
    ensures { result ≡ line_at before line }
{
    match line {
        Some(position) => count_from(24, before.line, position),
        None => match before.line {
            Some(line) => spot_within(24, u128::from(line)),
            None => Spot::Unknown,
        },
    }
}

fn column_after(before: End, line: Option<Position>, column: Option<Position>) -> Spot
    ensures { result ≡ column_at before line column }
{
    match column {
        Some(position) => count_from(81, before.column, position),
        None => match line {
            Some(_) => Spot::On(1),
            None => match before.column {
                Some(column) => spot_within(81, u128::from(column) + 1),
                None => Spot::Unknown,
            },
        },
    }
}

/// Where an item begins that says so of its line and its column.
pub fn begin_after(before: End, line: Option<Position>, column: Option<Position>) -> Start
    ensures { result ≡ start_after before line column }
{
    Start {
        line: line_after(before, line),
        column: column_after(before, line, column),
    }
}

fn ends_off(column: Spot, size: Option<u64>) -> bool
    ensures { result ≡ is_end_off column size }
{
    match column {
        Spot::On(column) => match size {
            Some(size) => 0 < size && 81 < u128::from(column) + u128::from(size),
            None => false,
        },
        Spot::Off => false,
        Spot::Unknown => false,
    }
}

fn known_number(spot: Spot) -> Option<u8>
    ensures { result ≡ known spot }
{
    match spot {
        Spot::On(number) => Some(number),
        Spot::Off => None,
        Spot::Unknown => None,
    }
}

fn last_of(column: Spot, size: Option<u64>) -> Option<u8>
    ensures { result ≡ last_column column size }
{
    match column {
        Spot::On(first) => match size {
            Some(size) => if ends_off(column, Some(size)) {
                None
            } else {
                Some((u128::from(first) + u128::from(size)).saturating_sub(1) as u8)
            },
            None => None,
        },
        Spot::Off => None,
        Spot::Unknown => None,
    }
}

/// Where an item of this size ends.
pub fn end_at(start: Start, size: Option<u64>) -> End
    ensures { result ≡ end_of start size }
{
    End {
        line: known_number(start.line),
        column: last_of(start.column, size),
    }
}

/// Before the first item of a screen.
pub fn nowhere() -> End
    ensures { result ≡ no_item }
{
    End {
        line: Some(1),
        column: Some(0),
    }
}

/// A row of level 01 begins a screen.
pub fn begin_screen(before: End, row: &ScreenRow) -> End
    ensures { result ≡ begun before row.now }
{
    if rank_of(row.level) == 1 {
        nowhere()
    } else {
        before
    }
}

fn is_spot_off(spot: Spot) -> bool
    ensures { result ≡ is_off spot }
{
    match spot {
        Spot::On(_) => false,
        Spot::Off => true,
        Spot::Unknown => false,
    }
}

/// Whether an item of this size leaves the screen.
pub fn leaves_screen(start: Start, size: Option<u64>) -> bool
    ensures { result ≡ is_start_off start size }
{
    is_spot_off(start.line) || is_spot_off(start.column) || ends_off(start.column, size)
}
