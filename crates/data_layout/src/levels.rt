ghost use Rattle.std.specs.Prelude.{◌≡◌, ◌==◌, ◌⊎◌, IsTrue, nat_lt};
ghost use Rattle.std.specs.List.{list_any};
ghost use Rattle.data_layout.specs.Rows.{rank};
ghost use Rattle.data_layout.specs.Storage.{goes_on, members, own_size, number_of_times};
ghost use Rattle.data_layout.specs.Faults.{has_size, has_bad_clauses, is_in_range, is_missing, is_unreadable, is_refused};

use crate::row::{Row, Spelled};

/// The largest number that OCCURS may have.
const MOST_OCCURRENCES: u64 = 9999;

/// A level's rank: 77 ranks with 01.
pub fn rank_of(level: u8) -> u8
    ensures { result ≡ rank level }
{
    if level == 77 { 1 } else { level }
}

/// Whether a row that follows a group goes on in it.
pub fn does_go_on(group: &Row, row: &Row) -> bool
    ensures { result ≡ goes_on group.now row.now }
{
    !row.starts && rank_of(group.level) < rank_of(row.level)
}

/// The members of a group, at the front of the rows after it.
pub fn members_of<'a>(group: &Row, rest: &'a [Row]) -> &'a [Row]
    ensures { result.now ≡ members group.now rest.entry.now }
{
    for (at, row) in rest.iter().enumerate() {
        if !does_go_on(group, row) {
            return &rest[..at];
        }
    }
    rest
}

/// The bytes of an elementary item, once.
pub fn own_bytes(row: &Row) -> u64
    ensures { result ≡ own_size row.now }
{
    if row.group { 0 } else { row.size }
}

/// How often a row's item occurs in its group.
pub fn occurrences(row: &Row) -> u64
    ensures { result ≡ number_of_times row.now.occurs }
{
    match row.occurs {
        None => 1,
        Some(number) => if number == 0 { 1 } else { number },
    }
}

/// Whether the size of a row's item does not hang on a text that is no picture.
pub fn is_sized(row: &Row) -> bool
    ensures { result ≡ has_size row.now }
{
    row.group || !is_no_picture(row.spelled)
}

fn is_no_picture(spelled: Spelled) -> bool
    ensures { result ≡ is_unreadable spelled }
{
    match spelled {
        Spelled::Missing => false,
        Spelled::Unreadable => true,
        Spelled::TooWide => false,
        Spelled::Fits => false,
    }
}

/// Whether a picture is refused.
pub fn is_refused_picture(spelled: Spelled) -> bool
    ensures { result ≡ is_refused spelled }
{
    match spelled {
        Spelled::Missing => false,
        Spelled::Unreadable => true,
        Spelled::TooWide => true,
        Spelled::Fits => false,
    }
}

fn has_no_picture(spelled: Spelled) -> bool
    ensures { result ≡ is_missing spelled }
{
    match spelled {
        Spelled::Missing => true,
        Spelled::Unreadable => false,
        Spelled::TooWide => false,
        Spelled::Fits => false,
    }
}

/// Whether an OCCURS number is 1 to 9,999, or there is none.
pub fn is_allowed(occurs: Option<u64>) -> bool
    ensures { result ≡ is_in_range occurs }
{
    match occurs {
        None => true,
        Some(number) => 1 <= number && number <= MOST_OCCURRENCES,
    }
}

/// Whether an entry is at fault by itself.
pub fn is_bad_alone(row: &Row) -> bool
    ensures { result ≡ has_bad_clauses row.now }
{
    row.twice
        || (row.group && row.level == 77)
        || (row.group && !has_no_picture(row.spelled))
        || (!row.group && has_no_picture(row.spelled))
        || (row.occurs.is_some() && rank_of(row.level) == 1)
        || !is_allowed(row.occurs)
}
