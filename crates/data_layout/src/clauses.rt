ghost use Rattle.std.specs.Prelude.{◌≡◌, ℕ, ◌↔◌, IsTrue, count_by, List};
ghost use Rattle.std.specs.Option.{option_copied};
ghost use Rattle.data_layout.specs.Rows.{is_of, is_twice, occurs_of, sign_place, picture_text, place_of};

use cob_base::{ByteText, ItemClause, SignSide};
use picture_rule::SignPlace;

/// A clause of an item's entry, as its first word tells it.
#[derive(Clone, Copy, Debug, PartialEq, Eq)]
pub enum ClauseKind {
    Picture,
    Usage,
    Value,
    Occurs,
    Sign,
}

/// The text after PICTURE, in the first such clause.
pub fn picture(clauses: &[ItemClause]) -> Option<&ByteText>
    ensures { option_copied result ≡ picture_text clauses.now }
{
    for clause in clauses {
        if let ItemClause::Picture(text) = clause {
            return Some(text);
        }
    }
    None
}

/// The number after OCCURS, in the first such clause.
pub fn occurs(clauses: &[ItemClause]) -> Option<u64>
    ensures { result ≡ occurs_of clauses.now }
{
    for clause in clauses {
        if let ItemClause::Occurs(number) = clause {
            return Some(*number);
        }
    }
    None
}

/// Where the first SIGN clause puts the sign.
pub fn sign(clauses: &[ItemClause]) -> SignPlace
    ensures { result ≡ sign_place clauses.now }
{
    for clause in clauses {
        if let ItemClause::Sign { side, separate } = clause {
            return place(*side, *separate);
        }
    }
    SignPlace::Inside
}

fn place(side: SignSide, separate: bool) -> SignPlace
    ensures { result ≡ place_of side separate }
{
    match (side, separate) {
        (_, false) => SignPlace::Inside,
        (SignSide::Leading, true) => SignPlace::Leading,
        (SignSide::Trailing, true) => SignPlace::Trailing,
    }
}

/// Whether some clause is written twice.
pub fn is_written_twice(clauses: &[ItemClause]) -> bool
    ensures { result ≡ is_twice clauses.now }
{
    count(clauses, ClauseKind::Picture) > 1
        || count(clauses, ClauseKind::Usage) > 1
        || count(clauses, ClauseKind::Value) > 1
        || count(clauses, ClauseKind::Occurs) > 1
        || count(clauses, ClauseKind::Sign) > 1
}

fn count(clauses: &[ItemClause], kind: ClauseKind) -> usize
    ensures { result ≡ count_by (is_of kind) clauses.now }
{
    let mut count = 0;
    for clause in clauses {
        if is_of_kind(kind, clause) {
            count += 1;
        }
    }
    count
}

fn is_of_kind(kind: ClauseKind, clause: &ItemClause) -> bool
    ensures { result ≡ is_of kind clause.now }
{
    match (kind, clause) {
        (ClauseKind::Picture, ItemClause::Picture(_)) => true,
        (ClauseKind::Usage, ItemClause::Display) => true,
        (ClauseKind::Value, ItemClause::Value(_)) => true,
        (ClauseKind::Occurs, ItemClause::Occurs(_)) => true,
        (ClauseKind::Sign, ItemClause::Sign { .. }) => true,
        _ => false,
    }
}
