ghost use Rattle.std.specs.Prelude.{◌≡◌};
ghost use Rattle.std.specs.List.{list_any};
ghost use Rattle.std.specs.Option.{option_copied};
ghost use Rattle.data_names.specs.Clauses.{first_of};
ghost use Rattle.entry_clauses.specs.Clauses.{line_named, column_named, shown_text, screen_picture_text, sender, receiver, both_ways, foreground, background, are_several, is_of_screen_kind, is_screen_clause_twice, number_of_mark};

use cob_base::{ByteText, Operand, Position, Reference, ScreenClause, ScreenMark};

/// A clause of a screen's entry, as its first word tells it.
#[derive(Clone, Copy, Debug, PartialEq, Eq)]
pub enum ScreenClauseKind {
    Blank,
    Erase,
    Line,
    Column,
    Value,
    Picture,
    From,
    To,
    Using,
    ForegroundColor,
    BackgroundColor,
    Mark(ScreenMark),
    Outside,
}

/// The clauses that may be written once. An outside clause takes all words after it, so there is one at most.
const SCREEN_CLAUSE_KINDS: [ScreenClauseKind; 20] = [
    ScreenClauseKind::Blank,
    ScreenClauseKind::Erase,
    ScreenClauseKind::Line,
    ScreenClauseKind::Column,
    ScreenClauseKind::Value,
    ScreenClauseKind::Picture,
    ScreenClauseKind::From,
    ScreenClauseKind::To,
    ScreenClauseKind::Using,
    ScreenClauseKind::ForegroundColor,
    ScreenClauseKind::BackgroundColor,
    ScreenClauseKind::Mark(ScreenMark::Highlight),
    ScreenClauseKind::Mark(ScreenMark::Lowlight),
    ScreenClauseKind::Mark(ScreenMark::ReverseVideo),
    ScreenClauseKind::Mark(ScreenMark::Underline),
    ScreenClauseKind::Mark(ScreenMark::Blink),
    ScreenClauseKind::Mark(ScreenMark::Secure),
    ScreenClauseKind::Mark(ScreenMark::Required),
    ScreenClauseKind::Mark(ScreenMark::Full),
    ScreenClauseKind::Mark(ScreenMark::Auto),
];

/// What LINE says.
pub fn line(clauses: &[ScreenClause]) -> Option<Position>
    ensures { result ≡ first_of line_named clauses.now }
{
    for clause in clauses {
        if let ScreenClause::Line(position) = clause {
            return Some(*position);
        }
    }
    None
}

/// What COLUMN says.
pub fn column(clauses: &[ScreenClause]) -> Option<Position>
    ensures { result ≡ first_of column_named clauses.now }
{
    for clause in clauses {
        if let ScreenClause::Column(position) = clause {
            return Some(*position);
        }
    }
    None
}

/// The text after VALUE.
pub fn value(clauses: &[ScreenClause]) -> Option<&ByteText>
    ensures { option_copied result ≡ shown_text clauses.now }
{
    for clause in clauses {
        if let ScreenClause::Value(text) = clause {
            return Some(text);
        }
    }
    None
}

/// The text after PICTURE.
pub fn picture(clauses: &[ScreenClause]) -> Option<&ByteText>
    ensures { option_copied result ≡ screen_picture_text clauses.now }
{
    for clause in clauses {
        if let ScreenClause::Picture(text) = clause {
            return Some(text);
        }
    }
    None
}

/// What FROM names.
pub fn sender(clauses: &[ScreenClause]) -> Option<&Operand>
    ensures { option_copied result ≡ sender clauses.now }
{
    for clause in clauses {
        if let ScreenClause::From(operand) = clause {
            return Some(operand);
        }
    }
    None
}

/// What TO names.
pub fn receiver(clauses: &[ScreenClause]) -> Option<&Reference>
    ensures { option_copied result ≡ receiver clauses.now }
{
    for clause in clauses {
        if let ScreenClause::To(item) = clause {
            return Some(item);
        }
    }
    None
}

/// What USING names.
pub fn both_ways(clauses: &[ScreenClause]) -> Option<&Reference>
    ensures { option_copied result ≡ both_ways clauses.now }
{
    for clause in clauses {
        if let ScreenClause::Using(item) = clause {
            return Some(item);
        }
    }
    None
}

/// The colour after FOREGROUND-COLOR.
pub fn foreground(clauses: &[ScreenClause]) -> Option<u64>
    ensures { result ≡ foreground clauses.now }
{
    for clause in clauses {
        if let ScreenClause::ForegroundColor(colour) = clause {
            return Some(*colour);
        }
    }
    None
}

/// The colour after BACKGROUND-COLOR.
pub fn background(clauses: &[ScreenClause]) -> Option<u64>
    ensures { result ≡ background clauses.now }
{
    for clause in clauses {
        if let ScreenClause::BackgroundColor(colour) = clause {
            return Some(*colour);
        }
    }
    None
}

fn number_of_mark(mark: ScreenMark) -> u8
    ensures { result ≡ number_of_mark mark }
{
    match mark {
        ScreenMark::Highlight => 0,
        ScreenMark::Lowlight => 1,
        ScreenMark::ReverseVideo => 2,
        ScreenMark::Underline => 3,
        ScreenMark::Blink => 4,
        ScreenMark::Secure => 5,
        ScreenMark::Required => 6,
        ScreenMark::Full => 7,
        ScreenMark::Auto => 8,
    }
}

fn is_of(kind: ScreenClauseKind, clause: &ScreenClause) -> bool
    ensures { result ≡ is_of_screen_kind kind clause.now }
{
    match (kind, clause) {
        (ScreenClauseKind::Blank, ScreenClause::Blank(_)) => true,
        (ScreenClauseKind::Erase, ScreenClause::Erase(_)) => true,
        (ScreenClauseKind::Line, ScreenClause::Line(_)) => true,
        (ScreenClauseKind::Column, ScreenClause::Column(_)) => true,
        (ScreenClauseKind::Value, ScreenClause::Value(_)) => true,
        (ScreenClauseKind::Picture, ScreenClause::Picture(_)) => true,
        (ScreenClauseKind::From, ScreenClause::From(_)) => true,
        (ScreenClauseKind::To, ScreenClause::To(_)) => true,
        (ScreenClauseKind::Using, ScreenClause::Using(_)) => true,
        (ScreenClauseKind::ForegroundColor, ScreenClause::ForegroundColor(_)) => true,
        (ScreenClauseKind::BackgroundColor, ScreenClause::BackgroundColor(_)) => true,
        (ScreenClauseKind::Mark(mark), ScreenClause::Mark(other)) => number_of_mark(mark)
            == number_of_mark(*other),
        (ScreenClauseKind::Outside, ScreenClause::Outside) => true,
        _ => false,
    }
}

/// Whether a clause is written.
pub fn has(clauses: &[ScreenClause], kind: ScreenClauseKind) -> bool
    ensures { result ≡ list_any (is_of_screen_kind kind) clauses.now }
{
    clauses.iter().any(|clause| is_of(kind, clause))
}

fn is_twice(clauses: &[ScreenClause], kind: ScreenClauseKind) -> bool
    ensures { result ≡ are_several clauses.now (is_of_screen_kind kind) }
{
    clauses.iter().filter(|clause| is_of(kind, clause)).count() > 1
}

/// Whether a clause is written twice.
pub fn is_written_twice(clauses: &[ScreenClause]) -> bool
    ensures { result ≡ is_screen_clause_twice clauses.now }
{
    SCREEN_CLAUSE_KINDS
        .iter()
        .any(|kind| is_twice(clauses, *kind))
}
