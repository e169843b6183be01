ghost use Rattle.std.specs.Prelude.{◌≡◌, ℕ, count_by};
ghost use Rattle.std.specs.Option.{option_copied};
ghost use Rattle.screen_rows.specs.Clauses.{no_clauses, marked, with_clause, own_clauses, value_text, picture_text, from_operand, to_reference, using_reference, is_of, is_twice};

use cob_base::{Blanked, ByteText, Erased, Operand, Position, Reference, ScreenClause, ScreenMark};

/// The marks and colours that an entry writes itself.
#[derive(Clone, Copy, Debug)]
pub struct Look {
    pub highlight: bool,
    pub lowlight: bool,
    pub reverse_video: bool,
    pub underline: bool,
    pub blink: bool,
    pub secure: bool,
    pub required: bool,
    pub full: bool,
    pub auto: bool,
    /// The number after FOREGROUND-COLOR, which may be past 7.
    pub front: Option<u64>,
    /// The number after BACKGROUND-COLOR, which may be past 7.
    pub back: Option<u64>,
}

/// Where an entry says that it stands, what it blanks, and its marks and colours.
#[derive(Clone, Copy, Debug)]
pub struct Own {
    pub line: Option<Position>,
    pub column: Option<Position>,
    pub blank: Option<Blanked>,
    pub erase: Option<Erased>,
    pub look: Look,
}

/// A clause of a screen entry, as its first word tells it.
#[derive(Clone, Copy, Debug)]
pub enum ClauseKind {
    Blank,
    Erase,
    Line,
    Column,
    Value,
    Picture,
    From,
    To,
    Using,
    Foreground,
    Background,
    Highlight,
    Lowlight,
    ReverseVideo,
    Underline,
    Blink,
    Secure,
    Required,
    Full,
    Auto,
}

const ALL_KINDS: [ClauseKind; 20] = [
    ClauseKind::Blank,
    ClauseKind::Erase,
    ClauseKind::Line,
    ClauseKind::Column,
    ClauseKind::Value,
    ClauseKind::Picture,
    ClauseKind::From,
    ClauseKind::To,
    ClauseKind::Using,
    ClauseKind::Foreground,
    ClauseKind::Background,
    ClauseKind::Highlight,
    ClauseKind::Lowlight,
    ClauseKind::ReverseVideo,
    ClauseKind::Underline,
    ClauseKind::Blink,
    ClauseKind::Secure,
    ClauseKind::Required,
    ClauseKind::Full,
    ClauseKind::Auto,
];

fn without_clauses() -> Own
    ensures { result ≡ no_clauses }
{
    Own {
        line: None,
        column: None,
        blank: None,
        erase: None,
        look: Look {
            highlight: false,
            lowlight: false,
            reverse_video: false,
            underline: false,
            blink: false,
            secure: false,
            required: false,
            full: false,
            auto: false,
            front: None,
            back: None,
        },
    }
}

fn mark(look: Look, mark: ScreenMark) -> Look
    ensures { result ≡ marked look mark }
{
    match mark {
        ScreenMark::Highlight => Look {
            highlight: true,
            ..look
        },
        ScreenMark::Lowlight => Look {
            lowlight: true,
            ..look
        },
        ScreenMark::ReverseVideo => Look {
            reverse_video: true,
            ..look
        },
        ScreenMark::Underline => Look {
            underline: true,
            ..look
        },
        ScreenMark::Blink => Look {
            blink: true,
            ..look
        },
        ScreenMark::Secure => Look {
            secure: true,
            ..look
        },
        ScreenMark::Required => Look {
            required: true,
            ..look
        },
        ScreenMark::Full => Look { full: true, ..look },
        ScreenMark::Auto => Look { auto: true, ..look },
    }
}

/// A clause in front of others.
fn take_in(own: Own, clause: &ScreenClause) -> Own
    ensures { result ≡ with_clause own clause.now }
{
    match clause {
        ScreenClause::Line(position) => Own {
            line: Some(*position),
            ..own
        },
        ScreenClause::Column(position) => Own {
            column: Some(*position),
            ..own
        },
        ScreenClause::Blank(what) => Own {
            blank: Some(*what),
            ..own
        },
        ScreenClause::Erase(what) => Own {
            erase: Some(*what),
            ..own
        },
        ScreenClause::Mark(one) => Own {
            look: mark(own.look, *one),
            ..own
        },
        ScreenClause::ForegroundColor(number) => Own {
            look: Look {
                front: Some(*number),
                ..own.look
            },
            ..own
        },
        ScreenClause::BackgroundColor(number) => Own {
            look: Look {
                back: Some(*number),
                ..own.look
            },
            ..own
        },
        _ => own,
    }
}

/// The clauses of an entry on its place, blanking, marks and colours, each where it stands first.
pub fn own_of(clauses: &[ScreenClause]) -> Own
    ensures { result ≡ own_clauses clauses.now }
{
    let mut own = without_clauses();
    let mut at = clauses.len();
    while at > 0 {
        at -= 1;
        own = take_in(own, &clauses[at]);
    }
    own
}

/// The text after VALUE.
pub fn value(clauses: &[ScreenClause]) -> Option<&ByteText>
    ensures { option_copied result ≡ value_text clauses.now }
{
    for clause in clauses {
        if let ScreenClause::Value(text) = clause {
            return Some(text);
        }
    }
    None
}

/// The text after PICTURE.
pub fn picture(clauses: &[ScreenClause]) -> Option<&ByteText>
    ensures { option_copied result ≡ picture_text clauses.now }
{
    for clause in clauses {
        if let ScreenClause::Picture(text) = clause {
            return Some(text);
        }
    }
    None
}

/// What FROM shows.
pub fn from(clauses: &[ScreenClause]) -> Option<&Operand>
    ensures { option_copied result ≡ from_operand clauses.now }
{
    for clause in clauses {
        if let ScreenClause::From(operand) = clause {
            return Some(operand);
        }
    }
    None
}

/// What TO fills.
pub fn to(clauses: &[ScreenClause]) -> Option<&Reference>
    ensures { option_copied result ≡ to_reference clauses.now }
{
    for clause in clauses {
        if let ScreenClause::To(reference) = clause {
            return Some(reference);
        }
    }
    None
}

/// What USING shows and fills.
pub fn using(clauses: &[ScreenClause]) -> Option<&Reference>
    ensures { option_copied result ≡ using_reference clauses.now }
{
    for clause in clauses {
        if let ScreenClause::Using(reference) = clause {
            return Some(reference);
        }
    }
    None
}

/// Whether some clause is written twice.
pub fn is_written_twice(clauses: &[ScreenClause]) -> bool
    ensures { result ≡ is_twice clauses.now }
{
    ALL_KINDS.iter().any(|kind| count(clauses, *kind) > 1)
}

fn count(clauses: &[ScreenClause], kind: ClauseKind) -> usize
    ensures { result ≡ count_by (is_of kind) clauses.now }
{
    let mut count = 0;
    for clause in clauses {
        if is_of_kind(kind, clause) {
            count += 1;
        }
    }
    count
}

fn is_of_kind(kind: ClauseKind, clause: &ScreenClause) -> bool
    ensures { result ≡ is_of kind clause.now }
{
    match clause {
        ScreenClause::Blank(_) => matches!(kind, ClauseKind::Blank),
        ScreenClause::Erase(_) => matches!(kind, ClauseKind::Erase),
        ScreenClause::Line(_) => matches!(kind, ClauseKind::Line),
        ScreenClause::Column(_) => matches!(kind, ClauseKind::Column),
        ScreenClause::Value(_) => matches!(kind, ClauseKind::Value),
        ScreenClause::Picture(_) => matches!(kind, ClauseKind::Picture),
        ScreenClause::From(_) => matches!(kind, ClauseKind::From),
        ScreenClause::To(_) => matches!(kind, ClauseKind::To),
        ScreenClause::Using(_) => matches!(kind, ClauseKind::Using),
        ScreenClause::ForegroundColor(_) => matches!(kind, ClauseKind::Foreground),
        ScreenClause::BackgroundColor(_) => matches!(kind, ClauseKind::Background),
        ScreenClause::Mark(mark) => is_of_mark(kind, *mark),
        ScreenClause::Outside => false,
    }
}

fn is_of_mark(kind: ClauseKind, mark: ScreenMark) -> bool
    ensures { result ≡ is_of kind (ScreenClause.Mark mark) }
{
    match mark {
        ScreenMark::Highlight => matches!(kind, ClauseKind::Highlight),
        ScreenMark::Lowlight => matches!(kind, ClauseKind::Lowlight),
        ScreenMark::ReverseVideo => matches!(kind, ClauseKind::ReverseVideo),
        ScreenMark::Underline => matches!(kind, ClauseKind::Underline),
        ScreenMark::Blink => matches!(kind, ClauseKind::Blink),
        ScreenMark::Secure => matches!(kind, ClauseKind::Secure),
        ScreenMark::Required => matches!(kind, ClauseKind::Required),
        ScreenMark::Full => matches!(kind, ClauseKind::Full),
        ScreenMark::Auto => matches!(kind, ClauseKind::Auto),
    }
}
