ghost use Rattle.std.specs.Prelude.{◌≡◌, List, [], ◌∷◌, ◌++◌, OnOk};
ghost use Rattle.screen_layout.specs.Placing.{goes_deeper, level_fits, place_of, blank_by, blank_of, or_outer, begun, end_of};
ghost use Rattle.std.specs.Prelude.{if◌then◌else◌};
ghost use Rattle.std.specs.List.{last_or};
ghost use Rattle.std.specs.Prelude.{None, ◌==◌, ◌||◌};
ghost use Rattle.data_layout.specs.Rows.{rank};
ghost use Rattle.screen_layout.specs.Walk.{IsLead, IsAfter, any_level};
ghost use Rattle.screen_rows.specs.declared.row.ScreenRow.{ScreenRow};

use crate::levels::does_go_on;
use crate::place::{End, Start, begin_after, begin_screen, end_at, nowhere};
use crate::plan::Blank;
use cob_base::{Blanked, Erased, NoMemory, Position};
use data_layout::rank_of;
use screen_rows::ScreenRow;
use std::alloc::Global;

/// What the groups right before a row write for their first item.
#[derive(Clone, Copy, Debug)]
pub struct Lead {
    pub line: Option<Position>,
    pub column: Option<Position>,
    pub blank: Option<Blanked>,
    pub erase: Option<Erased>,
}

/// What is known after some rows: those that are open, from the outside in, what waits for a first item, and where the last
/// item ends.
#[derive(Drop)]
pub struct ScreenWalk {
    pub rows: Vec<ScreenRow>,
    pub lead: Lead,
    pub end: End,
}

fn no_lead() -> Lead
    ensures line { result.line ≡ None }
    ensures column { result.column ≡ None }
    ensures blank { result.blank ≡ None }
    ensures erase { result.erase ≡ None }
{
    Lead {
        line: None,
        column: None,
        blank: None,
        erase: None,
    }
}

/// What a row writes, or else what the groups before it do.
fn lead_with(lead: Lead, row: &ScreenRow) -> Lead
    ensures line { result.line ≡ or_outer row.now.own.line lead.line }
    ensures column { result.column ≡ or_outer row.now.own.column lead.column }
    ensures blank { result.blank ≡ or_outer row.now.own.blank lead.blank }
    ensures erase { result.erase ≡ or_outer row.now.own.erase lead.erase }
{
    Lead {
        line: line_or(row.own.line, lead.line),
        column: line_or(row.own.column, lead.column),
        blank: match row.own.blank {
            Some(blank) => Some(blank),
            None => lead.blank,
        },
        erase: match row.own.erase {
            Some(erase) => Some(erase),
            None => lead.erase,
        },
    }
}

fn line_or(own: Option<Position>, outer: Option<Position>) -> Option<Position>
    ensures { result ≡ or_outer own outer }
{
    match own {
        Some(position) => Some(position),
        None => outer,
    }
}

impl ScreenWalk {
    /// Before the first row.
    pub fn new(alloc: Global) -> ScreenWalk
        ensures { IsAfter [] result }
    {
        ScreenWalk {
            rows: Vec::new(alloc),
            lead: no_lead(),
            end: nowhere(),
        }
    }

    /// Where the item of the next row begins.
    pub fn place(&self, row: &ScreenRow) -> Start
        ensures { (before : List ScreenRow) → IsAfter before self.now → result ≡ place_of before row.now }
    {
        let lead = lead_with(self.lead, row);
        begin_after(begin_screen(self.end, row), lead.line, lead.column)
    }

    /// What the item of the next row blanks.
    pub fn blanks(&self, row: &ScreenRow) -> Blank
        ensures { (before : List ScreenRow) → IsAfter before self.now → result ≡ blank_of before row.now }
    {
        let lead = lead_with(self.lead, row);
        blank_from(lead.blank, lead.erase)
    }

    /// Whether the next row's level fits.
    pub fn does_level_fit(&self, row: &ScreenRow) -> bool
        ensures { (before : List ScreenRow) → IsAfter before self.now → result ≡ level_fits before row.now }
    {
        let deeper = does_go_deeper(self.rows.as_slice(), row);
        let returns = has_rank(self.rows.as_slice(), row);
        is_level_good(deeper, returns, row)
    }

    /// Takes in the next row.
    pub fn enter(&mut self, row: &ScreenRow) -> Result<(), NoMemory>
        ensures { (before : List ScreenRow) → IsAfter before self.old → OnOk result (IsAfter (before ++ row.now ∷ []) self.new) }
    {
        let start = self.place(row);
        self.rows.retain(|group| does_go_on(group, row));
        self.rows.push(*row)?;
        self.end = next_end(self.end, row, start);
        self.lead = next_lead(self.lead, row);
        Ok(())
    }
}

fn next_end(end: End, row: &ScreenRow, start: Start) -> End
    ensures { result ≡ (if row.now.group then begun end row.now else end_of start row.now.size) }
{
    if row.group {
        begin_screen(end, row)
    } else {
        end_at(start, row.size)
    }
}

fn next_lead(lead: Lead, row: &ScreenRow) -> Lead
    ensures line { result.line ≡ (if row.now.group then or_outer row.now.own.line lead.line else None) }
    ensures column { result.column ≡ (if row.now.group then or_outer row.now.own.column lead.column else None) }
    ensures blank { result.blank ≡ (if row.now.group then or_outer row.now.own.blank lead.blank else None) }
    ensures erase { result.erase ≡ (if row.now.group then or_outer row.now.own.erase lead.erase else None) }
{
    if row.group {
        lead_with(lead, row)
    } else {
        no_lead()
    }
}

fn blank_from(blank: Option<Blanked>, erase: Option<Erased>) -> Blank
    ensures { result ≡ blank_by blank erase }
{
    Blank {
        screen: matches!(blank, Some(Blanked::Screen)),
        line: matches!(blank, Some(Blanked::Line)),
        line_end: matches!(erase, Some(Erased::LineEnd)),
        screen_end: matches!(erase, Some(Erased::ScreenEnd)),
    }
}

/// Whether a row's level fits, where it goes on in the row before or has the level of one that is open.
fn is_level_good(deeper: bool, returns: bool, row: &ScreenRow) -> bool
    ensures { result ≡ ((rank row.now.level == 1) || deeper || returns) }
{
    rank_of(row.level) == 1 || deeper || returns
}

fn does_go_deeper(rows: &[ScreenRow], row: &ScreenRow) -> bool
    ensures { result ≡ goes_deeper (last_or None rows.now) row.now }
{
    match rows.last() {
        Some(last) => does_go_on(last, row),
        None => false,
    }
}

fn has_rank(rows: &[ScreenRow], row: &ScreenRow) -> bool
    ensures { result ≡ any_level row.now rows.now }
{
    rows.iter()
        .any(|other| rank_of(other.level) == rank_of(row.level))
}
