ghost use Rattle.std.specs.Prelude.{◌≡◌, ◌++◌, ◌∷◌, [], ◌+◌, IfOk, OnOk, map, length, min};
ghost use Rattle.screen_cells.specs.Cells.{cell_number, cell_count};
ghost use Rattle.cobol_cmd.specs.Small.{OnScreen};
ghost use Rattle.cobol_cmd.specs.Report.{screen_lines, screen_bytes, screen_heading_line, small_report};

use crate::small::Item;
use cob_base::NoMemory;
use screen_cells::{Cell, Screen, Style};
use std::alloc::Global;

/// How an item without clauses is shown.
const PLAIN: Style = Style {
    marks: 0,
    front: 7,
    back: 0,
    secure: false,
    required: false,
    full: false,
    auto: false,
};

/// The screen on which an item is shown.
fn shown(alloc: Global, item: Item) -> Result<Screen, NoMemory>
    requires { OnScreen item.line item.column item.bytes.now }
    ensures bytes { IfOk result (λ screen. map (λ cell. cell.byte) screen.cells ≡ screen_bytes item.entry.line item.entry.column item.entry.bytes.now) }
    ensures line { IfOk result (λ screen. screen.line ≡ item.entry.line) }
    ensures column { IfOk result (λ screen. screen.column ≡ min (item.entry.column + length item.entry.bytes.now) 80) }
{
    let mut screen = Screen::blank(alloc)?;
    screen.paint(item.line, item.column, item.bytes, PLAIN);
    let after = item.column as usize + item.bytes.len();
    screen.place(item.line, after.min(80) as u8);
    Ok(screen)
}

/// Appends one line of a screen between bars.
fn push_line(report: &mut Vec<u8>, line: &[Cell]) -> Result<(), NoMemory>
    ensures { OnOk result (report.new.items ≡ report.old.items ++ 124 ∷ (map (λ cell. cell.byte) line.now ++ 124 ∷ 10 ∷ [])) }
{
    report.push(b'|')?;
    for cell in line {
        report.push(cell.byte)?;
    }
    report.extend_from_slice(b"|\n")?;
    Ok(())
}

/// Appends the 24 lines of a screen.
fn push_lines(report: &mut Vec<u8>, cells: &[Cell]) -> Result<(), NoMemory>
    requires { length cells.now ≡ cell_count }
    ensures { OnOk result (report.new.items ≡ report.old.items ++ screen_lines 24 (map (λ cell. cell.byte) cells.now)) }
{
    for number in 0..24u64 {
        let first = number as usize * 80;
        push_line(report, &cells[first..first + 80])?;
    }
    Ok(())
}

/// Appends a screen: its heading, with its number and its cursor, and its lines.
fn push_screen(
    alloc: Global,
    report: &mut Vec<u8>,
    number: u32,
    screen: &Screen,
) -> Result<(), NoMemory>
    ensures { OnOk result (report.new.items ≡ report.old.items ++ (screen_heading_line number screen.now.line screen.now.column ++ screen_lines 24 (map (λ cell. cell.byte) screen.now.cells))) }
{
    let line = screen.line();
    let column = screen.column();
    let heading = format!(in alloc; "screen {number} cursor {line} {column}\n")?;
    report.extend_from_slice(heading.as_bytes())?;
    push_lines(report, screen.cells())
}

/// What is printed of a unit that shows this item and stops.
pub(crate) fn report_of(alloc: Global, item: Item) -> Result<Vec<u8>, NoMemory>
    requires { OnScreen item.line item.column item.bytes.now }
    ensures { IfOk result (λ report. report.items ≡ small_report item.entry.line item.entry.column item.entry.bytes.now) }
{
    let screen = shown(alloc, item)?;
    let mut report = Vec::new(alloc);
    report.extend_from_slice(b"unit 1 stopped ticks 2 screens 1\n")?;
    push_screen(alloc, &mut report, 1, &screen)?;
    Ok(report)
}
