ghost use Rattle.std.specs.Prelude.{◌≡◌, ℕ, ◌+◌, ◌<◌, ◌≤◌, length, slice_get, IfOk};
ghost use Rattle.screen_cells.specs.Cells.{blank_cells, cell_count, cell_number, Painted, Erased};

use crate::cell::{Cell, Style};
use cob_base::NoMemory;
use std::alloc::Global;
use std::marker::Model;

/// How many cells a screen has.
const CELL_COUNT: usize = 1920;

/// A screen of 24 lines of 80 cells, line by line from the top, with the cursor's line, 1 to 24, and column, 1 to 80.
#[derive(Debug, Drop)]
pub struct Screen {
    cells: Vec<Cell>,
    line: u8,
    column: u8,
}

impl Model for Screen {
    ghost use Rattle.std.specs.Prelude.{◌≡◌, length};
    ghost use Rattle.screen_cells.specs.Cells.{Shown, IsScreen};

    ghost Value = { Shown };

    ghost view = { λ screen. record { cells = screen.cells.items; line = screen.line; column = screen.column } };

    ghost invariant = { λ screen. IsScreen screen.cells.items screen.line screen.column };
}

impl Screen {
    /// A blank screen with the cursor at line 1, column 1.
    pub fn blank(alloc: Global) -> Result<Screen, NoMemory>
        ensures { IfOk result (λ screen. screen ≡ record { cells = blank_cells; line = 1; column = 1 }) }
    {
        Ok(Screen {
            cells: vec![in alloc; Cell::blank(); CELL_COUNT]?,
            line: 1,
            column: 1,
        })
    }

    /// A screen with the same cells and cursor.
    pub fn copy(&self, alloc: Global) -> Result<Screen, NoMemory>
        ensures { IfOk result (λ screen. screen ≡ self.now) }
    {
        Ok(Screen {
            cells: Vec::from_slice(alloc, self.cells.as_slice())?,
            line: self.line,
            column: self.column,
        })
    }

    /// The cells, line by line from the top.
    pub fn cells(&self) -> &[Cell]
        ensures cells { result.now ≡ self.now.cells }
        ensures count { length result.now ≡ cell_count }
    {
        self.cells.as_slice()
    }

    /// The cursor's line, 1 to 24.
    pub fn line(&self) -> u8
        ensures line { result ≡ self.now.line }
        ensures low { 1 ≤ result }
        ensures high { result ≤ 24 }
    {
        self.line
    }

    /// The cursor's column, 1 to 80.
    pub fn column(&self) -> u8
        ensures column { result ≡ self.now.column }
        ensures low { 1 ≤ result }
        ensures high { result ≤ 80 }
    {
        self.column
    }

    /// Shows the bytes from this place on, in this style. Every other cell and the cursor stay.
    pub fn paint(&mut self, line: u8, column: u8, bytes: &[u8], style: Style)
        requires line { (1 ≤ line) × (line ≤ 24) }
        requires column { 1 ≤ column }
        requires fits { column + length bytes.now ≤ 81 }
        ensures cells { Painted (cell_number line column) style bytes.now self.old.cells self.new.cells }
        ensures cursor { (self.new.line ≡ self.old.line) × (self.new.column ≡ self.old.column) }
    {
        let first = (line as usize - 1) * 80 + (column as usize - 1);
        for (at, byte) in bytes.iter().enumerate() {
            self.cells[first + at] = Cell::painted(style, *byte);
        }
    }

    /// Blanks the cells from one number to another, which count from 0. Every other cell and the cursor stay.
    pub fn erase(&mut self, first: u16, last: u16)
        requires order { first ≤ last }
        requires within { last < cell_count }
        ensures cells { Erased first last self.old.cells self.new.cells }
        ensures cursor { (self.new.line ≡ self.old.line) × (self.new.column ≡ self.old.column) }
    {
        for number in first..last + 1 {
            self.cells[number as usize] = Cell::blank();
        }
    }

    /// Puts the cursor at this place. The cells stay.
    pub fn place(&mut self, line: u8, column: u8)
        requires line { (1 ≤ line) × (line ≤ 24) }
        requires column { (1 ≤ column) × (column ≤ 80) }
        ensures { self.new ≡ record { cells = self.old.cells; line = line; column = column } }
    {
        self.line = line;
        self.column = column;
    }
}
