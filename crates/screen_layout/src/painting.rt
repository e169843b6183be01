ghost use Rattle.std.specs.Prelude.{◌≡◌, ◌≤◌, ◌<◌, ◌+◌, ◌-◌, [], ◌∷◌, length, slice_get, Some};
ghost use Rattle.data_layout.specs.declared.layout.Item.{Item};
ghost use Rattle.data_layout.specs.Layout.{IsInside};
ghost use Rattle.cob_value.specs.Moves.{MayMove, moved};
ghost use Rattle.screen_cells.specs.Cells.{Shown, cell_count, cell_number};
ghost use Rattle.screen_layout.specs.Plans.{IsPlanOf, IsPlacedIn};
ghost use Rattle.screen_layout.specs.Painting.{Act, act_where, blank_acts, item_acts, first_cell, item_bytes, shown_bytes, AreAfter, IsCursorAfter, PaintedBy};

use crate::plan::{Placed, ScreenPlan};
use cob_value::move_bytes;
use data_layout::{Item, Layout};
use picture_rule::Picture;
use screen_cells::Screen;
use screen_rows::Show;

/// How many cells a line has.
const LINE_CELLS: u16 = 80;

/// How many cells a screen has.
const SCREEN_CELLS: u16 = 1920;

/// Shows a plan of this layout, whose items have these bytes of storage. The items come in order: first what BLANK and ERASE
/// name becomes blank, and then the item is painted, a byte outside 32 to 126 as `?`, and each as a space under SECURE. Other cells
/// stay. The cursor goes right after the last item with a size, at most to column 80; where no item has a size, it stays.
pub fn show_plan(screen: &mut Screen, plan: &ScreenPlan, layout: &Layout, storage: &[u8])
    requires plan { IsPlanOf layout.now plan.now }
    requires storage { length storage.now ≡ layout.now.total }
    ensures { PaintedBy plan.now layout.now storage.now screen.old screen.new }
{
    for placed in plan.items.as_slice() {
        show_item(screen, placed, layout, storage);
        go_behind(screen, placed);
    }
}

/// Puts the cursor right after an item with a size, at most at column 80.
fn go_behind(screen: &mut Screen, placed: &Placed)
    requires line { (1 ≤ placed.now.line) × (placed.now.line ≤ 24) }
    requires column { (1 ≤ placed.now.column) × (placed.now.column ≤ 81) }
    requires size { 0 < placed.now.size → placed.now.column + placed.now.size ≤ 81 }
    ensures cells { screen.new.cells ≡ screen.old.cells }
    ensures cursor { IsCursorAfter (placed.now ∷ []) screen.old screen.new }
{
    if placed.size > 0 {
        screen.place(placed.line, (placed.column + placed.size).min(80));
    }
}

/// Blanks what an item blanks, and paints it. The cursor stays.
fn show_item(screen: &mut Screen, placed: &Placed, layout: &Layout, storage: &[u8])
    requires placed { IsPlacedIn layout.now placed.now }
    requires storage { length storage.now ≡ layout.now.total }
    ensures cells { AreAfter (item_acts placed.now (shown_bytes layout.now storage.now placed.now)) screen.old.cells screen.new.cells }
    ensures cursor { (screen.new.line ≡ screen.old.line) × (screen.new.column ≡ screen.old.column) }
{
    blank_for(screen, placed);
    paint_item(screen, placed, layout, storage);
}

/// The number of the cell at which an item begins, or after the last for one at column 81 of the last line.
fn cell_of(line: u8, column: u8) -> u16
    requires line { (1 ≤ line) × (line ≤ 24) }
    requires column { (1 ≤ column) × (column ≤ 81) }
    ensures number { result ≡ cell_number line column }
    ensures within { result ≤ cell_count }
{
    (u16::from(line) - 1) * LINE_CELLS + (u16::from(column) - 1)
}

/// Blanks the cells that BLANK and ERASE name for an item. The cursor stays.
fn blank_for(screen: &mut Screen, placed: &Placed)
    requires line { (1 ≤ placed.now.line) × (placed.now.line ≤ 24) }
    requires column { (1 ≤ placed.now.column) × (placed.now.column ≤ 81) }
    ensures cells { AreAfter (blank_acts placed.now) screen.old.cells screen.new.cells }
    ensures cursor { (screen.new.line ≡ screen.old.line) × (screen.new.column ≡ screen.old.column) }
{
    let first = cell_of(placed.line, placed.column);
    let blank = placed.blank;
    erase_where(screen, blank.screen, 0, SCREEN_CELLS);
    erase_where(screen, blank.line, cell_of(placed.line, 1), LINE_CELLS);
    erase_where(screen, blank.line_end, first, 81 - u16::from(placed.column));
    erase_where(screen, blank.screen_end, first, SCREEN_CELLS - first);
}

/// Blanks so many cells from the first on, where this holds. The cursor stays.
fn erase_where(screen: &mut Screen, holds: bool, first: u16, count: u16)
    requires { first + count ≤ cell_count }
    ensures cells { AreAfter (act_where holds (Act.Blanks first count)) screen.old.cells screen.new.cells }
    ensures cursor { (screen.new.line ≡ screen.old.line) × (screen.new.column ≡ screen.old.column) }
{
    if holds && count > 0 {
        screen.erase(first, first + count - 1);
    }
}

/// Paints what an item shows. The cursor stays.
fn paint_item(screen: &mut Screen, placed: &Placed, layout: &Layout, storage: &[u8])
    requires placed { IsPlacedIn layout.now placed.now }
    requires storage { length storage.now ≡ layout.now.total }
    ensures cells { AreAfter (Act.Paints (first_cell placed.now) placed.now.style (shown_bytes layout.now storage.now placed.now) ∷ []) screen.old.cells screen.new.cells }
    ensures cursor { (screen.new.line ≡ screen.old.line) × (screen.new.column ≡ screen.old.column) }
{
    match &placed.show {
        Show::Nothing => {}
        Show::Text(text) => paint_bytes(screen, placed, text.as_bytes()),
        Show::Item(number) => {
            if let Some(item) = layout.items.get(*number as usize) {
                let mut moved = [0u8; 80];
                let bytes = &mut moved[..usize::from(placed.size)];
                move_item(item, storage, &placed.picture, bytes);
                paint_bytes(screen, placed, bytes);
            }
        }
    }
}

/// Paints bytes where an item of their number stands. The cursor stays.
fn paint_bytes(screen: &mut Screen, placed: &Placed, bytes: &[u8])
    requires line { (1 ≤ placed.now.line) × (placed.now.line ≤ 24) }
    requires column { (1 ≤ placed.now.column) × (placed.now.column ≤ 81) }
    requires within { placed.now.column + length bytes.now ≤ 81 }
    ensures cells { AreAfter (Act.Paints (first_cell placed.now) placed.now.style bytes.now ∷ []) screen.old.cells screen.new.cells }
    ensures cursor { (screen.new.line ≡ screen.old.line) × (screen.new.column ≡ screen.old.column) }
{
    screen.paint(placed.line, placed.column, bytes, placed.style);
}

/// Moves an item of storage into a picture.
fn move_item(item: &Item, storage: &[u8], picture: &Picture, out: &mut [u8])
    requires inside { IsInside (length storage.now) item.now }
    requires allowed { MayMove item.now.picture picture.now }
    requires size { length out.old ≡ picture.now.size }
    ensures { out.new ≡ moved item.now.picture (item_bytes item.now storage.now) picture.now }
{
    let first = item.offset as usize;
    let bytes = &storage[first..first + item.size as usize];
    move_bytes(&item.picture, bytes, picture, out);
}
