ghost use Rattle.std.specs.Prelude.{◌≡◌, All, length};
ghost use Rattle.screen_layout.specs.Plans.{IsPlanOf};

use crate::test_blanks::{BLANKS, CURSORS, GROUPS};
use crate::test_fixture::{STORAGE, front_of};
use crate::test_shown::{CONSTANTS, Change, ITEMS, Showing};
use crate::test_styles::STYLES;
use crate::{ScreenPlan, lay_screens, show_plan};
use cob_base::NoMemory;
use data_layout::{Layout, lay_out};
use screen_cells::{Cell, Screen, Style};
use std::alloc::Global;
use std::process::Abort;
use std::test::Fail;

const POINT: Cell = Cell {
    byte: b'.',
    marks: 3,
    front: 2,
    back: 4,
};

/// A screen of points, with the cursor at line 24, column 7.
fn points(alloc: Global) -> Result<Screen, NoMemory> {
    let style = Style {
        marks: POINT.marks,
        front: POINT.front,
        back: POINT.back,
        secure: false,
        required: false,
        full: false,
        auto: false,
    };
    let mut screen = Screen::blank(alloc)?;
    for line in 1..25u8 {
        screen.paint(line, 1, &[b'.'; 80], style);
    }
    screen.place(24, 7);
    Ok(screen)
}

fn put(cells: &mut [Cell], number: usize, cell: Cell) {
    if let Some(old) = cells.get_mut(number) {
        *old = cell;
    }
}

fn put_bytes(cells: &mut [Cell], line: u8, column: u8, bytes: &[u8], looks: (u8, u8, u8)) {
    let (marks, front, back) = looks;
    let mut number = usize::from(line).saturating_sub(1) * 80
        + usize::from(column).saturating_sub(1);
    for byte in bytes {
        let cell = Cell {
            byte: *byte,
            marks,
            front,
            back,
        };
        put(cells, number, cell);
        number = number.saturating_add(1);
    }
}

fn change(cells: &mut [Cell], change: &Change) {
    match *change {
        Change::Blank(first, last) => {
            let blank = Cell {
                byte: b' ',
                marks: 0,
                front: 7,
                back: 0,
            };
            for number in first..last.saturating_add(1) {
                put(cells, number, blank);
            }
        }
        Change::Plain(line, column, bytes) => put_bytes(cells, line, column, bytes, (0, 7, 0)),
        Change::Styled(line, column, bytes, looks) => put_bytes(cells, line, column, bytes, looks),
    }
}

/// The cells that a case wants.
fn wanted(alloc: Global, case: &Showing) -> Result<Vec<Cell>, NoMemory> {
    let mut cells = vec![in alloc; POINT; 1920]?;
    for one in case.changed {
        change(cells.as_mut_slice(), one);
    }
    Ok(cells)
}

fn show_all(screen: &mut Screen, plans: &[ScreenPlan], layout: &Layout, storage: &[u8])
    requires plans { All (IsPlanOf layout.now) plans.now }
    requires storage { length storage.now ≡ layout.now.total }
{
    for plan in plans {
        show_plan(screen, plan, layout, storage);
    }
}

fn assert_showing(rt: &impl Abort, alloc: Global, case: &Showing) -> Result<(), Fail> {
    let front = front_of(alloc, case.entries)?;
    let layout = lay_out(alloc, &front)?;
    let plans = lay_screens(alloc, &front, &layout)?;
    let mut screen = points(alloc)?;
    assert_eq!(rt; STORAGE.len(), layout.total as usize);
    show_all(&mut screen, plans.as_slice(), &layout, STORAGE);
    let cells = wanted(alloc, case)?;
    assert!(rt; screen.cells() == cells.as_slice(), "{}", case.name);
    assert_eq!(rt; (screen.line(), screen.column()), case.cursor);
    Ok(())
}

fn assert_showings(rt: &impl Abort, alloc: Global, cases: &[Showing]) -> Result<(), Fail> {
    for case in cases {
        assert_showing(rt, alloc, case)?;
    }
    Ok(())
}

#[test]
fn items_show_what_storage_holds(rt: HostRuntime) -> Result<(), Fail> {
    assert_showings(&rt, rt.alloc(), ITEMS)
}

#[test]
fn constants_and_fields_are_shown(rt: HostRuntime) -> Result<(), Fail> {
    assert_showings(&rt, rt.alloc(), CONSTANTS)
}

#[test]
fn styles_are_inherited_and_replaced(rt: HostRuntime) -> Result<(), Fail> {
    assert_showings(&rt, rt.alloc(), STYLES)
}

#[test]
fn blank_and_erase_touch_what_they_name(rt: HostRuntime) -> Result<(), Fail> {
    assert_showings(&rt, rt.alloc(), BLANKS)
}

#[test]
fn groups_blank_before_their_first_item(rt: HostRuntime) -> Result<(), Fail> {
    assert_showings(&rt, rt.alloc(), GROUPS)
}

#[test]
fn the_cursor_goes_behind_the_last_item(rt: HostRuntime) -> Result<(), Fail> {
    assert_showings(&rt, rt.alloc(), CURSORS)
}
