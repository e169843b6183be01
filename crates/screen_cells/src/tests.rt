use crate::{Cell, Screen, Style};
use std::test::Fail;

const PLAIN: Style = Style {
    marks: 0,
    front: 7,
    back: 0,
    secure: false,
    required: false,
    full: false,
    auto: false,
};

const SECRET: Style = Style {
    marks: 5,
    front: 2,
    back: 4,
    secure: true,
    required: false,
    full: false,
    auto: false,
};

#[test]
fn a_blank_screen_has_spaces_and_its_cursor_at_the_top(rt: HostRuntime) -> Result<(), Fail> {
    let screen = Screen::blank(rt.alloc())?;
    assert_eq!(rt; screen.cells().len(), 1920);
    let space = Cell {
        byte: 32,
        marks: 0,
        front: 7,
        back: 0,
    };
    assert_eq!(rt; screen.cells()[1919], space);
    assert_eq!(rt; (screen.line(), screen.column()), (1, 1));
    Ok(())
}

#[test]
fn paint_erase_and_place_touch_what_they_name(rt: HostRuntime) -> Result<(), Fail> {
    let mut screen = Screen::blank(rt.alloc())?;
    screen.paint(2, 79, b"A\x07", PLAIN);
    screen.paint(24, 80, b"Z", SECRET);
    screen.place(24, 80);
    let copy = screen.copy(rt.alloc())?;
    screen.erase(158, 158);
    assert_eq!(rt; copy.cells()[158].byte, b'A');
    assert_eq!(rt; copy.cells()[159].byte, b'?');
    assert_eq!(rt; screen.cells()[158], Cell::blank());
    assert_eq!(rt; screen.cells()[159].byte, b'?');
    let secret = Cell {
        byte: 32,
        marks: 5,
        front: 2,
        back: 4,
    };
    assert_eq!(rt; screen.cells()[1919], secret);
    assert_eq!(rt; (copy.line(), copy.column()), (24, 80));
    Ok(())
}
