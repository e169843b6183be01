ghost use Rattle.std.specs.Prelude.{◌≡◌};
ghost use Rattle.screen_cells.specs.Cells.{blank_cell, shown_byte, painted_cell};

/// One place of a screen: the byte that it shows, its marks, and its colours.
///
/// The marks are a sum of 1 HIGHLIGHT, 2 LOWLIGHT, 4 REVERSE-VIDEO, 8 UNDERLINE and 16 BLINK. The colours are 0 black,
/// 1 blue, 2 green, 3 cyan, 4 red, 5 magenta, 6 brown and 7 white.
#[derive(Clone, Copy, Debug, PartialEq, Eq)]
pub struct Cell {
    pub byte: u8,
    pub marks: u8,
    pub front: u8,
    pub back: u8,
}

/// How a screen item is shown and edited: its marks and colours as in a cell, and whether it has the clauses SECURE,
/// REQUIRED, FULL and AUTO.
#[derive(Clone, Copy, Debug, PartialEq, Eq)]
pub struct Style {
    pub marks: u8,
    pub front: u8,
    pub back: u8,
    pub secure: bool,
    pub required: bool,
    pub full: bool,
    pub auto: bool,
}

impl Cell {
    /// A cell of a blank screen: a space without marks, white on black.
    pub fn blank() -> Cell
        ensures { result ≡ blank_cell }
    {
        Cell {
            byte: b' ',
            marks: 0,
            front: 7,
            back: 0,
        }
    }

    /// What a byte looks like in a style: a space under SECURE, `?` in place of a byte outside 32 to 126.
    pub fn painted(style: Style, byte: u8) -> Cell
        ensures { result ≡ painted_cell style byte }
    {
        Cell {
            byte: shown(style.secure, byte),
            marks: style.marks,
            front: style.front,
            back: style.back,
        }
    }
}

fn shown(secure: bool, byte: u8) -> u8
    ensures { result ≡ shown_byte secure byte }
{
    if secure {
        b' '
    } else if 32 <= byte && byte <= 126 {
        byte
    } else {
        b'?'
    }
}
