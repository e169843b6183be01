use cob_base::{ByteText, Items};
use picture_rule::Picture;
use screen_cells::Style;
use screen_rows::Show;

/// A screen of level 01: its elementary items in the order of their entries.
#[derive(Debug, Drop)]
pub struct ScreenPlan {
    /// Empty where the entry has no name.
    pub name: ByteText,
    pub items: Items<Placed>,
}

/// A screen item in its place.
#[derive(Debug, Drop)]
pub struct Placed {
    /// 1 to 24.
    pub line: u8,
    /// 1 to 80, or 81 for an item without a size.
    pub column: u8,
    /// How many cells it takes.
    pub size: u8,
    /// The entry's own picture, or that of a text of its size.
    pub picture: Picture,
    pub style: Style,
    pub blank: Blank,
    pub show: Show,
    /// The number of the item that TO or USING names, among the items of the layout.
    pub into: Option<u32>,
}

/// Which cells are blanked before an item is shown.
#[derive(Clone, Copy, Debug, PartialEq, Eq)]
pub struct Blank {
    /// BLANK SCREEN: all cells.
    pub screen: bool,
    /// BLANK LINE: those of the item's line.
    pub line: bool,
    /// ERASE EOL: from the item to its line's end.
    pub line_end: bool,
    /// ERASE EOS: from the item to the screen's end.
    pub screen_end: bool,
}
