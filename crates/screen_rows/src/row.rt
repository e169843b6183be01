use crate::clauses::Own;
use cob_base::{ByteText, Line};
use picture_rule::Picture;

/// What of a screen entry decides its place.
#[derive(Clone, Copy, Debug)]
pub struct ScreenRow {
    /// The line of the entry's first word.
    pub line: Line,
    /// The level as the entry has it; 1 to 49, or 77, where a text was read.
    pub level: u8,
    /// Whether members follow it.
    pub group: bool,
    pub own: Own,
    /// How many cells it takes, where that is known.
    pub size: Option<u64>,
    /// Whether the entry is at fault by itself.
    pub bad: bool,
}

/// What an entry without a fault shows and fills.
#[derive(Debug, Drop)]
pub struct Content {
    pub name: Option<ByteText>,
    /// Its picture; None where it has none, or one that is refused.
    pub picture: Option<Picture>,
    pub show: Show,
    /// The number, from 0, of the item of the layout that TO or USING fills.
    pub into: Option<u32>,
}

/// What an item shows.
#[derive(Debug, Drop)]
pub enum Show {
    /// Nothing: it has no size.
    Nothing,
    /// These bytes: a VALUE, a constant after FROM moved into the picture, or the spaces of TO alone.
    Text(ByteText),
    /// The item of this number in the layout, which FROM or USING names, moved into the picture.
    Item(u32),
}
