use cob_base::{ByteText, Line};
use picture_rule::Picture;

/// What the text after PICTURE comes to.
#[derive(Clone, Copy, Debug, PartialEq, Eq)]
pub enum Spelled {
    /// There is no PICTURE clause.
    Missing,
    /// No form of a picture fits.
    Unreadable,
    /// A form fits, but it is past its limits.
    TooWide,
    /// It is a picture.
    Fits,
}

/// What of an item's entry decides its place.
#[derive(Clone, Copy, Debug)]
pub struct Row {
    /// How many rows stand before it.
    pub number: u32,
    /// The line of the entry's first word.
    pub line: Line,
    /// 1 to 49, or 77.
    pub level: u8,
    /// Whether it stands under a file description.
    pub in_file: bool,
    /// Whether it is the first of its section.
    pub starts: bool,
    /// Whether members follow it.
    pub group: bool,
    /// The number after OCCURS.
    pub occurs: Option<u64>,
    /// Whether a clause is written twice.
    pub twice: bool,
    pub spelled: Spelled,
    /// How many bytes the picture has, which is 0 where there is none. A picture past its limits keeps its size.
    pub size: u64,
}

/// What an item takes from its entry as it is.
#[derive(Debug, Drop)]
pub struct Described {
    pub name: Option<ByteText>,
    pub picture: Option<Picture>,
}
