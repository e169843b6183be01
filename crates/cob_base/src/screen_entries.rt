use crate::{ByteText, Items, Line, Operand, Reference};

/// What BLANK clears.
#[derive(Clone, Copy, Debug, PartialEq, Eq)]
pub enum Blanked {
    Screen,
    Line,
}

/// Up to where ERASE clears.
#[derive(Clone, Copy, Debug, PartialEq, Eq)]
pub enum Erased {
    /// EOL: up to the line's end.
    LineEnd,
    /// EOS: up to the screen's end.
    ScreenEnd,
}

/// A line's or a column's number.
#[derive(Clone, Copy, Debug, PartialEq, Eq)]
pub enum Position {
    /// The number itself, counted from 1.
    At(u64),
    /// PLUS: so many after the place before.
    Plus(u64),
    /// MINUS: so many before the place before.
    Minus(u64),
}

/// A clause of a screen description entry.
#[derive(Debug, Drop)]
pub enum ScreenClause {
    /// BLANK.
    Blank(Blanked),
    /// ERASE.
    Erase(Erased),
    /// LINE NUMBER.
    Line(Position),
    /// COLUMN NUMBER.
    Column(Position),
    /// VALUE, with the literal's bytes.
    Value(ByteText),
    /// PICTURE, with the picture's text as written.
    Picture(ByteText),
    /// FROM.
    From(Operand),
    /// TO.
    To(Reference),
    /// USING.
    Using(Reference),
    /// A mark: HIGHLIGHT, LOWLIGHT and the like.
    Mark(ScreenMark),
    /// FOREGROUND-COLOR.
    ForegroundColor(u64),
    /// BACKGROUND-COLOR.
    BackgroundColor(u64),
    /// A clause that is read and refused; it takes all words up to the entry's period.
    Outside,
}

/// A clause of one word, which marks how an item is shown or how a field is filled.
#[derive(Clone, Copy, Debug, PartialEq, Eq)]
pub enum ScreenMark {
    Highlight,
    Lowlight,
    ReverseVideo,
    Underline,
    Blink,
    Secure,
    Required,
    Full,
    Auto,
}

/// A screen description entry: its level, its name and its clauses in the order written.
#[derive(Debug, Drop)]
pub struct ScreenEntry {
    /// The line of its first word.
    pub line: Line,
    /// 1 to 49, or 77.
    pub level: u8,
    /// None where the name is absent or FILLER.
    pub name: Option<ByteText>,
    pub clauses: Items<ScreenClause>,
}
