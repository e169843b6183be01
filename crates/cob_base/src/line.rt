use crate::ByteText;

/// The number of a line of a text, counted from 1.
#[derive(Clone, Copy, Debug, PartialEq, Eq, PartialOrd, Ord)]
pub struct Line(pub u32);

/// A line of program text, as it stands after its sequence area and indicator were taken off.
#[derive(Debug, Drop)]
pub struct SourceLine {
    /// The line's number in the whole text.
    pub line: Line,
    /// Whether it was written in fixed form, so that a literal open at its end runs to column 72.
    pub fixed: bool,
    /// Whether it is a continuation line, which joins on to the line before it.
    pub continued: bool,
    /// The bytes of the program text: in fixed form columns 8 to at most 72, in free form the whole line.
    pub text: ByteText,
}
