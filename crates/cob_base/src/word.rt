use crate::{ByteText, Items, Line, Num};

/// A word of a program.
#[derive(Debug, Drop)]
pub enum Word {
    /// A reserved word or a name that the program gives, in the letters that it was written in.
    Name(ByteText),
    /// A literal: the bytes that it stands for, with a doubled mark taken as one.
    Text(ByteText),
    /// A number. `digits` counts all digits as written, `decimals` those after the period; `signed` says that a sign
    /// was written.
    Number {
        value: Num,
        digits: u8,
        decimals: u8,
        signed: bool,
    },
    /// The text of a picture, which follows PIC or PICTURE.
    Picture(ByteText),
    /// One of `+ - * / = < > <= >= ( )`.
    Mark(ByteText),
    /// The separator period.
    Stop,
}

/// A word with the line in which it begins.
#[derive(Debug, Drop)]
pub struct Spoken {
    pub line: Line,
    pub word: Word,
}

/// The words of a sentence or of an entry; the last of them is the separator period.
#[derive(Debug, Drop)]
pub struct Entry {
    pub words: Items<Spoken>,
}
