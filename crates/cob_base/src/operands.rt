use crate::{ByteText, Items, Num};

/// A numeric literal. `digits` counts all digits as written, `decimals` those after the period; `signed` says that a
/// sign was written.
#[derive(Clone, Copy, Debug, PartialEq, Eq)]
pub struct Number {
    pub value: Num,
    pub digits: u8,
    pub decimals: u8,
    pub signed: bool,
}

/// A figurative constant; each of its spellings, as ZERO, ZEROS and ZEROES, is the same constant.
#[derive(Clone, Copy, Debug, PartialEq, Eq)]
pub enum Figurative {
    Zero,
    Space,
    HighValue,
    LowValue,
}

/// A literal or a figurative constant.
#[derive(Debug, Drop)]
pub enum Constant {
    Text(ByteText),
    Number(Number),
    Figurative(Figurative),
}

/// What a subscript adds to its item's value, or takes from it.
#[derive(Clone, Copy, Debug, PartialEq, Eq)]
pub enum Offset {
    Plus(u64),
    Minus(u64),
}

/// What stands in the parentheses of a reference: which occurrence is meant, counted from 1.
#[derive(Debug, Drop)]
pub enum Subscript {
    /// The occurrence of this number.
    Number(u64),
    /// The occurrence that an item's value names.
    Item {
        name: ByteText,
        /// The names after OF or IN, from the inside out.
        qualifiers: Items<ByteText>,
        offset: Option<Offset>,
    },
}

/// A reference to an item, or in a condition to an 88 entry.
#[derive(Debug, Drop)]
pub struct Reference {
    pub name: ByteText,
    /// The names after OF or IN, from the inside out.
    pub qualifiers: Items<ByteText>,
    pub subscript: Option<Subscript>,
}

/// An item or a constant.
#[derive(Debug, Drop)]
pub enum Operand {
    Reference(Reference),
    Constant(Constant),
}
