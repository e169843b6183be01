use crate::{ByteText, Constant, Items, Line};

/// On which side of an item its sign stands.
#[derive(Clone, Copy, Debug, PartialEq, Eq)]
pub enum SignSide {
    Leading,
    Trailing,
}

/// A clause of a data description entry.
#[derive(Debug, Drop)]
pub enum ItemClause {
    /// PICTURE, with the picture's text as written.
    Picture(ByteText),
    /// USAGE DISPLAY.
    Display,
    /// A usage or a clause that is read and refused; it takes all words up to the entry's period.
    Outside,
    /// VALUE.
    Value(Constant),
    /// OCCURS, with the number of occurrences.
    Occurs(u64),
    /// SIGN, and whether SEPARATE was written.
    Sign { side: SignSide, separate: bool },
}

/// A value of an 88 entry, or a range of values where THROUGH was written.
#[derive(Debug, Drop)]
pub struct ValueRange {
    pub from: Constant,
    pub through: Option<Constant>,
}

/// A data description entry.
#[derive(Debug, Drop)]
pub enum DataEntry {
    /// An item: a group, or an elementary item.
    Item(ItemEntry),
    /// An 88 entry: a condition on the item before it.
    Condition(ConditionEntry),
}

/// An item's entry: its level, its name and its clauses in the order written.
#[derive(Debug, Drop)]
pub struct ItemEntry {
    /// The line of its first word.
    pub line: Line,
    /// 1 to 49, or 77.
    pub level: u8,
    /// None where the name is absent or FILLER.
    pub name: Option<ByteText>,
    pub clauses: Items<ItemClause>,
}

/// An 88 entry: its name and the values for which it is true, one or more.
#[derive(Debug, Drop)]
pub struct ConditionEntry {
    /// The line of its first word.
    pub line: Line,
    pub name: ByteText,
    pub values: Items<ValueRange>,
}
