use crate::LayoutFault;
use cob_base::SignSide;

/// An entry of a case: its line, its level, the text after PICTURE, and one more clause or two.
#[derive(Clone, Copy)]
pub enum Entry {
    Group(u32, u8, Extra),
    Item(u32, u8, &'static [u8], Extra),
    Condition(u32),
}

/// What else an entry says.
#[derive(Clone, Copy)]
pub enum Extra {
    Plain,
    /// OCCURS.
    Table(u64),
    /// SIGN, and whether it is separate.
    Sign(SignSide, bool),
    /// OCCURS, and SIGN with SEPARATE.
    SignedTable(u64, SignSide),
    /// USAGE DISPLAY, written twice.
    UsageTwice,
}

/// What a case gives: the bytes of all and each item's offset and size, or a fault.
#[derive(Clone, Copy)]
pub enum Expected {
    Places(u32, &'static [(u32, u32)]),
    Fault(LayoutFault),
}

/// The records of each file, working storage, and what they give.
#[derive(Clone, Copy)]
pub struct Case {
    pub name: &'static str,
    pub files: &'static [&'static [Entry]],
    pub storage: &'static [Entry],
    pub expected: Expected,
}
