/// The category of an item.
#[derive(Clone, Copy, Debug, PartialEq, Eq)]
pub enum PictureKind {
    /// Bytes of any sort.
    Alphanumeric,
    /// A group of items, whose bytes are moved and compared as they stand.
    Group,
    /// Decimal digits, with or without a sign.
    Numeric,
    /// A number in a form for readers.
    Edited,
}

/// Where a signed numeric item keeps its sign.
#[derive(Clone, Copy, Debug, PartialEq, Eq)]
pub enum SignPlace {
    /// In the last digit's byte, which is 64 higher where the number is negative.
    Inside,
    /// In a byte of its own before the digits.
    Leading,
    /// In a byte of its own after the digits.
    Trailing,
}
