use cob_base::Items;

/// Where a key lies in a record, and whether records may share its value.
#[derive(Clone, Copy, Debug, PartialEq, Eq)]
pub struct KeyPlace {
    /// How many bytes of the record stand before it.
    pub offset: u16,
    /// How many bytes it has.
    pub length: u16,
    /// Whether several records may have the same value of it.
    pub duplicates: bool,
}

/// What the records of a file look like.
#[derive(Debug, Drop)]
pub struct Shape {
    /// How many bytes each record has.
    pub length: u16,
    /// The prime key.
    pub prime: KeyPlace,
    /// The alternate keys, in ascending order of offset, then of length.
    pub alternates: Items<KeyPlace>,
}
