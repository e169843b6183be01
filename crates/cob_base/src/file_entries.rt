use crate::{ByteText, Items, Line, Reference};

/// What other connectors may do with a file while it is open: the phrase of SHARING.
#[derive(Clone, Copy, Debug, PartialEq, Eq)]
pub enum Sharing {
    /// ALL OTHER: others may read and write.
    AllOther,
    /// NO OTHER: no other may open it.
    NoOther,
    /// READ ONLY: others may read.
    ReadOnly,
}

/// In which order a file's records are reached.
#[derive(Clone, Copy, Debug, PartialEq, Eq)]
pub enum Access {
    Sequential,
    Random,
    Dynamic,
}

/// How record locks are set.
#[derive(Clone, Copy, Debug, PartialEq, Eq)]
pub enum LockMode {
    /// No LOCK MODE clause was written.
    Unset,
    /// MANUAL: only where a statement asks for it.
    Manual,
    /// AUTOMATIC: at each READ.
    Automatic,
}

/// What ASSIGN names. The file's name is the literal's text, or the word in capitals.
#[derive(Debug, Drop)]
pub enum Assigned {
    Text(ByteText),
    Name(ByteText),
}

/// A clause of a file control entry.
#[derive(Debug, Drop)]
pub enum FileClause {
    /// ORGANIZATION IS INDEXED.
    Indexed,
    /// An organization or a clause that is read and refused; it takes all words up to the entry's period.
    Outside,
    /// ACCESS MODE.
    Access(Access),
    /// RECORD KEY.
    RecordKey(Reference),
    /// ALTERNATE RECORD KEY, and whether WITH DUPLICATES follows.
    AlternateKey { key: Reference, duplicates: bool },
    /// FILE STATUS.
    FileStatus(Reference),
    /// LOCK MODE, which is Manual or Automatic.
    Lock { mode: LockMode, on: Option<LockOn> },
    /// SHARING.
    Sharing(Sharing),
}

/// WITH LOCK ON RECORD or RECORDS.
#[derive(Clone, Copy, Debug, PartialEq, Eq)]
pub struct LockOn {
    /// Whether MULTIPLE was written, so that the connector may hold several locks.
    pub multiple: bool,
}

/// A file control entry: SELECT with its clauses, in the order written.
#[derive(Debug, Drop)]
pub struct FileEntry {
    /// The line of its first word.
    pub line: Line,
    /// Whether OPTIONAL was written.
    pub optional: bool,
    /// The file's name in the program.
    pub name: ByteText,
    pub assigned: Assigned,
    pub clauses: Items<FileClause>,
}
