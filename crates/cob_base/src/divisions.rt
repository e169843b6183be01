use crate::{ByteText, DataEntry, FileEntry, Items, Line, ScreenEntry};

/// What stands before the procedure division: the identification, environment and data divisions.
#[derive(Debug, Drop)]
pub struct Front {
    /// The name after PROGRAM-ID.
    pub program: ByteText,
    pub environment: Option<Environment>,
    pub data: Option<DataDivision>,
}

/// The environment division.
#[derive(Debug, Drop)]
pub struct Environment {
    pub configuration: Option<Configuration>,
    pub input_output: Option<InputOutput>,
}

/// The configuration section.
#[derive(Debug, Drop)]
pub struct Configuration {
    /// The paragraph SOURCE-COMPUTER.
    pub source_computer: Option<Computer>,
    /// The paragraph OBJECT-COMPUTER.
    pub object_computer: Option<Computer>,
    /// The paragraph SPECIAL-NAMES.
    pub special_names: Option<SpecialNames>,
}

/// The paragraph SOURCE-COMPUTER or OBJECT-COMPUTER.
#[derive(Debug, Drop)]
pub struct Computer {
    pub name: Option<ByteText>,
}

/// The paragraph SPECIAL-NAMES.
#[derive(Debug, Drop)]
pub struct SpecialNames {
    pub crt_status: Option<CrtStatus>,
}

/// The clause CRT STATUS: the item that gets the key by which an ACCEPT ended.
#[derive(Debug, Drop)]
pub struct CrtStatus {
    /// The line of its first word.
    pub line: Line,
    pub name: ByteText,
}

/// The input-output section.
#[derive(Debug, Drop)]
pub struct InputOutput {
    /// The file control entries, where FILE-CONTROL was written.
    pub file_control: Option<Items<FileEntry>>,
}

/// The data division. A section is None where its header was not written.
#[derive(Debug, Drop)]
pub struct DataDivision {
    /// The file section.
    pub files: Option<Items<FileDescription>>,
    /// The working-storage section.
    pub working_storage: Option<Items<DataEntry>>,
    /// The screen section.
    pub screens: Option<Items<ScreenEntry>>,
}

/// A file description entry, FD, with the entries of its records, one or more.
#[derive(Debug, Drop)]
pub struct FileDescription {
    /// The line of its first word.
    pub line: Line,
    /// The file's name in the program.
    pub name: ByteText,
    pub records: Items<DataEntry>,
}
