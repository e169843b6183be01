use cob_base::Line;

/// A rule that a program breaks in a line.
#[derive(Clone, Copy, Debug, PartialEq, Eq)]
pub struct Fault {
    /// The line of the first word of the entry, statement or paragraph header at fault.
    pub line: Line,
    /// The number of the rule's reason, from 1 to 13.
    pub reason: u8,
}
