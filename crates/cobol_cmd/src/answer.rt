ghost use Rattle.std.specs.Prelude.{◌≡◌};

use crate::fault::ProgramFault;

/// What a call came to.
#[derive(Clone, Copy, Debug, PartialEq, Eq)]
pub enum Answer {
    /// All was done.
    Done,
    /// The words have no shape of a command.
    BadWords,
    /// The program is refused.
    Refused(ProgramFault),
    /// A name that must be held is not.
    Missing,
    /// The shelf failed at a read.
    ReadFault,
    /// The sink failed at the output.
    WriteFault,
    /// A text is longer than its limit.
    TooLong,
    /// Memory ran out.
    NoMemory,
}

impl Answer {
    ghost use Rattle.cobol_cmd.specs.Answers.{status_of};

    /// The status that the program ends with.
    pub fn status(self) -> u8
        ensures { result ≡ status_of self }
    {
        match self {
            Answer::Done => 0,
            Answer::BadWords => 2,
            Answer::Refused(_) => 3,
            Answer::Missing => 5,
            Answer::ReadFault => 6,
            Answer::WriteFault => 7,
            Answer::TooLong => 8,
            Answer::NoMemory => 9,
        }
    }
}
