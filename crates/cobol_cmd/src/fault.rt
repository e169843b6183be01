ghost use Rattle.std.specs.Prelude.{◌≡◌};
ghost use Rattle.cobol_cmd.specs.Lines.{text_fault_line, text_fault_reason, word_fault_line, word_fault_reason};

use cob_base::{Line, TextFault};
use cobol_words::WordFault;
use thiserror::Error;

/// Why a program is refused: the pass that refuses it, the place and the reason.
#[derive(Clone, Copy, Debug, PartialEq, Eq, Error)]
pub enum ProgramFault {
    /// A line of the text is at fault.
    #[error(transparent)]
    Lines(TextFault),
    /// The lines are good, and a word is at fault.
    #[error(transparent)]
    Words(WordFault),
    /// The words are good. The line is that of the last word, where it is no separator period; else of the first entry that does not
    /// fit; else, where more must follow, of the last entry, or 1 where there is none. For `show` it is 1, where the words are no small
    /// program.
    #[error("line {}: an entry that does not fit, or after which more must follow", .0.0)]
    Entries(Line),
    /// The words are good, and the first entry that does not fit, which begins in this line, opens a 51st statement or parenthesis.
    #[error("line {}: statements and parentheses nest too deep", .0.0)]
    Nesting(Line),
    /// The entries are a program, which breaks the rule of this number, from 1 to 13, in an entry, statement or paragraph header
    /// that begins in this line. Of several faults the least is told, by line, then by reason.
    #[error("line {}: rule {reason} is broken", .line.0)]
    Profile { line: Line, reason: u8 },
    /// Memory ran out. No other variant holds a want of memory.
    #[error("memory ran out")]
    NoMemory,
}

/// The line that a fault of lines names; 0 where memory ran out.
pub(crate) fn text_fault_line(fault: TextFault) -> u32
    ensures { result ≡ text_fault_line fault }
{
    match fault {
        TextFault::BadByte(line) | TextFault::BadIndicator(line) | TextFault::BadDirective(line) =>
            line.0,
        TextFault::NoMemory => 0,
    }
}

/// What a fault of lines is called.
pub(crate) fn text_fault_reason(fault: TextFault) -> &'static str
    ensures { result.now ≡ text_fault_reason fault }
{
    match fault {
        TextFault::BadByte(_) => "bad-byte",
        TextFault::BadIndicator(_) => "bad-indicator",
        TextFault::BadDirective(_) => "bad-directive",
        TextFault::NoMemory => "",
    }
}

/// The line that a fault of words names; 0 where memory ran out.
pub(crate) fn word_fault_line(fault: WordFault) -> u32
    ensures { result ≡ word_fault_line fault }
{
    match fault {
        WordFault::BadCharacter(line)
        | WordFault::OpenLiteral(line)
        | WordFault::LongWord(line)
        | WordFault::LongNumber(line)
        | WordFault::LongLiteral(line)
        | WordFault::BadContinuation(line) => line.0,
        WordFault::NoMemory => 0,
    }
}

/// What a fault of words is called.
pub(crate) fn word_fault_reason(fault: WordFault) -> &'static str
    ensures { result.now ≡ word_fault_reason fault }
{
    match fault {
        WordFault::BadCharacter(_) => "bad-character",
        WordFault::OpenLiteral(_) => "open-literal",
        WordFault::LongWord(_) => "long-word",
        WordFault::LongNumber(_) => "long-number",
        WordFault::LongLiteral(_) => "long-literal",
        WordFault::BadContinuation(_) => "bad-continuation",
        WordFault::NoMemory => "",
    }
}
