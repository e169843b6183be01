//! The plain values that every layer of the compiler and of the run-time speaks of: source lines, words, entries and
//! numbers, with the one list type of the workspace.
#![tactic(auto)]

mod conditions;
mod data_entries;
mod divisions;
mod expressions;
mod fault;
mod file_entries;
mod keywords;
mod line;
mod memory;
mod num;
mod operands;
mod paragraphs;
mod parse_fault;
mod reserved;
mod screen_entries;
mod statements;
mod text;
mod tokens;
mod word;

pub use conditions::{Cond, Relation};
pub use data_entries::{ConditionEntry, DataEntry, ItemClause, ItemEntry, SignSide, ValueRange};
pub use divisions::{
    Computer, Configuration, CrtStatus, DataDivision, Environment, FileDescription, Front,
    InputOutput, SpecialNames,
};
pub use expressions::{Expr, Scale, Sign};
pub use fault::TextFault;
pub use file_entries::{Access, Assigned, FileClause, FileEntry, LockMode, LockOn, Sharing};
pub use keywords::{Keyword, Mark, Reserved, Verb};
pub use line::{Line, SourceLine};
pub use memory::NoMemory;
pub use num::Num;
pub use operands::{Constant, Figurative, Number, Offset, Operand, Reference, Subscript};
pub use paragraphs::{EndProgram, Paragraph, Procedure, Program, Sentence};
pub use parse_fault::{MAX_OPEN, Misfit, ParseFault};
pub use reserved::{mark_of, reserved_of};
pub use screen_entries::{Blanked, Erased, Position, ScreenClause, ScreenEntry, ScreenMark};
pub use sqlite_items::{Boxed, Items};
pub use statements::{
    ConditionalPhrases, Direction, Division, Located, LockPhrase, Loop, OpenMode, OpenPhrase,
    ReadLocking, Retry, StartPlace, Statement, Test, Varying,
};
pub use text::ByteText;
pub use tokens::{SeenEntry, Token, first_line, see_entries, see_entry, see_word, see_words};
pub use word::{Entry, Spoken, Word};
