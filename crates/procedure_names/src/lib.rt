//! What the names in a procedure division stand for, and the rules of the language on them.
#![tactic(auto)]

mod condition_names;
mod conditions;
mod double_paragraphs;
mod firsts;
mod mentions;
mod scope;
mod unknown_names;

pub use conditions::{Conditions, KnownCondition};
pub use double_paragraphs::note_double_paragraphs;
pub use mentions::{ConditionMention, StatementMentions, mentions_of};
pub use scope::Scope;
pub use unknown_names::{
    note_ambiguous_in_statements, note_miscounted_in_statements, note_unknown_in_statements,
};
