//! Entries that only name: the headers of divisions, sections and paragraphs, and names alone.

ghost use Rattle.std.specs.Prelude.{◌≡◌};
ghost use Rattle.cob_base.specs.EntryForm.EntryForm.{entry, optional};
ghost use Rattle.cob_base.specs.EntryForm.{begins};
ghost use Rattle.cob_base.specs.Form.{opens};
ghost use Rattle.cob_base.specs.Front as front;
ghost use Rattle.phrase_parser.specs.EntryReading.{EntryGives, read_entries};
ghost use Rattle.phrase_parser.specs.Reading.{Gives, read};

use cob_base::{ByteText, Keyword, Misfit, SeenEntry, Token};
use phrase_parser::{
    EntryFault, PhraseFault, expect, full_stop, name, opens_name, same_key, whole_entry,
};
use std::alloc::Global;

/// One reserved word and a period.
#[tactic(auto, unfolding(cob_base::specs::Front::header))]
fn header(words: &[Token], first: Keyword) -> Result<((), &[Token]), PhraseFault>
    ensures { Gives (λ x. (x.0, x.1.now)) result (read (front.header first) words.now) }
{
    let rest = expect(words, first)?;
    let rest = full_stop(rest)?;
    Ok(((), rest))
}

/// Two reserved words and a period.
#[tactic(auto, unfolding(cob_base::specs::Front::header_of_two))]
fn header_of_two(
    words: &[Token],
    first: Keyword,
    second: Keyword,
) -> Result<((), &[Token]), PhraseFault>
    ensures { Gives (λ x. (x.0, x.1.now)) result (read (front.header_of_two first second) words.now) }
{
    let rest = expect(words, first)?;
    let rest = expect(rest, second)?;
    let rest = full_stop(rest)?;
    Ok(((), rest))
}

/// Whether one reserved word and a period come next.
#[tactic(auto, unfolding(cob_base::specs::Front::header))]
fn opens_header(words: &[Token], first: Keyword) -> bool
    ensures { result ≡ opens (front.header first) words.now }
{
    match words {
        [Token::Key(have), Token::Stop, ..] => same_key(*have, first),
        _ => false,
    }
}

/// Whether two reserved words and a period come next.
#[tactic(auto, unfolding(cob_base::specs::Front::header_of_two))]
fn opens_header_of_two(words: &[Token], first: Keyword, second: Keyword) -> bool
    ensures { result ≡ opens (front.header_of_two first second) words.now }
{
    match words {
        [Token::Key(have), Token::Key(after), Token::Stop, ..] => same_key(*have, first)
            && same_key(*after, second),
        _ => false,
    }
}

/// An entry of one reserved word.
pub fn paragraph_header(
    entries: &[SeenEntry],
    first: Keyword,
) -> Result<((), &[SeenEntry]), EntryFault>
    ensures { EntryGives (λ x. (x.0, x.1.now)) result (read_entries (entry (λ line. front.header first)) entries.now) }
{
    match entries {
        [entry, rest @ ..] => whole_entry(entry.line, header(entry.tokens.as_slice(), first), rest),
        [] => Err(EntryFault::Stops(Misfit::NoFit, None)),
    }
}

/// An entry of two reserved words.
pub fn section_header(
    entries: &[SeenEntry],
    first: Keyword,
    second: Keyword,
) -> Result<((), &[SeenEntry]), EntryFault>
    ensures { EntryGives (λ x. (x.0, x.1.now)) result (read_entries (entry (λ line. front.header_of_two first second)) entries.now) }
{
    match entries {
        [entry, rest @ ..] => whole_entry(
            entry.line,
            header_of_two(entry.tokens.as_slice(), first, second),
            rest,
        ),
        [] => Err(EntryFault::Stops(Misfit::NoFit, None)),
    }
}

/// Whether the next entry is one reserved word.
pub fn begins_paragraph(entries: &[SeenEntry], first: Keyword) -> bool
    ensures { result ≡ begins (entry (λ line. front.header first)) entries.now }
{
    match entries {
        [entry, ..] => opens_header(entry.tokens.as_slice(), first),
        [] => false,
    }
}

/// Whether the next entry is two reserved words.
pub fn begins_section(entries: &[SeenEntry], first: Keyword, second: Keyword) -> bool
    ensures { result ≡ begins (entry (λ line. front.header_of_two first second)) entries.now }
{
    match entries {
        [entry, ..] => opens_header_of_two(entry.tokens.as_slice(), first, second),
        [] => false,
    }
}

/// A name and a period.
#[tactic(auto, unfolding(cob_base::specs::Front::name_entry))]
pub fn name_words(alloc: Global, words: &[Token]) -> Result<(ByteText, &[Token]), PhraseFault>
    ensures { Gives (λ x. (x.0, x.1.now)) result (read front.name_entry words.now) }
{
    let (name, rest) = name(alloc, words)?;
    let rest = full_stop(rest)?;
    Ok((name, rest))
}

/// An entry that is a name.
pub fn name_entry(
    alloc: Global,
    entries: &[SeenEntry],
) -> Result<(ByteText, &[SeenEntry]), EntryFault>
    ensures { EntryGives (λ x. (x.0, x.1.now)) result (read_entries (entry (λ line. front.name_entry)) entries.now) }
{
    match entries {
        [entry, rest @ ..] => whole_entry(
            entry.line,
            name_words(alloc, entry.tokens.as_slice()),
            rest,
        ),
        [] => Err(EntryFault::Stops(Misfit::NoFit, None)),
    }
}

/// Whether the next entry begins with a name.
#[tactic(auto, unfolding(cob_base::specs::Front::name_entry, cob_base::specs::Phrases::name))]
fn begins_name(entries: &[SeenEntry]) -> bool
    ensures { result ≡ begins (entry (λ line. front.name_entry)) entries.now }
{
    match entries {
        [entry, ..] => opens_name(entry.tokens.as_slice()),
        [] => false,
    }
}

/// An entry that is a name, where one comes next.
pub fn optional_name(
    alloc: Global,
    entries: &[SeenEntry],
) -> Result<(Option<ByteText>, &[SeenEntry]), EntryFault>
    ensures { EntryGives (λ x. (x.0, x.1.now)) result (read_entries (optional (entry (λ line. front.name_entry))) entries.now) }
{
    if !begins_name(entries) {
        return Ok((None, entries));
    }
    let (name, rest) = name_entry(alloc, entries)?;
    Ok((Some(name), rest))
}
