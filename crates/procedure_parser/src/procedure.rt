//! Sentences, paragraphs and the procedure division.

ghost use Rattle.std.specs.Prelude.{◌≡◌, ◌++◌, IfOk};
ghost use Rattle.cob_base.specs.EntryForm.EntryForm.{entry, optional};
ghost use Rattle.cob_base.specs.EntryForm.{begins, many};
ghost use Rattle.cob_base.specs.Form.{opens};
ghost use Rattle.cob_base.specs.Procedure as grammar;
ghost use Rattle.phrase_parser.specs.EntryReading.{EntryGives, read_entries};
ghost use Rattle.phrase_parser.specs.Reading.{Gives, read, or_no_fit, seen_words};
ghost use Rattle.procedure_parser.specs.Answer.{Answers, IsDefinite};

use crate::statements::{opens_statement, statements};
use cob_base::{
    ByteText, EndProgram, Entry, Items, Keyword, Line, Located, MAX_OPEN, Paragraph, ParseFault,
    Procedure, SeenEntry, Sentence, Token, see_entries,
};
use phrase_parser::{
    EntryFault, PhraseFault, entries_are_definite, entry, expect, fault_of, from_stop, full_stop,
    many_entries, name, no_fit, opens_name, past, reading_is_exact, same_key,
};
use std::alloc::{AllocError, Global};

// ---- sentences

/// `name SECTION`, with all words up to the period.
#[tactic(auto, unfolding(cob_base::specs::Procedure::section, cob_base::specs::Statements::to_period, cob_base::specs::Phrases::name))]
fn section(words: &[Token]) -> Option<&[Token]>
    ensures { read grammar.section words.now ≡ or_no_fit (seen_words result) }
{
    match words {
        [Token::Name(_), rest @ ..] => {
            let rest = past(rest, Keyword::Section)?;
            Some(from_stop(rest))
        }
        _ => None,
    }
}

/// DECLARATIVES, with all words up to the period.
#[tactic(auto, unfolding(cob_base::specs::Procedure::declaratives))]
fn declaratives(words: &[Token]) -> Option<&[Token]>
    ensures { read grammar.declaratives words.now ≡ or_no_fit (seen_words result) }
{
    let rest = past(words, Keyword::Declaratives)?;
    Some(from_stop(rest))
}

/// A sentence that is read and refused, but for its period.
#[tactic(auto, unfolding(cob_base::specs::Procedure::outside_sentence), using(crate::proofs::ProcedureDispatch::opens_section_is))]
fn outside_sentence(words: &[Token]) -> Option<&[Token]>
    ensures { read grammar.outside_sentence words.now ≡ or_no_fit (seen_words result) }
{
    if let Some(rest) = section(words) {
        return Some(rest);
    }
    declaratives(words)
}

/// `statement+ | outside`
#[tactic(auto, unfolding(cob_base::specs::Procedure::sentence_words), using(crate::proofs::ProcedureDispatch::opens_statements_is))]
fn sentence_words(alloc: Global, words: &[Token]) -> Result<(Sentence, &[Token]), PhraseFault>
    ensures { Gives (λ x. (x.0, x.1.now)) result (read grammar.sentence_words words.now) }
{
    if opens_statement(words) {
        let (found, rest) = statements(alloc, MAX_OPEN, words)?;
        return Ok((Sentence::Statements(found), rest));
    }
    match outside_sentence(words) {
        Some(rest) => Ok((Sentence::Outside, rest)),
        None => Err(no_fit()),
    }
}

/// `(statement+ | outside) .`
#[tactic(auto, unfolding(cob_base::specs::Procedure::sentence))]
fn sentence(
    alloc: Global,
    line: Line,
    words: &[Token],
) -> Result<(Located<Sentence>, &[Token]), PhraseFault>
    ensures { Gives (λ x. (x.0, x.1.now)) result (read (grammar.sentence line) words.now) }
{
    let (item, rest) = sentence_words(alloc, words)?;
    let rest = full_stop(rest)?;
    Ok((Located { line, item }, rest))
}

#[tactic(auto, using(crate::proofs::ProcedureDispatch::opens_sentence_is))]
fn opens_sentence(line: Line, words: &[Token]) -> bool
    ensures { result ≡ opens (grammar.sentence line) words.now }
{
    opens_statement(words) || outside_sentence(words).is_some()
}

fn sentence_entry(
    alloc: Global,
    entries: &[SeenEntry],
) -> Result<(Located<Sentence>, &[SeenEntry]), EntryFault>
    ensures { EntryGives (λ x. (x.0, x.1.now)) result (read_entries (entry grammar.sentence) entries.now) }
{
    entry(alloc, &sentence, entries)
}

fn begins_sentence(entries: &[SeenEntry]) -> bool
    ensures { result ≡ begins (entry grammar.sentence) entries.now }
{
    match entries {
        [entry, ..] => opens_sentence(entry.line, entry.tokens.as_slice()),
        [] => false,
    }
}

/// `sentence*`
fn sentences(
    alloc: Global,
    entries: &[SeenEntry],
) -> Result<(Items<Located<Sentence>>, &[SeenEntry]), EntryFault>
    ensures { EntryGives (λ x. (x.0, x.1.now)) result (read_entries grammar.sentences_of entries.now) }
{
    many_entries(alloc, &begins_sentence, &sentence_entry, entries)
}

// ---- paragraphs

/// `name .`
#[tactic(auto, unfolding(cob_base::specs::Procedure::header, cob_base::specs::Front::name_entry))]
fn header(
    alloc: Global,
    line: Line,
    words: &[Token],
) -> Result<((Line, ByteText), &[Token]), PhraseFault>
    ensures { Gives (λ x. (x.0, x.1.now)) result (read (grammar.header line) words.now) }
{
    let (name, rest) = name(alloc, words)?;
    let rest = full_stop(rest)?;
    Ok(((line, name), rest))
}

fn header_entry(
    alloc: Global,
    entries: &[SeenEntry],
) -> Result<((Line, ByteText), &[SeenEntry]), EntryFault>
    ensures { EntryGives (λ x. (x.0, x.1.now)) result (read_entries (entry grammar.header) entries.now) }
{
    entry(alloc, &header, entries)
}

/// `name . sentence*`
#[tactic(auto, unfolding(cob_base::specs::Procedure::paragraph))]
fn paragraph(alloc: Global, entries: &[SeenEntry]) -> Result<(Paragraph, &[SeenEntry]), EntryFault>
    ensures { EntryGives (λ x. (x.0, x.1.now)) result (read_entries grammar.paragraph entries.now) }
{
    let ((line, name), rest) = header_entry(alloc, entries)?;
    let (sentences, rest) = sentences(alloc, rest)?;
    Ok((
        Paragraph {
            line,
            name: Some(name),
            sentences,
        },
        rest,
    ))
}

/// Whether the next entry begins with a name.
#[tactic(auto, unfolding(cob_base::specs::Procedure::paragraph, cob_base::specs::Procedure::header, cob_base::specs::Front::name_entry, cob_base::specs::Phrases::name))]
fn begins_paragraph(entries: &[SeenEntry]) -> bool
    ensures { result ≡ begins grammar.paragraph entries.now }
{
    match entries {
        [entry, ..] => opens_name(entry.tokens.as_slice()),
        [] => false,
    }
}

/// `paragraph*`
fn paragraphs(
    alloc: Global,
    entries: &[SeenEntry],
) -> Result<(Items<Paragraph>, &[SeenEntry]), EntryFault>
    ensures { EntryGives (λ x. (x.0, x.1.now)) result (read_entries (many grammar.paragraph) entries.now) }
{
    many_entries(alloc, &begins_paragraph, &paragraph, entries)
}

// ---- the end of the program

/// `END PROGRAM name .`
#[tactic(auto, unfolding(cob_base::specs::Procedure::end_program, cob_base::specs::Front::name_entry))]
fn end_program(
    alloc: Global,
    line: Line,
    words: &[Token],
) -> Result<(EndProgram, &[Token]), PhraseFault>
    ensures { Gives (λ x. (x.0, x.1.now)) result (read (grammar.end_program line) words.now) }
{
    let rest = expect(words, Keyword::End)?;
    let rest = expect(rest, Keyword::Program)?;
    let (name, rest) = name(alloc, rest)?;
    let rest = full_stop(rest)?;
    Ok((EndProgram { line, name }, rest))
}

fn end_program_entry(
    alloc: Global,
    entries: &[SeenEntry],
) -> Result<(EndProgram, &[SeenEntry]), EntryFault>
    ensures { EntryGives (λ x. (x.0, x.1.now)) result (read_entries (entry grammar.end_program) entries.now) }
{
    entry(alloc, &end_program, entries)
}

/// Whether END PROGRAM comes next.
#[tactic(auto, unfolding(cob_base::specs::Procedure::end_program, cob_base::specs::Front::name_entry, cob_base::specs::Phrases::name))]
fn opens_end_program(line: Line, words: &[Token]) -> bool
    ensures { result ≡ opens (grammar.end_program line) words.now }
{
    match words {
        [Token::Key(have), Token::Key(after), ..] => {
            same_key(*have, Keyword::End) && same_key(*after, Keyword::Program)
        }
        _ => false,
    }
}

fn begins_end_program(entries: &[SeenEntry]) -> bool
    ensures { result ≡ begins (entry grammar.end_program) entries.now }
{
    match entries {
        [entry, ..] => opens_end_program(entry.line, entry.tokens.as_slice()),
        [] => false,
    }
}

/// `[END PROGRAM name .]`
fn optional_end_program(
    alloc: Global,
    entries: &[SeenEntry],
) -> Result<(Option<EndProgram>, &[SeenEntry]), EntryFault>
    ensures { EntryGives (λ x. (x.0, x.1.now)) result (read_entries (optional (entry grammar.end_program)) entries.now) }
{
    if !begins_end_program(entries) {
        return Ok((None, entries));
    }
    let (found, rest) = end_program_entry(alloc, entries)?;
    Ok((Some(found), rest))
}

// ---- the procedure division

/// The sentences before the first paragraph, as a paragraph without a name.
fn unnamed(
    alloc: Global,
    sentences: Items<Located<Sentence>>,
) -> Result<Items<Paragraph>, AllocError>
    ensures { IfOk result (λ paragraphs. paragraphs ≡ grammar.unnamed sentences) }
{
    let mut all = Items::new(alloc);
    let line = match sentences.as_slice() {
        [first, ..] => first.line,
        [] => return Ok(all),
    };
    all.push(Paragraph {
        line,
        name: None,
        sentences,
    })?;
    Ok(all)
}

/// All paragraphs.
fn all_paragraphs(
    alloc: Global,
    first: Items<Located<Sentence>>,
    named: Items<Paragraph>,
) -> Result<Items<Paragraph>, AllocError>
    ensures { IfOk result (λ paragraphs. paragraphs ≡ grammar.unnamed first ++ named) }
{
    let mut all = unnamed(alloc, first)?;
    all.append(named)?;
    Ok(all)
}

/// `sentence* paragraph* [END PROGRAM name .]`
#[tactic(auto, unfolding(cob_base::specs::Procedure::procedure))]
fn procedure(alloc: Global, entries: &[SeenEntry]) -> Result<(Procedure, &[SeenEntry]), EntryFault>
    ensures { EntryGives (λ x. (x.0, x.1.now)) result (read_entries grammar.procedure entries.now) }
{
    let (first, rest) = sentences(alloc, entries)?;
    let (named, rest) = paragraphs(alloc, rest)?;
    let (end_program, rest) = optional_end_program(alloc, rest)?;
    let paragraphs = all_paragraphs(alloc, first, named)?;
    Ok((
        Procedure {
            paragraphs,
            end_program,
        },
        rest,
    ))
}

/// Reads the entries of a procedure division after its header, all of them.
///
/// Where they do not read as one, the answer is `Nesting` or `NoEntry`, as `ParseFault` says: the line is that of the first
/// word of the first entry that does not fit at its place. Statements and parentheses may be open to a depth of 50.
pub fn parse_procedure(alloc: Global, entries: &[Entry]) -> Result<Procedure, ParseFault>
    ensures { Answers entries.now result }
{
    reading_is_exact();
    let seen = see_entries(alloc, entries)?;
    match procedure(alloc, seen.as_slice()) {
        Ok((found, rest)) => match rest {
            [first, ..] => Err(ParseFault::NoEntry(first.line)),
            [] => Ok(found),
        },
        Err(EntryFault::Stops(reason, line)) => Err(fault_of(seen.as_slice(), reason, line)),
        Err(EntryFault::NoMemory) => Err(ParseFault::NoMemory),
    }
}

/// A list of entries reads as one procedure division at most, and as one program at most; where it does not, it stops at one
/// place, with the same entries left, for one reason; and never both.
pub fn programs_are_definite()
    ensures procedures { IsDefinite grammar.procedure }
    ensures programs { IsDefinite grammar.program }
{
    entries_are_definite();
}
