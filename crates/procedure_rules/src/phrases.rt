ghost use Rattle.std.specs.Prelude.{◌≡◌, ◌++◌, map, filter, IfOk, OnOk};
ghost use Rattle.name_rules.specs.Faults.{faults_at};
ghost use Rattle.statement_parts.specs.Seen.{seen_all};
ghost use Rattle.std.specs.List.{flat_map, list_any};
ghost use Rattle.procedure_rules.specs.Phrases.{is_refused_retry, has_refused_retry, is_outside_phrase, is_outside_statement, is_outside_sentence};

use cob_base::{Located, NoMemory, OpenPhrase, Paragraph, Retry, Sentence, Statement};
use name_rules::Faults;
use statement_parts::retries_of;
use std::alloc::Global;

fn is_refused_retry(retry: &Retry) -> bool
    ensures { result ≡ is_refused_retry retry.now }
{
    match retry {
        Retry::Times(_) => false,
        Retry::Seconds(_) => true,
        Retry::Forever => true,
    }
}

fn is_any_refused(retries: &[&Retry]) -> bool
    ensures { result ≡ list_any is_refused_retry (seen_all retries.now) }
{
    for retry in retries {
        if is_refused_retry(*retry) {
            return true;
        }
    }
    false
}

/// Whether a statement has RETRY FOREVER or RETRY FOR n SECONDS.
fn has_refused_retry(alloc: Global, statement: &Statement) -> Result<bool, NoMemory>
    ensures { IfOk result (λ refused. refused ≡ has_refused_retry statement.now) }
{
    let retries = retries_of(alloc, statement)?;
    Ok(is_any_refused(retries.as_slice()))
}

/// Notes the statements with RETRY FOREVER or RETRY FOR n SECONDS.
pub fn note_refused_retries(
    alloc: Global,
    faults: &mut Faults,
    statements: &[&Located<Statement>],
) -> Result<(), NoMemory>
    ensures { OnOk result (faults.new.found.items ≡ faults.old.found.items ++ faults_at 9 (map (λ one. one.line) (filter (λ one. has_refused_retry one.item) (seen_all statements.now)))) }
{
    for one in statements {
        let is_refused = has_refused_retry(alloc, &one.item)?;
        faults.note(9, one.line, is_refused)?;
    }
    Ok(())
}

fn is_outside_phrase(phrase: &OpenPhrase) -> bool
    ensures { result ≡ is_outside_phrase phrase.now }
{
    match phrase {
        OpenPhrase::Files { .. } => false,
        OpenPhrase::Outside => true,
    }
}

fn has_outside_phrase(phrases: &[OpenPhrase]) -> bool
    ensures { result ≡ list_any is_outside_phrase phrases.now }
{
    phrases.iter().any(|phrase| is_outside_phrase(phrase))
}

fn is_outside_statement(statement: &Statement) -> bool
    ensures { result ≡ is_outside_statement statement.now }
{
    match statement {
        Statement::Outside => true,
        Statement::Open(phrases) => has_outside_phrase(phrases.as_slice()),
        _ => false,
    }
}

fn is_outside_sentence(sentence: &Sentence) -> bool
    ensures { result ≡ is_outside_sentence sentence.now }
{
    match sentence {
        Sentence::Statements(_) => false,
        Sentence::Outside => true,
    }
}

fn note_outside_statements(
    faults: &mut Faults,
    statements: &[&Located<Statement>],
) -> Result<(), NoMemory>
    ensures { OnOk result (faults.new.found.items ≡ faults.old.found.items ++ faults_at 10 (map (λ one. one.line) (filter (λ one. is_outside_statement one.item) (seen_all statements.now)))) }
{
    for one in statements {
        faults.note(10, one.line, is_outside_statement(&one.item))?;
    }
    Ok(())
}

fn note_outside_sentences(
    faults: &mut Faults,
    sentences: &[Located<Sentence>],
) -> Result<(), NoMemory>
    ensures { OnOk result (faults.new.found.items ≡ faults.old.found.items ++ faults_at 10 (map (λ one. one.line) (filter (λ one. is_outside_sentence one.item) sentences.now))) }
{
    for sentence in sentences {
        faults.note(10, sentence.line, is_outside_sentence(&sentence.item))?;
    }
    Ok(())
}

fn note_outside_in(faults: &mut Faults, paragraphs: &[Paragraph]) -> Result<(), NoMemory>
    ensures { OnOk result (faults.new.found.items ≡ faults.old.found.items ++ faults_at 10 (map (λ one. one.line) (filter (λ one. is_outside_sentence one.item) (flat_map (λ paragraph. paragraph.sentences) paragraphs.now)))) }
{
    for paragraph in paragraphs {
        note_outside_sentences(faults, paragraph.sentences.as_slice())?;
    }
    Ok(())
}

/// Notes the statements and sentences that are left out of the language.
pub fn note_left_out(
    faults: &mut Faults,
    statements: &[&Located<Statement>],
    paragraphs: &[Paragraph],
) -> Result<(), NoMemory>
    ensures { OnOk result (faults.new.found.items ≡ faults.old.found.items ++ faults_at 10 (map (λ one. one.line) (filter (λ one. is_outside_statement one.item) (seen_all statements.now)) ++ map (λ one. one.line) (filter (λ one. is_outside_sentence one.item) (flat_map (λ paragraph. paragraph.sentences) paragraphs.now)))) }
{
    note_outside_statements(faults, statements)?;
    note_outside_in(faults, paragraphs)?;
    Ok(())
}
