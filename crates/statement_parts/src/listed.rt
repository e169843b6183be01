ghost use Rattle.std.specs.Prelude.{◌≡◌, ◌++◌, IfOk, OnOk};
ghost use Rattle.std.specs.List.{flat_map};
ghost use Rattle.statement_parts.specs.Statements.{inside, with_inner, in_sentence, in_paragraph, statements};
ghost use Rattle.statement_parts.specs.Lists.{written, in_lists};
ghost use Rattle.statement_parts.specs.Seen.{seen_all};

use cob_base::{ConditionalPhrases, Items, Located, NoMemory, Paragraph, Sentence, Statement};
use std::alloc::Global;

/// All statements of paragraphs, at any depth, in the order of the text.
pub fn all_statements<'a>(
    alloc: Global,
    paragraphs: &'a [Paragraph],
) -> Result<Vec<&'a Located<Statement>>, NoMemory>
    ensures { IfOk result (λ made. seen_all made.items ≡ statements paragraphs.entry.now) }
{
    let mut all = Vec::new(alloc);
    for paragraph in paragraphs {
        add_paragraph(&mut all, paragraph)?;
    }
    Ok(all)
}

/// All statements of a paragraph, at any depth, in the order of the text.
pub fn statements_of<'a>(
    alloc: Global,
    paragraph: &'a Paragraph,
) -> Result<Vec<&'a Located<Statement>>, NoMemory>
    ensures { IfOk result (λ made. seen_all made.items ≡ in_paragraph paragraph.entry.now) }
{
    let mut all = Vec::new(alloc);
    add_paragraph(&mut all, paragraph)?;
    Ok(all)
}

fn add_paragraph<'a>(
    all: &mut Vec<&'a Located<Statement>>,
    paragraph: &'a Paragraph,
) -> Result<(), NoMemory>
    ensures { OnOk result (seen_all all.exit.now.items ≡ seen_all all.entry.now.items ++ in_paragraph paragraph.entry.now) }
{
    for sentence in paragraph.sentences.as_slice() {
        add_sentence(all, &sentence.item)?;
    }
    Ok(())
}

fn add_sentence<'a>(
    all: &mut Vec<&'a Located<Statement>>,
    sentence: &'a Sentence,
) -> Result<(), NoMemory>
    ensures { OnOk result (seen_all all.exit.now.items ≡ seen_all all.entry.now.items ++ in_sentence sentence.entry.now) }
{
    match sentence {
        Sentence::Statements(statements) => add_all(all, statements.as_slice()),
        Sentence::Outside => Ok(()),
    }
}

/// Each of these statements, followed by those inside it.
#[cycle(statements)]
fn add_all<'a>(
    all: &mut Vec<&'a Located<Statement>>,
    statements: &'a [Located<Statement>],
) -> Result<(), NoMemory>
    ensures { OnOk result (seen_all all.exit.now.items ≡ seen_all all.entry.now.items ++ with_inner statements.entry.now) }
{
    for one in statements {
        all.push(one)?;
        add_lists(all, lists_in(&one.item))?;
    }
    Ok(())
}

/// The statements of these lists, each followed by those inside it.
#[cycle(statements)]
fn add_lists<'a>(
    all: &mut Vec<&'a Located<Statement>>,
    lists: [&'a [Located<Statement>]; 4],
) -> Result<(), NoMemory>
    ensures { OnOk result (seen_all all.exit.now.items ≡ seen_all all.entry.now.items ++ in_lists lists.entry) }
{
    for list in lists {
        add_all(all, list)?;
    }
    Ok(())
}

/// The statements of a phrase that may not have been written.
fn written(phrase: &Option<Items<Located<Statement>>>) -> &[Located<Statement>]
    ensures { result.now ≡ written phrase.now }
{
    match phrase {
        Some(statements) => statements.as_slice(),
        None => &[],
    }
}

fn one_list(first: &[Located<Statement>]) -> [&[Located<Statement>]; 4]
    ensures { in_lists result ≡ with_inner first.now }
{
    two_lists(first, &[])
}

fn two_lists<'a>(
    first: &'a [Located<Statement>],
    second: &'a [Located<Statement>],
) -> [&'a [Located<Statement>]; 4]
    ensures { in_lists result ≡ with_inner first.now ++ with_inner second.now }
{
    [first, second, &[], &[]]
}

/// Those of a phrase and of its NOT phrase.
fn of_phrases(phrases: &ConditionalPhrases<Located<Statement>>) -> [&[Located<Statement>]; 4]
    ensures { in_lists result ≡ with_inner (written phrases.now.on) ++ with_inner (written phrases.now.not_on) }
{
    two_lists(written(&phrases.on), written(&phrases.not_on))
}

fn of_read<'a>(
    at_end: &'a ConditionalPhrases<Located<Statement>>,
    invalid_key: &'a ConditionalPhrases<Located<Statement>>,
) -> [&'a [Located<Statement>]; 4]
    ensures { in_lists result ≡ with_inner (written at_end.now.on) ++ with_inner (written at_end.now.not_on) ++ with_inner (written invalid_key.now.on) ++ with_inner (written invalid_key.now.not_on) }
{
    [
        written(&at_end.on),
        written(&at_end.not_on),
        written(&invalid_key.on),
        written(&invalid_key.not_on),
    ]
}

/// The lists of statements right inside a statement, in the order of the text. READ has up to four; those that are not there
/// are empty.
fn lists_in(statement: &Statement) -> [&[Located<Statement>]; 4]
    ensures { in_lists result ≡ inside statement.now }
{
    match statement {
        Statement::Add { size_error, .. } => of_phrases(size_error),
        Statement::AddGiving { size_error, .. } => of_phrases(size_error),
        Statement::Subtract { size_error, .. } => of_phrases(size_error),
        Statement::SubtractGiving { size_error, .. } => of_phrases(size_error),
        Statement::Multiply { size_error, .. } => of_phrases(size_error),
        Statement::MultiplyGiving { size_error, .. } => of_phrases(size_error),
        Statement::Divide { size_error, .. } => of_phrases(size_error),
        Statement::DivideGiving { size_error, .. } => of_phrases(size_error),
        Statement::Compute { size_error, .. } => of_phrases(size_error),
        Statement::If { first, other, .. } => two_lists(first.as_slice(), written(other)),
        Statement::PerformInline { body, .. } => one_list(body.as_slice()),
        Statement::Read {
            at_end,
            invalid_key,
            ..
        } => of_read(at_end, invalid_key),
        Statement::Start { invalid_key, .. } => of_phrases(invalid_key),
        Statement::Write { invalid_key, .. } => of_phrases(invalid_key),
        Statement::Rewrite { invalid_key, .. } => of_phrases(invalid_key),
        Statement::Delete { invalid_key, .. } => of_phrases(invalid_key),
        Statement::Accept { exception, .. } => of_phrases(exception),
        Statement::Move { .. }
        | Statement::PerformParagraphs { .. }
        | Statement::Open(_)
        | Statement::Close(_)
        | Statement::Unlock(_)
        | Statement::Display(_)
        | Statement::Continue
        | Statement::Exit
        | Statement::StopRun
        | Statement::Outside => one_list(&[]),
    }
}
