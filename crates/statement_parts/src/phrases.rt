ghost use Rattle.std.specs.Prelude.{◌≡◌, ◌++◌, IfOk, OnOk, option_to_list};
ghost use Rattle.std.specs.List.{flat_map};
ghost use Rattle.std.specs.Option.{option_copied};
ghost use Rattle.statement_parts.specs.Phrases.{loop_of, times_of, varying_of, until_in, condition_of, tests_of, retry_of_phrase, retry_of_locking, retries_of};
ghost use Rattle.statement_parts.specs.Seen.{seen_all};

use crate::leaves::add_simple;
use cob_base::{Cond, Loop, NoMemory, OpenPhrase, Operand, ReadLocking, Retry, Statement, Varying};
use std::alloc::Global;

/// How often a PERFORM does what it does, where that is said.
fn loop_of(statement: &Statement) -> Option<&Loop>
    ensures { option_copied result ≡ loop_of statement.now }
{
    match statement {
        Statement::PerformParagraphs { repeated, .. } => repeated.as_ref(),
        Statement::PerformInline { repeated, .. } => repeated.as_ref(),
        _ => None,
    }
}

/// The number before TIMES of a PERFORM.
pub fn times_of(statement: &Statement) -> Option<&Operand>
    ensures { option_to_list (option_copied result) ≡ times_of statement.now }
{
    match loop_of(statement) {
        Some(Loop::Times(number)) => Some(number),
        Some(Loop::Until { .. }) => None,
        None => None,
    }
}

/// VARYING of a PERFORM.
pub fn varying_of(statement: &Statement) -> Option<&Varying>
    ensures { option_to_list (option_copied result) ≡ varying_of statement.now }
{
    match loop_of(statement) {
        Some(Loop::Until { varying, .. }) => varying.as_ref(),
        Some(Loop::Times(_)) => None,
        None => None,
    }
}

fn until_of(repeated: &Option<Loop>) -> Option<&Cond>
    ensures { option_to_list (option_copied result) ≡ until_in repeated.now }
{
    match repeated {
        Some(Loop::Until { condition, .. }) => Some(condition),
        Some(Loop::Times(_)) => None,
        None => None,
    }
}

/// The condition of an IF or of a loop.
pub fn condition_of(statement: &Statement) -> Option<&Cond>
    ensures { option_to_list (option_copied result) ≡ condition_of statement.now }
{
    match statement {
        Statement::If { condition, .. } => Some(condition),
        Statement::PerformParagraphs { repeated, .. } => until_of(repeated),
        Statement::PerformInline { repeated, .. } => until_of(repeated),
        _ => None,
    }
}

/// The simple conditions that a statement tests.
pub fn tests_of<'a>(alloc: Global, statement: &'a Statement) -> Result<Vec<&'a Cond>, NoMemory>
    ensures { IfOk result (λ made. seen_all made.items ≡ tests_of statement.entry.now) }
{
    let mut tests = Vec::new(alloc);
    if let Some(condition) = condition_of(statement) {
        add_simple(&mut tests, condition)?;
    }
    Ok(tests)
}

fn add_retry<'a>(all: &mut Vec<&'a Retry>, retry: &'a Option<Retry>) -> Result<(), NoMemory>
    ensures { OnOk result (seen_all all.exit.now.items ≡ seen_all all.entry.now.items ++ option_to_list retry.entry.now) }
{
    if let Some(retry) = retry {
        all.push(retry)?;
    }
    Ok(())
}

fn add_locking<'a>(
    all: &mut Vec<&'a Retry>,
    locking: &'a Option<ReadLocking>,
) -> Result<(), NoMemory>
    ensures { OnOk result (seen_all all.exit.now.items ≡ seen_all all.entry.now.items ++ retry_of_locking locking.entry.now) }
{
    if let Some(ReadLocking::Retry(retry)) = locking {
        all.push(retry)?;
    }
    Ok(())
}

fn add_open<'a>(all: &mut Vec<&'a Retry>, phrases: &'a [OpenPhrase]) -> Result<(), NoMemory>
    ensures { OnOk result (seen_all all.exit.now.items ≡ seen_all all.entry.now.items ++ flat_map retry_of_phrase phrases.entry.now) }
{
    for phrase in phrases {
        if let OpenPhrase::Files { retry, .. } = phrase {
            add_retry(all, retry)?;
        }
    }
    Ok(())
}

fn add_retries<'a>(all: &mut Vec<&'a Retry>, statement: &'a Statement) -> Result<(), NoMemory>
    ensures { OnOk result (seen_all all.exit.now.items ≡ seen_all all.entry.now.items ++ retries_of statement.entry.now) }
{
    match statement {
        Statement::Open(phrases) => add_open(all, phrases.as_slice()),
        Statement::Read { locking, .. } => add_locking(all, locking),
        Statement::Write { retry, .. } => add_retry(all, retry),
        Statement::Rewrite { retry, .. } => add_retry(all, retry),
        Statement::Delete { retry, .. } => add_retry(all, retry),
        _ => Ok(()),
    }
}

/// The RETRY phrases of a statement.
pub fn retries_of<'a>(alloc: Global, statement: &'a Statement) -> Result<Vec<&'a Retry>, NoMemory>
    ensures { IfOk result (λ made. seen_all made.items ≡ retries_of statement.entry.now) }
{
    let mut retries = Vec::new(alloc);
    add_retries(&mut retries, statement)?;
    Ok(retries)
}
