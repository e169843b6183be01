//! Phrases on locks. `depth` parentheses may still open.

ghost use Rattle.std.specs.Prelude.{◌≡◌, Ok};
ghost use Rattle.cob_base.specs.Form.Form.{optional};
ghost use Rattle.cob_base.specs.Form.{opens};
ghost use Rattle.cob_base.specs.StatementPhrases as phrases;
ghost use Rattle.phrase_parser.specs.Reading.{Gives, read, or_no_fit, seen_rest, seen_words};

use cob_base::{Keyword, LockPhrase, Operand, ReadLocking, Retry, Token};
use phrase_parser::{PhraseFault, expect, found, next_is, noise, opens_operand, operand, past};
use std::alloc::Global;

/// Of TIMES and SECONDS, whether it is SECONDS.
fn is_seconds(keyword: Keyword) -> Option<bool>
    ensures { result ≡ phrases.is_seconds keyword }
{
    match keyword {
        Keyword::Times => Some(false),
        Keyword::Seconds => Some(true),
        _ => None,
    }
}

/// `TIMES|SECONDS`
#[tactic(auto, unfolding(cob_base::specs::StatementPhrases::retry_unit))]
fn retry_unit(words: &[Token]) -> Option<(bool, &[Token])>
    ensures { read phrases.retry_unit words.now ≡ or_no_fit (seen_rest result) }
{
    match words {
        [Token::Key(have), rest @ ..] => Some((is_seconds(*have)?, rest)),
        _ => None,
    }
}

fn retried(limit: Operand, seconds: bool) -> Retry
    ensures { result ≡ phrases.retried (limit, seconds) }
{
    if seconds {
        Retry::Seconds(limit)
    } else {
        Retry::Times(limit)
    }
}

/// `operand TIMES | operand SECONDS`
#[tactic(auto, unfolding(cob_base::specs::StatementPhrases::times_or_seconds))]
fn times_or_seconds(
    alloc: Global,
    depth: usize,
    words: &[Token],
) -> Result<(Retry, &[Token]), PhraseFault>
    ensures { Gives (λ x. (x.0, x.1.now)) result (read (phrases.times_or_seconds depth) words.now) }
{
    let (limit, rest) = operand(alloc, depth, words)?;
    let (seconds, rest) = found(retry_unit(rest))?;
    Ok((retried(limit, seconds), rest))
}

#[tactic(auto, using(crate::proofs::LockDispatch::opens_times_or_seconds_is))]
fn opens_times_or_seconds(depth: usize, words: &[Token]) -> bool
    ensures { result ≡ opens (phrases.times_or_seconds depth) words.now }
{
    opens_operand(words)
}

/// `FOR operand SECONDS`
#[tactic(auto, unfolding(cob_base::specs::StatementPhrases::for_seconds))]
fn for_seconds(
    alloc: Global,
    depth: usize,
    words: &[Token],
) -> Result<(Retry, &[Token]), PhraseFault>
    ensures { Gives (λ x. (x.0, x.1.now)) result (read (phrases.for_seconds depth) words.now) }
{
    let rest = expect(words, Keyword::For)?;
    let (limit, rest) = operand(alloc, depth, rest)?;
    let rest = expect(rest, Keyword::Seconds)?;
    Ok((Retry::Seconds(limit), rest))
}

#[tactic(auto, using(crate::proofs::LockDispatch::opens_for_seconds_is))]
fn opens_for_seconds(depth: usize, words: &[Token]) -> bool
    ensures { result ≡ opens (phrases.for_seconds depth) words.now }
{
    next_is(words, Keyword::For)
}

/// `operand TIMES | [FOR] operand SECONDS | FOREVER`
#[tactic(auto, unfolding(cob_base::specs::StatementPhrases::retry_rest))]
fn retry_rest(
    alloc: Global,
    depth: usize,
    words: &[Token],
) -> Result<(Retry, &[Token]), PhraseFault>
    ensures { Gives (λ x. (x.0, x.1.now)) result (read (phrases.retry_rest depth) words.now) }
{
    if opens_times_or_seconds(depth, words) {
        return times_or_seconds(alloc, depth, words);
    }
    if opens_for_seconds(depth, words) {
        return for_seconds(alloc, depth, words);
    }
    let rest = expect(words, Keyword::Forever)?;
    Ok((Retry::Forever, rest))
}

/// `RETRY (operand TIMES | [FOR] operand SECONDS | FOREVER)`
#[tactic(auto, unfolding(cob_base::specs::StatementPhrases::retry))]
fn retry(alloc: Global, depth: usize, words: &[Token]) -> Result<(Retry, &[Token]), PhraseFault>
    ensures { Gives (λ x. (x.0, x.1.now)) result (read (phrases.retry depth) words.now) }
{
    let rest = expect(words, Keyword::Retry)?;
    retry_rest(alloc, depth, rest)
}

/// `[retry]`
#[tactic(auto, using(crate::proofs::LockDispatch::opens_retry_is))]
pub fn optional_retry(
    alloc: Global,
    depth: usize,
    words: &[Token],
) -> Result<(Option<Retry>, &[Token]), PhraseFault>
    ensures { Gives (λ x. (x.0, x.1.now)) result (read (optional (phrases.retry depth)) words.now) }
{
    if !next_is(words, Keyword::Retry) {
        return Ok((None, words));
    }
    let (found, rest) = retry(alloc, depth, words)?;
    Ok((Some(found), rest))
}

/// `ADVANCING [ON] LOCK`
#[tactic(auto, unfolding(cob_base::specs::StatementPhrases::advancing))]
fn advancing(words: &[Token]) -> Option<&[Token]>
    ensures { read phrases.advancing words.now ≡ or_no_fit (seen_words result) }
{
    let rest = past(words, Keyword::Advancing)?;
    let (_on, rest) = noise(rest, Keyword::On);
    past(rest, Keyword::Lock)
}

/// `IGNORING LOCK`
#[tactic(auto, unfolding(cob_base::specs::StatementPhrases::ignoring))]
fn ignoring(words: &[Token]) -> Option<&[Token]>
    ensures { read phrases.ignoring words.now ≡ or_no_fit (seen_words result) }
{
    let rest = past(words, Keyword::Ignoring)?;
    past(rest, Keyword::Lock)
}

/// `ADVANCING [ON] LOCK | IGNORING LOCK | retry`
#[tactic(auto, unfolding(cob_base::specs::StatementPhrases::locking), using(crate::proofs::LockDispatch::opens_advancing_is, crate::proofs::LockDispatch::opens_ignoring_is))]
fn locking(
    alloc: Global,
    depth: usize,
    words: &[Token],
) -> Result<(ReadLocking, &[Token]), PhraseFault>
    ensures { Gives (λ x. (x.0, x.1.now)) result (read (phrases.locking depth) words.now) }
{
    if let Some(rest) = advancing(words) {
        return Ok((ReadLocking::Advancing, rest));
    }
    if let Some(rest) = ignoring(words) {
        return Ok((ReadLocking::Ignoring, rest));
    }
    let (found, rest) = retry(alloc, depth, words)?;
    Ok((ReadLocking::Retry(found), rest))
}

#[tactic(auto, using(crate::proofs::LockDispatch::opens_locking_is))]
fn opens_locking(depth: usize, words: &[Token]) -> bool
    ensures { result ≡ opens (phrases.locking depth) words.now }
{
    advancing(words).is_some() || ignoring(words).is_some() || next_is(words, Keyword::Retry)
}

/// `[ADVANCING [ON] LOCK | IGNORING LOCK | retry]`
pub fn optional_locking(
    alloc: Global,
    depth: usize,
    words: &[Token],
) -> Result<(Option<ReadLocking>, &[Token]), PhraseFault>
    ensures { Gives (λ x. (x.0, x.1.now)) result (read (optional (phrases.locking depth)) words.now) }
{
    if !opens_locking(depth, words) {
        return Ok((None, words));
    }
    let (found, rest) = locking(alloc, depth, words)?;
    Ok((Some(found), rest))
}

/// `NO LOCK`
#[tactic(auto, unfolding(cob_base::specs::StatementPhrases::no_lock))]
fn no_lock(words: &[Token]) -> Option<&[Token]>
    ensures { read phrases.no_lock words.now ≡ or_no_fit (seen_words result) }
{
    let rest = past(words, Keyword::No)?;
    past(rest, Keyword::Lock)
}

/// `NO LOCK | LOCK`
#[tactic(auto, unfolding(cob_base::specs::StatementPhrases::lock_or_not), using(crate::proofs::LockDispatch::opens_no_lock_is))]
fn lock_or_not(words: &[Token]) -> Option<(LockPhrase, &[Token])>
    ensures { read phrases.lock_or_not words.now ≡ or_no_fit (seen_rest result) }
{
    if let Some(rest) = no_lock(words) {
        return Some((LockPhrase::NoLock, rest));
    }
    let rest = past(words, Keyword::Lock)?;
    Some((LockPhrase::Lock, rest))
}

/// `[WITH] [NO] LOCK`
#[tactic(auto, unfolding(cob_base::specs::StatementPhrases::lock))]
fn lock(words: &[Token]) -> Option<(LockPhrase, &[Token])>
    ensures { read phrases.lock words.now ≡ or_no_fit (seen_rest result) }
{
    let (_with, rest) = noise(words, Keyword::With);
    lock_or_not(rest)
}

/// `[[WITH] [NO] LOCK]`, and what follows.
#[tactic(auto, using(crate::proofs::LockDispatch::opens_lock_is))]
pub fn optional_lock(words: &[Token]) -> (Option<LockPhrase>, &[Token])
    ensures { read (optional phrases.lock) words.now ≡ Ok (result.0, result.1.now) }
{
    match lock(words) {
        Some((lock, rest)) => (Some(lock), rest),
        None => (None, words),
    }
}
