//! How often PERFORM does what it does. `depth` parentheses may still open.

ghost use Rattle.std.specs.Prelude.{◌≡◌, Ok};
ghost use Rattle.cob_base.specs.Form.Form.{optional};
ghost use Rattle.cob_base.specs.Form.{opens};
ghost use Rattle.cob_base.specs.StatementPhrases as phrases;
ghost use Rattle.phrase_parser.specs.Reading.{Gives, read, or_no_fit, seen_rest};

use crate::conditions::cond;
use cob_base::{Keyword, Loop, Test, Token, Varying};
use phrase_parser::{PhraseFault, expect, next_is, noise, opens_operand, operand, past, reference};
use std::alloc::Global;

/// When the condition is tested, as a reserved word says.
fn test_of(keyword: Keyword) -> Option<Test>
    ensures { result ≡ phrases.test_of keyword }
{
    match keyword {
        Keyword::Before => Some(Test::Before),
        Keyword::After => Some(Test::After),
        _ => None,
    }
}

/// `[WITH] TEST (BEFORE|AFTER)`
#[tactic(auto, unfolding(cob_base::specs::StatementPhrases::test))]
fn test(words: &[Token]) -> Option<(Test, &[Token])>
    ensures { read phrases.test words.now ≡ or_no_fit (seen_rest result) }
{
    let (_with, rest) = noise(words, Keyword::With);
    let rest = past(rest, Keyword::Test)?;
    match rest {
        [Token::Key(have), rest @ ..] => Some((test_of(*have)?, rest)),
        _ => None,
    }
}

/// `[[WITH] TEST (BEFORE|AFTER)]`, and what follows.
#[tactic(auto, using(crate::proofs::LoopDispatch::opens_test_is))]
fn optional_test(words: &[Token]) -> (Option<Test>, &[Token])
    ensures { read (optional phrases.test) words.now ≡ Ok (result.0, result.1.now) }
{
    match test(words) {
        Some((test, rest)) => (Some(test), rest),
        None => (None, words),
    }
}

/// `operand TIMES`
#[tactic(auto, unfolding(cob_base::specs::StatementPhrases::times))]
fn times(alloc: Global, depth: usize, words: &[Token]) -> Result<(Loop, &[Token]), PhraseFault>
    ensures { Gives (λ x. (x.0, x.1.now)) result (read (phrases.times depth) words.now) }
{
    let (often, rest) = operand(alloc, depth, words)?;
    let rest = expect(rest, Keyword::Times)?;
    Ok((Loop::Times(often), rest))
}

/// `VARYING ref FROM operand BY operand`
#[tactic(auto, unfolding(cob_base::specs::StatementPhrases::varying))]
fn varying(alloc: Global, depth: usize, words: &[Token]) -> Result<(Varying, &[Token]), PhraseFault>
    ensures { Gives (λ x. (x.0, x.1.now)) result (read (phrases.varying depth) words.now) }
{
    let rest = expect(words, Keyword::Varying)?;
    let (item, rest) = reference(alloc, depth, rest)?;
    let rest = expect(rest, Keyword::From)?;
    let (from, rest) = operand(alloc, depth, rest)?;
    let rest = expect(rest, Keyword::By)?;
    let (by, rest) = operand(alloc, depth, rest)?;
    Ok((Varying { item, from, by }, rest))
}

/// `[VARYING ref FROM operand BY operand]`
#[tactic(auto, using(crate::proofs::LoopDispatch::opens_varying_is))]
fn optional_varying(
    alloc: Global,
    depth: usize,
    words: &[Token],
) -> Result<(Option<Varying>, &[Token]), PhraseFault>
    ensures { Gives (λ x. (x.0, x.1.now)) result (read (optional (phrases.varying depth)) words.now) }
{
    if !next_is(words, Keyword::Varying) {
        return Ok((None, words));
    }
    let (varying, rest) = varying(alloc, depth, words)?;
    Ok((Some(varying), rest))
}

/// `[test] UNTIL cond | [test] VARYING ref FROM operand BY operand UNTIL cond`
#[tactic(auto, unfolding(cob_base::specs::StatementPhrases::until))]
fn until(alloc: Global, depth: usize, words: &[Token]) -> Result<(Loop, &[Token]), PhraseFault>
    ensures { Gives (λ x. (x.0, x.1.now)) result (read (phrases.until depth) words.now) }
{
    let (test, rest) = optional_test(words);
    let (varying, rest) = optional_varying(alloc, depth, rest)?;
    let rest = expect(rest, Keyword::Until)?;
    let (condition, rest) = cond(alloc, depth, rest)?;
    Ok((
        Loop::Until {
            test,
            varying,
            condition,
        },
        rest,
    ))
}

/// Whether `operand TIMES` begins here.
#[tactic(auto, using(crate::proofs::LoopDispatch::opens_times_is))]
fn opens_times(depth: usize, words: &[Token]) -> bool
    ensures { result ≡ opens (phrases.times depth) words.now }
{
    opens_operand(words)
}

/// Whether a loop with UNTIL begins here.
#[tactic(auto, using(crate::proofs::LoopDispatch::opens_until_is))]
fn opens_until(depth: usize, words: &[Token]) -> bool
    ensures { result ≡ opens (phrases.until depth) words.now }
{
    test(words).is_some() || next_is(words, Keyword::Varying) || next_is(words, Keyword::Until)
}

/// `operand TIMES | [test] UNTIL cond | [test] VARYING ref FROM operand BY operand UNTIL cond`
#[tactic(auto, unfolding(cob_base::specs::StatementPhrases::repeated))]
fn repeated(alloc: Global, depth: usize, words: &[Token]) -> Result<(Loop, &[Token]), PhraseFault>
    ensures { Gives (λ x. (x.0, x.1.now)) result (read (phrases.repeated depth) words.now) }
{
    if opens_times(depth, words) {
        return times(alloc, depth, words);
    }
    until(alloc, depth, words)
}

/// How often, where that is said.
#[tactic(auto, using(crate::proofs::LoopDispatch::opens_repeated_is))]
pub fn optional_repeated(
    alloc: Global,
    depth: usize,
    words: &[Token],
) -> Result<(Option<Loop>, &[Token]), PhraseFault>
    ensures { Gives (λ x. (x.0, x.1.now)) result (read (optional (phrases.repeated depth)) words.now) }
{
    if !(opens_times(depth, words) || opens_until(depth, words)) {
        return Ok((None, words));
    }
    let (often, rest) = repeated(alloc, depth, words)?;
    Ok((Some(often), rest))
}
