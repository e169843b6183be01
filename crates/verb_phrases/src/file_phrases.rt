//! Phrases of the statements on files. `depth` parentheses may still open.

ghost use Rattle.std.specs.Prelude.{◌≡◌, Ok};
ghost use Rattle.cob_base.specs.Form.Form.{optional, some};
ghost use Rattle.cob_base.specs.Form.{opens, is_there};
ghost use Rattle.cob_base.specs.Phrases as shared;
ghost use Rattle.cob_base.specs.StatementPhrases as phrases;
ghost use Rattle.cob_base.specs.Statements as grammar;
ghost use Rattle.phrase_parser.specs.Reading.{Gives, read, or_no_fit, seen_rest, seen_words};

use crate::locks::optional_retry;
use cob_base::{
    ByteText, Direction, Items, Keyword, OpenMode, OpenPhrase, Operand, Reference, Sharing,
    StartPlace, Token,
};
use condition_parser::relation;
use phrase_parser::{
    PhraseFault, expect, found, from_stop, name, next_is, no_fit, noise, opens_name, operand, past,
    reference, sharing, some,
};
use std::alloc::Global;

fn name_in(
    alloc: Global,
    _depth: usize,
    words: &[Token],
) -> Result<(ByteText, &[Token]), PhraseFault>
    ensures { Gives (λ x. (x.0, x.1.now)) result (read shared.name words.now) }
{
    name(alloc, words)
}

fn name_comes_next(words: &[Token]) -> bool
    ensures { result ≡ opens shared.name words.now }
{
    opens_name(words)
}

/// `name+`
pub fn names(alloc: Global, words: &[Token]) -> Result<(Items<ByteText>, &[Token]), PhraseFault>
    ensures { Gives (λ x. (x.0, x.1.now)) result (read (some shared.name) words.now) }
{
    some(alloc, 0, &name_comes_next, &name_in, words)
}

// ---- what OPEN opens

/// The mode that a reserved word is.
fn mode_of(keyword: Keyword) -> Option<OpenMode>
    ensures { result ≡ phrases.mode_of keyword }
{
    match keyword {
        Keyword::Input => Some(OpenMode::Input),
        Keyword::Output => Some(OpenMode::Output),
        Keyword::InputOutputMode => Some(OpenMode::InputOutput),
        _ => None,
    }
}

/// `INPUT | OUTPUT | I-O`
#[tactic(auto, unfolding(cob_base::specs::StatementPhrases::mode))]
fn mode(words: &[Token]) -> Option<(OpenMode, &[Token])>
    ensures { read phrases.mode words.now ≡ or_no_fit (seen_rest result) }
{
    match words {
        [Token::Key(have), rest @ ..] => Some((mode_of(*have)?, rest)),
        _ => None,
    }
}

/// `SHARING [WITH] sharing`
#[tactic(auto, unfolding(cob_base::specs::StatementPhrases::sharing_phrase))]
fn sharing_phrase(words: &[Token]) -> Option<(Sharing, &[Token])>
    ensures { read phrases.sharing_phrase words.now ≡ or_no_fit (seen_rest result) }
{
    let rest = past(words, Keyword::Sharing)?;
    let (_with, rest) = noise(rest, Keyword::With);
    sharing(rest)
}

/// `[SHARING [WITH] sharing]`
#[tactic(auto, using(crate::proofs::FileDispatch::opens_sharing_phrase_is))]
fn optional_sharing_phrase(words: &[Token]) -> Result<(Option<Sharing>, &[Token]), PhraseFault>
    ensures { Gives (λ x. (x.0, x.1.now)) result (read (optional phrases.sharing_phrase) words.now) }
{
    if !next_is(words, Keyword::Sharing) {
        return Ok((None, words));
    }
    let (shared, rest) = found(sharing_phrase(words))?;
    Ok((Some(shared), rest))
}

/// `mode [SHARING [WITH] sharing] [retry] name+`
#[tactic(auto, unfolding(cob_base::specs::StatementPhrases::opened_files))]
fn opened_files(
    alloc: Global,
    depth: usize,
    words: &[Token],
) -> Result<(OpenPhrase, &[Token]), PhraseFault>
    ensures { Gives (λ x. (x.0, x.1.now)) result (read (phrases.opened_files depth) words.now) }
{
    let (mode, rest) = found(mode(words))?;
    let (sharing, rest) = optional_sharing_phrase(rest)?;
    let (retry, rest) = optional_retry(alloc, depth, rest)?;
    let (files, rest) = names(alloc, rest)?;
    Ok((
        OpenPhrase::Files {
            mode,
            sharing,
            retry,
            files,
        },
        rest,
    ))
}

#[tactic(auto, using(crate::proofs::FileDispatch::opens_opened_files_is))]
fn opens_opened_files(depth: usize, words: &[Token]) -> bool
    ensures { result ≡ opens (phrases.opened_files depth) words.now }
{
    mode(words).is_some()
}

/// An outside mode, with all words up to the period.
#[tactic(auto, unfolding(cob_base::specs::StatementPhrases::outside_mode))]
fn outside_mode(words: &[Token]) -> Option<&[Token]>
    ensures { read phrases.outside_mode words.now ≡ or_no_fit (seen_words result) }
{
    let rest = past(words, Keyword::Extend)?;
    Some(from_stop(rest))
}

/// A phrase of OPEN.
#[tactic(auto, unfolding(cob_base::specs::StatementPhrases::open_phrase))]
fn open_phrase(
    alloc: Global,
    depth: usize,
    words: &[Token],
) -> Result<(OpenPhrase, &[Token]), PhraseFault>
    ensures { Gives (λ x. (x.0, x.1.now)) result (read (phrases.open_phrase depth) words.now) }
{
    if opens_opened_files(depth, words) {
        return opened_files(alloc, depth, words);
    }
    match outside_mode(words) {
        Some(rest) => Ok((OpenPhrase::Outside, rest)),
        None => Err(no_fit()),
    }
}

/// Whether a phrase of OPEN comes next.
#[tactic(auto, using(crate::proofs::FileDispatch::opens_open_phrase_is))]
fn opens_open_phrase(words: &[Token]) -> bool
    ensures { (depth : _) → result ≡ opens (phrases.open_phrase depth) words.now }
{
    mode(words).is_some() || next_is(words, Keyword::Extend)
}

// ---- which record

/// The phrases of OPEN.
pub fn open_phrases(
    alloc: Global,
    depth: usize,
    words: &[Token],
) -> Result<(Items<OpenPhrase>, &[Token]), PhraseFault>
    ensures { Gives (λ x. (x.0, x.1.now)) result (read (some (phrases.open_phrase depth)) words.now) }
{
    some(alloc, depth, &opens_open_phrase, &open_phrase, words)
}

/// The direction that a reserved word is.
fn direction_of(keyword: Keyword) -> Option<Direction>
    ensures { result ≡ phrases.direction_of keyword }
{
    match keyword {
        Keyword::Next => Some(Direction::Next),
        Keyword::Previous => Some(Direction::Previous),
        _ => None,
    }
}

/// `NEXT|PREVIOUS`
#[tactic(auto, unfolding(cob_base::specs::StatementPhrases::direction))]
fn direction(words: &[Token]) -> Option<(Direction, &[Token])>
    ensures { read phrases.direction words.now ≡ or_no_fit (seen_rest result) }
{
    match words {
        [Token::Key(have), rest @ ..] => Some((direction_of(*have)?, rest)),
        _ => None,
    }
}

/// `[NEXT|PREVIOUS]`, and what follows.
#[tactic(auto, using(crate::proofs::FileDispatch::opens_direction_is))]
pub fn optional_direction(words: &[Token]) -> (Option<Direction>, &[Token])
    ensures { read (optional phrases.direction) words.now ≡ Ok (result.0, result.1.now) }
{
    match direction(words) {
        Some((direction, rest)) => (Some(direction), rest),
        None => (None, words),
    }
}

/// `KEY [IS] ref`
#[tactic(auto, unfolding(cob_base::specs::StatementPhrases::by_key))]
fn by_key(
    alloc: Global,
    depth: usize,
    words: &[Token],
) -> Result<(Reference, &[Token]), PhraseFault>
    ensures { Gives (λ x. (x.0, x.1.now)) result (read (phrases.by_key depth) words.now) }
{
    let rest = expect(words, Keyword::Key)?;
    let (_is, rest) = noise(rest, Keyword::Is);
    reference(alloc, depth, rest)
}

/// `[KEY [IS] ref]`
#[tactic(auto, using(crate::proofs::FileDispatch::opens_by_key_is))]
pub fn optional_by_key(
    alloc: Global,
    depth: usize,
    words: &[Token],
) -> Result<(Option<Reference>, &[Token]), PhraseFault>
    ensures { Gives (λ x. (x.0, x.1.now)) result (read (optional (phrases.by_key depth)) words.now) }
{
    if !next_is(words, Keyword::Key) {
        return Ok((None, words));
    }
    let (key, rest) = by_key(alloc, depth, words)?;
    Ok((Some(key), rest))
}

/// `INTO ref`
#[tactic(auto, unfolding(cob_base::specs::StatementPhrases::into))]
fn into(alloc: Global, depth: usize, words: &[Token]) -> Result<(Reference, &[Token]), PhraseFault>
    ensures { Gives (λ x. (x.0, x.1.now)) result (read (phrases.into depth) words.now) }
{
    let rest = expect(words, Keyword::Into)?;
    reference(alloc, depth, rest)
}

/// `[INTO ref]`
#[tactic(auto, using(crate::proofs::FileDispatch::opens_into_is))]
pub fn optional_into(
    alloc: Global,
    depth: usize,
    words: &[Token],
) -> Result<(Option<Reference>, &[Token]), PhraseFault>
    ensures { Gives (λ x. (x.0, x.1.now)) result (read (optional (phrases.into depth)) words.now) }
{
    if !next_is(words, Keyword::Into) {
        return Ok((None, words));
    }
    let (item, rest) = into(alloc, depth, words)?;
    Ok((Some(item), rest))
}

/// `FROM operand`
#[tactic(auto, unfolding(cob_base::specs::StatementPhrases::from))]
fn from(alloc: Global, depth: usize, words: &[Token]) -> Result<(Operand, &[Token]), PhraseFault>
    ensures { Gives (λ x. (x.0, x.1.now)) result (read (phrases.from depth) words.now) }
{
    let rest = expect(words, Keyword::From)?;
    operand(alloc, depth, rest)
}

/// `[FROM operand]`
#[tactic(auto, using(crate::proofs::FileDispatch::opens_from_is))]
pub fn optional_from(
    alloc: Global,
    depth: usize,
    words: &[Token],
) -> Result<(Option<Operand>, &[Token]), PhraseFault>
    ensures { Gives (λ x. (x.0, x.1.now)) result (read (optional (phrases.from depth)) words.now) }
{
    if !next_is(words, Keyword::From) {
        return Ok((None, words));
    }
    let (value, rest) = from(alloc, depth, words)?;
    Ok((Some(value), rest))
}

/// `KEY [IS] [NOT] relation ref`
#[tactic(auto, unfolding(cob_base::specs::StatementPhrases::key_relation))]
fn key_relation(
    alloc: Global,
    depth: usize,
    words: &[Token],
) -> Result<(StartPlace, &[Token]), PhraseFault>
    ensures { Gives (λ x. (x.0, x.1.now)) result (read (phrases.key_relation depth) words.now) }
{
    let rest = expect(words, Keyword::Key)?;
    let (_is, rest) = noise(rest, Keyword::Is);
    let (negated, rest) = noise(rest, Keyword::Not);
    let (relation, rest) = found(relation(rest))?;
    let (key, rest) = reference(alloc, depth, rest)?;
    Ok((
        StartPlace::Key {
            negated,
            relation,
            key,
        },
        rest,
    ))
}

/// `FIRST|LAST|KEY [IS] [NOT] relation ref`
#[tactic(auto, unfolding(cob_base::specs::StatementPhrases::place))]
fn place(
    alloc: Global,
    depth: usize,
    words: &[Token],
) -> Result<(StartPlace, &[Token]), PhraseFault>
    ensures { Gives (λ x. (x.0, x.1.now)) result (read (phrases.place depth) words.now) }
{
    if let Some(rest) = past(words, Keyword::First) {
        return Ok((StartPlace::First, rest));
    }
    if let Some(rest) = past(words, Keyword::Last) {
        return Ok((StartPlace::Last, rest));
    }
    key_relation(alloc, depth, words)
}

#[tactic(auto, using(crate::proofs::FileDispatch::opens_place_is))]
fn opens_place(depth: usize, words: &[Token]) -> bool
    ensures { result ≡ opens (phrases.place depth) words.now }
{
    next_is(words, Keyword::First) || next_is(words, Keyword::Last) || next_is(words, Keyword::Key)
}

/// `[FIRST|LAST|KEY [IS] [NOT] relation ref]`
pub fn optional_place(
    alloc: Global,
    depth: usize,
    words: &[Token],
) -> Result<(Option<StartPlace>, &[Token]), PhraseFault>
    ensures { Gives (λ x. (x.0, x.1.now)) result (read (optional (phrases.place depth)) words.now) }
{
    if !opens_place(depth, words) {
        return Ok((None, words));
    }
    let (place, rest) = place(alloc, depth, words)?;
    Ok((Some(place), rest))
}

/// Whether a reserved word is RECORD or RECORDS.
fn is_record_word(keyword: Keyword) -> bool
    ensures { result ≡ is_there (shared.record_or_records keyword) }
{
    match keyword {
        Keyword::Record => true,
        Keyword::Records => true,
        _ => false,
    }
}

/// `[RECORD|RECORDS]`, and what follows.
#[tactic(auto, unfolding(cob_base::specs::Statements::record_word))]
pub fn optional_record_word(words: &[Token]) -> (Option<()>, &[Token])
    ensures { read (optional grammar.record_word) words.now ≡ Ok (result.0, result.1.now) }
{
    match words {
        [Token::Key(have), rest @ ..] if is_record_word(*have) => (Some(()), rest),
        _ => (None, words),
    }
}
