//! The clauses of data description entries.

ghost use Rattle.std.specs.Prelude.{◌≡◌, ◌||◌, Ok};
ghost use Rattle.cob_base.specs.Form.Form.{optional};
ghost use Rattle.cob_base.specs.Form.{opens, is_there};
ghost use Rattle.cob_base.specs.DataEntries as entries;
ghost use Rattle.phrase_parser.specs.Reading.{Gives, read, or_no_fit, seen_rest, seen_words};

use cob_base::{ByteText, ItemClause, Keyword, SignSide, Token, Verb};
use phrase_parser::{
    PhraseFault, constant, expect, found, from_stop, int, next_is, no_fit, noise, past,
};
use std::alloc::Global;

/// `(PIC|PICTURE) [IS] picture`
#[tactic(auto, unfolding(cob_base::specs::DataEntries::picture))]
pub fn picture(alloc: Global, words: &[Token]) -> Result<(ByteText, &[Token]), PhraseFault>
    ensures { Gives (λ x. (x.0, x.1.now)) result (read entries.picture words.now) }
{
    let rest = expect(words, Keyword::Picture)?;
    let (_is, rest) = noise(rest, Keyword::Is);
    match rest {
        [Token::Picture(picture), rest @ ..] => Ok((picture.copy(alloc)?, rest)),
        _ => Err(no_fit()),
    }
}

#[tactic(auto, unfolding(cob_base::specs::DataEntries::picture_clause))]
fn picture_clause(alloc: Global, words: &[Token]) -> Result<(ItemClause, &[Token]), PhraseFault>
    ensures { Gives (λ x. (x.0, x.1.now)) result (read entries.picture_clause words.now) }
{
    let (picture, rest) = picture(alloc, words)?;
    Ok((ItemClause::Picture(picture), rest))
}

#[tactic(auto, using(crate::proofs::DataDispatch::opens_picture_is))]
fn opens_picture(words: &[Token]) -> bool
    ensures { result ≡ opens entries.picture_clause words.now }
{
    next_is(words, Keyword::Picture)
}

/// Whether a reserved word begins a clause that is read and refused.
fn is_outside(keyword: Keyword) -> bool
    ensures { result ≡ is_there (entries.outside_item_word keyword) }
{
    match keyword {
        Keyword::Blank => true,
        Keyword::Global => true,
        Keyword::Indexed => true,
        Keyword::To => true,
        Keyword::OutsideItemWord => true,
        _ => false,
    }
}

/// `USAGE [IS]`
#[tactic(auto, unfolding(cob_base::specs::DataEntries::usage_words))]
fn usage_words(words: &[Token]) -> Option<(bool, &[Token])>
    ensures { read entries.usage_words words.now ≡ or_no_fit (seen_rest result) }
{
    let rest = past(words, Keyword::Usage)?;
    Some(noise(rest, Keyword::Is))
}

/// `[USAGE [IS]]`, and what follows.
#[tactic(auto, using(crate::proofs::DataDispatch::opens_usage_words_is))]
fn optional_usage_words(words: &[Token]) -> (Option<bool>, &[Token])
    ensures { read (optional entries.usage_words) words.now ≡ Ok (result.0, result.1.now) }
{
    match usage_words(words) {
        Some((is, rest)) => (Some(is), rest),
        None => (None, words),
    }
}

/// `DISPLAY|outside`
#[tactic(auto, unfolding(cob_base::specs::DataEntries::display_or_outside, cob_base::specs::DataEntries::outside_item))]
fn display_or_outside(words: &[Token]) -> Option<(ItemClause, &[Token])>
    ensures { read entries.display_or_outside words.now ≡ or_no_fit (seen_rest result) }
{
    match words {
        [Token::Verb(Verb::Display, _), rest @ ..] => Some((ItemClause::Display, rest)),
        [Token::Key(have), rest @ ..] if is_outside(*have) => Some((
            ItemClause::Outside,
            from_stop(rest),
        )),
        _ => None,
    }
}

/// `[USAGE [IS]] (DISPLAY|outside)`
#[tactic(auto, unfolding(cob_base::specs::DataEntries::usage))]
fn usage(words: &[Token]) -> Option<(ItemClause, &[Token])>
    ensures { read entries.usage words.now ≡ or_no_fit (seen_rest result) }
{
    let (_words, rest) = optional_usage_words(words);
    display_or_outside(rest)
}

#[tactic(auto, using(crate::proofs::DataDispatch::opens_usage_is))]
fn opens_usage(words: &[Token]) -> bool
    ensures { result ≡ opens entries.usage words.now }
{
    usage(words).is_some()
}

/// `VALUE [IS] constant`
#[tactic(auto, unfolding(cob_base::specs::DataEntries::value))]
fn value(alloc: Global, words: &[Token]) -> Result<(ItemClause, &[Token]), PhraseFault>
    ensures { Gives (λ x. (x.0, x.1.now)) result (read entries.value words.now) }
{
    let rest = expect(words, Keyword::Value)?;
    let (_is, rest) = noise(rest, Keyword::Is);
    let (value, rest) = constant(alloc, rest)?;
    Ok((ItemClause::Value(value), rest))
}

#[tactic(auto, using(crate::proofs::DataDispatch::opens_value_is))]
fn opens_value(words: &[Token]) -> bool
    ensures { result ≡ opens entries.value words.now }
{
    next_is(words, Keyword::Value)
}

/// `OCCURS int [TIMES]`
#[tactic(auto, unfolding(cob_base::specs::DataEntries::occurs))]
fn occurs(words: &[Token]) -> Result<(ItemClause, &[Token]), PhraseFault>
    ensures { Gives (λ x. (x.0, x.1.now)) result (read entries.occurs words.now) }
{
    let rest = expect(words, Keyword::Occurs)?;
    let (times, rest) = int(rest)?;
    let (_times, rest) = noise(rest, Keyword::Times);
    Ok((ItemClause::Occurs(times), rest))
}

#[tactic(auto, using(crate::proofs::DataDispatch::opens_occurs_is))]
fn opens_occurs(words: &[Token]) -> bool
    ensures { result ≡ opens entries.occurs words.now }
{
    next_is(words, Keyword::Occurs)
}

/// `SIGN [IS]`
#[tactic(auto, unfolding(cob_base::specs::DataEntries::sign_words))]
fn sign_words(words: &[Token]) -> Option<(bool, &[Token])>
    ensures { read entries.sign_words words.now ≡ or_no_fit (seen_rest result) }
{
    let rest = past(words, Keyword::Sign)?;
    Some(noise(rest, Keyword::Is))
}

/// `[SIGN [IS]]`, and what follows.
#[tactic(auto, using(crate::proofs::DataDispatch::opens_sign_words_is))]
fn optional_sign_words(words: &[Token]) -> (Option<bool>, &[Token])
    ensures { read (optional entries.sign_words) words.now ≡ Ok (result.0, result.1.now) }
{
    match sign_words(words) {
        Some((is, rest)) => (Some(is), rest),
        None => (None, words),
    }
}

/// The side that a reserved word is.
fn side_of(keyword: Keyword) -> Option<SignSide>
    ensures { result ≡ entries.side_of keyword }
{
    match keyword {
        Keyword::Leading => Some(SignSide::Leading),
        Keyword::Trailing => Some(SignSide::Trailing),
        _ => None,
    }
}

/// `[SIGN [IS]] (LEADING|TRAILING)`
#[tactic(auto, unfolding(cob_base::specs::DataEntries::sign_side, cob_base::specs::DataEntries::side))]
fn sign_side(words: &[Token]) -> Option<(SignSide, &[Token])>
    ensures { read entries.sign_side words.now ≡ or_no_fit (seen_rest result) }
{
    let (_words, rest) = optional_sign_words(words);
    match rest {
        [Token::Key(have), rest @ ..] => Some((side_of(*have)?, rest)),
        _ => None,
    }
}

/// `SEPARATE [CHARACTER]`
#[tactic(auto, unfolding(cob_base::specs::DataEntries::separate))]
fn separate(words: &[Token]) -> Option<(bool, &[Token])>
    ensures { read entries.separate words.now ≡ or_no_fit (seen_rest result) }
{
    let rest = past(words, Keyword::Separate)?;
    Some(noise(rest, Keyword::Character))
}

/// `[SEPARATE [CHARACTER]]`, and what follows.
#[tactic(auto, using(crate::proofs::DataDispatch::opens_separate_is))]
fn optional_separate(words: &[Token]) -> (Option<bool>, &[Token])
    ensures { read (optional entries.separate) words.now ≡ Ok (result.0, result.1.now) }
{
    match separate(words) {
        Some((character, rest)) => (Some(character), rest),
        None => (None, words),
    }
}

/// `[SIGN [IS]] (LEADING|TRAILING) [SEPARATE [CHARACTER]]`
#[tactic(auto, unfolding(cob_base::specs::DataEntries::sign_clause))]
fn sign_clause(words: &[Token]) -> Option<(ItemClause, &[Token])>
    ensures { read entries.sign_clause words.now ≡ or_no_fit (seen_rest result) }
{
    let (side, rest) = sign_side(words)?;
    let (apart, rest) = optional_separate(rest);
    Some((
        ItemClause::Sign {
            side,
            separate: apart.is_some(),
        },
        rest,
    ))
}

#[tactic(auto, using(crate::proofs::DataDispatch::opens_sign_is))]
fn opens_sign(words: &[Token]) -> bool
    ensures { result ≡ opens entries.sign_clause words.now }
{
    sign_side(words).is_some()
}

/// A clause of a data description entry.
#[tactic(auto, unfolding(cob_base::specs::DataEntries::item_clause, cob_base::specs::DataEntries::item_clause_within))]
pub fn item_clause(
    alloc: Global,
    _depth: usize,
    words: &[Token],
) -> Result<(ItemClause, &[Token]), PhraseFault>
    ensures { Gives (λ x. (x.0, x.1.now)) result (read entries.item_clause words.now) }
{
    if opens_picture(words) {
        return picture_clause(alloc, words);
    }
    if opens_usage(words) {
        return found(usage(words));
    }
    if opens_value(words) {
        return value(alloc, words);
    }
    if opens_occurs(words) {
        return occurs(words);
    }
    found(sign_clause(words))
}

/// Whether a clause of a data description entry comes next.
#[tactic(auto, unfolding(cob_base::specs::DataEntries::item_clause, cob_base::specs::DataEntries::item_clause_within))]
pub fn opens_item_clause(words: &[Token]) -> bool
    ensures { result ≡ opens entries.item_clause words.now }
{
    opens_picture(words)
        || opens_usage(words)
        || opens_value(words)
        || opens_occurs(words)
        || opens_sign(words)
}
