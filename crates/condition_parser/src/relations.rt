//! Relations and the other words between the operands of a condition.

ghost use Rattle.std.specs.Prelude.{◌≡◌, Ok};
ghost use Rattle.cob_base.specs.Form.Form.{optional};
ghost use Rattle.cob_base.specs.Conditions as conditions;
ghost use Rattle.phrase_parser.specs.Reading.{read, or_no_fit, seen_rest, seen_words};

use cob_base::{Keyword, Mark, Relation, Token};
use phrase_parser::{noise, past};

/// The relation that a mark is.
fn relation_of(mark: Mark) -> Option<Relation>
    ensures { result ≡ conditions.relation_of mark }
{
    match mark {
        Mark::Equal => Some(Relation::Equal),
        Mark::Less => Some(Relation::Less),
        Mark::Greater => Some(Relation::Greater),
        Mark::LessOrEqual => Some(Relation::LessOrEqual),
        Mark::GreaterOrEqual => Some(Relation::GreaterOrEqual),
        _ => None,
    }
}

/// Of LESS and GREATER, whether it is LESS.
fn is_less(keyword: Keyword) -> Option<bool>
    ensures { result ≡ conditions.is_less keyword }
{
    match keyword {
        Keyword::Less => Some(true),
        Keyword::Greater => Some(false),
        _ => None,
    }
}

/// LESS or GREATER, and whether OR EQUAL follows.
fn compared_as(less: bool, or_equal: Option<()>) -> Relation
    ensures { result ≡ conditions.compared_as (less, or_equal) }
{
    match or_equal {
        Some(()) => {
            if less {
                Relation::LessOrEqual
            } else {
                Relation::GreaterOrEqual
            }
        }
        None => {
            if less {
                Relation::Less
            } else {
                Relation::Greater
            }
        }
    }
}

/// `EQUAL [TO]`
#[tactic(auto, unfolding(cob_base::specs::Conditions::equal_to))]
fn equal_to(words: &[Token]) -> Option<&[Token]>
    ensures { read conditions.equal_to words.now ≡ or_no_fit (seen_words result) }
{
    let rest = past(words, Keyword::Equal)?;
    let (_to, rest) = noise(rest, Keyword::To);
    Some(rest)
}

/// `OR EQUAL [TO]`
#[tactic(auto, unfolding(cob_base::specs::Conditions::or_equal_to))]
fn or_equal_to(words: &[Token]) -> Option<&[Token]>
    ensures { read conditions.or_equal_to words.now ≡ or_no_fit (seen_words result) }
{
    let rest = past(words, Keyword::Or)?;
    equal_to(rest)
}

/// `[OR EQUAL [TO]]`, and what follows.
#[tactic(auto, using(crate::proofs::ConditionDispatch::opens_or_equal_to_is))]
fn optional_or_equal_to(words: &[Token]) -> (Option<()>, &[Token])
    ensures { read (optional conditions.or_equal_to) words.now ≡ Ok (result.0, result.1.now) }
{
    match or_equal_to(words) {
        Some(rest) => (Some(()), rest),
        None => (None, words),
    }
}

/// `(LESS|GREATER) [THAN] [OR EQUAL [TO]]`
#[tactic(auto, unfolding(cob_base::specs::Conditions::less_or_greater))]
fn less_or_greater(words: &[Token]) -> Option<(Relation, &[Token])>
    ensures { read conditions.less_or_greater words.now ≡ or_no_fit (seen_rest result) }
{
    match words {
        [Token::Key(have), rest @ ..] => {
            let less = is_less(*have)?;
            let (_than, rest) = noise(rest, Keyword::Than);
            let (or_equal, rest) = optional_or_equal_to(rest);
            Some((compared_as(less, or_equal), rest))
        }
        _ => None,
    }
}

/// `"=" | "<" | ">" | "<=" | ">="`
#[tactic(auto, unfolding(cob_base::specs::Conditions::relation_mark))]
fn relation_mark(words: &[Token]) -> Option<(Relation, &[Token])>
    ensures { read conditions.relation_mark words.now ≡ or_no_fit (seen_rest result) }
{
    match words {
        [Token::Mark(mark), rest @ ..] => Some((relation_of(*mark)?, rest)),
        _ => None,
    }
}

/// A relation.
#[tactic(auto, unfolding(cob_base::specs::Conditions::relation, cob_base::specs::Conditions::relation_within), using(crate::proofs::ConditionDispatch::opens_relation_mark_is, crate::proofs::ConditionDispatch::opens_equal_to_is))]
pub fn relation(words: &[Token]) -> Option<(Relation, &[Token])>
    ensures { read conditions.relation words.now ≡ or_no_fit (seen_rest result) }
{
    if let Some((relation, rest)) = relation_mark(words) {
        return Some((relation, rest));
    }
    if let Some(rest) = equal_to(words) {
        return Some((Relation::Equal, rest));
    }
    less_or_greater(words)
}

/// `[IS] [NOT] relation`
#[tactic(auto, unfolding(cob_base::specs::Conditions::relation_words))]
pub fn relation_words(words: &[Token]) -> Option<((bool, Relation), &[Token])>
    ensures { read conditions.relation_words words.now ≡ or_no_fit (seen_rest result) }
{
    let (_is, rest) = noise(words, Keyword::Is);
    let (negated, rest) = noise(rest, Keyword::Not);
    let (relation, rest) = relation(rest)?;
    Some(((negated, relation), rest))
}

/// `[IS] [NOT] NUMERIC`: whether NOT is there.
#[tactic(auto, unfolding(cob_base::specs::Conditions::numeric_class))]
fn numeric_class(words: &[Token]) -> Option<(bool, &[Token])>
    ensures { read conditions.numeric_class words.now ≡ or_no_fit (seen_rest result) }
{
    let (_is, rest) = noise(words, Keyword::Is);
    let (negated, rest) = noise(rest, Keyword::Not);
    let rest = past(rest, Keyword::Numeric)?;
    Some((negated, rest))
}

/// `[[IS] [NOT] NUMERIC]`, and what follows.
#[tactic(auto, using(crate::proofs::ConditionDispatch::opens_numeric_class_is))]
pub fn optional_numeric_class(words: &[Token]) -> (Option<bool>, &[Token])
    ensures { read (optional conditions.numeric_class) words.now ≡ Ok (result.0, result.1.now) }
{
    match numeric_class(words) {
        Some((negated, rest)) => (Some(negated), rest),
        None => (None, words),
    }
}
