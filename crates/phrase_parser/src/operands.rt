//! References, constants and operands.

ghost use Rattle.std.specs.Prelude.{◌≡◌, ◌||◌, Ok};
ghost use Rattle.cob_base.specs.Form.Form.{optional};
ghost use Rattle.cob_base.specs.Form.{opens, many};
ghost use Rattle.cob_base.specs.Phrases as phrases;
ghost use Rattle.phrase_parser.specs.Choices.{offset_at, subscripted_at, constant_at, opens_constant_at};
ghost use Rattle.phrase_parser.specs.Reading.{Gives, read};

use crate::listed::many;
use crate::words::{expect, expect_mark, int, name, next_is, opens_int, opens_name};
use crate::{PhraseFault, no_fit};
use cob_base::{
    ByteText, Constant, Figurative, Items, Keyword, Mark, Misfit, Offset, Operand, Reference,
    Subscript, Token,
};
use std::alloc::Global;

/// `(OF|IN) name`
#[tactic(auto, unfolding(cob_base::specs::Phrases::qualifier))]
pub fn qualifier(
    alloc: Global,
    _depth: usize,
    words: &[Token],
) -> Result<(ByteText, &[Token]), PhraseFault>
    ensures { Gives (λ x. (x.0, x.1.now)) result (read phrases.qualifier words.now) }
{
    let rest = expect(words, Keyword::Of)?;
    name(alloc, rest)
}

/// Whether OF or IN comes next.
#[tactic(auto, using(crate::proofs::Dispatch::opens_qualifier_is))]
pub fn opens_qualifier(words: &[Token]) -> bool
    ensures { result ≡ opens phrases.qualifier words.now }
{
    next_is(words, Keyword::Of)
}

/// `((OF|IN) name)*`
pub fn qualifiers(
    alloc: Global,
    words: &[Token],
) -> Result<(Items<ByteText>, &[Token]), PhraseFault>
    ensures { Gives (λ x. (x.0, x.1.now)) result (read (many phrases.qualifier) words.now) }
{
    many(alloc, 0, &opens_qualifier, &qualifier, words)
}

/// `[(+|-) int]`
#[tactic(auto, using(crate::proofs::Dispatch::offset_at_is))]
fn offset(words: &[Token]) -> Result<(Option<Offset>, &[Token]), PhraseFault>
    ensures { Gives (λ x. (x.0, x.1.now)) result (read (optional phrases.offset) words.now) }
{
    offset_by_words(words)
}

#[tactic(auto, unfolding(crate::specs::Choices::offset_at))]
fn offset_by_words(words: &[Token]) -> Result<(Option<Offset>, &[Token]), PhraseFault>
    ensures { Gives (λ x. (x.0, x.1.now)) result (offset_at words.now) }
{
    match words {
        [Token::Mark(Mark::Plus), rest @ ..] => {
            let (value, rest) = int(rest)?;
            Ok((Some(Offset::Plus(value)), rest))
        }
        [Token::Mark(Mark::Minus), rest @ ..] => {
            let (value, rest) = int(rest)?;
            Ok((Some(Offset::Minus(value)), rest))
        }
        _ => Ok((None, words)),
    }
}

/// `int | name ((OF|IN) name)* [(+|-) int]`
#[tactic(auto, unfolding(cob_base::specs::Phrases::subscript, cob_base::specs::Phrases::subscript_within))]
fn subscript(alloc: Global, words: &[Token]) -> Result<(Subscript, &[Token]), PhraseFault>
    ensures { Gives (λ x. (x.0, x.1.now)) result (read phrases.subscript words.now) }
{
    if opens_int(words) {
        let (value, rest) = int(words)?;
        return Ok((Subscript::Number(value), rest));
    }
    let (name, rest) = name(alloc, words)?;
    let (qualifiers, rest) = qualifiers(alloc, rest)?;
    let (offset, rest) = offset(rest)?;
    Ok((
        Subscript::Item {
            name,
            qualifiers,
            offset,
        },
        rest,
    ))
}

/// `["(" subscript ")"]`, where `depth` parentheses may still open.
#[tactic(auto, using(crate::proofs::Dispatch::subscripted_at_is))]
fn subscripted(
    alloc: Global,
    depth: usize,
    words: &[Token],
) -> Result<(Option<Subscript>, &[Token]), PhraseFault>
    ensures { Gives (λ x. (x.0, x.1.now)) result (read (optional (phrases.subscripted depth)) words.now) }
{
    subscripted_by_words(alloc, depth, words)
}

#[tactic(auto, unfolding(crate::specs::Choices::subscripted_at))]
fn subscripted_by_words(
    alloc: Global,
    depth: usize,
    words: &[Token],
) -> Result<(Option<Subscript>, &[Token]), PhraseFault>
    ensures { Gives (λ x. (x.0, x.1.now)) result (subscripted_at depth words.now) }
{
    match words {
        [Token::Mark(Mark::LeftParenthesis), rest @ ..] => {
            if depth == 0 {
                return Err(PhraseFault::Misfit(Misfit::Nesting));
            }
            let (inner, rest) = subscript(alloc, rest)?;
            let rest = expect_mark(rest, Mark::RightParenthesis)?;
            Ok((Some(inner), rest))
        }
        _ => Ok((None, words)),
    }
}

/// `name ((OF|IN) name)* ["(" subscript ")"]`, where `depth` parentheses may still open.
#[tactic(auto, unfolding(cob_base::specs::Phrases::reference, cob_base::specs::Phrases::reference_within))]
pub fn reference(
    alloc: Global,
    depth: usize,
    words: &[Token],
) -> Result<(Reference, &[Token]), PhraseFault>
    ensures { Gives (λ x. (x.0, x.1.now)) result (read (phrases.reference depth) words.now) }
{
    let (name, rest) = name(alloc, words)?;
    let (qualifiers, rest) = qualifiers(alloc, rest)?;
    let (subscript, rest) = subscripted(alloc, depth, rest)?;
    Ok((
        Reference {
            name,
            qualifiers,
            subscript,
        },
        rest,
    ))
}

/// The figurative constant that a reserved word is.
pub fn figurative_of(keyword: Keyword) -> Option<Figurative>
    ensures { result ≡ phrases.figurative_of keyword }
{
    match keyword {
        Keyword::Zero => Some(Figurative::Zero),
        Keyword::Space => Some(Figurative::Space),
        Keyword::HighValue => Some(Figurative::HighValue),
        Keyword::LowValue => Some(Figurative::LowValue),
        _ => None,
    }
}

/// `text | number | figurative`
#[tactic(auto, using(crate::proofs::Dispatch::constant_at_is))]
pub fn constant(alloc: Global, words: &[Token]) -> Result<(Constant, &[Token]), PhraseFault>
    ensures { Gives (λ x. (x.0, x.1.now)) result (read phrases.constant words.now) }
{
    constant_by_word(alloc, words)
}

#[tactic(auto, unfolding(crate::specs::Choices::constant_at))]
fn constant_by_word(alloc: Global, words: &[Token]) -> Result<(Constant, &[Token]), PhraseFault>
    ensures { Gives (λ x. (x.0, x.1.now)) result (constant_at words.now) }
{
    match words {
        [Token::Text(text), rest @ ..] => Ok((Constant::Text(text.copy(alloc)?), rest)),
        [Token::Number(number), rest @ ..] => Ok((Constant::Number(*number), rest)),
        [Token::Key(keyword), rest @ ..] => match figurative_of(*keyword) {
            Some(figurative) => Ok((Constant::Figurative(figurative), rest)),
            None => Err(no_fit()),
        },
        _ => Err(no_fit()),
    }
}

/// Whether a constant comes next.
#[tactic(auto, using(crate::proofs::Dispatch::opens_constant_is))]
pub fn opens_constant(words: &[Token]) -> bool
    ensures { result ≡ opens phrases.constant words.now }
{
    opens_constant_by_word(words)
}

#[tactic(auto, unfolding(crate::specs::Choices::opens_constant_at))]
fn opens_constant_by_word(words: &[Token]) -> bool
    ensures { result ≡ opens_constant_at words.now }
{
    match words {
        [Token::Text(_), ..] => true,
        [Token::Number(_), ..] => true,
        [Token::Key(keyword), ..] => figurative_of(*keyword).is_some(),
        _ => false,
    }
}

/// `ref | constant`, where `depth` parentheses may still open.
#[tactic(auto, unfolding(cob_base::specs::Phrases::operand, cob_base::specs::Phrases::operand_within), using(crate::proofs::Dispatch::opens_reference_is))]
pub fn operand(
    alloc: Global,
    depth: usize,
    words: &[Token],
) -> Result<(Operand, &[Token]), PhraseFault>
    ensures { Gives (λ x. (x.0, x.1.now)) result (read (phrases.operand depth) words.now) }
{
    if opens_name(words) {
        let (found, rest) = reference(alloc, depth, words)?;
        return Ok((Operand::Reference(found), rest));
    }
    let (found, rest) = constant(alloc, words)?;
    Ok((Operand::Constant(found), rest))
}

/// Whether an operand comes next.
#[tactic(auto, using(crate::proofs::Dispatch::opens_operand_is))]
pub fn opens_operand(words: &[Token]) -> bool
    ensures { (depth : _) → result ≡ opens (phrases.operand depth) words.now }
{
    opens_name(words) || opens_constant(words)
}
