//! Arithmetic expressions. `depth` parentheses may still open.

ghost use Rattle.std.specs.Prelude.{◌≡◌, Ok};
ghost use Rattle.cob_base.specs.Form.Form.{word, optional};
ghost use Rattle.cob_base.specs.Form.{opens, many};
ghost use Rattle.cob_base.specs.Phrases as phrases;
ghost use Rattle.cob_base.specs.Expressions as expressions;
ghost use Rattle.phrase_parser.specs.Reading.{Gives, read, or_no_fit, seen_rest};
ghost use Rattle.condition_parser.specs.Choices.{expression_parentheses_at};

use cob_base::{Boxed, Expr, Items, Keyword, Mark, Misfit, Number, Scale, Sign, Token};
use phrase_parser::{PhraseFault, expect_mark, found, many, no_fit, opens_name, past, reference};
use std::alloc::Global;

/// The sign that a mark is.
fn sign_of(mark: Mark) -> Option<Sign>
    ensures { result ≡ expressions.sign_of mark }
{
    match mark {
        Mark::Plus => Some(Sign::Plus),
        Mark::Minus => Some(Sign::Minus),
        _ => None,
    }
}

/// The operator of a term that a mark is.
fn scale_of(mark: Mark) -> Option<Scale>
    ensures { result ≡ expressions.scale_of mark }
{
    match mark {
        Mark::Asterisk => Some(Scale::Times),
        Mark::Slash => Some(Scale::Over),
        _ => None,
    }
}

/// `+|-`
#[tactic(auto, unfolding(cob_base::specs::Expressions::plus_or_minus))]
pub fn plus_or_minus(words: &[Token]) -> Option<(Sign, &[Token])>
    ensures { read expressions.plus_or_minus words.now ≡ or_no_fit (seen_rest result) }
{
    match words {
        [Token::Mark(mark), rest @ ..] => Some((sign_of(*mark)?, rest)),
        _ => None,
    }
}

/// `*|/`
#[tactic(auto, unfolding(cob_base::specs::Expressions::times_or_over))]
pub fn times_or_over(words: &[Token]) -> Option<(Scale, &[Token])>
    ensures { read expressions.times_or_over words.now ≡ or_no_fit (seen_rest result) }
{
    match words {
        [Token::Mark(mark), rest @ ..] => Some((scale_of(*mark)?, rest)),
        _ => None,
    }
}

/// `[+|-]`, and what follows.
#[tactic(auto, using(crate::proofs::ExpressionDispatch::opens_sign_is))]
pub fn optional_sign(words: &[Token]) -> (Option<Sign>, &[Token])
    ensures { read (optional expressions.plus_or_minus) words.now ≡ Ok (result.0, result.1.now) }
{
    match plus_or_minus(words) {
        Some((sign, rest)) => (Some(sign), rest),
        None => (None, words),
    }
}

/// A number.
pub fn number(words: &[Token]) -> Option<(Number, &[Token])>
    ensures { read (word phrases.is_number) words.now ≡ or_no_fit (seen_rest result) }
{
    match words {
        [Token::Number(number), rest @ ..] => Some((*number, rest)),
        _ => None,
    }
}

/// `term ((+|-) term)*`
#[cycle(expressions)]
#[tactic(auto, unfolding(cob_base::specs::Expressions::expr, cob_base::specs::Expressions::expr_within))]
pub fn expr(alloc: Global, depth: usize, words: &[Token]) -> Result<(Expr, &[Token]), PhraseFault>
    ensures { Gives (λ x. (x.0, x.1.now)) result (read (expressions.expr depth) words.now) }
{
    let (first, rest) = term(alloc, depth, words)?;
    let (more, rest) = more_added(alloc, depth, rest)?;
    Ok((Expr::Sum(Boxed::new(alloc, first)?, more), rest))
}

#[cycle(expressions)]
fn more_added(
    alloc: Global,
    depth: usize,
    words: &[Token],
) -> Result<(Items<(Sign, Expr)>, &[Token]), PhraseFault>
    ensures { Gives (λ x. (x.0, x.1.now)) result (read (many (expressions.added depth (expressions.parentheses depth))) words.now) }
{
    many(alloc, depth, &opens_added, &added, words)
}

/// `(+|-) term`
#[cycle(expressions)]
#[tactic(auto, unfolding(cob_base::specs::Expressions::added))]
fn added(
    alloc: Global,
    depth: usize,
    words: &[Token],
) -> Result<((Sign, Expr), &[Token]), PhraseFault>
    ensures { Gives (λ x. (x.0, x.1.now)) result (read (expressions.added depth (expressions.parentheses depth)) words.now) }
{
    let (sign, rest) = found(plus_or_minus(words))?;
    let (term, rest) = term(alloc, depth, rest)?;
    Ok(((sign, term), rest))
}

#[tactic(auto, using(crate::proofs::ExpressionDispatch::opens_sign_is))]
pub fn opens_added(words: &[Token]) -> bool
    ensures { result ≡ opens expressions.plus_or_minus words.now }
{
    plus_or_minus(words).is_some()
}

/// `factor ((*|/) factor)*`
#[cycle(expressions)]
#[tactic(auto, unfolding(cob_base::specs::Expressions::term, cob_base::specs::Expressions::term_within))]
fn term(alloc: Global, depth: usize, words: &[Token]) -> Result<(Expr, &[Token]), PhraseFault>
    ensures { Gives (λ x. (x.0, x.1.now)) result (read (expressions.term depth (expressions.parentheses depth)) words.now) }
{
    let (first, rest) = factor(alloc, depth, words)?;
    let (more, rest) = more_scaled(alloc, depth, rest)?;
    Ok((Expr::Product(Boxed::new(alloc, first)?, more), rest))
}

#[cycle(expressions)]
fn more_scaled(
    alloc: Global,
    depth: usize,
    words: &[Token],
) -> Result<(Items<(Scale, Expr)>, &[Token]), PhraseFault>
    ensures { Gives (λ x. (x.0, x.1.now)) result (read (many (expressions.scaled depth (expressions.parentheses depth))) words.now) }
{
    many(alloc, depth, &opens_scaled, &scaled, words)
}

/// `(*|/) factor`
#[cycle(expressions)]
#[tactic(auto, unfolding(cob_base::specs::Expressions::scaled))]
fn scaled(
    alloc: Global,
    depth: usize,
    words: &[Token],
) -> Result<((Scale, Expr), &[Token]), PhraseFault>
    ensures { Gives (λ x. (x.0, x.1.now)) result (read (expressions.scaled depth (expressions.parentheses depth)) words.now) }
{
    let (scale, rest) = found(times_or_over(words))?;
    let (factor, rest) = factor(alloc, depth, rest)?;
    Ok(((scale, factor), rest))
}

#[tactic(auto, using(crate::proofs::ExpressionDispatch::opens_scale_is))]
pub fn opens_scaled(words: &[Token]) -> bool
    ensures { result ≡ opens expressions.times_or_over words.now }
{
    times_or_over(words).is_some()
}

/// `[+|-] (ref | number | ZERO|ZEROS|ZEROES | "(" expr ")")`
#[cycle(expressions)]
#[tactic(auto, unfolding(cob_base::specs::Expressions::factor, cob_base::specs::Expressions::factor_within))]
fn factor(alloc: Global, depth: usize, words: &[Token]) -> Result<(Expr, &[Token]), PhraseFault>
    ensures { Gives (λ x. (x.0, x.1.now)) result (read (expressions.factor depth (expressions.parentheses depth)) words.now) }
{
    let (sign, rest) = optional_sign(words);
    let (value, rest) = atom(alloc, depth, rest)?;
    Ok((Expr::Signed(sign, Boxed::new(alloc, value)?), rest))
}

/// `ref | number | ZERO|ZEROS|ZEROES | "(" expr ")"`
#[cycle(expressions)]
#[tactic(auto, unfolding(cob_base::specs::Expressions::atom), using(crate::proofs::ExpressionDispatch::opens_reference_is))]
fn atom(alloc: Global, depth: usize, words: &[Token]) -> Result<(Expr, &[Token]), PhraseFault>
    ensures { Gives (λ x. (x.0, x.1.now)) result (read (expressions.atom depth (expressions.parentheses depth)) words.now) }
{
    if opens_name(words) {
        let (item, rest) = reference(alloc, depth, words)?;
        return Ok((Expr::Reference(item), rest));
    }
    if let Some((number, rest)) = number(words) {
        return Ok((Expr::Number(number), rest));
    }
    if let Some(rest) = past(words, Keyword::Zero) {
        return Ok((Expr::Zero, rest));
    }
    parentheses(alloc, depth, words)
}

/// `"(" expr ")"`
#[cycle(expressions)]
#[tactic(auto, using(crate::proofs::ExpressionDispatch::parentheses_at_is))]
fn parentheses(
    alloc: Global,
    depth: usize,
    words: &[Token],
) -> Result<(Expr, &[Token]), PhraseFault>
    ensures { Gives (λ x. (x.0, x.1.now)) result (read (expressions.parentheses depth) words.now) }
{
    parentheses_by_word(alloc, depth, words)
}

#[cycle(expressions)]
#[tactic(auto, unfolding(crate::specs::Choices::expression_parentheses_at))]
fn parentheses_by_word(
    alloc: Global,
    depth: usize,
    words: &[Token],
) -> Result<(Expr, &[Token]), PhraseFault>
    ensures { Gives (λ x. (x.0, x.1.now)) result (expression_parentheses_at depth words.now) }
{
    match words {
        [Token::Mark(Mark::LeftParenthesis), rest @ ..] => {
            if depth == 0 {
                return Err(PhraseFault::Misfit(Misfit::Nesting));
            }
            let (inner, rest) = expr(alloc, depth - 1, rest)?;
            let rest = expect_mark(rest, Mark::RightParenthesis)?;
            Ok((inner, rest))
        }
        _ => Err(no_fit()),
    }
}
