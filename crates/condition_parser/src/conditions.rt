//! Conditions. `depth` parentheses may still open.

ghost use Rattle.std.specs.Prelude.{◌≡◌, Ok};
ghost use Rattle.cob_base.specs.Form.{opens, many};
ghost use Rattle.cob_base.specs.Phrases as phrases;
ghost use Rattle.cob_base.specs.Conditions as conditions;
ghost use Rattle.phrase_parser.specs.Reading.{Gives, read};
ghost use Rattle.condition_parser.specs.Choices.{condition_parentheses_at};

use crate::relations::{optional_numeric_class, relation_words};
use cob_base::{Boxed, Cond, Items, Keyword, Mark, Misfit, Operand, Relation, Token};
use phrase_parser::{
    PhraseFault, constant, expect, expect_mark, found, joined, many, next_is, no_fit, noise,
    opens_constant, opens_name, operand, reference,
};
use std::alloc::Global;

/// `[IS] [NOT] relation operand`
#[tactic(auto, unfolding(cob_base::specs::Conditions::compares))]
fn compares(
    alloc: Global,
    depth: usize,
    words: &[Token],
) -> Result<(((bool, Relation), Operand), &[Token]), PhraseFault>
    ensures { Gives (λ x. (x.0, x.1.now)) result (read (conditions.compares depth) words.now) }
{
    let (relation, rest) = found(relation_words(words))?;
    let (right, rest) = operand(alloc, depth, rest)?;
    Ok(((relation, right), rest))
}

/// Whether a relation comes next.
#[tactic(auto, using(crate::proofs::ConditionDispatch::opens_compares_is))]
fn opens_compares(words: &[Token]) -> bool
    ensures { (depth : _) → result ≡ opens (conditions.compares depth) words.now }
{
    relation_words(words).is_some()
}

/// `ref [IS] [NOT] relation operand | ref [IS] [NOT] NUMERIC | ref`
#[tactic(auto, unfolding(cob_base::specs::Conditions::of_reference, cob_base::specs::Conditions::tail))]
pub fn of_reference(
    alloc: Global,
    depth: usize,
    words: &[Token],
) -> Result<(Cond, &[Token]), PhraseFault>
    ensures { Gives (λ x. (x.0, x.1.now)) result (read (conditions.of_reference depth) words.now) }
{
    let (item, rest) = reference(alloc, depth, words)?;
    if opens_compares(rest) {
        let (((negated, relation), right), rest) = compares(alloc, depth, rest)?;
        let left = Operand::Reference(item);
        return Ok((
            Cond::Relation {
                left,
                negated,
                relation,
                right,
            },
            rest,
        ));
    }
    let (class, rest) = optional_numeric_class(rest);
    match class {
        Some(negated) => Ok((Cond::Numeric { item, negated }, rest)),
        None => Ok((Cond::Name(item), rest)),
    }
}

/// `constant [IS] [NOT] relation operand`
#[tactic(auto, unfolding(cob_base::specs::Conditions::of_constant))]
pub fn of_constant(
    alloc: Global,
    depth: usize,
    words: &[Token],
) -> Result<(Cond, &[Token]), PhraseFault>
    ensures { Gives (λ x. (x.0, x.1.now)) result (read (conditions.of_constant depth) words.now) }
{
    let (left, rest) = constant(alloc, words)?;
    let (((negated, relation), right), rest) = compares(alloc, depth, rest)?;
    let left = Operand::Constant(left);
    Ok((
        Cond::Relation {
            left,
            negated,
            relation,
            right,
        },
        rest,
    ))
}

/// `operand [IS] [NOT] relation operand | ref [IS] [NOT] NUMERIC | ref | "(" cond ")"`
#[cycle(conditions)]
#[tactic(auto, unfolding(cob_base::specs::Conditions::simple, cob_base::specs::Conditions::simple_within), using(crate::proofs::ConditionDispatch::opens_of_reference_is, crate::proofs::ConditionDispatch::opens_of_constant_is))]
fn simple(alloc: Global, depth: usize, words: &[Token]) -> Result<(Cond, &[Token]), PhraseFault>
    ensures { Gives (λ x. (x.0, x.1.now)) result (read (conditions.simple depth (conditions.parentheses depth)) words.now) }
{
    if opens_name(words) {
        return of_reference(alloc, depth, words);
    }
    if opens_constant(words) {
        return of_constant(alloc, depth, words);
    }
    parentheses(alloc, depth, words)
}

/// `[NOT] simple`
#[cycle(conditions)]
#[tactic(auto, unfolding(cob_base::specs::Conditions::single, cob_base::specs::Conditions::single_within))]
fn single(alloc: Global, depth: usize, words: &[Token]) -> Result<(Cond, &[Token]), PhraseFault>
    ensures { Gives (λ x. (x.0, x.1.now)) result (read (conditions.single depth (conditions.parentheses depth)) words.now) }
{
    let (negated, rest) = noise(words, Keyword::Not);
    let (inner, rest) = simple(alloc, depth, rest)?;
    if negated {
        return Ok((Cond::Not(Boxed::new(alloc, inner)?), rest));
    }
    Ok((inner, rest))
}

/// `AND single`
#[cycle(conditions)]
#[tactic(auto, unfolding(cob_base::specs::Conditions::and_single))]
fn and_single(alloc: Global, depth: usize, words: &[Token]) -> Result<(Cond, &[Token]), PhraseFault>
    ensures { Gives (λ x. (x.0, x.1.now)) result (read (conditions.and_single depth (conditions.parentheses depth)) words.now) }
{
    let rest = expect(words, Keyword::And)?;
    single(alloc, depth, rest)
}

pub fn opens_and(words: &[Token]) -> bool
    ensures { result ≡ opens (phrases.key Keyword.And) words.now }
{
    next_is(words, Keyword::And)
}

#[cycle(conditions)]
fn more_and(
    alloc: Global,
    depth: usize,
    words: &[Token],
) -> Result<(Items<Cond>, &[Token]), PhraseFault>
    ensures { Gives (λ x. (x.0, x.1.now)) result (read (many (conditions.and_single depth (conditions.parentheses depth))) words.now) }
{
    many(alloc, depth, &opens_and, &and_single, words)
}

/// `single (AND single)*`
#[cycle(conditions)]
#[tactic(auto, unfolding(cob_base::specs::Conditions::all_of, cob_base::specs::Conditions::all_of_within))]
fn all_of(alloc: Global, depth: usize, words: &[Token]) -> Result<(Cond, &[Token]), PhraseFault>
    ensures { Gives (λ x. (x.0, x.1.now)) result (read (conditions.all_of depth (conditions.parentheses depth)) words.now) }
{
    let (first, rest) = single(alloc, depth, words)?;
    let (more, rest) = more_and(alloc, depth, rest)?;
    Ok((Cond::And(joined(alloc, first, more)?), rest))
}

/// `OR` and conditions with AND between them.
#[cycle(conditions)]
#[tactic(auto, unfolding(cob_base::specs::Conditions::or_all_of))]
fn or_all_of(alloc: Global, depth: usize, words: &[Token]) -> Result<(Cond, &[Token]), PhraseFault>
    ensures { Gives (λ x. (x.0, x.1.now)) result (read (conditions.or_all_of depth (conditions.parentheses depth)) words.now) }
{
    let rest = expect(words, Keyword::Or)?;
    all_of(alloc, depth, rest)
}

pub fn opens_or(words: &[Token]) -> bool
    ensures { result ≡ opens (phrases.key Keyword.Or) words.now }
{
    next_is(words, Keyword::Or)
}

#[cycle(conditions)]
fn more_or(
    alloc: Global,
    depth: usize,
    words: &[Token],
) -> Result<(Items<Cond>, &[Token]), PhraseFault>
    ensures { Gives (λ x. (x.0, x.1.now)) result (read (many (conditions.or_all_of depth (conditions.parentheses depth))) words.now) }
{
    many(alloc, depth, &opens_or, &or_all_of, words)
}

/// A condition.
#[cycle(conditions)]
#[tactic(auto, unfolding(cob_base::specs::Conditions::cond, cob_base::specs::Conditions::cond_within))]
pub fn cond(alloc: Global, depth: usize, words: &[Token]) -> Result<(Cond, &[Token]), PhraseFault>
    ensures { Gives (λ x. (x.0, x.1.now)) result (read (conditions.cond depth) words.now) }
{
    let (first, rest) = all_of(alloc, depth, words)?;
    let (more, rest) = more_or(alloc, depth, rest)?;
    Ok((Cond::Or(joined(alloc, first, more)?), rest))
}

/// `"(" cond ")"`
#[cycle(conditions)]
#[tactic(auto, using(crate::proofs::ConditionDispatch::parentheses_at_is))]
fn parentheses(
    alloc: Global,
    depth: usize,
    words: &[Token],
) -> Result<(Cond, &[Token]), PhraseFault>
    ensures { Gives (λ x. (x.0, x.1.now)) result (read (conditions.parentheses depth) words.now) }
{
    parentheses_by_word(alloc, depth, words)
}

#[cycle(conditions)]
#[tactic(auto, unfolding(crate::specs::Choices::condition_parentheses_at))]
fn parentheses_by_word(
    alloc: Global,
    depth: usize,
    words: &[Token],
) -> Result<(Cond, &[Token]), PhraseFault>
    ensures { Gives (λ x. (x.0, x.1.now)) result (condition_parentheses_at depth words.now) }
{
    match words {
        [Token::Mark(Mark::LeftParenthesis), rest @ ..] => {
            if depth == 0 {
                return Err(PhraseFault::Misfit(Misfit::Nesting));
            }
            let (inner, rest) = cond(alloc, depth - 1, rest)?;
            let rest = expect_mark(rest, Mark::RightParenthesis)?;
            Ok((inner, rest))
        }
        _ => Err(no_fit()),
    }
}
