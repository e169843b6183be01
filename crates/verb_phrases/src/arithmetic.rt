//! Operands and receivers of arithmetic. `depth` parentheses may still open.

ghost use Rattle.std.specs.Prelude.{◌≡◌, IfOk};
ghost use Rattle.cob_base.specs.Form.{opens, many};
ghost use Rattle.cob_base.specs.Phrases as phrases;
ghost use Rattle.cob_base.specs.Statements as grammar;
ghost use Rattle.phrase_parser.specs.Reading.{Gives, read};

use cob_base::{Division, Items, Keyword, Operand, Reference, Token};
use phrase_parser::{
    PhraseFault, constant, expect, joined, many, next_is, opens_name, opens_operand, operand,
    reference, some,
};
use std::alloc::{AllocError, Global};

/// What an arithmetic statement names behind its first operands: the operand before GIVING, and the receivers; or the
/// receivers alone.
pub type Receivers = (Option<Operand>, Items<Reference>);

/// A reference, as a member of a list.
fn one_reference(
    alloc: Global,
    depth: usize,
    words: &[Token],
) -> Result<(Reference, &[Token]), PhraseFault>
    ensures { Gives (λ x. (x.0, x.1.now)) result (read (phrases.reference depth) words.now) }
{
    reference(alloc, depth, words)
}

#[tactic(auto, using(crate::proofs::ArithmeticDispatch::opens_reference_is))]
fn opens_reference(words: &[Token]) -> bool
    ensures { (depth : _) → result ≡ opens (phrases.reference depth) words.now }
{
    opens_name(words)
}

/// An operand, as a member of a list.
fn one_operand(
    alloc: Global,
    depth: usize,
    words: &[Token],
) -> Result<(Operand, &[Token]), PhraseFault>
    ensures { Gives (λ x. (x.0, x.1.now)) result (read (phrases.operand depth) words.now) }
{
    operand(alloc, depth, words)
}

fn operand_comes_next(words: &[Token]) -> bool
    ensures { (depth : _) → result ≡ opens (phrases.operand depth) words.now }
{
    opens_operand(words)
}

/// `ref+`
pub fn references(
    alloc: Global,
    depth: usize,
    words: &[Token],
) -> Result<(Items<Reference>, &[Token]), PhraseFault>
    ensures { Gives (λ x. (x.0, x.1.now)) result (read (grammar.references depth) words.now) }
{
    some(alloc, depth, &opens_reference, &one_reference, words)
}

/// `ref*`
fn more_references(
    alloc: Global,
    depth: usize,
    words: &[Token],
) -> Result<(Items<Reference>, &[Token]), PhraseFault>
    ensures { Gives (λ x. (x.0, x.1.now)) result (read (many (phrases.reference depth)) words.now) }
{
    many(alloc, depth, &opens_reference, &one_reference, words)
}

/// `operand+`
fn operand_list(
    alloc: Global,
    depth: usize,
    words: &[Token],
) -> Result<(Items<Operand>, &[Token]), PhraseFault>
    ensures { Gives (λ x. (x.0, x.1.now)) result (read (grammar.operand_list depth) words.now) }
{
    some(alloc, depth, &operand_comes_next, &one_operand, words)
}

/// `GIVING ref+`
#[tactic(auto, unfolding(cob_base::specs::Statements::giving))]
fn giving(
    alloc: Global,
    depth: usize,
    words: &[Token],
) -> Result<(Items<Reference>, &[Token]), PhraseFault>
    ensures { Gives (λ x. (x.0, x.1.now)) result (read (grammar.giving depth) words.now) }
{
    let rest = expect(words, Keyword::Giving)?;
    references(alloc, depth, rest)
}

/// `GIVING ref+`, or more receivers: whether it is GIVING, and the receivers.
#[tactic(auto, unfolding(cob_base::specs::Statements::giving_or_more), using(crate::proofs::ArithmeticDispatch::opens_giving_is))]
fn giving_or_more(
    alloc: Global,
    depth: usize,
    words: &[Token],
) -> Result<((bool, Items<Reference>), &[Token]), PhraseFault>
    ensures { Gives (λ x. (x.0, x.1.now)) result (read (grammar.giving_or_more depth) words.now) }
{
    if next_is(words, Keyword::Giving) {
        let (given, rest) = giving(alloc, depth, words)?;
        return Ok(((true, given), rest));
    }
    let (more, rest) = more_references(alloc, depth, words)?;
    Ok(((false, more), rest))
}

/// `operand GIVING ref+`
#[tactic(auto, unfolding(cob_base::specs::Statements::operand_giving))]
fn operand_giving(
    alloc: Global,
    depth: usize,
    words: &[Token],
) -> Result<(Receivers, &[Token]), PhraseFault>
    ensures { Gives (λ x. (x.0, x.1.now)) result (read (grammar.operand_giving depth) words.now) }
{
    let (second, rest) = operand(alloc, depth, words)?;
    let (given, rest) = giving(alloc, depth, rest)?;
    Ok(((Some(second), given), rest))
}

/// What a reference and what follows it name.
fn of_reference(
    alloc: Global,
    item: Reference,
    is_giving: bool,
    more: Items<Reference>,
) -> Result<Receivers, AllocError>
    ensures { IfOk result (λ to. to ≡ grammar.of_reference (item, (is_giving, more))) }
{
    if is_giving {
        return Ok((Some(Operand::Reference(item)), more));
    }
    Ok((None, joined(alloc, item, more)?))
}

/// `ref+ | ref GIVING ref+`
#[tactic(auto, unfolding(cob_base::specs::Statements::reference_receivers))]
fn reference_receivers(
    alloc: Global,
    depth: usize,
    words: &[Token],
) -> Result<(Receivers, &[Token]), PhraseFault>
    ensures { Gives (λ x. (x.0, x.1.now)) result (read (grammar.reference_receivers depth) words.now) }
{
    let (item, rest) = reference(alloc, depth, words)?;
    let ((is_giving, more), rest) = giving_or_more(alloc, depth, rest)?;
    Ok((of_reference(alloc, item, is_giving, more)?, rest))
}

/// `constant GIVING ref+`
#[tactic(auto, unfolding(cob_base::specs::Statements::constant_receivers))]
fn constant_receivers(
    alloc: Global,
    depth: usize,
    words: &[Token],
) -> Result<(Receivers, &[Token]), PhraseFault>
    ensures { Gives (λ x. (x.0, x.1.now)) result (read (grammar.constant_receivers depth) words.now) }
{
    let (second, rest) = constant(alloc, words)?;
    let (given, rest) = giving(alloc, depth, rest)?;
    Ok(((Some(Operand::Constant(second)), given), rest))
}

/// `ref+ | operand GIVING ref+`
#[tactic(auto, unfolding(cob_base::specs::Statements::receivers), using(crate::proofs::ArithmeticDispatch::opens_reference_receivers_is))]
fn receivers(
    alloc: Global,
    depth: usize,
    words: &[Token],
) -> Result<(Receivers, &[Token]), PhraseFault>
    ensures { Gives (λ x. (x.0, x.1.now)) result (read (grammar.receivers depth) words.now) }
{
    if opens_name(words) {
        return reference_receivers(alloc, depth, words);
    }
    constant_receivers(alloc, depth, words)
}

/// `TO ref+ | TO operand GIVING ref+`
#[tactic(auto, unfolding(cob_base::specs::Statements::to_receivers))]
fn to_receivers(
    alloc: Global,
    depth: usize,
    words: &[Token],
) -> Result<(Receivers, &[Token]), PhraseFault>
    ensures { Gives (λ x. (x.0, x.1.now)) result (read (grammar.to_receivers depth) words.now) }
{
    let rest = expect(words, Keyword::To)?;
    receivers(alloc, depth, rest)
}

/// What follows several operands of ADD: whether it is GIVING without TO, and the receivers.
#[tactic(auto, unfolding(cob_base::specs::Statements::to_or_giving), using(crate::proofs::ArithmeticDispatch::opens_to_receivers_is))]
fn to_or_giving(
    alloc: Global,
    depth: usize,
    words: &[Token],
) -> Result<((bool, Receivers), &[Token]), PhraseFault>
    ensures { Gives (λ x. (x.0, x.1.now)) result (read (grammar.to_or_giving depth) words.now) }
{
    if next_is(words, Keyword::To) {
        let (to, rest) = to_receivers(alloc, depth, words)?;
        return Ok(((false, to), rest));
    }
    let (given, rest) = giving(alloc, depth, words)?;
    Ok(((true, (None, given)), rest))
}

/// More operands of ADD, and what follows them.
#[tactic(auto, unfolding(cob_base::specs::Statements::several_added))]
fn several_added(
    alloc: Global,
    depth: usize,
    words: &[Token],
) -> Result<((Items<Operand>, (bool, Receivers)), &[Token]), PhraseFault>
    ensures { Gives (λ x. (x.0, x.1.now)) result (read (grammar.several_added depth) words.now) }
{
    let (more, rest) = operand_list(alloc, depth, words)?;
    let (to, rest) = to_or_giving(alloc, depth, rest)?;
    Ok(((more, to), rest))
}

#[tactic(auto, using(crate::proofs::ArithmeticDispatch::opens_several_added_is))]
fn opens_several_added(depth: usize, words: &[Token]) -> bool
    ensures { result ≡ opens (grammar.several_added depth) words.now }
{
    opens_operand(words)
}

/// What follows the first operand of ADD.
#[tactic(auto, unfolding(cob_base::specs::Statements::after_first_added))]
fn after_first_added(
    alloc: Global,
    depth: usize,
    words: &[Token],
) -> Result<((Items<Operand>, (bool, Receivers)), &[Token]), PhraseFault>
    ensures { Gives (λ x. (x.0, x.1.now)) result (read (grammar.after_first_added depth) words.now) }
{
    if opens_several_added(depth, words) {
        return several_added(alloc, depth, words);
    }
    let (to, rest) = to_receivers(alloc, depth, words)?;
    Ok(((Items::new(alloc), (false, to)), rest))
}

/// The operands and the receivers of ADD; with GIVING and without TO the last operand is the second one.
#[tactic(auto, using(crate::proofs::ArithmeticDispatch::but_last_is))]
fn add_parts(
    alloc: Global,
    first: Operand,
    more: Items<Operand>,
    is_giving: bool,
    to: Receivers,
) -> Result<(Items<Operand>, Receivers), AllocError>
    ensures { IfOk result (λ parts. parts ≡ grammar.add_parts (first, (more, (is_giving, to)))) }
{
    let mut all = joined(alloc, first, more)?;
    if !is_giving {
        return Ok((all, to));
    }
    let last = all.pop();
    Ok((all, (last, to.1)))
}

/// `operand+ TO ref+ | operand+ [TO] operand GIVING ref+`
#[tactic(auto, unfolding(cob_base::specs::Statements::added))]
pub fn added(
    alloc: Global,
    depth: usize,
    words: &[Token],
) -> Result<((Items<Operand>, Receivers), &[Token]), PhraseFault>
    ensures { Gives (λ x. (x.0, x.1.now)) result (read (grammar.added depth) words.now) }
{
    let (first, rest) = operand(alloc, depth, words)?;
    let ((more, (is_giving, to)), rest) = after_first_added(alloc, depth, rest)?;
    Ok((add_parts(alloc, first, more, is_giving, to)?, rest))
}

/// `operand+ FROM ref+ | operand+ FROM operand GIVING ref+`
#[tactic(auto, unfolding(cob_base::specs::Statements::subtracted))]
pub fn subtracted(
    alloc: Global,
    depth: usize,
    words: &[Token],
) -> Result<((Items<Operand>, Receivers), &[Token]), PhraseFault>
    ensures { Gives (λ x. (x.0, x.1.now)) result (read (grammar.subtracted depth) words.now) }
{
    let (operands, rest) = operand_list(alloc, depth, words)?;
    let rest = expect(rest, Keyword::From)?;
    let (from, rest) = receivers(alloc, depth, rest)?;
    Ok(((operands, from), rest))
}

/// `operand BY ref+ | operand BY operand GIVING ref+`
#[tactic(auto, unfolding(cob_base::specs::Statements::multiplied))]
pub fn multiplied(
    alloc: Global,
    depth: usize,
    words: &[Token],
) -> Result<((Operand, Receivers), &[Token]), PhraseFault>
    ensures { Gives (λ x. (x.0, x.1.now)) result (read (grammar.multiplied depth) words.now) }
{
    let (first, rest) = operand(alloc, depth, words)?;
    let rest = expect(rest, Keyword::By)?;
    let (by, rest) = receivers(alloc, depth, rest)?;
    Ok(((first, by), rest))
}

/// `INTO ref+ | INTO operand GIVING ref+`
#[tactic(auto, unfolding(cob_base::specs::Statements::into_receivers))]
fn into_receivers(
    alloc: Global,
    depth: usize,
    words: &[Token],
) -> Result<(Receivers, &[Token]), PhraseFault>
    ensures { Gives (λ x. (x.0, x.1.now)) result (read (grammar.into_receivers depth) words.now) }
{
    let rest = expect(words, Keyword::Into)?;
    receivers(alloc, depth, rest)
}

/// `INTO ref+ | INTO operand GIVING ref+ | BY operand GIVING ref+`
#[tactic(auto, unfolding(cob_base::specs::Statements::into_or_by), using(crate::proofs::ArithmeticDispatch::opens_into_receivers_is))]
fn into_or_by(
    alloc: Global,
    depth: usize,
    words: &[Token],
) -> Result<((Division, Receivers), &[Token]), PhraseFault>
    ensures { Gives (λ x. (x.0, x.1.now)) result (read (grammar.into_or_by depth) words.now) }
{
    if next_is(words, Keyword::Into) {
        let (to, rest) = into_receivers(alloc, depth, words)?;
        return Ok(((Division::Into, to), rest));
    }
    let rest = expect(words, Keyword::By)?;
    let (to, rest) = operand_giving(alloc, depth, rest)?;
    Ok(((Division::By, to), rest))
}

/// `operand INTO ref+ | operand (INTO|BY) operand GIVING ref+`
#[tactic(auto, unfolding(cob_base::specs::Statements::divided))]
pub fn divided(
    alloc: Global,
    depth: usize,
    words: &[Token],
) -> Result<((Operand, (Division, Receivers)), &[Token]), PhraseFault>
    ensures { Gives (λ x. (x.0, x.1.now)) result (read (grammar.divided depth) words.now) }
{
    let (first, rest) = operand(alloc, depth, words)?;
    let (to, rest) = into_or_by(alloc, depth, rest)?;
    Ok(((first, to), rest))
}
