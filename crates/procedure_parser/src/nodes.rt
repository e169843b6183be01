//! Statements of arithmetic from their parts.

ghost use Rattle.std.specs.Prelude.{◌≡◌};
ghost use Rattle.cob_base.specs.Statements as grammar;

use cob_base::{ConditionalPhrases, Division, Items, Located, Operand, Statement};
use verb_phrases::Receivers;

/// ADD .. TO, or ADD .. GIVING where an operand stands before GIVING.
pub fn add_node(
    parts: (Items<Operand>, Receivers),
    size_error: ConditionalPhrases<Located<Statement>>,
) -> Statement
    ensures { result ≡ grammar.add_node (parts, size_error) }
{
    let (operands, (second, receivers)) = parts;
    match second {
        Some(to) => Statement::AddGiving {
            operands,
            to,
            giving: receivers,
            size_error,
        },
        None => Statement::Add {
            operands,
            to: receivers,
            size_error,
        },
    }
}

/// SUBTRACT .. FROM, with GIVING or without.
pub fn subtract_node(
    parts: (Items<Operand>, Receivers),
    size_error: ConditionalPhrases<Located<Statement>>,
) -> Statement
    ensures { result ≡ grammar.subtract_node (parts, size_error) }
{
    let (operands, (second, receivers)) = parts;
    match second {
        Some(from) => Statement::SubtractGiving {
            operands,
            from,
            giving: receivers,
            size_error,
        },
        None => Statement::Subtract {
            operands,
            from: receivers,
            size_error,
        },
    }
}

/// MULTIPLY .. BY, with GIVING or without.
pub fn multiply_node(
    parts: (Operand, Receivers),
    size_error: ConditionalPhrases<Located<Statement>>,
) -> Statement
    ensures { result ≡ grammar.multiply_node (parts, size_error) }
{
    let (operand, (second, receivers)) = parts;
    match second {
        Some(by) => Statement::MultiplyGiving {
            operand,
            by,
            giving: receivers,
            size_error,
        },
        None => Statement::Multiply {
            operand,
            by: receivers,
            size_error,
        },
    }
}

/// DIVIDE .. INTO or BY, with GIVING or without.
pub fn divide_node(
    parts: (Operand, (Division, Receivers)),
    size_error: ConditionalPhrases<Located<Statement>>,
) -> Statement
    ensures { result ≡ grammar.divide_node (parts, size_error) }
{
    let (first, (division, (second, receivers))) = parts;
    match second {
        Some(second) => Statement::DivideGiving {
            first,
            division,
            second,
            giving: receivers,
            size_error,
        },
        None => Statement::Divide {
            operand: first,
            into: receivers,
            size_error,
        },
    }
}
