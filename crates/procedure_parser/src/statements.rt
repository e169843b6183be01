//! Statements, by what follows their verbs. `depth` statements and parentheses may still open.

ghost use Rattle.std.specs.Prelude.{◌≡◌, Ok};
ghost use Rattle.cob_base.specs.Form.Form.{optional};
ghost use Rattle.cob_base.specs.Form.{at_word, is_there};
ghost use Rattle.cob_base.specs.Statements as grammar;
ghost use Rattle.phrase_parser.specs.Reading.{Gives, read};
ghost use Rattle.procedure_parser.specs.Nests.{Nests};
ghost use Rattle.procedure_parser.specs.StatementChoices.{opens_verb, opens_statement_at, by_verb_at, one_too_many, statement_at};

use crate::file_statements::{
    accept_rest, close_rest, delete_rest, display_rest, open_rest, read_rest, rewrite_rest,
    start_rest, unlock_rest, write_rest,
};
use crate::nodes::{add_node, divide_node, multiply_node, subtract_node};
use crate::phrases::{else_part, size_error};
use cob_base::{ByteText, Items, Keyword, Located, Mark, Misfit, Statement, Token, Verb};
use condition_parser::{cond, expr, optional_repeated};
use phrase_parser::{
    PhraseFault, expect, expect_mark, from_stop, name, next_is, no_fit, noise, operand, some,
};
use std::alloc::Global;
use verb_phrases::{added, divided, multiplied, references, subtracted};

/// `MOVE operand TO ref+`
#[tactic(auto, unfolding(cob_base::specs::Statements::move_rest))]
pub fn move_rest(
    alloc: Global,
    depth: usize,
    words: &[Token],
) -> Result<(Statement, &[Token]), PhraseFault>
    ensures { Gives (λ x. (x.0, x.1.now)) result (read (grammar.move_rest depth) words.now) }
{
    let (from, rest) = operand(alloc, depth, words)?;
    let rest = expect(rest, Keyword::To)?;
    let (to, rest) = references(alloc, depth, rest)?;
    Ok((Statement::Move { from, to }, rest))
}

/// `ADD operand+ TO ref+ size [END-ADD] | ADD operand+ [TO] operand GIVING ref+ size [END-ADD]`
#[tactic(auto, unfolding(cob_base::specs::Statements::add_rest))]
pub fn add_rest<
    'a,
    F: Fn(Global, usize, &[Token]) -> Result<(Items<Located<Statement>>, &[Token]), PhraseFault>,
>(
    alloc: Global,
    depth: usize,
    inside: &F,
    words: &'a [Token],
) -> Result<(Statement, &'a [Token]), PhraseFault>
    requires { Nests depth (F.pre inside.now) (F.post inside.now) }
    ensures { Gives (λ x. (x.0, x.1.now)) result (read (grammar.add_rest depth (grammar.statement depth)) words.now) }
{
    let (parts, rest) = added(alloc, depth, words)?;
    let (size_error, rest) = size_error(alloc, depth, inside, rest)?;
    let (_end, rest) = noise(rest, Keyword::EndAdd);
    Ok((add_node(parts, size_error), rest))
}

/// `SUBTRACT operand+ FROM ref+ size [END-SUBTRACT] | SUBTRACT operand+ FROM operand GIVING ref+ size [END-SUBTRACT]`
#[tactic(auto, unfolding(cob_base::specs::Statements::subtract_rest))]
pub fn subtract_rest<
    'a,
    F: Fn(Global, usize, &[Token]) -> Result<(Items<Located<Statement>>, &[Token]), PhraseFault>,
>(
    alloc: Global,
    depth: usize,
    inside: &F,
    words: &'a [Token],
) -> Result<(Statement, &'a [Token]), PhraseFault>
    requires { Nests depth (F.pre inside.now) (F.post inside.now) }
    ensures { Gives (λ x. (x.0, x.1.now)) result (read (grammar.subtract_rest depth (grammar.statement depth)) words.now) }
{
    let (parts, rest) = subtracted(alloc, depth, words)?;
    let (size_error, rest) = size_error(alloc, depth, inside, rest)?;
    let (_end, rest) = noise(rest, Keyword::EndSubtract);
    Ok((subtract_node(parts, size_error), rest))
}

/// `MULTIPLY operand BY ref+ size [END-MULTIPLY] | MULTIPLY operand BY operand GIVING ref+ size [END-MULTIPLY]`
#[tactic(auto, unfolding(cob_base::specs::Statements::multiply_rest))]
pub fn multiply_rest<
    'a,
    F: Fn(Global, usize, &[Token]) -> Result<(Items<Located<Statement>>, &[Token]), PhraseFault>,
>(
    alloc: Global,
    depth: usize,
    inside: &F,
    words: &'a [Token],
) -> Result<(Statement, &'a [Token]), PhraseFault>
    requires { Nests depth (F.pre inside.now) (F.post inside.now) }
    ensures { Gives (λ x. (x.0, x.1.now)) result (read (grammar.multiply_rest depth (grammar.statement depth)) words.now) }
{
    let (parts, rest) = multiplied(alloc, depth, words)?;
    let (size_error, rest) = size_error(alloc, depth, inside, rest)?;
    let (_end, rest) = noise(rest, Keyword::EndMultiply);
    Ok((multiply_node(parts, size_error), rest))
}

/// `DIVIDE operand INTO ref+ size [END-DIVIDE] | DIVIDE operand (INTO|BY) operand GIVING ref+ size [END-DIVIDE]`
#[tactic(auto, unfolding(cob_base::specs::Statements::divide_rest))]
pub fn divide_rest<
    'a,
    F: Fn(Global, usize, &[Token]) -> Result<(Items<Located<Statement>>, &[Token]), PhraseFault>,
>(
    alloc: Global,
    depth: usize,
    inside: &F,
    words: &'a [Token],
) -> Result<(Statement, &'a [Token]), PhraseFault>
    requires { Nests depth (F.pre inside.now) (F.post inside.now) }
    ensures { Gives (λ x. (x.0, x.1.now)) result (read (grammar.divide_rest depth (grammar.statement depth)) words.now) }
{
    let (parts, rest) = divided(alloc, depth, words)?;
    let (size_error, rest) = size_error(alloc, depth, inside, rest)?;
    let (_end, rest) = noise(rest, Keyword::EndDivide);
    Ok((divide_node(parts, size_error), rest))
}

/// `COMPUTE ref+ "=" expr size [END-COMPUTE]`
#[tactic(auto, unfolding(cob_base::specs::Statements::compute_rest))]
pub fn compute_rest<
    'a,
    F: Fn(Global, usize, &[Token]) -> Result<(Items<Located<Statement>>, &[Token]), PhraseFault>,
>(
    alloc: Global,
    depth: usize,
    inside: &F,
    words: &'a [Token],
) -> Result<(Statement, &'a [Token]), PhraseFault>
    requires { Nests depth (F.pre inside.now) (F.post inside.now) }
    ensures { Gives (λ x. (x.0, x.1.now)) result (read (grammar.compute_rest depth (grammar.statement depth)) words.now) }
{
    let (to, rest) = references(alloc, depth, words)?;
    let rest = expect_mark(rest, Mark::Equal)?;
    let (value, rest) = expr(alloc, depth, rest)?;
    let (size_error, rest) = size_error(alloc, depth, inside, rest)?;
    let (_end, rest) = noise(rest, Keyword::EndCompute);
    Ok((
        Statement::Compute {
            to,
            value,
            size_error,
        },
        rest,
    ))
}

/// `IF cond [THEN] statement+ [ELSE statement+] [END-IF]`
#[tactic(auto, unfolding(cob_base::specs::Statements::if_rest, cob_base::specs::Statements::statements))]
pub fn if_rest<
    'a,
    F: Fn(Global, usize, &[Token]) -> Result<(Items<Located<Statement>>, &[Token]), PhraseFault>,
>(
    alloc: Global,
    depth: usize,
    inside: &F,
    words: &'a [Token],
) -> Result<(Statement, &'a [Token]), PhraseFault>
    requires { Nests depth (F.pre inside.now) (F.post inside.now) }
    ensures { Gives (λ x. (x.0, x.1.now)) result (read (grammar.if_rest depth (grammar.statement depth)) words.now) }
{
    let (condition, rest) = cond(alloc, depth, words)?;
    let (_then, rest) = noise(rest, Keyword::Then);
    let (first, rest) = inside(alloc, depth, rest)?;
    let (other, rest) = else_part(alloc, depth, inside, rest)?;
    let (_end, rest) = noise(rest, Keyword::EndIf);
    Ok((
        Statement::If {
            condition,
            first,
            other,
        },
        rest,
    ))
}

/// Whether PERFORM takes a paragraph's name here.
fn names_paragraph(words: &[Token]) -> bool
    ensures { result ≡ at_word grammar.names_paragraph words.now }
{
    match words {
        [Token::Name(_), rest @ ..] => after_paragraph(rest),
        _ => false,
    }
}

/// Whether the words after a name let it be a paragraph's.
fn after_paragraph(words: &[Token]) -> bool
    ensures { result ≡ grammar.after_paragraph words.now }
{
    match words {
        [Token::Key(Keyword::Times), ..] => false,
        [Token::Key(Keyword::Of), ..] => false,
        [Token::Mark(Mark::LeftParenthesis), ..] => false,
        _ => true,
    }
}

/// `(THRU|THROUGH) name`
#[tactic(auto, unfolding(cob_base::specs::Statements::through))]
fn through(alloc: Global, words: &[Token]) -> Result<(ByteText, &[Token]), PhraseFault>
    ensures { Gives (λ x. (x.0, x.1.now)) result (read grammar.through words.now) }
{
    let rest = expect(words, Keyword::Through)?;
    name(alloc, rest)
}

/// `[(THRU|THROUGH) name]`
#[tactic(auto, using(crate::proofs::StatementDispatch::opens_through_is))]
fn optional_through(
    alloc: Global,
    words: &[Token],
) -> Result<(Option<ByteText>, &[Token]), PhraseFault>
    ensures { Gives (λ x. (x.0, x.1.now)) result (read (optional grammar.through) words.now) }
{
    if !next_is(words, Keyword::Through) {
        return Ok((None, words));
    }
    let (last, rest) = through(alloc, words)?;
    Ok((Some(last), rest))
}

/// `PERFORM name [(THRU|THROUGH) name] [loop]`
#[tactic(auto, unfolding(cob_base::specs::Statements::perform_paragraphs))]
fn perform_paragraphs(
    alloc: Global,
    depth: usize,
    words: &[Token],
) -> Result<(Statement, &[Token]), PhraseFault>
    ensures { Gives (λ x. (x.0, x.1.now)) result (read (grammar.perform_paragraphs depth) words.now) }
{
    let (first, rest) = name(alloc, words)?;
    let (last, rest) = optional_through(alloc, rest)?;
    let (repeated, rest) = optional_repeated(alloc, depth, rest)?;
    Ok((
        Statement::PerformParagraphs {
            first,
            last,
            repeated,
        },
        rest,
    ))
}

/// `PERFORM [loop] statement+ END-PERFORM`
#[tactic(auto, unfolding(cob_base::specs::Statements::perform_inline, cob_base::specs::Statements::statements))]
pub fn perform_inline<
    'a,
    F: Fn(Global, usize, &[Token]) -> Result<(Items<Located<Statement>>, &[Token]), PhraseFault>,
>(
    alloc: Global,
    depth: usize,
    inside: &F,
    words: &'a [Token],
) -> Result<(Statement, &'a [Token]), PhraseFault>
    requires { Nests depth (F.pre inside.now) (F.post inside.now) }
    ensures { Gives (λ x. (x.0, x.1.now)) result (read (grammar.perform_inline depth (grammar.statement depth)) words.now) }
{
    let (repeated, rest) = optional_repeated(alloc, depth, words)?;
    let (body, rest) = inside(alloc, depth, rest)?;
    let rest = expect(rest, Keyword::EndPerform)?;
    Ok((Statement::PerformInline { repeated, body }, rest))
}

/// What follows PERFORM.
#[tactic(auto, unfolding(cob_base::specs::Statements::perform_rest, cob_base::specs::Statements::perform_paragraphs))]
pub fn perform_rest<
    'a,
    F: Fn(Global, usize, &[Token]) -> Result<(Items<Located<Statement>>, &[Token]), PhraseFault>,
>(
    alloc: Global,
    depth: usize,
    inside: &F,
    words: &'a [Token],
) -> Result<(Statement, &'a [Token]), PhraseFault>
    requires { Nests depth (F.pre inside.now) (F.post inside.now) }
    ensures { Gives (λ x. (x.0, x.1.now)) result (read (grammar.perform_rest depth (grammar.statement depth)) words.now) }
{
    if names_paragraph(words) {
        return perform_paragraphs(alloc, depth, words);
    }
    perform_inline(alloc, depth, inside, words)
}

/// Whether a word after EXIT makes it an outside statement.
fn is_exit_word(token: &Token) -> bool
    ensures { result ≡ is_there (grammar.exit_word token.now) }
{
    match token {
        Token::Verb(Verb::Perform, _) => true,
        Token::Key(Keyword::OutsideExitWord) => true,
        Token::Key(Keyword::Program) => true,
        Token::Key(Keyword::Section) => true,
        _ => false,
    }
}

/// What follows EXIT.
#[tactic(auto, unfolding(cob_base::specs::Statements::exit_rest))]
pub fn exit_rest(words: &[Token]) -> Result<(Statement, &[Token]), PhraseFault>
    ensures { Gives (λ x. (x.0, x.1.now)) result (read grammar.exit_rest words.now) }
{
    match words {
        [first, rest @ ..] if is_exit_word(first) => Ok((Statement::Outside, from_stop(rest))),
        _ => Ok((Statement::Exit, words)),
    }
}

/// What follows CONTINUE: nothing.
#[tactic(auto, unfolding(cob_base::specs::Statements::continue_rest))]
pub fn continue_rest(words: &[Token]) -> Result<(Statement, &[Token]), PhraseFault>
    ensures { Gives (λ x. (x.0, x.1.now)) result (read grammar.continue_rest words.now) }
{
    Ok((Statement::Continue, words))
}

/// What follows STOP.
#[tactic(auto, unfolding(cob_base::specs::Statements::stop_rest))]
pub fn stop_rest(words: &[Token]) -> Result<(Statement, &[Token]), PhraseFault>
    ensures { Gives (λ x. (x.0, x.1.now)) result (read grammar.stop_rest words.now) }
{
    let rest = expect(words, Keyword::Run)?;
    Ok((Statement::StopRun, rest))
}

/// What follows the verb of an outside statement: all words up to the period.
#[tactic(auto, unfolding(cob_base::specs::Statements::outside_rest, cob_base::specs::Statements::to_period))]
pub fn outside_rest(words: &[Token]) -> Result<(Statement, &[Token]), PhraseFault>
    ensures { Gives (λ x. (x.0, x.1.now)) result (read grammar.outside_rest words.now) }
{
    Ok((Statement::Outside, from_stop(words)))
}

/// Whether a verb and the words after it open a statement.
#[tactic(auto, unfolding(crate::specs::StatementChoices::opens_verb))]
fn opens_verb(verb: Verb, words: &[Token]) -> bool
    ensures { result ≡ opens_verb verb words.now }
{
    match verb {
        Verb::Stop => next_is(words, Keyword::Run),
        _ => true,
    }
}

/// Whether a statement comes next.
#[tactic(auto, unfolding(crate::specs::StatementChoices::opens_statement_at))]
pub fn opens_statement(words: &[Token]) -> bool
    ensures { result ≡ opens_statement_at words.now }
{
    match words {
        [Token::Verb(verb, _), rest @ ..] => opens_verb(*verb, rest),
        _ => false,
    }
}

/// What follows a verb, in a statement in which `depth` more statements and parentheses may open.
#[cycle(parser)]
#[tactic(auto, unfolding(crate::specs::StatementChoices::by_verb_at))]
pub fn by_verb(
    alloc: Global,
    depth: usize,
    verb: Verb,
    words: &[Token],
) -> Result<(Statement, &[Token]), PhraseFault>
    ensures { Gives (λ x. (x.0, x.1.now)) result (by_verb_at depth verb words.now) }
{
    match verb {
        Verb::Accept => accept_rest(alloc, depth, &statements, words),
        Verb::Add => add_rest(alloc, depth, &statements, words),
        Verb::Close => close_rest(alloc, words),
        Verb::Compute => compute_rest(alloc, depth, &statements, words),
        Verb::Continue => continue_rest(words),
        Verb::Delete => delete_rest(alloc, depth, &statements, words),
        Verb::Display => display_rest(alloc, words),
        Verb::Divide => divide_rest(alloc, depth, &statements, words),
        Verb::Exit => exit_rest(words),
        Verb::If => if_rest(alloc, depth, &statements, words),
        Verb::Move => move_rest(alloc, depth, words),
        Verb::Multiply => multiply_rest(alloc, depth, &statements, words),
        Verb::Open => open_rest(alloc, depth, words),
        Verb::Perform => perform_rest(alloc, depth, &statements, words),
        Verb::Read => read_rest(alloc, depth, &statements, words),
        Verb::Rewrite => rewrite_rest(alloc, depth, &statements, words),
        Verb::Start => start_rest(alloc, depth, &statements, words),
        Verb::Stop => stop_rest(words),
        Verb::Subtract => subtract_rest(alloc, depth, &statements, words),
        Verb::Unlock => unlock_rest(alloc, words),
        Verb::Write => write_rest(alloc, depth, &statements, words),
        Verb::Outside => outside_rest(words),
    }
}

#[cycle(parser)]
#[tactic(auto, unfolding(crate::specs::StatementChoices::statement_at))]
pub fn statement_by_word(
    alloc: Global,
    depth: usize,
    words: &[Token],
) -> Result<(Located<Statement>, &[Token]), PhraseFault>
    ensures { Gives (λ x. (x.0, x.1.now)) result (statement_at depth words.now) }
{
    match words {
        [Token::Verb(verb, line), rest @ ..] => {
            if depth == 0 {
                return Err(PhraseFault::Misfit(Misfit::Nesting));
            }
            let (item, rest) = by_verb(alloc, depth - 1, *verb, rest)?;
            Ok((Located { line: *line, item }, rest))
        }
        _ => Err(no_fit()),
    }
}

/// A statement, itself among the `depth` statements and parentheses that may still open.
#[cycle(parser)]
#[tactic(auto, using(crate::proofs::StatementDispatch::statement_at_is))]
pub fn statement(
    alloc: Global,
    depth: usize,
    words: &[Token],
) -> Result<(Located<Statement>, &[Token]), PhraseFault>
    ensures { Gives (λ x. (x.0, x.1.now)) result (read (grammar.statement depth) words.now) }
{
    statement_by_word(alloc, depth, words)
}

/// `statement+`
#[cycle(parser)]
#[tactic(auto, using(crate::proofs::StatementDispatch::no_statements_is))]
pub fn statements(
    alloc: Global,
    depth: usize,
    words: &[Token],
) -> Result<(Items<Located<Statement>>, &[Token]), PhraseFault>
    ensures { Gives (λ x. (x.0, x.1.now)) result (read (grammar.statements depth) words.now) }
{
    if depth == 0 {
        return Err(one_too_many(words));
    }
    some(alloc, depth, &opens_statement, &statement, words)
}

/// Why no statement is read where none may open.
#[tactic(auto, unfolding(crate::specs::StatementChoices::one_too_many))]
pub fn one_too_many(words: &[Token]) -> PhraseFault
    ensures { result ≡ PhraseFault.Misfit (one_too_many words.now) }
{
    match words {
        [Token::Verb(_, _), ..] => PhraseFault::Misfit(Misfit::Nesting),
        _ => no_fit(),
    }
}
