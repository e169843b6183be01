//! Phrases that tell what is done where a condition arises. `depth` statements and parentheses may still open.

ghost use Rattle.std.specs.Prelude.{◌≡◌};
ghost use Rattle.cob_base.specs.Form.Form.{optional};
ghost use Rattle.cob_base.specs.StatementPhrases as phrases;
ghost use Rattle.cob_base.specs.Statements as grammar;
ghost use Rattle.phrase_parser.specs.Reading.{Gives, read, or_no_fit, seen_words};
ghost use Rattle.procedure_parser.specs.Nests.{Nests};
ghost use Rattle.procedure_parser.specs.Choices.{phrase_of};

use cob_base::{ConditionalPhrases, Items, Keyword, Located, Statement, Token};
use phrase_parser::{PhraseFault, noise, past};
use std::alloc::Global;

/// `[ON] SIZE ERROR`
#[tactic(auto, unfolding(cob_base::specs::StatementPhrases::size_words))]
fn size_words(words: &[Token]) -> Option<&[Token]>
    ensures { read phrases.size_words words.now ≡ or_no_fit (seen_words result) }
{
    let (_on, rest) = noise(words, Keyword::On);
    let rest = past(rest, Keyword::Size)?;
    past(rest, Keyword::Error)
}

/// `NOT [ON] SIZE ERROR`
#[tactic(auto, unfolding(cob_base::specs::StatementPhrases::not_words))]
fn not_size_words(words: &[Token]) -> Option<&[Token]>
    ensures { read (phrases.not_words phrases.size_words) words.now ≡ or_no_fit (seen_words result) }
{
    let rest = past(words, Keyword::Not)?;
    size_words(rest)
}

/// `INVALID [KEY]`
#[tactic(auto, unfolding(cob_base::specs::StatementPhrases::invalid_words))]
fn invalid_words(words: &[Token]) -> Option<&[Token]>
    ensures { read phrases.invalid_words words.now ≡ or_no_fit (seen_words result) }
{
    let rest = past(words, Keyword::Invalid)?;
    let (_key, rest) = noise(rest, Keyword::Key);
    Some(rest)
}

/// `NOT INVALID [KEY]`
#[tactic(auto, unfolding(cob_base::specs::StatementPhrases::not_words))]
fn not_invalid_words(words: &[Token]) -> Option<&[Token]>
    ensures { read (phrases.not_words phrases.invalid_words) words.now ≡ or_no_fit (seen_words result) }
{
    let rest = past(words, Keyword::Not)?;
    invalid_words(rest)
}

/// `[AT] END`
#[tactic(auto, unfolding(cob_base::specs::StatementPhrases::end_words))]
fn end_words(words: &[Token]) -> Option<&[Token]>
    ensures { read phrases.end_words words.now ≡ or_no_fit (seen_words result) }
{
    let (_at, rest) = noise(words, Keyword::At);
    past(rest, Keyword::End)
}

/// `NOT [AT] END`
#[tactic(auto, unfolding(cob_base::specs::StatementPhrases::not_words))]
fn not_end_words(words: &[Token]) -> Option<&[Token]>
    ensures { read (phrases.not_words phrases.end_words) words.now ≡ or_no_fit (seen_words result) }
{
    let rest = past(words, Keyword::Not)?;
    end_words(rest)
}

/// `[ON] EXCEPTION`
#[tactic(auto, unfolding(cob_base::specs::StatementPhrases::exception_words))]
fn exception_words(words: &[Token]) -> Option<&[Token]>
    ensures { read phrases.exception_words words.now ≡ or_no_fit (seen_words result) }
{
    let (_on, rest) = noise(words, Keyword::On);
    past(rest, Keyword::Exception)
}

/// `NOT [ON] EXCEPTION`
#[tactic(auto, unfolding(cob_base::specs::StatementPhrases::not_words))]
fn not_exception_words(words: &[Token]) -> Option<&[Token]>
    ensures { read (phrases.not_words phrases.exception_words) words.now ≡ or_no_fit (seen_words result) }
{
    let rest = past(words, Keyword::Not)?;
    exception_words(rest)
}

/// `ELSE`
#[tactic(auto, unfolding(cob_base::specs::StatementPhrases::else_words))]
fn else_words(words: &[Token]) -> Option<&[Token]>
    ensures { read phrases.else_words words.now ≡ or_no_fit (seen_words result) }
{
    past(words, Keyword::Else)
}

/// The statements of a phrase, where its words stand before `front`.
#[tactic(auto, unfolding(crate::specs::Choices::phrase_of))]
fn phrase<
    'a,
    F: Fn(Global, usize, &[Token]) -> Result<(Items<Located<Statement>>, &[Token]), PhraseFault>,
>(
    alloc: Global,
    depth: usize,
    inside: &F,
    front: Option<&'a [Token]>,
    words: &'a [Token],
) -> Result<(Option<Items<Located<Statement>>>, &'a [Token]), PhraseFault>
    requires { Nests depth (F.pre inside.now) (F.post inside.now) }
    ensures { Gives (λ x. (x.0, x.1.now)) result (phrase_of depth (or_no_fit (seen_words front.entry)) words.now) }
{
    match front {
        Some(rest) => {
            let (found, rest) = inside(alloc, depth, rest)?;
            Ok((Some(found), rest))
        }
        None => Ok((None, words)),
    }
}

/// `[[ON] SIZE ERROR statement+] [NOT [ON] SIZE ERROR statement+]`
#[tactic(auto, unfolding(cob_base::specs::StatementPhrases::size_error, cob_base::specs::StatementPhrases::phrases), using(crate::proofs::PhraseDispatch::on_size_error_is, crate::proofs::PhraseDispatch::not_on_size_error_is))]
pub fn size_error<
    'a,
    F: Fn(Global, usize, &[Token]) -> Result<(Items<Located<Statement>>, &[Token]), PhraseFault>,
>(
    alloc: Global,
    depth: usize,
    inside: &F,
    words: &'a [Token],
) -> Result<(ConditionalPhrases<Located<Statement>>, &'a [Token]), PhraseFault>
    requires { Nests depth (F.pre inside.now) (F.post inside.now) }
    ensures { Gives (λ x. (x.0, x.1.now)) result (read (phrases.size_error (grammar.statement depth)) words.now) }
{
    let (on, rest) = phrase(alloc, depth, inside, size_words(words), words)?;
    let (not_on, rest) = phrase(alloc, depth, inside, not_size_words(rest), rest)?;
    Ok((ConditionalPhrases { on, not_on }, rest))
}

/// `[INVALID [KEY] statement+] [NOT INVALID [KEY] statement+]`
#[tactic(auto, unfolding(cob_base::specs::StatementPhrases::invalid_key, cob_base::specs::StatementPhrases::phrases), using(crate::proofs::PhraseDispatch::on_invalid_key_is, crate::proofs::PhraseDispatch::not_on_invalid_key_is))]
pub fn invalid_key<
    'a,
    F: Fn(Global, usize, &[Token]) -> Result<(Items<Located<Statement>>, &[Token]), PhraseFault>,
>(
    alloc: Global,
    depth: usize,
    inside: &F,
    words: &'a [Token],
) -> Result<(ConditionalPhrases<Located<Statement>>, &'a [Token]), PhraseFault>
    requires { Nests depth (F.pre inside.now) (F.post inside.now) }
    ensures { Gives (λ x. (x.0, x.1.now)) result (read (phrases.invalid_key (grammar.statement depth)) words.now) }
{
    let (on, rest) = phrase(alloc, depth, inside, invalid_words(words), words)?;
    let (not_on, rest) = phrase(alloc, depth, inside, not_invalid_words(rest), rest)?;
    Ok((ConditionalPhrases { on, not_on }, rest))
}

/// `[[AT] END statement+] [NOT [AT] END statement+]`
#[tactic(auto, unfolding(cob_base::specs::StatementPhrases::at_end, cob_base::specs::StatementPhrases::phrases), using(crate::proofs::PhraseDispatch::on_end_is, crate::proofs::PhraseDispatch::not_on_end_is))]
pub fn at_end<
    'a,
    F: Fn(Global, usize, &[Token]) -> Result<(Items<Located<Statement>>, &[Token]), PhraseFault>,
>(
    alloc: Global,
    depth: usize,
    inside: &F,
    words: &'a [Token],
) -> Result<(ConditionalPhrases<Located<Statement>>, &'a [Token]), PhraseFault>
    requires { Nests depth (F.pre inside.now) (F.post inside.now) }
    ensures { Gives (λ x. (x.0, x.1.now)) result (read (phrases.at_end (grammar.statement depth)) words.now) }
{
    let (on, rest) = phrase(alloc, depth, inside, end_words(words), words)?;
    let (not_on, rest) = phrase(alloc, depth, inside, not_end_words(rest), rest)?;
    Ok((ConditionalPhrases { on, not_on }, rest))
}

/// `[[ON] EXCEPTION statement+] [NOT [ON] EXCEPTION statement+]`
#[tactic(auto, unfolding(cob_base::specs::StatementPhrases::exception, cob_base::specs::StatementPhrases::phrases), using(crate::proofs::PhraseDispatch::on_exception_is, crate::proofs::PhraseDispatch::not_on_exception_is))]
pub fn exception<
    'a,
    F: Fn(Global, usize, &[Token]) -> Result<(Items<Located<Statement>>, &[Token]), PhraseFault>,
>(
    alloc: Global,
    depth: usize,
    inside: &F,
    words: &'a [Token],
) -> Result<(ConditionalPhrases<Located<Statement>>, &'a [Token]), PhraseFault>
    requires { Nests depth (F.pre inside.now) (F.post inside.now) }
    ensures { Gives (λ x. (x.0, x.1.now)) result (read (phrases.exception (grammar.statement depth)) words.now) }
{
    let (on, rest) = phrase(alloc, depth, inside, exception_words(words), words)?;
    let (not_on, rest) = phrase(alloc, depth, inside, not_exception_words(rest), rest)?;
    Ok((ConditionalPhrases { on, not_on }, rest))
}

/// `[ELSE statement+]`
#[tactic(auto, unfolding(cob_base::specs::StatementPhrases::else_part), using(crate::proofs::PhraseDispatch::else_part_is))]
pub fn else_part<
    'a,
    F: Fn(Global, usize, &[Token]) -> Result<(Items<Located<Statement>>, &[Token]), PhraseFault>,
>(
    alloc: Global,
    depth: usize,
    inside: &F,
    words: &'a [Token],
) -> Result<(Option<Items<Located<Statement>>>, &'a [Token]), PhraseFault>
    requires { Nests depth (F.pre inside.now) (F.post inside.now) }
    ensures { Gives (λ x. (x.0, x.1.now)) result (read (optional (phrases.else_part (grammar.statement depth))) words.now) }
{
    phrase(alloc, depth, inside, else_words(words), words)
}
