//! Statements on files and on the screen, by what follows their verbs. `depth` statements and parentheses may still open.

ghost use Rattle.cob_base.specs.Form.Form.{some};
ghost use Rattle.cob_base.specs.StatementPhrases as phrases;
ghost use Rattle.cob_base.specs.Statements as grammar;
ghost use Rattle.phrase_parser.specs.Reading.{Gives, read};
ghost use Rattle.procedure_parser.specs.Nests.{Nests};

use crate::phrases::{at_end, exception, invalid_key};
use cob_base::{Items, Keyword, Located, Statement, Token};
use phrase_parser::{PhraseFault, from_stop, name, noise};
use std::alloc::Global;
use verb_phrases::{
    names, open_phrases, optional_by_key, optional_direction, optional_from, optional_into,
    optional_lock, optional_locking, optional_place, optional_record_word, optional_retry,
};

/// `OPEN (mode [SHARING [WITH] sharing] [retry] name+)+`
#[tactic(auto, unfolding(cob_base::specs::Statements::open_rest))]
pub fn open_rest(
    alloc: Global,
    depth: usize,
    words: &[Token],
) -> Result<(Statement, &[Token]), PhraseFault>
    ensures { Gives (λ x. (x.0, x.1.now)) result (read (grammar.open_rest depth) words.now) }
{
    let (found, rest) = open_phrases(alloc, depth, words)?;
    Ok((Statement::Open(found), rest))
}

/// `CLOSE name+`
#[tactic(auto, unfolding(cob_base::specs::Statements::close_rest))]
pub fn close_rest(alloc: Global, words: &[Token]) -> Result<(Statement, &[Token]), PhraseFault>
    ensures { Gives (λ x. (x.0, x.1.now)) result (read grammar.close_rest words.now) }
{
    let (files, rest) = names(alloc, words)?;
    Ok((Statement::Close(files), rest))
}

/// `UNLOCK name [RECORD|RECORDS]`
#[tactic(auto, unfolding(cob_base::specs::Statements::unlock_rest))]
pub fn unlock_rest(alloc: Global, words: &[Token]) -> Result<(Statement, &[Token]), PhraseFault>
    ensures { Gives (λ x. (x.0, x.1.now)) result (read grammar.unlock_rest words.now) }
{
    let (file, rest) = name(alloc, words)?;
    let (_record, rest) = optional_record_word(rest);
    Ok((Statement::Unlock(file), rest))
}

/// `DISPLAY name [END-DISPLAY]`, or an outside statement where a literal follows.
#[tactic(auto, unfolding(cob_base::specs::Statements::display_rest, cob_base::specs::Statements::to_period))]
pub fn display_rest(alloc: Global, words: &[Token]) -> Result<(Statement, &[Token]), PhraseFault>
    ensures { Gives (λ x. (x.0, x.1.now)) result (read grammar.display_rest words.now) }
{
    match words {
        [Token::Text(_), rest @ ..] => Ok((Statement::Outside, from_stop(rest))),
        _ => {
            let (screen, rest) = name(alloc, words)?;
            let (_end, rest) = noise(rest, Keyword::EndDisplay);
            Ok((Statement::Display(screen), rest))
        }
    }
}

/// `ACCEPT name [[ON] EXCEPTION statement+] [NOT [ON] EXCEPTION statement+] [END-ACCEPT]`
#[tactic(auto, unfolding(cob_base::specs::Statements::accept_rest))]
pub fn accept_rest<
    'a,
    F: Fn(Global, usize, &[Token]) -> Result<(Items<Located<Statement>>, &[Token]), PhraseFault>,
>(
    alloc: Global,
    depth: usize,
    inside: &F,
    words: &'a [Token],
) -> Result<(Statement, &'a [Token]), PhraseFault>
    requires { Nests depth (F.pre inside.now) (F.post inside.now) }
    ensures { Gives (λ x. (x.0, x.1.now)) result (read (grammar.accept_rest depth (grammar.statement depth)) words.now) }
{
    let (screen, rest) = name(alloc, words)?;
    let (exception, rest) = exception(alloc, depth, inside, rest)?;
    let (_end, rest) = noise(rest, Keyword::EndAccept);
    Ok((Statement::Accept { screen, exception }, rest))
}

/// `READ name [NEXT|PREVIOUS] [RECORD] [INTO ref] [ADVANCING [ON] LOCK | IGNORING LOCK | retry] [[WITH] [NO] LOCK]
/// [KEY [IS] ref] [[AT] END statement+] [NOT [AT] END statement+] [INVALID [KEY] statement+]
/// [NOT INVALID [KEY] statement+] [END-READ]`
#[tactic(auto, unfolding(cob_base::specs::Statements::read_rest))]
pub fn read_rest<
    'a,
    F: Fn(Global, usize, &[Token]) -> Result<(Items<Located<Statement>>, &[Token]), PhraseFault>,
>(
    alloc: Global,
    depth: usize,
    inside: &F,
    words: &'a [Token],
) -> Result<(Statement, &'a [Token]), PhraseFault>
    requires { Nests depth (F.pre inside.now) (F.post inside.now) }
    ensures { Gives (λ x. (x.0, x.1.now)) result (read (grammar.read_rest depth (grammar.statement depth)) words.now) }
{
    let (file, rest) = name(alloc, words)?;
    let (direction, rest) = optional_direction(rest);
    let (_record, rest) = noise(rest, Keyword::Record);
    let (into, rest) = optional_into(alloc, depth, rest)?;
    let (locking, rest) = optional_locking(alloc, depth, rest)?;
    let (lock, rest) = optional_lock(rest);
    let (key, rest) = optional_by_key(alloc, depth, rest)?;
    let (at_end, rest) = at_end(alloc, depth, inside, rest)?;
    let (invalid_key, rest) = invalid_key(alloc, depth, inside, rest)?;
    let (_end, rest) = noise(rest, Keyword::EndRead);
    Ok((
        Statement::Read {
            file,
            direction,
            into,
            locking,
            lock,
            key,
            at_end,
            invalid_key,
        },
        rest,
    ))
}

/// `START name [FIRST|LAST|KEY [IS] [NOT] relation ref] [INVALID [KEY] statement+] [NOT INVALID [KEY] statement+]
/// [END-START]`
#[tactic(auto, unfolding(cob_base::specs::Statements::start_rest))]
pub fn start_rest<
    'a,
    F: Fn(Global, usize, &[Token]) -> Result<(Items<Located<Statement>>, &[Token]), PhraseFault>,
>(
    alloc: Global,
    depth: usize,
    inside: &F,
    words: &'a [Token],
) -> Result<(Statement, &'a [Token]), PhraseFault>
    requires { Nests depth (F.pre inside.now) (F.post inside.now) }
    ensures { Gives (λ x. (x.0, x.1.now)) result (read (grammar.start_rest depth (grammar.statement depth)) words.now) }
{
    let (file, rest) = name(alloc, words)?;
    let (place, rest) = optional_place(alloc, depth, rest)?;
    let (invalid_key, rest) = invalid_key(alloc, depth, inside, rest)?;
    let (_end, rest) = noise(rest, Keyword::EndStart);
    Ok((
        Statement::Start {
            file,
            place,
            invalid_key,
        },
        rest,
    ))
}

/// `WRITE name [FROM operand] [retry] [[WITH] [NO] LOCK] [INVALID [KEY] statement+] [NOT INVALID [KEY] statement+]
/// [END-WRITE]`
#[tactic(auto, unfolding(cob_base::specs::Statements::write_rest))]
pub fn write_rest<
    'a,
    F: Fn(Global, usize, &[Token]) -> Result<(Items<Located<Statement>>, &[Token]), PhraseFault>,
>(
    alloc: Global,
    depth: usize,
    inside: &F,
    words: &'a [Token],
) -> Result<(Statement, &'a [Token]), PhraseFault>
    requires { Nests depth (F.pre inside.now) (F.post inside.now) }
    ensures { Gives (λ x. (x.0, x.1.now)) result (read (grammar.write_rest depth (grammar.statement depth)) words.now) }
{
    let (record, rest) = name(alloc, words)?;
    let (from, rest) = optional_from(alloc, depth, rest)?;
    let (retry, rest) = optional_retry(alloc, depth, rest)?;
    let (lock, rest) = optional_lock(rest);
    let (invalid_key, rest) = invalid_key(alloc, depth, inside, rest)?;
    let (_end, rest) = noise(rest, Keyword::EndWrite);
    Ok((
        Statement::Write {
            record,
            from,
            retry,
            lock,
            invalid_key,
        },
        rest,
    ))
}

/// `REWRITE name [FROM operand] [retry] [[WITH] [NO] LOCK] [INVALID [KEY] statement+] [NOT INVALID [KEY] statement+]
/// [END-REWRITE]`
#[tactic(auto, unfolding(cob_base::specs::Statements::rewrite_rest))]
pub fn rewrite_rest<
    'a,
    F: Fn(Global, usize, &[Token]) -> Result<(Items<Located<Statement>>, &[Token]), PhraseFault>,
>(
    alloc: Global,
    depth: usize,
    inside: &F,
    words: &'a [Token],
) -> Result<(Statement, &'a [Token]), PhraseFault>
    requires { Nests depth (F.pre inside.now) (F.post inside.now) }
    ensures { Gives (λ x. (x.0, x.1.now)) result (read (grammar.rewrite_rest depth (grammar.statement depth)) words.now) }
{
    let (record, rest) = name(alloc, words)?;
    let (from, rest) = optional_from(alloc, depth, rest)?;
    let (retry, rest) = optional_retry(alloc, depth, rest)?;
    let (lock, rest) = optional_lock(rest);
    let (invalid_key, rest) = invalid_key(alloc, depth, inside, rest)?;
    let (_end, rest) = noise(rest, Keyword::EndRewrite);
    Ok((
        Statement::Rewrite {
            record,
            from,
            retry,
            lock,
            invalid_key,
        },
        rest,
    ))
}

/// `DELETE name [RECORD] [retry] [INVALID [KEY] statement+] [NOT INVALID [KEY] statement+] [END-DELETE]`
#[tactic(auto, unfolding(cob_base::specs::Statements::delete_rest))]
pub fn delete_rest<
    'a,
    F: Fn(Global, usize, &[Token]) -> Result<(Items<Located<Statement>>, &[Token]), PhraseFault>,
>(
    alloc: Global,
    depth: usize,
    inside: &F,
    words: &'a [Token],
) -> Result<(Statement, &'a [Token]), PhraseFault>
    requires { Nests depth (F.pre inside.now) (F.post inside.now) }
    ensures { Gives (λ x. (x.0, x.1.now)) result (read (grammar.delete_rest depth (grammar.statement depth)) words.now) }
{
    let (file, rest) = name(alloc, words)?;
    let (_record, rest) = noise(rest, Keyword::Record);
    let (retry, rest) = optional_retry(alloc, depth, rest)?;
    let (invalid_key, rest) = invalid_key(alloc, depth, inside, rest)?;
    let (_end, rest) = noise(rest, Keyword::EndDelete);
    Ok((
        Statement::Delete {
            file,
            retry,
            invalid_key,
        },
        rest,
    ))
}
