//! The clauses of file control entries.

ghost use Rattle.std.specs.Prelude.{◌≡◌, Ok};
ghost use Rattle.cob_base.specs.Form.Form.{optional};
ghost use Rattle.cob_base.specs.Form.{opens, is_there};
ghost use Rattle.cob_base.specs.FileEntries as files;
ghost use Rattle.cob_base.specs.Phrases as shared;
ghost use Rattle.phrase_parser.specs.Reading.{Gives, read, or_no_fit, seen_rest, seen_words};

use cob_base::{Access, FileClause, Keyword, LockMode, LockOn, MAX_OPEN, Token};
use phrase_parser::{
    PhraseFault, expect, found, from_stop, next_is, no_fit, noise, past, reference, sharing,
};
use std::alloc::Global;

/// Whether a reserved word begins a clause that is read and refused.
fn is_outside(keyword: Keyword) -> bool
    ensures { result ≡ is_there (files.outside_file_word keyword) }
{
    match keyword {
        Keyword::Line => true,
        Keyword::Sequential => true,
        Keyword::OutsideFileWord => true,
        _ => false,
    }
}

/// `INDEXED|outside`
#[tactic(auto, unfolding(cob_base::specs::FileEntries::indexed_or_outside, cob_base::specs::FileEntries::outside_file))]
fn indexed_or_outside(words: &[Token]) -> Option<(FileClause, &[Token])>
    ensures { read files.indexed_or_outside words.now ≡ or_no_fit (seen_rest result) }
{
    if let Some(rest) = past(words, Keyword::Indexed) {
        return Some((FileClause::Indexed, rest));
    }
    match words {
        [Token::Key(have), rest @ ..] if is_outside(*have) => Some((
            FileClause::Outside,
            from_stop(rest),
        )),
        _ => None,
    }
}

/// The file access mode that a reserved word is.
fn access_of(keyword: Keyword) -> Option<Access>
    ensures { result ≡ files.access_of keyword }
{
    match keyword {
        Keyword::Sequential => Some(Access::Sequential),
        Keyword::Random => Some(Access::Random),
        Keyword::Dynamic => Some(Access::Dynamic),
        _ => None,
    }
}

/// `[MODE] [IS] (SEQUENTIAL|RANDOM|DYNAMIC)`
#[tactic(auto, unfolding(cob_base::specs::FileEntries::access_mode))]
fn access_mode(words: &[Token]) -> Option<(Access, &[Token])>
    ensures { read files.access_mode words.now ≡ or_no_fit (seen_rest result) }
{
    let (_mode, rest) = noise(words, Keyword::Mode);
    let (_is, rest) = noise(rest, Keyword::Is);
    match rest {
        [Token::Key(have), rest @ ..] => Some((access_of(*have)?, rest)),
        _ => None,
    }
}

/// `ACCESS [MODE] [IS] (SEQUENTIAL|RANDOM|DYNAMIC)`
#[tactic(auto, unfolding(cob_base::specs::FileEntries::access))]
fn access(words: &[Token]) -> Option<(FileClause, &[Token])>
    ensures { read files.access words.now ≡ or_no_fit (seen_rest result) }
{
    let rest = past(words, Keyword::Access)?;
    let (mode, rest) = access_mode(rest)?;
    Some((FileClause::Access(mode), rest))
}

/// `RECORD [KEY] [IS] ref`
#[tactic(auto, unfolding(cob_base::specs::FileEntries::record_key))]
fn record_key(alloc: Global, words: &[Token]) -> Result<(FileClause, &[Token]), PhraseFault>
    ensures { Gives (λ x. (x.0, x.1.now)) result (read files.record_key words.now) }
{
    let rest = expect(words, Keyword::Record)?;
    let (_key, rest) = noise(rest, Keyword::Key);
    let (_is, rest) = noise(rest, Keyword::Is);
    let (key, rest) = reference(alloc, MAX_OPEN, rest)?;
    Ok((FileClause::RecordKey(key), rest))
}

/// `[WITH] DUPLICATES`
#[tactic(auto, unfolding(cob_base::specs::FileEntries::duplicates))]
fn duplicates(words: &[Token]) -> Option<&[Token]>
    ensures { read files.duplicates words.now ≡ or_no_fit (seen_words result) }
{
    let (_with, rest) = noise(words, Keyword::With);
    past(rest, Keyword::Duplicates)
}

/// `[[WITH] DUPLICATES]`, and what follows.
#[tactic(auto, using(crate::proofs::FileDispatch::opens_duplicates_is))]
fn optional_duplicates(words: &[Token]) -> (Option<()>, &[Token])
    ensures { read (optional files.duplicates) words.now ≡ Ok (result.0, result.1.now) }
{
    match duplicates(words) {
        Some(rest) => (Some(()), rest),
        None => (None, words),
    }
}

/// `ALTERNATE [RECORD] [KEY] [IS] ref [[WITH] DUPLICATES]`
#[tactic(auto, unfolding(cob_base::specs::FileEntries::alternate_key))]
fn alternate_key(alloc: Global, words: &[Token]) -> Result<(FileClause, &[Token]), PhraseFault>
    ensures { Gives (λ x. (x.0, x.1.now)) result (read files.alternate_key words.now) }
{
    let rest = expect(words, Keyword::Alternate)?;
    let (_record, rest) = noise(rest, Keyword::Record);
    let (_key, rest) = noise(rest, Keyword::Key);
    let (_is, rest) = noise(rest, Keyword::Is);
    let (key, rest) = reference(alloc, MAX_OPEN, rest)?;
    let (twice, rest) = optional_duplicates(rest);
    Ok((
        FileClause::AlternateKey {
            key,
            duplicates: twice.is_some(),
        },
        rest,
    ))
}

/// `ORGANIZATION [IS]`
#[tactic(auto, unfolding(cob_base::specs::FileEntries::organization_words))]
fn organization_words(words: &[Token]) -> Option<(bool, &[Token])>
    ensures { read files.organization_words words.now ≡ or_no_fit (seen_rest result) }
{
    let rest = past(words, Keyword::Organization)?;
    Some(noise(rest, Keyword::Is))
}

/// `[ORGANIZATION [IS]]`, and what follows.
#[tactic(auto, using(crate::proofs::FileDispatch::opens_organization_words_is))]
fn optional_organization_words(words: &[Token]) -> (Option<bool>, &[Token])
    ensures { read (optional files.organization_words) words.now ≡ Ok (result.0, result.1.now) }
{
    match organization_words(words) {
        Some((is, rest)) => (Some(is), rest),
        None => (None, words),
    }
}

/// `[ORGANIZATION [IS]] (INDEXED|outside)`
#[tactic(auto, unfolding(cob_base::specs::FileEntries::organization))]
fn organization(words: &[Token]) -> Option<(FileClause, &[Token])>
    ensures { read files.organization words.now ≡ or_no_fit (seen_rest result) }
{
    let (_words, rest) = optional_organization_words(words);
    indexed_or_outside(rest)
}

/// `[FILE] STATUS`
#[tactic(auto, unfolding(cob_base::specs::FileEntries::status_words))]
fn status_words(words: &[Token]) -> Option<&[Token]>
    ensures { read files.status_words words.now ≡ or_no_fit (seen_words result) }
{
    let (_file, rest) = noise(words, Keyword::File);
    past(rest, Keyword::Status)
}

/// `[FILE] STATUS [IS] ref`
#[tactic(auto, unfolding(cob_base::specs::FileEntries::file_status, cob_base::specs::FileEntries::status_rest))]
fn file_status(alloc: Global, words: &[Token]) -> Result<(FileClause, &[Token]), PhraseFault>
    ensures { Gives (λ x. (x.0, x.1.now)) result (read files.file_status words.now) }
{
    match status_words(words) {
        Some(rest) => {
            let (_is, rest) = noise(rest, Keyword::Is);
            let (item, rest) = reference(alloc, MAX_OPEN, rest)?;
            Ok((FileClause::FileStatus(item), rest))
        }
        None => Err(no_fit()),
    }
}

/// The lock mode that a reserved word is.
fn lock_mode_of(keyword: Keyword) -> Option<LockMode>
    ensures { result ≡ files.lock_mode_of keyword }
{
    match keyword {
        Keyword::Manual => Some(LockMode::Manual),
        Keyword::Automatic => Some(LockMode::Automatic),
        _ => None,
    }
}

/// `[MODE] [IS] (MANUAL|AUTOMATIC)`
#[tactic(auto, unfolding(cob_base::specs::FileEntries::lock_mode))]
fn lock_mode(words: &[Token]) -> Option<(LockMode, &[Token])>
    ensures { read files.lock_mode words.now ≡ or_no_fit (seen_rest result) }
{
    let (_mode, rest) = noise(words, Keyword::Mode);
    let (_is, rest) = noise(rest, Keyword::Is);
    match rest {
        [Token::Key(have), rest @ ..] => Some((lock_mode_of(*have)?, rest)),
        _ => None,
    }
}

/// Whether a reserved word is RECORD or RECORDS.
fn is_record_or_records(keyword: Keyword) -> bool
    ensures { result ≡ is_there (shared.record_or_records keyword) }
{
    match keyword {
        Keyword::Record => true,
        Keyword::Records => true,
        _ => false,
    }
}

/// `[WITH] LOCK ON [MULTIPLE] (RECORD|RECORDS)`
#[tactic(auto, unfolding(cob_base::specs::FileEntries::lock_on))]
fn lock_on(words: &[Token]) -> Option<(LockOn, &[Token])>
    ensures { read files.lock_on words.now ≡ or_no_fit (seen_rest result) }
{
    let (_with, rest) = noise(words, Keyword::With);
    let rest = past(rest, Keyword::Lock)?;
    let rest = past(rest, Keyword::On)?;
    let (multiple, rest) = noise(rest, Keyword::Multiple);
    match rest {
        [Token::Key(have), rest @ ..] if is_record_or_records(*have) => Some((
            LockOn { multiple },
            rest,
        )),
        _ => None,
    }
}

/// `[[WITH] LOCK ON [MULTIPLE] (RECORD|RECORDS)]`, and what follows.
#[tactic(auto, using(crate::proofs::FileDispatch::opens_lock_on_is))]
fn optional_lock_on(words: &[Token]) -> (Option<LockOn>, &[Token])
    ensures { read (optional files.lock_on) words.now ≡ Ok (result.0, result.1.now) }
{
    match lock_on(words) {
        Some((on, rest)) => (Some(on), rest),
        None => (None, words),
    }
}

/// `LOCK [MODE] [IS] (MANUAL|AUTOMATIC)`
#[tactic(auto, unfolding(cob_base::specs::FileEntries::lock_front))]
fn lock_front(words: &[Token]) -> Option<(LockMode, &[Token])>
    ensures { read files.lock_front words.now ≡ or_no_fit (seen_rest result) }
{
    let rest = past(words, Keyword::Lock)?;
    lock_mode(rest)
}

/// `LOCK [MODE] [IS] (MANUAL|AUTOMATIC) [[WITH] LOCK ON [MULTIPLE] (RECORD|RECORDS)]`
#[tactic(auto, unfolding(cob_base::specs::FileEntries::lock))]
fn lock(words: &[Token]) -> Option<(FileClause, &[Token])>
    ensures { read files.lock words.now ≡ or_no_fit (seen_rest result) }
{
    let (mode, rest) = lock_front(words)?;
    let (on, rest) = optional_lock_on(rest);
    Some((FileClause::Lock { mode, on }, rest))
}

/// `SHARING [WITH] sharing`
#[tactic(auto, unfolding(cob_base::specs::FileEntries::sharing_clause))]
fn sharing_clause(words: &[Token]) -> Option<(FileClause, &[Token])>
    ensures { read files.sharing_clause words.now ≡ or_no_fit (seen_rest result) }
{
    let rest = past(words, Keyword::Sharing)?;
    let (_with, rest) = noise(rest, Keyword::With);
    let (sharing, rest) = sharing(rest)?;
    Some((FileClause::Sharing(sharing), rest))
}

#[tactic(auto, using(crate::proofs::FileDispatch::opens_organization_is))]
fn opens_organization(words: &[Token]) -> bool
    ensures { result ≡ opens files.organization words.now }
{
    organization(words).is_some()
}

#[tactic(auto, using(crate::proofs::FileDispatch::opens_access_is))]
fn opens_access(words: &[Token]) -> bool
    ensures { result ≡ opens files.access words.now }
{
    access(words).is_some()
}

#[tactic(auto, using(crate::proofs::FileDispatch::opens_record_key_is))]
fn opens_record_key(words: &[Token]) -> bool
    ensures { result ≡ opens files.record_key words.now }
{
    next_is(words, Keyword::Record)
}

#[tactic(auto, using(crate::proofs::FileDispatch::opens_alternate_key_is))]
fn opens_alternate_key(words: &[Token]) -> bool
    ensures { result ≡ opens files.alternate_key words.now }
{
    next_is(words, Keyword::Alternate)
}

#[tactic(auto, using(crate::proofs::FileDispatch::opens_file_status_is))]
fn opens_file_status(words: &[Token]) -> bool
    ensures { result ≡ opens files.file_status words.now }
{
    status_words(words).is_some()
}

#[tactic(auto, using(crate::proofs::FileDispatch::opens_lock_is))]
fn opens_lock(words: &[Token]) -> bool
    ensures { result ≡ opens files.lock words.now }
{
    lock_front(words).is_some()
}

#[tactic(auto, using(crate::proofs::FileDispatch::opens_sharing_clause_is))]
fn opens_sharing_clause(words: &[Token]) -> bool
    ensures { result ≡ opens files.sharing_clause words.now }
{
    next_is(words, Keyword::Sharing)
}

/// A clause of a file control entry.
#[tactic(auto, unfolding(cob_base::specs::FileEntries::file_clause, cob_base::specs::FileEntries::file_clause_within))]
pub fn file_clause(
    alloc: Global,
    _depth: usize,
    words: &[Token],
) -> Result<(FileClause, &[Token]), PhraseFault>
    ensures { Gives (λ x. (x.0, x.1.now)) result (read files.file_clause words.now) }
{
    if opens_organization(words) {
        return found(organization(words));
    }
    if opens_access(words) {
        return found(access(words));
    }
    if opens_record_key(words) {
        return record_key(alloc, words);
    }
    if opens_alternate_key(words) {
        return alternate_key(alloc, words);
    }
    if opens_file_status(words) {
        return file_status(alloc, words);
    }
    if opens_lock(words) {
        return found(lock(words));
    }
    found(sharing_clause(words))
}

/// Whether a clause of a file control entry comes next.
#[tactic(auto, unfolding(cob_base::specs::FileEntries::file_clause, cob_base::specs::FileEntries::file_clause_within))]
pub fn opens_file_clause(words: &[Token]) -> bool
    ensures { result ≡ opens files.file_clause words.now }
{
    opens_organization(words)
        || opens_access(words)
        || opens_record_key(words)
        || opens_alternate_key(words)
        || opens_file_status(words)
        || opens_lock(words)
        || opens_sharing_clause(words)
}
