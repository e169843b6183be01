ghost use Rattle.std.specs.Prelude.{◌≡◌, ◌&&◌, ◌||◌, List, Some, is_some, IfOk};
ghost use Rattle.std.specs.Option.{option_copied, IfSome};
ghost use Rattle.cob_base.specs.declared.statements.ReadLocking.{ReadLocking};
ghost use Rattle.data_names.specs.Items.{DataItem};
ghost use Rattle.procedure_rules.specs.KnownFiles.{IsKnownFile, seen_file};
ghost use Rattle.procedure_rules.specs.KnownProgram.{IsKnownProgram};
ghost use Rattle.procedure_names.specs.Names.{file_named};
ghost use Rattle.procedure_rules.specs.Reading as r;
ghost use Rattle.procedure_rules.specs.SeenReading.{seen_reading, seen_readings};
ghost use Rattle.procedure_names.specs.Scoped.{front_in, items_in};

use crate::known_files::KnownFile;
use crate::known_program::KnownProgram;
use cob_base::{
    Access, ByteText, ConditionalPhrases, Located, LockPhrase, NoMemory, ReadLocking, Reference,
    Statement,
};
use std::alloc::Global;

/// What a READ says.
#[derive(Clone, Copy)]
struct Reading<'a> {
    file: &'a ByteText,
    /// Whether NEXT or PREVIOUS is written.
    directed: bool,
    advancing: bool,
    ignoring: bool,
    lock: Option<LockPhrase>,
    key: Option<&'a Reference>,
    /// Whether AT END or NOT AT END is written.
    ending: bool,
    /// Whether INVALID KEY or NOT INVALID KEY is written.
    invalid: bool,
}

fn is_advancing(locking: &Option<ReadLocking>) -> bool
    ensures { result ≡ r.is_advancing locking.now }
{
    matches!(locking, Some(ReadLocking::Advancing))
}

fn is_ignoring(locking: &Option<ReadLocking>) -> bool
    ensures { result ≡ r.is_ignoring locking.now }
{
    matches!(locking, Some(ReadLocking::Ignoring))
}

fn is_either_written(phrases: &ConditionalPhrases<Located<Statement>>) -> bool
    ensures { result ≡ (is_some phrases.now.on || is_some phrases.now.not_on) }
{
    phrases.on.is_some() || phrases.not_on.is_some()
}

fn reading_of(statement: &Statement) -> Option<Reading<'_>>
    ensures { seen_readings result ≡ r.reading_of statement.now }
{
    match statement {
        Statement::Read {
            file,
            direction,
            locking,
            lock,
            key,
            at_end,
            invalid_key,
            ..
        } => Some(Reading {
            file,
            directed: direction.is_some(),
            advancing: is_advancing(locking),
            ignoring: is_ignoring(locking),
            lock: *lock,
            key: key.as_ref(),
            ending: is_either_written(at_end),
            invalid: is_either_written(invalid_key),
        }),
        _ => None,
    }
}

/// Whether NEXT, PREVIOUS, ADVANCING, AT END or NOT AT END is written.
fn is_sequential(reading: &Reading) -> bool
    ensures { result ≡ ((seen_reading reading.now).directed || (seen_reading reading.now).advancing || (seen_reading reading.now).ending) }
{
    reading.directed || reading.advancing || reading.ending
}

/// Whether a READ is random.
fn is_random(access: Access, reading: &Reading) -> bool
    ensures { result ≡ r.is_random access (seen_reading reading.now) }
{
    match access {
        Access::Random => true,
        Access::Dynamic => !is_sequential(reading),
        Access::Sequential => false,
    }
}

fn is_random_access(access: Access) -> bool
    ensures { result ≡ r.is_random_access access }
{
    match access {
        Access::Random => true,
        Access::Dynamic => false,
        Access::Sequential => false,
    }
}

fn is_directed(access: Access, reading: &Reading) -> bool
    ensures { result ≡ (r.is_random_access access && (seen_reading reading.now).directed) }
{
    is_random_access(access) && reading.directed
}

fn has_key_phrases(reading: &Reading) -> bool
    ensures { result ≡ (is_some (seen_reading reading.now).key || (seen_reading reading.now).invalid) }
{
    reading.key.is_some() || reading.invalid
}

/// Whether NEXT or PREVIOUS stands on a READ in random access, or KEY, INVALID KEY or NOT INVALID KEY on one that is not random.
fn is_misread(access: Access, reading: &Reading) -> bool
    ensures { result ≡ r.is_misread access (seen_reading reading.now) }
{
    if is_directed(access, reading) {
        return true;
    }
    if is_random(access, reading) {
        return false;
    }
    has_key_phrases(reading)
}

fn is_misread_in(alloc: Global, known: &KnownProgram, reading: &Reading) -> Result<bool, NoMemory>
    requires { IsKnownProgram known.now }
    ensures { IfOk result (λ bad. bad ≡ r.is_misread_of (front_in known.now.scope.now) (Some (seen_reading reading.now))) }
{
    match known.file_named(alloc, reading.file)? {
        Some(file) => Ok(is_misread(file.access, reading)),
        None => Ok(false),
    }
}

/// Whether a statement is a READ that the access of its file does not have.
fn misreads(alloc: Global, known: &KnownProgram, statement: &Statement) -> Result<bool, NoMemory>
    requires { IsKnownProgram known.now }
    ensures { IfOk result (λ bad. bad ≡ r.is_misread_of (front_in known.now.scope.now) (r.reading_of statement.now)) }
{
    match reading_of(statement) {
        Some(reading) => is_misread_in(alloc, known, &reading),
        None => Ok(false),
    }
}

fn has_random_access(alloc: Global, known: &KnownProgram, file: &ByteText) -> Result<bool, NoMemory>
    requires { IsKnownProgram known.now }
    ensures { IfOk result (λ random. random ≡ r.has_random_access (file_named (front_in known.now.scope.now) file.now)) }
{
    match known.file_named(alloc, file)? {
        Some(file) => Ok(is_random_access(file.access)),
        None => Ok(false),
    }
}

/// Whether a statement is a START in random access.
fn starts_at_random(
    alloc: Global,
    known: &KnownProgram,
    statement: &Statement,
) -> Result<bool, NoMemory>
    requires { IsKnownProgram known.now }
    ensures { IfOk result (λ bad. bad ≡ r.starts_at_random (front_in known.now.scope.now) statement.now) }
{
    match statement {
        Statement::Start { file, .. } => has_random_access(alloc, known, file),
        _ => Ok(false),
    }
}

/// Whether a READ or START is none that the access of its file has.
pub fn is_out_of_order(
    alloc: Global,
    known: &KnownProgram,
    statement: &Statement,
) -> Result<bool, NoMemory>
    requires { IsKnownProgram known.now }
    ensures { IfOk result (λ bad. bad ≡ r.is_out_of_order (front_in known.now.scope.now) statement.now) }
{
    if misreads(alloc, known, statement)? {
        return Ok(true);
    }
    starts_at_random(alloc, known, statement)
}

fn lock_of(statement: &Statement) -> Option<LockPhrase>
    ensures { result ≡ r.lock_of statement.now }
{
    match statement {
        Statement::Read { lock, .. } => *lock,
        Statement::Write { lock, .. } => *lock,
        Statement::Rewrite { lock, .. } => *lock,
        _ => None,
    }
}

/// The file of a statement that may have a lock phrase.
fn locked_file<'a>(
    alloc: Global,
    known: &'a KnownProgram<'a>,
    statement: &Statement,
) -> Result<Option<&'a KnownFile<'a>>, NoMemory>
    requires { IsKnownProgram known.now }
    ensures entry { IfOk result (λ found. seen_file (option_copied found) ≡ r.locked_file (front_in known.entry.now.scope.now) (items_in known.entry.now.scope.now) statement.now) }
    ensures known { IfOk result (λ found. IfSome (option_copied found) (IsKnownFile (items_in known.entry.now.scope.now))) }
{
    match statement {
        Statement::Read { file, .. } => known.file_named(alloc, file),
        Statement::Write { record, .. } => known.file_of_record(alloc, record),
        Statement::Rewrite { record, .. } => known.file_of_record(alloc, record),
        _ => Ok(None),
    }
}

fn lacks_lock_mode(file: Option<&KnownFile>) -> bool
    ensures { (items : List DataItem) → IfSome (option_copied file.entry) (IsKnownFile items) → result ≡ r.lacks_lock_mode (seen_file (option_copied file.entry)) }
{
    match file {
        Some(file) => !file.has_lock_mode,
        None => false,
    }
}

/// Whether a lock phrase stands on a file without LOCK MODE.
fn locks_without_mode(
    alloc: Global,
    known: &KnownProgram,
    statement: &Statement,
) -> Result<bool, NoMemory>
    requires { IsKnownProgram known.now }
    ensures { IfOk result (λ bad. bad ≡ r.locks_without_mode (front_in known.now.scope.now) (items_in known.now.scope.now) statement.now) }
{
    if lock_of(statement).is_none() {
        return Ok(false);
    }
    let file = locked_file(alloc, known, statement)?;
    Ok(lacks_lock_mode(file))
}

fn is_with_lock(lock: Option<LockPhrase>) -> bool
    ensures { result ≡ r.is_with_lock lock }
{
    match lock {
        Some(LockPhrase::Lock) => true,
        Some(LockPhrase::NoLock) => false,
        None => false,
    }
}

fn ignores_and_locks(reading: &Reading) -> bool
    ensures { result ≡ r.ignores_and_locks (Some (seen_reading reading.now)) }
{
    reading.ignoring && is_with_lock(reading.lock)
}

fn advances_at_random(
    alloc: Global,
    known: &KnownProgram,
    reading: &Reading,
) -> Result<bool, NoMemory>
    requires { IsKnownProgram known.now }
    ensures { IfOk result (λ bad. bad ≡ r.advances_at_random (front_in known.now.scope.now) (Some (seen_reading reading.now))) }
{
    match known.file_named(alloc, reading.file)? {
        Some(file) => Ok(reading.advancing && is_random(file.access, reading)),
        None => Ok(false),
    }
}

/// Whether IGNORING stands with WITH LOCK, or ADVANCING on a READ that is random.
fn locks_badly(alloc: Global, known: &KnownProgram, reading: &Reading) -> Result<bool, NoMemory>
    requires { IsKnownProgram known.now }
    ensures { IfOk result (λ bad. bad ≡ r.locks_badly (front_in known.now.scope.now) (Some (seen_reading reading.now))) }
{
    if ignores_and_locks(reading) {
        return Ok(true);
    }
    advances_at_random(alloc, known, reading)
}

fn reads_badly(alloc: Global, known: &KnownProgram, statement: &Statement) -> Result<bool, NoMemory>
    requires { IsKnownProgram known.now }
    ensures { IfOk result (λ bad. bad ≡ r.locks_badly (front_in known.now.scope.now) (r.reading_of statement.now)) }
{
    match reading_of(statement) {
        Some(reading) => locks_badly(alloc, known, &reading),
        None => Ok(false),
    }
}

/// Whether a statement has a lock phrase that it may not have.
pub fn has_bad_lock(
    alloc: Global,
    known: &KnownProgram,
    statement: &Statement,
) -> Result<bool, NoMemory>
    requires { IsKnownProgram known.now }
    ensures { IfOk result (λ bad. bad ≡ r.has_bad_lock (front_in known.now.scope.now) (items_in known.now.scope.now) statement.now) }
{
    if locks_without_mode(alloc, known, statement)? {
        return Ok(true);
    }
    reads_badly(alloc, known, statement)
}
