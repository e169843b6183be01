ghost use Rattle.std.specs.Prelude.{◌≡◌};
ghost use Rattle.std.specs.List.{list_any};
ghost use Rattle.std.specs.Option.{option_copied};
ghost use Rattle.entry_clauses.specs.Clauses.{record_key, file_status, is_of_file_kind, is_file_clause_twice, are_several};

use cob_base::{FileClause, Reference};

/// A clause of a file control entry, as its first word tells it.
#[derive(Clone, Copy, Debug, PartialEq, Eq)]
pub enum FileClauseKind {
    Organization,
    Outside,
    Access,
    RecordKey,
    FileStatus,
    Lock,
    Sharing,
}

/// The clauses that may be written once. An outside clause takes all words after it, so there is one at most.
const FILE_CLAUSE_KINDS: [FileClauseKind; 6] = [
    FileClauseKind::Organization,
    FileClauseKind::Access,
    FileClauseKind::RecordKey,
    FileClauseKind::FileStatus,
    FileClauseKind::Lock,
    FileClauseKind::Sharing,
];

/// The prime key: what RECORD KEY names.
pub fn record_key(clauses: &[FileClause]) -> Option<&Reference>
    ensures { option_copied result ≡ record_key clauses.now }
{
    for clause in clauses {
        if let FileClause::RecordKey(key) = clause {
            return Some(key);
        }
    }
    None
}

/// What FILE STATUS names.
pub fn file_status(clauses: &[FileClause]) -> Option<&Reference>
    ensures { option_copied result ≡ file_status clauses.now }
{
    for clause in clauses {
        if let FileClause::FileStatus(item) = clause {
            return Some(item);
        }
    }
    None
}

fn is_of(kind: FileClauseKind, clause: &FileClause) -> bool
    ensures { result ≡ is_of_file_kind kind clause.now }
{
    match (kind, clause) {
        (FileClauseKind::Organization, FileClause::Indexed) => true,
        (FileClauseKind::Outside, FileClause::Outside) => true,
        (FileClauseKind::Access, FileClause::Access(_)) => true,
        (FileClauseKind::RecordKey, FileClause::RecordKey(_)) => true,
        (FileClauseKind::FileStatus, FileClause::FileStatus(_)) => true,
        (FileClauseKind::Lock, FileClause::Lock { .. }) => true,
        (FileClauseKind::Sharing, FileClause::Sharing(_)) => true,
        _ => false,
    }
}

/// Whether a clause is written.
pub fn has(clauses: &[FileClause], kind: FileClauseKind) -> bool
    ensures { result ≡ list_any (is_of_file_kind kind) clauses.now }
{
    clauses.iter().any(|clause| is_of(kind, clause))
}

fn is_twice(clauses: &[FileClause], kind: FileClauseKind) -> bool
    ensures { result ≡ are_several clauses.now (is_of_file_kind kind) }
{
    clauses.iter().filter(|clause| is_of(kind, clause)).count() > 1
}

/// Whether a clause other than ALTERNATE is written twice.
pub fn is_written_twice(clauses: &[FileClause]) -> bool
    ensures { result ≡ is_file_clause_twice clauses.now }
{
    FILE_CLAUSE_KINDS
        .iter()
        .any(|kind| is_twice(clauses, *kind))
}
