ghost use Rattle.std.specs.Prelude.{◌≡◌, ◌++◌, All, map, filter, unwrap_or, IfOk, OnOk};
ghost use Rattle.data_names.specs.References.{found};
ghost use Rattle.name_rules.specs.Faults.{faults_at};
ghost use Rattle.front_rules.specs.Kinds.{is_no_integer};
ghost use Rattle.name_rules.specs.SeenMentions.{IsFoundMention, seen_mention};
ghost use Rattle.statement_parts.specs.Seen.{seen_all};
ghost use Rattle.procedure_names.specs.Names.{paragraph_named};
ghost use Rattle.procedure_rules.specs.Kinds as k;
ghost use Rattle.procedure_rules.specs.KnownProgram.{IsKnownProgram};
ghost use Rattle.procedure_names.specs.Scoped.{IsScope, items_in};

use crate::known_program::KnownProgram;
use crate::reading::is_out_of_order;
use cob_base::{ByteText, Located, NoMemory, Relation, StartPlace, Statement};
use front_rules::note_no_integers;
use name_rules::Faults;
use procedure_names::{Scope, StatementMentions};
use std::alloc::Global;
use value_rules::has_bad_values;

/// Whether a paragraph stands before another one, where both are known.
fn is_before(last: Option<usize>, first: Option<usize>) -> bool
    ensures { result ≡ k.is_before last first }
{
    let Some(last) = last else {
        return false;
    };
    match first {
        Some(first) => last < first,
        None => false,
    }
}

/// Whether the paragraph up to which PERFORM runs stands before the first one.
fn is_backwards(
    alloc: Global,
    scope: &Scope,
    first: &ByteText,
    last: &ByteText,
) -> Result<bool, NoMemory>
    requires { IsScope scope.now }
    ensures { IfOk result (λ back. back ≡ k.is_before (paragraph_named scope.now.program.now.paragraphs last.now) (paragraph_named scope.now.program.now.paragraphs first.now)) }
{
    let first = scope.paragraph_named(alloc, first)?;
    let last = scope.paragraph_named(alloc, last)?;
    Ok(is_before(last, first))
}

/// Whether PERFORM runs up to a paragraph that stands before the first one.
fn is_range_backwards(
    alloc: Global,
    scope: &Scope,
    first: &ByteText,
    last: &Option<ByteText>,
) -> Result<bool, NoMemory>
    requires { IsScope scope.now }
    ensures { IfOk result (λ back. back ≡ k.is_before (paragraph_named scope.now.program.now.paragraphs (unwrap_or last.now first.now)) (paragraph_named scope.now.program.now.paragraphs first.now)) }
{
    match last {
        Some(last) => is_backwards(alloc, scope, first, last),
        None => Ok(false),
    }
}

fn runs_backwards(alloc: Global, scope: &Scope, statement: &Statement) -> Result<bool, NoMemory>
    requires { IsScope scope.now }
    ensures { IfOk result (λ back. back ≡ k.runs_backwards scope.now.program.now.paragraphs statement.now) }
{
    match statement {
        Statement::PerformParagraphs { first, last, .. } => is_range_backwards(
            alloc, scope, first, last,
        ),
        _ => Ok(false),
    }
}

fn is_equal(relation: Relation) -> bool
    ensures { result ≡ k.is_equal relation }
{
    matches!(relation, Relation::Equal)
}

fn is_unequal(place: &StartPlace) -> bool
    ensures { result ≡ k.is_unequal place.now }
{
    match place {
        StartPlace::Key {
            negated,
            relation,
            ..
        } => *negated && is_equal(*relation),
        _ => false,
    }
}

/// Whether START stands with NOT =.
fn starts_unequal(statement: &Statement) -> bool
    ensures { result ≡ k.starts_unequal statement.now }
{
    match statement {
        Statement::Start {
            place: Some(place),
            ..
        } => is_unequal(place),
        _ => false,
    }
}

/// Whether a statement is of a wrong kind.
fn is_of_wrong_kind(
    alloc: Global,
    known: &KnownProgram,
    statement: &Statement,
) -> Result<bool, NoMemory>
    requires { IsKnownProgram known.now }
    ensures { IfOk result (λ bad. bad ≡ k.is_of_wrong_kind known.now.scope.now.program.now (items_in known.now.scope.now) statement.now) }
{
    if has_bad_values(alloc, known.scope, &known.judged, statement)? {
        return Ok(true);
    }
    if runs_backwards(alloc, known.scope, statement)? {
        return Ok(true);
    }
    if is_out_of_order(alloc, known, statement)? {
        return Ok(true);
    }
    Ok(starts_unequal(statement))
}

/// Notes the statements that are of a wrong kind.
fn note_statements(
    alloc: Global,
    faults: &mut Faults,
    known: &KnownProgram,
    statements: &[&Located<Statement>],
) -> Result<(), NoMemory>
    requires { IsKnownProgram known.now }
    ensures { OnOk result (faults.new.found.items ≡ faults.old.found.items ++ faults_at 6 (map (λ one. one.line) (filter (λ one. k.is_of_wrong_kind known.now.scope.now.program.now (items_in known.now.scope.now) one.item) (seen_all statements.now)))) }
{
    for one in statements {
        let is_wrong = is_of_wrong_kind(alloc, known, &one.item)?;
        faults.note(6, one.line, is_wrong)?;
    }
    Ok(())
}

/// Notes the statements that are of a wrong kind, and the subscripts whose item is no integer.
pub fn note_wrong_kinds_in_statements(
    alloc: Global,
    faults: &mut Faults,
    known: &KnownProgram,
    statements: &[&Located<Statement>],
    mentions: &StatementMentions,
) -> Result<(), NoMemory>
    requires known { IsKnownProgram known.now }
    requires found { All (IsFoundMention (items_in known.now.scope.now)) mentions.now.subscripts.items }
    ensures { OnOk result (faults.new.found.items ≡ faults.old.found.items ++ faults_at 6 (map (λ one. one.line) (filter (λ one. k.is_of_wrong_kind known.now.scope.now.program.now (items_in known.now.scope.now) one.item) (seen_all statements.now)) ++ map (λ one. one.line) (filter (λ one. is_no_integer (found (items_in known.now.scope.now) one.reference)) (map seen_mention mentions.now.subscripts.items)))) }
{
    note_statements(alloc, faults, known, statements)?;
    note_no_integers(faults, known.scope.table, mentions.subscripts.as_slice())?;
    Ok(())
}
