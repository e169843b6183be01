ghost use Rattle.std.specs.Prelude.{◌≡◌, ◌++◌, List, map, filter, OnOk};
ghost use Rattle.cob_base.specs.declared.line.Line.{Line};
ghost use Rattle.data_names.specs.Items.{AreDataItems};
ghost use Rattle.data_names.specs.Table.{IsTable, items_of};
ghost use Rattle.key_rules.specs.Descriptions.{AreDescriptions};
ghost use Rattle.name_rules.specs.Faults.{faults_at};
ghost use Rattle.statement_parts.specs.Seen.{seen_all};
ghost use Rattle.procedure_rules.specs.Keys.{has_bad_key};
ghost use Rattle.procedure_rules.specs.KnownProgram.{IsKnownProgram};
ghost use Rattle.procedure_rules.specs.Reading.{has_bad_lock};
ghost use Rattle.procedure_rules.specs.Performed.{AreCycleLines};
ghost use Rattle.procedure_names.specs.Scoped.{IsScope, front_in, items_in};
ghost use Rattle.statement_parts.specs.Statements as parts;
ghost use Rattle.procedure_rules.specs.Faults.{procedure_faults, lines_where};
ghost use Rattle.procedure_names.specs.UnknownNames.{unknown_in_statements, ambiguous_in_statements};
ghost use Rattle.procedure_names.specs.DoubleParagraphs.{double_paragraphs};
ghost use Rattle.procedure_rules.specs.Kinds.{wrong_kinds_in_statements};
ghost use Rattle.procedure_rules.specs.Phrases.{has_refused_retry, left_out_of_procedure};
ghost use Rattle.procedure_names.specs.SeenNames.{AreStatementMentions};

use crate::keys::has_bad_key;
use crate::kinds::note_wrong_kinds_in_statements;
use crate::known_program::KnownProgram;
use crate::performed::note_cycles;
use crate::phrases::{note_left_out, note_refused_retries};
use crate::reading::has_bad_lock;
use cob_base::{Located, NoMemory, Program, Statement};
use data_names::Table;
use key_rules::Descriptions;
use name_rules::Faults;
use procedure_names::{
    Scope, StatementMentions, mentions_of, note_ambiguous_in_statements, note_double_paragraphs,
    note_miscounted_in_statements, note_unknown_in_statements,
};
use statement_parts::all_statements;
use std::alloc::Global;

/// Notes each KEY phrase that names no key of its file.
fn note_bad_keys(
    alloc: Global,
    faults: &mut Faults,
    known: &KnownProgram,
    statements: &[&Located<Statement>],
) -> Result<(), NoMemory>
    requires { IsKnownProgram known.now }
    ensures { OnOk result (faults.new.found.items ≡ faults.old.found.items ++ faults_at 7 (map (λ one. one.line) (filter (λ one. has_bad_key (front_in known.now.scope.now) (items_in known.now.scope.now) one.item) (seen_all statements.now)))) }
{
    for one in statements {
        let is_bad = has_bad_key(alloc, known, &one.item)?;
        faults.note(7, one.line, is_bad)?;
    }
    Ok(())
}

/// Notes each lock phrase that its file or its statement does not allow.
fn note_bad_locks(
    alloc: Global,
    faults: &mut Faults,
    known: &KnownProgram,
    statements: &[&Located<Statement>],
) -> Result<(), NoMemory>
    requires { IsKnownProgram known.now }
    ensures { OnOk result (faults.new.found.items ≡ faults.old.found.items ++ faults_at 12 (map (λ one. one.line) (filter (λ one. has_bad_lock (front_in known.now.scope.now) (items_in known.now.scope.now) one.item) (seen_all statements.now)))) }
{
    for one in statements {
        let is_bad = has_bad_lock(alloc, known, &one.item)?;
        faults.note(12, one.line, is_bad)?;
    }
    Ok(())
}

/// Notes names that stand for nothing or for several, double names, and what is of a wrong kind.
fn note_names_and_kinds(
    alloc: Global,
    faults: &mut Faults,
    known: &KnownProgram,
    statements: &[&Located<Statement>],
    mentions: &StatementMentions,
) -> Result<(), NoMemory>
    requires known { IsKnownProgram known.now }
    requires statements { seen_all statements.now ≡ parts.statements known.now.scope.now.program.now.paragraphs }
    requires mentions { AreStatementMentions (front_in known.now.scope.now) (items_in known.now.scope.now) (seen_all statements.now) mentions.now }
    ensures { OnOk result (faults.new.found.items ≡ faults.old.found.items ++ faults_at 1 (unknown_in_statements known.now.scope.now.program.now (items_in known.now.scope.now)) ++ faults_at 2 (ambiguous_in_statements known.now.scope.now.program.now (items_in known.now.scope.now)) ++ faults_at 3 (double_paragraphs known.now.scope.now.program.now) ++ faults_at 6 (wrong_kinds_in_statements known.now.scope.now.program.now (items_in known.now.scope.now))) }
{
    note_unknown_in_statements(alloc, faults, known.scope, statements, mentions)?;
    note_ambiguous_in_statements(faults, mentions)?;
    note_double_paragraphs(alloc, faults, known.scope.program)?;
    note_wrong_kinds_in_statements(alloc, faults, known, statements, mentions)?;
    Ok(())
}

/// Notes bad keys, cycles, and what is left out.
fn note_keys_and_forms(
    alloc: Global,
    faults: &mut Faults,
    known: &KnownProgram,
    statements: &[&Located<Statement>],
) -> Result<(), NoMemory>
    requires known { IsKnownProgram known.now }
    requires statements { seen_all statements.now ≡ parts.statements known.now.scope.now.program.now.paragraphs }
    ensures { OnOk result ((cycles : List Line) × AreCycleLines known.now.scope.now.program.now.paragraphs cycles × (faults.new.found.items ≡ faults.old.found.items ++ faults_at 7 (lines_where known.now.scope.now.program.now (has_bad_key (front_in known.now.scope.now) (items_in known.now.scope.now))) ++ faults_at 8 cycles ++ faults_at 9 (lines_where known.now.scope.now.program.now has_refused_retry) ++ faults_at 10 (left_out_of_procedure known.now.scope.now.program.now.paragraphs))) }
{
    note_bad_keys(alloc, faults, known, statements)?;
    note_cycles(alloc, faults, known.scope)?;
    note_refused_retries(alloc, faults, statements)?;
    note_left_out(
        faults,
        statements,
        known.scope.program.paragraphs.as_slice(),
    )?;
    Ok(())
}

/// Notes all faults that statements with these references have.
fn note_in_statements(
    alloc: Global,
    faults: &mut Faults,
    known: &KnownProgram,
    statements: &[&Located<Statement>],
    mentions: &StatementMentions,
) -> Result<(), NoMemory>
    requires known { IsKnownProgram known.now }
    requires statements { seen_all statements.now ≡ parts.statements known.now.scope.now.program.now.paragraphs }
    requires mentions { AreStatementMentions (front_in known.now.scope.now) (items_in known.now.scope.now) (seen_all statements.now) mentions.now }
    ensures { OnOk result ((cycles : List Line) × AreCycleLines known.now.scope.now.program.now.paragraphs cycles × (faults.new.found.items ≡ faults.old.found.items ++ procedure_faults known.now.scope.now.program.now (items_in known.now.scope.now) cycles)) }
{
    note_names_and_kinds(alloc, faults, known, statements, mentions)?;
    note_keys_and_forms(alloc, faults, known, statements)?;
    note_bad_locks(alloc, faults, known, statements)?;
    note_miscounted_in_statements(faults, known.scope, mentions)?;
    Ok(())
}

/// Notes all faults of the procedure division of a program that is known.
fn note_in_program(alloc: Global, faults: &mut Faults, known: &KnownProgram) -> Result<(), NoMemory>
    requires { IsKnownProgram known.now }
    ensures { OnOk result ((cycles : List Line) × AreCycleLines known.now.scope.now.program.now.paragraphs cycles × (faults.new.found.items ≡ faults.old.found.items ++ procedure_faults known.now.scope.now.program.now (items_in known.now.scope.now) cycles)) }
{
    let scope = known.scope;
    let statements = all_statements(alloc, scope.program.paragraphs.as_slice())?;
    let all = statements.as_slice();
    let mentions = mentions_of(alloc, all, scope.table, &scope.conditions)?;
    note_in_statements(alloc, faults, known, all, &mentions)?;
    Ok(())
}

/// Notes all faults of the procedure division of a scope's program.
fn note_in_scope(alloc: Global, faults: &mut Faults, scope: &Scope) -> Result<(), NoMemory>
    requires { IsScope scope.now }
    ensures { OnOk result ((cycles : List Line) × AreCycleLines scope.now.program.now.paragraphs cycles × (faults.new.found.items ≡ faults.old.found.items ++ procedure_faults scope.now.program.now (items_in scope.now) cycles)) }
{
    let known = KnownProgram::of(alloc, scope)?;
    note_in_program(alloc, faults, &known)?;
    Ok(())
}

/// Notes all faults of a program's procedure division. The table is that of the program's items, and the descriptions are those of its
/// files.
pub fn note_procedure_faults(
    alloc: Global,
    faults: &mut Faults,
    program: &Program,
    table: &Table,
    descriptions: &Descriptions,
) -> Result<(), NoMemory>
    requires table { IsTable table.now }
    requires items { AreDataItems program.now.front (items_of table.now) }
    requires descriptions { AreDescriptions program.now.front (items_of table.now) descriptions.now }
    ensures { OnOk result ((cycles : List Line) × AreCycleLines program.now.paragraphs cycles × (faults.new.found.items ≡ faults.old.found.items ++ procedure_faults program.now (items_of table.now) cycles)) }
{
    let scope = Scope::of(alloc, program, table, descriptions)?;
    note_in_scope(alloc, faults, &scope)?;
    Ok(())
}
