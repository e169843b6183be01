ghost use Rattle.std.specs.Prelude.{◌≡◌, ◌<◌, ◌==◌, nat_lt, ◌&&◌, ◌||◌, ◌++◌, not, is_some, option_map, List, length, map, filter, slice_get, Some, All, OnOk};
ghost use Rattle.cob_base.specs.declared.paragraphs.Program.{Program};
ghost use Rattle.data_names.specs.Items.{DataItem};
ghost use Rattle.name_rules.specs.Subscripts.{is_miscounted};
ghost use Rattle.cob_base.specs.declared.divisions.Front.{Front};
ghost use Rattle.cob_base.specs.declared.operands.Reference.{Reference};
ghost use Rattle.data_names.specs.Spots.{is_table};
ghost use Rattle.name_rules.specs.Mentions as m;
ghost use Rattle.procedure_names.specs.Conditions.{NamedCondition, conditions, count_of_conditions, found_condition};
ghost use Rattle.procedure_names.specs.Mentions.{asked, asked_names};
ghost use Rattle.name_rules.specs.Faults.{faults_at};
ghost use Rattle.statement_parts.specs.References.{names_of};
ghost use Rattle.statement_parts.specs.Statements as parts;
ghost use Rattle.statement_parts.specs.Seen.{seen_all};
ghost use Rattle.procedure_names.specs.Names.{is_known};
ghost use Rattle.procedure_names.specs.UnknownNames.{ends_otherwise, unknown_in_statements, ambiguous_in_statements, miscounted_in_statements};
ghost use Rattle.procedure_names.specs.Scoped.{IsScope, front_in, items_in};
ghost use Rattle.procedure_names.specs.SeenConditions.{IsFoundCondition};
ghost use Rattle.procedure_names.specs.SeenNames.{seen_condition, IsFoundAsCondition, AreFoundConditions, AreStatementMentions};

use crate::mentions::{ConditionMention, StatementMentions};
use crate::scope::Scope;
use cob_base::{EndProgram, Located, NoMemory, Statement};
use data_names::{Found, same_name};
use name_rules::{Faults, note_ambiguous, note_miscounted_in, note_unknown};
use statement_parts::names_of;
use std::alloc::Global;

/// Notes each name in statements that stands for nothing, and a wrong name after END PROGRAM.
pub fn note_unknown_in_statements(
    alloc: Global,
    faults: &mut Faults,
    scope: &Scope,
    statements: &[&Located<Statement>],
    mentions: &StatementMentions,
) -> Result<(), NoMemory>
    requires scope { IsScope scope.now }
    requires statements { seen_all statements.now ≡ parts.statements scope.now.program.now.paragraphs }
    requires mentions { AreStatementMentions (front_in scope.now) (items_in scope.now) (seen_all statements.now) mentions.now }
    ensures { OnOk result (faults.new.found.items ≡ faults.old.found.items ++ faults_at 1 (unknown_in_statements scope.now.program.now (items_in scope.now))) }
{
    note_unknown(faults, mentions.items.as_slice())?;
    note_unknown(faults, mentions.subscripts.as_slice())?;
    note_unknown_conditions(faults, mentions.conditions.as_slice())?;
    note_unknown_names(alloc, faults, scope, statements)?;
    note_end(faults, scope)?;
    Ok(())
}

/// Notes each reference that no 88 entry matches.
fn note_unknown_conditions(
    faults: &mut Faults,
    mentions: &[ConditionMention],
) -> Result<(), NoMemory>
    ensures { (front : Front) (items : List DataItem) (all : List m.Mention) → AreFoundConditions front items all mentions.now → OnOk result (faults.new.found.items ≡ faults.old.found.items ++ faults_at 1 (map (λ one. one.line) (filter (λ one. count_of_conditions front items one.reference == 0) all))) }
{
    for mention in mentions {
        faults.note(1, mention.line, is_nothing(mention.found))?;
    }
    Ok(())
}

fn is_nothing(found: Found) -> bool
    ensures { (front : Front) (items : List DataItem) (reference : Reference) → IsFoundCondition front items reference found → result ≡ (count_of_conditions front items reference == 0) }
{
    match found {
        Found::Nothing => true,
        Found::One(_) => false,
        Found::Several => false,
    }
}

fn is_several(found: Found) -> bool
    ensures { (front : Front) (items : List DataItem) (reference : Reference) → IsFoundCondition front items reference found → result ≡ nat_lt 1 (count_of_conditions front items reference) }
{
    match found {
        Found::Nothing => false,
        Found::One(_) => false,
        Found::Several => true,
    }
}

/// Notes each name in statements that stands for no file, record, screen or paragraph.
fn note_unknown_names(
    alloc: Global,
    faults: &mut Faults,
    scope: &Scope,
    statements: &[&Located<Statement>],
) -> Result<(), NoMemory>
    requires { IsScope scope.now }
    ensures { OnOk result (faults.new.found.items ≡ faults.old.found.items ++ faults_at 1 (map (λ one. one.line) (filter (λ one. not (is_known scope.now.program.now (items_in scope.now) one.name)) (asked_names (seen_all statements.now))))) }
{
    for one in statements {
        note_unknown_names_of(alloc, faults, scope, *one)?;
    }
    Ok(())
}

/// Those of a statement.
fn note_unknown_names_of(
    alloc: Global,
    faults: &mut Faults,
    scope: &Scope,
    one: &Located<Statement>,
) -> Result<(), NoMemory>
    requires { IsScope scope.now }
    ensures { OnOk result (faults.new.found.items ≡ faults.old.found.items ++ faults_at 1 (map (λ name. name.line) (filter (λ name. not (is_known scope.now.program.now (items_in scope.now) name.name)) (map (asked one.now.line) (names_of one.now.item))))) }
{
    let names = names_of(alloc, &one.item)?;
    for name in names.as_slice() {
        let is_known = scope.is_known(alloc, *name)?;
        faults.note(1, one.line, !is_known)?;
    }
    Ok(())
}

/// Notes a name after END PROGRAM other than the program's.
fn note_end(faults: &mut Faults, scope: &Scope) -> Result<(), NoMemory>
    ensures { OnOk result (faults.new.found.items ≡ faults.old.found.items ++ faults_at 1 (ends_otherwise scope.now.program.now)) }
{
    match &scope.program.end_program {
        Some(EndProgram { line, name }) => {
            let is_same = same_name(name, &scope.program.front.program);
            faults.note(1, *line, !is_same)?;
            Ok(())
        }
        None => Ok(()),
    }
}

/// Notes each reference in statements that matches several items or several 88 entries.
pub fn note_ambiguous_in_statements(
    faults: &mut Faults,
    mentions: &StatementMentions,
) -> Result<(), NoMemory>
    ensures { (program : Program) (items : List DataItem) → AreStatementMentions program.front items (parts.statements program.paragraphs) mentions.now → OnOk result (faults.new.found.items ≡ faults.old.found.items ++ faults_at 2 (ambiguous_in_statements program items)) }
{
    note_ambiguous(faults, mentions.items.as_slice())?;
    note_ambiguous(faults, mentions.subscripts.as_slice())?;
    note_ambiguous_conditions(faults, mentions.conditions.as_slice())?;
    Ok(())
}

/// Notes each reference that several 88 entries match.
fn note_ambiguous_conditions(
    faults: &mut Faults,
    mentions: &[ConditionMention],
) -> Result<(), NoMemory>
    ensures { (front : Front) (items : List DataItem) (all : List m.Mention) → AreFoundConditions front items all mentions.now → OnOk result (faults.new.found.items ≡ faults.old.found.items ++ faults_at 2 (map (λ one. one.line) (filter (λ one. nat_lt 1 (count_of_conditions front items one.reference)) all))) }
{
    for mention in mentions {
        faults.note(2, mention.line, is_several(mention.found))?;
    }
    Ok(())
}

/// Notes each reference in statements that has a subscript where its item has no OCCURS in or above it, or none where it has.
pub fn note_miscounted_in_statements(
    faults: &mut Faults,
    scope: &Scope,
    mentions: &StatementMentions,
) -> Result<(), NoMemory>
    requires scope { IsScope scope.now }
    requires mentions { AreStatementMentions (front_in scope.now) (items_in scope.now) (parts.statements scope.now.program.now.paragraphs) mentions.now }
    ensures { OnOk result (faults.new.found.items ≡ faults.old.found.items ++ faults_at 13 (miscounted_in_statements scope.now.program.now (items_in scope.now))) }
{
    note_miscounted_in(faults, scope.table, mentions.items.as_slice())?;
    note_miscounted_in(faults, scope.table, mentions.subscripts.as_slice())?;
    note_miscounted_conditions(faults, scope, mentions.conditions.as_slice())?;
    Ok(())
}

/// Notes those of some references to 88 entries that have a subscript where none is wanted, or none where one is.
fn note_miscounted_conditions(
    faults: &mut Faults,
    scope: &Scope,
    mentions: &[ConditionMention],
) -> Result<(), NoMemory>
    requires scope { IsScope scope.now }
    requires found { All (IsFoundAsCondition (front_in scope.now) (items_in scope.now)) mentions.now }
    ensures { OnOk result (faults.new.found.items ≡ faults.old.found.items ++ faults_at 13 (map (λ one. one.line) (filter (λ one. is_miscounted (is_some one.reference.subscript) (option_map (λ named. named.spot) (found_condition (front_in scope.now) (items_in scope.now) one.reference))) (map seen_condition mentions.now)))) }
{
    for mention in mentions {
        faults.note(13, mention.line, is_miscounted(scope, mention))?;
    }
    Ok(())
}

/// The subscript of an 88 entry counts for its item.
fn is_miscounted(scope: &Scope, mention: &ConditionMention) -> bool
    requires scope { IsScope scope.now }
    requires found { IsFoundAsCondition (front_in scope.now) (items_in scope.now) mention.now }
    ensures { result ≡ is_miscounted (is_some mention.now.reference.now.subscript) (option_map (λ named. named.spot) (found_condition (front_in scope.now) (items_in scope.now) mention.now.reference.now)) }
{
    match mention.found {
        Found::One(at) => is_unlike(
            mention.reference.subscript.is_some(),
            is_in_table(scope, at),
        ),
        Found::Nothing => false,
        Found::Several => false,
    }
}

/// Whether the item of the 88 entry of this number has OCCURS in or above it.
fn is_in_table(scope: &Scope, at: usize) -> bool
    requires scope { IsScope scope.now }
    requires within { at < length (conditions (front_in scope.now) (items_in scope.now)) }
    ensures { (named : NamedCondition) → slice_get (conditions (front_in scope.now) (items_in scope.now)) at ≡ Some named → result ≡ is_table named.spot }
{
    scope.table.facts_at(scope.conditions.get(at).item).table
}

fn is_unlike(subscripted: bool, table: bool) -> bool
    ensures { result ≡ ((subscripted && not table) || (not subscripted && table)) }
{
    subscripted != table
}
