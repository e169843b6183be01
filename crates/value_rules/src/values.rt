ghost use Rattle.std.specs.Prelude.{◌≡◌, map, Option, IfOk};
ghost use Rattle.std.specs.List.{list_any};
ghost use Rattle.picture_rule.specs.Picture.{PictureValue};
ghost use Rattle.data_names.specs.Table.{IsTable, items_of};
ghost use Rattle.name_rules.specs.Mentions.{picture_found};
ghost use Rattle.statement_parts.specs.References.{conditions_of};
ghost use Rattle.statement_parts.specs.Values as v;
ghost use Rattle.statement_parts.specs.Seen.{seen_all, seen_moving, seen_comparing};
ghost use Rattle.procedure_names.specs.Names.{record_named};
ghost use Rattle.procedure_names.specs.Conditions.{found_condition};
ghost use Rattle.value_rules.specs.Kinds as k;
ghost use Rattle.value_rules.specs.JudgedConditions.{AreJudged};
ghost use Rattle.procedure_names.specs.Scoped.{IsScope, front_in, items_in};
ghost use Rattle.value_rules.specs.SeenSides.{IsStandingOf};

use crate::judged_conditions::JudgedConditions;
use crate::sides::{
    Standing, is_bad_comparison, is_bad_move, is_no_number, is_no_numeric, is_no_numeric_constant,
    is_no_whole_constant, side_at, side_of, standing_at, standing_of,
};
use cob_base::{ByteText, NoMemory, Operand, Reference, Statement};
use data_names::{Found, Table};
use front_rules::is_no_integer;
use procedure_names::Scope;
use statement_parts::{
    Comparing, Moving, comparisons_of, conditions_of, counts_of, moves_of, numeric_items_of,
    operands_of, results_of,
};
use std::alloc::Global;

/// Whether an operand can't be moved into an item, where what that is is known.
fn is_bad_sending(
    alloc: Global,
    table: &Table,
    operand: &Operand,
    to: Option<Standing>,
) -> Result<bool, NoMemory>
    requires { IsTable table.now }
    ensures { (p : Option PictureValue) → IsStandingOf p to → IfOk result (λ bad. bad ≡ k.is_bad_sending (items_of table.now) operand.now p) }
{
    match to {
        Some(to) => Ok(is_bad_move(side_of(alloc, table, operand)?, to)),
        None => Ok(false),
    }
}

/// Whether an operand can't be moved into its receiver.
fn is_bad_moving(alloc: Global, table: &Table, one: Moving) -> Result<bool, NoMemory>
    requires { IsTable table.now }
    ensures { IfOk result (λ bad. bad ≡ k.is_bad_moving (items_of table.now) (seen_moving one.entry)) }
{
    let to = standing_of(alloc, table, one.to)?;
    is_bad_sending(alloc, table, one.from, to)
}

fn has_bad_moving(alloc: Global, table: &Table, moves: &[Moving]) -> Result<bool, NoMemory>
    requires { IsTable table.now }
    ensures { IfOk result (λ bad. bad ≡ list_any (k.is_bad_moving (items_of table.now)) (map seen_moving moves.entry.now)) }
{
    for one in moves {
        if is_bad_moving(alloc, table, *one)? {
            return Ok(true);
        }
    }
    Ok(false)
}

/// Whether a statement moves an operand into an item that can't take it.
fn moves_badly(alloc: Global, table: &Table, statement: &Statement) -> Result<bool, NoMemory>
    requires { IsTable table.now }
    ensures { IfOk result (λ bad. bad ≡ list_any (k.is_bad_moving (items_of table.now)) (v.moves_of statement.now)) }
{
    let moves = moves_of(alloc, statement)?;
    has_bad_moving(alloc, table, moves.as_slice())
}

/// Whether READ can't move its file's record into the item after INTO.
fn reads_badly(
    alloc: Global,
    scope: &Scope,
    file: &ByteText,
    into: &Reference,
) -> Result<bool, NoMemory>
    requires { IsScope scope.now }
    ensures { IfOk result (λ bad. bad ≡ k.is_bad_into (k.side_of_picture (k.picture_of_record (front_in scope.now) (items_in scope.now) file.now)) (picture_found (items_in scope.now) into.now)) }
{
    let Some(file) = scope.file_named(alloc, file)? else {
        return Ok(false);
    };
    let Some(record) = scope.record_of_file(alloc, file)? else {
        return Ok(false);
    };
    match standing_of(alloc, scope.table, into)? {
        Some(to) => Ok(is_bad_move(side_at(standing_at(scope.table, record)), to)),
        None => Ok(false),
    }
}

/// Whether WRITE or REWRITE can't move the operand after FROM into a record.
fn writes_badly(
    alloc: Global,
    scope: &Scope,
    name: &ByteText,
    from: &Operand,
) -> Result<bool, NoMemory>
    requires { IsScope scope.now }
    ensures { IfOk result (λ bad. bad ≡ k.is_bad_sending (items_in scope.now) from.now (k.picture_of (record_named (items_in scope.now) name.now))) }
{
    match scope.record_named(alloc, name)? {
        Some(at) => is_bad_sending(alloc, scope.table, from, standing_at(scope.table, at)),
        None => Ok(false),
    }
}

/// Whether a record can't be moved as READ, WRITE or REWRITE says it.
fn moves_record_badly(alloc: Global, scope: &Scope, statement: &Statement) -> Result<bool, NoMemory>
    requires { IsScope scope.now }
    ensures { IfOk result (λ bad. bad ≡ k.has_bad_record_move (front_in scope.now) (items_in scope.now) statement.now) }
{
    match statement {
        Statement::Read {
            file,
            into: Some(into),
            ..
        } => reads_badly(alloc, scope, file, into),
        Statement::Write {
            record,
            from: Some(from),
            ..
        } => writes_badly(alloc, scope, record, from),
        Statement::Rewrite {
            record,
            from: Some(from),
            ..
        } => writes_badly(alloc, scope, record, from),
        _ => Ok(false),
    }
}

fn is_no_operand(alloc: Global, table: &Table, operand: &Operand) -> Result<bool, NoMemory>
    requires { IsTable table.now }
    ensures { IfOk result (λ bad. bad ≡ k.is_no_operand (items_of table.now) operand.now) }
{
    match operand {
        Operand::Reference(reference) => Ok(is_no_numeric(standing_of(alloc, table, reference)?)),
        Operand::Constant(constant) => Ok(is_no_numeric_constant(constant)),
    }
}

fn has_no_operand(alloc: Global, table: &Table, operands: &[&Operand]) -> Result<bool, NoMemory>
    requires { IsTable table.now }
    ensures { IfOk result (λ bad. bad ≡ list_any (k.is_no_operand (items_of table.now)) (seen_all operands.entry.now)) }
{
    for operand in operands {
        if is_no_operand(alloc, table, *operand)? {
            return Ok(true);
        }
    }
    Ok(false)
}

/// Whether a reference stands for an item that is not numeric.
fn is_no_numeric_item(alloc: Global, table: &Table, item: &Reference) -> Result<bool, NoMemory>
    requires { IsTable table.now }
    ensures { IfOk result (λ bad. bad ≡ k.is_no_numeric (picture_found (items_of table.now) item.now)) }
{
    Ok(is_no_numeric(standing_of(alloc, table, item)?))
}

fn has_no_numeric_item(alloc: Global, table: &Table, items: &[&Reference]) -> Result<bool, NoMemory>
    requires { IsTable table.now }
    ensures { IfOk result (λ bad. bad ≡ list_any (λ item. k.is_no_numeric (picture_found (items_of table.now) item)) (seen_all items.entry.now)) }
{
    for item in items {
        if is_no_numeric_item(alloc, table, *item)? {
            return Ok(true);
        }
    }
    Ok(false)
}

/// Whether an operand of arithmetic is not numeric.
fn reckons_badly(alloc: Global, table: &Table, statement: &Statement) -> Result<bool, NoMemory>
    requires { IsTable table.now }
    ensures { IfOk result (λ bad. bad ≡ k.reckons_badly (items_of table.now) statement.now) }
{
    let operands = operands_of(alloc, statement)?;
    let items = numeric_items_of(alloc, statement)?;
    if has_no_operand(alloc, table, operands.as_slice())? {
        return Ok(true);
    }
    has_no_numeric_item(alloc, table, items.as_slice())
}

/// Whether a reference stands for an item that is neither numeric nor edited.
fn is_no_result(alloc: Global, table: &Table, item: &Reference) -> Result<bool, NoMemory>
    requires { IsTable table.now }
    ensures { IfOk result (λ bad. bad ≡ k.is_no_result (items_of table.now) item.now) }
{
    Ok(is_no_number(standing_of(alloc, table, item)?))
}

fn has_no_result(alloc: Global, table: &Table, items: &[Reference]) -> Result<bool, NoMemory>
    requires { IsTable table.now }
    ensures { IfOk result (λ bad. bad ≡ list_any (k.is_no_result (items_of table.now)) items.now) }
{
    for item in items {
        if is_no_result(alloc, table, item)? {
            return Ok(true);
        }
    }
    Ok(false)
}

/// Whether a receiver of GIVING or COMPUTE is neither numeric nor edited.
fn stores_badly(alloc: Global, table: &Table, statement: &Statement) -> Result<bool, NoMemory>
    requires { IsTable table.now }
    ensures { IfOk result (λ bad. bad ≡ list_any (k.is_no_result (items_of table.now)) (v.results_of statement.now)) }
{
    has_no_result(alloc, table, results_of(statement))
}

fn is_no_count(alloc: Global, table: &Table, operand: &Operand) -> Result<bool, NoMemory>
    requires { IsTable table.now }
    ensures { IfOk result (λ bad. bad ≡ k.is_no_count (items_of table.now) operand.now) }
{
    match operand {
        Operand::Reference(reference) => match table.found(alloc, reference)? {
            Some(at) => Ok(is_no_integer(table.item_at(at))),
            None => Ok(false),
        },
        Operand::Constant(constant) => Ok(is_no_whole_constant(constant)),
    }
}

fn has_no_count(alloc: Global, table: &Table, counts: &[&Operand]) -> Result<bool, NoMemory>
    requires { IsTable table.now }
    ensures { IfOk result (λ bad. bad ≡ list_any (k.is_no_count (items_of table.now)) (seen_all counts.entry.now)) }
{
    for count in counts {
        if is_no_count(alloc, table, *count)? {
            return Ok(true);
        }
    }
    Ok(false)
}

/// Whether the number of TIMES or of a RETRY phrase is no integer.
fn counts_badly(alloc: Global, table: &Table, statement: &Statement) -> Result<bool, NoMemory>
    requires { IsTable table.now }
    ensures { IfOk result (λ bad. bad ≡ list_any (k.is_no_count (items_of table.now)) (v.counts_of statement.now)) }
{
    let counts = counts_of(alloc, statement)?;
    has_no_count(alloc, table, counts.as_slice())
}

/// Whether two operands can't be compared.
fn are_incomparable(alloc: Global, table: &Table, one: Comparing) -> Result<bool, NoMemory>
    requires { IsTable table.now }
    ensures { IfOk result (λ bad. bad ≡ k.compares_badly (items_of table.now) (seen_comparing one.entry)) }
{
    let left = side_of(alloc, table, one.left)?;
    let right = side_of(alloc, table, one.right)?;
    Ok(is_bad_comparison(left, right))
}

fn has_incomparable(
    alloc: Global,
    table: &Table,
    comparisons: &[Comparing],
) -> Result<bool, NoMemory>
    requires { IsTable table.now }
    ensures { IfOk result (λ bad. bad ≡ list_any (k.compares_badly (items_of table.now)) (map seen_comparing comparisons.entry.now)) }
{
    for one in comparisons {
        if are_incomparable(alloc, table, *one)? {
            return Ok(true);
        }
    }
    Ok(false)
}

/// Whether a relation has operands that can't be compared.
fn compares_badly(alloc: Global, table: &Table, statement: &Statement) -> Result<bool, NoMemory>
    requires { IsTable table.now }
    ensures { IfOk result (λ bad. bad ≡ list_any (k.compares_badly (items_of table.now)) (v.comparisons_of statement.now)) }
{
    let comparisons = comparisons_of(alloc, statement)?;
    has_incomparable(alloc, table, comparisons.as_slice())
}

/// Whether a name in a condition stands for an 88 entry with constants that its item can't be compared with.
fn is_bad_condition(
    alloc: Global,
    scope: &Scope,
    judged: &JudgedConditions,
    name: &Reference,
) -> Result<bool, NoMemory>
    requires scope { IsScope scope.now }
    requires judged { AreJudged scope.now judged.now }
    ensures { IfOk result (λ bad. bad ≡ k.is_bad_condition (found_condition (front_in scope.now) (items_in scope.now) name.now)) }
{
    match scope.conditions.find(alloc, scope.table, name)? {
        Found::One(at) => Ok(judged.is_bad(at)),
        Found::Nothing => Ok(false),
        Found::Several => Ok(false),
    }
}

fn has_bad_condition(
    alloc: Global,
    scope: &Scope,
    judged: &JudgedConditions,
    names: &[&Reference],
) -> Result<bool, NoMemory>
    requires scope { IsScope scope.now }
    requires judged { AreJudged scope.now judged.now }
    ensures { IfOk result (λ bad. bad ≡ list_any (λ name. k.is_bad_condition (found_condition (front_in scope.now) (items_in scope.now) name)) (seen_all names.entry.now)) }
{
    for name in names {
        if is_bad_condition(alloc, scope, judged, *name)? {
            return Ok(true);
        }
    }
    Ok(false)
}

/// Whether the test of an 88 entry compares its item with a constant that it can't be compared with.
fn tests_badly(
    alloc: Global,
    scope: &Scope,
    judged: &JudgedConditions,
    statement: &Statement,
) -> Result<bool, NoMemory>
    requires scope { IsScope scope.now }
    requires judged { AreJudged scope.now judged.now }
    ensures { IfOk result (λ bad. bad ≡ list_any (λ name. k.is_bad_condition (found_condition (front_in scope.now) (items_in scope.now) name)) (conditions_of statement.now)) }
{
    let names = conditions_of(alloc, statement)?;
    has_bad_condition(alloc, scope, judged, names.as_slice())
}

/// Whether a statement's values are of a wrong kind.
pub fn has_bad_values(
    alloc: Global,
    scope: &Scope,
    judged: &JudgedConditions,
    statement: &Statement,
) -> Result<bool, NoMemory>
    requires scope { IsScope scope.now }
    requires judged { AreJudged scope.now judged.now }
    ensures { IfOk result (λ bad. bad ≡ k.has_bad_values scope.now.program.now (items_in scope.now) statement.now) }
{
    let table = scope.table;
    if moves_badly(alloc, table, statement)? {
        return Ok(true);
    }
    if moves_record_badly(alloc, scope, statement)? {
        return Ok(true);
    }
    if reckons_badly(alloc, table, statement)? {
        return Ok(true);
    }
    if stores_badly(alloc, table, statement)? {
        return Ok(true);
    }
    if counts_badly(alloc, table, statement)? {
        return Ok(true);
    }
    if compares_badly(alloc, table, statement)? {
        return Ok(true);
    }
    tests_badly(alloc, scope, judged, statement)
}
