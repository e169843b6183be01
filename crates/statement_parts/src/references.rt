ghost use Rattle.std.specs.Prelude.{◌≡◌, ◌++◌, IfOk, OnOk, option_to_list};
ghost use Rattle.std.specs.List.{flat_map};
ghost use Rattle.std.specs.Option.{option_copied};
ghost use Rattle.statement_parts.specs.Phrases.{times_of, varying_of, tests_of, retries_of, number_of_retry};
ghost use Rattle.statement_parts.specs.References.{in_operand, in_operands, items_of_test, items_of_varying, items_of_place, items_of_words, items_of, name_of_test, conditions_of};
ghost use Rattle.statement_parts.specs.Seen.{seen_all};

use crate::leaves::add_items;
use crate::phrases::{retries_of, tests_of, times_of, varying_of};
use cob_base::{Cond, NoMemory, Operand, Reference, Retry, StartPlace, Statement, Varying};
use std::alloc::Global;

fn add_operand<'a>(all: &mut Vec<&'a Reference>, operand: &'a Operand) -> Result<(), NoMemory>
    ensures { OnOk result (seen_all all.exit.now.items ≡ seen_all all.entry.now.items ++ in_operand operand.entry.now) }
{
    if let Operand::Reference(item) = operand {
        all.push(item)?;
    }
    Ok(())
}

fn add_operands<'a>(all: &mut Vec<&'a Reference>, operands: &'a [Operand]) -> Result<(), NoMemory>
    ensures { OnOk result (seen_all all.exit.now.items ≡ seen_all all.entry.now.items ++ in_operands operands.entry.now) }
{
    for operand in operands {
        add_operand(all, operand)?;
    }
    Ok(())
}

fn add_optional_operand<'a>(
    all: &mut Vec<&'a Reference>,
    operand: Option<&'a Operand>,
) -> Result<(), NoMemory>
    ensures { OnOk result (seen_all all.exit.now.items ≡ seen_all all.entry.now.items ++ in_operands (option_to_list (option_copied operand.entry))) }
{
    match operand {
        Some(operand) => add_operand(all, operand),
        None => Ok(()),
    }
}

fn add_all<'a>(all: &mut Vec<&'a Reference>, items: &'a [Reference]) -> Result<(), NoMemory>
    ensures { OnOk result (seen_all all.exit.now.items ≡ seen_all all.entry.now.items ++ items.entry.now) }
{
    for item in items {
        all.push(item)?;
    }
    Ok(())
}

fn add_optional<'a>(
    all: &mut Vec<&'a Reference>,
    item: Option<&'a Reference>,
) -> Result<(), NoMemory>
    ensures { OnOk result (seen_all all.exit.now.items ≡ seen_all all.entry.now.items ++ option_to_list (option_copied item.entry)) }
{
    if let Some(item) = item {
        all.push(item)?;
    }
    Ok(())
}

fn add_place<'a>(
    all: &mut Vec<&'a Reference>,
    place: &'a Option<StartPlace>,
) -> Result<(), NoMemory>
    ensures { OnOk result (seen_all all.exit.now.items ≡ seen_all all.entry.now.items ++ items_of_place place.entry.now) }
{
    if let Some(StartPlace::Key { key, .. }) = place {
        all.push(key)?;
    }
    Ok(())
}

/// The items of a statement of arithmetic with receivers that are operands too.
fn add_arithmetic<'a>(
    all: &mut Vec<&'a Reference>,
    operands: &'a [Operand],
    receivers: &'a [Reference],
) -> Result<(), NoMemory>
    ensures { OnOk result (seen_all all.exit.now.items ≡ seen_all all.entry.now.items ++ in_operands operands.entry.now ++ receivers.entry.now) }
{
    add_operands(all, operands)?;
    add_all(all, receivers)?;
    Ok(())
}

fn add_scaled<'a>(
    all: &mut Vec<&'a Reference>,
    operand: &'a Operand,
    receivers: &'a [Reference],
) -> Result<(), NoMemory>
    ensures { OnOk result (seen_all all.exit.now.items ≡ seen_all all.entry.now.items ++ in_operand operand.entry.now ++ receivers.entry.now) }
{
    add_operand(all, operand)?;
    add_all(all, receivers)?;
    Ok(())
}

fn add_scaled_giving<'a>(
    all: &mut Vec<&'a Reference>,
    first: &'a Operand,
    second: &'a Operand,
    giving: &'a [Reference],
) -> Result<(), NoMemory>
    ensures { OnOk result (seen_all all.exit.now.items ≡ seen_all all.entry.now.items ++ in_operand first.entry.now ++ in_operand second.entry.now ++ giving.entry.now) }
{
    add_operand(all, first)?;
    add_scaled(all, second, giving)?;
    Ok(())
}

fn add_giving<'a>(
    all: &mut Vec<&'a Reference>,
    operands: &'a [Operand],
    last: &'a Operand,
    giving: &'a [Reference],
) -> Result<(), NoMemory>
    ensures { OnOk result (seen_all all.exit.now.items ≡ seen_all all.entry.now.items ++ in_operands operands.entry.now ++ in_operand last.entry.now ++ giving.entry.now) }
{
    add_operands(all, operands)?;
    add_scaled(all, last, giving)?;
    Ok(())
}

fn add_words<'a>(all: &mut Vec<&'a Reference>, statement: &'a Statement) -> Result<(), NoMemory>
    ensures { OnOk result (seen_all all.exit.now.items ≡ seen_all all.entry.now.items ++ items_of_words statement.entry.now) }
{
    match statement {
        Statement::Move { from, to } => add_scaled(all, from, to.as_slice()),
        Statement::Add { operands, to, .. } => add_arithmetic(
            all,
            operands.as_slice(),
            to.as_slice(),
        ),
        Statement::AddGiving {
            operands,
            to,
            giving,
            ..
        } => add_giving(all, operands.as_slice(), to, giving.as_slice()),
        Statement::Subtract { operands, from, .. } => add_arithmetic(
            all,
            operands.as_slice(),
            from.as_slice(),
        ),
        Statement::SubtractGiving {
            operands,
            from,
            giving,
            ..
        } => add_giving(all, operands.as_slice(), from, giving.as_slice()),
        Statement::Multiply { operand, by, .. } => add_scaled(all, operand, by.as_slice()),
        Statement::MultiplyGiving {
            operand,
            by,
            giving,
            ..
        } => add_scaled_giving(all, operand, by, giving.as_slice()),
        Statement::Divide { operand, into, .. } => add_scaled(all, operand, into.as_slice()),
        Statement::DivideGiving {
            first,
            second,
            giving,
            ..
        } => add_scaled_giving(all, first, second, giving.as_slice()),
        Statement::Compute { to, value, .. } => {
            add_all(all, to.as_slice())?;
            add_items(all, value)?;
            Ok(())
        }
        Statement::Read { into, key, .. } => {
            add_optional(all, into.as_ref())?;
            add_optional(all, key.as_ref())?;
            Ok(())
        }
        Statement::Start { place, .. } => add_place(all, place),
        Statement::Write { from, .. } => add_optional_operand(all, from.as_ref()),
        Statement::Rewrite { from, .. } => add_optional_operand(all, from.as_ref()),
        Statement::If { .. }
        | Statement::PerformParagraphs { .. }
        | Statement::PerformInline { .. }
        | Statement::Open(_)
        | Statement::Close(_)
        | Statement::Delete { .. }
        | Statement::Unlock(_)
        | Statement::Accept { .. }
        | Statement::Display(_)
        | Statement::Continue
        | Statement::Exit
        | Statement::StopRun
        | Statement::Outside => Ok(()),
    }
}

fn add_varying<'a>(
    all: &mut Vec<&'a Reference>,
    varying: Option<&'a Varying>,
) -> Result<(), NoMemory>
    ensures { OnOk result (seen_all all.exit.now.items ≡ seen_all all.entry.now.items ++ flat_map items_of_varying (option_to_list (option_copied varying.entry))) }
{
    if let Some(varying) = varying {
        all.push(&varying.item)?;
        add_operand(all, &varying.from)?;
        add_operand(all, &varying.by)?;
    }
    Ok(())
}

fn add_test<'a>(all: &mut Vec<&'a Reference>, test: &'a Cond) -> Result<(), NoMemory>
    ensures { OnOk result (seen_all all.exit.now.items ≡ seen_all all.entry.now.items ++ items_of_test test.entry.now) }
{
    match test {
        Cond::Relation { left, right, .. } => {
            add_operand(all, left)?;
            add_operand(all, right)?;
            Ok(())
        }
        Cond::Numeric { item, .. } => {
            all.push(item)?;
            Ok(())
        }
        _ => Ok(()),
    }
}

fn add_tests<'a>(all: &mut Vec<&'a Reference>, tests: &[&'a Cond]) -> Result<(), NoMemory>
    ensures { OnOk result (seen_all all.exit.now.items ≡ seen_all all.entry.now.items ++ flat_map items_of_test (seen_all tests.entry.now)) }
{
    for test in tests {
        add_test(all, *test)?;
    }
    Ok(())
}

fn add_retry<'a>(all: &mut Vec<&'a Reference>, retry: &'a Retry) -> Result<(), NoMemory>
    ensures { OnOk result (seen_all all.exit.now.items ≡ seen_all all.entry.now.items ++ in_operands (number_of_retry retry.entry.now)) }
{
    match retry {
        Retry::Times(number) => add_operand(all, number),
        Retry::Seconds(number) => add_operand(all, number),
        Retry::Forever => Ok(()),
    }
}

fn add_retries<'a>(all: &mut Vec<&'a Reference>, retries: &[&'a Retry]) -> Result<(), NoMemory>
    ensures { OnOk result (seen_all all.exit.now.items ≡ seen_all all.entry.now.items ++ in_operands (flat_map number_of_retry (seen_all retries.entry.now))) }
{
    for retry in retries {
        add_retry(all, *retry)?;
    }
    Ok(())
}

/// All items that a statement names but those of subscripts, without the statements inside it.
pub fn items_of<'a>(alloc: Global, statement: &'a Statement) -> Result<Vec<&'a Reference>, NoMemory>
    ensures { IfOk result (λ made. seen_all made.items ≡ items_of statement.entry.now) }
{
    let tests = tests_of(alloc, statement)?;
    let retries = retries_of(alloc, statement)?;
    let mut all = Vec::new(alloc);
    add_words(&mut all, statement)?;
    add_optional_operand(&mut all, times_of(statement))?;
    add_varying(&mut all, varying_of(statement))?;
    add_tests(&mut all, tests.as_slice())?;
    add_retries(&mut all, retries.as_slice())?;
    Ok(all)
}

/// The 88 entries that a statement names.
pub fn conditions_of<'a>(
    alloc: Global,
    statement: &'a Statement,
) -> Result<Vec<&'a Reference>, NoMemory>
    ensures { IfOk result (λ made. seen_all made.items ≡ conditions_of statement.entry.now) }
{
    let tests = tests_of(alloc, statement)?;
    let mut all = Vec::new(alloc);
    for test in tests.as_slice() {
        if let Cond::Name(name) = *test {
            all.push(name)?;
        }
    }
    Ok(all)
}
