ghost use Rattle.std.specs.Prelude.{◌≡◌, ◌++◌, ◌∷◌, [], map, IfOk, OnOk, option_to_list};
ghost use Rattle.std.specs.List.{flat_map};
ghost use Rattle.std.specs.Option.{option_copied};
ghost use Rattle.statement_parts.specs.Phrases.{varying_of, number_of_retry};
ghost use Rattle.statement_parts.specs.Values.{moving, move_of_varying, moves_of_words, moves_of, operands_of_words, operands_of, numeric_items_of_words, numeric_items_of, results_of, counts_of, comparison_of_test, comparisons_of};
ghost use Rattle.statement_parts.specs.Seen.{seen_all, seen_moving, seen_comparing};

use crate::leaves::add_items;
use crate::phrases::{retries_of, tests_of, times_of, varying_of};
use cob_base::{Cond, NoMemory, Operand, Reference, Retry, Statement};
use std::alloc::Global;

/// An operand that is moved into an item.
#[derive(Clone, Copy)]
pub struct Moving<'a> {
    pub from: &'a Operand,
    pub to: &'a Reference,
}

/// Two operands that are compared.
#[derive(Clone, Copy)]
pub struct Comparing<'a> {
    pub left: &'a Operand,
    pub right: &'a Operand,
}

fn add_moves<'a>(
    all: &mut Vec<Moving<'a>>,
    from: &'a Operand,
    receivers: &'a [Reference],
) -> Result<(), NoMemory>
    ensures { OnOk result (map seen_moving all.exit.now.items ≡ map seen_moving all.entry.now.items ++ map (moving from.entry.now) receivers.entry.now) }
{
    for to in receivers {
        all.push(Moving { from, to })?;
    }
    Ok(())
}

/// What a statement moves, but for records: the operand of MOVE into each receiver, and FROM of VARYING into its item.
pub fn moves_of<'a>(alloc: Global, statement: &'a Statement) -> Result<Vec<Moving<'a>>, NoMemory>
    ensures { IfOk result (λ made. map seen_moving made.items ≡ moves_of statement.entry.now) }
{
    let mut all = Vec::new(alloc);
    if let Statement::Move { from, to } = statement {
        add_moves(&mut all, from, to.as_slice())?;
    }
    if let Some(varying) = varying_of(statement) {
        all.push(Moving {
            from: &varying.from,
            to: &varying.item,
        })?;
    }
    Ok(all)
}

fn add_operands<'a>(all: &mut Vec<&'a Operand>, operands: &'a [Operand]) -> Result<(), NoMemory>
    ensures { OnOk result (seen_all all.exit.now.items ≡ seen_all all.entry.now.items ++ operands.entry.now) }
{
    for operand in operands {
        all.push(operand)?;
    }
    Ok(())
}

fn add_operands_and<'a>(
    all: &mut Vec<&'a Operand>,
    operands: &'a [Operand],
    last: &'a Operand,
) -> Result<(), NoMemory>
    ensures { OnOk result (seen_all all.exit.now.items ≡ seen_all all.entry.now.items ++ operands.entry.now ++ last.entry.now ∷ []) }
{
    add_operands(all, operands)?;
    all.push(last)?;
    Ok(())
}

fn add_two<'a>(
    all: &mut Vec<&'a Operand>,
    first: &'a Operand,
    second: &'a Operand,
) -> Result<(), NoMemory>
    ensures { OnOk result (seen_all all.exit.now.items ≡ seen_all all.entry.now.items ++ first.entry.now ∷ (second.entry.now ∷ [])) }
{
    all.push(first)?;
    all.push(second)?;
    Ok(())
}

fn add_one<'a>(all: &mut Vec<&'a Operand>, operand: &'a Operand) -> Result<(), NoMemory>
    ensures { OnOk result (seen_all all.exit.now.items ≡ seen_all all.entry.now.items ++ operand.entry.now ∷ []) }
{
    all.push(operand)?;
    Ok(())
}

fn add_operands_of_words<'a>(
    all: &mut Vec<&'a Operand>,
    statement: &'a Statement,
) -> Result<(), NoMemory>
    ensures { OnOk result (seen_all all.exit.now.items ≡ seen_all all.entry.now.items ++ operands_of_words statement.entry.now) }
{
    match statement {
        Statement::Add { operands, .. } => add_operands(all, operands.as_slice()),
        Statement::AddGiving { operands, to, .. } => add_operands_and(all, operands.as_slice(), to),
        Statement::Subtract { operands, .. } => add_operands(all, operands.as_slice()),
        Statement::SubtractGiving { operands, from, .. } => add_operands_and(
            all,
            operands.as_slice(),
            from,
        ),
        Statement::Multiply { operand, .. } => add_one(all, operand),
        Statement::MultiplyGiving { operand, by, .. } => add_two(all, operand, by),
        Statement::Divide { operand, .. } => add_one(all, operand),
        Statement::DivideGiving { first, second, .. } => add_two(all, first, second),
        _ => Ok(()),
    }
}

/// The operands of arithmetic in a statement, with what VARYING adds. Items that are receivers too are not among them.
pub fn operands_of<'a>(
    alloc: Global,
    statement: &'a Statement,
) -> Result<Vec<&'a Operand>, NoMemory>
    ensures { IfOk result (λ made. seen_all made.items ≡ operands_of statement.entry.now) }
{
    let mut all = Vec::new(alloc);
    add_operands_of_words(&mut all, statement)?;
    if let Some(varying) = varying_of(statement) {
        all.push(&varying.by)?;
    }
    Ok(all)
}

fn add_all<'a>(all: &mut Vec<&'a Reference>, items: &'a [Reference]) -> Result<(), NoMemory>
    ensures { OnOk result (seen_all all.exit.now.items ≡ seen_all all.entry.now.items ++ items.entry.now) }
{
    for item in items {
        all.push(item)?;
    }
    Ok(())
}

fn add_numeric_items<'a>(
    all: &mut Vec<&'a Reference>,
    statement: &'a Statement,
) -> Result<(), NoMemory>
    ensures { OnOk result (seen_all all.exit.now.items ≡ seen_all all.entry.now.items ++ numeric_items_of_words statement.entry.now) }
{
    match statement {
        Statement::Add { to, .. } => add_all(all, to.as_slice()),
        Statement::Subtract { from, .. } => add_all(all, from.as_slice()),
        Statement::Multiply { by, .. } => add_all(all, by.as_slice()),
        Statement::Divide { into, .. } => add_all(all, into.as_slice()),
        Statement::Compute { value, .. } => add_items(all, value),
        _ => Ok(()),
    }
}

/// The items that are operands and receivers at once, those of expressions, and the item that VARYING adds to.
pub fn numeric_items_of<'a>(
    alloc: Global,
    statement: &'a Statement,
) -> Result<Vec<&'a Reference>, NoMemory>
    ensures { IfOk result (λ made. seen_all made.items ≡ numeric_items_of statement.entry.now) }
{
    let mut all = Vec::new(alloc);
    add_numeric_items(&mut all, statement)?;
    if let Some(varying) = varying_of(statement) {
        all.push(&varying.item)?;
    }
    Ok(all)
}

/// The receivers that get a result: those of GIVING and COMPUTE.
pub fn results_of(statement: &Statement) -> &[Reference]
    ensures { result.now ≡ results_of statement.now }
{
    match statement {
        Statement::AddGiving { giving, .. } => giving.as_slice(),
        Statement::SubtractGiving { giving, .. } => giving.as_slice(),
        Statement::MultiplyGiving { giving, .. } => giving.as_slice(),
        Statement::DivideGiving { giving, .. } => giving.as_slice(),
        Statement::Compute { to, .. } => to.as_slice(),
        _ => &[],
    }
}

fn add_number_of_retry<'a>(all: &mut Vec<&'a Operand>, retry: &'a Retry) -> Result<(), NoMemory>
    ensures { OnOk result (seen_all all.exit.now.items ≡ seen_all all.entry.now.items ++ number_of_retry retry.entry.now) }
{
    match retry {
        Retry::Times(number) => add_one(all, number),
        Retry::Seconds(number) => add_one(all, number),
        Retry::Forever => Ok(()),
    }
}

/// The numbers of TIMES and of RETRY phrases in a statement.
pub fn counts_of<'a>(alloc: Global, statement: &'a Statement) -> Result<Vec<&'a Operand>, NoMemory>
    ensures { IfOk result (λ made. seen_all made.items ≡ counts_of statement.entry.now) }
{
    let retries = retries_of(alloc, statement)?;
    let mut all = Vec::new(alloc);
    if let Some(number) = times_of(statement) {
        all.push(number)?;
    }
    for retry in retries.as_slice() {
        add_number_of_retry(&mut all, *retry)?;
    }
    Ok(all)
}

/// The relations that a statement tests.
pub fn comparisons_of<'a>(
    alloc: Global,
    statement: &'a Statement,
) -> Result<Vec<Comparing<'a>>, NoMemory>
    ensures { IfOk result (λ made. map seen_comparing made.items ≡ comparisons_of statement.entry.now) }
{
    let tests = tests_of(alloc, statement)?;
    let mut all = Vec::new(alloc);
    for test in tests.as_slice() {
        if let Cond::Relation { left, right, .. } = *test {
            all.push(Comparing { left, right })?;
        }
    }
    Ok(all)
}
