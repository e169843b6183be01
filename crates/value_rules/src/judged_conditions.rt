ghost use Rattle.std.specs.Prelude.{◌≡◌, ◌<◌, length, map, slice_get, Some, IfOk};
ghost use Rattle.std.specs.List.{list_any};
ghost use Rattle.data_names.specs.Table.{IsTable, items_of};
ghost use Rattle.procedure_names.specs.declared.scope.Scope.{Scope};
ghost use Rattle.procedure_names.specs.Conditions.{NamedCondition, conditions};
ghost use Rattle.value_rules.specs.Kinds as k;
ghost use Rattle.procedure_names.specs.Scoped.{IsScope, front_in, items_in};
ghost use Rattle.procedure_names.specs.SeenConditions.{IsKnownCondition};
ghost use Rattle.value_rules.specs.JudgedConditions.{AreJudged};
ghost use Rattle.value_rules.specs.SeenSides.{IsSide};

use crate::sides::{Side, is_bad_comparison, side_at, side_of_constant, standing_at};
use cob_base::{NoMemory, ValueRange};
use data_names::Table;
use procedure_names::{KnownCondition, Scope};
use std::alloc::Global;

/// The 88 entries of a program, each judged once, however many conditions test it.
#[derive(Drop)]
pub struct JudgedConditions {
    /// Of each, in their order, whether it has a constant that its item can't be compared with.
    bad: Vec<bool>,
}

impl JudgedConditions {
    /// Those of a scope's program.
    pub fn of(alloc: Global, scope: &Scope) -> Result<JudgedConditions, NoMemory>
        requires { IsScope scope.now }
        ensures { IfOk result (λ judged. AreJudged scope.now judged) }
    {
        let marks = bad_conditions(alloc, scope)?;
        Ok(JudgedConditions { bad: marks })
    }

    /// Whether the 88 entry of a number has a constant that its item can't be compared with.
    pub fn is_bad(&self, at: usize) -> bool
        requires { at < length self.now.bad.items }
        ensures { (scope : Scope) (one : NamedCondition) → AreJudged scope self.now → slice_get (conditions (front_in scope) (items_in scope)) at ≡ Some one → result ≡ k.is_bad_condition (Some one) }
    {
        self.bad[at]
    }
}

/// Whether an item can't be compared with a constant of an 88 entry.
fn is_bad_range(item: Side, range: &ValueRange) -> bool
    ensures { (a : k.Side) → IsSide a item → result ≡ k.is_bad_range a range.now }
{
    if is_bad_comparison(item, side_of_constant(&range.from)) {
        return true;
    }
    match &range.through {
        Some(through) => is_bad_comparison(item, side_of_constant(through)),
        None => false,
    }
}

/// Whether an item can't be compared with one of the constants of these ranges.
fn has_bad_range(item: Side, ranges: &[ValueRange]) -> bool
    ensures { (a : k.Side) → IsSide a item → result ≡ list_any (k.is_bad_range a) ranges.now }
{
    for range in ranges {
        if is_bad_range(item, range) {
            return true;
        }
    }
    false
}

/// Whether an 88 entry has constants that its item can't be compared with.
fn is_bad_known(table: &Table, known: KnownCondition) -> bool
    requires { known.item < length table.now.items.now }
    ensures { (named : NamedCondition) → IsKnownCondition (items_of table.now) known.entry named → result ≡ k.is_bad_condition (Some named) }
{
    let item = side_at(standing_at(table, known.item));
    has_bad_range(item, known.entry.values.as_slice())
}

/// Of each 88 entry whether it has constants that its item can't be compared with.
fn bad_conditions(alloc: Global, scope: &Scope) -> Result<Vec<bool>, NoMemory>
    requires { IsScope scope.now }
    ensures { IfOk result (λ marks. marks.items ≡ map (λ one. k.is_bad_condition (Some one)) (conditions (front_in scope.now) (items_in scope.now))) }
{
    let mut marks = Vec::new(alloc);
    for at in 0..scope.conditions.count() {
        marks.push(is_bad_known(scope.table, scope.conditions.get(at)))?;
    }
    Ok(marks)
}
