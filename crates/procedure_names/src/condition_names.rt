ghost use Rattle.std.specs.Prelude.{◌≡◌, ◌<◌, ◌++◌, ℕ, List, false, length, Some, slice_get, IfOk, OnOk};
ghost use Rattle.std.specs.List.{AllZip};
ghost use Rattle.data_names.specs.Asked.{is_asked};
ghost use Rattle.data_names.specs.Items.{DataItem};
ghost use Rattle.data_names.specs.Names.{in_small, numbers_under, ends_with};
ghost use Rattle.data_names.specs.Seen.{seen_references};
ghost use Rattle.data_names.specs.Spots.{spots};
ghost use Rattle.data_names.specs.Table.{IsTable, items_of};
ghost use Rattle.statement_parts.specs.References.{conditions_of};
ghost use Rattle.procedure_names.specs.Conditions.{NamedCondition};
ghost use Rattle.procedure_names.specs.ConditionNames.{condition_references, AreAskedIn, AreConditionNames, AreNumbered, ArePaired, IsPut, IsPutWhereNamed, IsCover};
ghost use Rattle.procedure_names.specs.SeenConditions.{IsKnownCondition};

use crate::conditions::KnownCondition;
use cob_base::{ByteText, Located, NoMemory, Paragraph, Reference, Statement};
use data_names::{AskedPairs, Names, Pairs, Table, fewest, put_in_group, put_in_groups};
use statement_parts::{all_statements, conditions_of};
use std::alloc::Global;

/// The numbers of 88 entries by their names, and by their names with each name that may qualify them, for the pairs that are asked for.
#[derive(Drop)]
pub struct ConditionNames {
    names: Names,
    pairs: Pairs,
}

impl ConditionNames {
    /// Those of 88 entries on the items of a table, with the pairs that the statements of these paragraphs ask for.
    pub fn of(
        alloc: Global,
        table: &Table,
        all: &[KnownCondition],
        paragraphs: &[Paragraph],
    ) -> Result<ConditionNames, NoMemory>
        requires table { IsTable table.now }
        requires known { (named : List NamedCondition) × AllZip (IsKnownCondition (items_of table.now)) all.now named }
        ensures names { (named : List NamedCondition) → AllZip (IsKnownCondition (items_of table.now)) all.now named → IfOk result (λ names. AreConditionNames named names) }
        ensures asked { IfOk result (AreAskedIn paragraphs.now) }
    {
        let names = names_of(alloc, all)?;
        let references = condition_references(alloc, paragraphs)?;
        let asked = AskedPairs::of(alloc, &names, references.as_slice())?;
        let numbers = numbers_of(alloc, table, all, &asked)?;
        let pairs = Pairs::with(asked, numbers);
        Ok(ConditionNames { names, pairs })
    }

    /// The numbers of 88 entries among which are all that a reference matches: the fewest that its name or one of its pairs gives that were
    /// asked for.
    pub fn candidates(&self, alloc: Global, reference: &Reference) -> Result<&[usize], NoMemory>
        ensures { (all : List NamedCondition) → AreConditionNames all self.entry.now → IfOk result (λ numbers. IsCover all reference.now numbers.now) }
    {
        let name = &reference.name;
        let mut best = self.names.numbers(alloc, name.as_bytes())?;
        let asked = self.pairs.has_name(alloc, name.as_bytes())?;
        if !asked {
            return Ok(best);
        }
        for qualifier in reference.qualifiers.as_slice() {
            let numbers = self
                .pairs
                .numbers(alloc, name.as_bytes(), qualifier.as_bytes())?;
            best = fewest(best, numbers);
        }
        Ok(best)
    }
}

/// The numbers of 88 entries under their names.
fn names_of(alloc: Global, all: &[KnownCondition]) -> Result<Names, NoMemory>
    ensures { (items : List DataItem) (named : List NamedCondition) → AllZip (IsKnownCondition items) all.now named → IfOk result (λ names. AreNumbered named names) }
{
    let mut names = Names::none(alloc);
    for (at, condition) in all.iter().enumerate() {
        names.add(alloc, condition.entry.name.as_bytes(), at)?;
    }
    Ok(names)
}

/// The references of the statements of paragraphs to 88 entries.
fn condition_references<'a>(
    alloc: Global,
    paragraphs: &'a [Paragraph],
) -> Result<Vec<&'a Reference>, NoMemory>
    ensures { IfOk result (λ made. seen_references made.items ≡ condition_references paragraphs.entry.now) }
{
    let statements = all_statements(alloc, paragraphs)?;
    let mut all = Vec::new(alloc);
    for one in statements.as_slice() {
        add_conditions(alloc, &mut all, *one)?;
    }
    Ok(all)
}

fn add_conditions<'a>(
    alloc: Global,
    all: &mut Vec<&'a Reference>,
    one: &'a Located<Statement>,
) -> Result<(), NoMemory>
    ensures { OnOk result (seen_references all.exit.now.items ≡ seen_references all.entry.now.items ++ conditions_of one.entry.now.item) }
{
    let conditions = conditions_of(alloc, &one.item)?;
    for condition in conditions.as_slice() {
        all.push(*condition)?;
    }
    Ok(())
}

/// The numbers of 88 entries under those of their pairs that are asked for.
fn numbers_of(
    alloc: Global,
    table: &Table,
    all: &[KnownCondition],
    asked: &AskedPairs,
) -> Result<Names, NoMemory>
    requires table { IsTable table.now }
    requires known { (named : List NamedCondition) × AllZip (IsKnownCondition (items_of table.now)) all.now named }
    ensures { (named : List NamedCondition) → AllZip (IsKnownCondition (items_of table.now)) all.now named → IfOk result (λ numbers. ArePaired named asked.now numbers) }
{
    let mut numbers = Names::none(alloc);
    for (at, condition) in all.iter().enumerate() {
        put_condition(alloc, &mut numbers, asked, table, condition, at)?;
    }
    Ok(numbers)
}

/// Puts the number of an 88 entry under those of its pairs that are asked for, behind those of lower numbers.
fn put_condition(
    alloc: Global,
    numbers: &mut Names,
    asked: &AskedPairs,
    table: &Table,
    condition: &KnownCondition,
    at: usize,
) -> Result<(), NoMemory>
    requires table { IsTable table.now }
    requires within { condition.now.item < length table.now.items.now }
    ensures { (one : NamedCondition) → IsKnownCondition (items_of table.now) condition.now one → ((key : List ℕ) → ends_with at (numbers_under numbers.old key) ≡ false) → OnOk result (IsPut one asked.now at numbers.old numbers.new) }
{
    let name = &condition.entry.name;
    let has = asked.has_name(alloc, name.as_bytes())?;
    if has {
        put_name(alloc, numbers, asked, table, name, condition.item, at)?;
    }
    Ok(())
}

/// Puts the number of an 88 entry of a name on an item under those of its pairs that are asked for.
fn put_name(
    alloc: Global,
    numbers: &mut Names,
    asked: &AskedPairs,
    table: &Table,
    name: &ByteText,
    item: usize,
    at: usize,
) -> Result<(), NoMemory>
    requires table { IsTable table.now }
    requires within { item < length table.now.items.now }
    ensures { (one : NamedCondition) → one.entry.name ≡ name.now → slice_get (spots (items_of table.now)) item ≡ Some one.spot → ((key : List ℕ) → ends_with at (numbers_under numbers.old key) ≡ false) → OnOk result (IsPutWhereNamed one asked.now at numbers.old numbers.new) }
{
    let groups = table.facts_at(item).groups.as_slice();
    put_in_groups(alloc, numbers, asked, name.as_bytes(), groups, at)?;
    let own = table.item_at(item).text.name.as_ref();
    put_in_group(alloc, numbers, asked, name.as_bytes(), own, at)?;
    Ok(())
}
