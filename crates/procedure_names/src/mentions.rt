ghost use Rattle.std.specs.Prelude.{◌≡◌, ◌++◌, ◌∷◌, [], map, IfOk, OnOk};
ghost use Rattle.data_names.specs.Table.{IsTable, items_of};
ghost use Rattle.cob_base.specs.declared.divisions.Front.{Front};
ghost use Rattle.name_rules.specs.Mentions.{mention};
ghost use Rattle.name_rules.specs.SeenMentions.{AddsMentions, AreFoundAs, seen_mention};
ghost use Rattle.statement_parts.specs.References as r;
ghost use Rattle.statement_parts.specs.Seen.{seen_all};
ghost use Rattle.procedure_names.specs.Mentions.{item_mentions, condition_mentions, subscripts_of};
ghost use Rattle.procedure_names.specs.SeenConditions.{AreConditions};
ghost use Rattle.procedure_names.specs.SeenNames.{seen_condition, AddsConditions, AreFoundConditions, AreStatementMentions};

use crate::conditions::Conditions;
use cob_base::{Line, Located, NoMemory, Reference, Statement};
use data_names::{Found, Table};
use name_rules::{Mention, add_mention, subscript_items};
use statement_parts::{conditions_of, items_of};
use std::alloc::Global;

/// A reference to an 88 entry, with what it stands for among the 88 entries.
#[derive(Clone, Copy)]
pub struct ConditionMention<'a> {
    /// The line of its statement.
    pub line: Line,
    pub reference: &'a Reference,
    pub found: Found,
}

/// The references of a procedure division.
#[derive(Drop)]
pub struct StatementMentions<'a> {
    /// Those to items, but for those in subscripts.
    pub items: Vec<Mention<'a>>,
    /// Those to items in subscripts.
    pub subscripts: Vec<Mention<'a>>,
    /// Those to 88 entries.
    pub conditions: Vec<ConditionMention<'a>>,
}

/// The references of statements.
pub fn mentions_of<'a>(
    alloc: Global,
    statements: &[&'a Located<Statement>],
    table: &Table,
    conditions: &Conditions,
) -> Result<StatementMentions<'a>, NoMemory>
    requires table { IsTable table.now }
    requires conditions { (front : Front) × AreConditions front (items_of table.now) conditions.now }
    ensures { (front : Front) → AreConditions front (items_of table.now) conditions.now → IfOk result (λ made. AreStatementMentions front (items_of table.now) (seen_all statements.entry.now) made) }
{
    let items = item_mentions(alloc, statements, table)?;
    let conditions = condition_mentions(alloc, statements, table, conditions)?;
    let subscripts = subscript_mentions(alloc, items.as_slice(), conditions.as_slice(), table)?;
    Ok(StatementMentions {
        items,
        subscripts,
        conditions,
    })
}

/// Those to items, but for those in subscripts.
fn item_mentions<'a>(
    alloc: Global,
    statements: &[&'a Located<Statement>],
    table: &Table,
) -> Result<Vec<Mention<'a>>, NoMemory>
    requires { IsTable table.now }
    ensures { IfOk result (λ made. AreFoundAs (items_of table.now) (item_mentions (seen_all statements.entry.now)) made.items) }
{
    let mut mentions = Vec::new(alloc);
    for one in statements {
        add_items(alloc, table, &mut mentions, *one)?;
    }
    Ok(mentions)
}

/// Those of a statement to items.
fn add_items<'a>(
    alloc: Global,
    table: &Table,
    mentions: &mut Vec<Mention<'a>>,
    one: &'a Located<Statement>,
) -> Result<(), NoMemory>
    requires { IsTable table.now }
    ensures { OnOk result (AddsMentions (items_of table.now) (map (mention one.entry.now.line) (r.items_of one.entry.now.item)) mentions.entry.now.items mentions.exit.now.items) }
{
    let items = items_of(alloc, &one.item)?;
    for item in items.as_slice() {
        add_mention(alloc, table, mentions, one.line, *item)?;
    }
    Ok(())
}

/// Those to 88 entries.
fn condition_mentions<'a>(
    alloc: Global,
    statements: &[&'a Located<Statement>],
    table: &Table,
    conditions: &Conditions,
) -> Result<Vec<ConditionMention<'a>>, NoMemory>
    requires table { IsTable table.now }
    requires conditions { (front : Front) × AreConditions front (items_of table.now) conditions.now }
    ensures { (front : Front) → AreConditions front (items_of table.now) conditions.now → IfOk result (λ made. AreFoundConditions front (items_of table.now) (condition_mentions (seen_all statements.entry.now)) made.items) }
{
    let mut mentions = Vec::new(alloc);
    for one in statements {
        add_conditions(alloc, table, conditions, &mut mentions, *one)?;
    }
    Ok(mentions)
}

/// Those of a statement to 88 entries.
fn add_conditions<'a>(
    alloc: Global,
    table: &Table,
    conditions: &Conditions,
    mentions: &mut Vec<ConditionMention<'a>>,
    one: &'a Located<Statement>,
) -> Result<(), NoMemory>
    requires table { IsTable table.now }
    requires conditions { (front : Front) × AreConditions front (items_of table.now) conditions.now }
    ensures { (front : Front) → AreConditions front (items_of table.now) conditions.now → OnOk result (AddsConditions front (items_of table.now) (map (mention one.entry.now.line) (r.conditions_of one.entry.now.item)) mentions.entry.now.items mentions.exit.now.items) }
{
    let names = conditions_of(alloc, &one.item)?;
    for name in names.as_slice() {
        add_condition(alloc, table, conditions, mentions, one.line, *name)?;
    }
    Ok(())
}

/// A reference to an 88 entry, with what it stands for.
fn add_condition<'a>(
    alloc: Global,
    table: &Table,
    conditions: &Conditions,
    mentions: &mut Vec<ConditionMention<'a>>,
    line: Line,
    reference: &'a Reference,
) -> Result<(), NoMemory>
    requires table { IsTable table.now }
    requires conditions { (front : Front) × AreConditions front (items_of table.now) conditions.now }
    ensures { (front : Front) → AreConditions front (items_of table.now) conditions.now → OnOk result (AddsConditions front (items_of table.now) (mention line reference.entry.now ∷ []) mentions.entry.now.items mentions.exit.now.items) }
{
    let found = conditions.find(alloc, table, reference)?;
    mentions.push(ConditionMention {
        line,
        reference,
        found,
    })?;
    Ok(())
}

/// The items in the subscripts of references to items and to 88 entries.
fn subscript_mentions<'a>(
    alloc: Global,
    items: &[Mention<'a>],
    conditions: &[ConditionMention<'a>],
    table: &Table,
) -> Result<Vec<Mention<'a>>, NoMemory>
    requires { IsTable table.now }
    ensures { IfOk result (λ made. AreFoundAs (items_of table.now) (subscripts_of (map seen_mention items.entry.now ++ map seen_condition conditions.entry.now)) made.items) }
{
    let all = all_references(alloc, items, conditions)?;
    let subscripts = subscript_items(alloc, all.as_slice(), table)?;
    Ok(subscripts)
}

/// References to items, then those to 88 entries.
fn all_references<'a>(
    alloc: Global,
    items: &[Mention<'a>],
    conditions: &[ConditionMention<'a>],
) -> Result<Vec<Mention<'a>>, NoMemory>
    ensures { IfOk result (λ made. map seen_mention made.items ≡ map seen_mention items.entry.now ++ map seen_condition conditions.entry.now) }
{
    let mut all = copied(alloc, items)?;
    for condition in conditions {
        all.push(as_mention(condition))?;
    }
    Ok(all)
}

/// The reference of a reference to an 88 entry.
fn as_mention<'a>(condition: &ConditionMention<'a>) -> Mention<'a>
    ensures { seen_mention result ≡ seen_condition condition.entry.now }
{
    let reference = condition.reference;
    Mention {
        line: condition.line,
        name: &reference.name,
        qualifiers: reference.qualifiers.as_slice(),
        subscript: reference.subscript.as_ref(),
        found: condition.found,
    }
}

fn copied<'a>(alloc: Global, items: &[Mention<'a>]) -> Result<Vec<Mention<'a>>, NoMemory>
    ensures { IfOk result (λ made. made.items ≡ items.entry.now) }
{
    let mut all = Vec::new(alloc);
    for item in items {
        all.push(*item)?;
    }
    Ok(all)
}
