ghost use Rattle.std.specs.Prelude.{◌≡◌, ◌++◌, List, map, OnOk};
ghost use Rattle.std.specs.List.{flat_map};
ghost use Rattle.statement_parts.specs.Leaves.{items_of_expr, simple_in};
ghost use Rattle.statement_parts.specs.Seen.{seen_all};

use cob_base::{Cond, Expr, NoMemory, Reference, Scale, Sign};

/// The items of an expression, in the order of the text.
#[cycle(expressions)]
pub fn add_items<'a>(all: &mut Vec<&'a Reference>, expr: &'a Expr) -> Result<(), NoMemory>
    ensures { OnOk result (seen_all all.exit.now.items ≡ seen_all all.entry.now.items ++ items_of_expr expr.entry.now) }
{
    match expr {
        Expr::Sum(first, more) => {
            add_items(all, first.get())?;
            add_terms(all, more.as_slice())?;
            Ok(())
        }
        Expr::Product(first, more) => {
            add_items(all, first.get())?;
            add_factors(all, more.as_slice())?;
            Ok(())
        }
        Expr::Signed(_, value) => add_items(all, value.get()),
        Expr::Reference(item) => {
            all.push(item)?;
            Ok(())
        }
        Expr::Number(_) => Ok(()),
        Expr::Zero => Ok(()),
    }
}

#[cycle(expressions)]
fn add_terms<'a>(all: &mut Vec<&'a Reference>, terms: &'a [(Sign, Expr)]) -> Result<(), NoMemory>
    ensures { OnOk result (seen_all all.exit.now.items ≡ seen_all all.entry.now.items ++ flat_map (λ term. items_of_expr term.1) terms.entry.now) }
{
    for term in terms {
        add_items(all, &term.1)?;
    }
    Ok(())
}

#[cycle(expressions)]
fn add_factors<'a>(
    all: &mut Vec<&'a Reference>,
    factors: &'a [(Scale, Expr)],
) -> Result<(), NoMemory>
    ensures { OnOk result (seen_all all.exit.now.items ≡ seen_all all.entry.now.items ++ flat_map (λ factor. items_of_expr factor.1) factors.entry.now) }
{
    for factor in factors {
        add_items(all, &factor.1)?;
    }
    Ok(())
}

/// The simple conditions that a condition is made of, in the order of the text.
#[cycle(conditions)]
pub fn add_simple<'a>(all: &mut Vec<&'a Cond>, condition: &'a Cond) -> Result<(), NoMemory>
    ensures { OnOk result (seen_all all.exit.now.items ≡ seen_all all.entry.now.items ++ simple_in condition.entry.now) }
{
    match condition {
        Cond::Or(each) => add_each(all, each.as_slice()),
        Cond::And(each) => add_each(all, each.as_slice()),
        Cond::Not(one) => add_simple(all, one.get()),
        Cond::Relation { .. } | Cond::Numeric { .. } | Cond::Name(_) => {
            all.push(condition)?;
            Ok(())
        }
    }
}

#[cycle(conditions)]
fn add_each<'a>(all: &mut Vec<&'a Cond>, conditions: &'a [Cond]) -> Result<(), NoMemory>
    ensures { OnOk result (seen_all all.exit.now.items ≡ seen_all all.entry.now.items ++ flat_map simple_in conditions.entry.now) }
{
    for one in conditions {
        add_simple(all, one)?;
    }
    Ok(())
}
