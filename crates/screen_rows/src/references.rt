ghost use Rattle.std.specs.Prelude.{◌≡◌, ◌++◌, option_to_list, IfOk, OnOk};
ghost use Rattle.std.specs.List.{flat_map};
ghost use Rattle.std.specs.Option.{option_copied};
ghost use Rattle.data_names.specs.Seen.{seen_references};
ghost use Rattle.screen_rows.specs.Clauses.{reference_in, references_of};

use crate::clauses;
use cob_base::{NoMemory, Operand, Reference, ScreenEntry};
use std::alloc::Global;

/// The references of these entries, for which the names of a layout are put in order.
pub fn references_of(alloc: Global, entries: &[ScreenEntry]) -> Result<Vec<&Reference>, NoMemory>
    ensures { IfOk result (λ made. seen_references made.items ≡ flat_map references_of entries.entry.now) }
{
    let mut all = Vec::new(alloc);
    for entry in entries {
        add_entry(&mut all, entry)?;
    }
    Ok(all)
}

/// What FROM, TO and USING name.
fn add_entry<'a>(all: &mut Vec<&'a Reference>, entry: &'a ScreenEntry) -> Result<(), NoMemory>
    ensures { OnOk result (seen_references all.exit.now.items ≡ seen_references all.entry.now.items ++ references_of entry.entry.now) }
{
    let clauses = entry.clauses.as_slice();
    add_operand(all, clauses::from(clauses))?;
    add_optional(all, clauses::to(clauses))?;
    add_optional(all, clauses::using(clauses))?;
    Ok(())
}

fn add_operand<'a>(
    all: &mut Vec<&'a Reference>,
    operand: Option<&'a Operand>,
) -> Result<(), NoMemory>
    ensures { OnOk result (seen_references all.exit.now.items ≡ seen_references all.entry.now.items ++ reference_in (option_copied operand.entry)) }
{
    if let Some(Operand::Reference(reference)) = operand {
        all.push(reference)?;
    }
    Ok(())
}

fn add_optional<'a>(
    all: &mut Vec<&'a Reference>,
    reference: Option<&'a Reference>,
) -> Result<(), NoMemory>
    ensures { OnOk result (seen_references all.exit.now.items ≡ seen_references all.entry.now.items ++ option_to_list (option_copied reference.entry)) }
{
    if let Some(reference) = reference {
        all.push(reference)?;
    }
    Ok(())
}
