ghost use Rattle.std.specs.Prelude.{◌≡◌, ℕ, ◌++◌, if◌then◌else◌, List, IfOk, OnOk, [], ◌∷◌};
ghost use Rattle.data_names.specs.Names.{is_under, numbers_under};
ghost use Rattle.screen_names.specs.NameTable.{AreNames};

use cob_base::{ByteText, NoMemory};
use data_layout::Item;
use data_names::Names;
use std::alloc::Global;

/// The numbers of these items under their names, in the order of their entries.
pub fn names_of(alloc: Global, items: &[Item]) -> Result<Names, NoMemory>
    ensures { IfOk result (λ names. AreNames items.now names) }
{
    let mut names = Names::none(alloc);
    for (number, item) in items.iter().enumerate() {
        add_item(alloc, &mut names, &item.name, number)?;
    }
    Ok(names)
}

fn add_item(
    alloc: Global,
    names: &mut Names,
    name: &Option<ByteText>,
    number: usize,
) -> Result<(), NoMemory>
    ensures { OnOk result ((key : List ℕ) → numbers_under names.new key ≡ (if is_under key name.now then numbers_under names.old key ++ number ∷ [] else numbers_under names.old key)) }
{
    match name {
        Some(name) => names.add(alloc, name.as_bytes(), number),
        None => Ok(()),
    }
}
