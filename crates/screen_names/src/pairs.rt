ghost use Rattle.std.specs.Prelude.{◌≡◌, ◌-◌, ◌&&◌, ◌++◌, ◌∷◌, [], false, if◌then◌else◌, ℕ, List, length, map, IfOk, OnOk};
ghost use Rattle.std.specs.List.{list_any};
ghost use Rattle.data_layout.specs.Occurrences.{around};
ghost use Rattle.data_names.specs.Asked.{is_asked};
ghost use Rattle.data_names.specs.Names.{in_small, ends_with, numbers_under};
ghost use Rattle.data_names.specs.Pairs.{is_pair};
ghost use Rattle.data_names.specs.Seen.{seen_name};
ghost use Rattle.screen_names.specs.NamePairs.{group_names, is_kept, AreAskedNumbers};

use crate::matching::{item_of, wide};
use cob_base::{ByteText, NoMemory};
use data_layout::Item;
use data_names::{AskedPairs, Names, put_in_groups};
use std::alloc::Global;

/// The numbers of these items under those of their pairs that are asked for, in the order of their entries.
pub fn numbers_of(alloc: Global, items: &[Item], asked: &AskedPairs) -> Result<Names, NoMemory>
    ensures { IfOk result (λ numbers. AreAskedNumbers items.now asked.now numbers) }
{
    let mut numbers = Names::none(alloc);
    for (number, item) in items.iter().enumerate() {
        put_item(alloc, &mut numbers, asked, items, item, number)?;
    }
    Ok(numbers)
}

/// Puts the number of an item under those of its pairs that are asked for.
fn put_item(
    alloc: Global,
    numbers: &mut Names,
    asked: &AskedPairs,
    items: &[Item],
    item: &Item,
    number: usize,
) -> Result<(), NoMemory>
    ensures { ((key : List ℕ) → ends_with number (numbers_under numbers.old key) ≡ false) → OnOk result ((key : List ℕ) → numbers_under numbers.new key ≡ (if is_kept asked.now key (item.now ∷ around (length items.now - 1) items.now item.now.parent) then numbers_under numbers.old key ++ number ∷ [] else numbers_under numbers.old key)) }
{
    match &item.name {
        Some(name) => put_name(
            alloc,
            numbers,
            asked,
            items,
            item.parent,
            name.as_bytes(),
            number,
        ),
        None => Ok(()),
    }
}

/// Puts the number of an item of this name in this group under those of its pairs that are asked for.
fn put_name(
    alloc: Global,
    numbers: &mut Names,
    asked: &AskedPairs,
    items: &[Item],
    parent: Option<u32>,
    name: &[u8],
    number: usize,
) -> Result<(), NoMemory>
    ensures { ((key : List ℕ) → ends_with number (numbers_under numbers.old key) ≡ false) → OnOk result ((key : List ℕ) → numbers_under numbers.new key ≡ (if is_asked asked.now (in_small name.now) && (list_any (is_pair key name.now) (group_names (around (length items.now - 1) items.now parent)) && is_asked asked.now key) then numbers_under numbers.old key ++ number ∷ [] else numbers_under numbers.old key)) }
{
    let has = asked.has_name(alloc, name)?;
    if has {
        put_around(alloc, numbers, asked, items, parent, name, number)?;
    }
    Ok(())
}

/// Puts a number under a name with each of the names of the groups from this one outwards, where the pair is asked for.
fn put_around(
    alloc: Global,
    numbers: &mut Names,
    asked: &AskedPairs,
    items: &[Item],
    parent: Option<u32>,
    name: &[u8],
    number: usize,
) -> Result<(), NoMemory>
    ensures { ((key : List ℕ) → ends_with number (numbers_under numbers.old key) ≡ false) → OnOk result ((key : List ℕ) → numbers_under numbers.new key ≡ (if list_any (is_pair key name.now) (group_names (around (length items.now - 1) items.now parent)) && is_asked asked.now key then numbers_under numbers.old key ++ number ∷ [] else numbers_under numbers.old key)) }
{
    let groups = groups_around(alloc, items, parent, items.len().saturating_sub(1))?;
    put_in_groups(alloc, numbers, asked, name, groups.as_slice(), number)
}

/// The names of so many groups at most, from this one outwards.
fn groups_around<'a>(
    alloc: Global,
    items: &'a [Item],
    parent: Option<u32>,
    most: usize,
) -> Result<Vec<Option<&'a ByteText>>, NoMemory>
    ensures { IfOk result (λ groups. map seen_name groups.items ≡ group_names (around most items.entry.now parent)) }
{
    let mut groups = Vec::new(alloc);
    let mut next = wide(parent);
    for _step in 0..most {
        let Some(group) = item_of(items, next) else {
            return Ok(groups);
        };
        groups.push(group.name.as_ref())?;
        next = wide(group.parent);
    }
    Ok(groups)
}
