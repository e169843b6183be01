ghost use Rattle.std.specs.Option.{option_copied};
ghost use Rattle.std.specs.Prelude.{◌≡◌, ℕ, ◌+◌, ◌^◌, ◌<◌, if◌then◌else◌, List, filter, slice_get, slice_index, IsSome, Option, length, Some, [], ◌∷◌, map};
ghost use Rattle.data_layout.specs.Occurrences.{item_at, around, around_item};
ghost use Rattle.screen_names.specs.Names.{is_named, are_qualifiers, matches, is_only, is_single};

use cob_base::{ByteText, Reference};
use data_layout::Item;

/// Whether an item has this name.
fn has_name(given: &Option<ByteText>, name: &[u8]) -> bool
    ensures { result ≡ is_named given.now name.now }
{
    match given {
        Some(given) => given.as_bytes().eq_ignore_ascii_case(name),
        None => false,
    }
}

/// Whether the qualifiers stand around an item whose group this is.
fn are_around(items: &[Item], qualifiers: &[ByteText], parent: Option<u32>, most: usize) -> bool
    ensures { result ≡ are_qualifiers qualifiers.now (around most items.now parent) }
{
    let mut found = 0;
    let mut next = wide(parent);
    for _step in 0..most {
        if found >= qualifiers.len() {
            return true;
        }
        let Some(group) = item_of(items, next) else {
            return false;
        };
        found = past(found, has_name(&group.name, qualifiers[found].as_bytes()));
        next = wide(group.parent);
    }
    found >= qualifiers.len()
}

/// One more, where this holds.
fn past(found: usize, holds: bool) -> usize
    requires { found < 2 ^ 63 }
    ensures { result ≡ (if holds then found + 1 else found) }
{
    if holds { found + 1 } else { found }
}

pub fn wide(number: Option<u32>) -> Option<usize>
    ensures { result ≡ number }
{
    match number {
        Some(number) => Some(number as usize),
        None => None,
    }
}

pub fn item_of(items: &[Item], number: Option<usize>) -> Option<&Item>
    ensures { option_copied result ≡ item_at items.now number }
{
    match number {
        Some(number) => items.get(number),
        None => None,
    }
}

/// Whether a reference matches the item of this number.
fn is_match(items: &[Item], reference: &Reference, number: usize) -> bool
    ensures { result ≡ matches reference.now (around_item items.now number) }
{
    match items.get(number) {
        Some(item) => has_name(&item.name, reference.name.as_bytes())
            && are_around(
                items,
                reference.qualifiers.as_slice(),
                item.parent,
                items.len() - 1,
            ),
        None => false,
    }
}

/// The only one of these items that a reference matches.
pub fn only_match(items: &[Item], reference: &Reference, numbers: &[usize]) -> Option<usize>
    ensures { result ≡ is_only (filter (λ number. matches reference.now (around_item items.now number)) numbers.now) }
{
    let mut found = None;
    for number in numbers {
        if is_match(items, reference, *number) {
            if found.is_some() {
                return None;
            }
            found = Some(*number);
        }
    }
    found
}

/// Whether neither the item of this number nor a group around it has OCCURS; true of a number that no item has.
pub fn is_single_item(items: &[Item], number: usize) -> bool
    ensures { result ≡ is_single items.now number }
{
    let mut next = Some(number);
    for _step in 0..items.len() {
        let Some(item) = item_of(items, next) else {
            return true;
        };
        if item.occurs != 0 {
            return false;
        }
        next = wide(item.parent);
    }
    true
}
