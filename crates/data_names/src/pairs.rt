ghost use Rattle.std.specs.Prelude.{◌≡◌, ◌&&◌, ◌++◌, ◌∷◌, [], false, if◌then◌else◌, ℕ, List, map, IfOk, OnOk};
ghost use Rattle.std.specs.List.{list_any};
ghost use Rattle.std.specs.Option.{option_copied};
ghost use Rattle.std.specs.Str.{bytes_eq};
ghost use Rattle.data_names.specs.Asked.{is_asked, is_name_asked};
ghost use Rattle.data_names.specs.Facts.{AreFacts};
ghost use Rattle.data_names.specs.Names.{in_small, pair_key, ends_with, with_number, numbers_under};
ghost use Rattle.data_names.specs.Pairs.{is_pair, is_in, AreAskedNumbers, ArePairs, IsUnder};
ghost use Rattle.data_names.specs.Seen.{seen_item, seen_name};

use crate::asked::AskedPairs;
use crate::facts::Facts;
use crate::known::KnownItem;
use crate::names::{Names, pair_key};
use cob_base::{ByteText, NoMemory};
use std::alloc::Global;

/// The numbers of the items of each name that are in a group of each name, in the order of their entries, for the pairs of names that are
/// asked for.
#[derive(Drop)]
pub struct Pairs {
    asked: AskedPairs,
    numbers: Names,
}

impl Pairs {
    /// The pairs of these items that are asked for. The facts are those of the items.
    pub fn of(
        alloc: Global,
        items: &[KnownItem],
        facts: &[Facts],
        asked: AskedPairs,
    ) -> Result<Pairs, NoMemory>
        requires { AreFacts (map seen_item items.now) facts.now }
        ensures { IfOk result (λ pairs. ArePairs (map seen_item items.now) pairs) }
    {
        let numbers = numbers_of(alloc, items, facts, &asked)?;
        Ok(Pairs { asked, numbers })
    }

    /// The pairs that are asked for, with these numbers.
    pub fn with(asked: AskedPairs, numbers: Names) -> Pairs
        ensures asked { result.asked ≡ asked }
        ensures numbers { result.numbers ≡ numbers }
    {
        Pairs { asked, numbers }
    }

    /// Whether a name is asked for.
    pub fn has_name(&self, alloc: Global, name: &[u8]) -> Result<bool, NoMemory>
        ensures { IfOk result (λ has. has ≡ is_asked self.now.asked (in_small name.now)) }
    {
        let has = self.asked.has_name(alloc, name)?;
        Ok(has)
    }

    /// The numbers of the items of a name that are in a group of a name; None where the pair was not asked for.
    pub fn numbers(
        &self,
        alloc: Global,
        name: &[u8],
        group: &[u8],
    ) -> Result<Option<&[usize]>, NoMemory>
        ensures { IfOk result (λ numbers. IsUnder self.entry.now (pair_key name.now group.now) (option_copied numbers)) }
    {
        let key = pair_key(alloc, name, group)?;
        if !self.asked.has(key.as_slice()) {
            return Ok(None);
        }
        Ok(Some(self.numbers.under(key.as_slice())))
    }
}

/// The numbers of items under those of their pairs that are asked for.
fn numbers_of(
    alloc: Global,
    items: &[KnownItem],
    facts: &[Facts],
    asked: &AskedPairs,
) -> Result<Names, NoMemory>
    requires { AreFacts (map seen_item items.now) facts.now }
    ensures { IfOk result (λ numbers. AreAskedNumbers (map seen_item items.now) asked.now numbers) }
{
    let mut numbers = Names::none(alloc);
    for (at, item) in items.iter().enumerate() {
        put_item(
            alloc,
            &mut numbers,
            asked,
            item,
            facts[at].groups.as_slice(),
            at,
        )?;
    }
    Ok(numbers)
}

/// Puts the number of an item under those of its pairs that are asked for.
fn put_item(
    alloc: Global,
    numbers: &mut Names,
    asked: &AskedPairs,
    item: &KnownItem,
    groups: &[Option<&ByteText>],
    at: usize,
) -> Result<(), NoMemory>
    ensures { ((key : List ℕ) → ends_with at (numbers_under numbers.old key) ≡ false) → OnOk result ((key : List ℕ) → numbers_under numbers.new key ≡ (if is_name_asked asked.now item.now.text.now.name && (is_in key item.now.text.now.name (map seen_name groups.entry.now) && is_asked asked.now key) then numbers_under numbers.old key ++ at ∷ [] else numbers_under numbers.old key)) }
{
    match &item.text.name {
        Some(name) => put_name(alloc, numbers, asked, name.as_bytes(), groups, at),
        None => Ok(()),
    }
}

/// Puts a number under a name with each of the names of some groups, where the name and the pair are asked for.
fn put_name(
    alloc: Global,
    numbers: &mut Names,
    asked: &AskedPairs,
    name: &[u8],
    groups: &[Option<&ByteText>],
    at: usize,
) -> Result<(), NoMemory>
    ensures { ((key : List ℕ) → ends_with at (numbers_under numbers.old key) ≡ false) → OnOk result ((key : List ℕ) → numbers_under numbers.new key ≡ (if is_asked asked.now (in_small name.now) && (list_any (is_pair key name.now) (map seen_name groups.entry.now) && is_asked asked.now key) then numbers_under numbers.old key ++ at ∷ [] else numbers_under numbers.old key)) }
{
    let has = asked.has_name(alloc, name)?;
    if has {
        put_in_groups(alloc, numbers, asked, name, groups, at)?;
    }
    Ok(())
}

/// Puts a number under a name with each of the names of some groups, where the pair is asked for, behind those there and once under each
/// pair. It is the last number under no key yet.
pub fn put_in_groups(
    alloc: Global,
    numbers: &mut Names,
    asked: &AskedPairs,
    name: &[u8],
    groups: &[Option<&ByteText>],
    at: usize,
) -> Result<(), NoMemory>
    ensures { ((key : List ℕ) → ends_with at (numbers_under numbers.old key) ≡ false) → OnOk result ((key : List ℕ) → numbers_under numbers.new key ≡ (if list_any (is_pair key name.now) (map seen_name groups.entry.now) && is_asked asked.now key then numbers_under numbers.old key ++ at ∷ [] else numbers_under numbers.old key)) }
{
    for group in groups {
        put_in_group(alloc, numbers, asked, name, *group, at)?;
    }
    Ok(())
}

/// Puts a number under a name with the name of a group, where it has one, the pair is asked for and the number is not the last there.
pub fn put_in_group(
    alloc: Global,
    numbers: &mut Names,
    asked: &AskedPairs,
    name: &[u8],
    group: Option<&ByteText>,
    at: usize,
) -> Result<(), NoMemory>
    ensures { OnOk result ((key : List ℕ) → numbers_under numbers.new key ≡ (if is_pair key name.now (seen_name group.entry) && is_asked asked.now key then with_number (numbers_under numbers.old key) at else numbers_under numbers.old key)) }
{
    match group {
        Some(group) => {
            let key = pair_key(alloc, name, group.as_bytes())?;
            put_asked(alloc, numbers, asked, key, at)?;
            Ok(())
        }
        None => Ok(()),
    }
}

/// Puts a number under a key, where that is asked for and the number is not the last there.
fn put_asked(
    alloc: Global,
    numbers: &mut Names,
    asked: &AskedPairs,
    key: Vec<u8>,
    at: usize,
) -> Result<(), NoMemory>
    ensures { OnOk result ((other : List ℕ) → numbers_under numbers.new other ≡ (if bytes_eq key.items other && is_asked asked.now other then with_number (numbers_under numbers.old other) at else numbers_under numbers.old other)) }
{
    if !asked.has(key.as_slice()) {
        return Ok(());
    }
    numbers.put(alloc, key, at)?;
    Ok(())
}
