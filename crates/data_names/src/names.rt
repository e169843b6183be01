ghost use Rattle.std.specs.Prelude.{◌≡◌, ◌≤◌, ◌⊎◌, ◌++◌, ◌∷◌, [], if◌then◌else◌, ℕ, List, length, map, min, Some, IfOk, IfSome, OnOk};
ghost use Rattle.std.specs.Option.{option_copied};
ghost use Rattle.std.specs.Str.{bytes_eq};
ghost use Rattle.data_names.specs.Names.{in_small, pair_key, is_under, numbers_under, ends_with, with_number, AreNames};
ghost use Rattle.data_names.specs.References.{same_name};
ghost use Rattle.data_names.specs.Seen.{seen_item};

use crate::known::KnownItem;
use cob_base::{ByteText, NoMemory};
use std::alloc::Global;
use std::collections::BTreeMap;

/// A name in small letters: names are compared without regard to case.
pub fn folded(alloc: Global, name: &[u8]) -> Result<Vec<u8>, NoMemory>
    ensures { IfOk result (λ key. key.items ≡ in_small name.now) }
{
    Ok(
        name.iter()
            .map(|byte| byte.to_ascii_lowercase())
            .collect(alloc)?,
    )
}

/// The key of a name and the name of a group, in small letters.
pub(crate) fn pair_key(alloc: Global, name: &[u8], group: &[u8]) -> Result<Vec<u8>, NoMemory>
    ensures { IfOk result (λ key. key.items ≡ pair_key name.now group.now) }
{
    let mut key = folded(alloc, name)?;
    let group = folded(alloc, group)?;
    key.push(b' ')?;
    key.extend_from_slice(group.as_slice())?;
    Ok(key)
}

/// Whether two names are the same, without regard to case.
pub fn same_name(name: &ByteText, other: &ByteText) -> bool
    ensures { result ≡ same_name name.now other.now }
{
    name.as_bytes().eq_ignore_ascii_case(other.as_bytes())
}

/// Numbers by names, without regard to case: those of the items of each name, in the order of their entries.
#[derive(Drop)]
pub struct Names {
    table: BTreeMap<Vec<u8>, Vec<usize>>,
}

impl Names {
    /// The names of these items.
    pub fn of(alloc: Global, items: &[KnownItem]) -> Result<Names, NoMemory>
        ensures { IfOk result (λ names. AreNames (map seen_item items.now) names) }
    {
        let mut names = Names {
            table: BTreeMap::new(alloc),
        };
        for (at, item) in items.iter().enumerate() {
            names.add_item(alloc, item, at)?;
        }
        Ok(names)
    }

    fn add_item(&mut self, alloc: Global, item: &KnownItem, at: usize) -> Result<(), NoMemory>
        ensures { OnOk result ((key : List ℕ) → numbers_under self.new key ≡ (if is_under key item.now.text.now.name then numbers_under self.old key ++ at ∷ [] else numbers_under self.old key)) }
    {
        match &item.text.name {
            Some(name) => self.add(alloc, name.as_bytes(), at),
            None => Ok(()),
        }
    }

    /// No names.
    pub fn none(alloc: Global) -> Names
        ensures { (key : List ℕ) → numbers_under result key ≡ [] }
    {
        Names {
            table: BTreeMap::new(alloc),
        }
    }

    /// Puts a number under a key, where it is not the last there.
    pub(crate) fn put(&mut self, alloc: Global, key: Vec<u8>, at: usize) -> Result<(), NoMemory>
        ensures { OnOk result ((other : List ℕ) → numbers_under self.new other ≡ (if bytes_eq key.items other then with_number (numbers_under self.old other) at else numbers_under self.old other)) }
    {
        let mut numbers = self.take(alloc, key.as_slice());
        push_once(&mut numbers, at)?;
        self.table.insert(key, numbers)?;
        Ok(())
    }

    /// The numbers under a key.
    pub(crate) fn under(&self, key: &[u8]) -> &[usize]
        ensures { result.now ≡ numbers_under self.entry.now key.now }
    {
        match self.table.get(key) {
            Some(numbers) => numbers.as_slice(),
            None => &[],
        }
    }

    /// Takes the numbers under a key out of the table.
    fn take(&mut self, alloc: Global, key: &[u8]) -> Vec<usize>
        ensures taken { result.items ≡ numbers_under self.old key.now }
        ensures others { (other : List ℕ) → numbers_under self.new other ≡ (if bytes_eq key.now other then [] else numbers_under self.old other) }
    {
        match self.table.remove(key) {
            Some(numbers) => numbers,
            None => Vec::new(alloc),
        }
    }

    /// Puts a number under a name, behind those there.
    pub fn add(&mut self, alloc: Global, name: &[u8], at: usize) -> Result<(), NoMemory>
        ensures { OnOk result ((key : List ℕ) → numbers_under self.new key ≡ (if bytes_eq (in_small name.now) key then numbers_under self.old key ++ at ∷ [] else numbers_under self.old key)) }
    {
        let key = folded(alloc, name)?;
        let mut numbers = self.take(alloc, key.as_slice());
        numbers.push(at)?;
        self.table.insert(key, numbers)?;
        Ok(())
    }

    /// The numbers of the items of a name.
    pub fn numbers(&self, alloc: Global, name: &[u8]) -> Result<&[usize], NoMemory>
        ensures { IfOk result (λ numbers. numbers.now ≡ numbers_under self.entry.now (in_small name.now)) }
    {
        let key = folded(alloc, name)?;
        match self.table.get(key.as_slice()) {
            Some(numbers) => Ok(numbers.as_slice()),
            None => Ok(&[]),
        }
    }
}

/// The shorter of a list of numbers and another, where there is one.
pub fn fewest<'a>(some: &'a [usize], others: Option<&'a [usize]>) -> &'a [usize]
    ensures one { (result.now ≡ some.entry.now) ⊎ (option_copied others.entry ≡ Some result.now) }
    ensures least { length result.now ≤ length some.entry.now }
    ensures of_both { IfSome (option_copied others.entry) (λ other. length result.now ≤ length other) }
{
    match others {
        Some(others) => shorter(some, others),
        None => some,
    }
}

/// The shorter of two lists of numbers.
fn shorter<'a>(some: &'a [usize], others: &'a [usize]) -> &'a [usize]
    ensures one { (result.now ≡ some.entry.now) ⊎ (result.now ≡ others.entry.now) }
    ensures least { length result.now ≡ min (length some.entry.now) (length others.entry.now) }
{
    if others.len() < some.len() {
        others
    } else {
        some
    }
}

/// Adds a number that is not the last already.
fn push_once(numbers: &mut Vec<usize>, at: usize) -> Result<(), NoMemory>
    ensures { OnOk result (numbers.new.items ≡ with_number numbers.old.items at) }
{
    if ends_with(numbers.as_slice(), at) {
        return Ok(());
    }
    numbers.push(at)?;
    Ok(())
}

fn ends_with(numbers: &[usize], at: usize) -> bool
    ensures { result ≡ ends_with at numbers.now }
{
    match numbers.last() {
        Some(last) => *last == at,
        None => false,
    }
}
