ghost use Rattle.std.specs.Prelude.{◌≡◌, ◌<◌, ℕ, List, [], ◌∷◌, ◌++◌, length, map, filter, Some, IfOk, slice_get};
ghost use Rattle.data_names.specs.Items.{DataItem};
ghost use Rattle.data_names.specs.References.{is_called, is_qualified, is_match};
ghost use Rattle.data_names.specs.Spots.{Spot, spots};
ghost use Rattle.data_names.specs.Seen.{seen_item, seen_name};
ghost use Rattle.data_names.specs.Facts.{IsFacts};
ghost use Rattle.data_names.specs.Pairs.{IsCover};
ghost use Rattle.data_names.specs.Table.{IsTable, IsFound, IsAmong, IsFoundAt, is_choice, items_of};

use crate::facts::Facts;
use crate::known::KnownItem;
use crate::names::{Names, fewest, same_name};
use crate::pairs::Pairs;
use cob_base::{ByteText, NoMemory, Reference};
use std::alloc::Global;

/// What a reference stands for.
#[derive(Clone, Copy, Debug, PartialEq, Eq)]
pub enum Found {
    /// No item.
    Nothing,
    /// The item of this number, and no other.
    One(usize),
    /// Several items.
    Several,
}

impl Found {
    /// What is found with the item of one more number.
    fn with(self, at: usize) -> Found
        ensures { (some : List (ℕ × Spot DataItem)) (spot : Spot DataItem) → IsAmong some self → IsAmong (some ++ (at, spot) ∷ []) result }
    {
        match self {
            Found::Nothing => Found::One(at),
            Found::One(_) | Found::Several => Found::Several,
        }
    }
}

/// The items of a program with what their surroundings say, and their names. All are of the same items, which are numbered from 0.
#[derive(Clone, Copy)]
pub struct Table<'a> {
    pub items: &'a [KnownItem<'a>],
    pub facts: &'a [Facts<'a>],
    pub names: &'a Names,
    pub pairs: &'a Pairs,
}

impl Table<'_> {
    /// What a name with its qualifiers stands for.
    pub fn find(
        &self,
        alloc: Global,
        name: &ByteText,
        qualifiers: &[ByteText],
    ) -> Result<Found, NoMemory>
        requires { IsTable self.now }
        ensures { IfOk result (λ found. IsFound (items_of self.now) name.now qualifiers.now found) }
    {
        let numbers = self.candidates(alloc, name, qualifiers)?;
        let mut found = Found::Nothing;
        for at in numbers {
            found = self.step(name, qualifiers, found, *at);
            if let Found::Several = found {
                return Ok(found);
            }
        }
        Ok(found)
    }

    /// The numbers of items among which are all that match: the fewest that the name or one of its pairs gives that were asked for.
    fn candidates(
        &self,
        alloc: Global,
        name: &ByteText,
        qualifiers: &[ByteText],
    ) -> Result<&[usize], NoMemory>
        requires { IsTable self.now }
        ensures { IfOk result (λ numbers. IsCover (items_of self.entry.now) name.now qualifiers.now numbers.now) }
    {
        let mut best = self.names.numbers(alloc, name.as_bytes())?;
        let asked = self.pairs.has_name(alloc, name.as_bytes())?;
        if !asked {
            return Ok(best);
        }
        for qualifier in qualifiers {
            let numbers = self
                .pairs
                .numbers(alloc, name.as_bytes(), qualifier.as_bytes())?;
            best = fewest(best, numbers);
        }
        Ok(best)
    }

    /// What is found after the item of one more number, which counts where it matches.
    fn step(&self, name: &ByteText, qualifiers: &[ByteText], found: Found, at: usize) -> Found
        requires table { IsTable self.now }
        requires within { at < length self.now.items.now }
        ensures { (some : List (ℕ × Spot DataItem)) (spot : Spot DataItem) → slice_get (spots (items_of self.now)) at ≡ Some spot → IsAmong some found → IsAmong (some ++ filter (is_choice name.now qualifiers.now) ((at, spot) ∷ [])) result }
    {
        if self.matches(name, qualifiers, at) {
            found.with(at)
        } else {
            found
        }
    }

    /// The item of this number, which is below the count of items.
    pub fn item_at(&self, at: usize) -> KnownItem<'_>
        requires { at < length self.now.items.now }
        ensures { (spot : Spot DataItem) → slice_get (spots (items_of self.entry.now)) at ≡ Some spot → spot.item ≡ seen_item result }
    {
        self.items[at]
    }

    /// What the surroundings of the item of this number say of it. The number is below the count of items.
    pub fn facts_at(&self, at: usize) -> &Facts<'_>
        requires table { IsTable self.now }
        requires within { at < length self.now.items.now }
        ensures { (spot : Spot DataItem) → slice_get (spots (items_of self.entry.now)) at ≡ Some spot → IsFacts spot result.now }
    {
        &self.facts[at]
    }

    /// Whether the item of this number has this name, and qualifiers name groups around it.
    fn matches(&self, name: &ByteText, qualifiers: &[ByteText], at: usize) -> bool
        requires table { IsTable self.now }
        requires within { at < length self.now.items.now }
        ensures { (spot : Spot DataItem) → slice_get (spots (items_of self.now)) at ≡ Some spot → result ≡ is_match name.now qualifiers.now spot }
    {
        if !has_name(self.item_at(at), name) {
            return false;
        }
        is_qualified(qualifiers, self.facts_at(at).groups.as_slice())
    }

    /// What a reference stands for.
    pub fn find_reference(&self, alloc: Global, reference: &Reference) -> Result<Found, NoMemory>
        requires { IsTable self.now }
        ensures { IfOk result (λ found. IsFound (items_of self.now) reference.now.name reference.now.qualifiers found) }
    {
        self.find(alloc, &reference.name, reference.qualifiers.as_slice())
    }

    /// The number of the item that a reference stands for; None where it matches none or several.
    pub fn found(&self, alloc: Global, reference: &Reference) -> Result<Option<usize>, NoMemory>
        requires { IsTable self.now }
        ensures { IfOk result (λ number. IsFoundAt self.now reference.now number) }
    {
        match self.find_reference(alloc, reference)? {
            Found::Nothing => Ok(None),
            Found::One(at) => Ok(Some(at)),
            Found::Several => Ok(None),
        }
    }
}

/// Whether an item has this name.
fn has_name(item: KnownItem, name: &ByteText) -> bool
    ensures { result ≡ is_called name.now (seen_item item.entry).text.name }
{
    match &item.text.name {
        Some(other) => same_name(other, name),
        None => false,
    }
}

/// Whether qualifiers are some of these names of groups, in their order.
fn is_qualified(qualifiers: &[ByteText], groups: &[Option<&ByteText>]) -> bool
    ensures { result ≡ is_qualified qualifiers.entry.now (map seen_name groups.entry.now) }
{
    let mut qualifiers = qualifiers;
    for group in groups {
        if let [qualifier, others @ ..] = qualifiers {
            if is_called(qualifier, *group) {
                qualifiers = others;
            }
        }
    }
    qualifiers.is_empty()
}

fn is_called(name: &ByteText, other: Option<&ByteText>) -> bool
    ensures { result ≡ is_called name.now (seen_name other.entry) }
{
    match other {
        Some(other) => same_name(other, name),
        None => false,
    }
}
