ghost use Rattle.std.specs.Prelude.{◌≡◌, ◌≤◌, ◌<◌, ◌+◌, ◌^◌, ◌++◌, ◌∷◌, [], ℕ, List, length, drop, map, filter, reverse, slice_get, Some, None, Option, IfOk, OnOk};
ghost use Rattle.std.specs.List.{AllZip};
ghost use Rattle.cob_base.specs.declared.divisions.Front.{Front};
ghost use Rattle.data_names.specs.Parts.{item_entries};
ghost use Rattle.data_names.specs.Items.{DataItem, AreDataItems};
ghost use Rattle.data_names.specs.Spots.{Spot, spots};
ghost use Rattle.data_names.specs.Seen.{seen_name};
ghost use Rattle.data_names.specs.References.{is_called, is_qualified, names_around};
ghost use Rattle.data_names.specs.Table.{IsTable, items_of};
ghost use Rattle.procedure_names.specs.ConditionNames.{AreAskedIn};
ghost use Rattle.procedure_names.specs.Conditions.{NamedCondition, condition_on, conditions, conditions_after};
ghost use Rattle.procedure_names.specs.SeenConditions.{IsSpotAt, IsKnownCondition, IsStepTo, AreConditions, IsFoundCondition, IsAmongConditions, is_choice};

use crate::condition_names::ConditionNames;
use cob_base::{ByteText, ConditionEntry, DataEntry, Front, NoMemory, Paragraph, Reference};
use data_names::{Found, Table, descriptions, same_name, working_storage};
use std::alloc::Global;

/// An 88 entry, and the number of the item that it is a condition on.
#[derive(Clone, Copy)]
pub struct KnownCondition<'a> {
    pub entry: &'a ConditionEntry,
    pub item: usize,
}

/// A place among the entries of a section: how many items stand before it in the program, and the number of the last item before it in
/// its section.
#[derive(Clone, Copy)]
pub struct EntryPlace {
    pub items: usize,
    pub last: Option<usize>,
}

/// The 88 entries of a program that are conditions on items, in the order of the text.
fn conditions_of<'a>(alloc: Global, front: &'a Front) -> Result<Vec<KnownCondition<'a>>, NoMemory>
    ensures { (items : List DataItem) → length items < 2 ^ 64 → AreDataItems front.entry.now items → IfOk result (λ made. AllZip (IsKnownCondition items) made.items (conditions front.entry.now items)) }
{
    let mut all = Vec::new(alloc);
    let mut items = 0;
    for description in descriptions(front) {
        items = add_section(&mut all, items, description.records.as_slice())?;
    }
    add_section(&mut all, items, working_storage(front))?;
    Ok(all)
}

/// Those of a section before which so many items stand; the result is how many stand behind it.
fn add_section<'a>(
    all: &mut Vec<KnownCondition<'a>>,
    before: usize,
    entries: &'a [DataEntry],
) -> Result<usize, NoMemory>
    ensures { (items : List DataItem) (made : List NamedCondition) → length items < 2 ^ 64 → before + length (item_entries entries.entry.now) ≤ length items → AllZip (IsKnownCondition items) all.entry.now.items made → IfOk result (λ behind. (behind ≡ before + length (item_entries entries.entry.now)) × AllZip (IsKnownCondition items) all.exit.now.items (made ++ conditions_after None entries.entry.now (drop before (spots items)))) }
{
    let mut place = EntryPlace {
        items: before,
        last: None,
    };
    for entry in entries {
        place = add_entry(all, place, entry)?;
    }
    Ok(place.items)
}

/// Takes in an entry at a place; the result is the place behind it.
fn add_entry<'a>(
    all: &mut Vec<KnownCondition<'a>>,
    place: EntryPlace,
    entry: &'a DataEntry,
) -> Result<EntryPlace, NoMemory>
    ensures { (items : List DataItem) (made : List NamedCondition) (spot : Option (Spot DataItem)) (rest : List DataEntry) → length items < 2 ^ 64 → place.items + length (item_entries (entry.entry.now ∷ rest)) ≤ length items → IsSpotAt items spot place.last → AllZip (IsKnownCondition items) all.entry.now.items made → IfOk result (λ next. IsStepTo items made spot place (entry.entry.now ∷ rest) rest all.exit.now.items next) }
{
    match entry {
        DataEntry::Item(_) => Ok(EntryPlace {
            items: place.items.saturating_add(1),
            last: Some(place.items),
        }),
        DataEntry::Condition(entry) => {
            add_condition(all, place.last, entry)?;
            Ok(place)
        }
    }
}

/// Takes in an 88 entry, where there is an item that it is a condition on.
fn add_condition<'a>(
    all: &mut Vec<KnownCondition<'a>>,
    last: Option<usize>,
    entry: &'a ConditionEntry,
) -> Result<(), NoMemory>
    ensures { (items : List DataItem) (made : List NamedCondition) (spot : Option (Spot DataItem)) → IsSpotAt items spot last → AllZip (IsKnownCondition items) all.entry.now.items made → OnOk result (AllZip (IsKnownCondition items) all.exit.now.items (made ++ condition_on entry.entry.now spot)) }
{
    if let Some(item) = last {
        all.push(KnownCondition { entry, item })?;
    }
    Ok(())
}

/// The 88 entries of a program, with their names.
#[derive(Drop)]
pub struct Conditions<'a> {
    all: Vec<KnownCondition<'a>>,
    names: ConditionNames,
}

impl<'a> Conditions<'a> {
    /// Those of a front, whose items these are, to be found for the references in these paragraphs.
    pub fn of(
        alloc: Global,
        front: &'a Front,
        table: &Table,
        paragraphs: &[Paragraph],
    ) -> Result<Conditions<'a>, NoMemory>
        requires table { IsTable table.now }
        requires items { AreDataItems front.now (items_of table.now) }
        ensures conditions { IfOk result (λ known. AreConditions front.entry.now (items_of table.now) known) }
        ensures asked { IfOk result (λ known. AreAskedIn paragraphs.now known.names) }
    {
        let _count = table.items.len();
        let all = conditions_of(alloc, front)?;
        let names = ConditionNames::of(alloc, table, all.as_slice(), paragraphs)?;
        Ok(Conditions { all, names })
    }

    /// What a reference in a condition stands for.
    pub fn find(
        &self,
        alloc: Global,
        table: &Table,
        reference: &Reference,
    ) -> Result<Found, NoMemory>
        requires table { IsTable table.now }
        requires conditions { (front : Front) × AreConditions front (items_of table.now) self.now }
        ensures { (front : Front) → AreConditions front (items_of table.now) self.now → IfOk result (λ found. IsFoundCondition front (items_of table.now) reference.now found) }
    {
        let numbers = self.names.candidates(alloc, reference)?;
        let mut found = Found::Nothing;
        for at in numbers {
            found = self.step(table, reference, found, *at);
            if let Found::Several = found {
                return Ok(found);
            }
        }
        Ok(found)
    }

    /// What is found after the 88 entry of one more number, which counts where the reference matches it.
    fn step(&self, table: &Table, reference: &Reference, found: Found, at: usize) -> Found
        requires table { IsTable table.now }
        requires conditions { (front : Front) × AreConditions front (items_of table.now) self.now }
        requires within { at < length self.now.all.items }
        ensures { (front : Front) (some : List (ℕ × NamedCondition)) (named : NamedCondition) → AreConditions front (items_of table.now) self.now → slice_get (conditions front (items_of table.now)) at ≡ Some named → IsAmongConditions some found → IsAmongConditions (some ++ filter (is_choice reference.now) ((at, named) ∷ [])) result }
    {
        if self.matches(table, reference, at) {
            with_one(found, at)
        } else {
            found
        }
    }

    /// Whether a reference matches the 88 entry of this number.
    fn matches(&self, table: &Table, reference: &Reference, at: usize) -> bool
        requires table { IsTable table.now }
        requires conditions { (front : Front) × AreConditions front (items_of table.now) self.now }
        requires within { at < length self.now.all.items }
        ensures { (front : Front) (named : NamedCondition) → AreConditions front (items_of table.now) self.now → slice_get (conditions front (items_of table.now)) at ≡ Some named → result ≡ is_choice reference.now (at, named) }
    {
        let known = self.get(at);
        if !same_name(&known.entry.name, &reference.name) {
            return false;
        }
        is_qualified_by(table, known.item, reference.qualifiers.as_slice())
    }

    /// How many 88 entries there are.
    pub fn count(&self) -> usize
        ensures { result ≡ length self.now.all.items }
    {
        self.all.len()
    }

    /// The 88 entry of this number.
    pub fn get(&self, at: usize) -> KnownCondition<'a>
        requires { at < length self.now.all.items }
        ensures { (front : Front) (items : List DataItem) (named : NamedCondition) → AreConditions front items self.entry.now → slice_get (conditions front items) at ≡ Some named → IsKnownCondition items result named }
    {
        self.all[at]
    }
}

/// What is found with the 88 entry of one more number.
fn with_one(found: Found, at: usize) -> Found
    ensures { (some : List (ℕ × NamedCondition)) (named : NamedCondition) → IsAmongConditions some found → IsAmongConditions (some ++ (at, named) ∷ []) result }
{
    match found {
        Found::Nothing => Found::One(at),
        Found::One(_) => Found::Several,
        Found::Several => Found::Several,
    }
}

/// Whether the qualifiers of an 88 entry are its item's name or names of groups that the item is in, from the inside out.
fn is_qualified_by(table: &Table, item: usize, qualifiers: &[ByteText]) -> bool
    requires table { IsTable table.now }
    requires within { item < length table.now.items.now }
    ensures { (spot : Spot DataItem) → slice_get (spots (items_of table.now)) item ≡ Some spot → result ≡ is_qualified qualifiers.now (spot.item.text.name ∷ reverse (names_around spot)) }
{
    let known = table.item_at(item);
    let left = past(qualifiers, known.text.name.as_ref());
    are_names(left, table.facts_at(item).groups.as_slice())
}

/// Whether qualifiers are some of these names of groups, in their order.
fn are_names(qualifiers: &[ByteText], groups: &[Option<&ByteText>]) -> bool
    ensures { result ≡ is_qualified qualifiers.entry.now (map seen_name groups.entry.now) }
{
    let mut left = qualifiers;
    for group in groups {
        left = past(left, *group);
    }
    left.is_empty()
}

/// The qualifiers that are left after one more name.
fn past<'a>(qualifiers: &'a [ByteText], name: Option<&ByteText>) -> &'a [ByteText]
    ensures { (others : List (Option (List ℕ))) → is_qualified result.now others ≡ is_qualified qualifiers.entry.now (seen_name name.entry ∷ others) }
{
    match qualifiers {
        [first, rest @ ..] => if is_called(first, name) {
            rest
        } else {
            qualifiers
        },
        [] => qualifiers,
    }
}

fn is_called(name: &ByteText, other: Option<&ByteText>) -> bool
    ensures { result ≡ is_called name.now (seen_name other.entry) }
{
    match other {
        Some(other) => same_name(other, name),
        None => false,
    }
}
