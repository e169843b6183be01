ghost use Rattle.std.specs.Prelude.{◌≡◌, ◌==◌, ◌||◌, ◌&&◌, not, ℕ, Some, List, [], ◌∷◌, ◌++◌, map, IfOk, OnOk};
ghost use Rattle.std.specs.List.{list_any};
ghost use Rattle.std.specs.Str.{bytes_eq};
ghost use Rattle.data_names.specs.Names.{in_small};
ghost use Rattle.data_names.specs.Table.{IsTable, items_of};
ghost use Rattle.name_rules.specs.DoubleNames.{later_members, named_item, named_screen};
ghost use Rattle.entry_clauses.specs.SeenScreens.{seen_screen, ArePlacedAfter};
ghost use Rattle.name_rules.specs.SeenMembers.{Member, are_twins, has_member, AreMembers};
ghost use Rattle.name_rules.specs.Faults.{faults_at, fault_where};

use crate::faults::Faults;
use cob_base::{ByteText, Line, NoMemory};
use data_names::{Table, folded};
use entry_clauses::KnownScreen;
use std::alloc::Global;
use std::collections::BTreeSet;

/// The members of groups so far: the number of the group, and the member's name in small letters.
#[derive(Drop)]
struct Members {
    seen: BTreeSet<(u32, Vec<u8>)>,
}

impl Members {
    fn new(alloc: Global) -> Members
        ensures { AreMembers [] result }
    {
        Members {
            seen: BTreeSet::new(alloc),
        }
    }

    /// Notes a member whose name an earlier member of its group has.
    fn note(
        &mut self,
        alloc: Global,
        faults: &mut Faults,
        group: Option<u32>,
        line: Line,
        name: &Option<ByteText>,
    ) -> Result<(), NoMemory>
        ensures { (before : List Member) → AreMembers before self.old → OnOk result (
            (faults.new.found.items ≡ faults.old.found.items ++ fault_where (list_any (are_twins (record { line = line; group = group; name = name.now })) before) 3 line)
            × AreMembers (before ++ record { line = line; group = group; name = name.now } ∷ []) self.new) }
    {
        match group {
            None => Ok(()),
            Some(group) => match name {
                None => Ok(()),
                Some(name) => self.note_named(alloc, faults, group, line, name),
            },
        }
    }

    fn note_named(
        &mut self,
        alloc: Global,
        faults: &mut Faults,
        group: u32,
        line: Line,
        name: &ByteText,
    ) -> Result<(), NoMemory>
        ensures { (before : List Member) → AreMembers before self.old → OnOk result (
            (faults.new.found.items ≡ faults.old.found.items ++ fault_where (list_any (are_twins (record { line = line; group = Some group; name = Some name.now })) before) 3 line)
            × AreMembers (before ++ record { line = line; group = Some group; name = Some name.now } ∷ []) self.new) }
    {
        let is_new = self.add(alloc, group, name.as_bytes())?;
        faults.note(3, line, !is_new)?;
        Ok(())
    }

    fn add(&mut self, alloc: Global, group: u32, name: &[u8]) -> Result<bool, NoMemory>
        ensures new { IfOk result (λ is_new. is_new ≡ not (has_member self.old group (in_small name.now))) }
        ensures added { OnOk result ((number : ℕ) (key : List ℕ) → has_member self.new number key ≡ (has_member self.old number key || ((number == group) && bytes_eq (in_small name.now) key))) }
    {
        let key = folded(alloc, name)?;
        let is_new = self.seen.insert((group, key))?;
        Ok(is_new)
    }
}

/// Notes each item whose name an earlier member of its group has.
pub fn note_twin_items(alloc: Global, faults: &mut Faults, table: &Table) -> Result<(), NoMemory>
    requires { IsTable table.now }
    ensures { OnOk result (faults.new.found.items ≡ faults.old.found.items ++ faults_at 3 (later_members (map named_item (items_of table.now)))) }
{
    let mut members = Members::new(alloc);
    for (at, item) in table.items.iter().enumerate() {
        let facts = table.facts_at(at);
        members.note(alloc, faults, facts.parent, item.row.line, &item.text.name)?;
    }
    Ok(())
}

/// Notes each entry of a screen whose name an earlier member of its group has.
pub fn note_twin_screens(
    alloc: Global,
    faults: &mut Faults,
    screens: &[KnownScreen],
) -> Result<(), NoMemory>
    requires { ArePlacedAfter [] screens.now }
    ensures { OnOk result (faults.new.found.items ≡ faults.old.found.items ++ faults_at 3 (later_members (map named_screen (map seen_screen screens.now)))) }
{
    let mut members = Members::new(alloc);
    for item in screens {
        members.note(alloc, faults, item.parent, item.row.line, &item.entry.name)?;
    }
    Ok(())
}
