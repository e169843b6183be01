ghost use Rattle.std.specs.Prelude.{◌≡◌, ◌==◌, ◌||◌, nat_lt, not, false, ℕ, List, ◌++◌, length, map, filter, IfOk, OnOk};
ghost use Rattle.std.specs.List.{list_any};
ghost use Rattle.std.specs.Str.{bytes_eq};
ghost use Rattle.cob_base.specs.declared.divisions.Front.{Front};
ghost use Rattle.data_names.specs.Items.{DataItem};
ghost use Rattle.data_names.specs.Names.{in_small};
ghost use Rattle.data_names.specs.References.{same_name, matching, count_of_matches};
ghost use Rattle.data_names.specs.Table.{IsFound};
ghost use Rattle.name_rules.specs.Mentions as m;
ghost use Rattle.name_rules.specs.NameKeys.{has_key, AreKeys};
ghost use Rattle.name_rules.specs.SeenMentions.{AreFoundAs, AreMentions};
ghost use Rattle.name_rules.specs.UnknownNames.{unknown_names, ambiguous_names};
ghost use Rattle.name_rules.specs.Faults.{faults_at};

use crate::faults::Faults;
use crate::mentions::{Mention, Mentions};
use cob_base::{FileDescription, FileEntry, Front, NoMemory};
use data_names::{Found, descriptions, files, folded};
use std::alloc::Global;
use std::collections::BTreeSet;

/// Names without regard to case.
#[derive(Drop)]
pub struct NameSet {
    names: BTreeSet<Vec<u8>>,
}

impl NameSet {
    /// No name.
    pub fn new(alloc: Global) -> NameSet
        ensures { (key : List ℕ) → has_key result key ≡ false }
    {
        NameSet {
            names: BTreeSet::new(alloc),
        }
    }

    /// Takes in a name.
    pub fn add(&mut self, alloc: Global, name: &[u8]) -> Result<(), NoMemory>
        ensures { OnOk result ((key : List ℕ) → has_key self.new key ≡ (has_key self.old key || bytes_eq key (in_small name.now))) }
    {
        let key = folded(alloc, name)?;
        self.names.insert(key)?;
        Ok(())
    }

    /// Whether a name is among these.
    pub fn has(&self, alloc: Global, name: &[u8]) -> Result<bool, NoMemory>
        ensures { (others : List (List ℕ)) → AreKeys others self.now → IfOk result (λ has. has ≡ list_any (λ other. same_name name.now other) others) }
    {
        let key = folded(alloc, name)?;
        Ok(self.names.contains(key.as_slice()))
    }
}

/// The names of file control entries.
fn names_of_files(alloc: Global, files: &[FileEntry]) -> Result<NameSet, NoMemory>
    ensures { IfOk result (λ names. AreKeys (map (λ file. file.name) files.now) names) }
{
    let mut names = NameSet::new(alloc);
    for file in files {
        names.add(alloc, file.name.as_bytes())?;
    }
    Ok(names)
}

/// The names of file descriptions.
fn names_of_descriptions(
    alloc: Global,
    descriptions: &[FileDescription],
) -> Result<NameSet, NoMemory>
    ensures { IfOk result (λ names. AreKeys (map (λ description. description.name) descriptions.now) names) }
{
    let mut names = NameSet::new(alloc);
    for description in descriptions {
        names.add(alloc, description.name.as_bytes())?;
    }
    Ok(names)
}

/// Notes each name that stands for nothing: files without a description, descriptions without a file, and references.
pub fn note_unknown_names(
    alloc: Global,
    faults: &mut Faults,
    front: &Front,
    mentions: &Mentions,
) -> Result<(), NoMemory>
    ensures { (items : List DataItem) → AreMentions front.now items mentions.now → OnOk result (faults.new.found.items ≡ faults.old.found.items ++ faults_at 1 (unknown_names front.now items)) }
{
    note_undescribed(alloc, faults, files(front), descriptions(front))?;
    note_unselected(alloc, faults, files(front), descriptions(front))?;
    note_unknown(faults, mentions.references.as_slice())?;
    note_unknown(faults, mentions.subscripts.as_slice())?;
    Ok(())
}

/// Notes each file control entry without a description of its name.
fn note_undescribed(
    alloc: Global,
    faults: &mut Faults,
    files: &[FileEntry],
    descriptions: &[FileDescription],
) -> Result<(), NoMemory>
    ensures { OnOk result (faults.new.found.items ≡ faults.old.found.items ++ faults_at 1 (map (λ file. file.line) (filter (λ file. not (list_any (λ description. same_name file.name description.name) descriptions.now)) files.now))) }
{
    let described = names_of_descriptions(alloc, descriptions)?;
    for file in files {
        let is_described = described.has(alloc, file.name.as_bytes())?;
        faults.note(1, file.line, !is_described)?;
    }
    Ok(())
}

/// Notes each description without a file control entry of its name.
fn note_unselected(
    alloc: Global,
    faults: &mut Faults,
    files: &[FileEntry],
    descriptions: &[FileDescription],
) -> Result<(), NoMemory>
    ensures { OnOk result (faults.new.found.items ≡ faults.old.found.items ++ faults_at 1 (map (λ description. description.line) (filter (λ description. not (list_any (λ file. same_name description.name file.name) files.now)) descriptions.now))) }
{
    let selected = names_of_files(alloc, files)?;
    for description in descriptions {
        let is_selected = selected.has(alloc, description.name.as_bytes())?;
        faults.note(1, description.line, !is_selected)?;
    }
    Ok(())
}

/// Notes each reference that stands for nothing.
pub fn note_unknown(faults: &mut Faults, mentions: &[Mention]) -> Result<(), NoMemory>
    ensures { (items : List DataItem) (all : List m.Mention) → AreFoundAs items all mentions.now → OnOk result (faults.new.found.items ≡ faults.old.found.items ++ faults_at 1 (map (λ one. one.line) (filter (λ one. count_of_matches items one.reference == 0) all))) }
{
    for mention in mentions {
        faults.note(1, mention.line, is_nothing(mention.found))?;
    }
    Ok(())
}

fn is_nothing(found: Found) -> bool
    ensures { (items : List DataItem) (name : List ℕ) (qualifiers : List (List ℕ)) → IsFound items name qualifiers found → result ≡ (length (matching items name qualifiers) == 0) }
{
    match found {
        Found::Nothing => true,
        Found::One(_) => false,
        Found::Several => false,
    }
}

fn is_several(found: Found) -> bool
    ensures { (items : List DataItem) (name : List ℕ) (qualifiers : List (List ℕ)) → IsFound items name qualifiers found → result ≡ nat_lt 1 (length (matching items name qualifiers)) }
{
    match found {
        Found::Nothing => false,
        Found::One(_) => false,
        Found::Several => true,
    }
}

/// Notes each reference that matches several items.
pub fn note_ambiguous_names(faults: &mut Faults, mentions: &Mentions) -> Result<(), NoMemory>
    ensures { (front : Front) (items : List DataItem) → AreMentions front items mentions.now → OnOk result (faults.new.found.items ≡ faults.old.found.items ++ faults_at 2 (ambiguous_names front items)) }
{
    note_ambiguous(faults, mentions.references.as_slice())?;
    note_ambiguous(faults, mentions.subscripts.as_slice())?;
    Ok(())
}

/// Notes each reference that matches several items.
pub fn note_ambiguous(faults: &mut Faults, mentions: &[Mention]) -> Result<(), NoMemory>
    ensures { (items : List DataItem) (all : List m.Mention) → AreFoundAs items all mentions.now → OnOk result (faults.new.found.items ≡ faults.old.found.items ++ faults_at 2 (map (λ one. one.line) (filter (λ one. nat_lt 1 (count_of_matches items one.reference)) all))) }
{
    for mention in mentions {
        faults.note(2, mention.line, is_several(mention.found))?;
    }
    Ok(())
}
