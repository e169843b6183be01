ghost use Rattle.std.specs.Prelude.{◌≡◌, not, ◌++◌, ◌∷◌, [], ℕ, List, length, map, if◌then◌else◌, Some, None, IfOk, OnOk, slice_get};
ghost use Rattle.cob_base.specs.declared.divisions.Front.{Front};
ghost use Rattle.data_names.specs.Items.{DataItem};
ghost use Rattle.data_names.specs.Seen.{seen_item};
ghost use Rattle.key_rules.specs.Descriptions.{AreKnown, AreDescriptions, AreNumbers, number_under, IsDescription, IsDescriptionOf};
ghost use Rattle.std.specs.Str.{bytes_eq};
ghost use Rattle.data_names.specs.Names.{in_small};
ghost use Rattle.data_names.specs.Clauses.{or_next};
ghost use Rattle.data_layout.specs.Faults.{has_size};
ghost use Rattle.data_names.specs.Spots.{is_record};

use cob_base::{FileDescription, FileEntry, Front, NoMemory};
use data_layout::{Row, is_sized};
use data_names::{KnownItem, descriptions, folded, is_record};
use std::alloc::Global;
use std::collections::BTreeMap;

/// What is known of a file description.
#[derive(Clone, Copy, Debug)]
pub struct Description {
    /// How many descriptions stand before it.
    pub number: usize,
    /// The number, from 0, of its record among the items; None where its first item is not of level 01.
    pub record: Option<usize>,
    /// The number, from 0, of the first item under it whose size is not known; None where every size is.
    pub unsized_at: Option<usize>,
}

/// The descriptions of a program's files, and the number of the first of each name.
#[derive(Drop)]
pub struct Descriptions {
    all: Vec<Description>,
    names: BTreeMap<Vec<u8>, usize>,
}

impl Descriptions {
    /// The descriptions of a program with these items.
    pub fn of(alloc: Global, front: &Front, items: &[KnownItem]) -> Result<Descriptions, NoMemory>
        ensures { IfOk result (λ known. AreDescriptions front.now (map seen_item items.now) known) }
    {
        let files = descriptions(front);
        Ok(Descriptions {
            all: known_of(alloc, files, items)?,
            names: numbers_of(alloc, files)?,
        })
    }

    /// What is known of the description of a file: the first of its name; None where none has it.
    pub fn of_file(&self, alloc: Global, file: &FileEntry) -> Result<Option<Description>, NoMemory>
        ensures { (front : Front) (items : List DataItem) → AreDescriptions front items self.now → IfOk result (λ known. IsDescriptionOf front items file.now.name known) }
    {
        let name = folded(alloc, file.name.as_bytes())?;
        match self.names.get(name.as_slice()) {
            Some(number) => Ok(self.at(*number)),
            None => Ok(None),
        }
    }

    /// What is known of the description of this number.
    fn at(&self, number: usize) -> Option<Description>
        ensures { result ≡ slice_get self.now.all.items number }
    {
        if number < self.all.len() {
            Some(self.all[number])
        } else {
            None
        }
    }
}

/// The number of the first description of each name, in small letters.
fn numbers_of(
    alloc: Global,
    files: &[FileDescription],
) -> Result<BTreeMap<Vec<u8>, usize>, NoMemory>
    ensures { IfOk result (λ names. AreNumbers files.now names) }
{
    let mut names = BTreeMap::new(alloc);
    for (number, file) in files.iter().enumerate() {
        add_name(alloc, &mut names, file, number)?;
    }
    Ok(names)
}

fn add_name(
    alloc: Global,
    names: &mut BTreeMap<Vec<u8>, usize>,
    file: &FileDescription,
    number: usize,
) -> Result<(), NoMemory>
    ensures { OnOk result ((key : List ℕ) → number_under names.new key ≡ or_next (number_under names.old key) (if bytes_eq key (in_small file.now.name) then Some number else None)) }
{
    let name = folded(alloc, file.name.as_bytes())?;
    if !names.contains_key(name.as_slice()) {
        names.insert(name, number)?;
    }
    Ok(())
}

/// What is known of each description, where these are the items.
fn known_of(
    alloc: Global,
    files: &[FileDescription],
    items: &[KnownItem],
) -> Result<Vec<Description>, NoMemory>
    ensures { IfOk result (λ known. (length known.items ≡ length files.now) × AreKnown (map seen_item items.now) known.items) }
{
    let mut known = unseen(alloc, files.len())?;
    for (at, item) in items.iter().enumerate() {
        see(&mut known, at, item);
    }
    Ok(known)
}

/// So many descriptions, before any item.
fn unseen(alloc: Global, count: usize) -> Result<Vec<Description>, NoMemory>
    ensures { IfOk result (λ known. (length known.items ≡ count) × AreKnown [] known.items) }
{
    let mut known = Vec::new(alloc);
    for number in 0..count {
        known.push(Description {
            number,
            record: None,
            unsized_at: None,
        })?;
    }
    Ok(known)
}

/// Takes in one more item.
fn see(known: &mut Vec<Description>, at: usize, item: &KnownItem)
    ensures count { length known.new.items ≡ length known.old.items }
    ensures known { (before : List DataItem) → length before ≡ at → AreKnown before known.old.items → AreKnown (before ++ seen_item item.now ∷ []) known.new.items }
{
    if let Some(number) = item.source.file {
        if number < known.len() {
            known[number] = with_item(known[number], at, item);
        }
    }
}

/// What is known of a description with one more item under it.
fn with_item(known: Description, at: usize, item: &KnownItem) -> Description
    ensures { (before : List DataItem) (number : ℕ) → length before ≡ at → item.now.source.file ≡ Some number → IsDescription before number known → IsDescription (before ++ seen_item item.now ∷ []) number result }
{
    Description {
        number: known.number,
        record: first_of(known.record, record_at(at, item)),
        unsized_at: first_of(known.unsized_at, unsized_at(at, &item.row)),
    }
}

fn unsized_at(at: usize, row: &Row) -> Option<usize>
    ensures { result ≡ (if not (has_size row.now) then Some at else None) }
{
    if is_sized(row) { None } else { Some(at) }
}

fn first_of(first: Option<usize>, next: Option<usize>) -> Option<usize>
    ensures { result ≡ or_next first next }
{
    match first {
        Some(at) => Some(at),
        None => next,
    }
}

fn record_at(at: usize, item: &KnownItem) -> Option<usize>
    ensures { result ≡ (if is_record (seen_item item.now) then Some at else None) }
{
    if is_record(item) { Some(at) } else { None }
}
