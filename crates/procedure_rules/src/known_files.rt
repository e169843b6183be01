ghost use Rattle.std.specs.Prelude.{◌≡◌, ◌==◌, ◌||◌, ℕ, Some, option_to_list, slice_get, IfOk, OnOk};
ghost use Rattle.std.specs.List.{list_any, filter_map};
ghost use Rattle.std.specs.Option.{option_copied};
ghost use Rattle.data_names.specs.Items.{DataItem};
ghost use Rattle.data_names.specs.Spots.{Spot, spots};
ghost use Rattle.data_names.specs.References.{found};
ghost use Rattle.name_rules.specs.Mentions.{keys_of};
ghost use Rattle.procedure_rules.specs.Keys as k;
ghost use Rattle.procedure_rules.specs.Reading as r;
ghost use Rattle.procedure_rules.specs.KnownFiles.{has_number, is_alternate, IsKnownFile, AreKnownFiles};
ghost use Rattle.procedure_names.specs.Scoped.{IsScope, items_in};

use cob_base::{Access, FileClause, FileEntry, NoMemory, Reference};
use entry_clauses::file_clauses::{FileClauseKind, has, record_key};
use procedure_names::Scope;
use std::alloc::Global;
use std::collections::BTreeSet;

/// A file control entry, and what its clauses say: found out once, however many statements name the file.
#[derive(Drop)]
pub struct KnownFile<'a> {
    pub entry: &'a FileEntry,
    pub access: Access,
    pub has_lock_mode: bool,
    /// The numbers of the items that are its keys.
    keys: BTreeSet<usize>,
}

impl<'a> KnownFile<'a> {
    fn of(alloc: Global, scope: &Scope, entry: &'a FileEntry) -> Result<KnownFile<'a>, NoMemory>
        requires { IsScope scope.now }
        ensures entry { IfOk result (λ file. file.entry.now ≡ entry.entry.now) }
        ensures known { IfOk result (λ file. IsKnownFile (items_in scope.entry.now) file) }
    {
        let keys = numbers_of_keys(alloc, scope, entry)?;
        Ok(KnownFile {
            entry,
            access: access_of(entry),
            has_lock_mode: has_lock_mode(entry),
            keys,
        })
    }

    /// Whether the item of a number is a key.
    pub fn has_key(&self, at: usize) -> bool
        ensures { result ≡ has_number self.now.keys at }
    {
        self.keys.contains(&at)
    }
}

/// The files of these control entries, in their order.
pub fn known_files<'a>(
    alloc: Global,
    scope: &Scope,
    entries: &'a [FileEntry],
) -> Result<Vec<KnownFile<'a>>, NoMemory>
    requires { IsScope scope.now }
    ensures { IfOk result (λ known. AreKnownFiles (items_in scope.entry.now) entries.entry.now known.items) }
{
    let mut known = Vec::new(alloc);
    for entry in entries {
        known.push(KnownFile::of(alloc, scope, entry)?)?;
    }
    Ok(known)
}

/// The access of a file; without the clause it is sequential.
fn access_of(file: &FileEntry) -> Access
    ensures { result ≡ r.access_of file.now }
{
    for clause in file.clauses.as_slice() {
        if let FileClause::Access(access) = clause {
            return *access;
        }
    }
    Access::Sequential
}

fn has_lock_mode(file: &FileEntry) -> bool
    ensures { result ≡ r.has_lock_mode file.now }
{
    has(file.clauses.as_slice(), FileClauseKind::Lock)
}

/// The numbers of the items that are keys of a file.
fn numbers_of_keys(
    alloc: Global,
    scope: &Scope,
    file: &FileEntry,
) -> Result<BTreeSet<usize>, NoMemory>
    requires { IsScope scope.now }
    ensures { (at : ℕ) (spot : Spot DataItem) → slice_get (spots (items_in scope.now)) at ≡ Some spot → IfOk result (λ keys. has_number keys at ≡ list_any (k.same_item spot) (filter_map (found (items_in scope.now)) (keys_of file.now))) }
{
    let clauses = file.clauses.as_slice();
    let mut keys = BTreeSet::new(alloc);
    add_prime(alloc, scope, &mut keys, record_key(clauses))?;
    add_alternates(alloc, scope, &mut keys, clauses)?;
    Ok(keys)
}

/// Adds that of the prime key.
fn add_prime(
    alloc: Global,
    scope: &Scope,
    keys: &mut BTreeSet<usize>,
    key: Option<&Reference>,
) -> Result<(), NoMemory>
    requires { IsScope scope.now }
    ensures { (at : ℕ) (spot : Spot DataItem) → slice_get (spots (items_in scope.now)) at ≡ Some spot → OnOk result (has_number keys.new at ≡ (has_number keys.old at || list_any (k.same_item spot) (filter_map (found (items_in scope.now)) (option_to_list (option_copied key.entry))))) }
{
    match key {
        Some(key) => {
            add_key(alloc, scope, keys, key)?;
            Ok(())
        }
        None => Ok(()),
    }
}

/// Adds those of the alternate keys.
fn add_alternates(
    alloc: Global,
    scope: &Scope,
    keys: &mut BTreeSet<usize>,
    clauses: &[FileClause],
) -> Result<(), NoMemory>
    requires { IsScope scope.now }
    ensures { (at : ℕ) (spot : Spot DataItem) → slice_get (spots (items_in scope.now)) at ≡ Some spot → OnOk result (has_number keys.new at ≡ (has_number keys.old at || list_any (is_alternate (items_in scope.now) spot) clauses.now)) }
{
    for clause in clauses {
        add_alternate(alloc, scope, keys, clause)?;
    }
    Ok(())
}

/// Adds that of the key that an ALTERNATE clause names.
fn add_alternate(
    alloc: Global,
    scope: &Scope,
    keys: &mut BTreeSet<usize>,
    clause: &FileClause,
) -> Result<(), NoMemory>
    requires { IsScope scope.now }
    ensures { (at : ℕ) (spot : Spot DataItem) → slice_get (spots (items_in scope.now)) at ≡ Some spot → OnOk result (has_number keys.new at ≡ (has_number keys.old at || is_alternate (items_in scope.now) spot clause.now)) }
{
    match clause {
        FileClause::AlternateKey { key, .. } => {
            add_key(alloc, scope, keys, key)?;
            Ok(())
        }
        _ => Ok(()),
    }
}

/// Adds the number of the item that a key stands for.
fn add_key(
    alloc: Global,
    scope: &Scope,
    keys: &mut BTreeSet<usize>,
    key: &Reference,
) -> Result<(), NoMemory>
    requires { IsScope scope.now }
    ensures { (at : ℕ) (spot : Spot DataItem) → slice_get (spots (items_in scope.now)) at ≡ Some spot → OnOk result (has_number keys.new at ≡ (has_number keys.old at || list_any (k.same_item spot) (option_to_list (found (items_in scope.now) key.now)))) }
{
    match scope.table.found(alloc, key)? {
        Some(number) => {
            add_number(keys, number)?;
            Ok(())
        }
        None => Ok(()),
    }
}

fn add_number(keys: &mut BTreeSet<usize>, number: usize) -> Result<(), NoMemory>
    ensures { OnOk result ((at : ℕ) → has_number keys.new at ≡ (has_number keys.old at || (at == number))) }
{
    keys.insert(number)?;
    Ok(())
}
