ghost use Rattle.std.specs.Prelude.{◌≡◌, Some, option_to_list, IfOk};
ghost use Rattle.std.specs.List.{list_any};
ghost use Rattle.data_names.specs.References.{found};
ghost use Rattle.statement_parts.specs.References.{items_of_place};
ghost use Rattle.procedure_rules.specs.Keys as k;
ghost use Rattle.procedure_rules.specs.KnownFiles.{IsKnownFile};
ghost use Rattle.procedure_rules.specs.KnownProgram.{IsKnownProgram};
ghost use Rattle.procedure_names.specs.Scoped.{IsScope, front_in, items_in};

use crate::known_files::KnownFile;
use crate::known_program::KnownProgram;
use cob_base::{ByteText, NoMemory, Reference, StartPlace, Statement};
use procedure_names::Scope;
use std::alloc::Global;

fn names_no_key_of(
    alloc: Global,
    scope: &Scope,
    file: &KnownFile,
    key: &Reference,
) -> Result<bool, NoMemory>
    requires scope { IsScope scope.now }
    requires file { IsKnownFile (items_in scope.now) file.now }
    ensures { IfOk result (λ bad. bad ≡ k.is_no_key_of (items_in scope.now) (Some file.now.entry.now) (found (items_in scope.now) key.now)) }
{
    match scope.table.found(alloc, key)? {
        Some(at) => Ok(!file.has_key(at)),
        None => Ok(false),
    }
}

/// Whether a KEY phrase names an item that no key clause of its file names.
fn names_no_key(
    alloc: Global,
    known: &KnownProgram,
    file: &ByteText,
    key: &Reference,
) -> Result<bool, NoMemory>
    requires { IsKnownProgram known.now }
    ensures { IfOk result (λ bad. bad ≡ k.names_no_key (front_in known.now.scope.now) (items_in known.now.scope.now) (record { file = file.now; key = key.now })) }
{
    match known.file_named(alloc, file)? {
        Some(file) => names_no_key_of(alloc, known.scope, file, key),
        None => Ok(false),
    }
}

fn has_bad_read_key(
    alloc: Global,
    known: &KnownProgram,
    file: &ByteText,
    key: &Option<Reference>,
) -> Result<bool, NoMemory>
    requires { IsKnownProgram known.now }
    ensures { IfOk result (λ bad. bad ≡ list_any (k.names_no_key (front_in known.now.scope.now) (items_in known.now.scope.now)) (k.phrases_with file.now (option_to_list key.now))) }
{
    match key {
        Some(key) => names_no_key(alloc, known, file, key),
        None => Ok(false),
    }
}

fn has_bad_start_key(
    alloc: Global,
    known: &KnownProgram,
    file: &ByteText,
    place: &Option<StartPlace>,
) -> Result<bool, NoMemory>
    requires { IsKnownProgram known.now }
    ensures { IfOk result (λ bad. bad ≡ list_any (k.names_no_key (front_in known.now.scope.now) (items_in known.now.scope.now)) (k.phrases_with file.now (items_of_place place.now))) }
{
    match place {
        Some(StartPlace::Key { key, .. }) => names_no_key(alloc, known, file, key),
        Some(StartPlace::First) => Ok(false),
        Some(StartPlace::Last) => Ok(false),
        None => Ok(false),
    }
}

/// Whether the KEY phrase of a READ or START names no key of its file.
pub fn has_bad_key(
    alloc: Global,
    known: &KnownProgram,
    statement: &Statement,
) -> Result<bool, NoMemory>
    requires { IsKnownProgram known.now }
    ensures { IfOk result (λ bad. bad ≡ k.has_bad_key (front_in known.now.scope.now) (items_in known.now.scope.now) statement.now) }
{
    match statement {
        Statement::Read { file, key, .. } => has_bad_read_key(alloc, known, file, key),
        Statement::Start { file, place, .. } => has_bad_start_key(alloc, known, file, place),
        _ => Ok(false),
    }
}
