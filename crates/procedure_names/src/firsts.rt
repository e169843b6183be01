ghost use Rattle.std.specs.Prelude.{◌≡◌, ◌++◌, ◌∷◌, [], if◌then◌else◌, ℕ, List, Option, Some, None, length, position, IfOk, OnOk};
ghost use Rattle.std.specs.Option.{option_copied};
ghost use Rattle.data_names.specs.Clauses.{or_next};
ghost use Rattle.data_names.specs.Names.{is_under};
ghost use Rattle.data_names.specs.References.{is_called};
ghost use Rattle.procedure_names.specs.Firsts.{first_under, AreFirsts};

use cob_base::{ByteText, NoMemory};
use data_names::folded;
use std::alloc::Global;
use std::collections::BTreeMap;

/// The numbers of named things, by their names without regard to case: of those that share a name, the first.
#[derive(Drop)]
pub struct Firsts {
    names: BTreeMap<Vec<u8>, usize>,
}

impl Firsts {
    /// Nothing.
    pub fn new(alloc: Global) -> Firsts
        ensures { AreFirsts [] result }
    {
        Firsts {
            names: BTreeMap::new(alloc),
        }
    }

    /// Puts a number under a name that has none.
    fn put(&mut self, alloc: Global, name: &ByteText, number: usize) -> Result<(), NoMemory>
        ensures { OnOk result ((key : List ℕ) → first_under self.new key ≡ or_next (first_under self.old key) (if is_under key (Some name.now) then Some number else None)) }
    {
        let key = folded(alloc, name.as_bytes())?;
        if !self.names.contains_key(key.as_slice()) {
            self.names.insert(key, number)?;
        }
        Ok(())
    }

    /// Takes in a thing of a number, after those of lower numbers.
    pub fn add(&mut self, alloc: Global, name: &ByteText, number: usize) -> Result<(), NoMemory>
        ensures { (names : List (Option (List ℕ))) → length names ≡ number → AreFirsts names self.old → OnOk result (AreFirsts (names ++ Some name.now ∷ []) self.new) }
    {
        self.put(alloc, name, number)?;
        Ok(())
    }

    /// Takes in a thing that may have no name.
    pub fn add_optional(
        &mut self,
        alloc: Global,
        name: Option<&ByteText>,
        number: usize,
    ) -> Result<(), NoMemory>
        ensures { (names : List (Option (List ℕ))) → length names ≡ number → AreFirsts names self.old → OnOk result (AreFirsts (names ++ option_copied name.entry ∷ []) self.new) }
    {
        match name {
            Some(name) => self.add(alloc, name, number),
            None => Ok(()),
        }
    }

    /// The number of the first thing of a name.
    pub fn number_of(&self, alloc: Global, name: &ByteText) -> Result<Option<usize>, NoMemory>
        ensures { (names : List (Option (List ℕ))) → AreFirsts names self.now → IfOk result (λ number. number ≡ position (is_called name.now) names) }
    {
        let key = folded(alloc, name.as_bytes())?;
        Ok(self.names.get(key.as_slice()).copied())
    }
}
