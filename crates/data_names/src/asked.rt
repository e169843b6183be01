ghost use Rattle.std.specs.Prelude.{◌≡◌, ℕ, List, IfOk, OnOk};
ghost use Rattle.std.specs.List.{list_any};
ghost use Rattle.std.specs.Option.{option_copied};
ghost use Rattle.std.specs.Str.{bytes_eq};
ghost use Rattle.data_names.specs.Names.{in_small, pair_key};
ghost use Rattle.data_names.specs.Asked.{is_asked, name_asks, subscript_asks, asks, any_asks, AreAskedBy, AreAskedWith};
ghost use Rattle.data_names.specs.Seen.{seen_references};

use crate::names::{Names, folded, pair_key};
use cob_base::{ByteText, NoMemory, Reference, Subscript};
use std::alloc::Global;
use std::collections::BTreeSet;

/// How many have to share a name for its pairs to be asked for: a list that is shorter is gone through as fast.
const MANY: usize = 8;

/// The names that references with qualifiers ask for, and the pairs of each with the name of a group, in small letters. What is asked for
/// decides nothing but cost.
#[derive(Drop)]
pub struct AskedPairs {
    keys: BTreeSet<Vec<u8>>,
}

impl AskedPairs {
    /// What references ask for, where these are the names of what they refer to.
    pub fn of(
        alloc: Global,
        names: &Names,
        references: &[&Reference],
    ) -> Result<AskedPairs, NoMemory>
        ensures { IfOk result (λ asked. AreAskedBy asked (any_asks names.now (seen_references references.entry.now))) }
    {
        let mut asked = AskedPairs {
            keys: BTreeSet::new(alloc),
        };
        for reference in references {
            asked.ask(alloc, names, *reference)?;
        }
        Ok(asked)
    }

    /// Whether a key is asked for.
    pub(crate) fn has(&self, key: &[u8]) -> bool
        ensures { result ≡ is_asked self.now key.now }
    {
        self.keys.contains(key)
    }

    /// Whether a name is asked for.
    pub fn has_name(&self, alloc: Global, name: &[u8]) -> Result<bool, NoMemory>
        ensures { IfOk result (λ has. has ≡ is_asked self.now (in_small name.now)) }
    {
        let key = folded(alloc, name)?;
        Ok(self.has(key.as_slice()))
    }

    /// Takes in the name of a reference with each of its qualifiers, where it has some and many share the name; and the same for the item
    /// of its subscript.
    fn ask(&mut self, alloc: Global, names: &Names, reference: &Reference) -> Result<(), NoMemory>
        ensures { OnOk result (AreAskedWith self.old self.new (λ key. asks names.now key reference.now)) }
    {
        self.ask_name(
            alloc,
            names,
            &reference.name,
            reference.qualifiers.as_slice(),
        )?;
        self.ask_subscript(alloc, names, reference.subscript.as_ref())?;
        Ok(())
    }

    fn ask_subscript(
        &mut self,
        alloc: Global,
        names: &Names,
        subscript: Option<&Subscript>,
    ) -> Result<(), NoMemory>
        ensures { OnOk result (AreAskedWith self.old self.new (subscript_asks names.now (option_copied subscript.entry))) }
    {
        match subscript {
            Some(
                Subscript::Item {
                    name,
                    qualifiers,
                    ..
                },
            ) => self.ask_name(alloc, names, name, qualifiers.as_slice()),
            Some(Subscript::Number(_)) => Ok(()),
            None => Ok(()),
        }
    }

    /// Asks for a name with each of its qualifiers, where there are some and many share the name.
    fn ask_name(
        &mut self,
        alloc: Global,
        names: &Names,
        name: &ByteText,
        qualifiers: &[ByteText],
    ) -> Result<(), NoMemory>
        ensures { OnOk result (AreAskedWith self.old self.new (name_asks names.now name.now qualifiers.now)) }
    {
        if qualifiers.is_empty() {
            return Ok(());
        }
        let numbers = names.numbers(alloc, name.as_bytes())?;
        if numbers.len() < MANY {
            return Ok(());
        }
        let key = folded(alloc, name.as_bytes())?;
        self.note(key)?;
        self.ask_pairs(alloc, name, qualifiers)?;
        Ok(())
    }

    fn ask_pairs(
        &mut self,
        alloc: Global,
        name: &ByteText,
        qualifiers: &[ByteText],
    ) -> Result<(), NoMemory>
        ensures { OnOk result (AreAskedWith self.old self.new (λ key. list_any (λ qualifier. bytes_eq key (pair_key name.now qualifier)) qualifiers.now)) }
    {
        for qualifier in qualifiers {
            let key = pair_key(alloc, name.as_bytes(), qualifier.as_bytes())?;
            self.note(key)?;
        }
        Ok(())
    }

    /// Takes in a key.
    fn note(&mut self, key: Vec<u8>) -> Result<(), NoMemory>
        ensures { OnOk result (AreAskedWith self.old self.new (λ other. bytes_eq other key.items)) }
    {
        self.keys.insert(key)?;
        Ok(())
    }
}
