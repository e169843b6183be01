ghost use Rattle.std.specs.Prelude.{◌≡◌, ℕ, List, [], ◌∷◌, ◌++◌, map, IfOk, OnOk};
ghost use Rattle.std.specs.List.{list_any};
ghost use Rattle.cob_base.specs.declared.line.Line.{Line};
ghost use Rattle.name_rules.specs.DoubleNames.{Declared, clashes, later_ones};
ghost use Rattle.name_rules.specs.SeenNames.{seen_class, named_as, seen_declared, state_under, clashes_with, besides, AreKnownNames};
ghost use Rattle.name_rules.specs.Faults.{faults_at};

use crate::declared::{DeclaredName, NameClass};
use crate::faults::Faults;
use cob_base::NoMemory;
use data_names::folded;
use std::alloc::Global;
use std::collections::BTreeMap;

/// The names that were declared so far, in small letters, each with whether it stands for more than a file control entry.
#[derive(Drop)]
struct KnownNames {
    names: BTreeMap<Vec<u8>, bool>,
}

impl KnownNames {
    fn new(alloc: Global) -> KnownNames
        ensures { AreKnownNames [] result }
    {
        KnownNames {
            names: BTreeMap::new(alloc),
        }
    }

    /// Declares a name, and says whether it clashes with an earlier one.
    fn declare(&mut self, alloc: Global, class: NameClass, name: &[u8]) -> Result<bool, NoMemory>
        ensures { (line : Line) (before : List Declared) → AreKnownNames before self.old → IfOk result (λ clash.
            (clash ≡ list_any (λ earlier. clashes earlier (named_as line name.now (seen_class class))) before) × AreKnownNames (before ++ named_as line name.now (seen_class class) ∷ []) self.new) }
    {
        let key = folded(alloc, name)?;
        let earlier = self.state(key.as_slice());
        self.names.insert(key, besides(earlier, class))?;
        Ok(clashes_with(earlier, class))
    }

    /// Whether a name was declared, and then whether by more than a file control entry.
    fn state(&self, key: &[u8]) -> Option<bool>
        ensures { result ≡ state_under self.now key.now }
    {
        self.names.get(key).copied()
    }
}

/// Whether a name clashes with what is known of it.
fn clashes_with(earlier: Option<bool>, class: NameClass) -> bool
    ensures { result ≡ clashes_with earlier (seen_class class) }
{
    match (earlier, class) {
        (None, _) => false,
        (Some(besides), NameClass::Description) => besides,
        (Some(_), _) => true,
    }
}

/// Whether a name stands for more than a file control entry after one more declaration.
fn besides(earlier: Option<bool>, class: NameClass) -> bool
    ensures { result ≡ besides earlier (seen_class class) }
{
    match (earlier, class) {
        (None, NameClass::ControlEntry) => false,
        (Some(besides), NameClass::ControlEntry) => besides,
        (_, _) => true,
    }
}

/// Notes each name that clashes with an earlier one.
pub fn note_clashes(
    alloc: Global,
    faults: &mut Faults,
    names: &[DeclaredName],
) -> Result<(), NoMemory>
    ensures { OnOk result (faults.new.found.items ≡ faults.old.found.items ++ faults_at 3 (later_ones (map seen_declared names.now))) }
{
    let mut known = KnownNames::new(alloc);
    for one in names {
        let clashes = known.declare(alloc, one.class, one.name.as_bytes())?;
        faults.note(3, one.line, clashes)?;
    }
    Ok(())
}
