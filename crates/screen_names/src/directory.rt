ghost use Rattle.std.specs.Prelude.{◌≡◌, List, IfOk};
ghost use Rattle.data_layout.specs.declared.layout.Item.{Item};
ghost use Rattle.data_names.specs.Asked.{any_asks, AreAskedBy};
ghost use Rattle.data_names.specs.Seen.{seen_references};
ghost use Rattle.screen_names.specs.Names.{only_item};
ghost use Rattle.screen_names.specs.Directory.{IsDirectory, AreCandidates};

use crate::matching::only_match;
use crate::names::names_of;
use crate::pairs::numbers_of;
use cob_base::{NoMemory, Reference};
use data_layout::Item;
use data_names::{AskedPairs, Names, Pairs, fewest};
use std::alloc::Global;

/// The items of a layout by their names, and by their names with those of groups around them where references ask for these.
#[derive(Drop)]
pub struct Directory {
    names: Names,
    pairs: Pairs,
}

impl Directory {
    /// The names of these items, put in order for these references, which decide what a look-up costs and no answer.
    pub fn of(
        alloc: Global,
        items: &[Item],
        references: &[&Reference],
    ) -> Result<Directory, NoMemory>
        ensures directory { IfOk result (λ directory. IsDirectory items.now directory) }
        ensures asked { IfOk result (λ directory. AreAskedBy directory.pairs.asked (any_asks directory.names (seen_references references.entry.now))) }
    {
        let names = names_of(alloc, items)?;
        let asked = AskedPairs::of(alloc, &names, references)?;
        let numbers = numbers_of(alloc, items, &asked)?;
        let pairs = Pairs::with(asked, numbers);
        Ok(Directory { names, pairs })
    }

    /// The number, from 0, of the one item that a reference with its qualifiers matches; None where it matches none or several. The
    /// directory is that of these items.
    pub fn find(
        &self,
        alloc: Global,
        items: &[Item],
        reference: &Reference,
    ) -> Result<Option<usize>, NoMemory>
        requires { IsDirectory items.now self.now }
        ensures { IfOk result (λ found. found ≡ only_item items.now reference.now) }
    {
        let numbers = self.candidates(alloc, reference)?;
        Ok(only_match(items, reference, numbers))
    }

    /// The numbers of some items, in order, among them each that the reference matches: the fewest that the name or one of its pairs gives that
    /// were asked for.
    fn candidates(&self, alloc: Global, reference: &Reference) -> Result<&[usize], NoMemory>
        ensures { IfOk result (λ numbers. (items : List Item) → IsDirectory items self.entry.now → AreCandidates items reference.now numbers.now) }
    {
        let name = reference.name.as_bytes();
        let mut best = self.names.numbers(alloc, name)?;
        let asked = self.pairs.has_name(alloc, name)?;
        if !asked {
            return Ok(best);
        }
        for qualifier in reference.qualifiers.as_slice() {
            let numbers = self.pairs.numbers(alloc, name, qualifier.as_bytes())?;
            best = fewest(best, numbers);
        }
        Ok(best)
    }
}
