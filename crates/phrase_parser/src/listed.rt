ghost use Rattle.std.specs.Prelude.{◌≡◌, ◌∷◌, List, Bool, IfOk};
ghost use Rattle.cob_base.specs.declared.tokens.Token.{Token};
ghost use Rattle.cob_base.specs.declared.tokens.SeenEntry.{SeenEntry};
ghost use Rattle.phrase_parser.specs.Reading.{Gives, Outcome, read_some, read_many};
ghost use Rattle.phrase_parser.specs.EntryReading.{EntryGives, EntryOutcome};
ghost use Rattle.phrase_parser.specs.Repeats.{Tests, Repeats, RepeatsEntries};

use crate::{EntryFault, PhraseFault};
use cob_base::{Items, SeenEntry, Token};
use std::alloc::{AllocError, Global};

/// One or more of what `one` reads, which go on as long as the next words open one more.
pub fn some<
    'a,
    T: Drop,
    O: Fn(&[Token]) -> bool,
    F: Fn(Global, usize, &[Token]) -> Result<(T, &[Token]), PhraseFault>,
>(
    alloc: Global,
    depth: usize,
    opens: &O,
    one: &F,
    words: &'a [Token],
) -> Result<(Items<T>, &'a [Token]), PhraseFault>
    requires opens { O.IsAlwaysCallable opens.now }
    requires one { (alloc : _) (w : _) → F.pre one.now alloc depth w }
    ensures { (opened : List Token → Bool) (read_one : List Token → Outcome T) → Tests opened (O.post opens.now) → Repeats read_one depth (F.post one.now) → Gives (λ x. (x.0, x.1.now)) result (read_some opened read_one words.now) }
{
    let (first, mut rest) = one(alloc, depth, words)?;
    let mut all = Items::new(alloc);
    all.push(first)?;
    for _turn in 0..rest.len() {
        if !opens(rest) {
            return Ok((all, rest));
        }
        let (next, after) = one(alloc, depth, rest)?;
        all.push(next)?;
        rest = after;
    }
    Ok((all, rest))
}

/// Any number of what `one` reads, which go on as long as the next words open one more.
pub fn many<
    'a,
    T: Drop,
    O: Fn(&[Token]) -> bool,
    F: Fn(Global, usize, &[Token]) -> Result<(T, &[Token]), PhraseFault>,
>(
    alloc: Global,
    depth: usize,
    opens: &O,
    one: &F,
    words: &'a [Token],
) -> Result<(Items<T>, &'a [Token]), PhraseFault>
    requires opens { O.IsAlwaysCallable opens.now }
    requires one { (alloc : _) (w : _) → F.pre one.now alloc depth w }
    ensures { (opened opened_list : List Token → Bool) (read_one : List Token → Outcome T) → Tests opened (O.post opens.now) → Tests opened_list (O.post opens.now) → Repeats read_one depth (F.post one.now) → Gives (λ x. (x.0, x.1.now)) result (read_many opened opened_list read_one words.now) }
{
    if !opens(words) {
        return Ok((Items::new(alloc), words));
    }
    let (found, rest) = some(alloc, depth, opens, one, words)?;
    Ok((found, rest))
}

/// One or more of what `one` reads, which go on as long as the next entry begins one more.
pub fn some_entries<
    'a,
    T: Drop,
    O: Fn(&[SeenEntry]) -> bool,
    F: Fn(Global, &[SeenEntry]) -> Result<(T, &[SeenEntry]), EntryFault>,
>(
    alloc: Global,
    begins: &O,
    one: &F,
    entries: &'a [SeenEntry],
) -> Result<(Items<T>, &'a [SeenEntry]), EntryFault>
    requires begins { O.IsAlwaysCallable begins.now }
    requires one { (alloc : _) (es : _) → F.pre one.now alloc es }
    ensures { (begun : List SeenEntry → Bool) (read_one : List SeenEntry → EntryOutcome T) → Tests begun (O.post begins.now) → RepeatsEntries read_one (F.post one.now) → EntryGives (λ x. (x.0, x.1.now)) result (read_some begun read_one entries.now) }
{
    let (first, mut rest) = one(alloc, entries)?;
    let mut all = Items::new(alloc);
    all.push(first)?;
    for _turn in 0..rest.len() {
        if !begins(rest) {
            return Ok((all, rest));
        }
        let (next, after) = one(alloc, rest)?;
        all.push(next)?;
        rest = after;
    }
    Ok((all, rest))
}

/// Any number of what `one` reads, which go on as long as the next entry begins one more.
pub fn many_entries<
    'a,
    T: Drop,
    O: Fn(&[SeenEntry]) -> bool,
    F: Fn(Global, &[SeenEntry]) -> Result<(T, &[SeenEntry]), EntryFault>,
>(
    alloc: Global,
    begins: &O,
    one: &F,
    entries: &'a [SeenEntry],
) -> Result<(Items<T>, &'a [SeenEntry]), EntryFault>
    requires begins { O.IsAlwaysCallable begins.now }
    requires one { (alloc : _) (es : _) → F.pre one.now alloc es }
    ensures { (begun : List SeenEntry → Bool) (read_one : List SeenEntry → EntryOutcome T) → Tests begun (O.post begins.now) → RepeatsEntries read_one (F.post one.now) → EntryGives (λ x. (x.0, x.1.now)) result (read_many begun begun read_one entries.now) }
{
    if !begins(entries) {
        return Ok((Items::new(alloc), entries));
    }
    let (found, rest) = some_entries(alloc, begins, one, entries)?;
    Ok((found, rest))
}

/// The list of the first and the others.
pub fn joined<T: Drop>(alloc: Global, first: T, more: Items<T>) -> Result<Items<T>, AllocError>
    ensures { IfOk result (λ all. all ≡ first ∷ more) }
{
    let mut all = Items::new(alloc);
    all.push(first)?;
    all.append(more)?;
    Ok(all)
}
