//! Words cut into entries.

ghost use Rattle.std.specs.Prelude.{◌≡◌, ◌∷◌, ◌++◌, [], reverse};
ghost use Rattle.cobol_words.specs.Entries.{EntriesOf, GivesEntries, is_stop};

use crate::fault::EntryFault;
use cob_base::{Entry, Items, Spoken, Word};
use std::alloc::Global;

/// The entries of words: each separator period ends one. The last word has to be one.
pub fn entries(alloc: Global, words: Items<Spoken>) -> Result<Items<Entry>, EntryFault>
    ensures { GivesEntries result (EntriesOf words) }
{
    let mut words = words;
    match words.pop() {
        None => Ok(Items::new(alloc)),
        Some(last) => entries_before(alloc, words, last),
    }
}

/// The entries of words and the one behind them, cut from the last word to the first.
fn entries_before(
    alloc: Global,
    words: Items<Spoken>,
    last: Spoken,
) -> Result<Items<Entry>, EntryFault>
    ensures { GivesEntries result (EntriesOf (words ++ last ∷ [])) }
{
    if !is_stop(&last.word) {
        return Err(EntryFault::NoStop(last.line));
    }
    let mut words = words;
    // The words of the entry at the front, and the entries behind it, both in reverse.
    let mut front = Vec::new(alloc);
    front.push(last)?;
    let mut behind = Vec::new(alloc);
    while let Some(word) = words.pop() {
        if is_stop(&word.word) {
            behind.push(entry_of(front))?;
            front = Vec::new(alloc);
        }
        front.push(word)?;
    }
    behind.push(entry_of(front))?;
    behind.reverse();
    Ok(Items::from_vec(behind))
}

/// The entry of words that stand in reverse.
fn entry_of(words: Vec<Spoken>) -> Entry
    ensures { result.words ≡ reverse words.items }
{
    let mut words = words;
    words.reverse();
    Entry {
        words: Items::from_vec(words),
    }
}

fn is_stop(word: &Word) -> bool
    ensures { result ≡ is_stop word.now }
{
    matches!(word, Word::Stop)
}
