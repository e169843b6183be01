//! Entries worked out by hand from the rules of the language, each cut after each of its words.

use crate::tests_data_entries::DATA_ENTRIES;
use crate::tests_screen_entries::SCREEN_ENTRIES;
use crate::{data_entry, opens_data_entry, opens_level, screen_entry};
use cob_base::{
    ByteText, Entry, Items, Line, Misfit, NoMemory, Num, SeenEntry, Spoken, Word, see_entry,
};
use phrase_parser::PhraseFault;
use std::alloc::Global;

/// A number of a row.
fn number(text: &[u8]) -> Word {
    let mut value: u64 = 0;
    let mut decimals: u8 = 0;
    let mut passed = false;
    for byte in text {
        if *byte == b'.' {
            passed = true;
        }
        if byte.is_ascii_digit() {
            value = value.wrapping_mul(10).wrapping_add(u64::from(*byte - b'0'));
            if passed {
                decimals = decimals.saturating_add(1);
            }
        }
    }
    let signed = matches!(text, [b'-', ..]);
    let units = i128::from(value) * 1_000_000;
    Word::Number {
        value: Num::new(units),
        digits: 1,
        decimals,
        signed,
    }
}

/// A word of a row.
fn word(alloc: Global, text: &[u8]) -> Result<Word, NoMemory> {
    match text {
        [b'.'] => Ok(Word::Stop),
        [b'"', literal @ .., b'"'] => Ok(Word::Text(ByteText::from_bytes(alloc, literal)?)),
        [b'#', picture @ ..] => Ok(Word::Picture(ByteText::from_bytes(alloc, picture)?)),
        [b'0'..=b'9', ..] => Ok(number(text)),
        [b'-', b'0'..=b'9', ..] => Ok(number(text)),
        [b'(' | b')' | b'+' | b'-'] => Ok(Word::Mark(ByteText::from_bytes(alloc, text)?)),
        _ => Ok(Word::Name(ByteText::from_bytes(alloc, text)?)),
    }
}

/// What an entry of the first words of a text is to the grammar.
fn seen_cut(alloc: Global, text: &str, count: usize) -> Result<SeenEntry, NoMemory> {
    let mut words = Items::new(alloc);
    for part in text.split(' ').take(count) {
        words.push(Spoken {
            line: Line(1),
            word: word(alloc, part.as_bytes())?,
        })?;
    }
    words.push(Spoken {
        line: Line(1),
        word: Word::Stop,
    })?;
    see_entry(alloc, &Entry { words })
}

/// Whether the words of an entry are a data description entry; None where that is not answered.
fn is_data_entry(alloc: Global, entry: &SeenEntry) -> Option<bool> {
    let words = entry.tokens.as_slice();
    match data_entry(alloc, entry.line, words) {
        Ok((_, rest)) => Some(rest.is_empty() && opens_data_entry(entry.line, words)),
        Err(PhraseFault::Misfit(Misfit::NoFit)) => Some(false),
        Err(_) => None,
    }
}

/// Whether the words of an entry are a screen description entry; None where that is not answered.
fn is_screen_entry(alloc: Global, entry: &SeenEntry) -> Option<bool> {
    let words = entry.tokens.as_slice();
    match screen_entry(alloc, entry.line, words) {
        Ok((_, rest)) => Some(rest.is_empty() && opens_level(words)),
        Err(PhraseFault::Misfit(Misfit::NoFit)) => Some(false),
        Err(_) => None,
    }
}

/// The section of the data division in which an entry stands.
#[derive(Clone, Copy, Debug, PartialEq, Eq)]
enum Section {
    WorkingStorage,
    Screen,
}

/// Whether an entry cut after so many words is answered as its row says.
fn is_right(alloc: Global, section: Section, row: &(&str, &[usize]), count: usize) -> bool {
    let fits = row.1.contains(&count);
    match seen_cut(alloc, row.0, count) {
        Ok(entry) => match section {
            Section::WorkingStorage => is_data_entry(alloc, &entry) == Some(fits),
            Section::Screen => is_screen_entry(alloc, &entry) == Some(fits),
        },
        Err(NoMemory) => false,
    }
}

/// Whether an entry is answered as its row says, cut after each of its words.
fn all_cuts_are_right(alloc: Global, section: Section, row: &(&str, &[usize])) -> bool {
    let mut count: usize = 0;
    for _word in row.0.split(' ') {
        if !is_right(alloc, section, row, count) {
            return false;
        }
        count = count.saturating_add(1);
    }
    is_right(alloc, section, row, count)
}

#[test]
fn data_description_entries_fit_as_spelled(rt: HostRuntime) {
    for row in &DATA_ENTRIES {
        assert!(&rt;
            all_cuts_are_right(rt.alloc(), Section::WorkingStorage, row),
            "{}",
            row.0
        );
    }
}

#[test]
fn screen_description_entries_fit_as_spelled(rt: HostRuntime) {
    for row in &SCREEN_ENTRIES {
        assert!(&rt;
            all_cuts_are_right(rt.alloc(), Section::Screen, row),
            "{}",
            row.0
        );
    }
}
