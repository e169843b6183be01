//! Entries worked out by hand from the rules of the language.

use crate::tests_entries::{FILE_ENTRIES, SPECIAL_NAMES_ENTRIES};
use crate::tests_fronts::{Answer, FRONTS};
use crate::{FrontRead, parse_front};
use cob_base::{ByteText, Entry, Items, Line, NoMemory, Num, ParseFault, Spoken, Word};
use std::alloc::Global;

/// What stands before an entry of a section.
const SPECIAL_NAMES: &str =
    "ID DIVISION . PROGRAM-ID . P . ENVIRONMENT DIVISION . CONFIGURATION SECTION . SPECIAL-NAMES .";

const SELECTS: &str =
    "ID DIVISION . PROGRAM-ID . P . ENVIRONMENT DIVISION . INPUT-OUTPUT SECTION . FILE-CONTROL .";

/// A number of a row.
fn number(text: &[u8]) -> Word {
    let mut value: u64 = 0;
    let mut decimals: u8 = 0;
    let mut passed = false;
    for byte in text {
        if *byte == b'.' {
            passed = true;
        }
        if byte.is_ascii_digit() {
            value = value.wrapping_mul(10).wrapping_add(u64::from(*byte - b'0'));
            if passed {
                decimals = decimals.saturating_add(1);
            }
        }
    }
    let signed = matches!(text, [b'-', ..]);
    let units = i128::from(value) * 1_000_000;
    Word::Number {
        value: Num::new(units),
        digits: 1,
        decimals,
        signed,
    }
}

/// A word of a row.
fn word(alloc: Global, text: &[u8]) -> Result<Word, NoMemory> {
    match text {
        [b'.'] => Ok(Word::Stop),
        [b'"', literal @ .., b'"'] => Ok(Word::Text(ByteText::from_bytes(alloc, literal)?)),
        [b'#', picture @ ..] => Ok(Word::Picture(ByteText::from_bytes(alloc, picture)?)),
        [b'0'..=b'9', ..] => Ok(number(text)),
        [b'-', b'0'..=b'9', ..] => Ok(number(text)),
        [b'(' | b')' | b'+' | b'-'] => Ok(Word::Mark(ByteText::from_bytes(alloc, text)?)),
        _ => Ok(Word::Name(ByteText::from_bytes(alloc, text)?)),
    }
}

/// Adds the words of a text to entries, of which each has a line of its own.
fn add(alloc: Global, entries: &mut Items<Entry>, text: &str) -> Result<(), NoMemory> {
    let mut line: u32 = 1;
    for _entry in entries.as_slice() {
        line = line.saturating_add(1);
    }
    let mut words = Items::new(alloc);
    for part in text.split(' ') {
        if part.is_empty() {
            continue;
        }
        let word = word(alloc, part.as_bytes())?;
        let ends = matches!(word, Word::Stop);
        words.push(Spoken {
            line: Line(line),
            word,
        })?;
        if ends {
            entries.push(Entry { words })?;
            words = Items::new(alloc);
            line = line.saturating_add(1);
        }
    }
    Ok(())
}

/// Adds an entry of the first words of a text.
fn add_cut(
    alloc: Global,
    entries: &mut Items<Entry>,
    text: &str,
    count: usize,
) -> Result<(), NoMemory> {
    let mut line: u32 = 1;
    for _entry in entries.as_slice() {
        line = line.saturating_add(1);
    }
    let mut words = Items::new(alloc);
    for part in text.split(' ').take(count) {
        words.push(Spoken {
            line: Line(line),
            word: word(alloc, part.as_bytes())?,
        })?;
    }
    words.push(Spoken {
        line: Line(line),
        word: Word::Stop,
    })?;
    entries.push(Entry { words })?;
    Ok(())
}

/// What `parse_front` says of entries.
fn parse(alloc: Global, entries: &Items<Entry>) -> Result<FrontRead, ParseFault> {
    if entries.len() >= 1000 {
        return Err(ParseFault::NoMemory);
    }
    parse_front(alloc, entries.as_slice())
}

/// What `parse_front` says of an entry of the first words of a text, with the line in which the entry stands.
fn parse_cut(
    alloc: Global,
    before: &str,
    text: &str,
    count: usize,
) -> Result<FrontRead, ParseFault> {
    let mut entries = Items::new(alloc);
    add(alloc, &mut entries, before)?;
    add_cut(alloc, &mut entries, text, count)?;
    add(alloc, &mut entries, "PROCEDURE DIVISION .")?;
    parse(alloc, &entries)
}

/// How many entries a text has.
fn entries_in(text: &str) -> u32 {
    let mut count: u32 = 0;
    for part in text.split(' ') {
        if part == "." {
            count = count.saturating_add(1);
        }
    }
    count
}

/// Whether an entry cut after so many words is answered as its row says.
fn is_right(alloc: Global, before: &str, row: &(&str, &[usize]), count: usize) -> bool {
    let fits = row.1.contains(&count);
    match parse_cut(alloc, before, row.0, count) {
        Ok(_) => fits,
        Err(ParseFault::NoEntry(line)) => !fits
            && line == Line(entries_in(before).saturating_add(1)),
        Err(_) => false,
    }
}

/// Whether an entry is answered as its row says, cut after each of its words.
fn all_cuts_are_right(alloc: Global, before: &str, row: &(&str, &[usize])) -> bool {
    let mut count: usize = 0;
    for _word in row.0.split(' ') {
        if !is_right(alloc, before, row, count) {
            return false;
        }
        count = count.saturating_add(1);
    }
    is_right(alloc, before, row, count)
}

#[test]
fn entries_of_special_names_fit_as_spelled(rt: HostRuntime) {
    for row in &SPECIAL_NAMES_ENTRIES {
        assert!(&rt;
            all_cuts_are_right(rt.alloc(), SPECIAL_NAMES, row),
            "{}",
            row.0
        );
    }
}

#[test]
fn file_control_entries_fit_as_spelled(rt: HostRuntime) {
    for row in &FILE_ENTRIES {
        assert!(&rt; all_cuts_are_right(rt.alloc(), SELECTS, row), "{}", row.0);
    }
}

/// What `parse_front` says of the entries of a text.
fn answer_of(alloc: Global, text: &str) -> Result<FrontRead, ParseFault> {
    let mut entries = Items::new(alloc);
    add(alloc, &mut entries, text)?;
    parse(alloc, &entries)
}

#[test]
fn sections_and_paragraphs_come_in_order(rt: HostRuntime) {
    for (text, want) in &FRONTS {
        let have = match answer_of(rt.alloc(), text) {
            Ok(read) => Some(Answer::Read(read.used)),
            Err(ParseFault::NoEntry(Line(line))) => Some(Answer::Stops(line)),
            Err(_) => None,
        };
        assert!(&rt; have == Some(*want), "{}", text);
    }
}
