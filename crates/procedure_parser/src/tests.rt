//! Entries worked out by hand from the rules of the language.

use crate::parse_procedure;
use crate::tests_more_words::{FILES_AND_SCREENS, OTHERS};
use crate::tests_words::{ARITHMETIC, CONDITIONS_AND_LOOPS};
use cob_base::{ByteText, Entry, Items, Line, NoMemory, Num, ParseFault, Procedure, Spoken, Word};
use std::alloc::Global;

/// A number as it stands in a row.
fn number(text: &[u8]) -> Word {
    let mut value: u64 = 0;
    let mut decimals: u8 = 0;
    let mut passed = false;
    for byte in text {
        if *byte == b'.' {
            passed = true;
        }
        if byte.is_ascii_digit() {
            value = value.wrapping_mul(10).wrapping_add(u64::from(*byte - b'0'));
            if passed {
                decimals = decimals.saturating_add(1);
            }
        }
    }
    let signed = matches!(text, [b'-', ..]);
    let units = i128::from(value) * 1_000_000;
    Word::Number {
        value: Num::new(units),
        digits: 1,
        decimals,
        signed,
    }
}

/// A word of a row.
fn word(alloc: Global, text: &[u8]) -> Result<Word, NoMemory> {
    match text {
        [b'.'] => Ok(Word::Stop),
        [b'"', literal @ .., b'"'] => Ok(Word::Text(ByteText::from_bytes(alloc, literal)?)),
        [b'0'..=b'9', ..] => Ok(number(text)),
        [b'-', b'0'..=b'9', ..] => Ok(number(text)),
        [
            b'(' | b')' | b'+' | b'-' | b'*' | b'/' | b'=' | b'<' | b'>',
            ..
        ] => { Ok(Word::Mark(ByteText::from_bytes(alloc, text)?)) }
        _ => Ok(Word::Name(ByteText::from_bytes(alloc, text)?)),
    }
}

/// Adds the words of a text to entries, of which each has a line of its own.
fn add(alloc: Global, entries: &mut Items<Entry>, text: &str) -> Result<(), NoMemory> {
    let mut line: u32 = 1;
    for _entry in entries.as_slice() {
        line = line.saturating_add(1);
    }
    let mut words = Items::new(alloc);
    for part in text.split(' ') {
        if part.is_empty() {
            continue;
        }
        let word = word(alloc, part.as_bytes())?;
        let ends = matches!(word, Word::Stop);
        words.push(Spoken {
            line: Line(line),
            word,
        })?;
        if ends {
            entries.push(Entry { words })?;
            words = Items::new(alloc);
            line = line.saturating_add(1);
        }
    }
    Ok(())
}

/// Adds words to the words of a line, some number of times.
fn add_often(
    alloc: Global,
    words: &mut Items<Spoken>,
    line: Line,
    text: &str,
    times: usize,
) -> Result<(), NoMemory> {
    for _time in 0..times {
        for part in text.split(' ') {
            words.push(Spoken {
                line,
                word: word(alloc, part.as_bytes())?,
            })?;
        }
    }
    Ok(())
}

/// An entry in line 1, and in line 2 one of the first words of a text.
fn cut_entries(alloc: Global, text: &str, count: usize) -> Result<Items<Entry>, NoMemory> {
    let mut entries = Items::new(alloc);
    add(alloc, &mut entries, "CONTINUE .")?;
    let mut words = Items::new(alloc);
    for part in text.split(' ').take(count) {
        words.push(Spoken {
            line: Line(2),
            word: word(alloc, part.as_bytes())?,
        })?;
    }
    words.push(Spoken {
        line: Line(2),
        word: Word::Stop,
    })?;
    entries.push(Entry { words })?;
    Ok(entries)
}

/// What `parse_procedure` says of an entry of the first words of a text, in line 2.
fn parse_cut(alloc: Global, text: &str, count: usize) -> Result<Procedure, ParseFault> {
    match cut_entries(alloc, text, count) {
        Ok(entries) => parse_procedure(alloc, entries.as_slice()),
        Err(NoMemory) => Err(ParseFault::NoMemory),
    }
}

/// Whether the answer to an entry cut after so many words is right.
fn is_right(alloc: Global, row: &(&str, &[usize]), count: usize) -> bool {
    let fits = row.1.contains(&count);
    match parse_cut(alloc, row.0, count) {
        Ok(_) => fits,
        Err(ParseFault::NoEntry(line)) => !fits && line == Line(2),
        Err(_) => false,
    }
}

/// How many of the first words of a row give a wrong answer; None where none does.
fn first_wrong(alloc: Global, row: &(&str, &[usize])) -> Option<usize> {
    let mut count: usize = 0;
    for _word in row.0.split(' ') {
        if !is_right(alloc, row, count) {
            return Some(count);
        }
        count = count.saturating_add(1);
    }
    if is_right(alloc, row, count) {
        None
    } else {
        Some(count)
    }
}

#[test]
fn arithmetic_is_read_as_the_grammar_has_it(rt: HostRuntime) {
    for row in &ARITHMETIC {
        let wrong = first_wrong(rt.alloc(), row);
        assert!(&rt; wrong.is_none(), "{}: {:?}", row.0, wrong);
    }
}

#[test]
fn conditions_and_loops_are_read_as_the_grammar_has_them(rt: HostRuntime) {
    for row in &CONDITIONS_AND_LOOPS {
        let wrong = first_wrong(rt.alloc(), row);
        assert!(&rt; wrong.is_none(), "{}: {:?}", row.0, wrong);
    }
}

#[test]
fn file_statements_are_read_as_the_grammar_has_them(rt: HostRuntime) {
    for row in &FILES_AND_SCREENS {
        let wrong = first_wrong(rt.alloc(), row);
        assert!(&rt; wrong.is_none(), "{}: {:?}", row.0, wrong);
    }
}

#[test]
fn other_entries_are_read_as_the_grammar_has_them(rt: HostRuntime) {
    for row in &OTHERS {
        let wrong = first_wrong(rt.alloc(), row);
        assert!(&rt; wrong.is_none(), "{}: {:?}", row.0, wrong);
    }
}

/// What comes of entries: how many paragraphs they are, with an END PROGRAM or without, or the line where they stop.
#[derive(Clone, Copy, Debug, PartialEq, Eq)]
enum Answer {
    Paragraphs(usize),
    Ended(usize),
    Stops(u32),
    Nests(u32),
}

/// Entries, and what comes of them.
const ENTRIES: [(&str, Answer); 17] = [
    ("", Answer::Paragraphs(0)),
    ("CONTINUE .", Answer::Paragraphs(1)),
    ("CONTINUE . EXIT .", Answer::Paragraphs(1)),
    ("P .", Answer::Paragraphs(1)),
    ("P . Q .", Answer::Paragraphs(2)),
    ("CONTINUE . P . EXIT .", Answer::Paragraphs(2)),
    (
        "P . CONTINUE . EXIT . Q . EXIT . R .",
        Answer::Paragraphs(3),
    ),
    ("P . FOO SECTION . CONTINUE .", Answer::Paragraphs(1)),
    ("DECLARATIVES . P .", Answer::Paragraphs(2)),
    ("END PROGRAM X .", Answer::Ended(0)),
    ("P . CONTINUE . END PROGRAM X .", Answer::Ended(1)),
    ("END PROGRAM X . CONTINUE .", Answer::Stops(2)),
    ("END PROGRAM X . END PROGRAM X .", Answer::Stops(2)),
    ("CONTINUE . P Q . CONTINUE .", Answer::Stops(2)),
    ("CONTINUE . EXIT EXIT . ELSE . MOVE .", Answer::Stops(3)),
    ("P . CONTINUE . .", Answer::Stops(3)),
    ("P . 5 .", Answer::Stops(2)),
];

/// What `parse_procedure` says of entries.
fn answer_of(alloc: Global, entries: &Items<Entry>) -> Option<Answer> {
    match parse_procedure(alloc, entries.as_slice()) {
        Ok(read) if read.end_program.is_some() => Some(Answer::Ended(read.paragraphs.len())),
        Ok(read) => Some(Answer::Paragraphs(read.paragraphs.len())),
        Err(ParseFault::NoEntry(Line(line))) => Some(Answer::Stops(line)),
        Err(ParseFault::Nesting(Line(line))) => Some(Answer::Nests(line)),
        Err(ParseFault::NoMemory) => None,
    }
}

/// What `parse_procedure` says of the entries of a text.
fn answer_of_text(alloc: Global, text: &str) -> Result<Option<Answer>, NoMemory> {
    let mut entries = Items::new(alloc);
    add(alloc, &mut entries, text)?;
    Ok(answer_of(alloc, &entries))
}

#[test]
fn paragraphs_come_in_order(rt: HostRuntime) {
    for (text, want) in &ENTRIES {
        let have = answer_of_text(rt.alloc(), text);
        assert!(&rt; have == Ok(Some(*want)), "{}: {:?}", text, have);
    }
}

/// Words, how often they are said, what follows them, and what comes of the entry in line 20.
const NESTED: [(&str, usize, &str, Answer); 14] = [
    ("IF A", 49, "MOVE A TO B", Answer::Paragraphs(1)),
    ("IF A", 50, "MOVE A TO B", Answer::Nests(20)),
    ("IF A", 51, "MOVE A TO B", Answer::Nests(20)),
    ("IF A", 48, "MOVE A ( 1 ) TO B", Answer::Paragraphs(1)),
    ("IF A", 49, "MOVE A ( 1 ) TO B", Answer::Nests(20)),
    ("IF A", 49, "GO TO P", Answer::Paragraphs(1)),
    ("IF A", 50, "GO TO P", Answer::Nests(20)),
    ("IF A", 50, "STOP", Answer::Nests(20)),
    ("IF A", 50, "STOP RUN", Answer::Nests(20)),
    ("READ F AT END", 49, "CONTINUE", Answer::Paragraphs(1)),
    ("READ F AT END", 50, "MOVE", Answer::Nests(20)),
    ("PERFORM UNTIL A", 50, "MOVE A TO B", Answer::Nests(20)),
    ("PERFORM", 49, "CONTINUE", Answer::Stops(20)),
    ("IF", 1, "A ELSE", Answer::Stops(20)),
];

/// What comes of an entry in line 20 that begins with words said often.
fn answer_of_nested(
    alloc: Global,
    front: &str,
    inner: &str,
    times: usize,
    last: &str,
) -> Result<Option<Answer>, NoMemory> {
    let mut words = Items::new(alloc);
    if !front.is_empty() {
        add_often(alloc, &mut words, Line(20), front, 1)?;
    }
    add_often(alloc, &mut words, Line(20), inner, times)?;
    add_often(alloc, &mut words, Line(20), last, 1)?;
    words.push(Spoken {
        line: Line(20),
        word: Word::Stop,
    })?;
    let mut entries = Items::new(alloc);
    entries.push(Entry { words })?;
    Ok(answer_of(alloc, &entries))
}

#[test]
fn fifty_statements_may_be_open(rt: HostRuntime) {
    for (inner, times, last, want) in &NESTED {
        let have = answer_of_nested(rt.alloc(), "", inner, *times, last);
        assert!(&rt;
            have == Ok(Some(*want)),
            "{} {} {}: {:?}",
            times,
            inner,
            last,
            have
        );
    }
}

#[test]
fn fifty_parentheses_and_statements_may_be_open(rt: HostRuntime) {
    let alloc = rt.alloc();
    let have = answer_of_nested(alloc, "COMPUTE A =", "(", 49, "B )");
    assert!(&rt; have == Ok(Some(Answer::Stops(20))), "{:?}", have);
    let have = answer_of_nested(alloc, "COMPUTE A =", "(", 50, "B )");
    assert!(&rt; have == Ok(Some(Answer::Nests(20))), "{:?}", have);
    let have = answer_of_nested(alloc, "COMPUTE A =", "(", 500_000, "B )");
    assert!(&rt; have == Ok(Some(Answer::Nests(20))), "{:?}", have);
    let have = answer_of_nested(alloc, "IF", "(", 50, "A ) CONTINUE");
    assert!(&rt; have == Ok(Some(Answer::Nests(20))), "{:?}", have);
    let have = answer_of_nested(alloc, "COMPUTE A = B", "+ B * C", 20_000, "- D");
    assert!(&rt; have == Ok(Some(Answer::Paragraphs(1))), "{:?}", have);
}
