//! Lines with the words that they have, or the fault, each worked out from the rules.

use crate::{EntryFault, WordFault, entries, read_words};
use cob_base::{ByteText, Items, Line, SourceLine, Spoken, Word};
use std::alloc::{AllocError, Global};
use std::test::Fail;

mod continued;
mod joined;
mod literals;
mod marks;
mod names;
mod numbers;
mod pictures;

fn fault_text(alloc: Global, fault: WordFault) -> Result<String, AllocError> {
    match fault {
        WordFault::BadCharacter(line) => format!(in alloc; "bad-character {}", line.0),
        WordFault::OpenLiteral(line) => format!(in alloc; "open-literal {}", line.0),
        WordFault::LongWord(line) => format!(in alloc; "long-word {}", line.0),
        WordFault::LongNumber(line) => format!(in alloc; "long-number {}", line.0),
        WordFault::LongLiteral(line) => format!(in alloc; "long-literal {}", line.0),
        WordFault::BadContinuation(line) => format!(in alloc; "bad-continuation {}", line.0),
        WordFault::NoMemory => format!(in alloc; "no-memory"),
    }
}

fn word_text(alloc: Global, word: &Word) -> Result<String, AllocError> {
    match word {
        Word::Name(text) | Word::Mark(text) => String::from_utf8_lossy(alloc, text.as_bytes()),
        Word::Text(text) => {
            let text = String::from_utf8_lossy(alloc, text.as_bytes())?;
            format!(in alloc; "[{text}]")
        }
        Word::Picture(text) => {
            let text = String::from_utf8_lossy(alloc, text.as_bytes())?;
            format!(in alloc; "pic[{text}]")
        }
        Word::Number {
            value,
            digits,
            decimals,
            signed,
        } => {
            let sign = if *signed { "s" } else { "" };
            format!(in alloc; "#{}/{digits}/{decimals}{sign}", value.units())
        }
        Word::Stop => format!(in alloc; "stop"),
    }
}

fn words_text(alloc: Global, words: &[Spoken]) -> Result<String, AllocError> {
    let mut all = String::new(alloc);
    for spoken in words {
        let word = word_text(alloc, &spoken.word)?;
        let shown = format!(in alloc; "{} {word}; ", spoken.line.0)?;
        all.push_str(shown.as_str())?;
    }
    Ok(all)
}

fn line_of(alloc: Global, number: u32, line: &[u8]) -> Result<SourceLine, WordFault> {
    let (kind, text) = match line {
        [kind, text @ ..] => (*kind, text),
        [] => (b' ', line),
    };
    Ok(SourceLine {
        line: Line(number),
        fixed: kind != b' ',
        continued: kind == b'-',
        text: ByteText::from_bytes(alloc, text)?,
    })
}

/// The words of lines, which stand in a text. A line begins with F for fixed form, `-` for a continuation line or a space
/// for free form.
fn words_of(alloc: Global, text: &[u8]) -> Result<Items<Spoken>, WordFault> {
    let mut all = Vec::new(alloc);
    let mut number: u8 = 0;
    for line in text.split(|byte| *byte == b'\n') {
        number = number.saturating_add(1);
        all.push(line_of(alloc, number as u32, line)?)?;
    }
    read_words(alloc, all.as_slice())
}

/// The words of lines, or their fault. A word is shown behind its line: a name or mark as it is, a text and a picture in
/// brackets, a number as its millionths, digits and decimals with `s` where a sign was written, and a period as `stop`.
fn shown(alloc: Global, text: &[u8]) -> Result<String, AllocError> {
    match words_of(alloc, text) {
        Ok(words) => words_text(alloc, words.as_slice()),
        Err(fault) => fault_text(alloc, fault),
    }
}

/// A line with a literal of so many bytes, and with its closing mark or without.
fn quoted_line(alloc: Global, count: usize, end: &[u8]) -> Result<Vec<u8>, AllocError> {
    let mut line = Vec::from_slice(alloc, b"F 'A''")?;
    for _ in 2..count {
        line.push(b'B')?;
    }
    line.extend_from_slice(end)?;
    Ok(line)
}

#[test]
fn literals_have_at_most_160_bytes(rt: HostRuntime) -> Result<(), Fail> {
    for (count, end, expected) in [
        (160, b"'.".as_slice(), "1 stop"),
        (161, b"'.".as_slice(), "long-literal 1"),
        (161, b"".as_slice(), "open-literal 1"),
    ] {
        let line = quoted_line(rt.alloc(), count, end)?;
        let found = shown(rt.alloc(), line.as_slice())?;
        assert!(rt; found.as_str().contains(expected), "{count}");
    }
    Ok(())
}

/// How many words each entry has, or the fault.
fn entries_text(alloc: Global, text: &[u8]) -> Result<String, AllocError> {
    let words = match words_of(alloc, text) {
        Ok(words) => words,
        Err(fault) => return fault_text(alloc, fault),
    };
    match entries(alloc, words) {
        Err(EntryFault::NoStop(line)) => format!(in alloc; "no-stop {}", line.0),
        Err(EntryFault::NoMemory) => format!(in alloc; "no-memory"),
        Ok(entries) => {
            let mut all = String::new(alloc);
            for entry in entries.as_slice() {
                let shown = format!(in alloc; "{} ", entry.words.len())?;
                all.push_str(shown.as_str())?;
            }
            Ok(all)
        }
    }
}

#[test]
fn words_have_their_entries(rt: HostRuntime) -> Result<(), Fail> {
    let cases: [(&[u8], &str); 6] = [
        (b"F", ""),
        (b"FA B.\nFC.D", "bad-character 2"),
        (b"FA B. C.\nFD E\nF.", "3 2 3 "),
        (b"F. .\nFA.", "1 1 2 "),
        (b"FA.\nFB\nF C", "no-stop 3"),
        (b"FA", "no-stop 1"),
    ];
    for (text, expected) in cases {
        let found = entries_text(rt.alloc(), text)?;
        assert_eq!(rt; found.as_str(), expected);
    }
    Ok(())
}

#[test]
fn no_lines_have_no_words(rt: HostRuntime) -> Result<(), Fail> {
    let words = read_words(rt.alloc(), &[]).ok().ok_or("refused")?;
    assert!(rt; words.is_empty());
    Ok(())
}
