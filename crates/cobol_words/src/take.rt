//! What is cut at the front of cells that stand side by side, up to a space, a line end, a comment or a quote.

ghost use Rattle.std.specs.Prelude.{◌≡◌, ◌==◌, ◌&&◌, ◌+◌, ◌-◌, ◌++◌, ◌<◌, ◌≤◌, ◌^◌, List, true, false, length, map, IfOk};
ghost use Rattle.std.specs.List.{list_all};
ghost use Rattle.cobol_words.specs.Joined.{Piece, goes_on_with};
ghost use Rattle.cobol_words.specs.Runs.{decimals_in, is_digit};
ghost use Rattle.cobol_words.specs.Taking.{Follows, IsSolid, TakenAs, is_quote, text_of};
ghost use Rattle.cobol_words.specs.Words.{behind_word};
ghost use Rattle.cobol_words.specs.Words as words;

use crate::before::{Before, Wish};
use crate::cell::{Cell, are_digits, begins_run, bytes_of, bytes_with, digits_len, run_len};
use crate::fault::WordFault;
use crate::number::number;
use crate::run::{name, wish_after};
use cob_base::{ByteText, Line, NoMemory, Word};
use std::alloc::Global;

/// What is cut at the front of cells: a word, if there is one there.
#[derive(Debug, Drop)]
pub struct FirstWord {
    pub word: Option<Word>,
    /// How many cells behind the first one belong to it.
    pub more: usize,
    /// What it is for the place behind it.
    pub before: Before,
}

/// What a word is for the place behind it.
fn behind_word() -> Before
    ensures { result ≡ behind_word }
{
    Before {
        wish: Wish::NoPicture,
        spaced: false,
    }
}

/// What is cut where no picture is wanted. `ends` says that a space, a line end or a comment follows the cells.
pub fn take_word(
    alloc: Global,
    spaced: bool,
    cell: Cell,
    rest: &[Cell],
    ends: bool,
) -> Result<FirstWord, WordFault>
    requires no_quote { is_quote cell.byte ≡ false }
    requires solid { IsSolid rest.now }
    ensures within { IfOk result (λ first. first.more ≤ length rest.now) }
    ensures taken { (text : List Piece) → Follows ends text → TakenAs cell.line result (words.take_word spaced cell (text_of rest.now ++ text)) }
{
    if begins_run(cell.byte) {
        return take_run(alloc, cell, rest);
    }
    match cell.byte {
        b'+' | b'-' => take_sign(alloc, spaced, cell, rest),
        b'<' | b'>' => take_angle(alloc, cell, rest),
        b'*' | b'/' | b'=' | b'(' | b')' => take_mark(alloc, cell, cell.byte == b'('),
        b'.' => take_period(cell, rest, ends),
        b',' | b';' => take_comma(cell, rest, ends),
        _ => Err(WordFault::BadCharacter(cell.line)),
    }
}

/// A run: a number where it is all digits, and else a name.
fn take_run(alloc: Global, cell: Cell, rest: &[Cell]) -> Result<FirstWord, WordFault>
    ensures within { IfOk result (λ first. first.more ≤ length rest.now) }
    ensures taken { TakenAs cell.line result (words.take_run cell (text_of rest.now)) }
{
    let (more, behind) = rest.split_at(run_len(rest));
    let bytes = bytes_with(alloc, cell.byte, more)?;
    let run = bytes.as_slice();
    if are_digits(run) {
        return take_number(alloc, cell.line, None, run, more.len(), behind);
    }
    take_name(alloc, cell.line, run, more.len())
}

/// A run that isn't all digits, of which so many bytes stand behind its first one.
fn take_name(alloc: Global, line: Line, run: &[u8], more: usize) -> Result<FirstWord, WordFault>
    ensures within { IfOk result (λ first. first.more ≡ more) }
    ensures taken { TakenAs line result (words.take_name line run.now more) }
{
    let word = name(alloc, line, run)?;
    let before = Before {
        wish: wish_after(run),
        spaced: false,
    };
    Ok(FirstWord {
        word: Some(word),
        more,
        before,
    })
}

/// A number: behind its digits a period with a digit right after it belongs to it, with the digits there.
fn take_number(
    alloc: Global,
    line: Line,
    sign: Option<u8>,
    digits: &[u8],
    more: usize,
    behind: &[Cell],
) -> Result<FirstWord, WordFault>
    requires digits { list_all is_digit digits.now ≡ true }
    requires room { more + length behind.now < 2 ^ 63 }
    ensures within { IfOk result (λ first. first.more ≤ more + length behind.now) }
    ensures taken { TakenAs line result (words.take_number line sign digits.now more (text_of behind.now)) }
{
    let decimals = decimals_in(alloc, behind)?;
    let len = decimals.len();
    let mut whole = Vec::from_slice(alloc, digits)?;
    whole.extend_from_slice(decimals.as_slice())?;
    let word = number(line, sign, whole.as_slice(), len)?;
    Ok(FirstWord {
        word: Some(word),
        more: if len == 0 { more } else { more + len + 1 },
        before: behind_word(),
    })
}

/// The digits behind a period, where one follows it.
fn decimals_in(alloc: Global, cells: &[Cell]) -> Result<Vec<u8>, NoMemory>
    ensures decimals { IfOk result (λ digits. digits.items ≡ decimals_in (text_of cells.now)) }
    ensures digits { IfOk result (λ digits. list_all is_digit digits.items ≡ true) }
    ensures fit { IfOk result (λ digits. length digits.items ≤ length cells.now - 1) }
{
    if !begins_with(b'.', cells) {
        return Ok(Vec::new(alloc));
    }
    let behind = &cells[1..];
    let (digits, _) = behind.split_at(digits_len(behind));
    let bytes = bytes_of(alloc, digits)?;
    Ok(bytes)
}

/// A sign belongs to the number behind it where a space, `(` or a line's start stands before it.
fn take_sign(alloc: Global, spaced: bool, cell: Cell, rest: &[Cell]) -> Result<FirstWord, WordFault>
    ensures within { IfOk result (λ first. first.more ≤ length rest.now) }
    ensures taken { TakenAs cell.line result (words.take_sign spaced cell (text_of rest.now)) }
{
    if !spaced {
        return take_mark(alloc, cell, false);
    }
    let (run, behind) = rest.split_at(run_len(rest));
    let bytes = bytes_of(alloc, run)?;
    let digits = bytes.as_slice();
    if digits.is_empty() || !are_digits(digits) {
        return take_mark(alloc, cell, false);
    }
    take_number(
        alloc,
        cell.line,
        Some(cell.byte),
        digits,
        digits.len(),
        behind,
    )
}

fn take_mark(alloc: Global, cell: Cell, spaced: bool) -> Result<FirstWord, WordFault>
    ensures within { IfOk result (λ first. first.more ≡ 0) }
    ensures taken { TakenAs cell.line result (words.take_mark cell (record { wish = words.behind_word.wish; spaced = spaced })) }
{
    let mark = ByteText::from_bytes(alloc, &[cell.byte])?;
    let before = Before {
        wish: Wish::NoPicture,
        spaced,
    };
    Ok(FirstWord {
        word: Some(Word::Mark(mark)),
        more: 0,
        before,
    })
}

/// `<=` and `>=` are one mark.
fn take_angle(alloc: Global, cell: Cell, rest: &[Cell]) -> Result<FirstWord, WordFault>
    ensures within { IfOk result (λ first. first.more ≤ length rest.now) }
    ensures taken { TakenAs cell.line result (words.take_angle cell (text_of rest.now)) }
{
    if !begins_with(b'=', rest) {
        return take_mark(alloc, cell, false);
    }
    let mark = ByteText::from_bytes(alloc, &[cell.byte, b'='])?;
    Ok(FirstWord {
        word: Some(Word::Mark(mark)),
        more: 1,
        before: behind_word(),
    })
}

fn begins_with(byte: u8, cells: &[Cell]) -> bool
    ensures { result ≡ goes_on_with byte (text_of cells.now) }
{
    match cells {
        [cell, ..] => cell.byte == byte,
        [] => false,
    }
}

/// Before a space, a line end or a comment a period is the separator period.
fn take_period(cell: Cell, rest: &[Cell], ends: bool) -> Result<FirstWord, WordFault>
    ensures within { IfOk result (λ first. first.more ≡ 0) }
    ensures taken { TakenAs cell.line result (words.take_period_before (ends && (length rest.now == 0)) cell) }
{
    if !ends {
        return Err(WordFault::BadCharacter(cell.line));
    }
    if !rest.is_empty() {
        return Err(WordFault::BadCharacter(cell.line));
    }
    Ok(FirstWord {
        word: Some(Word::Stop),
        more: 0,
        before: behind_word(),
    })
}

/// Before a space, a line end or a comment a comma or semicolon is a space.
fn take_comma(cell: Cell, rest: &[Cell], ends: bool) -> Result<FirstWord, WordFault>
    ensures within { IfOk result (λ first. first.more ≡ 0) }
    ensures taken { TakenAs cell.line result (words.take_comma_before (ends && (length rest.now == 0)) cell) }
{
    if !ends {
        return Err(WordFault::BadCharacter(cell.line));
    }
    if !rest.is_empty() {
        return Err(WordFault::BadCharacter(cell.line));
    }
    Ok(FirstWord {
        word: None,
        more: 0,
        before: behind_word(),
    })
}
