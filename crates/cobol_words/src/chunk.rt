//! Cells that stand side by side, cut into words.

ghost use Rattle.std.specs.Prelude.{◌≡◌, ◌++◌, ◌<◌, ◌≤◌, ◌*◌, ◌+◌, [], List, false, IfOk, OnOk, drop, length, true};
ghost use Rattle.cobol_words.specs.Joined.{Piece};
ghost use Rattle.cobol_words.specs.Taking.{Follows, GoesOn, HasNoQuote, IsSolid, found_after, is_wished, spoken_of, wants_none};

use crate::before::Before;
use crate::cell::Cell;
use crate::fault::WordFault;
use crate::picture::{take_wished, wants_none};
use crate::take::{FirstWord, take_word};
use cob_base::{Items, Line, NoMemory, Spoken, Word};
use std::alloc::Global;

/// Cuts all cells, which a space, a line end or a comment follows.
pub fn cut_all(
    alloc: Global,
    words: &mut Items<Spoken>,
    start: Before,
    cells: &[Cell],
) -> Result<Before, WordFault>
    requires solid { IsSolid cells.now }
    requires quotes { wants_none start.wish ≡ true → HasNoQuote cells.now }
    ensures { (text : List Piece) → Follows true text → GoesOn result (λ after. found_after words.new after [] text) (found_after words.old start cells.now text) }
{
    let mut before = start;
    let mut rest = cells;
    while !rest.is_empty() {
        let (after, behind) = cut_next(alloc, words, before, rest)?;
        before = after;
        rest = behind;
    }
    Ok(before)
}

/// Cuts cells that a quote follows, up to where a picture is wanted. The quote then belongs to it, with the cells that are
/// left.
pub fn cut_words<'a>(
    alloc: Global,
    words: &mut Items<Spoken>,
    start: Before,
    cells: &'a [Cell],
) -> Result<(Before, &'a [Cell]), WordFault>
    requires solid { IsSolid cells.now }
    requires quotes { wants_none start.wish ≡ true → HasNoQuote cells.now }
    ensures solid { IfOk result (λ cut. IsSolid cut.1.now) }
    ensures all { IfOk result (λ cut. wants_none cut.0.wish ≡ true → cut.1.now ≡ []) }
    ensures found { (text : List Piece) → Follows false text → GoesOn result (λ cut. found_after words.new cut.0 cut.1.now text) (found_after words.old start cells.now text) }
{
    let mut before = start;
    let mut rest = cells;
    'words: while !rest.is_empty() {
        if !wants_none(before.wish) {
            return Ok((before, rest));
        }
        let (after, behind) = cut_word(alloc, words, before, rest, false)?;
        before = after;
        rest = behind;
    }
    Ok((before, rest))
}

/// Cuts one word of cells that a space, a line end or a comment follows.
fn cut_next<'a>(
    alloc: Global,
    words: &mut Items<Spoken>,
    before: Before,
    cells: &'a [Cell],
) -> Result<(Before, &'a [Cell]), WordFault>
    requires some { 0 < length cells.now }
    requires solid { IsSolid cells.now }
    requires quotes { wants_none before.wish ≡ true → HasNoQuote cells.now }
    ensures shorter { IfOk result (λ cut. 2 * length cut.1.now + is_wished cut.0 < 2 * length cells.now + is_wished before) }
    ensures solid { IfOk result (λ cut. IsSolid cut.1.now) }
    ensures quotes { IfOk result (λ cut. HasNoQuote cut.1.now) }
    ensures found { (text : List Piece) → Follows true text → GoesOn result (λ cut. found_after words.new cut.0 cut.1.now text) (found_after words.old before cells.now text) }
{
    if wants_none(before.wish) {
        return cut_word(alloc, words, before, cells, true);
    }
    let (after, behind) = cut_wished(alloc, words, before, cells)?;
    Ok((after, behind))
}

/// Cuts one word where no picture is wanted.
fn cut_word<'a>(
    alloc: Global,
    words: &mut Items<Spoken>,
    before: Before,
    cells: &'a [Cell],
    ends: bool,
) -> Result<(Before, &'a [Cell]), WordFault>
    requires some { 0 < length cells.now }
    requires none { wants_none before.wish ≡ true }
    requires solid { IsSolid cells.now }
    requires quotes { HasNoQuote cells.now }
    ensures shorter { IfOk result (λ cut. length cut.1.now < length cells.now) }
    ensures solid { IfOk result (λ cut. IsSolid cut.1.now) }
    ensures quotes { IfOk result (λ cut. HasNoQuote cut.1.now) }
    ensures found { (text : List Piece) → Follows ends text → GoesOn result (λ cut. found_after words.new cut.0 cut.1.now text) (found_after words.old before cells.now text) }
{
    let cell = cells[0];
    let rest = behind(cells, 1);
    let FirstWord {
        word,
        more,
        before: after,
    } = take_word(alloc, before.spaced, cell, rest, ends)?;
    push(words, cell.line, word)?;
    Ok((after, behind(rest, more)))
}

/// Cuts one word where a picture is wanted.
fn cut_wished<'a>(
    alloc: Global,
    words: &mut Items<Spoken>,
    before: Before,
    cells: &'a [Cell],
) -> Result<(Before, &'a [Cell]), NoMemory>
    requires some { 0 < length cells.now }
    requires wished { wants_none before.wish ≡ false }
    requires solid { IsSolid cells.now }
    ensures shorter { IfOk result (λ cut. 2 * length cut.1.now + is_wished cut.0 < 2 * length cells.now + 1) }
    ensures solid { IfOk result (λ cut. IsSolid cut.1.now) }
    ensures quotes { IfOk result (λ cut. HasNoQuote cut.1.now) }
    ensures found { IfOk result (λ cut. (text : List Piece) → Follows true text → found_after words.new cut.0 cut.1.now text ≡ found_after words.old before cells.now text) }
{
    let wished = take_wished(alloc, before, cells)?;
    push(words, cells[0].line, Some(wished.word))?;
    Ok((wished.before, behind(cells, wished.len)))
}

fn push(words: &mut Items<Spoken>, line: Line, word: Option<Word>) -> Result<(), NoMemory>
    ensures { OnOk result (words.new ≡ words.old ++ spoken_of line word) }
{
    if let Some(word) = word {
        words.push(Spoken { line, word })?;
    }
    Ok(())
}

/// The cells behind so many.
fn behind(cells: &[Cell], count: usize) -> &[Cell]
    requires { count ≤ length cells.now }
    ensures { result.now ≡ drop count cells.now }
{
    let (_, behind) = cells.split_at(count);
    behind
}
