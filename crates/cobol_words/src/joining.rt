//! Lines joined on to one another and cut into words.

ghost use Rattle.std.specs.Prelude.{◌≡◌, ◌++◌, ◌∷◌, ◌<◌, ◌+◌, List, OnOk, replicate, true, false};
ghost use Rattle.cob_base.specs.Bytes.{begins_with, behind_spaces};
ghost use Rattle.cobol_words.specs.declared.cutter.Stage.TheVariants as stages;
ghost use Rattle.cobol_words.specs.Joined.{Piece, cells, filling, trimmed};
ghost use Rattle.cobol_words.specs.Taking.{GoesOn, is_quote};
ghost use Rattle.cobol_words.specs.Text.{GivesWords, WordsOf, continuation, joined_all, joining};
ghost use Rattle.cobol_words.specs.Cutting.{HasJoined, HasRead, IsCutter, ahead, open_mark};
ghost use Rattle.cobol_words.specs.Words.{at_start, found_in};
ghost use Rattle.cobol_words.specs.Joining.{JoinsAll};

use crate::cell::Cell;
use crate::cutter::{Cutter, Stage};
use crate::fault::WordFault;
use cob_base::{Items, Line, SourceLine, Spoken};
use std::alloc::Global;

/// The words of lines, each with the line in which it begins.
///
/// A continuation line joins on to the line before it. Where a literal is open at the end of a fixed line, it runs to
/// column 72 and goes on behind its own mark, which is the first nonspace byte of the continuation line; elsewhere the
/// spaces between the two lines fall away. Words are cut from the joined text, each the longest that begins where the
/// one before it ended. The first fault refuses the lines: the leftmost of the first line that has one.
pub fn read_words(alloc: Global, lines: &[SourceLine]) -> Result<Items<Spoken>, WordFault>
    ensures { GivesWords result (WordsOf lines.now) }
{
    match lines {
        [] => Ok(Items::new(alloc)),
        [first, rest @ ..] => read_from(alloc, first, rest),
    }
}

/// The words of a line and the lines behind it.
fn read_from(
    alloc: Global,
    first: &SourceLine,
    lines: &[SourceLine],
) -> Result<Items<Spoken>, WordFault>
    ensures { GivesWords result (WordsOf (first.now ∷ lines.now)) }
{
    if first.continued {
        return Err(WordFault::BadContinuation(first.line));
    }
    let mut cutter = Cutter::new(alloc);
    read_text(
        &mut cutter,
        alloc,
        first.line,
        trimmed(first.text.as_bytes()),
    )?;
    join_all(&mut cutter, alloc, first, lines)?;
    cutter.end_line(alloc)?;
    Ok(cutter.words)
}

/// Reads lines, each joined on to the one before it.
fn join_all(
    cutter: &mut Cutter,
    alloc: Global,
    first: &SourceLine,
    lines: &[SourceLine],
) -> Result<(), WordFault>
    requires { IsCutter cutter.old }
    ensures kept { OnOk result (IsCutter cutter.new) }
    ensures joined { (text : List Piece) → HasRead cutter.old text → JoinsAll result cutter.new (joined_all text first.now lines.now) }
{
    let mut last = first;
    for line in lines {
        join(cutter, alloc, last, line)?;
        last = line;
    }
    Ok(())
}

/// Reads one more line.
fn join(
    cutter: &mut Cutter,
    alloc: Global,
    last: &SourceLine,
    line: &SourceLine,
) -> Result<(), WordFault>
    requires { IsCutter cutter.old }
    ensures kept { OnOk result (IsCutter cutter.new) }
    ensures found { (after : List Piece) → GoesOn result (λ _. ahead cutter.new after) (ahead cutter.old (joining (open_mark cutter.old.stage) last.now line.now ++ after)) }
{
    let text = trimmed(line.text.as_bytes());
    if !line.continued {
        cutter.end_line(alloc)?;
        return read_text(cutter, alloc, line.line, text);
    }
    let text = without_spaces(text);
    match cutter.stage {
        Stage::Literal(mark) => continue_literal(cutter, alloc, mark, last, line, text),
        _ => read_text(cutter, alloc, line.line, text),
    }
}

/// Reads a continuation line of an open literal, without the spaces at its front.
fn continue_literal(
    cutter: &mut Cutter,
    alloc: Global,
    mark: Cell,
    last: &SourceLine,
    line: &SourceLine,
    text: &[u8],
) -> Result<(), WordFault>
    requires kept { IsCutter cutter.old }
    requires stage { cutter.old.stage ≡ stages.Literal mark }
    requires text { text.now ≡ behind_spaces (trimmed line.now.text) }
    ensures kept { OnOk result (IsCutter cutter.new) }
    ensures found { (after : List Piece) → GoesOn result (λ _. ahead cutter.new after) (ahead cutter.old (continuation (Some mark.byte) last.now line.now ++ after)) }
{
    if !last.fixed {
        return Err(WordFault::OpenLiteral(mark.line));
    }
    fill(cutter, mark, last)?;
    if !begins_with(mark.byte, text) {
        return Err(WordFault::BadContinuation(line.line));
    }
    let (_, rest) = text.split_at(1);
    read_text(cutter, alloc, line.line, rest)
}

fn begins_with(byte: u8, text: &[u8]) -> bool
    ensures { result ≡ begins_with byte text.now }
{
    match text {
        [first, ..] => *first == byte,
        [] => false,
    }
}

/// Reads the spaces at the end of a fixed line, which reaches to column 72.
fn fill(cutter: &mut Cutter, mark: Cell, last: &SourceLine) -> Result<(), WordFault>
    requires kept { IsCutter cutter.old }
    requires stage { cutter.old.stage ≡ stages.Literal mark }
    ensures kept { OnOk result (IsCutter cutter.new) }
    ensures stage { OnOk result (cutter.new.stage ≡ stages.Literal mark) }
    ensures found { (after : List Piece) → GoesOn result (λ _. ahead cutter.new after) (ahead cutter.old (filling last.now ++ after)) }
{
    let text = last.text.as_bytes();
    let end = text.len().max(65);
    read_spaces(cutter, mark, last.line, end - trimmed(text).len())
}

/// Reads so many spaces of an open literal.
fn read_spaces(cutter: &mut Cutter, mark: Cell, line: Line, count: usize) -> Result<(), WordFault>
    requires kept { IsCutter cutter.old }
    requires stage { cutter.old.stage ≡ stages.Literal mark }
    ensures kept { OnOk result (IsCutter cutter.new) }
    ensures stage { OnOk result (cutter.new.stage ≡ stages.Literal mark) }
    ensures found { (after : List Piece) → GoesOn result (λ _. ahead cutter.new after) (ahead cutter.old (cells line (replicate count 32) ++ after)) }
{
    for _ in 0..count {
        cutter.read_literal(mark, Cell { byte: b' ', line })?;
    }
    Ok(())
}

fn read_text(cutter: &mut Cutter, alloc: Global, line: Line, text: &[u8]) -> Result<(), WordFault>
    requires { IsCutter cutter.old }
    ensures kept { OnOk result (IsCutter cutter.new) }
    ensures found { (after : List Piece) → GoesOn result (λ _. ahead cutter.new after) (ahead cutter.old (cells line text.now ++ after)) }
{
    for byte in text {
        cutter.read(alloc, Cell { byte: *byte, line })?;
    }
    Ok(())
}

/// A text without the spaces at its end.
fn trimmed(text: &[u8]) -> &[u8]
    ensures { result.now ≡ trimmed text.now }
{
    let mut len = text.len();
    while len > 0 {
        if text[len - 1] != b' ' {
            return &text[..len];
        }
        len -= 1;
    }
    &[]
}

/// A text without the spaces at its front.
fn without_spaces(text: &[u8]) -> &[u8]
    ensures { result.now ≡ behind_spaces text.now }
{
    let mut rest = text;
    while let [b' ', after @ ..] = rest {
        rest = after;
    }
    rest
}
