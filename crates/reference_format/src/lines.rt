//! A text cut into its lines, each judged in its place.

ghost use Rattle.std.specs.Prelude.{◌≡◌, ◌<◌, ◌^◌, ◌∷◌, length, Result, Option};
ghost use Rattle.cob_base.specs.Lines.{GivesLines, LinesOf, cut_into_lines};
ghost use Rattle.cob_base.specs.Lines as lines;
ghost use Rattle.reference_format.specs.Parts.{without_return};

use crate::columns::{
    are_printable, begins_comment, columns, indicator, is_blank, is_comment_indicator,
    is_indicator, place_of, program_text,
};
use crate::directive::{directive_of, form_after, form_of_directive};
use cob_base::{ByteText, Items, Line, SourceLine, TextFault};
use std::alloc::Global;

/// The lines of program text, in order: those that are neither blank, comment nor directive.
///
/// A line ends at LF, the last one also at the text's end, and a CR right before an LF falls away. A text begins in fixed
/// form: columns 1 to 6 are the sequence area, column 7 is the indicator and columns 8 to 72 are program text. In free
/// form the whole line is program text. A directive sets the form of the lines after it. The first line at fault refuses
/// the text, and of the faults of one line a bad directive comes first, then a bad indicator, then a bad byte.
pub fn read_lines(alloc: Global, text: &[u8]) -> Result<Items<SourceLine>, TextFault>
    requires { length text.now < 2 ^ 31 }
    ensures { GivesLines result (LinesOf text.now) }
{
    let mut lines = Items::new(alloc);
    let mut rest = text;
    let mut fixed = true;
    let mut number = 1;
    while !rest.is_empty() {
        let (line, after) = cut_line(rest);
        let line = columns(fixed, line);
        if let Some(line) = judged(alloc, Line(number), fixed, line)? {
            lines.push(line)?;
        }
        fixed = form_after(fixed, line);
        number += 1;
        rest = after;
    }
    Ok(lines)
}

/// The first line of a text, and what stands behind its line feed.
fn cut_line(text: &[u8]) -> (&[u8], &[u8])
    requires { 0 < length text.now }
    ensures lines { cut_into_lines text.now ≡ result.0.now ∷ cut_into_lines result.1.now }
    ensures shorter { length result.1.now < length text.now }
{
    let len = place_of(b'\n', text);
    if len < text.len() {
        (without_return(&text[..len]), &text[len + 1..])
    } else {
        (text, &[])
    }
}

/// A line without a carriage return at its end.
fn without_return(line: &[u8]) -> &[u8]
    ensures { result.now ≡ without_return line.now }
{
    if line.is_empty() {
        return line;
    }
    let last = line.len() - 1;
    if line[last] != b'\r' {
        return line;
    }
    &line[..last]
}

/// What a line comes to in its place: nothing, a line of program text, or its first fault.
fn judged(
    alloc: Global,
    number: Line,
    fixed: bool,
    line: &[u8],
) -> Result<Option<SourceLine>, TextFault>
    ensures { GivesLines result (lines.judged (record { number = number; fixed = fixed; line = line.now })) }
{
    match directive_of(fixed, line) {
        Some(text) => judged_directive(number, fixed, line, text),
        None => judged_text(alloc, number, fixed, line),
    }
}

/// What a directive comes to: nothing, or its first fault.
fn judged_directive(
    number: Line,
    fixed: bool,
    line: &[u8],
    text: &[u8],
) -> Result<Option<SourceLine>, TextFault>
    ensures { GivesLines result (lines.judged_directive (record { number = number; fixed = fixed; line = line.now }) text.now) }
{
    if form_of_directive(text).is_none() {
        Err(TextFault::BadDirective(number))
    } else if are_printable(line) {
        Ok(None)
    } else {
        Err(TextFault::BadByte(number))
    }
}

/// What a line that is no directive comes to.
fn judged_text(
    alloc: Global,
    number: Line,
    fixed: bool,
    line: &[u8],
) -> Result<Option<SourceLine>, TextFault>
    ensures { GivesLines result (lines.judged_text (record { number = number; fixed = fixed; line = line.now }) (lines.program_text fixed line.now)) }
{
    let text = program_text(fixed, line);
    let indicator = indicator(fixed, line);
    if !is_indicator(indicator) {
        return Err(TextFault::BadIndicator(number));
    }
    if is_comment_indicator(indicator) || begins_comment(text) {
        return Ok(None);
    }
    if !are_printable(line) {
        return Err(TextFault::BadByte(number));
    }
    if is_blank(text) {
        return Ok(None);
    }
    Ok(Some(SourceLine {
        line: number,
        fixed,
        continued: indicator == b'-',
        text: ByteText::from_bytes(alloc, text)?,
    }))
}
