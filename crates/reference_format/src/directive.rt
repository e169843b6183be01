//! Directives, which set the form of the lines after them.

ghost use Rattle.std.specs.Prelude.{◌≡◌, ◌<◌, ◌≤◌, [], ◌∷◌, length, option_map, unwrap_or, option_and_then};
ghost use Rattle.cob_base.specs.Bytes.{same_word};
ghost use Rattle.cob_base.specs.Lines as lines;
ghost use Rattle.reference_format.specs.Parts.{IsFirstWord};

use crate::columns::{indicator, place_of, program_text, without_spaces};

/// The directive that a line's columns are.
pub fn directive_of(fixed: bool, line: &[u8]) -> Option<&[u8]>
    ensures { option_map (λ text. text.now) result ≡ lines.directive_of fixed line.now }
{
    if begins_directive(line) {
        return Some(line);
    }
    let text = program_text(fixed, line);
    if indicator(fixed, line) == b' ' && begins_directive(text) {
        return Some(text);
    }
    None
}

fn begins_directive(text: &[u8]) -> bool
    ensures { result ≡ lines.begins_directive text.now }
{
    matches!(without_spaces(text), [b'>', b'>', ..])
}

/// The form that a directive sets.
pub fn form_of_directive(text: &[u8]) -> Option<bool>
    ensures { result ≡ lines.form_of_words (lines.words_of text.now) }
{
    let (word, rest) = first_word(text);
    if !same_word(word, b">>SOURCE") {
        return None;
    }
    let rest = behind_optional(rest, b"FORMAT");
    let rest = behind_optional(rest, b"IS");
    form_named(rest)
}

/// The form that the rest of a directive names: FREE or FIXED, alone.
fn form_named(text: &[u8]) -> Option<bool>
    ensures { result ≡ lines.form_named (lines.words_of text.now) }
{
    let (word, rest) = first_word(text);
    let (more, _) = first_word(rest);
    if !more.is_empty() {
        return None;
    }
    if same_word(word, b"FREE") {
        return Some(false);
    }
    if same_word(word, b"FIXED") {
        return Some(true);
    }
    None
}

/// Whether two words are the same but for the case of their letters.
fn same_word(a: &[u8], b: &[u8]) -> bool
    ensures { result ≡ same_word a.now b.now }
{
    a.eq_ignore_ascii_case(b)
}

/// The form after a line, from the form that it stands in and its columns.
pub fn form_after(fixed: bool, line: &[u8]) -> bool
    ensures { result ≡ lines.form_after fixed line.now }
{
    match directive_of(fixed, line) {
        Some(text) => form_of_directive(text).unwrap_or(fixed),
        None => fixed,
    }
}

/// The first word of a text and what stands behind it. The word is empty where the text is all spaces.
fn first_word(text: &[u8]) -> (&[u8], &[u8])
    ensures { IsFirstWord text.now result.0.now result.1.now }
{
    let text = without_spaces(text);
    text.split_at(place_of(b' ', text))
}

/// A text without its first word, where that is this one, and else the text.
fn behind_optional<'a>(text: &'a [u8], optional: &[u8]) -> &'a [u8]
    ensures { lines.words_of result.now ≡ lines.without optional.now (lines.words_of text.now) }
{
    let (word, rest) = first_word(text);
    if same_word(word, optional) {
        return rest;
    }
    text
}
