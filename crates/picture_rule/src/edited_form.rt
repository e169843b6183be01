ghost use Rattle.std.specs.Prelude.{◌≡◌, ◌<◌, ◌↔◌, ◌++◌, ℕ, IsTrue, List, IfSome, IsSomeAnd, length, count_by, codes};
ghost use Rattle.picture_rule.specs.Picture.{Form, IsBody, IsEdited, IsNumeric, OneOf, endings, is_digit_mark};
ghost use Rattle.picture_rule.specs.Text.{Writes};
ghost use Rattle.picture_rule.specs.Reading.{counted, marks_of, sign_length};
ghost use Rattle.picture_rule.specs.Span.{Reads};
ghost use Rattle.picture_rule.specs.Outline.{AreEdited, Begins, IsOutline};
ghost use Rattle.picture_rule.specs.declared.run.Symbol.{Symbol};

use crate::PictureKind;
use crate::outline::Outline;
use crate::run::{Symbol, front_run};
use crate::spans::{Span, longest_span};

fn are_both(zs: u64, stars: u64) -> bool
    ensures { IsTrue result ↔ ((0 < zs) × (0 < stars)) }
{
    zs > 0 && stars > 0
}

/// The digits of an edited picture up to its point, with the commas among them. None where none are there, or where both
/// `Z` and `*` are.
fn body_front(text: &[u8]) -> Option<Span<'_>>
    ensures found { IfSome result (λ span. (marks : List ℕ) × Reads text.now marks span.rest.now × ((more : List ℕ) → Writes span.rest.now more → IsBody marks) × (span.length ≡ counted (length marks)) × (span.digits ≡ counted (count_by is_digit_mark marks))) }
    ensures only { (marks others : List ℕ) → Writes text.now (marks ++ others) → IsBody marks → Begins (codes "Z*9,") others → IsSomeAnd result (λ span. Writes span.rest.now others × (span.length ≡ counted (length marks)) × (span.digits ≡ counted (count_by is_digit_mark marks))) }
{
    let commas = longest_span(text, b",");
    let zs = longest_span(commas.rest, b"Z,");
    let stars = longest_span(zs.rest, b"*,");
    let shown = longest_span(stars.rest, b"9,");
    if are_both(zs.length, stars.length) {
        return None;
    }
    let suppressed = zs.length.saturating_add(stars.length);
    let from_digits = suppressed.saturating_add(shown.length);
    let length = commas.length.saturating_add(from_digits);
    if length == 0 {
        return None;
    }
    let suppressed_digits = zs.digits.saturating_add(stars.digits);
    let digits = suppressed_digits.saturating_add(shown.digits);
    Some(Span {
        length,
        digits,
        rest: shown.rest,
    })
}

/// The symbol that the text writes, where it writes one alone.
fn last_symbol(text: &[u8]) -> Option<Symbol>
    ensures found { IfSome result (λ symbol. Writes text.now (marks_of symbol)) }
    ensures only { (symbol : Symbol) → Writes text.now (marks_of symbol) → result ≡ Some symbol }
{
    match front_run(text) {
        None => None,
        Some(run) => {
            if run.times != 1 {
                return None;
            }
            if !run.rest.is_empty() {
                return None;
            }
            Some(run.symbol)
        }
    }
}

/// How many bytes a sign symbol takes. Other symbols take none here.
fn sign_bytes(symbol: Symbol) -> u64
    ensures { result ≡ sign_length symbol }
{
    match symbol {
        Symbol::Credit => 2,
        Symbol::Debit => 2,
        Symbol::Mark(mark) => { if mark == b'+' || mark == b'-' { 1 } else { 0 } }
    }
}

/// How many bytes the sign at the end of an edited picture takes, where nothing else is left.
fn ending(text: &[u8]) -> Option<u64>
    ensures found { IfSome result (λ n. (after : List ℕ) × Writes text.now after × OneOf endings after × (n ≡ length after)) }
    ensures only { (after : List ℕ) → Writes text.now after → OneOf endings after → IsSomeAnd result (λ n. n ≡ length after) }
{
    if text.is_empty() {
        return Some(0);
    }
    match last_symbol(text) {
        None => None,
        Some(symbol) => {
            let bytes = sign_bytes(symbol);
            if bytes == 0 {
                return None;
            }
            Some(bytes)
        }
    }
}

/// Whether parts of so many marks are those of an edited picture.
fn are_edited_parts(before: u64, currency: u64, point: u64, decimals: u64, after: u64) -> bool
    ensures { IsTrue result ↔ AreEdited before currency point decimals after }
{
    before <= 1
        && currency <= 1
        && point <= 1
        && (point > 0) == (decimals > 0)
        && (before == 0 || after == 0)
}

/// What a text spells where it is an edited picture. It is no numeric one.
pub fn edited(text: &[u8]) -> Option<Outline>
    requires { (marks : List ℕ) (form : Form) → Writes text.now marks → IsNumeric marks form → ⊥ }
    ensures found { IfSome result (λ outline. (marks : List ℕ) × (form : Form) × Writes text.now marks × IsEdited marks form × IsOutline outline form) }
    ensures only { (marks : List ℕ) (form : Form) → Writes text.now marks → IsEdited marks form → IsSomeAnd result (λ outline. IsOutline outline form) }
{
    let before = longest_span(text, b"+-");
    let currency = longest_span(before.rest, b"$");
    let Some(body) = body_front(currency.rest) else {
        return None;
    };
    let point = longest_span(body.rest, b".");
    let decimals = longest_span(point.rest, b"9");
    let Some(after) = ending(decimals.rest) else {
        return None;
    };
    let digits = body.digits.saturating_add(decimals.length);
    if digits == 0 {
        return None;
    }
    if !are_edited_parts(
        before.length,
        currency.length,
        point.length,
        decimals.length,
        after,
    ) {
        return None;
    }
    let signs = before.length.saturating_add(after);
    let others = currency.length.saturating_add(point.length);
    let shown = body.length.saturating_add(decimals.length);
    let around = signs.saturating_add(others);
    let size = shown.saturating_add(around);
    Some(Outline {
        kind: PictureKind::Edited,
        size,
        digits,
        decimals: decimals.length,
        signed: false,
    })
}
