ghost use Rattle.std.specs.Prelude.{◌≡◌, ◌<◌, ◌≤◌, ◌+◌, ◌↔◌, ℕ, List, IfSome, IsSomeAnd, IsTrue};
ghost use Rattle.picture_rule.specs.Picture.{Form, IsAlphanumeric, IsNumeric};
ghost use Rattle.picture_rule.specs.Text.{Writes};
ghost use Rattle.picture_rule.specs.Outline.{IsOutline};

use crate::PictureKind;
use crate::outline::Outline;
use crate::spans::longest_span;

/// What a text spells where it is an alphanumeric picture: `X` and `A` only.
pub fn alphanumeric(text: &[u8]) -> Option<Outline>
    ensures found { IfSome result (λ outline. (marks : List ℕ) × (form : Form) × Writes text.now marks × IsAlphanumeric marks form × IsOutline outline form) }
    ensures only { (marks : List ℕ) (form : Form) → Writes text.now marks → IsAlphanumeric marks form → IsSomeAnd result (λ outline. IsOutline outline form) }
{
    let letters = longest_span(text, b"XA");
    if letters.length == 0 {
        return None;
    }
    if !letters.rest.is_empty() {
        return None;
    }
    Some(Outline {
        kind: PictureKind::Alphanumeric,
        size: letters.length,
        digits: 0,
        decimals: 0,
        signed: false,
    })
}

/// Whether parts of so many marks, with nothing after them, are those of a numeric picture.
fn are_numeric_parts(sign: u64, whole: u64, point: u64, decimals: u64) -> bool
    ensures { IsTrue result ↔ ((sign ≤ 1) × (point ≤ 1) × (0 < whole + decimals)) }
{
    sign <= 1 && point <= 1 && (whole > 0 || decimals > 0)
}

/// What a text spells where it is a numeric picture.
pub fn numeric(text: &[u8]) -> Option<Outline>
    ensures found { IfSome result (λ outline. (marks : List ℕ) × (form : Form) × Writes text.now marks × IsNumeric marks form × IsOutline outline form) }
    ensures only { (marks : List ℕ) (form : Form) → Writes text.now marks → IsNumeric marks form → IsSomeAnd result (λ outline. IsOutline outline form) }
{
    let sign = longest_span(text, b"S");
    let whole = longest_span(sign.rest, b"9");
    let point = longest_span(whole.rest, b"V");
    let decimals = longest_span(point.rest, b"9");
    if !decimals.rest.is_empty() {
        return None;
    }
    if !are_numeric_parts(sign.length, whole.length, point.length, decimals.length) {
        return None;
    }
    let digits = whole.length.saturating_add(decimals.length);
    Some(Outline {
        kind: PictureKind::Numeric,
        size: digits,
        digits,
        decimals: decimals.length,
        signed: sign.length == 1,
    })
}
