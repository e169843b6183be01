ghost use Rattle.std.specs.Prelude.{◌≡◌, length};
ghost use Rattle.cob_value.specs.Comparisons.{may_compare, MayCompare, compared, may_compare_fill, MayCompareFill, compared_fill};

use crate::figure::{byte_of, is_numeric_kind, is_zero_figure};
use crate::moves::is_text;
use crate::texts::{compare_texts, compare_with_byte};
use crate::values::{item_digits, load};
use cob_base::Figurative;
use picture_rule::{Picture, PictureKind};
use std::cmp::Ordering;

/// Whether a condition may compare these items.
pub fn may_compare(a: &Picture, b: &Picture) -> bool
    ensures { result ≡ may_compare a.now b.now }
{
    (is_numeric_kind(a.kind) && is_numeric_kind(b.kind)) || (is_text(a) && is_text(b))
}

/// Compares two items: numeric ones by value, others byte by byte, the shorter filled with spaces. A numeric integer beside
/// another category stands as its digits.
pub fn compare_bytes(a: &Picture, x: &[u8], b: &Picture, y: &[u8]) -> Ordering
    requires allowed { MayCompare a.now b.now }
    requires a_size { length x.now ≡ a.now.size }
    requires b_size { length y.now ≡ b.now.size }
    ensures { result ≡ compared a.now x.now b.now y.now }
{
    match (a.kind, b.kind) {
        (PictureKind::Numeric, PictureKind::Numeric) => load(a, x).units().cmp(&load(b, y).units()),
        (PictureKind::Numeric, _) => compare_texts(&item_digits(a, x)[..usize::from(a.digits)], y),
        (_, PictureKind::Numeric) => compare_texts(x, &item_digits(b, y)[..usize::from(b.digits)]),
        (_, _) => compare_texts(x, y),
    }
}

/// Whether a condition may compare an item with a figurative constant.
pub fn may_compare_fill(pic: &Picture, figure: Figurative) -> bool
    ensures { result ≡ may_compare_fill pic.now figure }
{
    is_zero_figure(figure) || is_text(pic)
}

/// Compares an item with a figurative constant: with the number 0 where a numeric item stands beside ZERO, else with the
/// constant's byte repeated to the item's length.
pub fn compare_fill(pic: &Picture, bytes: &[u8], figure: Figurative) -> Ordering
    requires allowed { MayCompareFill pic.now figure }
    requires size { length bytes.now ≡ pic.now.size }
    ensures { result ≡ compared_fill pic.now bytes.now figure }
{
    if !is_numeric_kind(pic.kind) {
        return compare_with_byte(bytes, byte_of(figure));
    }
    if is_zero_figure(figure) {
        return load(pic, bytes).units().cmp(&0);
    }
    compare_with_byte(
        &item_digits(pic, bytes)[..usize::from(pic.digits)],
        byte_of(figure),
    )
}
