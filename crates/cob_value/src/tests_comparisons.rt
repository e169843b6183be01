//! Comparisons between all categories, and with figurative constants.

use crate::tests::{cut, figure_of, has_size, item};
use crate::{Figure, compare_bytes, compare_fill, may_compare, may_compare_fill};
use picture_rule::{Picture, PictureFault};
use std::alloc::Global;
use std::cmp::Ordering;
use std::test::Fail;

/// Both items with their bytes, and how the first stands to the second; `!` where they may not be compared.
const COMPARISONS: &str = "\
one value|9(3)|012|S9(5)V99|0001200|=|
a negative value|S9(3)|01r|9(3)|000|<|
two negative values|S9|r|S9 LEADING|-3|>|
minus zero|S9|p|9|0|=|
signs in two places|S9(3) LEADING|-012|S9(3) TRAILING|012-|=|
decimals decide|9V9|15|9|1|>|
a longer number|9(3)|010|9|9|>|
a number of spaces|9(3)|   |9|0|=|
texts are filled|X(3)|AB |X(2)|AB|=|
a text that goes on|X(3)|ABC|X(2)|AB|>|
a text that ends|X(2)|AB|X(3)|AB!|<|
bytes below a space|X(3)|AB\x01|X(2)|AB|<|
small letters|X|a|A|A|>|
the first difference|X(2)|AZ|X(2)|BA|<|
texts of digits|X(2)|10|X|9|<|
a text and a group|X(2)|AB|GROUP|AB |=|
a group and a text|GROUP|AB|X(3)|ABC|<|
two groups|GROUP|B|GROUP|AB|>|
a text and a number|X(3)|012|9(3)|012|=|
a number and a text|9(3)|012|X(5)|012  |=|
digits stand from the left|X(2)|12|9(3)|012|>|
a text and a sign inside|X(3)|012|S9(3)|01r|=|
a sign before and a text|S9(3) LEADING|-012|X(3)|012|=|
a text and a sign behind|X(3)|012|S9(3) TRAILING|012-|=|
a number of spaces and spaces|9(3)|   |X(3)|   |>|
a group and a number|GROUP|12|99|12|=|
a number and a group|S99|1r|GROUP|12|=|
a number and a longer group|99|12|GROUP|120|<|
edited and a text|ZZ9|  5|X(4)|  5 |=|
a text and edited|X|5|ZZ9|  5|>|
edited and a group|Z9| 5|GROUP| 5|=|
a group and edited|GROUP| 4|Z9| 5|<|
edited and a number|ZZ9|  5|9(3)|005|<|
a number and edited|9(3)|005|ZZ9|  5|>|
a number and its edited digits|9(3)|125|ZZ9|125|=|
two edited|ZZ9|  5|Z9| 5|<|
edited decimals|Z.99|1.50|9.9|1.5|>|
decimals and a text|9V9|15|X(2)|15|!|
a text and decimals|X(2)|15|9V9|15|!|
decimals and a group|9V9|15|GROUP|15|!|
a group and decimals|GROUP|15|S9V9 LEADING|+15|!|
decimals and edited|9V9|15|Z9|15|!|
edited and decimals|Z9|15|V99|15|!|
decimals and a number|9V9|15|99|15|<|
decimals and decimals|9V9|15|V99|15|>|
";

/// An item and its bytes, a figurative constant, and how the item stands to it.
const FIGURES: &str = "\
zero|9(3)|000|ZERO|=|
below zero|S9(3)|01r|ZERO|<|
above zero|9V9|01|ZERO|>|
decimals of zero|9V9|00|ZERO|=|
a number of spaces is zero|9(3)|   |ZERO|=|
minus zero before|S9 LEADING|-0|ZERO|=|
a text of zeros|X(3)|000|ZERO|=|
a text of one zero|X(3)|0  |ZERO|<|
a group of zeros|GROUP|00|ZERO|=|
edited zero|ZZ9|  0|ZERO|<|
edited zeros|999.9|000.0|ZERO|<|
a text of spaces|X(3)|   |SPACE|=|
a text that is not all spaces|X(3)|  A|SPACE|>|
a text below spaces|X(2)| \x1f|SPACE|<|
a group of spaces|GROUP|  |SPACE|=|
edited spaces|ZZZ|   |SPACE|=|
edited digits|ZZ9|  0|SPACE|>|
a number of spaces is no SPACE|9(3)|   |SPACE|>|
digits behind a sign|S9 LEADING|-5|SPACE|>|
decimals and SPACE|9V9|15|SPACE|!|
decimals and HIGH-VALUE|9V9|15|HIGH-VALUE|!|
decimals and LOW-VALUE|S9V9 TRAILING|15+|LOW-VALUE|!|
a text and HIGH-VALUE|X(2)|zz|HIGH-VALUE|<|
a number and HIGH-VALUE|9(2)|99|HIGH-VALUE|<|
low bytes|GROUP|\x00\x00|LOW-VALUE|=|
a text and LOW-VALUE|X(2)|\x00 |LOW-VALUE|>|
a number of low bytes|9|\x00|LOW-VALUE|>|
";

fn mark_of(order: Ordering) -> &'static str {
    match order {
        Ordering::Less => "<",
        Ordering::Equal => "=",
        Ordering::Greater => ">",
    }
}

fn opposite(mark: &str) -> &str {
    match mark {
        "<" => ">",
        ">" => "<",
        _ => mark,
    }
}

fn compared(a: &Picture, x: &[u8], b: &Picture, y: &[u8]) -> &'static str {
    if !may_compare(a, b) || !has_size(a, x) || !has_size(b, y) {
        return "!";
    }
    mark_of(compare_bytes(a, x, b, y))
}

/// Whether a row's items compare as it says, and the other way round.
fn is_compared(alloc: Global, row: &str) -> Result<bool, PictureFault> {
    let (_, row) = cut(row);
    let (a, row) = cut(row);
    let (x, row) = cut(row);
    let (b, row) = cut(row);
    let (y, row) = cut(row);
    let (expected, _) = cut(row);
    let a = item(alloc, a, x.len())?;
    let b = item(alloc, b, y.len())?;
    let found = compared(&a, x.as_bytes(), &b, y.as_bytes());
    let back = compared(&b, y.as_bytes(), &a, x.as_bytes());
    Ok(found == expected && back == opposite(expected))
}

#[test]
fn items_compare_by_categories(rt: HostRuntime) -> Result<(), Fail> {
    for row in COMPARISONS.lines() {
        assert!(rt; is_compared(rt.alloc(), row)?, "{row}");
    }
    let text = item(rt.alloc(), "X", 1)?;
    assert_eq!(rt; compared(&text, &[255], &text, b"z"), ">");
    Ok(())
}

fn compared_to(pic: &Picture, bytes: &[u8], figure: Figure) -> &'static str {
    if !may_compare_fill(pic, figure) || !has_size(pic, bytes) {
        return "!";
    }
    mark_of(compare_fill(pic, bytes, figure))
}

fn is_compared_to(alloc: Global, row: &str) -> Result<bool, PictureFault> {
    let (_, row) = cut(row);
    let (pic, row) = cut(row);
    let (bytes, row) = cut(row);
    let (figure, row) = cut(row);
    let (expected, _) = cut(row);
    let pic = item(alloc, pic, bytes.len())?;
    Ok(compared_to(&pic, bytes.as_bytes(), figure_of(figure)) == expected)
}

#[test]
fn items_compare_with_figurative_constants(rt: HostRuntime) -> Result<(), Fail> {
    for row in FIGURES.lines() {
        assert!(rt; is_compared_to(rt.alloc(), row)?, "{row}");
    }
    let text = item(rt.alloc(), "X(2)", 2)?;
    assert_eq!(rt; compared_to(&text, &[255, 255], Figure::HighValue), "=");
    Ok(())
}
