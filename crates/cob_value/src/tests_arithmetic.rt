//! Operations on numbers, counted in millionths.

use crate::{add, divide, multiply, subtract};
use cob_base::Num;
use std::test::Fail;

const MOST: i128 = 99_999_999_999_999_999_999_999_999_999_999_999_999;

const TEN_19: i128 = 10_000_000_000_000_000_000;

const TEN_32: i128 = 100_000_000_000_000_000_000_000_000_000_000;

/// What is done, the operation, its operands and its result.
const CASES: [(&str, char, i128, i128, Option<i128>); 30] = [
    ("a sum", '+', 1_500_000, 2_250_000, Some(3_750_000)),
    ("the largest sum", '+', MOST - 1, 1, Some(MOST)),
    ("a sum of 10^38", '+', MOST, 1, None),
    ("a sum past 128 bits", '+', MOST, MOST, None),
    ("the least sum", '+', -MOST, 0, Some(-MOST)),
    ("a sum of -10^38", '+', -MOST, -1, None),
    ("a sum that is nothing", '+', -MOST, MOST, Some(0)),
    ("a difference", '-', 1_000_000, 2_250_000, Some(-1_250_000)),
    ("the largest difference", '-', MOST - 1, -1, Some(MOST)),
    ("a difference of 10^38", '-', MOST, -1, None),
    ("a difference past 128 bits", '-', MOST, -MOST, None),
    ("a difference of -10^38", '-', -MOST, 1, None),
    ("a product", '*', 1_500_000, 1_500_000, Some(2_250_000)),
    ("a product is cut", '*', 1, 1_999_999, Some(1)),
    ("a product is cut toward zero", '*', -1, 1_999_999, Some(-1)),
    ("a product cut to nothing", '*', -1, 999_999, Some(0)),
    ("a product of 10^38", '*', TEN_19, TEN_19, None),
    (
        "a product just below 10^38",
        '*',
        TEN_19,
        TEN_19 - 1,
        Some(TEN_32 - 10_000_000_000_000),
    ),
    (
        "a negative product just below 10^38",
        '*',
        -TEN_19,
        TEN_19 - 1,
        Some(10_000_000_000_000 - TEN_32),
    ),
    ("a product past 128 bits", '*', MOST, MOST, None),
    ("a quotient", '/', 9_000_000, 4_000_000, Some(2_250_000)),
    (
        "a quotient is cut",
        '/',
        2_000_000,
        3_000_000,
        Some(666_666),
    ),
    (
        "a quotient is cut toward zero",
        '/',
        -2_000_000,
        3_000_000,
        Some(-666_666),
    ),
    (
        "a divisor below zero",
        '/',
        1_000_000,
        -3_000_000,
        Some(-333_333),
    ),
    ("a zero divisor", '/', 1, 0, None),
    ("nothing by nothing", '/', 0, 0, None),
    ("a dividend of 10^38", '/', TEN_32, MOST, None),
    (
        "a dividend just below 10^38",
        '/',
        TEN_32 - 1,
        1,
        Some(99_999_999_999_999_999_999_999_999_999_999_000_000),
    ),
    ("a dividend past 128 bits", '/', -MOST, 1, None),
    ("a quotient cut to nothing", '/', -1, MOST, Some(0)),
];

/// The number of so many millionths, nothing where there are too many.
fn number(units: i128) -> Num {
    if units.unsigned_abs() < 100_000_000_000_000_000_000_000_000_000_000_000_000 {
        Num::new(units)
    } else {
        Num::new(0)
    }
}

fn result(operation: char, a: i128, b: i128) -> Option<i128> {
    let (a, b) = (number(a), number(b));
    let result = match operation {
        '+' => add(a, b),
        '-' => subtract(a, b),
        '*' => multiply(a, b),
        _ => divide(a, b),
    };
    match result {
        Some(number) => Some(number.units()),
        None => None,
    }
}

#[test]
fn operations_have_their_results(rt: HostRuntime) {
    for (what, operation, a, b, expected) in CASES {
        assert_eq!(rt; result(operation, a, b), expected, "{what}");
    }
}

#[test]
fn a_product_is_divided_where_it_fits(rt: HostRuntime) -> Result<(), Fail> {
    let most = number(TEN_19);
    assert_eq!(rt; multiply(most, most), None);
    let product = multiply(most, number(9_999_999_999_999_000_000)).ok_or("no product")?;
    let quotient = divide(product, most).ok_or("no quotient")?;
    assert_eq!(rt; quotient.units(), 9_999_999_999_999_000_000);
    Ok(())
}
