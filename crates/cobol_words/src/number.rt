//! Numbers.

ghost use Rattle.std.specs.Prelude.{◌≡◌, ◌+◌, ◌*◌, ◌^◌, ◌<◌, ◌-◌, ◌≤◌, true, length};
ghost use Rattle.std.specs.List.{list_all};
ghost use Rattle.cobol_words.specs.Runs.{is_digit, number_of, under_sign, value_of};
ghost use Rattle.cobol_words.specs.Taking.{FoundAs};

use crate::fault::WordFault;
use cob_base::{Line, Num, Word};

/// The number that digits are, of which so many are decimals, with the sign before them.
pub fn number(
    line: Line,
    sign: Option<u8>,
    digits: &[u8],
    decimals: usize,
) -> Result<Word, WordFault>
    requires { list_all is_digit digits.now ≡ true }
    ensures { FoundAs line result (number_of line sign digits.now decimals) }
{
    if digits.len() > 18 {
        return Err(WordFault::LongNumber(line));
    }
    if decimals > 6 {
        return Err(WordFault::LongNumber(line));
    }
    let units = scaled(value_of(digits), decimals);
    Ok(Word::Number {
        value: signed(sign, units),
        digits: digits.len() as u8,
        decimals: decimals as u8,
        signed: sign.is_some(),
    })
}

fn signed(sign: Option<u8>, units: u128) -> Num
    requires { units < 10 ^ 38 }
    ensures { result ≡ under_sign sign units }
{
    match sign {
        Some(b'-') => Num::new(-(units as i128)),
        _ => Num::new(units as i128),
    }
}

/// The value of digits.
fn value_of(digits: &[u8]) -> u64
    requires digits { list_all is_digit digits.now ≡ true }
    requires short { length digits.now ≤ 18 }
    ensures value { result ≡ value_of digits.now }
    ensures small { result < 10 ^ 18 }
{
    let mut value: u64 = 0;
    for digit in digits {
        value = 10 * value + (digit - b'0') as u64;
    }
    value
}

/// A number with so many decimals in millionths.
fn scaled(value: u64, decimals: usize) -> u128
    requires small { value < 10 ^ 18 }
    requires few { decimals ≤ 6 }
    ensures value { result ≡ value * 10 ^ (6 - decimals) }
    ensures small { result < 10 ^ 38 }
{
    let power = 10u64.pow((6 - decimals) as u32);
    value as u128 * power as u128
}
