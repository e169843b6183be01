ghost use Rattle.std.specs.Prelude.{◌≡◌, ◌+◌, ◌≤◌, ◌<◌, ◌^◌, IfSome, length, nat_eq, position};
ghost use Rattle.picture_rule.specs.Editing.{number_in, millionths_in, has_pair, is_minus, units_by, unedited, IsNumber};

use crate::Picture;
use crate::units::signed;
use cob_base::Num;

/// The number that the digits among some bytes write.
fn number_among(bytes: &[u8]) -> u128
    requires { length bytes.now ≤ 30 }
    ensures value { result ≡ number_in bytes.now }
    ensures within { result < 10 ^ length bytes.now }
{
    let mut number = 0;
    for byte in bytes {
        if byte.is_ascii_digit() {
            number = number * 10 + u128::from(*byte - b'0');
        }
    }
    number
}

/// The first six digits among some bytes, as millionths.
fn millionths_among(bytes: &[u8]) -> u128
    ensures value { result ≡ millionths_in bytes.now }
    ensures within { result < 10 ^ 6 }
{
    let mut number = 0;
    let mut places = 0;
    for byte in bytes {
        if places < 6 && byte.is_ascii_digit() {
            number = number * 10 + u128::from(*byte - b'0');
            places += 1;
        }
    }
    number * 10u128.pow(6 - places)
}

/// Whether two bytes stand somewhere, side by side.
fn is_pair_among(first: u8, second: u8, bytes: &[u8]) -> bool
    ensures { result ≡ has_pair first second bytes.now }
{
    let mut rest = bytes;
    while let [x, after @ ..] = rest {
        if let [y, ..] = after {
            if *x == first && *y == second {
                return true;
            }
        }
        rest = after;
    }
    false
}

/// Whether a minus, `CR` or `DB` stands somewhere.
fn is_below_zero(bytes: &[u8]) -> bool
    ensures { result ≡ is_minus bytes.now }
{
    bytes.contains(&b'-') || is_pair_among(b'C', b'R', bytes) || is_pair_among(b'D', b'B', bytes)
}

/// The place of the first point.
fn first_point(bytes: &[u8]) -> Option<usize>
    ensures is { result ≡ position (nat_eq 46) bytes.now }
    ensures within { IfSome result (λ at. at < length bytes.now) }
{
    bytes.iter().position(|byte| b'.' == *byte)
}

/// The millionths that some bytes write, without sign.
fn units_among(decimals: u8, bytes: &[u8]) -> u128
    requires few { length bytes.now ≤ 30 }
    requires places { decimals ≤ 6 }
    ensures value { result ≡ units_by decimals bytes.now }
    ensures within { result < 10 ^ 38 }
{
    match first_point(bytes) {
        Some(at) => number_among(&bytes[..at]) * 1_000_000 + millionths_among(&bytes[at + 1..]),
        None => number_among(bytes) * 10u128.pow(6 - u32::from(decimals)),
    }
}

/// The value that the bytes of a numeric or edited item show: below zero where a `-`, `CR` or `DB` stands in them. Before the
/// first point stands the whole part, after it the decimals, of which the first six count. Without a point all digits count
/// units of the picture's last place.
pub fn unedit(pic: &Picture, bytes: &[u8]) -> Num
    requires number { IsNumber pic.now.kind }
    requires size { length bytes.now ≡ pic.now.size }
    ensures { result ≡ unedited pic.now bytes.now }
{
    let units = units_among(pic.decimals, bytes);
    signed(is_below_zero(bytes), units)
}
