ghost use Rattle.std.specs.Prelude.{◌≡◌, ◌≤◌, ◌<◌, ◌+◌, ◌*◌, ◌^◌, length, take, map, ◌&&◌, ◌==◌, false};
ghost use Rattle.std.specs.Str.Parse.{digits_value};
ghost use Rattle.picture_rule.specs.Editing.{IsNumber};
ghost use Rattle.picture_rule.specs.declared.kind.PictureKind.TheVariants.{Numeric};
ghost use Rattle.cob_value.specs.Values.{is_raised, first_digit, keeps_sign, digit_in, digits_of, is_minus_kept, value_of, text_value, holds, stored};

use cob_base::Num;
use picture_rule::{Picture, SignPlace, edit, magnitude, signed};

/// Whether a byte is that of a digit with a negative sign: 64 above the digit's own.
fn is_raised_digit(byte: u8) -> bool
    ensures { result ≡ is_raised byte }
{
    byte > 64 && (byte - 64).is_ascii_digit()
}

/// The digit that a byte stands for, as its own byte; what is no digit counts as 0.
fn counted_digit(byte: u8, may_be_raised: bool) -> u8
    ensures { result ≡ digit_in byte may_be_raised }
{
    if byte.is_ascii_digit() {
        byte
    } else if may_be_raised && is_raised_digit(byte) {
        byte - 64
    } else {
        b'0'
    }
}

/// Whether the last digit's byte keeps the sign.
fn has_sign_inside(separate: SignPlace, is_signed: bool) -> bool
    ensures { result ≡ keeps_sign separate is_signed }
{
    match separate {
        SignPlace::Inside => is_signed,
        SignPlace::Leading | SignPlace::Trailing => false,
    }
}

/// Whether the sign stands in this digit's byte, which is the last one's.
fn is_sign_place(sign_inside: bool, digit: usize, count: usize) -> bool
    requires { digit < count }
    ensures { result ≡ (sign_inside && (digit + 1 == count)) }
{
    sign_inside && digit + 1 == count
}

/// The place of the first digit.
fn first_place(separate: SignPlace) -> usize
    ensures { result ≡ first_digit separate }
{
    match separate {
        SignPlace::Leading => 1,
        SignPlace::Inside | SignPlace::Trailing => 0,
    }
}

/// The digits of a numeric item without its sign, from the first place on.
pub fn item_digits(pic: &Picture, bytes: &[u8]) -> [u8; 18]
    requires numeric { pic.now.kind ≡ Numeric }
    requires size { length bytes.now ≡ pic.now.size }
    ensures { take pic.now.digits result ≡ digits_of pic.now bytes.now }
{
    let count = usize::from(pic.digits);
    let first = first_place(pic.separate);
    let sign_inside = has_sign_inside(pic.separate, pic.signed);
    let mut digits = [b'0'; 18];
    for k in 0..count {
        digits[k] = counted_digit(bytes[first + k], is_sign_place(sign_inside, k, count));
    }
    digits
}

/// Whether a numeric item keeps a negative sign.
fn is_item_negative(pic: &Picture, bytes: &[u8]) -> bool
    requires numeric { pic.now.kind ≡ Numeric }
    requires size { length bytes.now ≡ pic.now.size }
    ensures { result ≡ is_minus_kept pic.now.separate pic.now.signed pic.now.digits bytes.now }
{
    let digits = usize::from(pic.digits);
    match pic.separate {
        SignPlace::Inside => pic.signed && is_raised_digit(bytes[digits - 1]),
        SignPlace::Leading => bytes[0] == b'-',
        SignPlace::Trailing => bytes[digits] == b'-',
    }
}

/// The number that at most 18 bytes write; a byte that is no digit counts as 0.
fn number_in(bytes: &[u8]) -> u64
    requires { length bytes.now ≤ 18 }
    ensures { result ≡ digits_value 10 (map (λ byte. digit_in byte false) bytes.now) }
{
    let mut number = 0;
    for byte in bytes {
        number = number * 10 + u64::from(counted_digit(*byte, false) - b'0');
    }
    number
}

/// The value that the bytes of a numeric item have. A byte that is no digit counts as 0, and a separate sign byte other than
/// `-` is plus.
pub fn load(pic: &Picture, bytes: &[u8]) -> Num
    requires numeric { pic.now.kind ≡ Numeric }
    requires size { length bytes.now ≡ pic.now.size }
    ensures { result ≡ value_of pic.now bytes.now }
{
    let digits = item_digits(pic, bytes);
    let units = number_in(&digits[..usize::from(pic.digits)]);
    let millionths = u128::from(units) * 10u128.pow(6 - u32::from(pic.decimals));
    signed(is_item_negative(pic, bytes), millionths)
}

/// The whole number that the last 18 bytes of a text write.
pub fn load_text(bytes: &[u8]) -> Num
    ensures { result ≡ text_value bytes.now }
{
    let last = &bytes[bytes.len().saturating_sub(18)..];
    signed(false, u128::from(number_in(last)) * 1_000_000)
}

/// Stores a value in a numeric or edited item, cut toward zero at its last place; an unsigned numeric item takes the value
/// without its sign. Where the whole part does not fit, which is a size error, the answer is `false` and the item stays.
pub fn store(pic: &Picture, value: Num, out: &mut [u8]) -> bool
    requires number { IsNumber pic.now.kind }
    requires size { length out.old ≡ pic.now.size }
    ensures fits { result ≡ holds pic.now value }
    ensures stored { out.new ≡ stored pic.now value out.old }
{
    let whole = magnitude(value) / 1_000_000;
    let fits = whole < 10u128.pow(u32::from(pic.digits.saturating_sub(pic.decimals)));
    if fits {
        edit(pic, value, out);
    }
    fits
}
