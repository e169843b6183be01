ghost use Rattle.std.specs.Prelude.{◌≡◌, ◌+◌, ◌≤◌, ◌<◌, ◌^◌, ◌/◌, ◌%◌, ◌-◌, ◌&&◌, length, map, count_by, nat_eq, nat_lt, ◌==◌, unsigned_abs};
ghost use Rattle.std.specs.List.{range_with_len};
ghost use Rattle.picture_rule.specs.Picture.{is_digit_mark, sign_bytes};
ghost use Rattle.picture_rule.specs.Editing.{place_byte, is_suppressed, shown_mark, sign_mark, fill_of, byte_at, edited_marks, edited, digits_text, number_text, shown_units, is_shown_negative, IsNumber};

use crate::units::{is_negative, magnitude};
use crate::{Picture, PictureKind, SignPlace};
use cob_base::Num;

/// The number that is left of a number without so many of its last digits.
fn without_digits(units: u64, digits: usize) -> u64
    requires { digits ≤ 18 }
    ensures { result ≡ units / 10 ^ digits }
{
    units / 10u64.pow(digits as u32)
}

/// `-` where the sign is negative, else `+`.
fn sign_byte(negative: bool) -> u8
    ensures { result ≡ sign_mark negative }
{
    if negative { b'-' } else { b'+' }
}

/// What stands in a place that is not suppressed.
fn shown_byte(mark: u8, high: u64, negative: bool) -> u8
    ensures { result ≡ shown_mark mark high negative }
{
    match mark {
        b'Z' | b'*' | b'9' => b'0' + (high % 10) as u8,
        b'+' => sign_byte(negative),
        b'-' => if negative { b'-' } else { b' ' },
        b'C' | b'R' | b'D' | b'B' => if negative { mark } else { b' ' },
        _ => mark,
    }
}

/// Whether a place is suppressed: `high` is the number that the digits up to it show, and `floats` says that digits stand
/// before it, all of which may be suppressed.
fn is_place_suppressed(mark: u8, high: u64, floats: bool) -> bool
    ensures { result ≡ is_suppressed mark high floats }
{
    high == 0 && (mark == b'Z' || mark == b'*' || (mark == b',' && floats))
}

fn byte_in_place(mark: u8, high: u64, floats: bool, fill: u8, negative: bool) -> u8
    ensures { result ≡ place_byte mark high floats fill negative }
{
    if is_place_suppressed(mark, high, floats) {
        fill
    } else {
        shown_byte(mark, high, negative)
    }
}

/// What stands in suppressed places: a star under `*`, else a space.
fn fill_byte(marks: &[u8]) -> u8
    ensures { result ≡ fill_of marks.now }
{
    if marks.contains(&b'*') { b'*' } else { b' ' }
}

fn is_digit(mark: u8) -> bool
    ensures { result ≡ is_digit_mark mark }
{
    mark == b'Z' || mark == b'*' || mark == b'9'
}

fn count_digits(marks: &[u8]) -> usize
    ensures { result ≡ count_by is_digit_mark marks.now }
{
    marks.iter().filter(|mark| is_digit(**mark)).count()
}

fn count_nines(marks: &[u8]) -> usize
    ensures { result ≡ count_by (nat_eq 57) marks.now }
{
    marks.iter().filter(|mark| b'9' == **mark).count()
}

/// Whether so many digits before a place, of which so many are 9s, may all be suppressed, and there is one at least.
fn is_floating(before: usize, nines: usize) -> bool
    ensures { result ≡ (nat_lt 0 before && (nines == 0)) }
{
    before > 0 && nines == 0
}

/// Fills each place by what stands in it.
fn edit_places(marks: &[u8], units: u64, negative: bool, out: &mut [u8])
    requires same { length out.old ≡ length marks.now }
    requires digits { count_by is_digit_mark marks.now ≤ 18 }
    ensures { out.new ≡ map (byte_at marks.now units negative) (range_with_len 0 (length marks.now)) }
{
    let fill = fill_byte(marks);
    let digits = count_digits(marks);
    let mut before = 0;
    let mut nines = 0;
    for (i, mark) in marks.iter().enumerate() {
        let here = usize::from(is_digit(*mark));
        let after = digits - before - here;
        let high = without_digits(units, after);
        let floats = is_floating(before, nines);
        out[i] = byte_in_place(*mark, high, floats, fill, negative);
        before += here;
        nines += usize::from(b'9' == *mark);
    }
}

fn fill_all(out: &mut [u8], byte: u8)
    ensures { out.new ≡ map (λ _. byte) (range_with_len 0 (length out.old)) }
{
    for place in out.iter_mut() {
        *place = byte;
    }
}

/// Fills the places of an edited item that shows so many units.
fn edit_marks(marks: &[u8], units: u64, negative: bool, out: &mut [u8])
    requires same { length out.old ≡ length marks.now }
    requires digits { count_by is_digit_mark marks.now ≤ 18 }
    ensures { out.new ≡ edited_marks marks.now units negative }
{
    if units == 0 && count_nines(marks) == 0 {
        fill_all(out, fill_byte(marks));
    } else {
        edit_places(marks, units, negative, out);
    }
}

/// Writes so many units in as many digits as there are bytes; a negative sign raises the last byte.
fn write_digits(out: &mut [u8], digits: usize, units: u64, negative: bool)
    requires size { length out.old ≡ digits }
    requires few { digits ≤ 18 }
    ensures { out.new ≡ digits_text digits units negative }
{
    for k in 0..digits {
        let digit = (without_digits(units, digits - 1 - k) % 10) as u8;
        let raised = if negative && k + 1 == digits { 64 } else { 0 };
        out[k] = b'0' + digit + raised;
    }
}

/// Writes the digits and the sign of a numeric item.
fn write_number(separate: SignPlace, digits: usize, units: u64, negative: bool, out: &mut [u8])
    requires size { length out.old ≡ digits + sign_bytes separate }
    requires few { digits ≤ 18 }
    ensures { out.new ≡ number_text separate digits units negative }
{
    match separate {
        SignPlace::Inside => write_digits(out, digits, units, negative),
        SignPlace::Leading => {
            out[0] = sign_byte(negative);
            write_digits(&mut out[1..], digits, units, false);
        }
        SignPlace::Trailing => {
            write_digits(&mut out[..digits], digits, units, false);
            out[digits] = sign_byte(negative);
        }
    }
}

/// Puts a value into the bytes of a numeric or edited item. It is cut toward zero at the picture's last place, and of high digits
/// that do not fit; the sign is that of what is left.
pub fn edit(pic: &Picture, value: Num, out: &mut [u8])
    requires number { IsNumber pic.now.kind }
    requires size { length out.old ≡ pic.now.size }
    ensures { out.new ≡ edited pic.now value }
{
    let units = shown(pic.digits, pic.decimals, magnitude(value));
    let negative = is_negative(value) && units > 0;
    match pic.kind {
        PictureKind::Numeric => write_number(
            pic.separate,
            usize::from(pic.digits),
            units,
            pic.signed && negative,
            out,
        ),
        PictureKind::Edited => edit_marks(pic.marks.as_bytes(), units, negative, out),
        PictureKind::Alphanumeric => {}
        PictureKind::Group => {}
    }
}

/// The units of a picture's last place that so many millionths show, cut there and of high digits.
fn shown(digits: u8, decimals: u8, millionths: u128) -> u64
    requires few { digits ≤ 18 }
    requires places { decimals ≤ 6 }
    ensures { result ≡ (millionths / 10 ^ (6 - decimals)) % 10 ^ digits }
{
    (millionths / 10u128.pow(6 - u32::from(decimals)) % 10u128.pow(u32::from(digits))) as u64
}
