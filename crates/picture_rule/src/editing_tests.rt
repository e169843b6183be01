//! Tables of edited texts and of what is read back. Each row was worked out by hand.
use crate::{Picture, PictureKind, SignPlace, edit, read_picture, unedit};
use cob_base::Num;
use std::alloc::Global;
use std::process::Abort;

/// A picture, a value in millionths, and the bytes of its item.
type Shown<'a> = (&'a str, i128, &'a str);

fn millionths(rt: &impl Abort, units: i128) -> Num {
    assert!(rt; units.unsigned_abs() < 100_000_000_000_000_000_000_000_000_000_000_000_000);
    Num::new(units)
}

fn assert_edits(rt: &impl Abort, picture: &Picture, units: i128, expected: &str) {
    let value = millionths(rt, units);
    let mut room = [b'?'; 40];
    assert!(rt; expected.len() <= 40, "{expected}");
    let out = &mut room[..expected.len()];
    assert!(rt; out.len() == picture.size as usize, "{expected}");
    match picture.kind {
        PictureKind::Numeric | PictureKind::Edited => {
            edit(picture, value, out);
            assert!(rt; &*out == expected.as_bytes(), "{expected}");
        }
        PictureKind::Alphanumeric | PictureKind::Group => assert!(rt; false, "{expected}"),
    }
}

fn assert_shown(rt: &impl Abort, alloc: Global, case: Shown<'_>) {
    let (text, units, expected) = case;
    match read_picture(alloc, text.as_bytes()) {
        Ok(picture) => assert_edits(rt, &picture, units, expected),
        Err(_) => assert!(rt; false, "{text}"),
    }
}

#[test]
fn digits_are_suppressed(rt: HostRuntime) {
    let cases: [Shown<'_>; 30] = [
        ("ZZ,ZZ9.99", 1_234_500_000, " 1,234.50"),
        ("ZZ,ZZ9.99", 0, "     0.00"),
        ("ZZZ", 0, "   "),
        ("ZZZ", 5_000_000, "  5"),
        ("ZZZ", 1_234_000_000, "234"),
        ("ZZZ", 1_000_000_000, "   "),
        ("ZZZ", -5_000_000, "  5"),
        ("***", 0, "***"),
        ("***", 7_000_000, "**7"),
        ("***", 999_999, "***"),
        ("$***", 0, "****"),
        ("$***", 12_000_000, "$*12"),
        ("$ZZ", 0, "   "),
        ("ZZ9", 0, "  0"),
        ("99", 7_000_000, "07"),
        ("9,999", 12_000_000, "0,012"),
        ("Z,ZZ9", 12_000_000, "   12"),
        ("Z,ZZ9", 1_012_000_000, "1,012"),
        ("*,**9", 12_000_000, "***12"),
        ("*,**9", 1_000_000_000, "1,000"),
        ("Z,999", 12_000_000, "  012"),
        (",Z9", 5_000_000, ", 5"),
        (",ZZ", 0, "   "),
        (",**", 0, "***"),
        ("Z,Z", 0, "   "),
        ("Z,Z", 5_000_000, "  5"),
        ("Z,Z", 50_000_000, "5,0"),
        ("ZZ.99", 500_000, "  .50"),
        ("**.99", 0, "**.00"),
        ("*9.9", 50_000, "*0.0"),
    ];
    for case in cases {
        assert_shown(&rt, rt.alloc(), case);
    }
}

#[test]
fn signs_and_currency_are_shown(rt: HostRuntime) {
    let cases: [Shown<'_>; 33] = [
        ("+ZZ", 0, "   "),
        ("+ZZ", 5_000_000, "+ 5"),
        ("+ZZ", -5_000_000, "- 5"),
        ("+**", 0, "***"),
        ("-ZZ", 5_000_000, "  5"),
        ("-ZZ", -5_000_000, "- 5"),
        ("+9", 0, "+0"),
        ("+9", -500_000, "+0"),
        ("+9", -1_000_000, "-1"),
        ("+9", -10_000_000, "+0"),
        ("-9", -900_000, " 0"),
        ("-9", -3_000_000, "-3"),
        ("9+", 4_000_000, "4+"),
        ("9+", -4_000_000, "4-"),
        ("9-", 4_000_000, "4 "),
        ("9-", -4_000_000, "4-"),
        ("99CR", -5_000_000, "05CR"),
        ("99CR", 5_000_000, "05  "),
        ("99DB", -5_000_000, "05DB"),
        ("99DB", 5_000_000, "05  "),
        ("99DB", -100_000_000, "00  "),
        ("ZZCR", 0, "    "),
        ("ZZCR", -1_000_000, " 1CR"),
        ("**CR", 0, "****"),
        ("**DB", -400_000, "****"),
        ("$ZZ9.99", 1_050_000, "$  1.05"),
        ("$99.99-", -12_345_000, "$12.34-"),
        ("-$Z9", -5_000_000, "-$ 5"),
        ("99.9", 123_456_000, "23.4"),
        ("9.9(6)", 1_234_567, "1.234567"),
        ("9.9(5)", -1_999_999, "1.99999"),
        (
            "Z(17)9",
            123_456_789_012_345_678_000_000,
            "123456789012345678",
        ),
        (
            "Z(17)9",
            99_999_999_999_999_999_999_999_999_999_999_999_999,
            "999999999999999999",
        ),
    ];
    for case in cases {
        assert_shown(&rt, rt.alloc(), case);
    }
}

#[test]
fn numeric_items_hold_digits_and_a_sign(rt: HostRuntime) {
    let cases: [Shown<'_>; 25] = [
        ("9(3)", 5_000_000, "005"),
        ("9(3)", -5_000_000, "005"),
        ("9(3)", 1_234_000_000, "234"),
        ("9(3)", 999_999, "000"),
        ("V99", 257_000, "25"),
        ("9V9", 12_340_000, "23"),
        ("S9(3)", -12_000_000, "01r"),
        ("S9(3)", 12_000_000, "012"),
        ("S9(3)", 0, "000"),
        ("S9(3)", -1_000_000_000, "000"),
        ("S9(3)", -900_000, "000"),
        ("S9", -1_000_000, "q"),
        ("S9", -2_000_000, "r"),
        ("S9", -3_000_000, "s"),
        ("S9", -4_000_000, "t"),
        ("S9", -5_000_000, "u"),
        ("S9", -6_000_000, "v"),
        ("S9", -7_000_000, "w"),
        ("S9", -8_000_000, "x"),
        ("S9", -9_000_000, "y"),
        ("S99", -10_000_000, "1p"),
        ("S9V9", -1_250_000, "1r"),
        ("S9V9", -50_000, "00"),
        ("SV9(6)", -1, "00000q"),
        (
            "S9(18)",
            -999_999_999_999_999_999_000_000,
            "99999999999999999y",
        ),
    ];
    for case in cases {
        assert_shown(&rt, rt.alloc(), case);
    }
}

#[test]
fn a_separate_sign_takes_a_byte(rt: HostRuntime) {
    let cases: [(&str, SignPlace, i128, &str); 9] = [
        ("S9(3)", SignPlace::Leading, -12_000_000, "-012"),
        ("S9(3)", SignPlace::Leading, 12_000_000, "+012"),
        ("S9(3)", SignPlace::Leading, -900_000, "+000"),
        ("S9(3)", SignPlace::Trailing, -12_000_000, "012-"),
        ("S9(3)", SignPlace::Trailing, 12_000_000, "012+"),
        ("S9(3)", SignPlace::Trailing, 0, "000+"),
        ("S9(3)", SignPlace::Inside, -12_000_000, "01r"),
        ("9(3)", SignPlace::Leading, -12_000_000, "012"),
        ("ZZ9", SignPlace::Trailing, 12_000_000, " 12"),
    ];
    for (text, place, units, expected) in cases {
        match read_picture(rt.alloc(), text.as_bytes()) {
            Ok(picture) => {
                let picture = picture.with_sign(place);
                assert_edits(&rt, &picture, units, expected);
            }
            Err(_) => assert!(rt; false, "{text}"),
        }
    }
}

fn assert_reads_back(rt: &impl Abort, alloc: Global, case: Shown<'_>) {
    let (text, units, bytes) = case;
    match read_picture(alloc, text.as_bytes()) {
        Ok(picture) => {
            assert!(rt; bytes.len() == picture.size as usize, "{bytes}");
            match picture.kind {
                PictureKind::Numeric | PictureKind::Edited => {
                    let value = unedit(&picture, bytes.as_bytes());
                    assert!(rt; value.units() == units, "{text} {bytes}");
                }
                PictureKind::Alphanumeric | PictureKind::Group => assert!(rt; false, "{text}"),
            }
        }
        Err(_) => assert!(rt; false, "{text}"),
    }
}

#[test]
fn bytes_are_read_back(rt: HostRuntime) {
    let cases: [Shown<'_>; 31] = [
        ("ZZ9", 3_000_000, "3  "),
        ("ZZ9", 3_000_000, "  3"),
        ("ZZ9", -12_000_000, "-12"),
        ("ZZ9", -1_000_000, " 1-"),
        ("ZZ9", -1_000_000, "1CR"),
        ("ZZ9", -1_000_000, "1DB"),
        ("ZZ9", -1_000_000, "CR1"),
        ("ZZ9", 1_000_000, "1cr"),
        ("ZZ9", 1_000_000, "1RC"),
        ("ZZ9", 0, "   "),
        ("ZZ9", 0, "-  "),
        ("ZZ9", 0, "***"),
        ("ZZ9", 12_000_000, "$12"),
        ("ZZ9", 12_000_000, "1,2"),
        ("ZZ9", 1_500_000, "1.5"),
        ("ZZ9", 500_000, ".5 "),
        ("ZZ9", 500_000, "..5"),
        ("ZZ9", 1_000_000, "1.."),
        ("Z9.99", 12_340_000, "12.34"),
        ("Z9.99", 12_340_000, "1234 "),
        ("Z9.99", 1_230_000, "1.2.3"),
        ("9.9(6)", 1_234_567, "1.234567"),
        ("9.9(6)", 234_567, ".2345678"),
        ("9.9(6)", 12_345_678, "12345678"),
        ("-9.9", -1_200_000, "-1.2"),
        ("9(3)", 12_000_000, "12r"),
        ("S9(3)", 1_000_000, "01r"),
        ("9V9", 1_200_000, "12"),
        ("9V9", -500_000, "-5"),
        ("9V9", 1_000_000, "1."),
        (
            "9(18)",
            999_999_999_999_999_999_000_000,
            "999999999999999999",
        ),
    ];
    for case in cases {
        assert_reads_back(&rt, rt.alloc(), case);
    }
}
