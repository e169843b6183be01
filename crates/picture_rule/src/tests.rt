//! Tables of pictures: what is read, what is refused and what is too wide. Each row was worked out by hand.
use crate::{Picture, PictureFault, PictureKind, read_picture};
use std::alloc::Global;
use std::process::Abort;

/// What a text writes: category, size, digits, decimals, whether there is an S, and the marks that are kept.
type Written<'a> = (&'a str, PictureKind, u32, u8, u8, bool, &'a str);

fn assert_read(rt: &impl Abort, alloc: Global, case: Written<'_>) {
    let (text, kind, size, digits, decimals, signed, marks) = case;
    match read_picture(alloc, text.as_bytes()) {
        Ok(picture) => {
            assert!(rt; picture.kind == kind, "{text}");
            assert!(rt; picture.size == size, "{text}");
            assert!(rt; picture.digits == digits, "{text}");
            assert!(rt; picture.decimals == decimals, "{text}");
            assert!(rt; picture.signed == signed, "{text}");
            assert!(rt; picture.marks.as_bytes() == marks.as_bytes(), "{text}");
        }
        Err(_) => assert!(rt; false, "{text}"),
    }
}

#[test]
fn alphanumeric_and_numeric_pictures_are_read(rt: HostRuntime) {
    let cases: [Written<'_>; 15] = [
        ("X", PictureKind::Alphanumeric, 1, 0, 0, false, ""),
        ("x(3)", PictureKind::Alphanumeric, 3, 0, 0, false, ""),
        ("A(2)X(03)", PictureKind::Alphanumeric, 5, 0, 0, false, ""),
        ("XAx", PictureKind::Alphanumeric, 3, 0, 0, false, ""),
        ("X(9999)", PictureKind::Alphanumeric, 9999, 0, 0, false, ""),
        ("9", PictureKind::Numeric, 1, 1, 0, false, "9"),
        ("999", PictureKind::Numeric, 3, 3, 0, false, "999"),
        (
            "S9(4)V9(2)",
            PictureKind::Numeric,
            6,
            6,
            2,
            true,
            "S9999V99",
        ),
        ("s9v9", PictureKind::Numeric, 2, 2, 1, true, "S9V9"),
        ("9V", PictureKind::Numeric, 1, 1, 0, false, "9V"),
        ("V99", PictureKind::Numeric, 2, 2, 2, false, "V99"),
        ("SV9(6)", PictureKind::Numeric, 6, 6, 6, true, "SV999999"),
        ("S(1)9", PictureKind::Numeric, 1, 1, 0, true, "S9"),
        ("9V(1)9", PictureKind::Numeric, 2, 2, 1, false, "9V9"),
        (
            "9(0018)",
            PictureKind::Numeric,
            18,
            18,
            0,
            false,
            "999999999999999999",
        ),
    ];
    for case in cases {
        assert_read(&rt, rt.alloc(), case);
    }
}

#[test]
fn edited_pictures_are_read(rt: HostRuntime) {
    let cases: [Written<'_>; 19] = [
        ("Z9", PictureKind::Edited, 2, 2, 0, false, "Z9"),
        ("z,zz9.99", PictureKind::Edited, 8, 6, 2, false, "Z,ZZ9.99"),
        ("+9", PictureKind::Edited, 2, 1, 0, false, "+9"),
        ("+(1)9", PictureKind::Edited, 2, 1, 0, false, "+9"),
        ("-Z(2)", PictureKind::Edited, 3, 2, 0, false, "-ZZ"),
        (
            "$*,**9.99",
            PictureKind::Edited,
            9,
            6,
            2,
            false,
            "$*,**9.99",
        ),
        ("-$9", PictureKind::Edited, 3, 1, 0, false, "-$9"),
        ("99CR", PictureKind::Edited, 4, 2, 0, false, "99CR"),
        ("9cR", PictureKind::Edited, 3, 1, 0, false, "9CR"),
        ("9CR(1)", PictureKind::Edited, 3, 1, 0, false, "9CR"),
        ("9db", PictureKind::Edited, 3, 1, 0, false, "9DB"),
        ("9+", PictureKind::Edited, 2, 1, 0, false, "9+"),
        ("9-", PictureKind::Edited, 2, 1, 0, false, "9-"),
        (",.9", PictureKind::Edited, 3, 1, 1, false, ",.9"),
        ("9,9", PictureKind::Edited, 3, 2, 0, false, "9,9"),
        ("Z,,,9", PictureKind::Edited, 5, 2, 0, false, "Z,,,9"),
        ("*(2),9(2)", PictureKind::Edited, 5, 4, 0, false, "**,99"),
        (
            "9(12).9(6)",
            PictureKind::Edited,
            19,
            18,
            6,
            false,
            "999999999999.999999",
        ),
        (
            "Z(18),(12)",
            PictureKind::Edited,
            30,
            18,
            0,
            false,
            "ZZZZZZZZZZZZZZZZZZ,,,,,,,,,,,,",
        ),
    ];
    for case in cases {
        assert_read(&rt, rt.alloc(), case);
    }
}

#[test]
fn no_form_fits(rt: HostRuntime) {
    let texts: [&str; 56] = [
        "",
        "9.",
        "9(2)(3)",
        "9C(1)R",
        ".9",
        "X9",
        "9X",
        "S",
        "V",
        "SV",
        "S(2)9",
        "SS9",
        "9S",
        "9VV9",
        "9V(2)9",
        "ZV9",
        "SZ9",
        "+9+",
        "+9CR",
        "++9",
        "+-9",
        "$$9",
        "$+9",
        "9$",
        "9Z",
        "9*",
        "Z*9",
        "9,Z",
        "*,Z",
        "9..9",
        "Z.Z",
        "9.9,9",
        "X(0)",
        "X(000)",
        "X()",
        "X(",
        "X(3",
        "X)",
        "(3)",
        "X( 3)",
        "X(-3)",
        "X(3)X(",
        "P9",
        "9B9",
        "9/9",
        "9CRCR",
        "9CR(2)",
        "9RC",
        "9C",
        "9DR",
        "CR",
        "CR(1)",
        "+",
        ",",
        "9 9",
        "9(99999999999999999999)X",
    ];
    for text in texts {
        match read_picture(rt.alloc(), text.as_bytes()) {
            Err(PictureFault::NoPicture) => {}
            _ => assert!(rt; false, "{text}"),
        }
    }
}

#[test]
fn a_form_fits_past_its_limits(rt: HostRuntime) {
    let cases: [(&str, PictureKind, u32, bool, bool); 15] = [
        ("X(10000)", PictureKind::Alphanumeric, 10000, false, true),
        ("X(9999)A", PictureKind::Alphanumeric, 10000, false, true),
        (
            "X(99999999999999999999)",
            PictureKind::Alphanumeric,
            4294967295,
            false,
            true,
        ),
        ("9(19)", PictureKind::Numeric, 19, false, true),
        ("S9(19)", PictureKind::Numeric, 19, true, true),
        ("9(12)V9(7)", PictureKind::Numeric, 19, false, false),
        ("S9(18)V9", PictureKind::Numeric, 19, true, false),
        ("9V9(7)", PictureKind::Numeric, 8, false, false),
        (
            "S9(18446744073709551615)9",
            PictureKind::Numeric,
            4294967295,
            true,
            true,
        ),
        ("Z(19)", PictureKind::Edited, 19, false, true),
        ("Z,(30)", PictureKind::Edited, 31, false, true),
        ("9.9(7)", PictureKind::Edited, 9, false, false),
        ("+Z(9),(20)9", PictureKind::Edited, 31, false, true),
        ("9,(27)9CR", PictureKind::Edited, 31, false, true),
        ("9(13).9(6)", PictureKind::Edited, 20, false, false),
    ];
    for (text, kind, size, signed, whole) in cases {
        match read_picture(rt.alloc(), text.as_bytes()) {
            Err(
                PictureFault::TooWide {
                    kind: told_kind,
                    size: told_size,
                    signed: told_signed,
                    whole: told_whole,
                },
            ) => {
                assert!(rt; told_kind == kind, "{text}");
                assert!(rt; told_size == size, "{text}");
                assert!(rt; told_signed == signed, "{text}");
                assert!(rt; told_whole == whole, "{text}");
            }
            _ => assert!(rt; false, "{text}"),
        }
    }
}

fn assert_same(rt: &impl Abort, picture: &Picture, kind: PictureKind, size: u32, marks: &str) {
    assert!(rt; picture.kind == kind);
    assert!(rt; picture.size == size);
    assert!(rt; picture.marks.as_bytes() == marks.as_bytes());
}

#[test]
fn pictures_are_made_and_copied(rt: HostRuntime) {
    let alloc = rt.alloc();
    let group = Picture::group(alloc, 70_000);
    assert_same(&rt, &group, PictureKind::Group, 70_000, "");
    let empty = Picture::alphanumeric(alloc, 0);
    assert_same(&rt, &empty, PictureKind::Alphanumeric, 0, "");
    match Picture::number(alloc, 5, 2, true) {
        Ok(number) => {
            assert_same(&rt, &number, PictureKind::Numeric, 5, "S999V99");
            match number.copy(alloc) {
                Ok(copy) => assert_same(&rt, &copy, PictureKind::Numeric, 5, "S999V99"),
                Err(_) => assert!(rt; false, "a copy with ample memory"),
            }
        }
        Err(_) => assert!(rt; false, "a number with ample memory"),
    }
}
