//! Marks, commas and periods.

use super::shown;
use std::test::Fail;

const CASES: [(&str, &[u8], &str); 12] = [
    (
        "words stand between spaces and line ends",
        b"FMOVE  a-1\nF TO B_2 .",
        "1 MOVE; 1 a-1; 2 TO; 2 B_2; 2 stop; ",
    ),
    (
        "a mark needs no space beside it",
        b"FA=B(C)/D",
        "1 A; 1 =; 1 B; 1 (; 1 C; 1 ); 1 /; 1 D; ",
    ),
    (
        "all marks",
        b"F+ - * / = < > <= >= ( )",
        "1 +; 1 -; 1 *; 1 /; 1 =; 1 <; 1 >; 1 <=; 1 >=; 1 (; 1 ); ",
    ),
    (
        "the longest mark counts",
        b"FA<=B>==C<>D",
        "1 A; 1 <=; 1 B; 1 >=; 1 =; 1 C; 1 <; 1 >; 1 D; ",
    ),
    (
        "a comma or semicolon before a space or line end is a space",
        b"FA, B; C,\nFD;",
        "1 A; 1 B; 1 C; 2 D; ",
    ),
    ("a comma is part of no word", b"FA,B", "bad-character 1"),
    ("nor is a semicolon", b"FA ;B", "bad-character 1"),
    ("two commas", b"FA,, B", "bad-character 1"),
    (
        "a period before a space or line end is the separator period",
        b"FA. B .\nF.",
        "1 A; 1 stop; 1 B; 1 stop; 2 stop; ",
    ),
    ("a period before a letter", b"FA.B", "bad-character 1"),
    ("a period before a digit", b"FA\nF .5", "bad-character 2"),
    ("two periods", b"FA..", "bad-character 1"),
];

#[test]
fn lines_have_their_words(rt: HostRuntime) -> Result<(), Fail> {
    for (what, text, expected) in CASES {
        let found = shown(rt.alloc(), text)?;
        assert_eq!(rt; found.as_str(), expected, "{what}");
    }
    Ok(())
}
