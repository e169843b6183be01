//! Literals over lines.

use super::shown;
use std::test::Fail;

const CASES: [(&str, &[u8], &str); 16] = [
    (
        "though a continuation line comes",
        b" A\n \"AB\n-\"C\"",
        "open-literal 2",
    ),
    (
        "a literal open at the end of a fixed line",
        b"F\"AB",
        "open-literal 1",
    ),
    (
        "after which no continuation line comes",
        b"F\"AB\nF\"C\"",
        "open-literal 1",
    ),
    ("a free line comes", b"F\"AB\n \"C\"", "open-literal 1"),
    (
        "a literal runs to column 72 and goes on behind its mark",
        b"F                                                             \"HEL\n-    \"LO\".",
        "1 [HELLO]; 2 stop; ",
    ),
    (
        "spaces fill a short line",
        b"F                                                            \"HEL\n-    \"LO\".",
        "1 [HEL LO]; 2 stop; ",
    ),
    (
        "over three lines",
        b"F                                                                'A\n-    '                                                           B\n-'C' D",
        "1 [A                                                           BC]; 3 D; ",
    ),
    (
        "the opening mark in column 72",
        b"F                                                                \"\n-\"A\"",
        "1 [A]; ",
    ),
    (
        "a mark doubled over the lines",
        b"F                                                              \"A\"\n-\"B\" C",
        "1 [A\"B]; 2 C; ",
    ),
    (
        "a literal closed before spaces is doubled too",
        b"F\"A\"   \n-  \"B\"",
        "1 [A\"B]; ",
    ),
    (
        "a literal closed before a continuation line",
        b"F'A'\n-\"B\"",
        "1 [A]; 2 [B]; ",
    ),
    (
        "another mark goes on with no literal",
        b"FX\nF\"AB\n-'C\"",
        "bad-continuation 3",
    ),
    ("nor does a word", b"F\"AB\n-C\"", "bad-continuation 2"),
    (
        "a literal badly continued and too long",
        b"F\"AB\n-  X\nF?",
        "bad-continuation 2",
    ),
    (
        "a continuation before which nothing stands",
        b"-A",
        "bad-continuation 1",
    ),
    (
        "a continuation line joins on",
        b"FMOV   \n-   E A",
        "1 MOVE; 2 A; ",
    ),
];

#[test]
fn lines_have_their_words(rt: HostRuntime) -> Result<(), Fail> {
    for (what, text, expected) in CASES {
        let found = shown(rt.alloc(), text)?;
        assert_eq!(rt; found.as_str(), expected, "{what}");
    }
    Ok(())
}
