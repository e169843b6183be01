//! Pictures, and which fault is the first.

use super::shown;
use std::test::Fail;

const CASES: [(&str, &[u8], &str); 9] = [
    (
        "a picture less one mark",
        b"FPIC X,, Y\nFPIC 9;",
        "1 PIC; 1 pic[X,]; 1 Y; 2 PIC; 2 pic[9]; ",
    ),
    (
        "a mark alone leaves an empty picture",
        b"FPIC . A\nFPIC, B",
        "1 PIC; 1 pic[]; 1 stop; 1 A; 2 PIC; 2 pic[]; 2 B; ",
    ),
    (
        "a quote in a picture opens no literal",
        b"FPIC X\"*\"Y' Z\"A\"\nFPIC\"B",
        "1 PIC; 1 pic[X\"*\"Y']; 1 Z; 1 [A]; 2 PIC; 2 pic[\"B]; ",
    ),
    (
        "a comment ends a picture or stands before it",
        b"FPIC *> A\nF**9*> B\nFPIC**>",
        "1 PIC; 2 pic[**9]; 3 PIC; 3 pic[*]; ",
    ),
    (
        "a picture on the next line",
        b"FPIC\nF  IS\nFZZ9.",
        "1 PIC; 2 IS; 3 pic[ZZ9]; 3 stop; ",
    ),
    (
        "PIC wants a picture wherever it stands",
        b"FMOVE PIC TO X(PIC",
        "1 MOVE; 1 PIC; 1 pic[TO]; 1 X; 1 (; 1 PIC; ",
    ),
    (
        "PIC in a longer name wants none",
        b"FPIC-X \"A\"",
        "1 PIC-X; 1 [A]; ",
    ),
    (
        "a byte that begins no word",
        b"FA\nFB $ ?",
        "bad-character 2",
    ),
    (
        "the leftmost fault of the first line that has one",
        b"FA\nF1234567890123456789 B- \"C",
        "long-number 2",
    ),
];

#[test]
fn lines_have_their_words(rt: HostRuntime) -> Result<(), Fail> {
    for (what, text, expected) in CASES {
        let found = shown(rt.alloc(), text)?;
        assert_eq!(rt; found.as_str(), expected, "{what}");
    }
    Ok(())
}
