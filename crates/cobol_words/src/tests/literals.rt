//! Literals and comments.

use super::shown;
use std::test::Fail;

const CASES: [(&str, &[u8], &str); 11] = [
    (
        "literals",
        b"F\"A b\" 'B''C' \"D\"\"E\" \"'\" '\"'",
        "1 [A b]; 1 [B'C]; 1 [D\"E]; 1 [']; 1 [\"]; ",
    ),
    (
        "a literal needs no space beside it",
        b"FA\"B\"C'D'.\nF'E'\"F\"",
        "1 A; 1 [B]; 1 C; 1 [D]; 1 stop; 2 [E]; 2 [F]; ",
    ),
    ("an empty literal", b"FA\nF \"\"", "bad-character 2"),
    ("a doubled mark alone", b"F\"\"\"\"", "1 [\"]; "),
    ("*> in a literal is text", b"F\"A*>B\"", "1 [A*>B]; "),
    (
        "*> begins a comment",
        b"FA *> \"B\nFC*>.,\"\nFD",
        "1 A; 2 C; 3 D; ",
    ),
    ("** is no comment", b"F**>A\nF*A", "1 *; 2 *; 2 A; "),
    ("< before a comment", b"F<*>=\nF=", "1 <; 2 =; "),
    (
        "a period or comma right before a comment",
        b"FA.*> B\nF5.*>\nFC,*>",
        "1 A; 1 stop; 2 #5000000/1/0; 2 stop; 3 C; ",
    ),
    (
        "a period before a star that begins no comment",
        b"FA.*B",
        "bad-character 1",
    ),
    (
        "a literal open at the end of a free line",
        b" \"AB",
        "open-literal 1",
    ),
];

#[test]
fn lines_have_their_words(rt: HostRuntime) -> Result<(), Fail> {
    for (what, text, expected) in CASES {
        let found = shown(rt.alloc(), text)?;
        assert_eq!(rt; found.as_str(), expected, "{what}");
    }
    Ok(())
}
