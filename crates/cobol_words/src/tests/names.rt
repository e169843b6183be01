//! Names, and the lengths of names and numbers.

use super::shown;
use std::test::Fail;

const CASES: [(&str, &[u8], &str); 15] = [
    ("a name may begin with a digit", b"F1A 2B2", "1 1A; 1 2B2; "),
    (
        "digits and minus are no number",
        b"FA 5-3",
        "bad-character 1",
    ),
    ("digits and _ are no name", b"F5_3", "bad-character 1"),
    ("a name that ends with -", b"FA-", "bad-character 1"),
    ("a name that ends with _", b"FA_ B", "bad-character 1"),
    ("_ begins no word", b"F_A", "bad-character 1"),
    (
        "a name has at most 31 bytes",
        b"FA234567890123456789012345678901",
        "1 A234567890123456789012345678901; ",
    ),
    (
        "32 are too long",
        b"FA2345678901234567890123456789012",
        "long-word 1",
    ),
    (
        "too long before a bad end",
        b"FA234567890123456789012345678901-",
        "long-word 1",
    ),
    (
        "a long run without a letter is no long word",
        b"F1234567890123456789012345678901-2",
        "bad-character 1",
    ),
    (
        "a number has at most 18 digits",
        b"F123456789012345678",
        "1 #123456789012345678000000/18/0; ",
    ),
    ("19 are too many", b"F1234567890123456789", "long-number 1"),
    (
        "6 of them may follow the period",
        b"F123456789012.345678",
        "1 #123456789012345678/18/6; ",
    ),
    ("7 are too many", b"F1.2345678", "long-number 1"),
    (
        "13 and 6 are too many",
        b"F-1234567890123.456789",
        "long-number 1",
    ),
];

#[test]
fn lines_have_their_words(rt: HostRuntime) -> Result<(), Fail> {
    for (what, text, expected) in CASES {
        let found = shown(rt.alloc(), text)?;
        assert_eq!(rt; found.as_str(), expected, "{what}");
    }
    Ok(())
}
