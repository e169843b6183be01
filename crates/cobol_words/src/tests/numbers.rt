//! Numbers and their signs.

use super::shown;
use std::test::Fail;

const CASES: [(&str, &[u8], &str); 13] = [
    (
        "numbers",
        b"F12 3.5 007.250000",
        "1 #12000000/2/0; 1 #3500000/2/1; 1 #7250000/9/6; ",
    ),
    (
        "a sign behind a space, ( or a line's start belongs to a number",
        b"F-5 +5.5 A -05\nF(-5",
        "1 #-5000000/1/0s; 1 #5500000/2/1s; 1 A; 1 #-5000000/2/0s; 2 (; 2 #-5000000/1/0s; ",
    ),
    (
        "elsewhere it is a mark",
        b"FA=-5 *+5",
        "1 A; 1 =; 1 -; 1 #5000000/1/0; 1 *; 1 +; 1 #5000000/1/0; ",
    ),
    (
        "before no digit it is a mark",
        b"F- 5 -A +(5",
        "1 -; 1 #5000000/1/0; 1 -; 1 A; 1 +; 1 (; 1 #5000000/1/0; ",
    ),
    (
        "before a name that begins with a digit too",
        b"F -5A",
        "1 -; 1 5A; ",
    ),
    ("two signs", b"F --5", "1 -; 1 -; 1 #5000000/1/0; "),
    ("a minus in a name", b"FB-5", "1 B-5; "),
    (
        "a number before a period",
        b"F5. 5.",
        "1 #5000000/1/0; 1 stop; 1 #5000000/1/0; 1 stop; ",
    ),
    (
        "a number before a period and a letter",
        b"F5.A",
        "bad-character 1",
    ),
    (
        "no blank is needed behind decimals",
        b"F3.5A 3.5-A",
        "1 #3500000/2/1; 1 A; 1 #3500000/2/1; 1 -; 1 A; ",
    ),
    ("a second period in a number", b"F1.2.3", "bad-character 1"),
    (
        "the period behind decimals",
        b"F1.2.",
        "1 #1200000/2/1; 1 stop; ",
    ),
    (
        "a signed number with decimals",
        b"F-1.25 X",
        "1 #-1250000/3/2s; 1 X; ",
    ),
];

#[test]
fn lines_have_their_words(rt: HostRuntime) -> Result<(), Fail> {
    for (what, text, expected) in CASES {
        let found = shown(rt.alloc(), text)?;
        assert_eq!(rt; found.as_str(), expected, "{what}");
    }
    Ok(())
}
