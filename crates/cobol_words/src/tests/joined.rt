//! Lines joined on.

use super::shown;
use std::test::Fail;

const CASES: [(&str, &[u8], &str); 11] = [
    ("over three lines too", b"FM\n-O\n- VE\nFA", "1 MOVE; 4 A; "),
    (
        "a join makes one name of two",
        b"FPIC\n-X(3)",
        "1 PICX; 2 (; 2 #3000000/1/0; 2 ); ",
    ),
    (
        "a sign behind a join stands behind what was joined",
        b"FA\n--5\nFB =\n--5\nFC (\n--5",
        "1 A-5; 3 B; 3 =; 4 -; 4 #5000000/1/0; 5 C; 5 (; 6 #-5000000/1/0s; ",
    ),
    (
        "a comma before a join is before no line end",
        b"FA,\n-B",
        "bad-character 1",
    ),
    ("nor is a period", b"FA.\n-B", "bad-character 1"),
    (
        "a number over a join",
        b"F3\n-.5\nF3.\n-5\nF3.\nF5",
        "1 #3500000/2/1; 3 #3500000/2/1; 5 #3000000/1/0; 5 stop; 6 #5000000/1/0; ",
    ),
    ("a mark over a join", b"FA <\n-  = B", "1 A; 1 <=; 2 B; "),
    ("a comment over a join", b"FA *\n-> B\nFC", "1 A; 3 C; "),
    (
        "a comment before a join is a space",
        b"FMOV *> A\n-E -5",
        "1 MOV; 2 E; 2 #-5000000/1/0s; ",
    ),
    (
        "a picture",
        b"FPIC X(3). A\nFpicture is +9.99-, B",
        "1 PIC; 1 pic[X(3)]; 1 stop; 1 A; 2 picture; 2 is; 2 pic[+9.99-]; 2 B; ",
    ),
    (
        "a second IS is the picture",
        b"FPIC IS IS X",
        "1 PIC; 1 IS; 1 pic[IS]; 1 X; ",
    ),
];

#[test]
fn lines_have_their_words(rt: HostRuntime) -> Result<(), Fail> {
    for (what, text, expected) in CASES {
        let found = shown(rt.alloc(), text)?;
        assert_eq!(rt; found.as_str(), expected, "{what}");
    }
    Ok(())
}
