//! Texts with the lines that they have, or the fault, each worked out from the rules.

use crate::{TextFault, read_lines};
use cob_base::SourceLine;
use std::alloc::{AllocError, Global};
use std::test::Fail;

/// What a text shows, the text, and its lines: the number, the form, `-` for a continuation line, and the program text.
const CASES: [(&str, &[u8], &str); 40] = [
    ("an empty text has no lines", b"", ""),
    ("empty lines are blank", b"\n\n", ""),
    (
        "the last line ends at the text's end",
        b"       A",
        "1 fixed [A]\n",
    ),
    (
        "a line without text at the end",
        b"       A\n",
        "1 fixed [A]\n",
    ),
    (
        "a CR before LF falls away",
        b"       A\r\n       B\r\n",
        "1 fixed [A]\n2 fixed [B]\n",
    ),
    (
        "of two CRs before LF one stays",
        b"       A\r\r\n",
        "bad-byte 1",
    ),
    (
        "a CR at the text's end stays",
        b"       A\n       B\r",
        "bad-byte 2",
    ),
    ("a CR in a line stays", b"       A\rB\n", "bad-byte 1"),
    (
        "a sequence area counts for nothing",
        b"12AB56 A B \n",
        "1 fixed [A B ]\n",
    ),
    (
        "comment lines hold any bytes",
        b"      * \x00\n      / \x80\n      D \t\n12\t456d x\n       A\n",
        "5 fixed [A]\n",
    ),
    (
        "text that begins with *> is a comment line",
        b"         *> \t\n       A *> B\n",
        "2 fixed [A *> B]\n",
    ),
    (
        "a tab before *> makes it no comment line",
        b"       \t*> A\n",
        "bad-byte 1",
    ),
    (
        "a continuation line",
        b"       A\n      -   B\n",
        "1 fixed [A]\n2 fixed- [   B]\n",
    ),
    (
        "a continuation line may be a comment line",
        b"      -   *> A\n",
        "",
    ),
    ("a continuation line may be blank", b"      -    \n", ""),
    (
        "an indicator is one of six",
        b"       A\n      X B\n",
        "bad-indicator 2",
    ),
    (
        "the indicator of a blank line is judged",
        b"      X   \n",
        "bad-indicator 1",
    ),
    (
        "a short line is blank",
        b"A\nABCDEF\n       A\n",
        "3 fixed [A]\n",
    ),
    (
        "the bytes of a short line are judged",
        b"A\tC\n",
        "bad-byte 1",
    ),
    (
        "the bytes of a sequence area are judged",
        b"12\t456 A\n",
        "bad-byte 1",
    ),
    ("NUL is a bad byte", b"       A\x00\n", "bad-byte 1"),
    (
        "126 is the last good byte",
        b"       ~\n       \x7f\n",
        "bad-byte 2",
    ),
    (
        "columns past 72 are ignored",
        b"      -AAAAAAAAAABBBBBBBBBBCCCCCCCCCCDDDDDDDDDDEEEEEEEEEEFFFFFFFFFFGGGGG\t\x80\n",
        "1 fixed- [AAAAAAAAAABBBBBBBBBBCCCCCCCCCCDDDDDDDDDDEEEEEEEEEEFFFFFFFFFFGGGGG]\n",
    ),
    (
        "a directive changes the form from the next line on",
        b"       >>SOURCE FORMAT IS FREE\nA B\n",
        "2 free [A B]\n",
    ),
    (
        "its words in either case, and two of them may be absent",
        b">>source free\n A\n>>SOURCE Format FIXED\n       B\n >>Source is FREE\nC",
        "2 free [ A]\n4 fixed [B]\n6 free [C]\n",
    ),
    (
        "a directive behind a sequence area",
        b"123456 >>SOURCE FREE\nA\n",
        "2 free [A]\n",
    ),
    (
        "behind the indicator - it is none",
        b"      ->>SOURCE FREE\n",
        "1 fixed- [>>SOURCE FREE]\n",
    ),
    (
        "its >> stands side by side",
        b"       > >SOURCE FREE\n",
        "1 fixed [> >SOURCE FREE]\n",
    ),
    (
        "a directive's columns past 72 are ignored",
        b"       >>SOURCE    FREE                                                 .\nA\n",
        "2 free [A]\n",
    ),
    (
        "a text of directives alone",
        b">>SOURCE FREE\n>>SOURCE FIXED\n",
        "",
    ),
    (
        "in free form every line is text",
        b">>SOURCE FREE\n      * A\n      -\n *> B\n\n",
        "2 free [      * A]\n3 free [      -]\n",
    ),
    (
        "a free line has no end",
        b">>SOURCE FREE\n1234567 AAAAAAAAAABBBBBBBBBBCCCCCCCCCCDDDDDDDDDDEEEEEEEEEEFFFFFFFFFFGGGGGGGGGG\n",
        "2 free [1234567 AAAAAAAAAABBBBBBBBBBCCCCCCCCCCDDDDDDDDDDEEEEEEEEEEFFFFFFFFFFGGGGGGGGGG]\n",
    ),
    (
        "in free form bytes are judged",
        b">>SOURCE FREE\n*>\t\nA\tB\n",
        "bad-byte 3",
    ),
    (
        "a short line may be a directive",
        b"  >>X\n",
        "bad-directive 1",
    ),
    (
        "a directive of another word",
        b"       A\n       >>PAGE\n",
        "bad-directive 2",
    ),
    (
        "a directive with a space after >>",
        b">> SOURCE FREE\n",
        "bad-directive 1",
    ),
    (
        "bad directive before bad byte",
        b"12\t456 >>SOURCE FREE.\n",
        "bad-directive 1",
    ),
    (
        "a good directive with a bad byte",
        b"12\t456 >>SOURCE FREE\n",
        "bad-byte 1",
    ),
    (
        "bad indicator before bad byte",
        b"      X\tA\n",
        "bad-indicator 1",
    ),
    (
        "the first line at fault",
        b"       \t\n      X A\n>>X\n",
        "bad-byte 1",
    ),
];

/// Texts that are no directive's, behind `>>SOURCE`.
const BAD_ENDS: [&[u8]; 7] = [
    b"",
    b" FREE *> A",
    b" FREE FREE",
    b" IS FORMAT FREE",
    b" IS IS FREE",
    b"FREE",
    b" FRE\tE",
];

fn fault_text(alloc: Global, fault: TextFault) -> Result<String, AllocError> {
    match fault {
        TextFault::BadByte(line) => format!(in alloc; "bad-byte {}", line.0),
        TextFault::BadIndicator(line) => format!(in alloc; "bad-indicator {}", line.0),
        TextFault::BadDirective(line) => format!(in alloc; "bad-directive {}", line.0),
        TextFault::NoMemory => format!(in alloc; "no-memory"),
    }
}

fn line_text(alloc: Global, line: &SourceLine) -> Result<String, AllocError> {
    let form = if line.fixed { "fixed" } else { "free" };
    let joined = if line.continued { "-" } else { "" };
    let text = String::from_utf8_lossy(alloc, line.text.as_bytes())?;
    format!(in alloc; "{} {form}{joined} [{text}]\n", line.line.0)
}

fn shown(alloc: Global, text: &[u8]) -> Result<String, AllocError> {
    if text.len() > 1000 {
        return format!(in alloc; "too long");
    }
    match read_lines(alloc, text) {
        Err(fault) => fault_text(alloc, fault),
        Ok(lines) => {
            let mut all = String::new(alloc);
            for line in lines.as_slice() {
                let line = line_text(alloc, line)?;
                all.push_str(line.as_str())?;
            }
            Ok(all)
        }
    }
}

#[test]
fn texts_have_their_lines(rt: HostRuntime) -> Result<(), Fail> {
    for (what, text, expected) in CASES {
        let found = shown(rt.alloc(), text)?;
        assert_eq!(rt; found.as_str(), expected, "{what}");
    }
    Ok(())
}

#[test]
fn other_directives_are_refused(rt: HostRuntime) -> Result<(), Fail> {
    for end in BAD_ENDS {
        let mut text = Vec::from_slice(rt.alloc(), b"       >>SOURCE")?;
        text.extend_from_slice(end)?;
        let found = shown(rt.alloc(), text.as_slice())?;
        assert_eq!(rt; found.as_str(), "bad-directive 1");
    }
    Ok(())
}
