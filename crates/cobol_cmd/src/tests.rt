use crate::{cobol_plain, read_program};
use cob_base::{ByteText, NoMemory};
use outside_world::{Held, MemoryShelf, MemorySink};
use std::alloc::Global;
use std::process::Abort;
use std::test::Fail;

const HELLO: &[u8] = b"       >>SOURCE FORMAT IS FREE
IDENTIFICATION DIVISION.
PROGRAM-ID. HELLO.
DATA DIVISION.
SCREEN SECTION.
01 S.
   05 LINE 2 COLUMN 3 VALUE \"HELLO\".
PROCEDURE DIVISION.
DISPLAY S.
STOP RUN.
";

/// The heading of what HELLO prints, and its first two lines.
const HELLO_TOP: &[u8] = b"unit 1 stopped ticks 2 screens 1
screen 1 cursor 2 8
|                                                                                |
|  HELLO                                                                         |
|";

fn held(alloc: Global, name: &[u8], bytes: &[u8]) -> Result<Held, NoMemory> {
    Ok(Held {
        name: ByteText::from_bytes(alloc, name)?,
        bytes: Some(ByteText::from_bytes(alloc, bytes)?),
    })
}

/// What a call answered, and what the sink took.
#[derive(Drop)]
struct Outcome {
    status: u8,
    taken: Vec<u8>,
}

/// Does what the words ask for, over a shelf that holds HELLO.cob and another text.
fn done(
    alloc: Global,
    words: &[&str],
    other: &[u8],
    read_fails: &[u32],
    put_fails: &[u32],
    most: u32,
) -> Result<Outcome, NoMemory> {
    let mut files = Vec::new(alloc);
    files.push(held(alloc, b"HELLO.cob", HELLO)?)?;
    files.push(held(alloc, b"other.cob", other)?)?;
    let reads = Vec::from_slice(alloc, read_fails)?;
    let mut shelf = MemoryShelf::make(alloc, files, reads, Vec::new(alloc), 0, 0)?;
    let puts = Vec::from_slice(alloc, put_fails)?;
    let mut out = MemorySink::make(alloc, 4096, most.max(1), puts)?;
    let mut texts = Vec::new(alloc);
    for word in words {
        texts.push(String::from_str(alloc, *word)?)?;
    }
    let status = cobol_plain(alloc, texts.as_slice(), &mut shelf, &mut out);
    Ok(Outcome {
        status,
        taken: Vec::from_slice(alloc, out.bytes())?,
    })
}

/// Does what the words ask for, with no fault, and compares the answer.
fn expect<R: Abort>(
    rt: &R,
    alloc: Global,
    words: &[&str],
    other: &[u8],
    status: u8,
    taken: &[u8],
) -> Result<(), NoMemory> {
    let outcome = done(alloc, words, other, &[], &[], 4096)?;
    assert_eq!(rt; outcome.status, status, "{words:?}");
    assert_eq!(rt; outcome.taken.as_slice(), taken, "{words:?}");
    Ok(())
}

#[test]
fn a_small_program_is_shown(rt: HostRuntime) -> Result<(), Fail> {
    let outcome = done(rt.alloc(), &["show", "HELLO.cob"], b"", &[], &[], 7)?;
    assert_eq!(rt; outcome.status, 0);
    assert_eq!(rt; outcome.taken.len(), 2045);
    assert!(rt; outcome.taken.as_slice().starts_with(HELLO_TOP));
    assert!(rt; outcome.taken.as_slice().ends_with(b"|\n"));
    Ok(())
}

#[test]
fn words_of_no_shape_are_refused(rt: HostRuntime) -> Result<(), Fail> {
    let alloc = rt.alloc();
    let line = b"refused words\n";
    expect(&rt, alloc, &[], b"", 2, line)?;
    expect(&rt, alloc, &["show"], b"", 2, line)?;
    expect(&rt, alloc, &["SHOW", "HELLO.cob"], b"", 2, line)?;
    expect(&rt, alloc, &["show", ""], b"", 2, line)?;
    expect(&rt, alloc, &["show", "HELLO cob"], b"", 2, line)?;
    expect(
        &rt,
        alloc,
        &["show", "HELLO.cob", "HELLO.cob"],
        b"",
        2,
        line,
    )?;
    expect(&rt, alloc, &["--help"], b"", 2, line)?;
    Ok(())
}

#[test]
fn a_name_has_up_to_a_hundred_bytes(rt: HostRuntime) -> Result<(), Fail> {
    let alloc = rt.alloc();
    let name =
        "nnnnnnnnnnnnnnnnnnnnnnnnnnnnnnnnnnnnnnnnnnnnnnnnnnnnnnnnnnnnnnnnnnnnnnnnnnnnnnnnnnnnnnnnnnnnnnnnnnnn";
    let missing =
        b"missing nnnnnnnnnnnnnnnnnnnnnnnnnnnnnnnnnnnnnnnnnnnnnnnnnnnnnnnnnnnnnnnnnnnnnnnnnnnnnnnnnnnnnnnnnnnnnnnnnnnn\n";
    assert_eq!(rt; name.len(), 100);
    expect(&rt, alloc, &["show", name], b"", 5, missing)?;
    let longer =
        "nnnnnnnnnnnnnnnnnnnnnnnnnnnnnnnnnnnnnnnnnnnnnnnnnnnnnnnnnnnnnnnnnnnnnnnnnnnnnnnnnnnnnnnnnnnnnnnnnnnnn";
    expect(&rt, alloc, &["show", longer], b"", 2, b"refused words\n")?;
    Ok(())
}

#[test]
fn a_text_up_to_its_limit_is_read(rt: HostRuntime) -> Result<(), Fail> {
    let alloc = rt.alloc();
    let other = ["show", "other.cob"];
    let long = b"too long other.cob 1048576\n";
    let spaces = vec![in alloc; b' '; 1_048_577]?;
    expect(&rt, alloc, &other, spaces.as_slice(), 8, long)?;
    let entries = b"refused program other.cob entries 1\n";
    expect(&rt, alloc, &other, &spaces.as_slice()[1..], 3, entries)?;
    expect(&rt, alloc, &other, b"", 3, entries)?;
    Ok(())
}

/// Texts that are refused in their lines or words, with the end of the line that says so.
const REFUSED: [(&str, &str); 9] = [
    ("\t", "lines 1 bad-byte"),
    ("\n      X", "lines 2 bad-indicator"),
    (">>SOURCE FREEDOM", "lines 1 bad-directive"),
    ("\n\n       ?", "words 3 bad-character"),
    ("       \"AB", "words 1 open-literal"),
    (
        "       ABCDEFGHIJKLMNOPQRSTUVWXYZ-78901",
        "words 1 long-word",
    ),
    ("       1234567890123456789", "words 1 long-number"),
    (
        "       >>SOURCE FREE\n\"12345678901234567890123456789012345678901234567890123456789012345678901234567890123456789012345678901234567890123456789012345678901234567890123456789012345678901\"",
        "words 2 long-literal",
    ),
    ("      -A", "words 1 bad-continuation"),
];

#[test]
fn each_fault_of_lines_and_words_has_its_line(rt: HostRuntime) -> Result<(), Fail> {
    let alloc = rt.alloc();
    for (text, end) in &REFUSED {
        let line = format!(in alloc; "refused program other.cob {end}\n")?;
        expect(
            &rt,
            alloc,
            &["show", "other.cob"],
            text.as_bytes(),
            3,
            line.as_bytes(),
        )?;
    }
    Ok(())
}

/// Changes of one word of HELLO, with the top of the report, or none where the program is no longer small.
const CHANGED: [(&str, &str, Option<&str>); 9] = [
    (
        "SCREEN",
        "screen",
        Some("unit 1 stopped ticks 2 screens 1\nscreen 1 cursor 2 8\n"),
    ),
    (
        "01 S",
        "1 s",
        Some("unit 1 stopped ticks 2 screens 1\nscreen 1 cursor 2 8\n"),
    ),
    (
        "LINE 2",
        "LINE 24",
        Some("unit 1 stopped ticks 2 screens 1\nscreen 1 cursor 24 8\n"),
    ),
    ("LINE 2", "LINE 25", None),
    (
        "COLUMN 3",
        "COLUMN 76",
        Some("unit 1 stopped ticks 2 screens 1\nscreen 1 cursor 2 80\n"),
    ),
    ("COLUMN 3", "COLUMN 77", None),
    ("COLUMN 3", "COLUMN 3.0", None),
    ("DISPLAY S", "DISPLAY T", None),
    ("STOP RUN.", "STOP RUN. STOP RUN.", None),
];

#[test]
fn small_programs_go_by_their_words(rt: HostRuntime) -> Result<(), Fail> {
    let alloc = rt.alloc();
    let hello = String::from_utf8(HELLO.to_vec(alloc)?)?;
    for (old, new, top) in &CHANGED {
        let text = hello.replace(alloc, *old, *new)?;
        let outcome = done(
            alloc,
            &["show", "other.cob"],
            text.as_bytes(),
            &[],
            &[],
            4096,
        )?;
        match top {
            Some(top) => {
                assert_eq!(rt; outcome.status, 0, "{new}");
                assert!(rt;
                    outcome.taken.as_slice().starts_with(top.as_bytes()),
                    "{new}"
                );
            }
            None => assert_eq!(rt;
                outcome.taken.as_slice(),
                b"refused program other.cob entries 1\n".as_slice(),
                "{new}"
            ),
        }
    }
    Ok(())
}

/// Texts in free form, with what `check` puts for each.
const CHECKED: [(&str, &str); 13] = [
    (
        "IDENTIFICATION DIVISION.\nPROGRAM-ID. A.\nPROCEDURE DIVISION.\nSTOP RUN.",
        "in profile\n",
    ),
    (
        "id division. program-id. a. data division. working-storage section.\n01 x pic 9. procedure division. stop run.",
        "in profile\n",
    ),
    ("", "refused program other.cob entries 1\n"),
    (
        "ID DIVISION. PROGRAM-ID. A.\nPROCEDURE DIVISION.\nSTOP\nRUN",
        "refused program other.cob entries 5\n",
    ),
    (
        "ID DIVISION. PROGRAM-ID. A.\nPROCEDURE DIVISION.",
        "in profile\n",
    ),
    (
        "ID DIVISION. PROGRAM-ID. A.\nPROCEDURE DIVISION.\nSTOP RUN.\nEND PROGRAM A.\nSTOP RUN.",
        "refused program other.cob entries 6\n",
    ),
    (
        "ID DIVISION. PROGRAM-ID. A.\nDATA DIVISION.",
        "refused program other.cob entries 3\n",
    ),
    (
        "ID DIVISION. PROGRAM-ID. A.\nPROCEDURE DIVISION.\nP.\n  IF A = B MOVE C TO D\n  END-IF E.",
        "refused program other.cob entries 5\n",
    ),
    (
        "ID DIVISION. PROGRAM-ID. A.\nPROCEDURE DIVISION.\nCOMPUTE X = ((((((((((((((((((((((((((((((((((((((((((((((((((((((((((((1.",
        "refused program other.cob nesting 4\n",
    ),
    (
        "ID DIVISION. PROGRAM-ID. A.\nDATA DIVISION.\nWORKING-STORAGE SECTION.\n01 X PIC 9\n  OCCURS.\nPROCEDURE DIVISION. STOP RUN.",
        "refused program other.cob entries 5\n",
    ),
    (
        "ID DIVISION. PROGRAM-ID. A.\nDATA DIVISION.\nWORKING-STORAGE SECTION.\n01 X PIC Q.\nPROCEDURE DIVISION. STOP RUN.",
        "refused program other.cob profile 5 4\n",
    ),
    (
        "ID DIVISION. PROGRAM-ID. A.\nDATA DIVISION.\nWORKING-STORAGE SECTION.\n01 X PIC 9.\n01 Y PIC 9.\n01 x PIC 9.\nPROCEDURE DIVISION. STOP RUN.",
        "refused program other.cob profile 7 3\n",
    ),
    ("ID\n?", "refused program other.cob words 3 bad-character\n"),
];

#[test]
fn programs_are_checked(rt: HostRuntime) -> Result<(), Fail> {
    let alloc = rt.alloc();
    for (text, line) in &CHECKED {
        let whole = format!(in alloc; ">>SOURCE FREE\n{text}")?;
        let outcome = done(
            alloc,
            &["check", "other.cob"],
            whole.as_bytes(),
            &[],
            &[],
            4096,
        )?;
        assert_eq!(rt; outcome.taken.as_slice(), line.as_bytes(), "{text}");
    }
    let hello = done(alloc, &["check", "HELLO.cob"], b"", &[], &[], 4096)?;
    assert_eq!(rt; hello.taken.as_slice(), b"in profile\n".as_slice());
    Ok(())
}

#[test]
fn a_failed_read_or_output_is_told(rt: HostRuntime) -> Result<(), Fail> {
    let alloc = rt.alloc();
    let read = done(alloc, &["show", "HELLO.cob"], b"", &[1], &[], 4096)?;
    assert_eq!(rt; read.status, 6);
    assert_eq!(rt; read.taken.as_slice(), b"read fault HELLO.cob\n".as_slice());
    let cut = done(alloc, &["show", "HELLO.cob"], b"", &[], &[2], 40)?;
    assert_eq!(rt; cut.status, 7);
    assert_eq!(rt;
        cut.taken.as_slice(),
        b"unit 1 stopped ticks 2 screens 1\nscreen ".as_slice()
    );
    let line = done(alloc, &["show", "none"], b"", &[], &[2], 3)?;
    assert_eq!(rt; line.status, 5);
    assert_eq!(rt; line.taken.as_slice(), b"mis".as_slice());
    Ok(())
}

/// A file with three keys, of which the clauses name the later alternate first, and a screen with two items.
const DESK: &[u8] = b"       >>SOURCE FORMAT IS FREE
IDENTIFICATION DIVISION.
PROGRAM-ID. DESK.
ENVIRONMENT DIVISION.
INPUT-OUTPUT SECTION.
FILE-CONTROL.
    SELECT STOCK ASSIGN TO STOCK ORGANIZATION IS INDEXED
        RECORD KEY IS ST-ID
        ALTERNATE RECORD KEY IS ST-PLACE
        ALTERNATE RECORD KEY IS ST-NAME WITH DUPLICATES.
DATA DIVISION.
FILE SECTION.
FD STOCK.
01 ST-REC.
    05 ST-ID PIC X(4).
    05 ST-NAME PIC X(20).
    05 ST-PLACE PIC 9(3).
    05 ST-QTY PIC S9(5) SIGN IS LEADING SEPARATE.
WORKING-STORAGE SECTION.
77 WS-TAKE PIC 9(3).
SCREEN SECTION.
01 DESK-SCREEN.
    05 LINE 2 COLUMN 3 VALUE \"TAKE\".
    05 COLUMN PLUS 2 PIC ZZ9 USING WS-TAKE.
PROCEDURE DIVISION.
    DISPLAY DESK-SCREEN.
FIRST-PART.
    STOP RUN.
";

#[test]
fn a_checked_program_lends_its_parts(rt: HostRuntime) -> Result<(), Fail> {
    let checked = read_program(rt.alloc(), DESK)?;
    assert_eq!(rt; checked.program().paragraphs.as_slice().len(), 2);
    // 4, 20, 3, and 5 digits with a sign of their own; behind the record 3 bytes of working storage.
    assert_eq!(rt; checked.layout().total, 36);
    assert_eq!(rt; checked.layout().items.as_slice().len(), 6);
    let screens = checked.screens();
    assert_eq!(rt; screens.len(), 1);
    assert_eq!(rt; screens[0].name.as_bytes(), b"DESK-SCREEN".as_slice());
    assert_eq!(rt; screens[0].items.as_slice().len(), 2);
    let shapes = checked.shapes();
    assert_eq!(rt; shapes.len(), 1);
    assert_eq!(rt; shapes[0].length, 33);
    assert_eq!(rt; (shapes[0].prime.offset, shapes[0].prime.length), (0, 4));
    let alternates = shapes[0].alternates.as_slice();
    assert_eq!(rt; alternates.len(), 2);
    assert_eq!(rt;
        (
            alternates[0].offset,
            alternates[0].length,
            alternates[0].duplicates
        ),
        (4, 20, true)
    );
    assert_eq!(rt;
        (
            alternates[1].offset,
            alternates[1].length,
            alternates[1].duplicates
        ),
        (24, 3, false)
    );
    // The record's texts hold spaces and its numbers zeros, the last with its sign before them.
    let opening = checked.opening(rt.alloc())?;
    assert_eq!(rt;
        opening.as_bytes(),
        b"                        000+00000000".as_slice()
    );
    Ok(())
}
