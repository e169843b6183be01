//! Lists of entries, worked out by hand from the rules of the language, and what they are.

/// What a list of entries is.
#[derive(Clone, Copy, Debug, PartialEq, Eq)]
pub enum Answer {
    /// It begins with a front of so many entries.
    Read(u32),
    /// The first entry that does not fit, or the last where more must follow.
    Stops(u32),
}

/// Entries, and what they are.
pub const FRONTS: [(&str, Answer); 44] = [
    (
        "ID DIVISION . PROGRAM-ID . P . PROCEDURE DIVISION .",
        Answer::Read(4),
    ),
    (
        "IDENTIFICATION DIVISION . PROGRAM-ID . P . PROCEDURE DIVISION .",
        Answer::Read(4),
    ),
    (
        "id division . Program-Id . p . procedure DIVISION .",
        Answer::Read(4),
    ),
    (
        "ID DIVISION . PROGRAM-ID . P . PROCEDURE DIVISION . WHAT EVER .",
        Answer::Read(4),
    ),
    ("", Answer::Stops(1)),
    ("ID DIVISION .", Answer::Stops(1)),
    ("ID DIVISION . PROGRAM-ID .", Answer::Stops(2)),
    ("ID DIVISION . PROGRAM-ID . P .", Answer::Stops(3)),
    ("PROGRAM-ID . P .", Answer::Stops(1)),
    ("ID DIVISION . P .", Answer::Stops(2)),
    ("ID DIVISION . PROGRAM-ID . PROGRAM-ID .", Answer::Stops(3)),
    ("ID SECTION .", Answer::Stops(1)),
    ("ID DIVISION X .", Answer::Stops(1)),
    (
        "ID DIVISION . PROGRAM-ID . P . ENVIRONMENT DIVISION . PROCEDURE DIVISION .",
        Answer::Read(5),
    ),
    (
        "ID DIVISION . PROGRAM-ID . P . ENVIRONMENT DIVISION .",
        Answer::Stops(4),
    ),
    (
        "ID DIVISION . PROGRAM-ID . P . ENVIRONMENT .",
        Answer::Stops(4),
    ),
    (
        "ID DIVISION . PROGRAM-ID . P . ENVIRONMENT DIVISION . CONFIGURATION SECTION . PROCEDURE DIVISION .",
        Answer::Read(6),
    ),
    (
        "ID DIVISION . PROGRAM-ID . P . ENVIRONMENT DIVISION . CONFIGURATION SECTION . SOURCE-COMPUTER . OBJECT-COMPUTER . SPECIAL-NAMES . PROCEDURE DIVISION .",
        Answer::Read(9),
    ),
    (
        "ID DIVISION . PROGRAM-ID . P . ENVIRONMENT DIVISION . CONFIGURATION SECTION . SOURCE-COMPUTER . X . OBJECT-COMPUTER . Y . PROCEDURE DIVISION .",
        Answer::Read(10),
    ),
    (
        "ID DIVISION . PROGRAM-ID . P . ENVIRONMENT DIVISION . CONFIGURATION SECTION . OBJECT-COMPUTER . SPECIAL-NAMES . CRT STATUS K . DATA DIVISION . PROCEDURE DIVISION .",
        Answer::Read(10),
    ),
    (
        "ID DIVISION . PROGRAM-ID . P . ENVIRONMENT DIVISION . CONFIGURATION SECTION . OBJECT-COMPUTER . SOURCE-COMPUTER .",
        Answer::Stops(7),
    ),
    (
        "ID DIVISION . PROGRAM-ID . P . ENVIRONMENT DIVISION . CONFIGURATION SECTION . SOURCE-COMPUTER . X . X .",
        Answer::Stops(8),
    ),
    (
        "ID DIVISION . PROGRAM-ID . P . ENVIRONMENT DIVISION . CONFIGURATION SECTION . SPECIAL-NAMES . CRT STATUS K . CRT STATUS K .",
        Answer::Stops(8),
    ),
    (
        "ID DIVISION . PROGRAM-ID . P . ENVIRONMENT DIVISION . INPUT-OUTPUT SECTION . PROCEDURE DIVISION .",
        Answer::Read(6),
    ),
    (
        "ID DIVISION . PROGRAM-ID . P . ENVIRONMENT DIVISION . INPUT-OUTPUT SECTION . FILE-CONTROL . PROCEDURE DIVISION .",
        Answer::Read(7),
    ),
    (
        "ID DIVISION . PROGRAM-ID . P . ENVIRONMENT DIVISION . INPUT-OUTPUT SECTION . FILE-CONTROL . SELECT F ASSIGN F . SELECT G ASSIGN G . PROCEDURE DIVISION .",
        Answer::Read(9),
    ),
    (
        "ID DIVISION . PROGRAM-ID . P . ENVIRONMENT DIVISION . INPUT-OUTPUT SECTION . CONFIGURATION SECTION .",
        Answer::Stops(6),
    ),
    (
        "ID DIVISION . PROGRAM-ID . P . ENVIRONMENT DIVISION . FILE-CONTROL .",
        Answer::Stops(5),
    ),
    (
        "ID DIVISION . PROGRAM-ID . P . DATA DIVISION . PROCEDURE DIVISION .",
        Answer::Read(5),
    ),
    (
        "ID DIVISION . PROGRAM-ID . P . DATA DIVISION . ENVIRONMENT DIVISION .",
        Answer::Stops(5),
    ),
    (
        "ID DIVISION . PROGRAM-ID . P . DATA DIVISION . FILE SECTION . PROCEDURE DIVISION .",
        Answer::Read(6),
    ),
    (
        "ID DIVISION . PROGRAM-ID . P . DATA DIVISION . FILE SECTION . FD F . 01 A . FD G . 01 B . 05 C . PROCEDURE DIVISION .",
        Answer::Read(11),
    ),
    (
        "ID DIVISION . PROGRAM-ID . P . DATA DIVISION . FILE SECTION . FD F . PROCEDURE DIVISION .",
        Answer::Stops(7),
    ),
    (
        "ID DIVISION . PROGRAM-ID . P . DATA DIVISION . FILE SECTION . FD F .",
        Answer::Stops(6),
    ),
    (
        "ID DIVISION . PROGRAM-ID . P . DATA DIVISION . FILE SECTION . FD F . FD G .",
        Answer::Stops(7),
    ),
    (
        "ID DIVISION . PROGRAM-ID . P . DATA DIVISION . FILE SECTION . FD F . 01 A . FD .",
        Answer::Stops(8),
    ),
    (
        "ID DIVISION . PROGRAM-ID . P . DATA DIVISION . FILE SECTION . FD F G . 01 A .",
        Answer::Stops(6),
    ),
    (
        "ID DIVISION . PROGRAM-ID . P . DATA DIVISION . FILE SECTION . 01 A .",
        Answer::Stops(6),
    ),
    (
        "ID DIVISION . PROGRAM-ID . P . DATA DIVISION . WORKING-STORAGE SECTION . SCREEN SECTION . PROCEDURE DIVISION .",
        Answer::Read(7),
    ),
    (
        "ID DIVISION . PROGRAM-ID . P . DATA DIVISION . WORKING-STORAGE SECTION . FILE SECTION .",
        Answer::Stops(6),
    ),
    (
        "ID DIVISION . PROGRAM-ID . P . DATA DIVISION . SCREEN SECTION . WORKING-STORAGE SECTION .",
        Answer::Stops(6),
    ),
    (
        "ID DIVISION . PROGRAM-ID . P . DATA DIVISION . WORKING-STORAGE SECTION . 01 A PIC . 01 B PIC .",
        Answer::Stops(6),
    ),
    (
        "ID DIVISION . PROGRAM-ID . P . DATA DIVISION . WORKING-STORAGE SECTION . 01 A . 01 B PIC . 01 C PIC .",
        Answer::Stops(7),
    ),
    (
        "ID DIVISION . PROGRAM-ID . P . ENVIRONMENT DIVISION . CONFIGURATION SECTION . SOURCE-COMPUTER . X . OBJECT-COMPUTER . Y . SPECIAL-NAMES . CRT STATUS K . INPUT-OUTPUT SECTION . FILE-CONTROL . SELECT F ASSIGN F . DATA DIVISION . FILE SECTION . FD F . 01 R . WORKING-STORAGE SECTION . 01 A . SCREEN SECTION . 01 S . PROCEDURE DIVISION .",
        Answer::Read(23),
    ),
];
