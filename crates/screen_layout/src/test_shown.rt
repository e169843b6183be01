use crate::test_cases::{Clause, Entry};
use cob_base::{Figurative, Position, ScreenMark};

/// What a case changes on a screen of points in a style of their own.
#[derive(Clone, Copy)]
pub enum Change {
    /// The cells from one number to another are blank.
    Blank(usize, usize),
    /// These bytes stand from a line and a column on, white on black without marks.
    Plain(u8, u8, &'static [u8]),
    /// These bytes stand there with marks, a front colour and a back colour.
    Styled(u8, u8, &'static [u8], (u8, u8, u8)),
}

/// The screens of a case are shown one after another.
#[derive(Clone, Copy)]
pub struct Showing {
    pub name: &'static str,
    pub entries: &'static [Entry],
    pub changed: &'static [Change],
    pub cursor: (u8, u8),
}

/// What items of storage show.
pub const ITEMS: &[Showing] = &[
    Showing {
        name: "a text",
        entries: &[Entry(
            1,
            1,
            &[
                Clause::Line(Position::At(2)),
                Clause::Column(Position::At(3)),
                Clause::Value(b"AB"),
            ],
        )],
        changed: &[Change::Plain(2, 3, b"AB")],
        cursor: (2, 5),
    },
    Showing {
        name: "bytes of a text that are not shown",
        entries: &[Entry(
            1,
            1,
            &[
                Clause::Line(Position::At(2)),
                Clause::Value(b"\x1f ~\x7f\xc8"),
            ],
        )],
        changed: &[Change::Plain(2, 1, b"? ~??")],
        cursor: (2, 6),
    },
    Showing {
        name: "an item in a longer picture",
        entries: &[Entry(
            1,
            1,
            &[
                Clause::Line(Position::At(3)),
                Clause::Picture(b"X(7)"),
                Clause::From(b"A"),
            ],
        )],
        changed: &[Change::Plain(3, 1, b"HELLO  ")],
        cursor: (3, 8),
    },
    Showing {
        name: "an item in a shorter picture",
        entries: &[Entry(
            1,
            1,
            &[
                Clause::Line(Position::At(3)),
                Clause::Picture(b"X(3)"),
                Clause::From(b"A"),
            ],
        )],
        changed: &[Change::Plain(3, 1, b"HEL")],
        cursor: (3, 4),
    },
    Showing {
        name: "an edited number",
        entries: &[Entry(
            1,
            1,
            &[
                Clause::Line(Position::At(3)),
                Clause::Picture(b"ZZ9"),
                Clause::From(b"N"),
            ],
        )],
        changed: &[Change::Plain(3, 1, b" 42")],
        cursor: (3, 4),
    },
    Showing {
        name: "a number as a text",
        entries: &[Entry(
            1,
            1,
            &[
                Clause::Line(Position::At(3)),
                Clause::Picture(b"X(5)"),
                Clause::From(b"N"),
            ],
        )],
        changed: &[Change::Plain(3, 1, b"042  ")],
        cursor: (3, 6),
    },
    Showing {
        name: "decimal places",
        entries: &[Entry(
            1,
            1,
            &[
                Clause::Line(Position::At(3)),
                Clause::Picture(b"Z9.99"),
                Clause::From(b"E"),
            ],
        )],
        changed: &[Change::Plain(3, 1, b" 1.50")],
        cursor: (3, 6),
    },
    Showing {
        name: "a negative number",
        entries: &[Entry(
            1,
            1,
            &[
                Clause::Line(Position::At(3)),
                Clause::Picture(b"-ZZ9"),
                Clause::From(b"M"),
            ],
        )],
        changed: &[Change::Plain(3, 1, b"- 42")],
        cursor: (3, 5),
    },
    Showing {
        name: "a negative number without its sign",
        entries: &[Entry(
            1,
            1,
            &[
                Clause::Line(Position::At(3)),
                Clause::Picture(b"9(3)"),
                Clause::From(b"M"),
            ],
        )],
        changed: &[Change::Plain(3, 1, b"042")],
        cursor: (3, 4),
    },
    Showing {
        name: "bytes of an item that are not shown",
        entries: &[Entry(
            1,
            1,
            &[
                Clause::Line(Position::At(3)),
                Clause::Picture(b"X(3)"),
                Clause::From(b"H"),
            ],
        )],
        changed: &[Change::Plain(3, 1, b"???")],
        cursor: (3, 4),
    },
    Showing {
        name: "a group",
        entries: &[Entry(
            1,
            1,
            &[
                Clause::Line(Position::At(3)),
                Clause::Picture(b"X(4)"),
                Clause::From(b"G"),
            ],
        )],
        changed: &[Change::Plain(3, 1, b"d15a")],
        cursor: (3, 5),
    },
    Showing {
        name: "a qualified item in other letters",
        entries: &[Entry(
            1,
            1,
            &[
                Clause::Line(Position::At(3)),
                Clause::Picture(b"X"),
                Clause::FromOf(b"d", &[b"g"]),
            ],
        )],
        changed: &[Change::Plain(3, 1, b"d")],
        cursor: (3, 2),
    },
];

/// What constants and fields show.
pub const CONSTANTS: &[Showing] = &[
    Showing {
        name: "FROM a text",
        entries: &[Entry(
            1,
            1,
            &[
                Clause::Line(Position::At(3)),
                Clause::Picture(b"X(4)"),
                Clause::FromText(b"AB"),
            ],
        )],
        changed: &[Change::Plain(3, 1, b"AB  ")],
        cursor: (3, 5),
    },
    Showing {
        name: "FROM a text of a digit",
        entries: &[Entry(
            1,
            1,
            &[
                Clause::Line(Position::At(3)),
                Clause::Picture(b"999"),
                Clause::FromText(b"7"),
            ],
        )],
        changed: &[Change::Plain(3, 1, b"007")],
        cursor: (3, 4),
    },
    Showing {
        name: "FROM a number",
        entries: &[Entry(
            1,
            1,
            &[
                Clause::Line(Position::At(3)),
                Clause::Picture(b"ZZ9.9"),
                Clause::FromNumber(12500000, 3, 1, false),
            ],
        )],
        changed: &[Change::Plain(3, 1, b" 12.5")],
        cursor: (3, 6),
    },
    Showing {
        name: "FROM a negative number",
        entries: &[Entry(
            1,
            1,
            &[
                Clause::Line(Position::At(3)),
                Clause::Picture(b"ZZ9-"),
                Clause::FromNumber(-3000000, 1, 0, true),
            ],
        )],
        changed: &[Change::Plain(3, 1, b"  3-")],
        cursor: (3, 5),
    },
    Showing {
        name: "FROM ZERO into a text",
        entries: &[Entry(
            1,
            1,
            &[
                Clause::Line(Position::At(3)),
                Clause::Picture(b"X(3)"),
                Clause::FromFigure(Figurative::Zero),
            ],
        )],
        changed: &[Change::Plain(3, 1, b"000")],
        cursor: (3, 4),
    },
    Showing {
        name: "FROM ZERO into suppressed digits",
        entries: &[Entry(
            1,
            1,
            &[
                Clause::Line(Position::At(3)),
                Clause::Picture(b"ZZZ"),
                Clause::FromFigure(Figurative::Zero),
            ],
        )],
        changed: &[Change::Plain(3, 1, b"   ")],
        cursor: (3, 4),
    },
    Showing {
        name: "FROM SPACE",
        entries: &[Entry(
            1,
            1,
            &[
                Clause::Line(Position::At(3)),
                Clause::Picture(b"A(2)"),
                Clause::FromFigure(Figurative::Space),
            ],
        )],
        changed: &[Change::Plain(3, 1, b"  ")],
        cursor: (3, 3),
    },
    Showing {
        name: "FROM HIGH-VALUE",
        entries: &[Entry(
            1,
            1,
            &[
                Clause::Line(Position::At(3)),
                Clause::Picture(b"X(2)"),
                Clause::FromFigure(Figurative::HighValue),
            ],
        )],
        changed: &[Change::Plain(3, 1, b"??")],
        cursor: (3, 3),
    },
    Showing {
        name: "TO alone",
        entries: &[Entry(
            1,
            1,
            &[
                Clause::Line(Position::At(3)),
                Clause::Picture(b"9(3)"),
                Clause::To(b"N"),
            ],
        )],
        changed: &[Change::Plain(3, 1, b"   ")],
        cursor: (3, 4),
    },
    Showing {
        name: "FROM with TO",
        entries: &[Entry(
            1,
            1,
            &[
                Clause::Line(Position::At(3)),
                Clause::Picture(b"X(3)"),
                Clause::FromText(b"ABC"),
                Clause::To(b"A"),
            ],
        )],
        changed: &[Change::Plain(3, 1, b"ABC")],
        cursor: (3, 4),
    },
    Showing {
        name: "USING",
        entries: &[Entry(
            1,
            1,
            &[
                Clause::Line(Position::At(3)),
                Clause::Picture(b"ZZ9"),
                Clause::Using(b"N"),
            ],
        )],
        changed: &[Change::Plain(3, 1, b" 42")],
        cursor: (3, 4),
    },
    Showing {
        name: "SECURE",
        entries: &[Entry(
            1,
            1,
            &[
                Clause::Line(Position::At(3)),
                Clause::Mark(ScreenMark::Secure),
                Clause::Mark(ScreenMark::Underline),
                Clause::Picture(b"X(5)"),
                Clause::Using(b"A"),
            ],
        )],
        changed: &[Change::Styled(3, 1, b"     ", (8, 7, 0))],
        cursor: (3, 6),
    },
];
