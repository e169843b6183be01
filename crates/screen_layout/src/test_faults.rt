use crate::ScreenFault;
use crate::test_cases::{Case, Clause, Entry, Expected};
use cob_base::{Blanked, Figurative, Line, Position, ScreenMark};

pub const OPERANDS: &[Case] = &[
    Case {
        name: "FROM an item",
        entries: &[Entry(1, 1, &[Clause::Picture(b"X(5)"), Clause::From(b"A")])],
        expected: Expected::Places(&[(1, 1, 5)]),
    },
    Case {
        name: "FROM a text",
        entries: &[Entry(1, 1, &[Clause::Picture(b"X(7)"), Clause::FromText(b"AB")])],
        expected: Expected::Places(&[(1, 1, 7)]),
    },
    Case {
        name: "FROM ZERO into an edited picture",
        entries: &[Entry(
            1,
            1,
            &[
                Clause::Picture(b"ZZ9"),
                Clause::FromFigure(Figurative::Zero),
            ],
        )],
        expected: Expected::Places(&[(1, 1, 3)]),
    },
    Case {
        name: "FROM SPACE into a number",
        entries: &[Entry(
            1,
            1,
            &[
                Clause::Picture(b"999"),
                Clause::FromFigure(Figurative::Space),
            ],
        )],
        expected: Expected::Fault(ScreenFault::BadItem(Line(1))),
    },
    Case {
        name: "TO alone",
        entries: &[Entry(1, 1, &[Clause::Picture(b"9(3)"), Clause::To(b"N")])],
        expected: Expected::Places(&[(1, 1, 3)]),
    },
    Case {
        name: "USING",
        entries: &[Entry(1, 1, &[Clause::Picture(b"X(5)"), Clause::Using(b"A")])],
        expected: Expected::Places(&[(1, 1, 5)]),
    },
    Case {
        name: "a qualified name",
        entries: &[Entry(
            1,
            1,
            &[Clause::Picture(b"X"), Clause::FromOf(b"D", &[b"G"])],
        )],
        expected: Expected::Places(&[(1, 1, 1)]),
    },
    Case {
        name: "two items of a name",
        entries: &[Entry(1, 1, &[Clause::Picture(b"X"), Clause::From(b"D")])],
        expected: Expected::Fault(ScreenFault::BadItem(Line(1))),
    },
    Case {
        name: "no item of a name",
        entries: &[Entry(1, 1, &[Clause::Picture(b"X"), Clause::From(b"Q")])],
        expected: Expected::Fault(ScreenFault::BadItem(Line(1))),
    },
    Case {
        name: "an item of a table",
        entries: &[Entry(1, 1, &[Clause::Picture(b"X"), Clause::From(b"T")])],
        expected: Expected::Fault(ScreenFault::BadItem(Line(1))),
    },
    Case {
        name: "a subscript",
        entries: &[Entry(1, 1, &[Clause::Picture(b"X"), Clause::UsingSecond(b"A")])],
        expected: Expected::Fault(ScreenFault::BadItem(Line(1))),
    },
    Case {
        name: "decimals into a text",
        entries: &[Entry(1, 1, &[Clause::Picture(b"X(4)"), Clause::From(b"E")])],
        expected: Expected::Fault(ScreenFault::BadItem(Line(1))),
    },
];

pub const CLAUSES: &[Case] = &[
    Case {
        name: "PICTURE alone",
        entries: &[Entry(1, 1, &[Clause::Picture(b"X")])],
        expected: Expected::Fault(ScreenFault::BadItem(Line(1))),
    },
    Case {
        name: "FROM without PICTURE",
        entries: &[Entry(1, 1, &[Clause::From(b"A")])],
        expected: Expected::Fault(ScreenFault::BadItem(Line(1))),
    },
    Case {
        name: "VALUE with PICTURE",
        entries: &[Entry(
            1,
            1,
            &[
                Clause::Picture(b"X"),
                Clause::Value(b"A"),
                Clause::From(b"A"),
            ],
        )],
        expected: Expected::Fault(ScreenFault::BadItem(Line(1))),
    },
    Case {
        name: "USING with TO",
        entries: &[Entry(
            1,
            1,
            &[Clause::Picture(b"X"), Clause::Using(b"A"), Clause::To(b"A")],
        )],
        expected: Expected::Fault(ScreenFault::BadItem(Line(1))),
    },
    Case {
        name: "a signed picture",
        entries: &[Entry(1, 1, &[Clause::Picture(b"S9"), Clause::From(b"N")])],
        expected: Expected::Fault(ScreenFault::BadItem(Line(1))),
    },
    Case {
        name: "no picture",
        entries: &[Entry(1, 1, &[Clause::Picture(b"9."), Clause::From(b"N")])],
        expected: Expected::Fault(ScreenFault::BadItem(Line(1))),
    },
    Case {
        name: "HIGHLIGHT with LOWLIGHT",
        entries: &[Entry(
            1,
            1,
            &[
                Clause::Mark(ScreenMark::Highlight),
                Clause::Mark(ScreenMark::Lowlight),
            ],
        )],
        expected: Expected::Fault(ScreenFault::BadItem(Line(1))),
    },
    Case {
        name: "colour 8",
        entries: &[Entry(1, 1, &[Clause::Front(8)])],
        expected: Expected::Fault(ScreenFault::BadItem(Line(1))),
    },
    Case {
        name: "colour 7",
        entries: &[Entry(1, 1, &[Clause::Back(7)])],
        expected: Expected::Places(&[(1, 1, 0)]),
    },
    Case {
        name: "a mark twice",
        entries: &[Entry(
            1,
            1,
            &[
                Clause::Mark(ScreenMark::Blink),
                Clause::Mark(ScreenMark::Blink),
            ],
        )],
        expected: Expected::Fault(ScreenFault::BadItem(Line(1))),
    },
    Case {
        name: "BLANK twice",
        entries: &[Entry(
            1,
            1,
            &[Clause::Blank(Blanked::Screen), Clause::Blank(Blanked::Line)],
        )],
        expected: Expected::Fault(ScreenFault::BadItem(Line(1))),
    },
    Case {
        name: "VALUE on a group",
        entries: &[
            Entry(1, 1, &[Clause::Value(b"A")]),
            Entry(2, 5, &[Clause::Value(b"B")]),
        ],
        expected: Expected::Fault(ScreenFault::BadItem(Line(1))),
    },
];

pub const LEVELS_AND_ORDER: &[Case] = &[
    Case {
        name: "level 77",
        entries: &[Entry(1, 77, &[Clause::Value(b"A")])],
        expected: Expected::Fault(ScreenFault::BadItem(Line(1))),
    },
    Case {
        name: "05 at the start",
        entries: &[Entry(1, 5, &[Clause::Value(b"A")])],
        expected: Expected::Fault(ScreenFault::BadItem(Line(1))),
    },
    Case {
        name: "a level that returns to no group",
        entries: &[
            Entry(1, 1, &[]),
            Entry(2, 5, &[]),
            Entry(3, 10, &[Clause::Value(b"A")]),
            Entry(4, 7, &[Clause::Value(b"B")]),
        ],
        expected: Expected::Fault(ScreenFault::BadItem(Line(4))),
    },
    Case {
        name: "off the screen before a bad item in a line",
        entries: &[Entry(1, 1, &[Clause::Line(Position::At(25)), Clause::Front(8)])],
        expected: Expected::Fault(ScreenFault::OffScreen(Line(1))),
    },
    Case {
        name: "the earlier line",
        entries: &[
            Entry(1, 1, &[]),
            Entry(2, 5, &[Clause::Front(8)]),
            Entry(3, 5, &[Clause::Line(Position::At(25))]),
        ],
        expected: Expected::Fault(ScreenFault::BadItem(Line(2))),
    },
    Case {
        name: "no place behind a picture that is refused",
        entries: &[
            Entry(1, 1, &[]),
            Entry(1, 5, &[Clause::Picture(b"9."), Clause::From(b"N")]),
            Entry(1, 5, &[Clause::Value(b"A")]),
        ],
        expected: Expected::Fault(ScreenFault::BadItem(Line(1))),
    },
    Case {
        name: "a place by its own numbers behind one",
        entries: &[
            Entry(1, 1, &[]),
            Entry(1, 5, &[Clause::Picture(b"9."), Clause::From(b"N")]),
            Entry(1, 5, &[Clause::Column(Position::At(82))]),
        ],
        expected: Expected::Fault(ScreenFault::OffScreen(Line(1))),
    },
    Case {
        name: "a picture past its limits keeps its size",
        entries: &[Entry(
            1,
            1,
            &[
                Clause::Picture(b"9(19)"),
                Clause::From(b"N"),
                Clause::Column(Position::At(70)),
            ],
        )],
        expected: Expected::Fault(ScreenFault::OffScreen(Line(1))),
    },
];
