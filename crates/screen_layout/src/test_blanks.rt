use crate::test_cases::{Clause, Entry};
use crate::test_shown::{Change, Showing};
use cob_base::{Blanked, Erased, Position, ScreenMark};

/// What BLANK and ERASE of an item leave.
pub const BLANKS: &[Showing] = &[
    Showing {
        name: "BLANK SCREEN",
        entries: &[Entry(
            1,
            1,
            &[
                Clause::Line(Position::At(2)),
                Clause::Column(Position::At(3)),
                Clause::Blank(Blanked::Screen),
                Clause::Front(4),
                Clause::Value(b"AB"),
            ],
        )],
        changed: &[
            Change::Blank(0, 1919),
            Change::Styled(2, 3, b"AB", (0, 4, 0)),
        ],
        cursor: (2, 5),
    },
    Showing {
        name: "BLANK LINE",
        entries: &[Entry(
            1,
            1,
            &[
                Clause::Line(Position::At(2)),
                Clause::Column(Position::At(3)),
                Clause::Blank(Blanked::Line),
                Clause::Value(b"A"),
            ],
        )],
        changed: &[Change::Blank(80, 159), Change::Plain(2, 3, b"A")],
        cursor: (2, 4),
    },
    Showing {
        name: "ERASE EOL",
        entries: &[Entry(
            1,
            1,
            &[
                Clause::Line(Position::At(2)),
                Clause::Column(Position::At(5)),
                Clause::Erase(Erased::LineEnd),
                Clause::Back(1),
                Clause::Value(b"A"),
            ],
        )],
        changed: &[
            Change::Blank(84, 159),
            Change::Styled(2, 5, b"A", (0, 7, 1)),
        ],
        cursor: (2, 6),
    },
    Showing {
        name: "ERASE EOS",
        entries: &[Entry(
            1,
            1,
            &[
                Clause::Line(Position::At(2)),
                Clause::Column(Position::At(5)),
                Clause::Erase(Erased::ScreenEnd),
                Clause::Value(b"A"),
            ],
        )],
        changed: &[Change::Blank(84, 1919), Change::Plain(2, 5, b"A")],
        cursor: (2, 6),
    },
    Showing {
        name: "ERASE EOS at the last cell",
        entries: &[Entry(
            1,
            1,
            &[
                Clause::Line(Position::At(24)),
                Clause::Column(Position::At(80)),
                Clause::Erase(Erased::ScreenEnd),
                Clause::Value(b"A"),
            ],
        )],
        changed: &[Change::Plain(24, 80, b"A")],
        cursor: (24, 80),
    },
    Showing {
        name: "ERASE EOL at column 81",
        entries: &[Entry(
            1,
            1,
            &[
                Clause::Line(Position::At(2)),
                Clause::Column(Position::At(81)),
                Clause::Erase(Erased::LineEnd),
            ],
        )],
        changed: &[],
        cursor: (24, 7),
    },
    Showing {
        name: "ERASE EOS at column 81",
        entries: &[Entry(
            1,
            1,
            &[
                Clause::Line(Position::At(2)),
                Clause::Column(Position::At(81)),
                Clause::Erase(Erased::ScreenEnd),
            ],
        )],
        changed: &[Change::Blank(160, 1919)],
        cursor: (24, 7),
    },
    Showing {
        name: "ERASE EOS behind the last cell",
        entries: &[Entry(
            1,
            1,
            &[
                Clause::Line(Position::At(24)),
                Clause::Column(Position::At(81)),
                Clause::Erase(Erased::ScreenEnd),
            ],
        )],
        changed: &[],
        cursor: (24, 7),
    },
    Showing {
        name: "ERASE EOL without a size",
        entries: &[Entry(
            1,
            1,
            &[
                Clause::Line(Position::At(2)),
                Clause::Column(Position::At(3)),
                Clause::Erase(Erased::LineEnd),
            ],
        )],
        changed: &[Change::Blank(82, 159)],
        cursor: (24, 7),
    },
    Showing {
        name: "BLANK LINE with ERASE EOS",
        entries: &[Entry(
            1,
            1,
            &[
                Clause::Line(Position::At(2)),
                Clause::Column(Position::At(3)),
                Clause::Blank(Blanked::Line),
                Clause::Erase(Erased::ScreenEnd),
                Clause::Value(b"A"),
            ],
        )],
        changed: &[Change::Blank(80, 1919), Change::Plain(2, 3, b"A")],
        cursor: (2, 4),
    },
];

/// BLANK and ERASE of groups, and items one over another.
pub const GROUPS: &[Showing] = &[
    Showing {
        name: "BLANK SCREEN after an item",
        entries: &[
            Entry(1, 1, &[]),
            Entry(2, 5, &[Clause::Value(b"A")]),
            Entry(
                3,
                5,
                &[
                    Clause::Line(Position::At(3)),
                    Clause::Blank(Blanked::Screen),
                    Clause::Value(b"B"),
                ],
            ),
        ],
        changed: &[Change::Blank(0, 1919), Change::Plain(3, 1, b"B")],
        cursor: (3, 2),
    },
    Showing {
        name: "a group blanks before its first item alone",
        entries: &[
            Entry(1, 1, &[Clause::Blank(Blanked::Screen)]),
            Entry(2, 5, &[Clause::Value(b"A")]),
            Entry(3, 5, &[Clause::Value(b"B")]),
        ],
        changed: &[Change::Blank(0, 1919), Change::Plain(1, 1, b"AB")],
        cursor: (1, 3),
    },
    Showing {
        name: "the item's BLANK in place of the group's",
        entries: &[
            Entry(1, 1, &[Clause::Blank(Blanked::Screen)]),
            Entry(
                2,
                5,
                &[
                    Clause::Line(Position::At(2)),
                    Clause::Blank(Blanked::Line),
                    Clause::Value(b"A"),
                ],
            ),
        ],
        changed: &[Change::Blank(80, 159), Change::Plain(2, 1, b"A")],
        cursor: (2, 2),
    },
    Showing {
        name: "the inner group's BLANK",
        entries: &[
            Entry(1, 1, &[Clause::Blank(Blanked::Line)]),
            Entry(2, 5, &[Clause::Blank(Blanked::Screen)]),
            Entry(3, 10, &[Clause::Line(Position::At(2)), Clause::Value(b"A")]),
        ],
        changed: &[Change::Blank(0, 1919), Change::Plain(2, 1, b"A")],
        cursor: (2, 2),
    },
    Showing {
        name: "the item's ERASE in place of the group's",
        entries: &[
            Entry(1, 1, &[Clause::Erase(Erased::ScreenEnd)]),
            Entry(
                2,
                5,
                &[
                    Clause::Line(Position::At(2)),
                    Clause::Column(Position::At(3)),
                    Clause::Erase(Erased::LineEnd),
                    Clause::Value(b"A"),
                ],
            ),
        ],
        changed: &[Change::Blank(82, 159), Change::Plain(2, 3, b"A")],
        cursor: (2, 4),
    },
    Showing {
        name: "the group's BLANK with the item's ERASE",
        entries: &[
            Entry(1, 1, &[Clause::Blank(Blanked::Line)]),
            Entry(
                2,
                5,
                &[
                    Clause::Line(Position::At(2)),
                    Clause::Column(Position::At(3)),
                    Clause::Erase(Erased::LineEnd),
                    Clause::Value(b"A"),
                ],
            ),
        ],
        changed: &[Change::Blank(80, 159), Change::Plain(2, 3, b"A")],
        cursor: (2, 4),
    },
    Showing {
        name: "ERASE over what was shown",
        entries: &[
            Entry(1, 1, &[]),
            Entry(
                2,
                5,
                &[
                    Clause::Line(Position::At(2)),
                    Clause::Column(Position::At(9)),
                    Clause::Value(b"ABC"),
                ],
            ),
            Entry(
                3,
                5,
                &[
                    Clause::Line(Position::At(2)),
                    Clause::Column(Position::At(10)),
                    Clause::Erase(Erased::LineEnd),
                    Clause::Value(b"X"),
                ],
            ),
        ],
        changed: &[
            Change::Plain(2, 9, b"A"),
            Change::Blank(89, 159),
            Change::Plain(2, 10, b"X"),
        ],
        cursor: (2, 11),
    },
    Showing {
        name: "an item over another",
        entries: &[
            Entry(1, 1, &[]),
            Entry(
                2,
                5,
                &[Clause::Line(Position::At(2)), Clause::Value(b"ABCD")],
            ),
            Entry(
                3,
                5,
                &[
                    Clause::Line(Position::At(2)),
                    Clause::Column(Position::At(2)),
                    Clause::Value(b"XY"),
                ],
            ),
        ],
        changed: &[Change::Plain(2, 1, b"AXYD")],
        cursor: (2, 4),
    },
];

/// Where the cursor goes.
pub const CURSORS: &[Showing] = &[
    Showing {
        name: "column 80 behind column 79",
        entries: &[Entry(
            1,
            1,
            &[
                Clause::Line(Position::At(2)),
                Clause::Column(Position::At(78)),
                Clause::Value(b"AB"),
            ],
        )],
        changed: &[Change::Plain(2, 78, b"AB")],
        cursor: (2, 80),
    },
    Showing {
        name: "column 80 behind column 80",
        entries: &[Entry(
            1,
            1,
            &[
                Clause::Line(Position::At(2)),
                Clause::Column(Position::At(79)),
                Clause::Value(b"AB"),
            ],
        )],
        changed: &[Change::Plain(2, 79, b"AB")],
        cursor: (2, 80),
    },
    Showing {
        name: "a whole line",
        entries: &[Entry(
            1,
            1,
            &[
                Clause::Line(Position::At(7)),
                Clause::Value(
                    b"XXXXXXXXXXXXXXXXXXXXXXXXXXXXXXXXXXXXXXXXXXXXXXXXXXXXXXXXXXXXXXXXXXXXXXXXXXXXXXXX",
                ),
            ],
        )],
        changed: &[Change::Plain(
            7,
            1,
            b"XXXXXXXXXXXXXXXXXXXXXXXXXXXXXXXXXXXXXXXXXXXXXXXXXXXXXXXXXXXXXXXXXXXXXXXXXXXXXXXX",
        )],
        cursor: (7, 80),
    },
    Showing {
        name: "the last item has no size",
        entries: &[
            Entry(1, 1, &[]),
            Entry(2, 5, &[Clause::Line(Position::At(2)), Clause::Value(b"AB")]),
            Entry(3, 5, &[Clause::Line(Position::At(5))]),
        ],
        changed: &[Change::Plain(2, 1, b"AB")],
        cursor: (2, 3),
    },
    Showing {
        name: "no item has a size",
        entries: &[Entry(1, 1, &[Clause::Line(Position::At(5))])],
        changed: &[],
        cursor: (24, 7),
    },
    Showing {
        name: "the last item in order",
        entries: &[
            Entry(1, 1, &[]),
            Entry(2, 5, &[Clause::Line(Position::At(5)), Clause::Value(b"A")]),
            Entry(3, 5, &[Clause::Line(Position::At(2)), Clause::Value(b"B")]),
        ],
        changed: &[Change::Plain(5, 1, b"A"), Change::Plain(2, 1, b"B")],
        cursor: (2, 2),
    },
    Showing {
        name: "a hidden item",
        entries: &[
            Entry(1, 1, &[]),
            Entry(
                2,
                5,
                &[
                    Clause::Line(Position::At(5)),
                    Clause::Mark(ScreenMark::Secure),
                    Clause::Picture(b"X(5)"),
                    Clause::To(b"A"),
                ],
            ),
        ],
        changed: &[Change::Plain(5, 1, b"     ")],
        cursor: (5, 6),
    },
    Showing {
        name: "no entries",
        entries: &[],
        changed: &[],
        cursor: (24, 7),
    },
];
