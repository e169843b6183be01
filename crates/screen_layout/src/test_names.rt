use crate::ScreenFault;
use crate::test_cases::{Case, Clause, Entry, Expected};
use cob_base::{Line, Position, ScreenMark};

/// Which items references name, and whether they may be shown and filled.
pub const NAMES: &[Case] = &[
    Case {
        name: "a name in other letters",
        entries: &[Entry(1, 1, &[Clause::Picture(b"X(5)"), Clause::From(b"a")])],
        expected: Expected::Places(&[(1, 1, 5)]),
    },
    Case {
        name: "a group left out",
        entries: &[Entry(
            1,
            1,
            &[Clause::Picture(b"X"), Clause::FromOf(b"U", &[b"R"])],
        )],
        expected: Expected::Places(&[(1, 1, 1)]),
    },
    Case {
        name: "all groups",
        entries: &[Entry(
            1,
            1,
            &[Clause::Picture(b"X"), Clause::FromOf(b"U", &[b"s", b"r"])],
        )],
        expected: Expected::Places(&[(1, 1, 1)]),
    },
    Case {
        name: "groups in another order",
        entries: &[Entry(
            1,
            1,
            &[Clause::Picture(b"X"), Clause::FromOf(b"U", &[b"R", b"S"])],
        )],
        expected: Expected::Fault(ScreenFault::BadItem(Line(1))),
    },
    Case {
        name: "a group that is not around",
        entries: &[Entry(
            1,
            1,
            &[Clause::Picture(b"X(5)"), Clause::FromOf(b"A", &[b"G"])],
        )],
        expected: Expected::Fault(ScreenFault::BadItem(Line(1))),
    },
    Case {
        name: "two items of a name in other letters",
        entries: &[Entry(1, 1, &[Clause::Picture(b"X"), Clause::From(b"d")])],
        expected: Expected::Fault(ScreenFault::BadItem(Line(1))),
    },
    Case {
        name: "an item in a table",
        entries: &[Entry(1, 1, &[Clause::Picture(b"X"), Clause::From(b"Z")])],
        expected: Expected::Fault(ScreenFault::BadItem(Line(1))),
    },
    Case {
        name: "a table to fill",
        entries: &[Entry(1, 1, &[Clause::Picture(b"X"), Clause::To(b"Y")])],
        expected: Expected::Fault(ScreenFault::BadItem(Line(1))),
    },
    Case {
        name: "a group with a table inside",
        entries: &[Entry(1, 1, &[Clause::Picture(b"X(2)"), Clause::From(b"W")])],
        expected: Expected::Places(&[(1, 1, 2)]),
    },
    Case {
        name: "decimals to fill a text",
        entries: &[Entry(1, 1, &[Clause::Picture(b"9V9"), Clause::To(b"A")])],
        expected: Expected::Fault(ScreenFault::BadItem(Line(1))),
    },
    Case {
        name: "decimals to be shown as a text",
        entries: &[Entry(1, 1, &[Clause::Picture(b"X(4)"), Clause::Using(b"E")])],
        expected: Expected::Fault(ScreenFault::BadItem(Line(1))),
    },
    Case {
        name: "a text and a number, both ways",
        entries: &[Entry(1, 1, &[Clause::Picture(b"9(3)"), Clause::Using(b"A")])],
        expected: Expected::Places(&[(1, 1, 3)]),
    },
];

/// Clauses that go together, and those that do not.
pub const PAIRS: &[Case] = &[
    Case {
        name: "PICTURE on a group",
        entries: &[
            Entry(1, 1, &[Clause::Picture(b"X"), Clause::From(b"A")]),
            Entry(2, 5, &[Clause::Value(b"A")]),
        ],
        expected: Expected::Fault(ScreenFault::BadItem(Line(1))),
    },
    Case {
        name: "TO on a group",
        entries: &[
            Entry(1, 1, &[Clause::To(b"A")]),
            Entry(2, 5, &[Clause::Value(b"A")]),
        ],
        expected: Expected::Fault(ScreenFault::BadItem(Line(1))),
    },
    Case {
        name: "USING with FROM",
        entries: &[Entry(
            1,
            1,
            &[
                Clause::Picture(b"X"),
                Clause::Using(b"A"),
                Clause::From(b"A"),
            ],
        )],
        expected: Expected::Fault(ScreenFault::BadItem(Line(1))),
    },
    Case {
        name: "TO without PICTURE",
        entries: &[Entry(1, 1, &[Clause::To(b"A")])],
        expected: Expected::Fault(ScreenFault::BadItem(Line(1))),
    },
    Case {
        name: "LINE twice",
        entries: &[Entry(
            1,
            1,
            &[Clause::Line(Position::At(2)), Clause::Line(Position::At(2))],
        )],
        expected: Expected::Fault(ScreenFault::BadItem(Line(1))),
    },
    Case {
        name: "a colour twice",
        entries: &[Entry(1, 1, &[Clause::Front(1), Clause::Front(2)])],
        expected: Expected::Fault(ScreenFault::BadItem(Line(1))),
    },
    Case {
        name: "both colours and both kinds of marks",
        entries: &[Entry(
            1,
            1,
            &[
                Clause::Front(1),
                Clause::Back(2),
                Clause::Mark(ScreenMark::Blink),
                Clause::Mark(ScreenMark::Auto),
            ],
        )],
        expected: Expected::Places(&[(1, 1, 0)]),
    },
    Case {
        name: "HIGHLIGHT with LOWLIGHT on a group",
        entries: &[
            Entry(
                1,
                1,
                &[
                    Clause::Mark(ScreenMark::Highlight),
                    Clause::Mark(ScreenMark::Lowlight),
                ],
            ),
            Entry(2, 5, &[Clause::Value(b"A")]),
        ],
        expected: Expected::Fault(ScreenFault::BadItem(Line(1))),
    },
    Case {
        name: "a colour past 7 on a group",
        entries: &[
            Entry(1, 1, &[Clause::Back(8)]),
            Entry(2, 5, &[Clause::Value(b"A")]),
        ],
        expected: Expected::Fault(ScreenFault::BadItem(Line(1))),
    },
    Case {
        name: "the first of two clauses counts",
        entries: &[
            Entry(1, 1, &[]),
            Entry(
                2,
                5,
                &[
                    Clause::Column(Position::At(5)),
                    Clause::Column(Position::At(99)),
                    Clause::Value(b"A"),
                ],
            ),
            Entry(3, 5, &[Clause::Column(Position::At(82))]),
        ],
        expected: Expected::Fault(ScreenFault::BadItem(Line(2))),
    },
];

/// Clauses of groups that count on their first item.
pub const GROUPED: &[Case] = &[
    Case {
        name: "a group's PLUS",
        entries: &[
            Entry(1, 1, &[]),
            Entry(
                2,
                5,
                &[
                    Clause::Line(Position::At(3)),
                    Clause::Column(Position::At(5)),
                    Clause::Value(b"AB"),
                ],
            ),
            Entry(3, 5, &[Clause::Line(Position::Plus(2))]),
            Entry(4, 10, &[Clause::Value(b"C")]),
            Entry(5, 10, &[Clause::Value(b"D")]),
        ],
        expected: Expected::Places(&[(3, 5, 2), (5, 1, 1), (5, 2, 1)]),
    },
    Case {
        name: "LINE of the group with COLUMN of the item",
        entries: &[
            Entry(1, 1, &[]),
            Entry(2, 5, &[Clause::Line(Position::At(4))]),
            Entry(
                3,
                10,
                &[Clause::Column(Position::At(9)), Clause::Value(b"A")],
            ),
            Entry(4, 10, &[Clause::Value(b"B")]),
        ],
        expected: Expected::Places(&[(4, 9, 1), (4, 10, 1)]),
    },
    Case {
        name: "a group after an item",
        entries: &[
            Entry(1, 1, &[Clause::Line(Position::At(2))]),
            Entry(2, 5, &[Clause::Value(b"A")]),
            Entry(3, 5, &[Clause::Column(Position::At(10))]),
            Entry(4, 10, &[Clause::Value(b"B")]),
            Entry(5, 10, &[Clause::Value(b"C")]),
        ],
        expected: Expected::Places(&[(2, 1, 1), (2, 10, 1), (2, 11, 1)]),
    },
    Case {
        name: "a group's MINUS with a first item without a size",
        entries: &[
            Entry(1, 1, &[]),
            Entry(
                2,
                5,
                &[
                    Clause::Line(Position::At(9)),
                    Clause::Column(Position::At(9)),
                    Clause::Value(b"A"),
                ],
            ),
            Entry(
                3,
                5,
                &[
                    Clause::Line(Position::Minus(4)),
                    Clause::Column(Position::Minus(3)),
                ],
            ),
            Entry(4, 10, &[]),
            Entry(5, 10, &[Clause::Value(b"B")]),
        ],
        expected: Expected::Places(&[(9, 9, 1), (5, 6, 0), (5, 6, 1)]),
    },
    Case {
        name: "three groups deep",
        entries: &[
            Entry(1, 1, &[Clause::Line(Position::At(7))]),
            Entry(2, 3, &[Clause::Column(Position::At(30))]),
            Entry(3, 5, &[Clause::Line(Position::At(8))]),
            Entry(4, 7, &[Clause::Value(b"A")]),
            Entry(5, 7, &[Clause::Value(b"B")]),
            Entry(6, 3, &[Clause::Value(b"C")]),
        ],
        expected: Expected::Places(&[(8, 30, 1), (8, 31, 1), (8, 32, 1)]),
    },
    Case {
        name: "the second screen's group",
        entries: &[
            Entry(1, 1, &[Clause::Line(Position::At(7))]),
            Entry(2, 5, &[Clause::Value(b"A")]),
            Entry(3, 1, &[Clause::Column(Position::At(4))]),
            Entry(4, 5, &[Clause::Value(b"B")]),
        ],
        expected: Expected::Places(&[(7, 1, 1), (1, 4, 1)]),
    },
];

/// The screen's bounds.
pub const BOUNDS: &[Case] = &[
    Case {
        name: "80 bytes",
        entries: &[Entry(
            1,
            1,
            &[Clause::Value(
                b"XXXXXXXXXXXXXXXXXXXXXXXXXXXXXXXXXXXXXXXXXXXXXXXXXXXXXXXXXXXXXXXXXXXXXXXXXXXXXXXX",
            )],
        )],
        expected: Expected::Places(&[(1, 1, 80)]),
    },
    Case {
        name: "81 bytes",
        entries: &[Entry(
            1,
            1,
            &[Clause::Value(
                b"XXXXXXXXXXXXXXXXXXXXXXXXXXXXXXXXXXXXXXXXXXXXXXXXXXXXXXXXXXXXXXXXXXXXXXXXXXXXXXXXX",
            )],
        )],
        expected: Expected::Fault(ScreenFault::OffScreen(Line(1))),
    },
    Case {
        name: "a picture of 80",
        entries: &[Entry(1, 1, &[Clause::Picture(b"X(80)"), Clause::From(b"A")])],
        expected: Expected::Places(&[(1, 1, 80)]),
    },
    Case {
        name: "a picture of 81",
        entries: &[Entry(1, 1, &[Clause::Picture(b"X(81)"), Clause::From(b"A")])],
        expected: Expected::Fault(ScreenFault::OffScreen(Line(1))),
    },
    Case {
        name: "right after column 80",
        entries: &[
            Entry(1, 1, &[]),
            Entry(
                2,
                5,
                &[Clause::Column(Position::At(80)), Clause::Value(b"A")],
            ),
            Entry(3, 5, &[Clause::Value(b"B")]),
        ],
        expected: Expected::Fault(ScreenFault::OffScreen(Line(3))),
    },
    Case {
        name: "right after column 80 without a size",
        entries: &[
            Entry(1, 1, &[]),
            Entry(
                2,
                5,
                &[Clause::Column(Position::At(80)), Clause::Value(b"A")],
            ),
            Entry(3, 5, &[]),
        ],
        expected: Expected::Places(&[(1, 80, 1), (1, 81, 0)]),
    },
    Case {
        name: "line 24",
        entries: &[Entry(1, 1, &[Clause::Line(Position::At(24)), Clause::Value(b"A")])],
        expected: Expected::Places(&[(24, 1, 1)]),
    },
    Case {
        name: "line 25 by PLUS",
        entries: &[Entry(
            1,
            1,
            &[Clause::Line(Position::Plus(24)), Clause::Value(b"A")],
        )],
        expected: Expected::Fault(ScreenFault::OffScreen(Line(1))),
    },
    Case {
        name: "line 24 by PLUS",
        entries: &[Entry(
            1,
            1,
            &[Clause::Line(Position::Plus(23)), Clause::Value(b"A")],
        )],
        expected: Expected::Places(&[(24, 1, 1)]),
    },
    Case {
        name: "MINUS 0",
        entries: &[
            Entry(1, 1, &[]),
            Entry(
                2,
                5,
                &[
                    Clause::Line(Position::At(5)),
                    Clause::Column(Position::At(5)),
                    Clause::Value(b"A"),
                ],
            ),
            Entry(
                3,
                5,
                &[
                    Clause::Line(Position::Minus(0)),
                    Clause::Column(Position::Minus(0)),
                    Clause::Value(b"B"),
                ],
            ),
        ],
        expected: Expected::Places(&[(5, 5, 1), (5, 5, 1)]),
    },
    Case {
        name: "PLUS past every number",
        entries: &[Entry(
            1,
            1,
            &[
                Clause::Line(Position::Plus(18446744073709551615)),
                Clause::Column(Position::Plus(18446744073709551615)),
                Clause::Value(b"A"),
            ],
        )],
        expected: Expected::Fault(ScreenFault::OffScreen(Line(1))),
    },
    Case {
        name: "MINUS past every number",
        entries: &[Entry(
            1,
            1,
            &[
                Clause::Column(Position::Minus(18446744073709551615)),
                Clause::Value(b"A"),
            ],
        )],
        expected: Expected::Fault(ScreenFault::OffScreen(Line(1))),
    },
];
