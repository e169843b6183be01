use crate::ScreenFault;
use cob_base::{Blanked, Erased, Figurative, Line, Position, ScreenMark};

/// A clause of a case.
#[derive(Clone, Copy)]
pub enum Clause {
    Line(Position),
    Column(Position),
    Value(&'static [u8]),
    Picture(&'static [u8]),
    From(&'static [u8]),
    /// The item and groups around it, from the inside out.
    FromOf(&'static [u8], &'static [&'static [u8]]),
    FromText(&'static [u8]),
    FromFigure(Figurative),
    /// A number by its millionths, how many digits it has, how many of them after the point, and whether it has a sign.
    FromNumber(i64, u8, u8, bool),
    To(&'static [u8]),
    Using(&'static [u8]),
    /// With the subscript 2.
    UsingSecond(&'static [u8]),
    Mark(ScreenMark),
    Front(u64),
    Back(u64),
    Blank(Blanked),
    Erase(Erased),
}

/// An entry of a case: its line, its level and its clauses.
#[derive(Clone, Copy)]
pub struct Entry(pub u32, pub u8, pub &'static [Clause]);

/// What a case gives: the line, column and size of each item, or a fault.
#[derive(Clone, Copy)]
pub enum Expected {
    Places(&'static [(u8, u8, u8)]),
    Fault(ScreenFault),
}

#[derive(Clone, Copy)]
pub struct Case {
    pub name: &'static str,
    pub entries: &'static [Entry],
    pub expected: Expected,
}

pub const PLACES: &[Case] = &[
    Case {
        name: "a text at the start",
        entries: &[Entry(1, 1, &[Clause::Value(b"AB")])],
        expected: Expected::Places(&[(1, 1, 2)]),
    },
    Case {
        name: "a line and a column",
        entries: &[Entry(
            1,
            1,
            &[
                Clause::Line(Position::At(3)),
                Clause::Column(Position::At(5)),
                Clause::Value(b"AB"),
            ],
        )],
        expected: Expected::Places(&[(3, 5, 2)]),
    },
    Case {
        name: "a line alone begins at column 1",
        entries: &[
            Entry(1, 1, &[]),
            Entry(
                2,
                5,
                &[Clause::Column(Position::At(9)), Clause::Value(b"A")],
            ),
            Entry(3, 5, &[Clause::Line(Position::At(2)), Clause::Value(b"B")]),
        ],
        expected: Expected::Places(&[(1, 9, 1), (2, 1, 1)]),
    },
    Case {
        name: "right after",
        entries: &[
            Entry(1, 1, &[]),
            Entry(
                2,
                5,
                &[
                    Clause::Line(Position::At(2)),
                    Clause::Column(Position::At(3)),
                    Clause::Value(b"ABC"),
                ],
            ),
            Entry(3, 5, &[Clause::Value(b"D")]),
        ],
        expected: Expected::Places(&[(2, 3, 3), (2, 6, 1)]),
    },
    Case {
        name: "plus counts from the last column",
        entries: &[
            Entry(1, 1, &[]),
            Entry(
                2,
                5,
                &[Clause::Column(Position::At(3)), Clause::Value(b"AB")],
            ),
            Entry(
                3,
                5,
                &[Clause::Column(Position::Plus(1)), Clause::Value(b"C")],
            ),
            Entry(
                4,
                5,
                &[Clause::Column(Position::Plus(3)), Clause::Value(b"D")],
            ),
        ],
        expected: Expected::Places(&[(1, 3, 2), (1, 5, 1), (1, 8, 1)]),
    },
    Case {
        name: "minus",
        entries: &[
            Entry(1, 1, &[]),
            Entry(
                2,
                5,
                &[
                    Clause::Line(Position::At(5)),
                    Clause::Column(Position::At(9)),
                    Clause::Value(b"A"),
                ],
            ),
            Entry(
                3,
                5,
                &[
                    Clause::Line(Position::Minus(2)),
                    Clause::Column(Position::Minus(4)),
                    Clause::Value(b"B"),
                ],
            ),
        ],
        expected: Expected::Places(&[(5, 9, 1), (3, 5, 1)]),
    },
    Case {
        name: "plus on a line, with the column from the item before",
        entries: &[
            Entry(1, 1, &[]),
            Entry(
                2,
                5,
                &[
                    Clause::Line(Position::At(5)),
                    Clause::Column(Position::At(9)),
                    Clause::Value(b"AB"),
                ],
            ),
            Entry(
                3,
                5,
                &[
                    Clause::Line(Position::Plus(1)),
                    Clause::Column(Position::Plus(1)),
                    Clause::Value(b"C"),
                ],
            ),
        ],
        expected: Expected::Places(&[(5, 9, 2), (6, 11, 1)]),
    },
    Case {
        name: "an item without a size ends before its column",
        entries: &[
            Entry(1, 1, &[]),
            Entry(
                2,
                5,
                &[
                    Clause::Line(Position::At(2)),
                    Clause::Column(Position::At(7)),
                ],
            ),
            Entry(3, 5, &[Clause::Value(b"A")]),
        ],
        expected: Expected::Places(&[(2, 7, 0), (2, 7, 1)]),
    },
    Case {
        name: "the first item by plus",
        entries: &[
            Entry(1, 1, &[]),
            Entry(
                2,
                5,
                &[
                    Clause::Line(Position::Plus(2)),
                    Clause::Column(Position::Plus(4)),
                    Clause::Value(b"A"),
                ],
            ),
        ],
        expected: Expected::Places(&[(3, 4, 1)]),
    },
    Case {
        name: "a group's place counts on its first item",
        entries: &[
            Entry(1, 1, &[]),
            Entry(
                2,
                5,
                &[
                    Clause::Line(Position::At(4)),
                    Clause::Column(Position::At(6)),
                ],
            ),
            Entry(3, 10, &[Clause::Value(b"A")]),
            Entry(4, 10, &[Clause::Value(b"B")]),
        ],
        expected: Expected::Places(&[(4, 6, 1), (4, 7, 1)]),
    },
    Case {
        name: "the innermost group first",
        entries: &[
            Entry(
                1,
                1,
                &[
                    Clause::Line(Position::At(2)),
                    Clause::Column(Position::At(2)),
                ],
            ),
            Entry(2, 5, &[Clause::Line(Position::At(4))]),
            Entry(3, 10, &[Clause::Value(b"A")]),
            Entry(4, 10, &[Clause::Value(b"B")]),
        ],
        expected: Expected::Places(&[(4, 2, 1), (4, 3, 1)]),
    },
    Case {
        name: "an item's own place first",
        entries: &[
            Entry(
                1,
                1,
                &[
                    Clause::Line(Position::At(2)),
                    Clause::Column(Position::At(2)),
                ],
            ),
            Entry(
                2,
                5,
                &[Clause::Column(Position::At(9)), Clause::Value(b"A")],
            ),
        ],
        expected: Expected::Places(&[(2, 9, 1)]),
    },
    Case {
        name: "two screens begin anew",
        entries: &[
            Entry(1, 1, &[Clause::Line(Position::At(9)), Clause::Value(b"A")]),
            Entry(2, 1, &[Clause::Value(b"B")]),
        ],
        expected: Expected::Places(&[(9, 1, 1), (1, 1, 1)]),
    },
    Case {
        name: "ends at column 80",
        entries: &[Entry(
            1,
            1,
            &[Clause::Column(Position::At(79)), Clause::Value(b"AB")],
        )],
        expected: Expected::Places(&[(1, 79, 2)]),
    },
];

pub const EDGES: &[Case] = &[
    Case {
        name: "ends at column 81",
        entries: &[Entry(
            1,
            1,
            &[Clause::Column(Position::At(80)), Clause::Value(b"AB")],
        )],
        expected: Expected::Fault(ScreenFault::OffScreen(Line(1))),
    },
    Case {
        name: "column 81 without a size",
        entries: &[Entry(1, 1, &[Clause::Column(Position::At(81))])],
        expected: Expected::Places(&[(1, 81, 0)]),
    },
    Case {
        name: "column 82",
        entries: &[Entry(1, 1, &[Clause::Column(Position::At(82))])],
        expected: Expected::Fault(ScreenFault::OffScreen(Line(1))),
    },
    Case {
        name: "column 81 with a size",
        entries: &[Entry(
            1,
            1,
            &[Clause::Column(Position::At(81)), Clause::Value(b"A")],
        )],
        expected: Expected::Fault(ScreenFault::OffScreen(Line(1))),
    },
    Case {
        name: "column 0",
        entries: &[Entry(1, 1, &[Clause::Column(Position::At(0))])],
        expected: Expected::Fault(ScreenFault::OffScreen(Line(1))),
    },
    Case {
        name: "line 25",
        entries: &[Entry(1, 1, &[Clause::Line(Position::At(25))])],
        expected: Expected::Fault(ScreenFault::OffScreen(Line(1))),
    },
    Case {
        name: "line 0 by minus",
        entries: &[Entry(1, 1, &[Clause::Line(Position::Minus(1))])],
        expected: Expected::Fault(ScreenFault::OffScreen(Line(1))),
    },
    Case {
        name: "a group's line counts at the item",
        entries: &[
            Entry(1, 1, &[Clause::Line(Position::At(25))]),
            Entry(2, 5, &[Clause::Value(b"A")]),
        ],
        expected: Expected::Fault(ScreenFault::OffScreen(Line(2))),
    },
];
