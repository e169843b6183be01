use crate::test_cases::{Clause, Entry};
use crate::test_shown::{Change, Showing};
use cob_base::{Position, ScreenMark};

/// Marks and colours of groups and items.
pub const STYLES: &[Showing] = &[
    Showing {
        name: "a mark on a group",
        entries: &[
            Entry(1, 1, &[Clause::Mark(ScreenMark::Highlight)]),
            Entry(2, 5, &[Clause::Value(b"A")]),
        ],
        changed: &[Change::Styled(1, 1, b"A", (1, 7, 0))],
        cursor: (1, 2),
    },
    Showing {
        name: "LOWLIGHT in HIGHLIGHT",
        entries: &[
            Entry(1, 1, &[Clause::Mark(ScreenMark::Highlight)]),
            Entry(
                2,
                5,
                &[Clause::Mark(ScreenMark::Lowlight), Clause::Value(b"A")],
            ),
        ],
        changed: &[Change::Styled(1, 1, b"A", (2, 7, 0))],
        cursor: (1, 2),
    },
    Showing {
        name: "HIGHLIGHT in LOWLIGHT",
        entries: &[
            Entry(1, 1, &[Clause::Mark(ScreenMark::Lowlight)]),
            Entry(
                2,
                5,
                &[Clause::Mark(ScreenMark::Highlight), Clause::Value(b"A")],
            ),
        ],
        changed: &[Change::Styled(1, 1, b"A", (1, 7, 0))],
        cursor: (1, 2),
    },
    Showing {
        name: "one in the other in the one",
        entries: &[
            Entry(1, 1, &[Clause::Mark(ScreenMark::Highlight)]),
            Entry(2, 5, &[Clause::Mark(ScreenMark::Lowlight)]),
            Entry(
                3,
                10,
                &[Clause::Mark(ScreenMark::Highlight), Clause::Value(b"A")],
            ),
            Entry(4, 10, &[Clause::Value(b"B")]),
        ],
        changed: &[
            Change::Styled(1, 1, b"A", (1, 7, 0)),
            Change::Styled(1, 2, b"B", (2, 7, 0)),
        ],
        cursor: (1, 3),
    },
    Showing {
        name: "marks add up",
        entries: &[
            Entry(1, 1, &[Clause::Mark(ScreenMark::ReverseVideo)]),
            Entry(2, 5, &[Clause::Mark(ScreenMark::Underline)]),
            Entry(
                3,
                10,
                &[Clause::Mark(ScreenMark::Blink), Clause::Value(b"A")],
            ),
        ],
        changed: &[Change::Styled(1, 1, b"A", (28, 7, 0))],
        cursor: (1, 2),
    },
    Showing {
        name: "marks end with their group",
        entries: &[
            Entry(1, 1, &[]),
            Entry(2, 5, &[Clause::Mark(ScreenMark::Blink)]),
            Entry(3, 10, &[Clause::Value(b"A")]),
            Entry(4, 5, &[Clause::Value(b"B")]),
        ],
        changed: &[
            Change::Styled(1, 1, b"A", (16, 7, 0)),
            Change::Plain(1, 2, b"B"),
        ],
        cursor: (1, 3),
    },
    Showing {
        name: "a colour in place of the group's",
        entries: &[
            Entry(1, 1, &[Clause::Front(2), Clause::Back(1)]),
            Entry(2, 5, &[Clause::Front(4), Clause::Value(b"A")]),
        ],
        changed: &[Change::Styled(1, 1, b"A", (0, 4, 1))],
        cursor: (1, 2),
    },
    Showing {
        name: "the inner group's colour",
        entries: &[
            Entry(1, 1, &[Clause::Back(1)]),
            Entry(2, 5, &[Clause::Back(6)]),
            Entry(3, 10, &[Clause::Value(b"A")]),
            Entry(4, 5, &[Clause::Value(b"B")]),
        ],
        changed: &[
            Change::Styled(1, 1, b"A", (0, 7, 6)),
            Change::Styled(1, 2, b"B", (0, 7, 1)),
        ],
        cursor: (1, 3),
    },
    Showing {
        name: "SECURE on a group",
        entries: &[
            Entry(1, 1, &[Clause::Mark(ScreenMark::Secure)]),
            Entry(2, 5, &[Clause::Value(b"A")]),
            Entry(
                3,
                5,
                &[Clause::Mark(ScreenMark::ReverseVideo), Clause::Value(b"B")],
            ),
        ],
        changed: &[
            Change::Plain(1, 1, b" "),
            Change::Styled(1, 2, b" ", (4, 7, 0)),
        ],
        cursor: (1, 3),
    },
    Showing {
        name: "each screen for itself",
        entries: &[
            Entry(1, 1, &[Clause::Mark(ScreenMark::Underline)]),
            Entry(2, 5, &[Clause::Value(b"A")]),
            Entry(3, 1, &[Clause::Line(Position::At(2)), Clause::Value(b"B")]),
        ],
        changed: &[
            Change::Styled(1, 1, b"A", (8, 7, 0)),
            Change::Plain(2, 1, b"B"),
        ],
        cursor: (2, 2),
    },
    Showing {
        name: "all marks and outer colours",
        entries: &[Entry(
            1,
            1,
            &[
                Clause::Mark(ScreenMark::Highlight),
                Clause::Mark(ScreenMark::ReverseVideo),
                Clause::Mark(ScreenMark::Underline),
                Clause::Mark(ScreenMark::Blink),
                Clause::Front(0),
                Clause::Back(7),
                Clause::Value(b"A"),
            ],
        )],
        changed: &[Change::Styled(1, 1, b"A", (29, 0, 7))],
        cursor: (1, 2),
    },
];
