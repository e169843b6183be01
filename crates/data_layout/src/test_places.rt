use crate::test_cases::{Case, Entry, Expected, Extra};
use cob_base::SignSide;

pub const GROUPS: &[Case] = &[
    Case {
        name: "one item",
        files: &[],
        storage: &[Entry::Item(1, 1, b"X", Extra::Plain)],
        expected: Expected::Places(1, &[(0, 1)]),
    },
    Case {
        name: "two items",
        files: &[],
        storage: &[
            Entry::Item(1, 1, b"X(3)", Extra::Plain),
            Entry::Item(2, 1, b"9(4)", Extra::Plain),
        ],
        expected: Expected::Places(7, &[(0, 3), (3, 4)]),
    },
    Case {
        name: "level 77",
        files: &[],
        storage: &[
            Entry::Item(1, 77, b"99", Extra::Plain),
            Entry::Item(2, 77, b"X", Extra::Plain),
        ],
        expected: Expected::Places(3, &[(0, 2), (2, 1)]),
    },
    Case {
        name: "a group",
        files: &[],
        storage: &[
            Entry::Group(1, 1, Extra::Plain),
            Entry::Item(2, 5, b"X(2)", Extra::Plain),
            Entry::Item(3, 5, b"X(3)", Extra::Plain),
        ],
        expected: Expected::Places(5, &[(0, 5), (0, 2), (2, 3)]),
    },
    Case {
        name: "a group in a group",
        files: &[],
        storage: &[
            Entry::Group(1, 1, Extra::Plain),
            Entry::Group(2, 5, Extra::Plain),
            Entry::Item(3, 10, b"X", Extra::Plain),
            Entry::Item(4, 10, b"XX", Extra::Plain),
            Entry::Item(5, 5, b"X(4)", Extra::Plain),
        ],
        expected: Expected::Places(7, &[(0, 7), (0, 3), (0, 1), (1, 2), (3, 4)]),
    },
    Case {
        name: "levels that leave numbers out",
        files: &[],
        storage: &[
            Entry::Group(1, 1, Extra::Plain),
            Entry::Group(2, 3, Extra::Plain),
            Entry::Item(3, 49, b"X", Extra::Plain),
        ],
        expected: Expected::Places(1, &[(0, 1), (0, 1), (0, 1)]),
    },
    Case {
        name: "groups one after another",
        files: &[],
        storage: &[
            Entry::Group(1, 1, Extra::Plain),
            Entry::Group(2, 5, Extra::Plain),
            Entry::Item(3, 10, b"X", Extra::Plain),
            Entry::Group(4, 5, Extra::Plain),
            Entry::Item(5, 10, b"XX", Extra::Plain),
        ],
        expected: Expected::Places(3, &[(0, 3), (0, 1), (0, 1), (1, 2), (1, 2)]),
    },
    Case {
        name: "back over two levels",
        files: &[],
        storage: &[
            Entry::Group(1, 1, Extra::Plain),
            Entry::Group(2, 5, Extra::Plain),
            Entry::Group(3, 10, Extra::Plain),
            Entry::Item(4, 15, b"XX", Extra::Plain),
            Entry::Item(5, 5, b"X", Extra::Plain),
        ],
        expected: Expected::Places(3, &[(0, 3), (0, 2), (0, 2), (0, 2), (2, 1)]),
    },
];

pub const TABLES: &[Case] = &[
    Case {
        name: "an item that occurs",
        files: &[],
        storage: &[
            Entry::Group(1, 1, Extra::Plain),
            Entry::Item(2, 5, b"X(2)", Extra::Table(3)),
            Entry::Item(3, 5, b"X", Extra::Plain),
        ],
        expected: Expected::Places(7, &[(0, 7), (0, 2), (6, 1)]),
    },
    Case {
        name: "a group that occurs",
        files: &[],
        storage: &[
            Entry::Group(1, 1, Extra::Plain),
            Entry::Group(2, 5, Extra::Table(4)),
            Entry::Item(3, 10, b"X", Extra::Plain),
            Entry::Item(4, 10, b"XX", Extra::Plain),
            Entry::Item(5, 5, b"X", Extra::Plain),
        ],
        expected: Expected::Places(13, &[(0, 13), (0, 3), (0, 1), (1, 2), (12, 1)]),
    },
    Case {
        name: "a group in a table",
        files: &[],
        storage: &[
            Entry::Group(1, 1, Extra::Plain),
            Entry::Item(2, 5, b"X(5)", Extra::Plain),
            Entry::Group(3, 5, Extra::Table(2)),
            Entry::Group(4, 10, Extra::Plain),
            Entry::Item(5, 15, b"X", Extra::Plain),
            Entry::Item(6, 15, b"X", Extra::Plain),
            Entry::Item(7, 10, b"X(3)", Extra::Plain),
            Entry::Item(8, 5, b"X", Extra::Plain),
        ],
        expected: Expected::Places(
            16,
            &[
                (0, 16),
                (0, 5),
                (5, 5),
                (5, 2),
                (5, 1),
                (6, 1),
                (7, 3),
                (15, 1),
            ],
        ),
    },
    Case {
        name: "a table in a group of a group",
        files: &[],
        storage: &[
            Entry::Group(1, 1, Extra::Plain),
            Entry::Group(2, 5, Extra::Plain),
            Entry::Item(3, 10, b"X(2)", Extra::Table(5)),
            Entry::Item(4, 10, b"X", Extra::Plain),
            Entry::Item(5, 5, b"X", Extra::Plain),
        ],
        expected: Expected::Places(12, &[(0, 12), (0, 11), (0, 2), (10, 1), (11, 1)]),
    },
    Case {
        name: "two tables",
        files: &[],
        storage: &[
            Entry::Group(1, 1, Extra::Plain),
            Entry::Item(2, 5, b"X", Extra::Table(2)),
            Entry::Item(3, 5, b"XX", Extra::Table(3)),
            Entry::Item(4, 5, b"X", Extra::Plain),
        ],
        expected: Expected::Places(9, &[(0, 9), (0, 1), (2, 2), (8, 1)]),
    },
    Case {
        name: "a record after a table",
        files: &[],
        storage: &[
            Entry::Group(1, 1, Extra::Plain),
            Entry::Item(2, 5, b"X(4)", Extra::Table(2)),
            Entry::Item(3, 1, b"X", Extra::Plain),
        ],
        expected: Expected::Places(9, &[(0, 8), (0, 4), (8, 1)]),
    },
    Case {
        name: "a table after a table's group",
        files: &[],
        storage: &[
            Entry::Group(1, 1, Extra::Plain),
            Entry::Group(2, 5, Extra::Table(2)),
            Entry::Item(3, 10, b"X", Extra::Plain),
            Entry::Item(4, 5, b"X", Extra::Table(2)),
        ],
        expected: Expected::Places(4, &[(0, 4), (0, 1), (0, 1), (2, 1)]),
    },
    Case {
        name: "occurs once",
        files: &[],
        storage: &[
            Entry::Group(1, 1, Extra::Plain),
            Entry::Item(2, 5, b"X", Extra::Table(1)),
            Entry::Item(3, 5, b"X", Extra::Plain),
        ],
        expected: Expected::Places(2, &[(0, 2), (0, 1), (1, 1)]),
    },
    Case {
        name: "occurs most often",
        files: &[],
        storage: &[
            Entry::Group(1, 1, Extra::Plain),
            Entry::Item(2, 5, b"X", Extra::Table(9999)),
            Entry::Item(3, 5, b"X", Extra::Plain),
        ],
        expected: Expected::Places(10000, &[(0, 10000), (0, 1), (9999, 1)]),
    },
];

pub const SIGNS: &[Case] = &[
    Case {
        name: "a sign before",
        files: &[],
        storage: &[Entry::Item(1, 1, b"S9(3)", Extra::Sign(SignSide::Leading, true))],
        expected: Expected::Places(4, &[(0, 4)]),
    },
    Case {
        name: "a sign after",
        files: &[],
        storage: &[Entry::Item(1, 1, b"S9V99", Extra::Sign(SignSide::Trailing, true))],
        expected: Expected::Places(4, &[(0, 4)]),
    },
    Case {
        name: "a sign inside",
        files: &[],
        storage: &[Entry::Item(1, 1, b"S99", Extra::Sign(SignSide::Trailing, false))],
        expected: Expected::Places(2, &[(0, 2)]),
    },
    Case {
        name: "a leading sign inside",
        files: &[],
        storage: &[Entry::Item(1, 1, b"S99", Extra::Sign(SignSide::Leading, false))],
        expected: Expected::Places(2, &[(0, 2)]),
    },
    Case {
        name: "a sign clause without S",
        files: &[],
        storage: &[Entry::Item(1, 1, b"99", Extra::Sign(SignSide::Leading, true))],
        expected: Expected::Places(2, &[(0, 2)]),
    },
    Case {
        name: "a sign clause on a group",
        files: &[],
        storage: &[
            Entry::Group(1, 1, Extra::Sign(SignSide::Leading, true)),
            Entry::Item(2, 5, b"S9", Extra::Plain),
        ],
        expected: Expected::Places(1, &[(0, 1), (0, 1)]),
    },
    Case {
        name: "a sign clause on an edited item",
        files: &[],
        storage: &[Entry::Item(1, 1, b"-99", Extra::Sign(SignSide::Trailing, true))],
        expected: Expected::Places(3, &[(0, 3)]),
    },
    Case {
        name: "separate signs in a table",
        files: &[],
        storage: &[
            Entry::Group(1, 1, Extra::Plain),
            Entry::Item(2, 5, b"S9", Extra::SignedTable(3, SignSide::Trailing)),
        ],
        expected: Expected::Places(6, &[(0, 6), (0, 2)]),
    },
    Case {
        name: "an edited item",
        files: &[],
        storage: &[Entry::Item(1, 1, b"$ZZ9.99CR", Extra::Plain)],
        expected: Expected::Places(9, &[(0, 9)]),
    },
    Case {
        name: "a decimal point that takes no byte",
        files: &[],
        storage: &[Entry::Item(1, 1, b"9(3)V9(2)", Extra::Plain)],
        expected: Expected::Places(5, &[(0, 5)]),
    },
];

pub const FILES: &[Case] = &[
    Case {
        name: "a file before storage",
        files: &[&[
            Entry::Group(1, 1, Extra::Plain),
            Entry::Item(2, 5, b"X(10)", Extra::Plain),
        ]],
        storage: &[Entry::Item(3, 1, b"X", Extra::Plain)],
        expected: Expected::Places(11, &[(0, 10), (0, 10), (10, 1)]),
    },
    Case {
        name: "two files before storage",
        files: &[
            &[Entry::Item(1, 1, b"X(3)", Extra::Plain)],
            &[Entry::Item(2, 1, b"X(4)", Extra::Plain)],
        ],
        storage: &[Entry::Item(3, 77, b"9", Extra::Plain)],
        expected: Expected::Places(8, &[(0, 3), (3, 4), (7, 1)]),
    },
    Case {
        name: "two records of a file",
        files: &[&[
            Entry::Item(1, 1, b"X(3)", Extra::Plain),
            Entry::Item(2, 1, b"X(2)", Extra::Plain),
        ]],
        storage: &[],
        expected: Expected::Places(5, &[(0, 3), (3, 2)]),
    },
    Case {
        name: "a group of one file does not go on in the next",
        files: &[
            &[
                Entry::Group(1, 1, Extra::Plain),
                Entry::Item(2, 5, b"X", Extra::Plain),
            ],
            &[
                Entry::Group(3, 1, Extra::Plain),
                Entry::Item(4, 5, b"XX", Extra::Plain),
            ],
        ],
        storage: &[],
        expected: Expected::Places(3, &[(0, 1), (0, 1), (1, 2), (1, 2)]),
    },
    Case {
        name: "no entries",
        files: &[],
        storage: &[],
        expected: Expected::Places(0, &[]),
    },
];
