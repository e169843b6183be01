use crate::LayoutFault;
use crate::test_cases::{Case, Entry, Expected, Extra};
use cob_base::{Line, SignSide};

pub const RECORD_LIMITS: &[Case] = &[
    Case {
        name: "a record of 512",
        files: &[&[Entry::Item(1, 1, b"X(512)", Extra::Plain)]],
        storage: &[],
        expected: Expected::Places(512, &[(0, 512)]),
    },
    Case {
        name: "a record of 513",
        files: &[&[Entry::Item(1, 1, b"X(513)", Extra::Plain)]],
        storage: &[],
        expected: Expected::Fault(LayoutFault::RecordLimit(Line(1))),
    },
    Case {
        name: "a record of 513 by its members",
        files: &[&[
            Entry::Group(1, 1, Extra::Plain),
            Entry::Item(2, 5, b"X(512)", Extra::Plain),
            Entry::Item(3, 5, b"X", Extra::Plain),
        ]],
        storage: &[],
        expected: Expected::Fault(LayoutFault::RecordLimit(Line(1))),
    },
    Case {
        name: "a record of 512 by a table",
        files: &[&[
            Entry::Group(1, 1, Extra::Plain),
            Entry::Item(2, 5, b"X(8)", Extra::Table(64)),
        ]],
        storage: &[],
        expected: Expected::Places(512, &[(0, 512), (0, 8)]),
    },
    Case {
        name: "a record of 520 by a table",
        files: &[&[
            Entry::Group(1, 1, Extra::Plain),
            Entry::Item(2, 5, b"X(8)", Extra::Table(65)),
        ]],
        storage: &[],
        expected: Expected::Fault(LayoutFault::RecordLimit(Line(1))),
    },
    Case {
        name: "the second record",
        files: &[&[
            Entry::Item(1, 1, b"X", Extra::Plain),
            Entry::Item(2, 1, b"X(600)", Extra::Plain),
        ]],
        storage: &[],
        expected: Expected::Fault(LayoutFault::RecordLimit(Line(2))),
    },
];

pub const STORAGE_LIMITS: &[Case] = &[
    Case {
        name: "513 bytes of storage",
        files: &[],
        storage: &[Entry::Item(1, 1, b"X(513)", Extra::Plain)],
        expected: Expected::Places(513, &[(0, 513)]),
    },
    Case {
        name: "1,000,000 bytes",
        files: &[],
        storage: &[
            Entry::Group(1, 1, Extra::Plain),
            Entry::Item(2, 5, b"X(1000)", Extra::Table(1000)),
        ],
        expected: Expected::Places(1000000, &[(0, 1000000), (0, 1000)]),
    },
    Case {
        name: "1,000,001 bytes",
        files: &[],
        storage: &[
            Entry::Group(1, 1, Extra::Plain),
            Entry::Item(2, 5, b"X(1000)", Extra::Table(1000)),
            Entry::Item(3, 1, b"X", Extra::Plain),
        ],
        expected: Expected::Fault(LayoutFault::StorageLimit(Line(3))),
    },
    Case {
        name: "the first entry that passes",
        files: &[],
        storage: &[
            Entry::Group(1, 1, Extra::Plain),
            Entry::Item(2, 5, b"X(9999)", Extra::Table(200)),
            Entry::Item(3, 5, b"X(9999)", Extra::Table(200)),
        ],
        expected: Expected::Fault(LayoutFault::StorageLimit(Line(2))),
    },
    Case {
        name: "records count too",
        files: &[&[Entry::Item(1, 1, b"X(500)", Extra::Plain)]],
        storage: &[
            Entry::Group(2, 1, Extra::Plain),
            Entry::Item(3, 5, b"X(1000)", Extra::Table(1000)),
        ],
        expected: Expected::Fault(LayoutFault::StorageLimit(Line(3))),
    },
];

pub const LEVELS: &[Case] = &[
    Case {
        name: "a level that returns to no group",
        files: &[],
        storage: &[
            Entry::Group(1, 1, Extra::Plain),
            Entry::Group(2, 5, Extra::Plain),
            Entry::Item(3, 10, b"X", Extra::Plain),
            Entry::Item(4, 7, b"X", Extra::Plain),
        ],
        expected: Expected::Fault(LayoutFault::BadLevel(Line(4))),
    },
    Case {
        name: "a level between record and members",
        files: &[],
        storage: &[
            Entry::Group(1, 1, Extra::Plain),
            Entry::Item(2, 5, b"X", Extra::Plain),
            Entry::Item(3, 3, b"X", Extra::Plain),
        ],
        expected: Expected::Fault(LayoutFault::BadLevel(Line(3))),
    },
    Case {
        name: "a level that returns",
        files: &[],
        storage: &[
            Entry::Group(1, 1, Extra::Plain),
            Entry::Group(2, 5, Extra::Plain),
            Entry::Item(3, 10, b"X", Extra::Plain),
            Entry::Item(4, 5, b"X", Extra::Plain),
        ],
        expected: Expected::Places(2, &[(0, 2), (0, 1), (0, 1), (1, 1)]),
    },
    Case {
        name: "05 at the start",
        files: &[],
        storage: &[Entry::Item(1, 5, b"X", Extra::Plain)],
        expected: Expected::Fault(LayoutFault::BadLevel(Line(1))),
    },
    Case {
        name: "05 at a file's start",
        files: &[&[Entry::Item(1, 5, b"X", Extra::Plain)]],
        storage: &[Entry::Item(2, 1, b"X", Extra::Plain)],
        expected: Expected::Fault(LayoutFault::BadLevel(Line(1))),
    },
    Case {
        name: "05 at the start of storage after a file",
        files: &[&[Entry::Item(1, 1, b"X", Extra::Plain)]],
        storage: &[Entry::Item(2, 5, b"X", Extra::Plain)],
        expected: Expected::Fault(LayoutFault::BadLevel(Line(2))),
    },
    Case {
        name: "the least line",
        files: &[],
        storage: &[
            Entry::Item(3, 5, b"X", Extra::Plain),
            Entry::Group(2, 1, Extra::Plain),
        ],
        expected: Expected::Fault(LayoutFault::BadLevel(Line(2))),
    },
];

pub const GROUP_LEVELS: &[Case] = &[
    Case {
        name: "level 77 with members",
        files: &[],
        storage: &[
            Entry::Item(1, 77, b"X", Extra::Plain),
            Entry::Item(2, 5, b"X", Extra::Plain),
        ],
        expected: Expected::Fault(LayoutFault::BadLevel(Line(1))),
    },
    Case {
        name: "a group of level 77",
        files: &[],
        storage: &[
            Entry::Group(1, 77, Extra::Plain),
            Entry::Item(2, 5, b"X", Extra::Plain),
        ],
        expected: Expected::Fault(LayoutFault::BadLevel(Line(1))),
    },
    Case {
        name: "88 first",
        files: &[],
        storage: &[Entry::Condition(1), Entry::Item(2, 1, b"X", Extra::Plain)],
        expected: Expected::Fault(LayoutFault::BadLevel(Line(1))),
    },
    Case {
        name: "88 first in storage after a file",
        files: &[&[Entry::Item(1, 1, b"X", Extra::Plain)]],
        storage: &[Entry::Condition(2), Entry::Item(3, 1, b"X", Extra::Plain)],
        expected: Expected::Fault(LayoutFault::BadLevel(Line(2))),
    },
    Case {
        name: "88 after an item",
        files: &[],
        storage: &[
            Entry::Item(1, 1, b"X", Extra::Plain),
            Entry::Condition(2),
            Entry::Condition(3),
            Entry::Item(4, 1, b"X", Extra::Plain),
        ],
        expected: Expected::Places(2, &[(0, 1), (1, 1)]),
    },
    Case {
        name: "88 between a group and its member",
        files: &[],
        storage: &[
            Entry::Group(1, 1, Extra::Plain),
            Entry::Condition(2),
            Entry::Item(3, 5, b"X", Extra::Plain),
        ],
        expected: Expected::Places(1, &[(0, 1), (0, 1)]),
    },
    Case {
        name: "a group with a picture",
        files: &[],
        storage: &[
            Entry::Item(1, 1, b"X", Extra::Plain),
            Entry::Item(2, 5, b"X", Extra::Plain),
        ],
        expected: Expected::Fault(LayoutFault::BadLevel(Line(1))),
    },
    Case {
        name: "no picture",
        files: &[],
        storage: &[Entry::Group(1, 1, Extra::Plain)],
        expected: Expected::Fault(LayoutFault::BadLevel(Line(1))),
    },
    Case {
        name: "a member without a picture",
        files: &[],
        storage: &[
            Entry::Group(1, 1, Extra::Plain),
            Entry::Item(2, 5, b"X", Extra::Plain),
            Entry::Group(3, 5, Extra::Plain),
        ],
        expected: Expected::Fault(LayoutFault::BadLevel(Line(3))),
    },
];

pub const CLAUSES: &[Case] = &[
    Case {
        name: "OCCURS on 01",
        files: &[],
        storage: &[Entry::Item(1, 1, b"X", Extra::Table(2))],
        expected: Expected::Fault(LayoutFault::BadLevel(Line(1))),
    },
    Case {
        name: "OCCURS on 77",
        files: &[],
        storage: &[Entry::Item(1, 77, b"X", Extra::Table(2))],
        expected: Expected::Fault(LayoutFault::BadLevel(Line(1))),
    },
    Case {
        name: "OCCURS 0",
        files: &[],
        storage: &[
            Entry::Group(1, 1, Extra::Plain),
            Entry::Item(2, 5, b"X", Extra::Table(0)),
        ],
        expected: Expected::Fault(LayoutFault::BadLevel(Line(2))),
    },
    Case {
        name: "OCCURS 10000",
        files: &[],
        storage: &[
            Entry::Group(1, 1, Extra::Plain),
            Entry::Item(2, 5, b"X", Extra::Table(10000)),
        ],
        expected: Expected::Fault(LayoutFault::BadLevel(Line(2))),
    },
    Case {
        name: "OCCURS inside OCCURS",
        files: &[],
        storage: &[
            Entry::Group(1, 1, Extra::Plain),
            Entry::Group(2, 5, Extra::Table(2)),
            Entry::Item(3, 10, b"X", Extra::Table(2)),
        ],
        expected: Expected::Fault(LayoutFault::BadLevel(Line(3))),
    },
    Case {
        name: "OCCURS two groups inside OCCURS",
        files: &[],
        storage: &[
            Entry::Group(1, 1, Extra::Plain),
            Entry::Group(2, 5, Extra::Table(2)),
            Entry::Group(3, 10, Extra::Plain),
            Entry::Item(4, 15, b"X", Extra::Table(1)),
        ],
        expected: Expected::Fault(LayoutFault::BadLevel(Line(4))),
    },
    Case {
        name: "a clause twice",
        files: &[],
        storage: &[Entry::Item(1, 1, b"X", Extra::UsageTwice)],
        expected: Expected::Fault(LayoutFault::BadLevel(Line(1))),
    },
    Case {
        name: "no form of a picture",
        files: &[],
        storage: &[Entry::Item(1, 1, b"9.", Extra::Plain)],
        expected: Expected::Fault(LayoutFault::BadPicture(Line(1))),
    },
    Case {
        name: "an empty picture",
        files: &[],
        storage: &[Entry::Item(1, 1, b"", Extra::Plain)],
        expected: Expected::Fault(LayoutFault::BadPicture(Line(1))),
    },
    Case {
        name: "a picture of 10,000 bytes",
        files: &[],
        storage: &[Entry::Item(1, 1, b"X(10000)", Extra::Plain)],
        expected: Expected::Fault(LayoutFault::BadPicture(Line(1))),
    },
    Case {
        name: "19 digits",
        files: &[],
        storage: &[Entry::Item(1, 1, b"9(19)", Extra::Plain)],
        expected: Expected::Fault(LayoutFault::BadPicture(Line(1))),
    },
];

pub const ORDER: &[Case] = &[
    Case {
        name: "level before picture in a line",
        files: &[],
        storage: &[Entry::Item(1, 1, b"Q", Extra::Table(2))],
        expected: Expected::Fault(LayoutFault::BadLevel(Line(1))),
    },
    Case {
        name: "the earlier line of a level",
        files: &[],
        storage: &[
            Entry::Group(1, 1, Extra::Plain),
            Entry::Item(2, 1, b"Q", Extra::Plain),
        ],
        expected: Expected::Fault(LayoutFault::BadLevel(Line(1))),
    },
    Case {
        name: "the earlier line of a picture",
        files: &[],
        storage: &[
            Entry::Item(1, 1, b"Q", Extra::Plain),
            Entry::Group(2, 1, Extra::Plain),
        ],
        expected: Expected::Fault(LayoutFault::BadPicture(Line(1))),
    },
    Case {
        name: "storage before level in a line",
        files: &[],
        storage: &[
            Entry::Group(1, 1, Extra::Plain),
            Entry::Item(2, 5, b"X(9999)", Extra::Table(10000)),
        ],
        expected: Expected::Fault(LayoutFault::StorageLimit(Line(2))),
    },
    Case {
        name: "record before level in a line",
        files: &[&[Entry::Item(1, 1, b"X(513)", Extra::Table(2))]],
        storage: &[],
        expected: Expected::Fault(LayoutFault::RecordLimit(Line(1))),
    },
];

pub const UNKNOWN_SIZES: &[Case] = &[
    Case {
        name: "a record with a text that is no picture",
        files: &[&[
            Entry::Group(1, 1, Extra::Plain),
            Entry::Item(2, 5, b"X(600)", Extra::Plain),
            Entry::Item(3, 5, b"Q", Extra::Plain),
        ]],
        storage: &[],
        expected: Expected::Fault(LayoutFault::BadPicture(Line(3))),
    },
    Case {
        name: "a record with a picture past its limits",
        files: &[&[
            Entry::Group(1, 1, Extra::Plain),
            Entry::Item(2, 5, b"X(10000)", Extra::Plain),
        ]],
        storage: &[],
        expected: Expected::Fault(LayoutFault::RecordLimit(Line(1))),
    },
    Case {
        name: "no storage limit after a text that is no picture",
        files: &[],
        storage: &[
            Entry::Item(1, 1, b"Q", Extra::Plain),
            Entry::Group(1, 1, Extra::Plain),
            Entry::Item(1, 5, b"X(9999)", Extra::Table(9999)),
        ],
        expected: Expected::Fault(LayoutFault::BadPicture(Line(1))),
    },
    Case {
        name: "a storage limit before a text that is no picture",
        files: &[],
        storage: &[
            Entry::Group(1, 1, Extra::Plain),
            Entry::Item(1, 5, b"X(9999)", Extra::Table(9999)),
            Entry::Item(1, 1, b"Q", Extra::Plain),
        ],
        expected: Expected::Fault(LayoutFault::StorageLimit(Line(1))),
    },
    Case {
        name: "a storage limit by a picture past its limits",
        files: &[],
        storage: &[
            Entry::Group(1, 1, Extra::Plain),
            Entry::Item(1, 5, b"X(10000)", Extra::Table(101)),
        ],
        expected: Expected::Fault(LayoutFault::StorageLimit(Line(1))),
    },
    Case {
        name: "a separate sign past the record's limit",
        files: &[&[
            Entry::Group(1, 1, Extra::Plain),
            Entry::Item(2, 5, b"S9(512)", Extra::Sign(SignSide::Leading, true)),
        ]],
        storage: &[],
        expected: Expected::Fault(LayoutFault::RecordLimit(Line(1))),
    },
    Case {
        name: "512 digits within the record's limit",
        files: &[&[
            Entry::Group(1, 1, Extra::Plain),
            Entry::Item(2, 5, b"S9(512)", Extra::Plain),
        ]],
        storage: &[],
        expected: Expected::Fault(LayoutFault::BadPicture(Line(2))),
    },
    Case {
        name: "OCCURS 0 counts once",
        files: &[&[
            Entry::Group(1, 1, Extra::Plain),
            Entry::Item(2, 5, b"X(513)", Extra::Table(0)),
        ]],
        storage: &[],
        expected: Expected::Fault(LayoutFault::RecordLimit(Line(1))),
    },
    Case {
        name: "OCCURS 10000 counts as itself",
        files: &[&[
            Entry::Group(1, 1, Extra::Plain),
            Entry::Item(2, 5, b"X", Extra::Table(10000)),
        ]],
        storage: &[],
        expected: Expected::Fault(LayoutFault::RecordLimit(Line(1))),
    },
    Case {
        name: "sizes past every count",
        files: &[],
        storage: &[
            Entry::Group(1, 1, Extra::Plain),
            Entry::Group(2, 5, Extra::Table(18446744073709551615)),
            Entry::Item(3, 10, b"X(4000000000)", Extra::Table(18446744073709551615)),
        ],
        expected: Expected::Fault(LayoutFault::BadLevel(Line(2))),
    },
];
