/// The entries of a case and the bytes that they open with. An entry has its level, its picture, its OCCURS number, the side of a separate
/// sign (L or T) and its VALUE, where `'` begins a text and a number counts millionths; FD begins a file and WS working storage. Of the
/// bytes `^` stands for 255 and `~` for 0.
pub struct Case {
    pub name: &'static str,
    pub entries: &'static [&'static str],
    pub bytes: &'static str,
}

pub const WITHOUT_VALUE: &[Case] = &[
    Case {
        name: "alphanumeric items open with spaces",
        entries: &["WS", "01|X(3)", "77|A(2)"],
        bytes: "     ",
    },
    Case {
        name: "numeric items open with zeros",
        entries: &["WS", "01|9(3)", "01|S9V99"],
        bytes: "000000",
    },
    Case {
        name: "edited items open with spaces",
        entries: &["WS", "01|ZZ9", "01|9(2)"],
        bytes: "   00",
    },
    Case {
        name: "a separate sign stands beside the zeros",
        entries: &["WS", "01|S99||L", "01|S9||T"],
        bytes: "+000+",
    },
    Case {
        name: "each occurrence of an item opens alike",
        entries: &["WS", "01|", "05|9(2)|3", "05|X"],
        bytes: "000000 ",
    },
    Case {
        name: "each occurrence of a group opens alike",
        entries: &["WS", "01|", "03||2", "05|X", "05|99", "03|X|2"],
        bytes: " 00 00  ",
    },
    Case {
        name: "no item, no byte",
        entries: &["WS"],
        bytes: "",
    },
];

pub const WITH_VALUE: &[Case] = &[
    Case {
        name: "a text is filled with spaces",
        entries: &["WS", "01|X(4)|||'AB"],
        bytes: "AB  ",
    },
    Case {
        name: "a text on an edited item is copied as it is",
        entries: &["WS", "01|ZZ9|||'7"],
        bytes: "7  ",
    },
    Case {
        name: "a number is stored",
        entries: &["WS", "01|9(3)V9|||12500000"],
        bytes: "0125",
    },
    Case {
        name: "a negative number raises the last digit",
        entries: &["WS", "01|S9(2)|||-12000000"],
        bytes: "1r",
    },
    Case {
        name: "a number with a separate sign",
        entries: &["WS", "01|S9(2)||L|-12000000", "01|S9(2)||T|5000000"],
        bytes: "-1205+",
    },
    Case {
        name: "a number is edited",
        entries: &["WS", "01|ZZ9.9|||12500000", "01|$9,999-|||-1234000000"],
        bytes: " 12.5$1,234-",
    },
    Case {
        name: "ZERO fits every item",
        entries: &[
            "WS",
            "01|X(3)|||ZERO",
            "01|S99||T|ZERO",
            "01|ZZZ|||ZERO",
            "01|Z9|||ZERO",
        ],
        bytes: "00000+    0",
    },
    Case {
        name: "the other figurative constants fill",
        entries: &[
            "WS",
            "01|XX|||SPACE",
            "01|X(3)|||HIGH-VALUE",
            "01|A(2)|||LOW-VALUE",
        ],
        bytes: "  ^^^~~",
    },
    Case {
        name: "each occurrence holds the VALUE",
        entries: &["WS", "01|", "05|XX|3||'AB", "05|9|2||7000000"],
        bytes: "ABABAB77",
    },
];

pub const GROUPS: &[Case] = &[
    Case {
        name: "members hold their own",
        entries: &[
            "WS",
            "01|",
            "03|",
            "05|X|||'A",
            "05|X|||'B",
            "03|9|||3000000",
        ],
        bytes: "AB3",
    },
    Case {
        name: "the VALUE of a group covers its members",
        entries: &["WS", "01||||'ABCD", "05|XX", "05|99", "05|X"],
        bytes: "ABCD ",
    },
    Case {
        name: "and the members of its members",
        entries: &[
            "WS",
            "01|",
            "03||||'12345",
            "05|9",
            "05||2",
            "07|9",
            "07|X",
            "03|X|||'Z",
        ],
        bytes: "12345Z",
    },
    Case {
        name: "a figurative constant fills a group",
        entries: &[
            "WS",
            "01||||HIGH-VALUE",
            "05|99",
            "05|X(2)",
            "01||||ZERO",
            "05|XX",
        ],
        bytes: "^^^^00",
    },
    Case {
        name: "a group with VALUE and OCCURS",
        entries: &["WS", "01|", "03||3||'AB", "05|X", "05|X", "05|9", "03|9"],
        bytes: "AB AB AB 0",
    },
    Case {
        name: "a group with VALUE in a group with OCCURS",
        entries: &[
            "WS",
            "01|",
            "03||2",
            "05|9|||1000000",
            "05||||'XY",
            "07|X",
            "07|X",
            "05|X|||'.",
            "03|X|||'!",
        ],
        bytes: "1XY.1XY.!",
    },
    Case {
        name: "two tables side by side",
        entries: &[
            "WS",
            "01|",
            "03||2",
            "05|X|||'A",
            "03||3",
            "05|X|||'B",
            "05|9",
            "01|X|||'C",
        ],
        bytes: "AAB0B0B0C",
    },
    Case {
        name: "deep groups in a table",
        entries: &[
            "WS",
            "01|",
            "02||2",
            "03|",
            "04|",
            "05|X|||'D",
            "04|9",
            "03|X|||'E",
            "02|X",
        ],
        bytes: "D0ED0E ",
    },
];

pub const FILES: &[Case] = &[
    Case {
        name: "records stand before working storage",
        entries: &["FD", "01|", "05|9(2)", "05|X(2)", "WS", "01|X|||'W"],
        bytes: "00  W",
    },
    Case {
        name: "files in their order",
        entries: &["FD", "01|X(2)", "FD", "01|9(3)", "WS", "77|99|||42000000"],
        bytes: "  00042",
    },
    Case {
        name: "a table at the end of a record",
        entries: &[
            "FD",
            "01|",
            "05||2",
            "10|9",
            "10|X",
            "WS",
            "01|",
            "05|X|||'W",
        ],
        bytes: "0 0 W",
    },
];
