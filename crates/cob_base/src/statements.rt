use crate::{ByteText, Cond, Expr, Items, Line, Operand, Reference, Relation, Sharing};

/// A statement or a sentence, with the line of its first word.
#[derive(Drop)]
pub struct Located<T> {
    pub line: Line,
    pub item: T,
}

/// The statements of a phrase that tells what is done where a condition arises, and those of its NOT phrase: ON SIZE ERROR,
/// INVALID KEY, AT END or ON EXCEPTION. A phrase is None where it was not written.
#[derive(Drop)]
pub struct ConditionalPhrases<S> {
    pub on: Option<Items<S>>,
    pub not_on: Option<Items<S>>,
}

/// Which operand of a DIVIDE with GIVING is divided.
#[derive(Clone, Copy, Debug, PartialEq, Eq)]
pub enum Division {
    /// INTO: the second operand is divided by the first.
    Into,
    /// BY: the first operand is divided by the second.
    By,
}

/// When UNTIL tests its condition.
#[derive(Clone, Copy, Debug, PartialEq, Eq)]
pub enum Test {
    Before,
    After,
}

/// VARYING: the item that a loop changes, its first value, and what is added to it.
#[derive(Drop)]
pub struct Varying {
    pub item: Reference,
    pub from: Operand,
    pub by: Operand,
}

/// How often PERFORM does what it does.
#[derive(Drop)]
pub enum Loop {
    /// So many TIMES.
    Times(Operand),
    /// UNTIL, with TEST and VARYING where they were written.
    Until {
        test: Option<Test>,
        varying: Option<Varying>,
        condition: Cond,
    },
}

/// What a RETRY phrase asks for where another connector is in the way.
#[derive(Drop)]
pub enum Retry {
    Times(Operand),
    Seconds(Operand),
    Forever,
}

/// What READ does about locks of other connectors.
#[derive(Drop)]
pub enum ReadLocking {
    /// ADVANCING ON LOCK: it passes over locked records.
    Advancing,
    /// IGNORING LOCK: it reads as if no record were locked.
    Ignoring,
    Retry(Retry),
}

/// Whether a statement sets a lock.
#[derive(Clone, Copy, Debug, PartialEq, Eq)]
pub enum LockPhrase {
    /// WITH LOCK.
    Lock,
    /// WITH NO LOCK.
    NoLock,
}

/// In which mode OPEN opens files.
#[derive(Clone, Copy, Debug, PartialEq, Eq)]
pub enum OpenMode {
    Input,
    Output,
    /// I-O.
    InputOutput,
}

/// A phrase of OPEN.
#[derive(Drop)]
pub enum OpenPhrase {
    /// The files that are opened in a mode.
    Files {
        mode: OpenMode,
        sharing: Option<Sharing>,
        retry: Option<Retry>,
        files: Items<ByteText>,
    },
    /// A mode that is read and refused; it takes all words up to the period.
    Outside,
}

/// Which record READ reads.
#[derive(Clone, Copy, Debug, PartialEq, Eq)]
pub enum Direction {
    Next,
    Previous,
}

/// Where START puts the position.
#[derive(Drop)]
pub enum StartPlace {
    First,
    Last,
    /// KEY: at a record whose key stands in this relation to the key's item. `negated` says that NOT stands before the relation.
    Key {
        negated: bool,
        relation: Relation,
        key: Reference,
    },
}

/// A statement. Words that may be absent and mean nothing, as END-IF, are not kept.
#[derive(Drop)]
pub enum Statement {
    Move {
        from: Operand,
        to: Items<Reference>,
    },
    /// ADD .. TO: each receiver gets its value and the operands added.
    Add {
        operands: Items<Operand>,
        to: Items<Reference>,
        size_error: ConditionalPhrases<Located<Statement>>,
    },
    /// ADD .. GIVING. Without TO the last of the operands before GIVING is `to`.
    AddGiving {
        operands: Items<Operand>,
        to: Operand,
        giving: Items<Reference>,
        size_error: ConditionalPhrases<Located<Statement>>,
    },
    /// SUBTRACT .. FROM.
    Subtract {
        operands: Items<Operand>,
        from: Items<Reference>,
        size_error: ConditionalPhrases<Located<Statement>>,
    },
    /// SUBTRACT .. FROM .. GIVING.
    SubtractGiving {
        operands: Items<Operand>,
        from: Operand,
        giving: Items<Reference>,
        size_error: ConditionalPhrases<Located<Statement>>,
    },
    /// MULTIPLY .. BY.
    Multiply {
        operand: Operand,
        by: Items<Reference>,
        size_error: ConditionalPhrases<Located<Statement>>,
    },
    /// MULTIPLY .. BY .. GIVING.
    MultiplyGiving {
        operand: Operand,
        by: Operand,
        giving: Items<Reference>,
        size_error: ConditionalPhrases<Located<Statement>>,
    },
    /// DIVIDE .. INTO.
    Divide {
        operand: Operand,
        into: Items<Reference>,
        size_error: ConditionalPhrases<Located<Statement>>,
    },
    /// DIVIDE .. INTO or BY .. GIVING.
    DivideGiving {
        first: Operand,
        division: Division,
        second: Operand,
        giving: Items<Reference>,
        size_error: ConditionalPhrases<Located<Statement>>,
    },
    Compute {
        to: Items<Reference>,
        value: Expr,
        size_error: ConditionalPhrases<Located<Statement>>,
    },
    If {
        condition: Cond,
        first: Items<Located<Statement>>,
        /// The statements after ELSE.
        other: Option<Items<Located<Statement>>>,
    },
    /// PERFORM of a paragraph, or of all from one through another.
    PerformParagraphs {
        first: ByteText,
        last: Option<ByteText>,
        repeated: Option<Loop>,
    },
    /// PERFORM of the statements up to END-PERFORM.
    PerformInline {
        repeated: Option<Loop>,
        body: Items<Located<Statement>>,
    },
    Open(Items<OpenPhrase>),
    Close(Items<ByteText>),
    Read {
        file: ByteText,
        direction: Option<Direction>,
        into: Option<Reference>,
        locking: Option<ReadLocking>,
        lock: Option<LockPhrase>,
        key: Option<Reference>,
        at_end: ConditionalPhrases<Located<Statement>>,
        invalid_key: ConditionalPhrases<Located<Statement>>,
    },
    Start {
        file: ByteText,
        /// None is a record whose prime key is equal.
        place: Option<StartPlace>,
        invalid_key: ConditionalPhrases<Located<Statement>>,
    },
    Write {
        /// The file's level-01 record.
        record: ByteText,
        from: Option<Operand>,
        retry: Option<Retry>,
        lock: Option<LockPhrase>,
        invalid_key: ConditionalPhrases<Located<Statement>>,
    },
    Rewrite {
        /// The file's level-01 record.
        record: ByteText,
        from: Option<Operand>,
        retry: Option<Retry>,
        lock: Option<LockPhrase>,
        invalid_key: ConditionalPhrases<Located<Statement>>,
    },
    Delete {
        file: ByteText,
        retry: Option<Retry>,
        invalid_key: ConditionalPhrases<Located<Statement>>,
    },
    Unlock(ByteText),
    Accept {
        screen: ByteText,
        exception: ConditionalPhrases<Located<Statement>>,
    },
    Display(ByteText),
    Continue,
    Exit,
    StopRun,
    /// A statement that is read and refused; it takes all words up to the period.
    Outside,
}
