/// What a reserved word that begins no statement is to the grammar. Spellings that mean the same wherever they may stand,
/// as PIC and PICTURE, are one keyword.
#[derive(Clone, Copy, Debug, PartialEq, Eq)]
pub enum Keyword {
    Access,
    Advancing,
    After,
    All,
    Alternate,
    And,
    Are,
    Assign,
    At,
    Auto,
    Automatic,
    BackgroundColor,
    Before,
    Blank,
    Blink,
    By,
    Character,
    /// COL or COLUMN.
    Column,
    Configuration,
    Crt,
    Data,
    Declaratives,
    Division,
    Duplicates,
    Dynamic,
    Else,
    End,
    EndAccept,
    EndAdd,
    EndCompute,
    EndDelete,
    EndDisplay,
    EndDivide,
    EndIf,
    EndMultiply,
    EndPerform,
    EndRead,
    EndRewrite,
    EndStart,
    EndSubtract,
    EndWrite,
    Environment,
    Eol,
    Eos,
    Equal,
    Erase,
    Error,
    Exception,
    Extend,
    Fd,
    File,
    FileControl,
    Filler,
    First,
    For,
    ForegroundColor,
    Forever,
    From,
    Full,
    Giving,
    Global,
    Greater,
    /// HIGH-VALUE or HIGH-VALUES.
    HighValue,
    Highlight,
    /// ID or IDENTIFICATION.
    Identification,
    Ignoring,
    Indexed,
    Input,
    InputOutput,
    /// I-O.
    InputOutputMode,
    Into,
    Invalid,
    Is,
    Key,
    Last,
    Leading,
    Less,
    Line,
    Lock,
    /// LOW-VALUE or LOW-VALUES.
    LowValue,
    Lowlight,
    Manual,
    Minus,
    Mode,
    Multiple,
    Next,
    No,
    Not,
    Number,
    Numeric,
    ObjectComputer,
    Occurs,
    /// OF or IN.
    Of,
    On,
    Only,
    Optional,
    Or,
    Organization,
    Other,
    Output,
    /// A word that makes an EXIT which is read and refused, and has no other use.
    OutsideExitWord,
    /// A word that begins a clause of a file control entry which is read and refused, and has no other use.
    OutsideFileWord,
    /// A word that begins a clause of a data description entry which is read and refused, and has no other use.
    OutsideItemWord,
    /// A word that begins a clause of a screen description entry which is read and refused, and has no other use.
    OutsideScreenWord,
    /// PIC or PICTURE.
    Picture,
    Plus,
    Previous,
    Procedure,
    Program,
    ProgramId,
    Random,
    Record,
    Records,
    Required,
    Retry,
    ReverseVideo,
    Run,
    Screen,
    Seconds,
    Section,
    Secure,
    Select,
    Separate,
    Sequential,
    Sharing,
    Sign,
    Size,
    SourceComputer,
    /// SPACE or SPACES.
    Space,
    SpecialNames,
    Status,
    Test,
    Than,
    Then,
    /// THROUGH or THRU.
    Through,
    Times,
    To,
    Trailing,
    Underline,
    Until,
    Usage,
    Using,
    Value,
    Values,
    Varying,
    With,
    WorkingStorage,
    /// ZERO, ZEROES or ZEROS.
    Zero,
}

/// What a reserved word that can begin a statement is to the grammar.
#[derive(Clone, Copy, Debug, PartialEq, Eq)]
pub enum Verb {
    Accept,
    Add,
    Close,
    Compute,
    Continue,
    Delete,
    Display,
    Divide,
    Exit,
    If,
    Move,
    Multiply,
    Open,
    Perform,
    Read,
    Rewrite,
    Start,
    Stop,
    Subtract,
    Unlock,
    Write,
    /// A verb whose statement is read and refused, as CALL or GO.
    Outside,
}

/// What a mark is to the grammar.
#[derive(Clone, Copy, Debug, PartialEq, Eq)]
pub enum Mark {
    /// `+`
    Plus,
    /// `-`
    Minus,
    /// `*`
    Asterisk,
    /// `/`
    Slash,
    /// `=`
    Equal,
    /// `<`
    Less,
    /// `>`
    Greater,
    /// `<=`
    LessOrEqual,
    /// `>=`
    GreaterOrEqual,
    /// `(`
    LeftParenthesis,
    /// `)`
    RightParenthesis,
}

/// What a reserved word is to the grammar.
#[derive(Clone, Copy, Debug, PartialEq, Eq)]
pub enum Reserved {
    Key(Keyword),
    Verb(Verb),
}
