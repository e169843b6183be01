ghost use Rattle.std.specs.Prelude.{◌≡◌, map};
ghost use Rattle.std.specs.Str.{str_eq_ignore_ascii_case};
ghost use Rattle.cob_base.specs.Reserved.{look_up, look_up_mark, words_under, reserved_of, mark_of};

use crate::{Keyword, Mark, Reserved, Verb};

pub const A_WORDS: [(&[u8], Reserved); 14] = [
    (b"ACCEPT", Reserved::Verb(Verb::Accept)),
    (b"ACCESS", Reserved::Key(Keyword::Access)),
    (b"ADD", Reserved::Verb(Verb::Add)),
    (b"ADVANCING", Reserved::Key(Keyword::Advancing)),
    (b"AFTER", Reserved::Key(Keyword::After)),
    (b"ALL", Reserved::Key(Keyword::All)),
    (b"ALTER", Reserved::Verb(Verb::Outside)),
    (b"ALTERNATE", Reserved::Key(Keyword::Alternate)),
    (b"AND", Reserved::Key(Keyword::And)),
    (b"ARE", Reserved::Key(Keyword::Are)),
    (b"ASSIGN", Reserved::Key(Keyword::Assign)),
    (b"AT", Reserved::Key(Keyword::At)),
    (b"AUTO", Reserved::Key(Keyword::Auto)),
    (b"AUTOMATIC", Reserved::Key(Keyword::Automatic)),
];

pub const B_WORDS: [(&[u8], Reserved); 8] = [
    (b"BACKGROUND-COLOR", Reserved::Key(Keyword::BackgroundColor)),
    (b"BASED", Reserved::Key(Keyword::OutsideItemWord)),
    (b"BEFORE", Reserved::Key(Keyword::Before)),
    (b"BELL", Reserved::Key(Keyword::OutsideScreenWord)),
    (b"BINARY", Reserved::Key(Keyword::OutsideItemWord)),
    (b"BLANK", Reserved::Key(Keyword::Blank)),
    (b"BLINK", Reserved::Key(Keyword::Blink)),
    (b"BY", Reserved::Key(Keyword::By)),
];

pub const C_WORDS: [(&[u8], Reserved); 15] = [
    (b"CALL", Reserved::Verb(Verb::Outside)),
    (b"CANCEL", Reserved::Verb(Verb::Outside)),
    (b"CHARACTER", Reserved::Key(Keyword::Character)),
    (b"CLOSE", Reserved::Verb(Verb::Close)),
    (b"COL", Reserved::Key(Keyword::Column)),
    (b"COLUMN", Reserved::Key(Keyword::Column)),
    (b"COMMIT", Reserved::Verb(Verb::Outside)),
    (b"COMP", Reserved::Key(Keyword::OutsideItemWord)),
    (b"COMPUTATIONAL", Reserved::Key(Keyword::OutsideItemWord)),
    (b"COMPUTE", Reserved::Verb(Verb::Compute)),
    (b"CONFIGURATION", Reserved::Key(Keyword::Configuration)),
    (b"CONTINUE", Reserved::Verb(Verb::Continue)),
    (b"CONTROL", Reserved::Key(Keyword::OutsideScreenWord)),
    (b"COPY", Reserved::Verb(Verb::Outside)),
    (b"CRT", Reserved::Key(Keyword::Crt)),
];

pub const D_WORDS: [(&[u8], Reserved); 9] = [
    (b"DATA", Reserved::Key(Keyword::Data)),
    (b"DECLARATIVES", Reserved::Key(Keyword::Declaratives)),
    (b"DELETE", Reserved::Verb(Verb::Delete)),
    (b"DEPENDING", Reserved::Key(Keyword::OutsideItemWord)),
    (b"DISPLAY", Reserved::Verb(Verb::Display)),
    (b"DIVIDE", Reserved::Verb(Verb::Divide)),
    (b"DIVISION", Reserved::Key(Keyword::Division)),
    (b"DUPLICATES", Reserved::Key(Keyword::Duplicates)),
    (b"DYNAMIC", Reserved::Key(Keyword::Dynamic)),
];

pub const E_WORDS: [(&[u8], Reserved); 27] = [
    (b"ELSE", Reserved::Key(Keyword::Else)),
    (b"END", Reserved::Key(Keyword::End)),
    (b"END-ACCEPT", Reserved::Key(Keyword::EndAccept)),
    (b"END-ADD", Reserved::Key(Keyword::EndAdd)),
    (b"END-COMPUTE", Reserved::Key(Keyword::EndCompute)),
    (b"END-DELETE", Reserved::Key(Keyword::EndDelete)),
    (b"END-DISPLAY", Reserved::Key(Keyword::EndDisplay)),
    (b"END-DIVIDE", Reserved::Key(Keyword::EndDivide)),
    (b"END-IF", Reserved::Key(Keyword::EndIf)),
    (b"END-MULTIPLY", Reserved::Key(Keyword::EndMultiply)),
    (b"END-PERFORM", Reserved::Key(Keyword::EndPerform)),
    (b"END-READ", Reserved::Key(Keyword::EndRead)),
    (b"END-REWRITE", Reserved::Key(Keyword::EndRewrite)),
    (b"END-START", Reserved::Key(Keyword::EndStart)),
    (b"END-SUBTRACT", Reserved::Key(Keyword::EndSubtract)),
    (b"END-WRITE", Reserved::Key(Keyword::EndWrite)),
    (b"ENVIRONMENT", Reserved::Key(Keyword::Environment)),
    (b"EOL", Reserved::Key(Keyword::Eol)),
    (b"EOS", Reserved::Key(Keyword::Eos)),
    (b"EQUAL", Reserved::Key(Keyword::Equal)),
    (b"ERASE", Reserved::Key(Keyword::Erase)),
    (b"ERROR", Reserved::Key(Keyword::Error)),
    (b"EVALUATE", Reserved::Verb(Verb::Outside)),
    (b"EXCEPTION", Reserved::Key(Keyword::Exception)),
    (b"EXIT", Reserved::Verb(Verb::Exit)),
    (b"EXTEND", Reserved::Key(Keyword::Extend)),
    (b"EXTERNAL", Reserved::Key(Keyword::OutsideItemWord)),
];

pub const F_WORDS: [(&[u8], Reserved); 11] = [
    (b"FD", Reserved::Key(Keyword::Fd)),
    (b"FILE", Reserved::Key(Keyword::File)),
    (b"FILE-CONTROL", Reserved::Key(Keyword::FileControl)),
    (b"FILLER", Reserved::Key(Keyword::Filler)),
    (b"FIRST", Reserved::Key(Keyword::First)),
    (b"FOR", Reserved::Key(Keyword::For)),
    (b"FOREGROUND-COLOR", Reserved::Key(Keyword::ForegroundColor)),
    (b"FOREVER", Reserved::Key(Keyword::Forever)),
    (b"FROM", Reserved::Key(Keyword::From)),
    (b"FULL", Reserved::Key(Keyword::Full)),
    (b"FUNCTION", Reserved::Key(Keyword::OutsideExitWord)),
];

pub const G_WORDS: [(&[u8], Reserved); 5] = [
    (b"GENERATE", Reserved::Verb(Verb::Outside)),
    (b"GIVING", Reserved::Key(Keyword::Giving)),
    (b"GLOBAL", Reserved::Key(Keyword::Global)),
    (b"GO", Reserved::Verb(Verb::Outside)),
    (b"GREATER", Reserved::Key(Keyword::Greater)),
];

pub const H_WORDS: [(&[u8], Reserved); 3] = [
    (b"HIGH-VALUE", Reserved::Key(Keyword::HighValue)),
    (b"HIGH-VALUES", Reserved::Key(Keyword::HighValue)),
    (b"HIGHLIGHT", Reserved::Key(Keyword::Highlight)),
];

pub const I_WORDS: [(&[u8], Reserved); 16] = [
    (b"I-O", Reserved::Key(Keyword::InputOutputMode)),
    (b"ID", Reserved::Key(Keyword::Identification)),
    (b"IDENTIFICATION", Reserved::Key(Keyword::Identification)),
    (b"IF", Reserved::Verb(Verb::If)),
    (b"IGNORING", Reserved::Key(Keyword::Ignoring)),
    (b"IN", Reserved::Key(Keyword::Of)),
    (b"INDEXED", Reserved::Key(Keyword::Indexed)),
    (b"INITIALIZE", Reserved::Verb(Verb::Outside)),
    (b"INITIATE", Reserved::Verb(Verb::Outside)),
    (b"INPUT", Reserved::Key(Keyword::Input)),
    (b"INPUT-OUTPUT", Reserved::Key(Keyword::InputOutput)),
    (b"INSPECT", Reserved::Verb(Verb::Outside)),
    (b"INTO", Reserved::Key(Keyword::Into)),
    (b"INVALID", Reserved::Key(Keyword::Invalid)),
    (b"INVOKE", Reserved::Verb(Verb::Outside)),
    (b"IS", Reserved::Key(Keyword::Is)),
];

pub const J_WORDS: [(&[u8], Reserved); 2] = [
    (b"JUST", Reserved::Key(Keyword::OutsideItemWord)),
    (b"JUSTIFIED", Reserved::Key(Keyword::OutsideItemWord)),
];

pub const K_WORDS: [(&[u8], Reserved); 1] = [(b"KEY", Reserved::Key(Keyword::Key))];

pub const L_WORDS: [(&[u8], Reserved); 8] = [
    (b"LAST", Reserved::Key(Keyword::Last)),
    (b"LEADING", Reserved::Key(Keyword::Leading)),
    (b"LESS", Reserved::Key(Keyword::Less)),
    (b"LINE", Reserved::Key(Keyword::Line)),
    (b"LOCK", Reserved::Key(Keyword::Lock)),
    (b"LOW-VALUE", Reserved::Key(Keyword::LowValue)),
    (b"LOW-VALUES", Reserved::Key(Keyword::LowValue)),
    (b"LOWLIGHT", Reserved::Key(Keyword::Lowlight)),
];

pub const M_WORDS: [(&[u8], Reserved); 8] = [
    (b"MANUAL", Reserved::Key(Keyword::Manual)),
    (b"MERGE", Reserved::Verb(Verb::Outside)),
    (b"METHOD", Reserved::Key(Keyword::OutsideExitWord)),
    (b"MINUS", Reserved::Key(Keyword::Minus)),
    (b"MODE", Reserved::Key(Keyword::Mode)),
    (b"MOVE", Reserved::Verb(Verb::Move)),
    (b"MULTIPLE", Reserved::Key(Keyword::Multiple)),
    (b"MULTIPLY", Reserved::Verb(Verb::Multiply)),
];

pub const N_WORDS: [(&[u8], Reserved); 6] = [
    (b"NATIONAL", Reserved::Key(Keyword::OutsideItemWord)),
    (b"NEXT", Reserved::Key(Keyword::Next)),
    (b"NO", Reserved::Key(Keyword::No)),
    (b"NOT", Reserved::Key(Keyword::Not)),
    (b"NUMBER", Reserved::Key(Keyword::Number)),
    (b"NUMERIC", Reserved::Key(Keyword::Numeric)),
];

pub const O_WORDS: [(&[u8], Reserved); 11] = [
    (b"OBJECT-COMPUTER", Reserved::Key(Keyword::ObjectComputer)),
    (b"OCCURS", Reserved::Key(Keyword::Occurs)),
    (b"OF", Reserved::Key(Keyword::Of)),
    (b"ON", Reserved::Key(Keyword::On)),
    (b"ONLY", Reserved::Key(Keyword::Only)),
    (b"OPEN", Reserved::Verb(Verb::Open)),
    (b"OPTIONAL", Reserved::Key(Keyword::Optional)),
    (b"OR", Reserved::Key(Keyword::Or)),
    (b"ORGANIZATION", Reserved::Key(Keyword::Organization)),
    (b"OTHER", Reserved::Key(Keyword::Other)),
    (b"OUTPUT", Reserved::Key(Keyword::Output)),
];

pub const P_WORDS: [(&[u8], Reserved); 12] = [
    (b"PACKED-DECIMAL", Reserved::Key(Keyword::OutsideItemWord)),
    (b"PADDING", Reserved::Key(Keyword::OutsideFileWord)),
    (b"PARAGRAPH", Reserved::Key(Keyword::OutsideExitWord)),
    (b"PERFORM", Reserved::Verb(Verb::Perform)),
    (b"PIC", Reserved::Key(Keyword::Picture)),
    (b"PICTURE", Reserved::Key(Keyword::Picture)),
    (b"PLUS", Reserved::Key(Keyword::Plus)),
    (b"POINTER", Reserved::Key(Keyword::OutsideItemWord)),
    (b"PREVIOUS", Reserved::Key(Keyword::Previous)),
    (b"PROCEDURE", Reserved::Key(Keyword::Procedure)),
    (b"PROGRAM", Reserved::Key(Keyword::Program)),
    (b"PROGRAM-ID", Reserved::Key(Keyword::ProgramId)),
];

pub const R_WORDS: [(&[u8], Reserved); 18] = [
    (b"RAISE", Reserved::Verb(Verb::Outside)),
    (b"RANDOM", Reserved::Key(Keyword::Random)),
    (b"READ", Reserved::Verb(Verb::Read)),
    (b"RECORD", Reserved::Key(Keyword::Record)),
    (b"RECORDS", Reserved::Key(Keyword::Records)),
    (b"REDEFINES", Reserved::Key(Keyword::OutsideItemWord)),
    (b"RELATIVE", Reserved::Key(Keyword::OutsideFileWord)),
    (b"RELEASE", Reserved::Verb(Verb::Outside)),
    (b"RENAMES", Reserved::Key(Keyword::OutsideItemWord)),
    (b"REQUIRED", Reserved::Key(Keyword::Required)),
    (b"RESERVE", Reserved::Key(Keyword::OutsideFileWord)),
    (b"RESUME", Reserved::Verb(Verb::Outside)),
    (b"RETRY", Reserved::Key(Keyword::Retry)),
    (b"RETURN", Reserved::Verb(Verb::Outside)),
    (b"REVERSE-VIDEO", Reserved::Key(Keyword::ReverseVideo)),
    (b"REWRITE", Reserved::Verb(Verb::Rewrite)),
    (b"ROLLBACK", Reserved::Verb(Verb::Outside)),
    (b"RUN", Reserved::Key(Keyword::Run)),
];

pub const S_WORDS: [(&[u8], Reserved); 25] = [
    (b"SCREEN", Reserved::Key(Keyword::Screen)),
    (b"SEARCH", Reserved::Verb(Verb::Outside)),
    (b"SECONDS", Reserved::Key(Keyword::Seconds)),
    (b"SECTION", Reserved::Key(Keyword::Section)),
    (b"SECURE", Reserved::Key(Keyword::Secure)),
    (b"SELECT", Reserved::Key(Keyword::Select)),
    (b"SEPARATE", Reserved::Key(Keyword::Separate)),
    (b"SEQUENTIAL", Reserved::Key(Keyword::Sequential)),
    (b"SET", Reserved::Verb(Verb::Outside)),
    (b"SHARING", Reserved::Key(Keyword::Sharing)),
    (b"SIGN", Reserved::Key(Keyword::Sign)),
    (b"SIZE", Reserved::Key(Keyword::Size)),
    (b"SORT", Reserved::Verb(Verb::Outside)),
    (b"SOURCE-COMPUTER", Reserved::Key(Keyword::SourceComputer)),
    (b"SPACE", Reserved::Key(Keyword::Space)),
    (b"SPACES", Reserved::Key(Keyword::Space)),
    (b"SPECIAL-NAMES", Reserved::Key(Keyword::SpecialNames)),
    (b"START", Reserved::Verb(Verb::Start)),
    (b"STATUS", Reserved::Key(Keyword::Status)),
    (b"STOP", Reserved::Verb(Verb::Stop)),
    (b"STRING", Reserved::Verb(Verb::Outside)),
    (b"SUBTRACT", Reserved::Verb(Verb::Subtract)),
    (b"SUPPRESS", Reserved::Verb(Verb::Outside)),
    (b"SYNC", Reserved::Key(Keyword::OutsideItemWord)),
    (b"SYNCHRONIZED", Reserved::Key(Keyword::OutsideItemWord)),
];

pub const T_WORDS: [(&[u8], Reserved); 9] = [
    (b"TERMINATE", Reserved::Verb(Verb::Outside)),
    (b"TEST", Reserved::Key(Keyword::Test)),
    (b"THAN", Reserved::Key(Keyword::Than)),
    (b"THEN", Reserved::Key(Keyword::Then)),
    (b"THROUGH", Reserved::Key(Keyword::Through)),
    (b"THRU", Reserved::Key(Keyword::Through)),
    (b"TIMES", Reserved::Key(Keyword::Times)),
    (b"TO", Reserved::Key(Keyword::To)),
    (b"TRAILING", Reserved::Key(Keyword::Trailing)),
];

pub const U_WORDS: [(&[u8], Reserved); 7] = [
    (b"UNDERLINE", Reserved::Key(Keyword::Underline)),
    (b"UNLOCK", Reserved::Verb(Verb::Unlock)),
    (b"UNSTRING", Reserved::Verb(Verb::Outside)),
    (b"UNTIL", Reserved::Key(Keyword::Until)),
    (b"USAGE", Reserved::Key(Keyword::Usage)),
    (b"USE", Reserved::Verb(Verb::Outside)),
    (b"USING", Reserved::Key(Keyword::Using)),
];

pub const V_WORDS: [(&[u8], Reserved); 4] = [
    (b"VALIDATE", Reserved::Verb(Verb::Outside)),
    (b"VALUE", Reserved::Key(Keyword::Value)),
    (b"VALUES", Reserved::Key(Keyword::Values)),
    (b"VARYING", Reserved::Key(Keyword::Varying)),
];

pub const W_WORDS: [(&[u8], Reserved); 3] = [
    (b"WITH", Reserved::Key(Keyword::With)),
    (b"WORKING-STORAGE", Reserved::Key(Keyword::WorkingStorage)),
    (b"WRITE", Reserved::Verb(Verb::Write)),
];

pub const Z_WORDS: [(&[u8], Reserved); 3] = [
    (b"ZERO", Reserved::Key(Keyword::Zero)),
    (b"ZEROES", Reserved::Key(Keyword::Zero)),
    (b"ZEROS", Reserved::Key(Keyword::Zero)),
];

pub const MARKS: [(&[u8], Mark); 11] = [
    (b"+", Mark::Plus),
    (b"-", Mark::Minus),
    (b"*", Mark::Asterisk),
    (b"/", Mark::Slash),
    (b"=", Mark::Equal),
    (b"<", Mark::Less),
    (b">", Mark::Greater),
    (b"<=", Mark::LessOrEqual),
    (b">=", Mark::GreaterOrEqual),
    (b"(", Mark::LeftParenthesis),
    (b")", Mark::RightParenthesis),
];

/// Whether two words are the same, in either case of letters.
fn same_word(a: &[u8], b: &[u8]) -> bool
    ensures { result ≡ str_eq_ignore_ascii_case a.now b.now }
{
    a.eq_ignore_ascii_case(b)
}

/// What a word is in a table, in either case of letters.
fn look_up(mut table: &[(&[u8], Reserved)], word: &[u8]) -> Option<Reserved>
    ensures { result ≡ look_up (map (λ row. (row.0.now, row.1)) table.entry.now) word.now }
{
    while let [row, rest @ ..] = table {
        if same_word(row.0, word) {
            return Some(row.1);
        }
        table = rest;
    }
    None
}

/// The reserved words that begin with a capital letter.
#[tactic(auto, unfolding(crate::specs::Reserved::words_under))]
fn words_under(letter: u8) -> &'static [(&'static [u8], Reserved)]
    ensures { map (λ row. (row.0.now, row.1)) result.now ≡ words_under letter }
{
    match letter {
        b'A' => &A_WORDS,
        b'B' => &B_WORDS,
        b'C' => &C_WORDS,
        b'D' => &D_WORDS,
        b'E' => &E_WORDS,
        b'F' => &F_WORDS,
        b'G' => &G_WORDS,
        b'H' => &H_WORDS,
        b'I' => &I_WORDS,
        b'J' => &J_WORDS,
        b'K' => &K_WORDS,
        b'L' => &L_WORDS,
        b'M' => &M_WORDS,
        b'N' => &N_WORDS,
        b'O' => &O_WORDS,
        b'P' => &P_WORDS,
        b'R' => &R_WORDS,
        b'S' => &S_WORDS,
        b'T' => &T_WORDS,
        b'U' => &U_WORDS,
        b'V' => &V_WORDS,
        b'W' => &W_WORDS,
        b'Z' => &Z_WORDS,
        _ => &[],
    }
}

/// What a word is to the grammar, in either case of letters; None where it is no reserved word.
pub fn reserved_of(word: &[u8]) -> Option<Reserved>
    ensures { result ≡ reserved_of word.now }
{
    match word {
        [letter, ..] => look_up(words_under(letter.to_ascii_uppercase()), word),
        [] => None,
    }
}

/// What a mark is in a table.
fn look_up_mark(mut table: &[(&[u8], Mark)], mark: &[u8]) -> Option<Mark>
    ensures { result ≡ look_up_mark (map (λ row. (row.0.now, row.1)) table.entry.now) mark.now }
{
    while let [row, rest @ ..] = table {
        if same_word(row.0, mark) {
            return Some(row.1);
        }
        table = rest;
    }
    None
}

/// What a mark is to the grammar; None where the language has no such mark.
pub fn mark_of(mark: &[u8]) -> Option<Mark>
    ensures { result ≡ mark_of mark.now }
{
    look_up_mark(&MARKS, mark)
}
