//! The parts of one line.

ghost use Rattle.std.specs.Prelude.{◌≡◌, ◌<◌, ◌==◌};
ghost use Rattle.std.specs.List.{list_all, position_or_len};
ghost use Rattle.cob_base.specs.Bytes.{behind_spaces, is_printable, space};
ghost use Rattle.cob_base.specs.Lines as lines;

/// The columns of a line that are not ignored: in fixed form the first 72.
#[tactic(auto, using(std::proofs::lemmas::List::take_all))]
pub fn columns(fixed: bool, line: &[u8]) -> &[u8]
    ensures { result.now ≡ lines.columns fixed line.now }
{
    if !fixed {
        return line;
    }
    if line.len() <= 72 {
        return line;
    }
    &line[..72]
}

/// The program text of a line's columns.
pub fn program_text(fixed: bool, line: &[u8]) -> &[u8]
    ensures { result.now ≡ lines.program_text fixed line.now }
{
    if !fixed {
        line
    } else if line.len() < 7 {
        &[]
    } else {
        &line[7..]
    }
}

/// The indicator of a line's columns, which is a space where the line has none.
pub fn indicator(fixed: bool, line: &[u8]) -> u8
    ensures { result ≡ lines.indicator fixed line.now }
{
    if fixed && line.len() > 6 {
        line[6]
    } else {
        b' '
    }
}

/// What is left behind the spaces at the front.
pub fn without_spaces(text: &[u8]) -> &[u8]
    ensures { result.now ≡ behind_spaces text.now }
{
    let mut rest = text;
    while let [b' ', after @ ..] = rest {
        rest = after;
    }
    rest
}

/// Where a byte first stands, or the length where it doesn't.
pub fn place_of(byte: u8, text: &[u8]) -> usize
    ensures { result ≡ position_or_len (λ other. other == byte) text.now }
{
    for (at, other) in text.iter().enumerate() {
        if *other == byte {
            return at;
        }
    }
    text.len()
}

/// Whether the first nonspace bytes are `*>`.
pub fn begins_comment(text: &[u8]) -> bool
    ensures { result ≡ lines.begins_comment text.now }
{
    matches!(without_spaces(text), [b'*', b'>', ..])
}

/// Whether there is nothing but spaces.
pub fn is_blank(text: &[u8]) -> bool
    ensures { result ≡ list_all (λ byte. byte == space) text.now }
{
    text.iter().all(|byte| *byte == b' ')
}

/// Whether each byte is one that a line of program text may have.
pub fn are_printable(line: &[u8]) -> bool
    ensures { result ≡ list_all is_printable line.now }
{
    line.iter().all(|byte| (32..=126).contains(byte))
}

/// Whether a line with this indicator is a comment line.
pub fn is_comment_indicator(byte: u8) -> bool
    ensures { result ≡ lines.is_comment_indicator byte }
{
    matches!(byte, b'*' | b'/' | b'D' | b'd')
}

/// Whether a line may have this indicator.
pub fn is_indicator(byte: u8) -> bool
    ensures { result ≡ lines.is_indicator byte }
{
    matches!(byte, b' ' | b'-') || is_comment_indicator(byte)
}
