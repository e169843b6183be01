ghost use Rattle.std.specs.Prelude.{◌≡◌, IfOk, map};
ghost use Rattle.cob_base.specs.Token.{token_of, token_at, first_line, seen_entry};

use crate::{
    ByteText, Entry, Items, Keyword, Line, Mark, NoMemory, Number, Reserved, Spoken, Verb, Word,
    mark_of, reserved_of,
};
use std::alloc::Global;

/// What a word is to the grammar.
#[derive(Debug, Drop)]
pub enum Token {
    /// A reserved word that begins no statement.
    Key(Keyword),
    /// A reserved word that can begin a statement, with the line in which it begins.
    Verb(Verb, Line),
    /// A name that the program gives, in the letters that it was written in.
    Name(ByteText),
    /// A literal's bytes.
    Text(ByteText),
    Number(Number),
    /// The text of a picture.
    Picture(ByteText),
    Mark(Mark),
    /// The separator period.
    Stop,
    /// A mark that the language does not have.
    Unknown,
}

/// What the words of an entry are to the grammar.
#[derive(Debug, Drop)]
pub struct SeenEntry {
    /// The line of the first word, or 1 where there is none.
    pub line: Line,
    pub tokens: Items<Token>,
}

/// What a word that begins in a line is to the grammar.
pub fn see_word(alloc: Global, line: Line, word: &Word) -> Result<Token, NoMemory>
    ensures { IfOk result (λ token. token ≡ token_of line word.now) }
{
    match word {
        Word::Name(name) => see_name(alloc, line, name),
        Word::Text(text) => Ok(Token::Text(text.copy(alloc)?)),
        Word::Number {
            value,
            digits,
            decimals,
            signed,
        } => Ok(Token::Number(Number {
            value: *value,
            digits: *digits,
            decimals: *decimals,
            signed: *signed,
        })),
        Word::Picture(picture) => Ok(Token::Picture(picture.copy(alloc)?)),
        Word::Mark(mark) => match mark_of(mark.as_bytes()) {
            Some(mark) => Ok(Token::Mark(mark)),
            None => Ok(Token::Unknown),
        },
        Word::Stop => Ok(Token::Stop),
    }
}

/// A reserved word or a name.
fn see_name(alloc: Global, line: Line, name: &ByteText) -> Result<Token, NoMemory>
    ensures { IfOk result (λ token. token ≡ token_of line (Word.Name name.now)) }
{
    match reserved_of(name.as_bytes()) {
        Some(Reserved::Key(keyword)) => Ok(Token::Key(keyword)),
        Some(Reserved::Verb(verb)) => Ok(Token::Verb(verb, line)),
        None => Ok(Token::Name(name.copy(alloc)?)),
    }
}

/// What words are to the grammar.
pub fn see_words(alloc: Global, words: &[Spoken]) -> Result<Items<Token>, NoMemory>
    ensures { IfOk result (λ tokens. tokens ≡ map token_at words.now) }
{
    let mut tokens = Items::new(alloc);
    for spoken in words {
        let token = see_word(alloc, spoken.line, &spoken.word)?;
        tokens.push(token)?;
    }
    Ok(tokens)
}

/// The line of the first word, or 1 where there is none.
pub fn first_line(words: &[Spoken]) -> Line
    ensures { result ≡ first_line words.now }
{
    match words {
        [first, ..] => first.line,
        [] => Line(1),
    }
}

/// What the words of an entry are to the grammar.
pub fn see_entry(alloc: Global, entry: &Entry) -> Result<SeenEntry, NoMemory>
    ensures { IfOk result (λ seen. seen ≡ seen_entry entry.now) }
{
    let words = entry.words.as_slice();
    let tokens = see_words(alloc, words)?;
    Ok(SeenEntry {
        line: first_line(words),
        tokens,
    })
}

/// What the words of entries are to the grammar, entry by entry.
pub fn see_entries(alloc: Global, entries: &[Entry]) -> Result<Items<SeenEntry>, NoMemory>
    ensures { IfOk result (λ seen. seen ≡ map seen_entry entries.now) }
{
    let mut seen = Items::new(alloc);
    for entry in entries {
        let one = see_entry(alloc, entry)?;
        seen.push(one)?;
    }
    Ok(seen)
}
