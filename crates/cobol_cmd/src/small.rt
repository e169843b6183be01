ghost use Rattle.std.specs.Prelude.{◌≡◌, ◌++◌, ◌∷◌, ◌↔◌, ℕ, List, pos, ◌*◌, ◌<◌, IfSome, IsTrue, IsNone, map, codes};
ghost use Rattle.cob_base.specs.declared.word.Word.{Word};
ghost use Rattle.cob_base.specs.declared.word.Word.TheVariants.{Text};
ghost use Rattle.cobol_cmd.specs.Small.{Small, OnScreen, spelling, spellings, named, whole, heading, screen_heading, screen_item, procedure};
ghost use Rattle.cobol_cmd.specs.Phrases.{wanted};

use cob_base::{Num, Spoken, Word};

/// A word that a phrase of a small program has.
#[derive(Clone, Copy)]
pub(crate) enum Wanted<'a> {
    Reserved(&'a str),
    Number(u8),
    Stop,
}

/// The literal of a small program, and where it stands.
#[derive(Clone, Copy)]
pub(crate) struct Item<'a> {
    pub(crate) line: u8,
    pub(crate) column: u8,
    pub(crate) bytes: &'a [u8],
}

fn is_wanted(word: &Word, want: Wanted) -> bool
    ensures { IsTrue result ↔ (spelling word.now ≡ wanted want.entry) }
{
    match (word, want) {
        (Word::Name(name), Wanted::Reserved(reserved)) => {
            name.as_bytes().eq_ignore_ascii_case(reserved.as_bytes())
        }
        (
            Word::Number {
                value,
                decimals,
                signed,
                ..
            },
            Wanted::Number(number),
        ) => *decimals == 0 && !*signed && value.units() == i128::from(number) * 1_000_000,
        (Word::Stop, Wanted::Stop) => true,
        _ => false,
    }
}

/// The words after a phrase, where they begin with it.
fn after_phrase<'a>(words: &'a [Spoken], phrase: &[Wanted]) -> Option<&'a [Spoken]>
    ensures found { IfSome result (λ rest. spellings words.now ≡ map wanted phrase.now ++ spellings rest.now) }
    ensures none { IsNone result → (rest : List Word) → spellings words.now ≡ map wanted phrase.now ++ rest → ⊥ }
{
    let [want, more @ ..] = phrase else {
        return Some(words);
    };
    match words {
        [first, rest @ ..] if is_wanted(&first.word, *want) => after_phrase(rest, more),
        _ => None,
    }
}

/// A name and the words after it, where they begin with one.
fn name(words: &[Spoken]) -> Option<(&[u8], &[Spoken])>
    ensures found { IfSome result (λ r. spellings words.now ≡ named r.0.now ∷ spellings r.1.now) }
    ensures none { IsNone result → (bytes : List ℕ) (rest : List Word) → spellings words.now ≡ named bytes ∷ rest → ⊥ }
{
    match words {
        [
            Spoken {
                word: Word::Name(name),
                ..
            },
            rest @ ..,
        ] => Some((name.as_bytes(), rest)),
        _ => None,
    }
}

/// A literal and the words after it, where they begin with one.
fn literal(words: &[Spoken]) -> Option<(&[u8], &[Spoken])>
    ensures found { IfSome result (λ r. spellings words.now ≡ Text r.0.now ∷ spellings r.1.now) }
    ensures none { IsNone result → (bytes : List ℕ) (rest : List Word) → spellings words.now ≡ Text bytes ∷ rest → ⊥ }
{
    match words {
        [
            Spoken {
                word: Word::Text(text),
                ..
            },
            rest @ ..,
        ] => Some((text.as_bytes(), rest)),
        _ => None,
    }
}

/// How many whole ones a number is, where it is a whole number from 0 to 255.
fn small_number(value: Num) -> Option<u8>
    ensures found { IfSome result (λ n. value ≡ pos (n * 1000000)) }
    ensures none { IsNone result → (n : ℕ) → n < 256 → value ≡ pos (n * 1000000) → ⊥ }
{
    let millionths = u128::try_from(value.units()).ok()?;
    if millionths % 1_000_000 != 0 {
        return None;
    }
    u8::try_from(millionths / 1_000_000).ok()
}

/// A whole number from 0 to 255 without a sign and the words after it, where they begin with one.
fn whole_number(words: &[Spoken]) -> Option<(u8, &[Spoken])>
    ensures found { IfSome result (λ r. spellings words.now ≡ whole r.0 ∷ spellings r.1.now) }
    ensures none { IsNone result → (n : ℕ) (rest : List Word) → n < 256 → spellings words.now ≡ whole n ∷ rest → ⊥ }
{
    match words {
        [
            Spoken {
                word: Word::Number {
                    value,
                    decimals: 0,
                    signed: false,
                    ..
                },
                ..
            },
            rest @ ..,
        ] => {
            let number = small_number(*value)?;
            Some((number, rest))
        }
        _ => None,
    }
}

/// The words after the identification division.
fn after_heading(words: &[Spoken]) -> Option<&[Spoken]>
    ensures found { IfSome result (λ rest. (program : List ℕ) × (spellings words.now ≡ heading program (spellings rest.now))) }
    ensures none { IsNone result → (program : List ℕ) (rest : List Word) → spellings words.now ≡ heading program rest → ⊥ }
{
    let phrase = [
        Wanted::Reserved("IDENTIFICATION"),
        Wanted::Reserved("DIVISION"),
        Wanted::Stop,
        Wanted::Reserved("PROGRAM-ID"),
        Wanted::Stop,
    ];
    let rest = after_phrase(words, &phrase)?;
    let (_, rest) = name(rest)?;
    after_phrase(rest, &[Wanted::Stop])
}

/// The name of the screen and the words after it, where the data division begins.
fn after_screen_heading(words: &[Spoken]) -> Option<(&[u8], &[Spoken])>
    ensures found { IfSome result (λ r. spellings words.now ≡ screen_heading r.0.now (spellings r.1.now)) }
    ensures none { IsNone result → (screen : List ℕ) (rest : List Word) → spellings words.now ≡ screen_heading screen rest → ⊥ }
{
    let phrase = [
        Wanted::Reserved("DATA"),
        Wanted::Reserved("DIVISION"),
        Wanted::Stop,
        Wanted::Reserved("SCREEN"),
        Wanted::Reserved("SECTION"),
        Wanted::Stop,
        Wanted::Number(1),
    ];
    let rest = after_phrase(words, &phrase)?;
    let (screen, rest) = name(rest)?;
    let rest = after_phrase(rest, &[Wanted::Stop])?;
    Some((screen, rest))
}

/// The item of the screen and the words after it.
fn after_screen_item(words: &[Spoken]) -> Option<(Item<'_>, &[Spoken])>
    ensures found { IfSome result (λ r. spellings words.now ≡ screen_item r.0.line r.0.column r.0.bytes.now (spellings r.1.now)) }
    ensures none { IsNone result → (line column : ℕ) (bytes : List ℕ) (rest : List Word) → line < 256 → column < 256 → spellings words.now ≡ screen_item line column bytes rest → ⊥ }
{
    let rest = after_phrase(words, &[Wanted::Number(5), Wanted::Reserved("LINE")])?;
    let (line, rest) = whole_number(rest)?;
    let rest = after_phrase(rest, &[Wanted::Reserved("COLUMN")])?;
    let (column, rest) = whole_number(rest)?;
    let rest = after_phrase(rest, &[Wanted::Reserved("VALUE")])?;
    let (bytes, rest) = literal(rest)?;
    let rest = after_phrase(rest, &[Wanted::Stop])?;
    let item = Item {
        line,
        column,
        bytes,
    };
    Some((item, rest))
}

/// The screen that is displayed, where the words are a procedure division that displays one and stops.
fn displayed_screen(words: &[Spoken]) -> Option<&[u8]>
    ensures found { IfSome result (λ screen. spellings words.now ≡ procedure screen.now) }
    ensures none { IsNone result → (screen : List ℕ) → spellings words.now ≡ procedure screen → ⊥ }
{
    let phrase = [
        Wanted::Reserved("PROCEDURE"),
        Wanted::Reserved("DIVISION"),
        Wanted::Stop,
        Wanted::Reserved("DISPLAY"),
    ];
    let rest = after_phrase(words, &phrase)?;
    let (screen, rest) = name(rest)?;
    let phrase = [
        Wanted::Stop,
        Wanted::Reserved("STOP"),
        Wanted::Reserved("RUN"),
        Wanted::Stop,
    ];
    let rest = after_phrase(rest, &phrase)?;
    if rest.is_empty() { Some(screen) } else { None }
}

/// The item of a small program.
pub(crate) fn small_item(words: &[Spoken]) -> Option<Item<'_>>
    ensures found { IfSome result (λ item. Small words.now item.line item.column item.bytes.now) }
    ensures none { IsNone result → (line column : ℕ) (bytes : List ℕ) → Small words.now line column bytes → ⊥ }
{
    let rest = after_heading(words)?;
    let (screen, rest) = after_screen_heading(rest)?;
    let (item, rest) = after_screen_item(rest)?;
    let displayed = displayed_screen(rest)?;
    if displayed.eq_ignore_ascii_case(screen) && item.is_on_screen() {
        Some(item)
    } else {
        None
    }
}

impl Item<'_> {
    /// Whether all of it lies on the screen.
    fn is_on_screen(&self) -> bool
        ensures { IsTrue result ↔ OnScreen self.now.line self.now.column self.now.bytes.now }
    {
        1 <= self.line
            && self.line <= 24
            && 1 <= self.column
            && self.column <= 81
            && self.bytes.len() <= 81 - self.column as usize
    }
}
