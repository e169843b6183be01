//! Single words.

ghost use Rattle.std.specs.Prelude.{◌≡◌, Ok};
ghost use Rattle.cob_base.specs.Form.{opens, from_first, is_there};
ghost use Rattle.cob_base.specs.Phrases as phrases;
ghost use Rattle.phrase_parser.specs.Reading.{Gives, read, or_no_fit, seen_words};

use crate::{PhraseFault, no_fit};
use cob_base::{ByteText, Keyword, Mark, Number, Token};
use std::alloc::Global;

#[tactic(auto, unfolding(cob_base::specs::Phrases::same_key))]
pub fn same_key(a: Keyword, b: Keyword) -> bool
    ensures { result ≡ phrases.same_key a b }
{
    a == b
}

#[tactic(auto, unfolding(cob_base::specs::Phrases::same_mark))]
pub fn same_mark(a: Mark, b: Mark) -> bool
    ensures { result ≡ phrases.same_mark a b }
{
    a == b
}

/// What follows a reserved word that must come next.
pub fn expect(words: &[Token], want: Keyword) -> Result<&[Token], PhraseFault>
    ensures { Gives (λ rest. (tt, rest.now)) result (read (phrases.key want) words.now) }
{
    match words {
        [Token::Key(have), rest @ ..] if same_key(*have, want) => Ok(rest),
        _ => Err(no_fit()),
    }
}

/// What follows a reserved word, where it comes next.
pub fn past(words: &[Token], want: Keyword) -> Option<&[Token]>
    ensures { read (phrases.key want) words.now ≡ or_no_fit (seen_words result) }
{
    match words {
        [Token::Key(have), rest @ ..] if same_key(*have, want) => Some(rest),
        _ => None,
    }
}

/// What follows a mark that must come next.
pub fn expect_mark(words: &[Token], want: Mark) -> Result<&[Token], PhraseFault>
    ensures { Gives (λ rest. (tt, rest.now)) result (read (phrases.sign want) words.now) }
{
    match words {
        [Token::Mark(have), rest @ ..] if same_mark(*have, want) => Ok(rest),
        _ => Err(no_fit()),
    }
}

/// What follows a period that must come next.
pub fn full_stop(words: &[Token]) -> Result<&[Token], PhraseFault>
    ensures { Gives (λ rest. (tt, rest.now)) result (read phrases.full_stop words.now) }
{
    match words {
        [Token::Stop, rest @ ..] => Ok(rest),
        _ => Err(no_fit()),
    }
}

/// Whether a reserved word comes next that may be absent, and what follows.
#[tactic(auto, unfolding(cob_base::specs::Phrases::noise))]
pub fn noise(words: &[Token], want: Keyword) -> (bool, &[Token])
    ensures { read (phrases.noise want) words.now ≡ Ok (result.0, result.1.now) }
{
    match words {
        [Token::Key(have), rest @ ..] if same_key(*have, want) => (true, rest),
        _ => (false, words),
    }
}

/// Whether a reserved word comes next.
pub fn next_is(words: &[Token], want: Keyword) -> bool
    ensures { result ≡ opens (phrases.key want) words.now }
{
    match words {
        [Token::Key(have), ..] => same_key(*have, want),
        _ => false,
    }
}

/// A name.
#[tactic(auto, unfolding(cob_base::specs::Phrases::name))]
pub fn name(alloc: Global, words: &[Token]) -> Result<(ByteText, &[Token]), PhraseFault>
    ensures { Gives (λ x. (x.0, x.1.now)) result (read phrases.name words.now) }
{
    match words {
        [Token::Name(name), rest @ ..] => Ok((name.copy(alloc)?, rest)),
        _ => Err(no_fit()),
    }
}

/// Whether a name comes next.
#[tactic(auto, unfolding(cob_base::specs::Phrases::name))]
pub fn opens_name(words: &[Token]) -> bool
    ensures { result ≡ opens phrases.name words.now }
{
    matches!(words, [Token::Name(_), ..])
}

/// The whole number that a number is; None where it has a sign or decimals.
pub fn int_of(number: &Number) -> Option<u64>
    ensures { result ≡ phrases.int_of number.now }
{
    if number.signed || number.decimals != 0 {
        return None;
    }
    u64::try_from(number.value.units().unsigned_abs() / 1_000_000).ok()
}

/// A number without a sign and without decimals.
#[tactic(auto, unfolding(cob_base::specs::Phrases::int))]
pub fn int(words: &[Token]) -> Result<(u64, &[Token]), PhraseFault>
    ensures { Gives (λ x. (x.0, x.1.now)) result (read phrases.int words.now) }
{
    match words {
        [Token::Number(number), rest @ ..] => match int_of(number) {
            Some(value) => Ok((value, rest)),
            None => Err(no_fit()),
        },
        _ => Err(no_fit()),
    }
}

/// Whether a number without a sign and without decimals comes next.
#[tactic(auto, unfolding(cob_base::specs::Phrases::int))]
pub fn opens_int(words: &[Token]) -> bool
    ensures { result ≡ opens phrases.int words.now }
{
    match words {
        [Token::Number(number), ..] => int_of(number).is_some(),
        _ => false,
    }
}

/// All words from the period on.
pub fn from_stop(mut words: &[Token]) -> &[Token]
    ensures { result.now ≡ from_first (λ token. is_there (phrases.is_stop token)) words.entry.now }
{
    while let [first, rest @ ..] = words {
        if let Token::Stop = first {
            return words;
        }
        words = rest;
    }
    words
}
