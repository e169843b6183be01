//! Data description entries.

ghost use Rattle.std.specs.Prelude.{◌≡◌, Ok};
ghost use Rattle.cob_base.specs.Form.Form.{word, optional, some};
ghost use Rattle.cob_base.specs.Form.{opens, is_there, many};
ghost use Rattle.cob_base.specs.DataEntries as entries;
ghost use Rattle.phrase_parser.specs.Reading.{Gives, read, or_no_fit, seen_rest, seen_words};

use crate::item_clauses::{item_clause, opens_item_clause};
use cob_base::{
    ByteText, ConditionEntry, Constant, DataEntry, ItemClause, ItemEntry, Items, Keyword, Line,
    Token, ValueRange,
};
use phrase_parser::{
    PhraseFault, constant, expect, found, full_stop, int_of, many, name, next_is, no_fit, noise,
    opens_constant, past, same_key, some,
};
use std::alloc::Global;

/// The level that a whole number is: 1 to 49, or 77.
fn level_of(value: u64) -> Option<u8>
    ensures { result ≡ entries.level_of value }
{
    if (1 <= value && value <= 49) || value == 77 {
        Some(value as u8)
    } else {
        None
    }
}

/// A level.
#[tactic(auto, unfolding(cob_base::specs::DataEntries::level))]
pub fn level(words: &[Token]) -> Option<(u8, &[Token])>
    ensures { read entries.level words.now ≡ or_no_fit (seen_rest result) }
{
    match words {
        [Token::Number(number), rest @ ..] => {
            let value = int_of(number)?;
            Some((level_of(value)?, rest))
        }
        _ => None,
    }
}

/// Whether a level comes next.
#[tactic(auto, unfolding(cob_base::specs::DataEntries::level))]
pub fn opens_level(words: &[Token]) -> bool
    ensures { result ≡ opens entries.level words.now }
{
    match words {
        [Token::Number(number), ..] => match int_of(number) {
            Some(value) => level_of(value).is_some(),
            None => false,
        },
        _ => false,
    }
}

/// `[name|FILLER]`
#[tactic(auto, unfolding(cob_base::specs::DataEntries::item_name, cob_base::specs::DataEntries::name_or_filler, cob_base::specs::Phrases::name))]
pub fn item_name(
    alloc: Global,
    words: &[Token],
) -> Result<(Option<ByteText>, &[Token]), PhraseFault>
    ensures { Gives (λ x. (x.0, x.1.now)) result (read entries.item_name words.now) }
{
    match words {
        [Token::Name(name), rest @ ..] => {
            let name = name.copy(alloc)?;
            Ok((Some(name), rest))
        }
        [Token::Key(have), rest @ ..] if same_key(*have, Keyword::Filler) => Ok((None, rest)),
        _ => Ok((None, words)),
    }
}

fn item_clauses(
    alloc: Global,
    words: &[Token],
) -> Result<(Items<ItemClause>, &[Token]), PhraseFault>
    ensures { Gives (λ x. (x.0, x.1.now)) result (read (many entries.item_clause) words.now) }
{
    many(alloc, 0, &opens_item_clause, &item_clause, words)
}

/// `level [name|FILLER] itemclause* .`
#[tactic(auto, unfolding(cob_base::specs::DataEntries::item))]
fn item(alloc: Global, line: Line, words: &[Token]) -> Result<(DataEntry, &[Token]), PhraseFault>
    ensures { Gives (λ x. (x.0, x.1.now)) result (read (entries.item line) words.now) }
{
    match level(words) {
        Some((level, rest)) => {
            let (name, rest) = item_name(alloc, rest)?;
            let (clauses, rest) = item_clauses(alloc, rest)?;
            let rest = full_stop(rest)?;
            Ok((
                DataEntry::Item(ItemEntry {
                    line,
                    level,
                    name,
                    clauses,
                }),
                rest,
            ))
        }
        None => Err(no_fit()),
    }
}

/// The level 88.
fn level_88(words: &[Token]) -> Option<&[Token]>
    ensures { read (word entries.is_88) words.now ≡ or_no_fit (seen_words result) }
{
    match words {
        [Token::Number(number), rest @ ..] => {
            let value = int_of(number)?;
            if value == 88 { Some(rest) } else { None }
        }
        _ => None,
    }
}

/// `VALUE [IS]|VALUES [ARE]`
#[tactic(auto, unfolding(cob_base::specs::DataEntries::value_words, cob_base::specs::DataEntries::value_is, cob_base::specs::DataEntries::values_are), using(crate::proofs::DataDispatch::opens_value_is_words_is))]
fn value_words(words: &[Token]) -> Option<(bool, &[Token])>
    ensures { read entries.value_words words.now ≡ or_no_fit (seen_rest result) }
{
    if next_is(words, Keyword::Value) {
        let rest = past(words, Keyword::Value)?;
        return Some(noise(rest, Keyword::Is));
    }
    let rest = past(words, Keyword::Values)?;
    Some(noise(rest, Keyword::Are))
}

/// `(THRU|THROUGH) constant`
#[tactic(auto, unfolding(cob_base::specs::DataEntries::through))]
fn through(alloc: Global, words: &[Token]) -> Result<(Constant, &[Token]), PhraseFault>
    ensures { Gives (λ x. (x.0, x.1.now)) result (read entries.through words.now) }
{
    let rest = expect(words, Keyword::Through)?;
    constant(alloc, rest)
}

/// `[(THRU|THROUGH) constant]`
#[tactic(auto, using(crate::proofs::DataDispatch::opens_through_is))]
fn optional_through(
    alloc: Global,
    words: &[Token],
) -> Result<(Option<Constant>, &[Token]), PhraseFault>
    ensures { Gives (λ x. (x.0, x.1.now)) result (read (optional entries.through) words.now) }
{
    if !next_is(words, Keyword::Through) {
        return Ok((None, words));
    }
    let (last, rest) = through(alloc, words)?;
    Ok((Some(last), rest))
}

/// `constant [(THRU|THROUGH) constant]`
#[tactic(auto, unfolding(cob_base::specs::DataEntries::value_range))]
fn value_range(
    alloc: Global,
    _depth: usize,
    words: &[Token],
) -> Result<(ValueRange, &[Token]), PhraseFault>
    ensures { Gives (λ x. (x.0, x.1.now)) result (read entries.value_range words.now) }
{
    let (from, rest) = constant(alloc, words)?;
    let (through, rest) = optional_through(alloc, rest)?;
    Ok((ValueRange { from, through }, rest))
}

#[tactic(auto, using(crate::proofs::DataDispatch::opens_value_range_is))]
fn opens_value_range(words: &[Token]) -> bool
    ensures { result ≡ opens entries.value_range words.now }
{
    opens_constant(words)
}

fn value_ranges(
    alloc: Global,
    words: &[Token],
) -> Result<(Items<ValueRange>, &[Token]), PhraseFault>
    ensures { Gives (λ x. (x.0, x.1.now)) result (read (some entries.value_range) words.now) }
{
    some(alloc, 0, &opens_value_range, &value_range, words)
}

/// `88 name (VALUE [IS]|VALUES [ARE]) (constant [(THRU|THROUGH) constant])+ .`
#[tactic(auto, unfolding(cob_base::specs::DataEntries::condition))]
fn condition(
    alloc: Global,
    line: Line,
    words: &[Token],
) -> Result<(DataEntry, &[Token]), PhraseFault>
    ensures { Gives (λ x. (x.0, x.1.now)) result (read (entries.condition line) words.now) }
{
    match level_88(words) {
        Some(rest) => {
            let (name, rest) = name(alloc, rest)?;
            let (_is, rest) = found(value_words(rest))?;
            let (values, rest) = value_ranges(alloc, rest)?;
            let rest = full_stop(rest)?;
            Ok((
                DataEntry::Condition(ConditionEntry { line, name, values }),
                rest,
            ))
        }
        None => Err(no_fit()),
    }
}

/// A data description entry.
#[tactic(auto, unfolding(cob_base::specs::DataEntries::data_entry), using(crate::proofs::DataDispatch::opens_item_is))]
pub fn data_entry(
    alloc: Global,
    line: Line,
    words: &[Token],
) -> Result<(DataEntry, &[Token]), PhraseFault>
    ensures { Gives (λ x. (x.0, x.1.now)) result (read (entries.data_entry line) words.now) }
{
    if opens_level(words) {
        return item(alloc, line, words);
    }
    condition(alloc, line, words)
}

/// Whether a level or 88 comes next.
#[tactic(auto, unfolding(cob_base::specs::DataEntries::data_entry, cob_base::specs::DataEntries::condition), using(crate::proofs::DataDispatch::opens_item_is))]
pub fn opens_data_entry(line: Line, words: &[Token]) -> bool
    ensures { result ≡ opens (entries.data_entry line) words.now }
{
    opens_level(words) || level_88(words).is_some()
}
