//! Runs that are no numbers.

ghost use Rattle.std.specs.Prelude.{◌≡◌, ◌∷◌};
ghost use Rattle.std.specs.List.{list_any};
ghost use Rattle.cob_base.specs.Bytes.{same_word};
ghost use Rattle.cobol_words.specs.Pictures.{wish_after};
ghost use Rattle.cobol_words.specs.Runs.{ends_well, is_letter, name_at};
ghost use Rattle.cobol_words.specs.Taking.{FoundAs};

use crate::before::Wish;
use crate::cell::{begins_run, is_letter};
use crate::fault::WordFault;
use cob_base::{ByteText, Line, Word};
use std::alloc::Global;

/// The name that a run is: it has a letter, at most 31 bytes, and doesn't end with `-` or `_`.
pub fn name(alloc: Global, line: Line, run: &[u8]) -> Result<Word, WordFault>
    ensures { FoundAs line result (name_at line run.now) }
{
    if !has_letter(run) {
        return Err(WordFault::BadCharacter(line));
    }
    if run.len() > 31 {
        return Err(WordFault::LongWord(line));
    }
    if !ends_well(run) {
        return Err(WordFault::BadCharacter(line));
    }
    Ok(Word::Name(ByteText::from_bytes(alloc, run)?))
}

fn has_letter(run: &[u8]) -> bool
    ensures { result ≡ list_any is_letter run.now }
{
    run.iter().any(|byte| is_letter(*byte))
}

/// Whether the last byte is a letter or a digit.
fn ends_well(run: &[u8]) -> bool
    ensures { result ≡ ends_well run.now }
{
    if run.is_empty() {
        return false;
    }
    begins_run(run[run.len() - 1])
}

/// Whether a picture is wanted behind a run.
pub fn wish_after(run: &[u8]) -> Wish
    ensures { result ≡ wish_after run.now }
{
    if same_word(run, b"PIC") || same_word(run, b"PICTURE") {
        Wish::PictureOrIs
    } else {
        Wish::NoPicture
    }
}

/// Whether two words are the same but for the case of their letters.
pub fn same_word(a: &[u8], b: &[u8]) -> bool
    ensures { result ≡ same_word a.now b.now }
{
    a.eq_ignore_ascii_case(b)
}
