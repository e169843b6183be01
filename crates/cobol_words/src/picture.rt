//! Pictures: what stands behind PIC and PICTURE.

ghost use Rattle.std.specs.Prelude.{◌≡◌, ◌==◌, IfOk, length, map};
ghost use Rattle.cobol_words.specs.Pictures.{is_final_mark, less_final_mark};
ghost use Rattle.cobol_words.specs.Taking.{may_be_is, picture_of, wants_none, wished_of};

use crate::before::{Before, Wish};
use crate::cell::{Cell, bytes_of};
use crate::run::same_word;
use cob_base::{ByteText, NoMemory, Word};
use std::alloc::Global;

/// What is cut where a picture is wanted.
#[derive(Debug, Drop)]
pub struct Wished {
    pub word: Word,
    /// How many cells belong to it.
    pub len: usize,
    /// What it is for the place behind it.
    pub before: Before,
}

/// What is cut where a picture is wanted, of the cells up to a space, a line end or a comment: IS, or the picture less one
/// final mark.
pub fn take_wished(alloc: Global, before: Before, cells: &[Cell]) -> Result<Wished, NoMemory>
    ensures { IfOk result (λ wished. wished ≡ wished_of before.wish before.spaced (map (λ cell. cell.byte) cells.now)) }
{
    let run = bytes_of(alloc, cells)?;
    if !may_be_is(before.wish) || !same_word(run.as_slice(), b"IS") {
        return picture(alloc, before.spaced, run.as_slice());
    }
    let before = Before {
        wish: Wish::Picture,
        spaced: false,
    };
    Ok(Wished {
        len: run.len(),
        word: Word::Name(ByteText::from_vec(run)),
        before,
    })
}

fn picture(alloc: Global, spaced: bool, run: &[u8]) -> Result<Wished, NoMemory>
    ensures { IfOk result (λ wished. wished ≡ picture_of spaced (less_final_mark run.now)) }
{
    let picture = less_final_mark(run);
    let before = Before {
        wish: Wish::NoPicture,
        spaced: spaced && picture.is_empty(),
    };
    Ok(Wished {
        word: Word::Picture(ByteText::from_bytes(alloc, picture)?),
        len: picture.len(),
        before,
    })
}

fn may_be_is(wish: Wish) -> bool
    ensures { result ≡ may_be_is wish }
{
    match wish {
        Wish::PictureOrIs => true,
        Wish::Picture => false,
        Wish::NoPicture => false,
    }
}

/// Whether no picture is wanted.
pub fn wants_none(wish: Wish) -> bool
    ensures { result ≡ wants_none wish }
{
    match wish {
        Wish::NoPicture => true,
        Wish::Picture => false,
        Wish::PictureOrIs => false,
    }
}

/// A run without one period, comma or semicolon at its end.
fn less_final_mark(run: &[u8]) -> &[u8]
    ensures { result.now ≡ less_final_mark run.now }
{
    if run.is_empty() {
        return run;
    }
    let last = run.len() - 1;
    if !is_final_mark(run[last]) {
        return run;
    }
    &run[..last]
}

fn is_final_mark(byte: u8) -> bool
    ensures { result ≡ is_final_mark byte }
{
    matches!(byte, b'.' | b',' | b';')
}
