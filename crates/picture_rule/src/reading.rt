ghost use Rattle.std.specs.Prelude.{◌≡◌, ◌<◌, ◌≤◌, ◌^◌, ℕ, Bool, List, length, IfOk, IfErr, IfSome, IsSomeAnd, IsTrue, OnOk, ◌↔◌, ◌++◌};
ghost use Rattle.picture_rule.specs.Picture.{Form, IsWithin};
ghost use Rattle.picture_rule.specs.Text.{Spells, Fits, IsTooWide, IsWhole, kept, picture_of, Writes};
ghost use Rattle.std.specs.List.{repeat};
ghost use Rattle.picture_rule.specs.Outline.{IsOutline};
ghost use Rattle.picture_rule.specs.Reading.{marks_of};
ghost use Rattle.picture_rule.specs.declared.kind.PictureKind.{PictureKind};

use crate::edited_form::edited;
use crate::number_form::{alphanumeric, numeric};
use crate::outline::Outline;
use crate::run::{Symbol, front_run};
use crate::{Picture, PictureFault, PictureKind, SignPlace};
use cob_base::{ByteText, NoMemory};
use std::alloc::Global;

/// What the text spells, whatever its size. None where no form fits.
fn outline_of(text: &[u8]) -> Option<Outline>
    ensures found { IfSome result (λ outline. (marks : List ℕ) × (form : Form) × Spells text.now marks form × IsOutline outline form) }
    ensures only { (marks : List ℕ) (form : Form) → Spells text.now marks form → IsSomeAnd result (λ outline. IsOutline outline form) }
{
    if let Some(outline) = alphanumeric(text) {
        return Some(outline);
    }
    if let Some(outline) = numeric(text) {
        return Some(outline);
    }
    edited(text)
}

/// Whether what is spelled keeps the limits of its category.
fn is_within(outline: Outline) -> bool
    ensures { IsTrue result ↔ IsWithin outline.kind outline.size outline.digits outline.decimals }
{
    match outline.kind {
        PictureKind::Alphanumeric => outline.size <= 9999,
        PictureKind::Group => true,
        PictureKind::Numeric => outline.digits <= 18 && outline.decimals <= 6,
        PictureKind::Edited => outline.size <= 30 && outline.digits <= 18 && outline.decimals <= 6,
    }
}

/// The marks that the text writes, each as often as it counts, where they are fewer than 2 ^ 64.
fn write_out(alloc: Global, text: &[u8]) -> Result<ByteText, NoMemory>
    ensures { (marks : List ℕ) → Writes text.now marks → length marks < 2 ^ 64 → IfOk result (λ written. written ≡ marks) }
{
    let mut marks = Vec::new(alloc);
    let mut rest = text;
    while let Some(run) = front_run(rest) {
        push_run(&mut marks, run.symbol, run.times)?;
        rest = run.rest;
    }
    Ok(ByteText::from_vec(marks))
}

/// The marks that a picture of the category keeps.
fn kept_marks(alloc: Global, text: &[u8], kind: PictureKind) -> Result<ByteText, NoMemory>
    ensures { (marks : List ℕ) → Writes text.now marks → length marks < 2 ^ 64 → IfOk result (λ written. written ≡ kept kind marks) }
{
    match kind {
        PictureKind::Alphanumeric => Ok(ByteText::from_vec(Vec::new(alloc))),
        PictureKind::Group => Ok(ByteText::from_vec(Vec::new(alloc))),
        PictureKind::Numeric => write_out(alloc, text),
        PictureKind::Edited => write_out(alloc, text),
    }
}

/// The picture that a text spells within the limits.
fn picture_within(alloc: Global, text: &[u8], outline: Outline) -> Result<Picture, PictureFault>
    requires within { IsWithin outline.kind outline.size outline.digits outline.decimals }
    requires spelled { (marks : List ℕ) × (form : Form) × Spells text.now marks form × IsOutline outline form }
    ensures picture { IfOk result (λ p. (marks : List ℕ) × (form : Form) × Spells text.now marks form × Fits form × (p ≡ picture_of marks form)) }
    ensures fault { IfErr result (λ fault. fault ≡ PictureFault.NoMemory) }
{
    let marks = kept_marks(alloc, text, outline.kind)?;
    Ok(Picture {
        kind: outline.kind,
        size: outline.size as u32,
        digits: outline.digits as u8,
        decimals: outline.decimals as u8,
        signed: outline.signed,
        separate: SignPlace::Inside,
        marks,
    })
}

/// The picture that the text after PICTURE writes, in letters of either case. A symbol may be followed by the number of its
/// repetitions in parentheses.
pub fn read_picture(alloc: Global, text: &[u8]) -> Result<Picture, PictureFault>
    ensures picture { IfOk result (λ p. (marks : List ℕ) × (form : Form) × Spells text.now marks form × Fits form × (p ≡ picture_of marks form)) }
    ensures no_picture { (result ≡ Err PictureFault.NoPicture) ↔ ((marks : List ℕ) (form : Form) → Spells text.now marks form → ⊥) }
    ensures too_wide { (kind : PictureKind) (size : ℕ) (signed whole : Bool) → (result ≡ Err (PictureFault.TooWide kind size signed whole)) ↔ (IsTooWide text.now kind size signed × IsWhole text.now whole) }
{
    match outline_of(text) {
        None => Err(PictureFault::NoPicture),
        Some(outline) => {
            if is_within(outline) {
                return picture_within(alloc, text, outline);
            }
            Err(PictureFault::TooWide {
                kind: outline.kind,
                size: outline.size.min(u64::from(u32::MAX)) as u32,
                signed: outline.signed,
                whole: outline.decimals == 0,
            })
        }
    }
}

fn push_run(marks: &mut Vec<u8>, symbol: Symbol, times: u64) -> Result<(), NoMemory>
    ensures { OnOk result (marks.new.items ≡ marks.old.items ++ repeat times (marks_of symbol)) }
{
    for _ in 0..times {
        push_symbol(marks, symbol)?;
    }
    Ok(())
}

fn push_symbol(marks: &mut Vec<u8>, symbol: Symbol) -> Result<(), NoMemory>
    ensures { OnOk result (marks.new.items ≡ marks.old.items ++ marks_of symbol) }
{
    match symbol {
        Symbol::Mark(mark) => {
            marks.push(mark)?;
            Ok(())
        }
        Symbol::Credit => {
            marks.push(b'C')?;
            marks.push(b'R')?;
            Ok(())
        }
        Symbol::Debit => {
            marks.push(b'D')?;
            marks.push(b'B')?;
            Ok(())
        }
    }
}
