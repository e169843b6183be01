ghost use Rattle.std.specs.Prelude.{◌≡◌, ◌≤◌, ◌<◌, ◌++◌, ◌∷◌, [], if◌then◌else◌, replicate, IfOk, OnOk};
ghost use Rattle.picture_rule.specs.Picture.{marks_with};

use crate::{PictureKind, SignPlace};
use cob_base::{ByteText, NoMemory};
use std::alloc::Global;
use std::marker::Model;

/// What an item's picture describes: its category, its bytes, its digits and its sign.
#[derive(Debug, Drop)]
pub struct Picture {
    pub kind: PictureKind,
    /// How many bytes the item has.
    pub size: u32,
    pub digits: u8,
    pub decimals: u8,
    pub signed: bool,
    pub separate: SignPlace,
    pub marks: ByteText,
}

impl Model for Picture {
    ghost use Rattle.picture_rule.specs.Picture.{PictureValue, IsPicture};

    ghost Value = { PictureValue };

    ghost view = { λ p. record { kind = p.kind; size = p.size; digits = p.digits; decimals = p.decimals; signed = p.signed; separate = p.separate; marks = p.marks } };

    ghost invariant = { λ p. IsPicture (record { kind = p.kind; size = p.size; digits = p.digits; decimals = p.decimals; signed = p.signed; separate = p.separate; marks = p.marks }) };
}

impl Picture {
    ghost use Rattle.picture_rule.specs.Picture.{IsPicture, plain, number, signed_at};

    /// The picture of a group of so many bytes.
    pub fn group(alloc: Global, size: u32) -> Picture
        ensures { result ≡ plain PictureKind.Group size }
    {
        Picture {
            kind: PictureKind::Group,
            size,
            digits: 0,
            decimals: 0,
            signed: false,
            separate: SignPlace::Inside,
            marks: ByteText::from_vec(Vec::new(alloc)),
        }
    }

    /// The picture of so many bytes of any sort, which may be none: that of a text.
    pub fn alphanumeric(alloc: Global, size: u32) -> Picture
        requires { size ≤ 9999 }
        ensures { result ≡ plain PictureKind.Alphanumeric size }
    {
        Picture {
            kind: PictureKind::Alphanumeric,
            size,
            digits: 0,
            decimals: 0,
            signed: false,
            separate: SignPlace::Inside,
            marks: ByteText::from_vec(Vec::new(alloc)),
        }
    }

    /// The picture of a number as it is written, with so many digits in all and after its point: that of a literal.
    pub fn number(
        alloc: Global,
        digits: u8,
        decimals: u8,
        signed: bool,
    ) -> Result<Picture, NoMemory>
        requires some { 0 < digits }
        requires few { digits ≤ 18 }
        requires places { decimals ≤ 6 }
        requires within { decimals ≤ digits }
        ensures { IfOk result (λ p. p ≡ number digits decimals signed) }
    {
        Ok(Picture {
            kind: PictureKind::Numeric,
            size: u32::from(digits),
            digits,
            decimals,
            signed,
            separate: SignPlace::Inside,
            marks: number_marks(alloc, digits - decimals, decimals, signed)?,
        })
    }

    /// The picture with its sign at this place, as a SIGN clause says it: a separate sign takes one byte more. Where the
    /// picture has no `S`, it stays as it is.
    pub fn with_sign(self, place: SignPlace) -> Picture
        ensures { result ≡ signed_at place self }
    {
        if !self.signed {
            return self;
        }
        let sign_bytes = match place {
            SignPlace::Inside => 0,
            SignPlace::Leading | SignPlace::Trailing => 1,
        };
        Picture {
            kind: self.kind,
            size: u32::from(self.digits) + sign_bytes,
            digits: self.digits,
            decimals: self.decimals,
            signed: self.signed,
            separate: place,
            marks: self.marks,
        }
    }

    /// A picture with the same meaning.
    pub fn copy(&self, alloc: Global) -> Result<Picture, NoMemory>
        ensures { IfOk result (λ p. p ≡ self.now) }
    {
        Ok(Picture {
            kind: self.kind,
            size: self.size,
            digits: self.digits,
            decimals: self.decimals,
            signed: self.signed,
            separate: self.separate,
            marks: self.marks.copy(alloc)?,
        })
    }
}

/// The marks of a number: an `S` where it has a sign, so many 9s, and a `V` before further 9s.
fn number_marks(alloc: Global, whole: u8, decimals: u8, signed: bool) -> Result<ByteText, NoMemory>
    ensures { IfOk result (λ marks. marks ≡ marks_with whole decimals signed) }
{
    let mut marks = Vec::new(alloc);
    push_mark(&mut marks, b'S', signed)?;
    push_nines(&mut marks, whole)?;
    push_mark(&mut marks, b'V', decimals > 0)?;
    push_nines(&mut marks, decimals)?;
    Ok(ByteText::from_vec(marks))
}

fn push_mark(marks: &mut Vec<u8>, mark: u8, wanted: bool) -> Result<(), NoMemory>
    ensures { OnOk result (marks.new.items ≡ marks.old.items ++ (if wanted then mark ∷ [] else [])) }
{
    if wanted {
        marks.push(mark)?;
    }
    Ok(())
}

fn push_nines(marks: &mut Vec<u8>, times: u8) -> Result<(), NoMemory>
    ensures { OnOk result (marks.new.items ≡ marks.old.items ++ replicate times 57) }
{
    for _ in 0..times {
        marks.push(b'9')?;
    }
    Ok(())
}
