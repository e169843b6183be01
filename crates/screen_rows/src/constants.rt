ghost use Rattle.std.specs.Prelude.{◌≡◌, ◌&&◌, nat_lt, nat_le, IfOk, IfSome, length};
ghost use Rattle.screen_rows.specs.Rows.{constant_shown, is_literal};
ghost use Rattle.cob_base.specs.declared.operands.Constant.{Constant};
ghost use Rattle.cob_value.specs.Moves.{moved, filled, MayFill};
ghost use Rattle.picture_rule.specs.Picture.{plain};

use cob_base::{ByteText, Constant, Figurative, NoMemory, Num, Number};
use cob_value::{fill, may_fill, may_move, move_bytes};
use picture_rule::{Picture, edit};
use std::alloc::Global;

/// The bytes of a constant moved into a picture, where it may be moved there.
pub fn show_constant(
    alloc: Global,
    constant: &Constant,
    picture: &Picture,
) -> Result<Option<ByteText>, NoMemory>
    ensures shown { IfOk result (λ shown. shown ≡ constant_shown constant.now picture.now) }
    ensures long { IfOk result (λ shown. IfSome shown (λ text. length text ≡ picture.now.size)) }
{
    match constant {
        Constant::Text(text) => show_text(alloc, text.as_bytes(), picture),
        Constant::Number(
            Number {
                value,
                digits,
                decimals,
                signed,
            },
        ) => show_number(alloc, *value, *digits, *decimals, *signed, picture),
        Constant::Figurative(figure) => show_figure(alloc, *figure, picture),
    }
}

fn show_text(alloc: Global, text: &[u8], picture: &Picture) -> Result<Option<ByteText>, NoMemory>
    ensures shown { IfOk result (λ shown. shown ≡ constant_shown (Constant.Text text.now) picture.now) }
    ensures long { IfOk result (λ shown. IfSome shown (λ text. length text ≡ picture.now.size)) }
{
    if text.len() > 9999 {
        return Ok(None);
    }
    let from = Picture::alphanumeric(alloc, text.len() as u32);
    let mut bytes = vec![in alloc; 0u8; picture.size as usize]?;
    move_bytes(&from, text, picture, bytes.as_mut_slice());
    Ok(Some(ByteText::from_vec(bytes)))
}

/// Whether a number may have so many digits, and so many of them after its point.
fn is_written(digits: u8, decimals: u8) -> bool
    ensures { result ≡ (nat_lt 0 digits && nat_le digits 18 && nat_le decimals 6 && nat_le decimals digits) }
{
    0 < digits && digits <= 18 && decimals <= 6 && decimals <= digits
}

fn show_number(
    alloc: Global,
    value: Num,
    digits: u8,
    decimals: u8,
    signed: bool,
    picture: &Picture,
) -> Result<Option<ByteText>, NoMemory>
    ensures shown { IfOk result (λ shown. shown ≡ constant_shown (Constant.Number (record { value = value; digits = digits; decimals = decimals; signed = signed })) picture.now) }
    ensures long { IfOk result (λ shown. IfSome shown (λ text. length text ≡ picture.now.size)) }
{
    if !is_written(digits, decimals) {
        return Ok(None);
    }
    let from = Picture::number(alloc, digits, decimals, signed)?;
    if !may_move(&from, picture) {
        return Ok(None);
    }
    let mut written = vec![in alloc; 0u8; usize::from(digits)]?;
    edit(&from, value, written.as_mut_slice());
    let mut bytes = vec![in alloc; 0u8; picture.size as usize]?;
    move_bytes(&from, written.as_slice(), picture, bytes.as_mut_slice());
    Ok(Some(ByteText::from_vec(bytes)))
}

fn show_figure(
    alloc: Global,
    figure: Figurative,
    picture: &Picture,
) -> Result<Option<ByteText>, NoMemory>
    ensures shown { IfOk result (λ shown. shown ≡ constant_shown (Constant.Figurative figure) picture.now) }
    ensures long { IfOk result (λ shown. IfSome shown (λ text. length text ≡ picture.now.size)) }
{
    if !may_fill(figure, picture) {
        return Ok(None);
    }
    let mut bytes = vec![in alloc; 0u8; picture.size as usize]?;
    fill(figure, picture, bytes.as_mut_slice());
    Ok(Some(ByteText::from_vec(bytes)))
}
