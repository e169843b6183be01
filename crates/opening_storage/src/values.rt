ghost use Rattle.std.specs.Prelude.{◌≡◌, length, true, IfOk, None, Some};
ghost use Rattle.std.specs.Option.{option_copied};
ghost use Rattle.picture_rule.specs.Editing.{IsNumber, edited};
ghost use Rattle.cob_value.specs.Figures.{is_numeric};
ghost use Rattle.cob_value.specs.Texts.{fitted};
ghost use Rattle.cob_value.specs.Moves.{MayFill, filled};
ghost use Rattle.opening_storage.specs.Opening.{opening_bytes, can_hold};

use cob_base::{Constant, Figurative, NoMemory, Num};
use cob_value::{fill, may_fill};
use picture_rule::{Picture, PictureKind, edit};
use std::alloc::Global;

/// A text in so many bytes: cut, or filled with spaces.
fn text_in(alloc: Global, size: u32, text: &[u8]) -> Result<Vec<u8>, NoMemory>
    ensures bytes { IfOk result (λ bytes. bytes.items ≡ fitted size text.entry.now) }
    ensures sized { IfOk result (λ bytes. length bytes.items ≡ size) }
{
    let spaces = vec![in alloc; b' '; size as usize]?;
    let mut bytes = Vec::from_slice(alloc, text)?;
    bytes.extend_from_slice(spaces.as_slice())?;
    bytes.truncate(size as usize);
    Ok(bytes)
}

/// The bytes of a numeric or edited item that holds this value.
fn number_in(alloc: Global, picture: &Picture, value: Num) -> Result<Vec<u8>, NoMemory>
    requires { IsNumber picture.now.kind }
    ensures bytes { IfOk result (λ bytes. bytes.items ≡ edited picture.now value) }
    ensures sized { IfOk result (λ bytes. length bytes.items ≡ picture.now.size) }
{
    let mut bytes = vec![in alloc; b' '; picture.size as usize]?;
    edit(picture, value, bytes.as_mut_slice());
    Ok(bytes)
}

/// An item into which a figurative constant was moved.
fn figure_in(alloc: Global, picture: &Picture, figure: Figurative) -> Result<Vec<u8>, NoMemory>
    requires { MayFill figure picture.now }
    ensures bytes { IfOk result (λ bytes. bytes.items ≡ filled figure picture.now) }
    ensures sized { IfOk result (λ bytes. length bytes.items ≡ picture.now.size) }
{
    let mut bytes = vec![in alloc; b' '; picture.size as usize]?;
    fill(figure, picture, bytes.as_mut_slice());
    Ok(bytes)
}

/// What an item without VALUE opens with: zero where it is numeric, else spaces.
fn without_value(alloc: Global, picture: &Picture) -> Result<Vec<u8>, NoMemory>
    ensures bytes { IfOk result (λ bytes. bytes.items ≡ opening_bytes picture.now None) }
    ensures sized { IfOk result (λ bytes. length bytes.items ≡ picture.now.size) }
{
    match picture.kind {
        PictureKind::Numeric => number_in(alloc, picture, Num::new(0)),
        PictureKind::Alphanumeric | PictureKind::Group | PictureKind::Edited => {
            Ok(vec![in alloc; b' '; picture.size as usize]?)
        }
    }
}

fn with_value(alloc: Global, picture: &Picture, value: &Constant) -> Result<Vec<u8>, NoMemory>
    requires { can_hold picture.now (Some value.now) ≡ true }
    ensures bytes { IfOk result (λ bytes. bytes.items ≡ opening_bytes picture.now (Some value.entry.now)) }
    ensures sized { IfOk result (λ bytes. length bytes.items ≡ picture.now.size) }
{
    match value {
        Constant::Text(text) => text_in(alloc, picture.size, text.as_bytes()),
        Constant::Number(number) => number_in(alloc, picture, number.value),
        Constant::Figurative(figure) => figure_in(alloc, picture, *figure),
    }
}

fn can_hold_constant(picture: &Picture, value: &Constant) -> bool
    ensures { result ≡ can_hold picture.now (Some value.now) }
{
    match value {
        Constant::Text(_) => true,
        Constant::Number(_) => matches!(picture.kind, PictureKind::Numeric | PictureKind::Edited),
        Constant::Figurative(figure) => may_fill(*figure, picture),
    }
}

/// Whether an item of this picture can open with a VALUE.
pub fn can_hold(picture: &Picture, value: Option<&Constant>) -> bool
    ensures { result ≡ can_hold picture.now (option_copied value.entry) }
{
    match value {
        Some(value) => can_hold_constant(picture, value),
        None => true,
    }
}

/// What an occurrence of an item opens with.
pub fn opening_bytes(
    alloc: Global,
    picture: &Picture,
    value: Option<&Constant>,
) -> Result<Vec<u8>, NoMemory>
    requires { can_hold picture.now (option_copied value) ≡ true }
    ensures bytes { IfOk result (λ bytes. bytes.items ≡ opening_bytes picture.now (option_copied value.entry)) }
    ensures sized { IfOk result (λ bytes. length bytes.items ≡ picture.now.size) }
{
    match value {
        Some(value) => with_value(alloc, picture, value),
        None => without_value(alloc, picture),
    }
}
