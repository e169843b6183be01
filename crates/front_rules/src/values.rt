ghost use Rattle.std.specs.Prelude.{◌≡◌, ◌&&◌, ◌||◌, ℕ, ℤ, not, nat_le, length, Some, IfOk};
ghost use Rattle.std.specs.Option.{option_copied};
ghost use Rattle.std.specs.Ordering.{int_eq};
ghost use Rattle.picture_rule.specs.Picture.{plain};
ghost use Rattle.picture_rule.specs.Editing.{IsNumber, edited};
ghost use Rattle.picture_rule.specs.declared.kind.PictureKind.{PictureKind};
ghost use Rattle.cob_value.specs.Figures.{is_numeric, is_number};
ghost use Rattle.data_layout.specs.Walk.{counted};
ghost use Rattle.data_names.specs.Clauses.{value_clause};
ghost use Rattle.data_names.specs.Items.{DataItem};
ghost use Rattle.data_names.specs.Seen.{seen_item};
ghost use Rattle.data_names.specs.Facts.{IsFacts};
ghost use Rattle.data_names.specs.Spots.{Spot, picture_of_item, has_value, is_in_value, is_sized};
ghost use Rattle.front_rules.specs.Kinds.{read_back, fits, is_unfit, has_bad_value};

use cob_base::{ByteText, Constant, NoMemory, Num};
use cob_value::{load, may_fill};
use data_names::{Facts, KnownItem, has_value, value};
use picture_rule::{Picture, PictureKind, edit, unedit};
use std::alloc::Global;

/// What an item of this numeric or edited picture gives back of a value that it holds.
fn read_back(alloc: Global, picture: &Picture, value: Num) -> Result<Num, NoMemory>
    requires { IsNumber picture.now.kind }
    ensures { IfOk result (λ number. number ≡ read_back picture.now value) }
{
    let mut bytes = vec![in alloc; 0u8; picture.size as usize]?;
    edit(picture, value, bytes.as_mut_slice());
    Ok(read(picture, bytes.as_slice()))
}

/// The value that an item of this numeric or edited picture has with these bytes.
fn read(picture: &Picture, bytes: &[u8]) -> Num
    requires number { IsNumber picture.now.kind }
    requires size { length bytes.now ≡ picture.now.size }
    ensures { (value : ℤ) → bytes.now ≡ edited picture.now value → result ≡ read_back picture.now value }
{
    match picture.kind {
        PictureKind::Numeric => load(picture, bytes),
        _ => unedit(picture, bytes),
    }
}

fn same_value(value: Num, other: Num) -> bool
    ensures { result ≡ int_eq value other }
{
    value.units() == other.units()
}

fn is_numeric(kind: PictureKind) -> bool
    ensures { result ≡ is_numeric kind }
{
    matches!(kind, PictureKind::Numeric)
}

fn does_number_fit(alloc: Global, picture: &Picture, value: Num) -> Result<bool, NoMemory>
    ensures { IfOk result (λ fitting. fitting ≡ (is_number picture.now.kind && int_eq (read_back picture.now value) value)) }
{
    match picture.kind {
        PictureKind::Alphanumeric | PictureKind::Group => Ok(false),
        PictureKind::Numeric | PictureKind::Edited => Ok(same_value(
            read_back(alloc, picture, value)?,
            value,
        )),
    }
}

fn does_text_fit(sized: bool, picture: &Picture, text: &ByteText) -> bool
    ensures { result ≡ (not (is_numeric picture.now.kind) && (not sized || nat_le (length text.now) picture.now.size)) }
{
    !is_numeric(picture.kind) && (!sized || text.as_bytes().len() as u64 <= u64::from(picture.size))
}

/// Whether a constant fits an item as its VALUE. `sized` says that the item's size is known.
fn does_fit(
    alloc: Global,
    sized: bool,
    picture: &Picture,
    constant: &Constant,
) -> Result<bool, NoMemory>
    ensures { IfOk result (λ fitting. fitting ≡ fits sized picture.now constant.now) }
{
    match constant {
        Constant::Text(text) => Ok(does_text_fit(sized, picture, text)),
        Constant::Number(number) => does_number_fit(alloc, picture, number.value),
        Constant::Figurative(figure) => Ok(may_fill(*figure, picture)),
    }
}

/// Whether a text fits a group of so many bytes, as far as they are counted.
fn does_group_hold(bytes: u64, text: &ByteText) -> bool
    ensures { (size : ℕ) → bytes ≡ counted size → result ≡ nat_le (length text.now) size }
{
    text.as_bytes().len() as u64 <= bytes
}

/// Whether a constant fits a group of so many bytes, as far as they are counted, as its VALUE.
fn does_fit_group(alloc: Global, sized: bool, bytes: u64, constant: &Constant) -> bool
    ensures { (size : ℕ) → bytes ≡ counted size → result ≡ fits sized (plain PictureKind.Group size) constant.now }
{
    match constant {
        Constant::Text(text) => !sized || does_group_hold(bytes, text),
        Constant::Number(_) => false,
        Constant::Figurative(figure) => may_fill(*figure, &Picture::group(alloc, 0)),
    }
}

fn is_unfit_for(
    alloc: Global,
    sized: bool,
    picture: Option<&Picture>,
    constant: &Constant,
) -> Result<bool, NoMemory>
    ensures { IfOk result (λ bad. bad ≡ is_unfit sized (option_copied picture.entry) (Some constant.now)) }
{
    match picture {
        Some(picture) => Ok(!does_fit(alloc, sized, picture, constant)?),
        None => Ok(false),
    }
}

/// Whether the VALUE of an item does not fit it.
fn is_unfit(alloc: Global, item: &KnownItem, facts: &Facts) -> Result<bool, NoMemory>
    ensures { (spot : Spot DataItem) → spot.item ≡ seen_item item.now → IsFacts spot facts.now → IfOk result (λ bad. bad ≡ is_unfit (is_sized spot) (picture_of_item spot) (value_clause spot.item.source.entry.clauses)) }
{
    let Some(constant) = value(item.source.entry.clauses.as_slice()) else {
        return Ok(false);
    };
    if item.row.group {
        return Ok(!does_fit_group(alloc, facts.sized, facts.bytes, constant));
    }
    is_unfit_for(alloc, facts.sized, item.text.picture.as_ref(), constant)
}

/// Whether a VALUE stands in the file section or inside a group with VALUE.
fn is_misplaced(item: &KnownItem, facts: &Facts) -> bool
    ensures { (spot : Spot DataItem) → spot.item ≡ seen_item item.now → IsFacts spot facts.now → result ≡ (has_value spot.item && (spot.item.row.in_file || is_in_value spot)) }
{
    has_value(item) && (item.row.in_file || facts.in_value)
}

/// Whether a VALUE stands in the file section or inside a group with VALUE, or doesn't fit its item.
pub fn has_bad_value(alloc: Global, item: &KnownItem, facts: &Facts) -> Result<bool, NoMemory>
    ensures { (spot : Spot DataItem) → spot.item ≡ seen_item item.now → IsFacts spot facts.now → IfOk result (λ bad. bad ≡ has_bad_value spot) }
{
    if is_misplaced(item, facts) {
        return Ok(true);
    }
    is_unfit(alloc, item, facts)
}
