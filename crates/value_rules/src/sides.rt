ghost use Rattle.std.specs.Prelude.{◌≡◌, ◌<◌, length, slice_get, Option, Some, IfOk};
ghost use Rattle.picture_rule.specs.Picture.{PictureValue};
ghost use Rattle.data_names.specs.Items.{DataItem};
ghost use Rattle.data_names.specs.Spots.{Spot, spots, picture_of_item};
ghost use Rattle.data_names.specs.Seen.{seen_item};
ghost use Rattle.data_names.specs.Table.{IsTable, items_of};
ghost use Rattle.name_rules.specs.Mentions.{picture_found};
ghost use Rattle.cob_value.specs.Moves.{has_text};
ghost use Rattle.cob_value.specs.Figures.{is_zero, is_numeric, is_number, is_alphanumeric};
ghost use Rattle.value_rules.specs.Kinds as k;
ghost use Rattle.value_rules.specs.SeenSides.{IsStanding, IsStandingOf, IsSide};

use cob_base::{Constant, Figurative, NoMemory, Operand, Reference};
use data_names::{KnownItem, Table};
use picture_rule::{Picture, PictureKind};
use std::alloc::Global;

/// What rules on kinds look at in an item or a literal.
#[derive(Clone, Copy, Debug, PartialEq, Eq)]
pub struct Standing {
    pub kind: PictureKind,
    /// Whether it stands as a text, which a number with decimal places does not.
    pub text: bool,
}

/// What an operand is beside another one.
#[derive(Clone, Copy, Debug, PartialEq, Eq)]
pub enum Side {
    /// An item or a literal.
    Pictured(Standing),
    /// A figurative constant.
    Figured(Figurative),
    /// An item whose picture is not known.
    Unknown,
}

fn stands_as_text(picture: &Picture) -> bool
    ensures { result ≡ has_text picture.now }
{
    !(is_numeric(picture.kind) && picture.decimals > 0)
}

/// What an item is; None where its picture is not known.
fn standing_of_item(item: KnownItem) -> Option<Standing>
    ensures { (spot : Spot DataItem) → spot.item ≡ seen_item item.entry → IsStandingOf (picture_of_item spot) result }
{
    let text = item.text;
    if item.row.group {
        return Some(Standing {
            kind: PictureKind::Group,
            text: true,
        });
    }
    match &text.picture {
        Some(picture) => Some(Standing {
            kind: picture.kind,
            text: stands_as_text(picture),
        }),
        None => None,
    }
}

/// What the item of a number is; None where its picture is not known.
pub fn standing_at(table: &Table, at: usize) -> Option<Standing>
    requires { at < length table.now.items.now }
    ensures { (spot : Spot DataItem) → slice_get (spots (items_of table.now)) at ≡ Some spot → IsStandingOf (picture_of_item spot) result }
{
    standing_of_item(table.item_at(at))
}

/// What the item of a reference is; None where it stands for none, or its picture is not known.
pub fn standing_of(
    alloc: Global,
    table: &Table,
    reference: &Reference,
) -> Result<Option<Standing>, NoMemory>
    requires { IsTable table.now }
    ensures { IfOk result (λ standing. IsStandingOf (picture_found (items_of table.now) reference.now) standing) }
{
    match table.found(alloc, reference)? {
        Some(at) => Ok(standing_at(table, at)),
        None => Ok(None),
    }
}

pub fn side_at(standing: Option<Standing>) -> Side
    ensures { (p : Option PictureValue) → IsStandingOf p standing → IsSide (k.side_of_picture p) result }
{
    match standing {
        Some(standing) => Side::Pictured(standing),
        None => Side::Unknown,
    }
}

/// What a constant is: a text stands as an alphanumeric item, a number as a numeric one.
pub fn side_of_constant(constant: &Constant) -> Side
    ensures { IsSide (k.side_of_constant constant.now) result }
{
    match constant {
        Constant::Text(_) => Side::Pictured(Standing {
            kind: PictureKind::Alphanumeric,
            text: true,
        }),
        Constant::Number(number) => Side::Pictured(Standing {
            kind: PictureKind::Numeric,
            text: number.decimals == 0,
        }),
        Constant::Figurative(figure) => Side::Figured(*figure),
    }
}

/// What an operand is.
pub fn side_of(alloc: Global, table: &Table, operand: &Operand) -> Result<Side, NoMemory>
    requires { IsTable table.now }
    ensures { IfOk result (λ side. IsSide (k.side_of (items_of table.now) operand.now) side) }
{
    match operand {
        Operand::Reference(reference) => Ok(side_at(standing_of(alloc, table, reference)?)),
        Operand::Constant(constant) => Ok(side_of_constant(constant)),
    }
}

fn is_zero(figure: Figurative) -> bool
    ensures { result ≡ is_zero figure }
{
    matches!(figure, Figurative::Zero)
}

fn is_numeric(kind: PictureKind) -> bool
    ensures { result ≡ is_numeric kind }
{
    matches!(kind, PictureKind::Numeric)
}

fn is_number(kind: PictureKind) -> bool
    ensures { result ≡ is_number kind }
{
    matches!(kind, PictureKind::Numeric | PictureKind::Edited)
}

fn is_alphanumeric(kind: PictureKind) -> bool
    ensures { result ≡ is_alphanumeric kind }
{
    matches!(kind, PictureKind::Alphanumeric)
}

/// Whether two operands can't be compared. Two figurative constants always can.
pub fn is_bad_comparison(left: Side, right: Side) -> bool
    ensures { (a b : k.Side) → IsSide a left → IsSide b right → result ≡ k.is_bad_comparison a b }
{
    match (left, right) {
        (Side::Pictured(a), Side::Pictured(b)) => !((is_numeric(a.kind) && is_numeric(b.kind))
            || (a.text && b.text)),
        (Side::Pictured(a), Side::Figured(figure)) => !(is_zero(figure) || a.text),
        (Side::Figured(figure), Side::Pictured(b)) => !(is_zero(figure) || b.text),
        (Side::Figured(_), Side::Figured(_)) => false,
        (Side::Unknown, _) => false,
        (_, Side::Unknown) => false,
    }
}

/// Whether an operand can't be moved into an item.
pub fn is_bad_move(from: Side, to: Standing) -> bool
    ensures { (a : k.Side) (p : PictureValue) → IsSide a from → IsStanding p to → result ≡ k.is_bad_side_into a p }
{
    match from {
        Side::Pictured(from) => is_alphanumeric(to.kind) && !from.text,
        Side::Figured(figure) => !is_zero(figure) && is_number(to.kind),
        Side::Unknown => false,
    }
}

/// Whether an item is not numeric.
pub fn is_no_numeric(standing: Option<Standing>) -> bool
    ensures { (p : Option PictureValue) → IsStandingOf p standing → result ≡ k.is_no_numeric p }
{
    match standing {
        Some(standing) => !is_numeric(standing.kind),
        None => false,
    }
}

/// Whether an item is neither numeric nor edited.
pub fn is_no_number(standing: Option<Standing>) -> bool
    ensures { (p : Option PictureValue) → IsStandingOf p standing → result ≡ k.is_no_number p }
{
    match standing {
        Some(standing) => !is_number(standing.kind),
        None => false,
    }
}

/// Whether a constant is no operand of arithmetic: numbers and ZERO are.
pub fn is_no_numeric_constant(constant: &Constant) -> bool
    ensures { result ≡ k.is_no_numeric_constant constant.now }
{
    match constant {
        Constant::Text(_) => true,
        Constant::Number(_) => false,
        Constant::Figurative(figure) => !is_zero(*figure),
    }
}

/// Whether a constant is no whole number: ZERO and numbers written without decimal places are.
pub fn is_no_whole_constant(constant: &Constant) -> bool
    ensures { result ≡ k.is_no_whole_constant constant.now }
{
    match constant {
        Constant::Text(_) => true,
        Constant::Number(number) => number.decimals > 0,
        Constant::Figurative(figure) => !is_zero(*figure),
    }
}
