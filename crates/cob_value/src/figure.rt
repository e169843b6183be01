ghost use Rattle.std.specs.Prelude.{◌≡◌};
ghost use Rattle.cob_value.specs.Figures.{figure_byte, is_zero, is_alphanumeric, is_group, is_numeric, is_number};

use cob_base::Figurative;
use picture_rule::PictureKind;

/// The byte that a figurative constant repeats.
pub fn byte_of(figure: Figurative) -> u8
    ensures { result ≡ figure_byte figure }
{
    match figure {
        Figurative::Zero => b'0',
        Figurative::Space => b' ',
        Figurative::HighValue => 255,
        Figurative::LowValue => 0,
    }
}

pub fn is_zero_figure(figure: Figurative) -> bool
    ensures { result ≡ is_zero figure }
{
    matches!(figure, Figurative::Zero)
}

pub fn is_group_kind(kind: PictureKind) -> bool
    ensures { result ≡ is_group kind }
{
    matches!(kind, PictureKind::Group)
}

pub fn is_alphanumeric_kind(kind: PictureKind) -> bool
    ensures { result ≡ is_alphanumeric kind }
{
    matches!(kind, PictureKind::Alphanumeric)
}

pub fn is_numeric_kind(kind: PictureKind) -> bool
    ensures { result ≡ is_numeric kind }
{
    matches!(kind, PictureKind::Numeric)
}

/// Whether items of the category hold values: numeric and edited ones do.
pub fn is_number_kind(kind: PictureKind) -> bool
    ensures { result ≡ is_number kind }
{
    matches!(kind, PictureKind::Numeric | PictureKind::Edited)
}
