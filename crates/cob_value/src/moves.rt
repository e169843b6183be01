ghost use Rattle.std.specs.Prelude.{◌≡◌, length};
ghost use Rattle.cob_value.specs.Moves.{has_text, may_move, MayMove, moved, value_sent, may_fill, MayFill, filled};

use crate::figure::{
    byte_of, is_alphanumeric_kind, is_number_kind, is_numeric_kind, is_zero_figure,
};
use crate::texts::fit;
use crate::values::{item_digits, load, load_text};
use cob_base::{Figurative, Num};
use picture_rule::{Picture, PictureKind, edit, unedit};

/// Whether an item stands as a text, which a number with decimal places does not.
pub fn is_text(pic: &Picture) -> bool
    ensures { result ≡ has_text pic.now }
{
    !(is_numeric_kind(pic.kind) && pic.decimals > 0)
}

/// Whether a MOVE may have this sender and this receiver.
pub fn may_move(from: &Picture, to: &Picture) -> bool
    ensures { result ≡ may_move from.now to.now }
{
    !is_alphanumeric_kind(to.kind) || is_text(from)
}

/// The value that a numeric or edited receiver gets from a sender.
fn value_from(from: &Picture, bytes: &[u8]) -> Num
    requires { length bytes.now ≡ from.now.size }
    ensures { result ≡ value_sent from.now.kind from.now bytes.now }
{
    match from.kind {
        PictureKind::Alphanumeric | PictureKind::Group => load_text(bytes),
        PictureKind::Numeric => load(from, bytes),
        PictureKind::Edited => unedit(from, bytes),
    }
}

/// Moves an item's bytes into another item. From and to a group they are copied; an alphanumeric receiver takes the sender's
/// text, a numeric or edited one its value, cut at its last place and of high digits that do not fit.
pub fn move_bytes(from: &Picture, bytes: &[u8], to: &Picture, out: &mut [u8])
    requires allowed { MayMove from.now to.now }
    requires from_size { length bytes.now ≡ from.now.size }
    requires to_size { length out.old ≡ to.now.size }
    ensures { out.new ≡ moved from.now bytes.now to.now }
{
    match (from.kind, to.kind) {
        (PictureKind::Group, _) | (_, PictureKind::Group) => fit(bytes, out),
        (PictureKind::Numeric, PictureKind::Alphanumeric) => {
            fit(&item_digits(from, bytes)[..usize::from(from.digits)], out)
        }
        (_, PictureKind::Alphanumeric) => fit(bytes, out),
        (_, PictureKind::Numeric | PictureKind::Edited) => edit(to, value_from(from, bytes), out),
    }
}

/// Whether a figurative constant may be moved into an item.
pub fn may_fill(figure: Figurative, to: &Picture) -> bool
    ensures { result ≡ may_fill figure to.now }
{
    is_zero_figure(figure) || !is_number_kind(to.kind)
}

/// Moves a figurative constant into an item: the value 0 into a numeric or edited one, its byte into each place of others.
pub fn fill(figure: Figurative, to: &Picture, out: &mut [u8])
    requires allowed { MayFill figure to.now }
    requires size { length out.old ≡ to.now.size }
    ensures { out.new ≡ filled figure to.now }
{
    if is_number_kind(to.kind) {
        edit(to, Num::new(0), out);
    } else {
        out.fill(byte_of(figure));
    }
}
