ghost use Rattle.std.specs.Prelude.{◌≡◌, length, replicate, slice_index_or};
ghost use Rattle.std.specs.Ordering.{nat_cmp};
ghost use Rattle.std.specs.Cmp.Lexicographic.{slice_cmp};
ghost use Rattle.cob_value.specs.Texts.{fitted, compared_texts};

use std::cmp::Ordering;

/// The byte in a place, a space where there is none.
fn byte_or_space(bytes: &[u8], place: usize) -> u8
    ensures { result ≡ slice_index_or bytes.now place 32 }
{
    bytes.get(place).copied().unwrap_or(b' ')
}

/// Copies bytes from the left; they are cut, or filled with spaces.
pub fn fit(bytes: &[u8], out: &mut [u8])
    ensures { out.new ≡ fitted (length out.old) bytes.now }
{
    for (i, place) in out.iter_mut().enumerate() {
        *place = byte_or_space(bytes, i);
    }
}

/// Compares two texts byte by byte, the shorter one filled with spaces.
pub fn compare_texts(x: &[u8], y: &[u8]) -> Ordering
    ensures { result ≡ compared_texts x.now y.now }
{
    for i in 0..x.len().max(y.len()) {
        let order = byte_or_space(x, i).cmp(&byte_or_space(y, i));
        if order != Ordering::Equal {
            return order;
        }
    }
    Ordering::Equal
}

/// Compares a text with a byte that is repeated to its length.
pub fn compare_with_byte(bytes: &[u8], byte: u8) -> Ordering
    ensures { result ≡ slice_cmp nat_cmp bytes.now (replicate (length bytes.now) byte) }
{
    for each in bytes {
        let order = each.cmp(&byte);
        if order != Ordering::Equal {
            return order;
        }
    }
    Ordering::Equal
}
