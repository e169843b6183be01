//! What the tables of cases share. Each row has parts with a bar after each, the first of which says what it shows.

ghost use Rattle.std.specs.Prelude.{◌≡◌, ◌↔◌, IsTrue, length};

use crate::Figure;
use picture_rule::{Picture, PictureFault, SignPlace, read_picture};
use std::alloc::Global;

pub const REFUSED: &[u8] = b"refused";

/// The part of a row before its first bar, and what stands behind the bar.
pub fn cut(row: &str) -> (&str, &str) {
    row.split_once('|').unwrap_or((row, ""))
}

fn place_of(word: &str) -> SignPlace {
    match word {
        "LEADING" => SignPlace::Leading,
        "TRAILING" => SignPlace::Trailing,
        _ => SignPlace::Inside,
    }
}

/// The picture of an item: `GROUP` for a group of so many bytes, else a picture's text, and the place of a separate sign
/// behind a space.
pub fn item(alloc: Global, text: &str, size: usize) -> Result<Picture, PictureFault> {
    let (form, place) = text.split_once(' ').unwrap_or((text, ""));
    if form == "GROUP" {
        return Ok(Picture::group(alloc, u32::try_from(size).unwrap_or(0)));
    }
    if form.len() > 20 {
        return Err(PictureFault::NoPicture);
    }
    Ok(read_picture(alloc, form.as_bytes())?.with_sign(place_of(place)))
}

/// Whether there are as many bytes as the picture has.
pub fn has_size(pic: &Picture, bytes: &[u8]) -> bool
    ensures { IsTrue result ↔ (length bytes.now ≡ pic.now.size) }
{
    bytes.len() == pic.size as usize
}

pub fn figure_of(word: &str) -> Figure {
    match word {
        "SPACE" => Figure::Space,
        "HIGH-VALUE" => Figure::HighValue,
        "LOW-VALUE" => Figure::LowValue,
        _ => Figure::Zero,
    }
}
