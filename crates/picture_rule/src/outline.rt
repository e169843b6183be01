use crate::PictureKind;

/// What a text spells, with its numbers as far as they are counted, at most `u64::MAX`.
#[derive(Clone, Copy, Debug)]
pub struct Outline {
    pub kind: PictureKind,
    pub size: u64,
    pub digits: u64,
    pub decimals: u64,
    pub signed: bool,
}
