ghost use Rattle.std.specs.Prelude.{◌≡◌};

use crate::PictureKind;
use cob_base::NoMemory;
use thiserror::Error;

/// Why a text gives no picture.
#[derive(Clone, Copy, Debug, PartialEq, Eq, Error)]
pub enum PictureFault {
    /// No form of a picture fits.
    #[error("no picture")]
    NoPicture,
    /// A form fits, but it is past its limits. `size` is the number of bytes that the text spells, or `u32::MAX` where there
    /// are more; `whole` says that it spells no decimals.
    #[error("a picture past its limits, of {size} bytes")]
    TooWide {
        kind: PictureKind,
        size: u32,
        signed: bool,
        whole: bool,
    },
    /// Want of memory.
    #[error("memory ran out")]
    NoMemory,
}

impl From<NoMemory> for PictureFault {
    ghost use Rattle.picture_rule.specs.declared.fault.PictureFault.TheVariants as faults;

    ghost from_gives = { λ _ fault. fault ≡ faults.NoMemory };

    fn from(_: NoMemory) -> Self {
        PictureFault::NoMemory
    }
}
