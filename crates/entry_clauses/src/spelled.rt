ghost use Rattle.std.specs.Prelude.{◌≡◌};
ghost use Rattle.data_layout.specs.Faults.{is_missing, is_unreadable};
ghost use Rattle.entry_clauses.specs.Spelled.{is_too_wide};

use data_layout::Spelled;

/// Whether there is no PICTURE clause.
pub fn is_missing(spelled: Spelled) -> bool
    ensures { result ≡ is_missing spelled }
{
    match spelled {
        Spelled::Missing => true,
        Spelled::Unreadable => false,
        Spelled::TooWide => false,
        Spelled::Fits => false,
    }
}

/// Whether the text after PICTURE is no picture.
pub fn is_unreadable(spelled: Spelled) -> bool
    ensures { result ≡ is_unreadable spelled }
{
    match spelled {
        Spelled::Missing => false,
        Spelled::Unreadable => true,
        Spelled::TooWide => false,
        Spelled::Fits => false,
    }
}

/// Whether a picture is past its limits.
pub fn is_too_wide(spelled: Spelled) -> bool
    ensures { result ≡ is_too_wide spelled }
{
    match spelled {
        Spelled::Missing => false,
        Spelled::Unreadable => false,
        Spelled::TooWide => true,
        Spelled::Fits => false,
    }
}
