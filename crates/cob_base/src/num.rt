ghost use Rattle.std.specs.Prelude.{◌≡◌, ◌^◌, ◌<◌};
ghost use Rattle.std.specs.Int.RustNames.{unsigned_abs};

use std::marker::Model;

/// A decimal number of at most six places: a whole number of millionths, fewer than 10 ^ 38 of them in absolute value.
/// Contracts see it as that whole number.
#[derive(Clone, Copy, Debug, PartialEq, Eq, PartialOrd, Ord)]
pub struct Num {
    units: i128,
}

impl Model for Num {
    ghost use Rattle.std.specs.Prelude.{ℤ, ◌^◌, ◌<◌};
    ghost use Rattle.std.specs.Int.RustNames.{unsigned_abs};

    ghost Value = { ℤ };

    ghost view = { λ num. num.units };

    ghost invariant = { λ num. unsigned_abs num.units < 10 ^ 38 };

    ghost inverse = { λ units. record { units = units } };
}

impl Num {
    /// The number of so many millionths.
    pub fn new(units: i128) -> Num
        requires { unsigned_abs units < 10 ^ 38 }
        ensures { result ≡ units }
    {
        Num { units }
    }

    /// How many millionths it is.
    pub fn units(self) -> i128
        ensures value { result ≡ self }
        ensures within { unsigned_abs self < 10 ^ 38 }
    {
        self.units
    }
}
