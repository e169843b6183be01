ghost use Rattle.std.specs.Prelude.{◌≡◌, ◌<◌, ◌^◌, unsigned_abs, int_lt, pos};
ghost use Rattle.picture_rule.specs.Editing.{signed_number};

use cob_base::Num;

/// The millionths of a number without its sign.
pub fn magnitude(value: Num) -> u128
    ensures value { result ≡ unsigned_abs value }
    ensures within { result < 10 ^ 38 }
{
    value.units().unsigned_abs()
}

/// Whether a number is below zero.
pub fn is_negative(value: Num) -> bool
    ensures { result ≡ int_lt value (pos 0) }
{
    value.units() < 0
}

/// The number of so many millionths, below zero where `negative` says so and they are not 0.
pub fn signed(negative: bool, magnitude: u128) -> Num
    requires { magnitude < 10 ^ 38 }
    ensures { result ≡ signed_number negative magnitude }
{
    let units = magnitude as i128;
    if negative {
        Num::new(-units)
    } else {
        Num::new(units)
    }
}
