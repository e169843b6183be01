ghost use Rattle.std.specs.Prelude.{◌≡◌, ◌^◌, unsigned_abs};
ghost use Rattle.cob_value.specs.Arithmetic.{is_within, sum_of, difference_of, product_of, quotient_of};

use cob_base::Num;

/// How many units of 10^-12 make a millionth.
const MILLION: i128 = 1_000_000;

/// Whether there are fewer than 10^38 units, whatever their sign.
fn are_few(units: i128) -> bool
    ensures { result ≡ is_within units }
{
    units.unsigned_abs() < 100_000_000_000_000_000_000_000_000_000_000_000_000
}

/// The sum; none where it has 10^38 millionths or more, which is a size error.
pub fn add(a: Num, b: Num) -> Option<Num>
    ensures { result ≡ sum_of a b }
{
    let sum = a.units().checked_add(b.units())?;
    if are_few(sum) {
        Some(Num::new(sum))
    } else {
        None
    }
}

/// The difference; none where it has 10^38 millionths or more, which is a size error.
pub fn subtract(a: Num, b: Num) -> Option<Num>
    ensures { result ≡ difference_of a b }
{
    let difference = a.units().checked_sub(b.units())?;
    if are_few(difference) {
        Some(Num::new(difference))
    } else {
        None
    }
}

/// The product, cut toward zero at the millionths. Before the cut it is exact in units of 10^-12; 10^38 of them or more are a
/// size error, which gives none.
pub fn multiply(a: Num, b: Num) -> Option<Num>
    ensures { result ≡ product_of a b }
{
    let product = a.units().checked_mul(b.units())?;
    if are_few(product) {
        Some(Num::new(product / MILLION))
    } else {
        None
    }
}

/// The quotient, cut toward zero at the millionths. A zero divisor is a size error, and so is a dividend of 10^38 units of
/// 10^-12 or more; these give none.
pub fn divide(a: Num, b: Num) -> Option<Num>
    ensures { result ≡ quotient_of a b }
{
    let divisor = b.units();
    if divisor == 0 {
        return None;
    }
    let dividend = a.units().checked_mul(MILLION)?;
    if are_few(dividend) {
        Some(Num::new(dividend / divisor))
    } else {
        None
    }
}
