//! Values that items hold, and values that are stored in them.

use crate::tests::{cut, has_size, item};
use crate::{load, store};
use cob_base::{NoMemory, Num};
use picture_rule::{Picture, PictureFault, PictureKind};
use std::alloc::Global;
use std::test::Fail;

/// An item, its bytes, and the millionths that they are.
const LOADS: &str = "\
a whole number|999|123|123000000|
decimals|9(3)V99|12345|123450000|
decimals alone|V9(6)|000001|1|
a sign inside|S9(3)|01r|-12000000|
no sign inside|S9(3)|012|12000000|
a 0 with a sign|S99|1p|-10000000|
a 1 with a sign|S99|1q|-11000000|
a 2 with a sign|S99|1r|-12000000|
a 3 with a sign|S99|1s|-13000000|
a 4 with a sign|S99|1t|-14000000|
a 5 with a sign|S99|1u|-15000000|
a 6 with a sign|S99|1v|-16000000|
a 7 with a sign|S99|1w|-17000000|
an 8 with a sign|S99|1x|-18000000|
a 9 with a sign|S99|1y|-19000000|
below the signs|S99|1o|10000000|
above the signs|S99|1z|10000000|
minus zero is zero|S99|0p|0|
a sign in an unsigned item|99|1r|10000000|
a sign before the last digit|S99|r1|1000000|
spaces count as zeros|S9(3)|   |0|
a space among digits|9(3)|1 2|102000000|
a minus among digits|9(3)|-12|12000000|
a byte past the digits|99|1:|10000000|
a byte below the digits|99|1/|10000000|
a minus before|S9(3) LEADING|-012|-12000000|
a plus before|S9(3) LEADING|+012|12000000|
a space for a sign before|S9(3) LEADING| 012|12000000|
a digit for a sign before|S9(3) LEADING|9012|12000000|
a minus behind|S9(3) TRAILING|012-|-12000000|
a plus behind|S9(3) TRAILING|012+|12000000|
a letter for a sign behind|S9(3) TRAILING|012x|12000000|
a raised byte by a sign before|S9(3) LEADING|+01r|10000000|
a raised byte by a sign behind|S9(3) TRAILING|01r-|-10000000|
zero with a minus before|S9(3) LEADING|-000|0|
a sign place without a sign|9(3) LEADING|012|12000000|
decimals with a sign|S9V99 TRAILING|105-|-1050000|
18 digits|9(18)|999999999999999999|999999999999999999000000|
18 digits with a sign|S9(18)|99999999999999999y|-999999999999999999000000|
a millionth below zero|S9(12)V9(6)|00000000000000000q|-1|
";

/// An item, the millionths that are stored in it, its bytes before, whether they fit, and its bytes after.
const STORES: &str = "\
a sign inside|S9(3)|-12000000|555|fits|01r|
no sign inside|S9(3)|12000000|555|fits|012|
a sign before|S9(3) LEADING|-12000000|5555|fits|-012|
a plus before|S9(3) LEADING|12000000|5555|fits|+012|
a sign behind|S9(3) TRAILING|-12000000|5555|fits|012-|
a plus behind|S9(3) TRAILING|12000000|5555|fits|012+|
without a sign|9(3)|-12000000|555|fits|012|
a whole part that does not fit|9(3)|1234000000|005|size error|005|
just too large|9(3)|1000000000|005|size error|005|
the largest that fits|9(3)|999999999|005|fits|999|
just too small|S9(3)|-1000000000|005|size error|005|
the least that fits|S9(3)|-999999999|005|fits|99y|
too large without its sign|9(3)|-1000000000|005|size error|005|
cut to zero is plus|S9|-900000|5|fits|0|
cut to zero is plus before|S9 LEADING|-900000|55|fits|+0|
cut to zero is plus behind|S9 TRAILING|-900000|55|fits|0+|
cut and not rounded|99V9|12370000|555|fits|123|
cut toward zero|S99V9|-12370000|555|fits|12s|
nines are not rounded up|99V9|99999999|555|fits|999|
no room for a hundred|99V9|100000000|555|size error|555|
decimals alone|V99|999999|55|fits|99|
decimals alone take no one|V99|1000000|55|size error|55|
the last millionth|S9V9(6)|-1|5555555|fits|000000q|
18 digits|9(18)|999999999999999999999999|555555555555555555|fits|999999999999999999|
19 digits|9(18)|1000000000000000000000000|555555555555555555|size error|555555555555555555|
the quotient of a product|9(18)|9999999999999000000|000000000000000005|fits|000009999999999999|
the largest number there is|S9(3)|99999999999999999999999999999999999999|005|size error|005|
the least number there is|ZZ9|-99999999999999999999999999999999999999|  5|size error|  5|
edited|ZZ9.99|1500000|    55|fits|  1.50|
edited, cut|ZZ9.99|1509999|    55|fits|  1.50|
edited, too large|ZZ9.99|1000000000|    55|size error|    55|
edited with a minus|ZZ9-|-5000000|    |fits|  5-|
edited without a sign|ZZ9|-5000000|   |fits|  5|
edited zero below zero|+9|-500000|  |fits|+0|
edited, all places suppressed|ZZZ|0|  5|fits|   |
edited, all stars|$**|0|$*5|fits|***|
edited with a dollar sign|$ZZ9|7000000|    |fits|$  7|
edited with DB|**9DB|-7000000|     |fits|**7DB|
";

/// The millionths that the bytes of a numeric item are.
fn units_in(pic: &Picture, bytes: &[u8]) -> Option<i128> {
    match pic.kind {
        PictureKind::Numeric => {
            if has_size(pic, bytes) {
                Some(load(pic, bytes).units())
            } else {
                None
            }
        }
        _ => None,
    }
}

fn number(text: &str) -> Option<i128> {
    text.parse::<i128>().ok()
}

fn is_loaded(alloc: Global, row: &str) -> Result<bool, PictureFault> {
    let (_, row) = cut(row);
    let (pic, row) = cut(row);
    let (bytes, row) = cut(row);
    let (units, _) = cut(row);
    let pic = item(alloc, pic, 0)?;
    let found = units_in(&pic, bytes.as_bytes());
    Ok(found.is_some() && found == number(units))
}

#[test]
fn items_hold_their_values(rt: HostRuntime) -> Result<(), Fail> {
    for row in LOADS.lines() {
        assert!(rt; is_loaded(rt.alloc(), row)?, "{row}");
    }
    let pic = item(rt.alloc(), "99", 2)?;
    assert_eq!(rt; units_in(&pic, &[255, b'1']), Some(1_000_000));
    Ok(())
}

/// Stores so many millionths in a numeric or edited item.
fn store_units(pic: &Picture, units: i128, out: &mut [u8]) -> bool {
    if units.unsigned_abs() >= 100_000_000_000_000_000_000_000_000_000_000_000_000 {
        return false;
    }
    match pic.kind {
        PictureKind::Numeric | PictureKind::Edited => {
            has_size(pic, out) && store(pic, Num::new(units), out)
        }
        _ => false,
    }
}

fn copy_of(alloc: Global, bytes: &[u8]) -> Result<Vec<u8>, NoMemory> {
    Ok(Vec::from_slice(alloc, bytes)?)
}

fn is_stored(alloc: Global, row: &str) -> Result<bool, PictureFault> {
    let (_, row) = cut(row);
    let (pic, row) = cut(row);
    let (units, row) = cut(row);
    let (before, row) = cut(row);
    let (answer, row) = cut(row);
    let (after, _) = cut(row);
    let pic = item(alloc, pic, 0)?;
    let mut out = copy_of(alloc, before.as_bytes())?;
    let fits = store_units(&pic, number(units).unwrap_or(0), out.as_mut_slice());
    Ok(fits == (answer == "fits") && out.as_slice() == after.as_bytes())
}

#[test]
fn values_are_stored_where_they_fit(rt: HostRuntime) -> Result<(), Fail> {
    for row in STORES.lines() {
        assert!(rt; is_stored(rt.alloc(), row)?, "{row}");
    }
    Ok(())
}
