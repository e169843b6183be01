//! Moves between all categories, and of figurative constants.

use crate::tests::{REFUSED, cut, figure_of, has_size, item};
use crate::{Figure, fill, may_fill, may_move, move_bytes};
use cob_base::NoMemory;
use picture_rule::{Picture, PictureFault};
use std::alloc::Global;
use std::test::Fail;

/// The sender and its bytes, the receiver and its bytes after the move.
const MOVES: &str = "\
text is filled|X(3)|ABC|X(5)|ABC  |
text is cut|X(5)|ABCDE|X(3)|ABC|
letters to a text|A(2)|AB|X(2)|AB|
text to a longer group|X(3)|ABC|GROUP|ABC  |
text to a shorter group|X(3)|ABC|GROUP|AB|
a group to a text|GROUP|12 |X(2)|12|
a group to a longer text|GROUP|12|X(3)|12 |
a group to a group|GROUP|ab|GROUP|ab |
a group to a number|GROUP|AB|9(3)|AB |
a long group to a number|GROUP|1234|9(3)|123|
a group to decimals|GROUP|12|9V9|12|
a group to a separate sign|GROUP|12|S99 LEADING|12 |
a group to edited|GROUP|7|ZZ9|7  |
a number to a group|S9(3)|01r|GROUP|01r |
a separate sign to a group|S9(3) LEADING|-012|GROUP|-012|
decimals to a group|9(3)V9|1234|GROUP|12|
edited to a group|ZZ9.99|  1.50|GROUP|  1.50 |
text to a number|X(3)|123|9(5)|00123|
no digits in a text|X(4)|12A4|9(5)|01204|
a sign in a text|X(3)|-12|S9(3)|012|
a raised digit in a text|X(3)|01r|S9(3)|010|
a text cut of high digits|X(3)|198|99|98|
a text to decimals|X(3)|125|9(3)V99|12500|
spaces to a number|X(3)|   |9(3)|000|
the last 18 bytes of a text|X(20)|12345678901234567890|9(18)|345678901234567890|
spaces behind the digits of a text|X(20)|12345678901234567   |9(18)|345678901234567000|
a text to edited|X(3)|125|Z,ZZ9.9|  125.0|
a text of no digits to edited|X|A|ZZ|  |
a number to a longer text|9(3)|012|X(5)|012  |
a number to a shorter text|9(3)|012|X(2)|01|
a sign inside to a text|S9(3)|01r|X(3)|012|
a sign before to a text|S9(3) LEADING|-012|X(4)|012 |
a sign behind to a text|S9(3) TRAILING|012-|X(4)|012 |
no digit to a text|9(3)|1 2|X(3)|102|
decimals to a text|9(3)V9|1234|X(4)|refused|
signed decimals to a text|S9V9 LEADING|-12|X(4)|refused|
a number to a longer one|9(3)|123|9(5)|00123|
a number cut of high digits|9(5)|12345|9(3)|345|
decimals are cut|9(3)V99|12399|9(3)|123|
points are aligned|9V9|15|9(3)V99|00150|
an unsigned receiver|S9(3)|01r|9(3)|012|
from inside to before|S9(3)|01r|S9(3) LEADING|-012|
from before to behind|S9(3) LEADING|-012|S9(3) TRAILING|012-|
from behind to inside|S9(3) TRAILING|012-|S9(3)|01r|
zero after the cut is plus|S9V9|0r|S9|0|
zero of high digits is plus|S99|1p|S9 LEADING|+0|
a number to edited|S9(3)|01r|ZZ9-| 12-|
decimals to edited|9(4)V99|123450|ZZ,ZZ9.99| 1,234.50|
to a sign before|S9(3)|01r|+999|-012|
zero to all Z|9(3)|000|ZZZ|   |
zero to all stars|9(3)|000|**.99|**.00|
to CR|S9 TRAILING|5-|$**9CR|$**5CR|
edited to a text|ZZ9|  3|X(4)|  3 |
edited to a shorter text|ZZ9.9|  3.5|X(3)|  3|
edited to a number|ZZ9|3  |9(3)|003|
edited to decimals|ZZ,ZZ9.99| 1,234.50|9(5)V99|0123450|
edited with a sign|ZZ9-|  5-|S9(3)|00u|
edited with a sign to none|ZZ9-|  5-|9(3)|005|
edited to edited|ZZ9.99|  1.50|+99.9|+01.5|
edited with CR to edited|ZZ9CR|  5CR|-99|-05|
";

/// The constant, the receiver and its bytes after the move.
const FILLS: &str = "\
ZERO to a text|ZERO|X(3)|000|
ZERO to a group|ZERO|GROUP|00|
ZERO to a number|ZERO|9(3)|000|
ZERO to a sign inside|ZERO|S9(3)|000|
ZERO to a sign before|ZERO|S9(3) LEADING|+000|
ZERO to a sign behind|ZERO|S9V9 TRAILING|00+|
ZERO to edited|ZERO|ZZ9|  0|
ZERO to all Z|ZERO|ZZZCR|     |
ZERO to stars and a point|ZERO|**9.99|**0.00|
ZERO to an edited sign|ZERO|+9|+0|
SPACE to a text|SPACE|X(3)|   |
SPACE to a group|SPACE|GROUP|  |
LOW-VALUE to a text|LOW-VALUE|X|\x00|
LOW-VALUE to a group|LOW-VALUE|GROUP|\x00\x00|
SPACE to a number|SPACE|9|refused|
SPACE to edited|SPACE|ZZ9|refused|
HIGH-VALUE to a number|HIGH-VALUE|S9 LEADING|refused|
LOW-VALUE to edited|LOW-VALUE|Z9.9|refused|
";

/// What the receiver holds after a move.
fn moved(alloc: Global, from: &Picture, bytes: &[u8], to: &Picture) -> Result<Vec<u8>, NoMemory> {
    let mut out = vec![in alloc; b'#'; to.size as usize]?;
    if !may_move(from, to) || !has_size(from, bytes) {
        return Ok(Vec::from_slice(alloc, REFUSED)?);
    }
    move_bytes(from, bytes, to, out.as_mut_slice());
    Ok(out)
}

/// Whether a row's move gives what the row says.
fn is_moved(alloc: Global, row: &str) -> Result<bool, PictureFault> {
    let (_, row) = cut(row);
    let (from, row) = cut(row);
    let (bytes, row) = cut(row);
    let (to, row) = cut(row);
    let (expected, _) = cut(row);
    let from = item(alloc, from, bytes.len())?;
    let to = item(alloc, to, expected.len())?;
    let found = moved(alloc, &from, bytes.as_bytes(), &to)?;
    Ok(found.as_slice() == expected.as_bytes())
}

#[test]
fn moves_go_by_categories(rt: HostRuntime) -> Result<(), Fail> {
    for row in MOVES.lines() {
        assert!(rt; is_moved(rt.alloc(), row)?, "{row}");
    }
    Ok(())
}

/// What the receiver holds after a move of a figurative constant.
fn filled(alloc: Global, figure: Figure, to: &Picture) -> Result<Vec<u8>, NoMemory> {
    let mut out = vec![in alloc; b'#'; to.size as usize]?;
    if !may_fill(figure, to) {
        return Ok(Vec::from_slice(alloc, REFUSED)?);
    }
    fill(figure, to, out.as_mut_slice());
    Ok(out)
}

fn is_filled(alloc: Global, row: &str) -> Result<bool, PictureFault> {
    let (_, row) = cut(row);
    let (figure, row) = cut(row);
    let (to, row) = cut(row);
    let (expected, _) = cut(row);
    let to = item(alloc, to, expected.len())?;
    let found = filled(alloc, figure_of(figure), &to)?;
    Ok(found.as_slice() == expected.as_bytes())
}

#[test]
fn figurative_constants_fill_items(rt: HostRuntime) -> Result<(), Fail> {
    for row in FILLS.lines() {
        assert!(rt; is_filled(rt.alloc(), row)?, "{row}");
    }
    let text = item(rt.alloc(), "X(2)", 2)?;
    let found = filled(rt.alloc(), Figure::HighValue, &text)?;
    assert_eq!(rt; found.as_slice(), [255, 255].as_slice());
    Ok(())
}
