ghost use Rattle.std.specs.Prelude.{◌≡◌, ℕ, List, length, count_by, IfSome, OnSome, IfNone, true, false, if◌then◌else◌};
ghost use Rattle.picture_rule.specs.Picture.{is_among, is_digit_mark};
ghost use Rattle.picture_rule.specs.Reading.{counted};
ghost use Rattle.picture_rule.specs.Span.{IsSpan, IsWanted, StopsAt};

use crate::run::{Symbol, front_run};

/// The longest front of a picture's text that writes marks of some kinds.
#[derive(Drop)]
pub struct Span<'a> {
    /// How many marks these are, at most `u64::MAX`.
    pub length: u64,
    /// How many of them stand for a digit, at most `u64::MAX`.
    pub digits: u64,
    /// What follows them.
    pub rest: &'a [u8],
}

/// How many of these marks stand for a digit.
fn digits_of(mark: u8, times: u64) -> u64
    ensures { result ≡ (if is_digit_mark mark then times else 0) }
{
    if b"Z*9".contains(&mark) { times } else { 0 }
}

/// The mark at the front, where it is a wanted one, how often it counts, and what follows.
fn wanted_run<'a>(text: &'a [u8], wanted: &[u8]) -> Option<(u8, u64, &'a [u8])>
    requires credit { is_among wanted.now 67 ≡ false }
    requires debit { is_among wanted.now 68 ≡ false }
    ensures found { IfSome result (λ x. (n : ℕ) × (x.1 ≡ counted n) × IsWanted wanted.now text.now x.0 n x.2.now) }
    ensures none { IfNone result (StopsAt wanted.now text.now) }
{
    match front_run(text) {
        None => None,
        Some(run) => match run.symbol {
            Symbol::Mark(mark) => {
                if wanted.contains(&mark) {
                    Some((mark, run.times, run.rest))
                } else {
                    None
                }
            }
            Symbol::Credit => None,
            Symbol::Debit => None,
        },
    }
}

/// The longest front that writes wanted marks only. `C` and `D`, with which `CR` and `DB` begin, are not among them.
pub fn longest_span<'a>(text: &'a [u8], wanted: &[u8]) -> Span<'a>
    requires credit { is_among wanted.now 67 ≡ false }
    requires debit { is_among wanted.now 68 ≡ false }
    ensures { (marks : List ℕ) × IsSpan wanted.now text.now marks result.rest.now × (result.length ≡ counted (length marks)) × (result.digits ≡ counted (count_by is_digit_mark marks)) }
{
    let mut length: u64 = 0;
    let mut digits: u64 = 0;
    let mut rest = text;
    while let Some((mark, times, after)) = wanted_run(rest, wanted) {
        length = length.saturating_add(times);
        digits = digits.saturating_add(digits_of(mark, times));
        rest = after;
    }
    Span {
        length,
        digits,
        rest,
    }
}
