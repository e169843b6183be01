ghost use Rattle.std.specs.Prelude.{◌≡◌, ℕ, IfSome, IfNone};
ghost use Rattle.picture_rule.specs.Reading.{pair_at, symbol_at, digits_from, times_at, front, counted, seen, as_counted};

/// A symbol of a picture.
#[derive(Clone, Copy, Debug, PartialEq, Eq)]
pub enum Symbol {
    /// A symbol of one mark, which is in capitals.
    Mark(u8),
    /// `CR`.
    Credit,
    /// `DB`.
    Debit,
}

/// A symbol at the front of a text, how often it counts, at most `u64::MAX` times, and what follows it.
#[derive(Drop)]
pub struct Run<'a> {
    pub symbol: Symbol,
    pub times: u64,
    pub rest: &'a [u8],
}

#[tactic(auto, unfolding(crate::specs::Reading::pair_at))]
fn pair_front(first: u8, text: &[u8]) -> Option<(Symbol, &[u8])>
    ensures { seen result ≡ pair_at first text.now }
{
    match text {
        [] => None,
        [second, rest @ ..] => {
            let second = second.to_ascii_uppercase();
            if first == b'C' && second == b'R' {
                Some((Symbol::Credit, rest))
            } else if first == b'D' && second == b'B' {
                Some((Symbol::Debit, rest))
            } else {
                None
            }
        }
    }
}

#[tactic(auto, unfolding(crate::specs::Reading::symbol_at))]
fn symbol_front(text: &[u8]) -> Option<(Symbol, &[u8])>
    ensures { seen result ≡ symbol_at text.now }
{
    match text {
        [] => None,
        [first, rest @ ..] => {
            let mark = first.to_ascii_uppercase();
            if b"XAS9V+-$Z*,.".contains(&mark) {
                Some((Symbol::Mark(mark), rest))
            } else {
                pair_front(mark, rest)
            }
        }
    }
}

/// The number that the digits at the front write, at most `u64::MAX`, and what follows them.
fn number_front(text: &[u8]) -> (u64, &[u8])
    ensures value { result.0 ≡ counted (digits_from 0 text.now).0 }
    ensures rest { result.1.now ≡ (digits_from 0 text.now).1 }
{
    let mut value: u64 = 0;
    let mut rest = text;
    while let [digit, after @ ..] = rest {
        if !digit.is_ascii_digit() {
            break;
        }
        value = value
            .saturating_mul(10)
            .saturating_add(u64::from(*digit - b'0'));
        rest = after;
    }
    (value, rest)
}

#[tactic(auto, unfolding(crate::specs::Reading::times_at, crate::specs::Reading::closed_at))]
fn times_front(text: &[u8]) -> Option<(u64, &[u8])>
    ensures { seen result ≡ as_counted (times_at text.now) }
{
    match text {
        [b'(', number @ ..] => {
            let (times, after) = number_front(number);
            match after {
                [b')', rest @ ..] if times > 0 => Some((times, rest)),
                _ => None,
            }
        }
        _ => Some((1, text)),
    }
}

/// The symbol at the front of a text. None where there is none, or where no number of repetitions stands in the parentheses
/// after it.
#[tactic(auto, unfolding(crate::specs::Reading::front))]
pub fn front_run(text: &[u8]) -> Option<Run<'_>>
    ensures found { IfSome result (λ run. (n : ℕ) × (run.times ≡ counted n) × (front text.now ≡ Some (record { symbol = run.symbol; times = n; rest = run.rest.now }))) }
    ensures none { IfNone result (front text.now ≡ None) }
{
    let (symbol, after) = symbol_front(text)?;
    let (times, rest) = times_front(after)?;
    Some(Run {
        symbol,
        times,
        rest,
    })
}
