//! Decimal numbers in texts.

ghost use Rattle.std.specs.Prelude.{◌≡◌, ◌<◌, ◌≤◌, IfSome};
ghost use Rattle.nc_values.specs.Numbers.{number_from, number_in, number_below, digit_below};

/// Returns the number that a text of digits writes, or None where another byte is in it or the number is not below
/// 2^64.
fn number_from(text: &[u8]) -> Option<u64>
    ensures { result ≡ number_from 0 text.now }
{
    let mut n = 0u64;
    for b in text {
        if !b.is_ascii_digit() {
            return None;
        }
        n = n.checked_mul(10)?.checked_add(u64::from(*b - b'0'))?;
    }
    Some(n)
}

/// Returns the number that a text of digits without leading zeros writes, or None where the text is empty or of another
/// form, or the number is not below 2^64.
pub fn number_in(text: &[u8]) -> Option<u64>
    ensures { result ≡ number_in text.now }
{
    match text {
        [] => None,
        [b'0', _, ..] => None,
        _ => number_from(text),
    }
}

/// Returns the number that a text of digits without leading zeros writes, or None where it is of another form, or the
/// number is not below `bound`.
pub fn number_below(text: &[u8], bound: u64) -> Option<u64>
    ensures value { result ≡ number_below bound text.now }
    ensures below { IfSome result (λ n. n < bound) }
{
    match number_in(text) {
        Some(n) if n < bound => Some(n),
        _ => None,
    }
}

/// Returns the number of one digit, or None where `c` is no digit below `bound`, which is at most ten.
pub fn digit_below(c: u8, bound: u8) -> Option<u8>
    requires { bound ≤ 10 }
    ensures value { result ≡ digit_below bound c }
    ensures below { IfSome result (λ n. n < bound) }
{
    if b'0' <= c && c < b'0' + bound {
        Some(c - b'0')
    } else {
        None
    }
}
