//! Numbers as they are written.
ghost use Rattle.std.specs.Prelude.{◌≡◌, ◌+◌, ◌*◌, ◌≤◌, ◌<◌, ◌&&◌, min, nat_le};
ghost use Rattle.std.specs.Char.{digit_value};
ghost use Rattle.com_text.specs.Digits.{number};
ghost use Rattle.cob_code.specs.declared.digits.TheConstants.{CAP};

use cob_forms::Number;

/// Where counting stops: 2 to the 32nd, which is greater than any number that is asked for.
const CAP: u64 = 4_294_967_296;

/// The value of a digit.
fn digit_value(digit: u8) -> u64
    ensures value { result ≡ digit_value digit }
    ensures most { result ≤ 36 }
{
    match digit {
        b'0'..=b'9' => u64::from(digit - b'0'),
        b'A'..=b'Z' => u64::from(digit - b'A') + 10,
        b'a'..=b'z' => u64::from(digit - b'a') + 10,
        _ => 36,
    }
}

/// A number with one more digit, as far as numbers are told apart.
fn with_digit(number: u64, digit: u8) -> u64
    requires { number ≤ CAP }
    ensures value { result ≡ min (number * 10 + digit_value digit) CAP }
    ensures most { result ≤ CAP }
{
    (number * 10 + digit_value(digit)).min(CAP)
}

/// The number that digits write, or [`CAP`] where it is greater.
pub(crate) fn capped(digits: &[u8]) -> u64
    ensures value { result ≡ min (number digits.now) CAP }
    ensures most { result ≤ CAP }
{
    let mut value = 0;
    'digits: for digit in digits {
        value = with_digit(value, *digit);
    }
    value
}

/// Whether a number is at least and at most these.
pub(crate) fn is_between(written: &Number, least: u32, most: u32) -> bool
    ensures { result ≡ (nat_le least (number written.now.digits) && nat_le (number written.now.digits) most) }
{
    let value = capped(written.digits.as_bytes());
    u64::from(least) <= value && value <= u64::from(most)
}

/// Whether a number is at most this.
pub(crate) fn is_at_most(written: &Number, most: u32) -> bool
    ensures { result ≡ nat_le (number written.now.digits) most }
{
    capped(written.digits.as_bytes()) <= u64::from(most)
}
