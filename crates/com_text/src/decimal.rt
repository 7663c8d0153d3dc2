//! Numbers in decimal digits.
ghost use Rattle.std.specs.Prelude.{◌≡◌, ◌↔◌, ◌<◌, ◌^◌, ◌++◌, ℕ, length, decimal, IsSome, IfSome, OnOk, OnErr};
ghost use Rattle.com_text.specs.Digits.{in_digits, IsNumber, number};
ghost use Rattle.com_text.specs.Text.{IsText};

use crate::Rows;
use std::alloc::AllocError;

/// How many digits a number has at most where it is read.
pub const MAX_DIGITS: usize = 18;

/// Writes a number in decimal over the whole of `into`, with leading zeros.
pub fn digits(n: u64, into: &mut [u8])
    requires { n < 10 ^ length into.old }
    ensures digits { into.new ≡ in_digits n (length into.old) }
    ensures number { number into.new ≡ n }
{
    let mut left = n;
    for place in (0..into.len()).rev() {
        into[place] = b'0' + (left % 10) as u8;
        left /= 10;
    }
}

/// Returns a number in `N` decimal digits, with leading zeros.
pub fn digits_of<const N: usize>(n: u64) -> [u8; N]
    requires { n < 10 ^ N }
    ensures digits { result ≡ in_digits n N }
    ensures number { number result ≡ n }
    ensures text { IsText result }
{
    let mut field = [b'0'; N];
    digits(n, &mut field);
    field
}

/// Returns the number that decimal digits write, leading zeros or not: None exactly if there are no
/// bytes, more than 18, or one that is not a digit.
pub fn number_of(bytes: &[u8]) -> Option<u64>
    ensures some { IsSome result ↔ IsNumber bytes.now }
    ensures number { IfSome result (λ n. n ≡ number bytes.now) }
{
    if bytes.is_empty() || bytes.len() > MAX_DIGITS {
        return None;
    }
    let mut number = 0u64;
    for byte in bytes {
        if !byte.is_ascii_digit() {
            return None;
        }
        number = number * 10 + u64::from(*byte - b'0');
    }
    Some(number)
}

/// Adds a number in decimal at the end, without leading zeros. If memory runs out, nothing changes.
pub fn put_number(out: &mut Rows<u8>, n: u64) -> Result<(), AllocError>
    ensures ok { OnOk result (out.new ≡ out.old ++ decimal n) }
    ensures err { OnErr result (out.new ≡ out.old) }
{
    let mut digits = itoa::Buffer::new();
    out.extend_from_slice(digits.format(n).as_bytes())
}
