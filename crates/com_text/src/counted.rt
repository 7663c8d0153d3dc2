//! Counted fields: bytes after their number, so that any byte may occur in them.
ghost use Rattle.std.specs.Prelude.{◌≡◌, ◌↔◌, ◌≤◌, ◌+◌, ℕ, take, List, ◌++◌, length, decimal, IsTrue, Some, OnOk, OnErr, IfSome};
ghost use Rattle.std.specs.List.{position};
ghost use Rattle.com_text.specs.Counted.{counted_field, is_colon, IsCountable, HasLeadingZero, StandsAt};

use crate::{Rows, number_of};
use std::alloc::AllocError;

/// How many bytes a counted field has at most.
pub const MAX_COUNTED: usize = 999_999;

/// How many digits the number of a counted field has at most.
const COUNT_DIGITS: usize = 6;

/// Adds a counted field at the end. If memory runs out, nothing changes.
pub fn put_counted(out: &mut Rows<u8>, bytes: &[u8]) -> Result<(), AllocError>
    requires { IsCountable bytes.now }
    ensures ok { OnOk result (out.new ≡ out.old ++ counted_field bytes.now) }
    ensures err { OnErr result (out.new ≡ out.old) }
{
    let mut count = itoa::Buffer::new();
    out.extend_all(count.format(bytes.len()).as_bytes(), b":", bytes)
}

/// Returns the places, from 0, of the first byte and past the last byte of the content of the
/// counted field at the front. None exactly if no front of the bytes is a counted field: its number
/// is missing, begins with a zero that is not alone, has more than six digits or no colon after it,
/// or says more bytes than there are.
pub fn take_counted(bytes: &[u8]) -> Option<(usize, usize)>
    ensures found { IfSome result (λ found. StandsAt bytes.now found.0 found.1) }
    // What was put is found, whatever follows it.
    ensures put { (content rest : List ℕ) → IsCountable content
        → bytes.now ≡ counted_field content ++ rest
        → result ≡ Some (length (decimal (length content)) + 1, length (counted_field content)) }
{
    let colon = colon_in(bytes)?;
    let count = count_of(&bytes[..colon])?;
    let from = colon + 1;
    if count > bytes.len() - from {
        return None;
    }
    Some((from, from + count))
}

/// Returns the place of the first colon, where it is near enough that a number stands before it.
fn colon_in(bytes: &[u8]) -> Option<usize>
    ensures { result ≡ position is_colon (take 7 bytes.now) }
{
    bytes
        .iter()
        .take(COUNT_DIGITS + 1)
        .position(|byte| *byte == b':')
}

/// Returns the number of bytes that these digits say, written as a counted field writes it.
fn count_of(digits: &[u8]) -> Option<usize>
    ensures { (count : ℕ) → (result ≡ Some count)
        ↔ ((count ≤ MAX_COUNTED) × (digits.now ≡ decimal count)) }
{
    if digits.len() > COUNT_DIGITS || has_leading_zero(digits) {
        return None;
    }
    let count = number_of(digits)?;
    Some(count as usize)
}

/// Returns whether digits have a zero at their front that is not alone.
pub fn has_leading_zero(digits: &[u8]) -> bool
    ensures { IsTrue result ↔ HasLeadingZero digits.now }
{
    digits.len() > 1 && digits[0] == b'0'
}
