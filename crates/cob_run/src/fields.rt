//! Characters that are written over the whole of a field.
ghost use Rattle.std.specs.Prelude.{◌≡◌, ◌+◌, ◌≤◌, ◌<◌, ◌^◌, length, IfSome};
ghost use Rattle.std.specs.Str.{all_ascii_digits};
ghost use Rattle.com_text.specs.Digits.{in_digits};
ghost use Rattle.com_text.specs.Name.{spaces};
ghost use Rattle.com_cd.specs.InputArea.{zeros};
ghost use Rattle.com_cd.specs.Parts.{with_part};
ghost use Rattle.cob_meaning.specs.Moves.{from_left, from_right};
ghost use Rattle.cob_meaning.specs.Storage.{number_in};

use com_text::number_of;

/// Writes characters over as many from a place on, and leaves all others as they were.
pub(crate) fn write_part(area: &mut [u8], start: usize, value: &[u8])
    requires { start + length value.now ≤ length area.old }
    ensures { area.new ≡ with_part start (length value.now) area.old value.now }
{
    area[start..start + value.len()].copy_from_slice(value);
}

/// Writes characters from the left: the rest is filled with spaces, and what is too much is cut.
pub(crate) fn write_left(field: &mut [u8], characters: &[u8])
    ensures { field.new ≡ from_left (length field.old) characters.now }
{
    let len = characters.len().min(field.len());
    write_spaces(field);
    write_part(field, 0, &characters[..len]);
}

/// Writes digits from the right: the rest is filled with zeros, and what is too much is cut.
pub(crate) fn write_right(field: &mut [u8], digits: &[u8])
    ensures { field.new ≡ from_right (length field.old) digits.now }
{
    let len = digits.len().min(field.len());
    write_zeros(field);
    write_part(field, field.len() - len, &digits[digits.len() - len..]);
}

/// Writes the low-order digits of a number.
pub(crate) fn write_number(field: &mut [u8], n: u64)
    ensures { field.new ≡ in_digits n (length field.old) }
{
    let mut left = n;
    for place in (0..field.len()).rev() {
        field[place] = b'0' + (left % 10) as u8;
        left /= 10;
    }
}

/// Writes spaces.
pub(crate) fn write_spaces(field: &mut [u8])
    ensures { field.new ≡ spaces (length field.old) }
{
    field.fill(b' ');
}

/// Writes zeros.
pub(crate) fn write_zeros(field: &mut [u8])
    ensures { field.new ≡ zeros (length field.old) }
{
    field.fill(b'0');
}

/// The number that digits write; None if another character is among them.
pub(crate) fn number_in(characters: &[u8]) -> Option<u64>
    requires { length characters.now ≤ 18 }
    ensures value { result ≡ number_in characters.now }
    ensures most { IfSome result (λ n. n < 10 ^ 18) }
{
    if characters.is_empty() {
        return Some(0);
    }
    number_of(characters)
}

/// Whether characters are digits, any number of them.
pub(crate) fn are_digits(characters: &[u8]) -> bool
    ensures { result ≡ all_ascii_digits characters.now }
{
    for character in characters {
        if !character.is_ascii_digit() {
            return false;
        }
    }
    true
}
