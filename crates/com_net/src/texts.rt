//! Passwords and file names.
ghost use Rattle.std.specs.Prelude.{◌≡◌};
ghost use Rattle.std.specs.List.{list_all};
ghost use Rattle.com_net.specs.Network.{is_password, is_file_name, is_file_name_byte};

use crate::net::MAX_PASSWORD_LENGTH;
use com_text::is_text;

/// Whether a text is 1 to [`MAX_PASSWORD_LENGTH`] characters, of which the last is not a space.
pub fn is_password(text: &[u8]) -> bool
    ensures { result ≡ is_password text.now }
{
    if text.is_empty() || text.len() > MAX_PASSWORD_LENGTH {
        return false;
    }
    is_text(text) && text[text.len() - 1] != b' '
}

/// Whether a name is 1 to 64 letters, digits, periods, hyphens and underscores, of which the first
/// is not a period.
pub fn is_file_name(name: &[u8]) -> bool
    ensures { result ≡ is_file_name name.now }
{
    if name.is_empty() || name.len() > 64 {
        return false;
    }
    has_file_name_bytes(name) && name[0] != b'.'
}

fn has_file_name_bytes(name: &[u8]) -> bool
    ensures { result ≡ list_all is_file_name_byte name.now }
{
    name.iter().all(|byte| is_file_name_byte(*byte))
}

fn is_file_name_byte(byte: u8) -> bool
    ensures { result ≡ is_file_name_byte byte }
{
    byte.is_ascii_alphanumeric() || matches!(byte, b'.' | b'-' | b'_')
}
