//! Destinations, as they are at the beginning.
ghost use Rattle.std.specs.Prelude.{◌≡◌, ◌<◌, ◌^◌, length, IfSome};
ghost use Rattle.com_send.specs.Keys.{is_key, trimmed_key};

use com_text::{Name, Text};

/// A destination of SEND.
#[derive(Debug, Drop)]
pub struct Destination {
    /// The name that SYMBOLIC DESTINATION holds.
    pub name: Name,
    /// The key of ENABLE and DISABLE OUTPUT: 1 to 10 characters, the last no space.
    pub password: Text,
    /// Whether its output is enabled at the beginning.
    pub on: bool,
}

/// Returns whether a key of ENABLE or DISABLE is this password. A key is read without its trailing
/// spaces.
pub fn is_key(key: &Text, password: &Text) -> bool
    ensures { result ≡ is_key key.now password.now }
{
    trimmed(key.as_bytes()) == password.as_bytes()
}

/// Returns the characters without those spaces that only spaces follow.
fn trimmed(key: &[u8]) -> &[u8]
    ensures { result.now ≡ trimmed_key key.now }
{
    let spaces = key.iter().rev().take_while(|byte| **byte == b' ').count();
    &key[..key.len() - spaces]
}
