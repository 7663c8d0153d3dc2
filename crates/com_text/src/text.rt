//! A text: characters of 20 to 7E hexadecimal.
ghost use Rattle.std.specs.Prelude.{◌≡◌, ℕ, List, MatchOption, IfOk};
ghost use Rattle.com_text.specs.Text.{IsText, IsFirstBadByte, is_text, is_text_byte};

use std::alloc::{AllocError, Global};
use std::marker::Model;
use std::str;
use thiserror::Error;

/// A list of characters of 20 to 7E hexadecimal, which contracts see as a list.
#[derive(Debug, Drop)]
pub struct Text {
    bytes: Vec<u8>,
}

impl Model for Text {
    ghost Value = { List ℕ };

    ghost view = { λ text. text.bytes.items };

    ghost invariant = { λ text. IsText text.bytes.items };
}

/// Why bytes were not read as a text.
#[derive(Clone, Copy, Debug, PartialEq, Eq, Error)]
pub enum TextError {
    /// `at` is the place, from 0, of the first byte outside 20 to 7E hexadecimal.
    #[error("the byte at {at} is no character of a text")]
    BadByte { at: usize },
    /// Memory ran out.
    #[error("memory ran out")]
    Memory(AllocError),
}

impl From<AllocError> for TextError {
    ghost use Rattle.std.specs.Prelude.{◌≡◌};
    ghost use Rattle.com_text.specs.declared.text.TextError.TheVariants.{Memory};

    ghost from_gives = { λ error gives. gives ≡ Memory error };

    fn from(error: AllocError) -> TextError {
        TextError::Memory(error)
    }
}

impl Text {
    /// Returns a copy of the bytes, where each is a character of a text. Else the error names the
    /// first byte that is none. Memory: memory ran out.
    pub fn read(alloc: Global, bytes: &[u8]) -> Result<Text, TextError>
        ensures ok { IfOk result (λ text. text ≡ bytes.now) }
        ensures only_texts { IfOk result (λ text. IsText text) }
        ensures bad_byte { (at : ℕ) → result ≡ Err (TextError.BadByte at)
            → IsFirstBadByte bytes.now at }
    {
        if let Some(at) = first_bad_byte(bytes) {
            return Err(TextError::BadByte { at });
        }
        let bytes = Vec::from_slice(alloc, bytes)?;
        Ok(Text { bytes })
    }

    /// Returns the text that a `Vec` holds, with the room that it has reserved.
    pub fn of_vec(bytes: Vec<u8>) -> Text
        requires { IsText bytes.items }
        ensures { result ≡ bytes.items }
    {
        Text { bytes }
    }

    /// Returns the characters, in order.
    pub fn as_bytes(&self) -> &[u8]
        ensures same { result.now ≡ self.now }
        ensures text { IsText self.now }
    {
        self.bytes.as_slice()
    }

    /// Returns the characters, in order, as a `&str`.
    pub fn as_str(&self) -> &str
        ensures same { result.now ≡ self.now }
        ensures text { IsText self.now }
    {
        str::from_utf8(&self.bytes).unwrap()
    }

    /// Returns a second text of the same characters. Fails only if memory runs out.
    pub fn copy(&self) -> Result<Text, AllocError>
        ensures { IfOk result (λ text. text ≡ self.now) }
    {
        let bytes = self.bytes.clone()?;
        Ok(Text { bytes })
    }
}

/// Returns the place, from 0, of the first byte that is not a character of a text: None if each is
/// one.
fn first_bad_byte(bytes: &[u8]) -> Option<usize>
    ensures { MatchOption result (IsText bytes.now) (IsFirstBadByte bytes.now) }
{
    for (at, byte) in bytes.iter().enumerate() {
        if !is_text_byte(*byte) {
            return Some(at);
        }
    }
    None
}

/// Returns whether a byte is a character of a text.
pub fn is_text_byte(byte: u8) -> bool
    ensures { result ≡ is_text_byte byte }
{
    matches!(byte, 0x20..=0x7E)
}

/// Returns whether each byte is a character of a text.
pub fn is_text(bytes: &[u8]) -> bool
    ensures { result ≡ is_text bytes.now }
{
    // No test ends the loop early, so that it can become vector code.
    let mut all = true;
    for byte in bytes {
        all &= is_text_byte(*byte);
    }
    all
}
