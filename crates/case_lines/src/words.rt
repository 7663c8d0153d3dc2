//! The words of a line.
ghost use Rattle.std.specs.Prelude.{◌<◌};

use std::alloc::{AllocError, Global};
use std::str;

/// The words of a case, handed out one after another.
#[derive(Debug, Drop)]
pub struct Words<'a> {
    left: &'a [Vec<u8>],
}

impl<'a> Words<'a> {
    /// Returns all of these words.
    pub fn new(words: &'a [Vec<u8>]) -> Words<'a> {
        Words { left: words }
    }

    /// Returns the bytes of the next word, and none where no word is left.
    pub fn bytes(&mut self) -> &'a [u8] {
        let Some((word, left)) = self.left.split_first() else {
            return b"";
        };
        self.left = left;
        word.as_slice()
    }

    /// Returns the number that the next word writes in decimal, and 0 where it writes none.
    pub fn number(&mut self) -> u64 {
        match str::from_utf8(self.bytes()) {
            Ok(digits) => digits.parse().unwrap_or(0),
            Err(_) => 0,
        }
    }

    /// Returns how many words are left.
    pub fn len(&self) -> usize {
        self.left.len()
    }

    /// Returns whether no word is left.
    pub fn is_empty(&self) -> bool {
        self.left.is_empty()
    }

    /// Returns the words that are left.
    pub fn rest(&mut self) -> &'a [Vec<u8>] {
        let rest = self.left;
        self.left = &[];
        rest
    }
}

/// Returns the words of a line, with spaces between them. A word in quotes may have any byte: a
/// quote and a backslash come after a backslash, and `\n`, `\r`, `\t` and `\x` with two hexadecimal
/// digits are single bytes.
pub fn words_of(alloc: Global, line: &str) -> Result<Vec<Vec<u8>>, AllocError> {
    let mut words = Vec::new(alloc);
    let mut left = line.as_bytes();
    for _word in 0..line.len() {
        left = left.trim_ascii_start();
        if left.is_empty() {
            break;
        }
        let (word, behind) = first_word(alloc, left)?;
        words.push(word)?;
        left = behind;
    }
    Ok(words)
}

/// Returns the first word, and what comes after it.
fn first_word(alloc: Global, line: &[u8]) -> Result<(Vec<u8>, &[u8]), AllocError> {
    if let [b'"', quoted @ ..] = line {
        return quoted_word(alloc, quoted);
    }
    let past = line.iter().position(|byte| *byte == b' ');
    let (word, behind) = line.split_at(past.unwrap_or(line.len()));
    Ok((Vec::from_slice(alloc, word)?, behind))
}

/// Returns the word whose opening quote stands before these bytes, and what comes after its closing
/// one.
fn quoted_word(alloc: Global, quoted: &[u8]) -> Result<(Vec<u8>, &[u8]), AllocError> {
    let mut word = Vec::new(alloc);
    let mut left = quoted;
    for _byte in 0..quoted.len() {
        let (byte, behind) = match left {
            [b'"', behind @ ..] => return Ok((word, behind)),
            [b'\\', b'x', high, low, behind @ ..] => (
                16 * hex_digit(*high) + hex_digit(*low),
                behind,
            ),
            [b'\\', letter, behind @ ..] => (escaped(*letter), behind),
            [byte, behind @ ..] => (*byte, behind),
            [] => break,
        };
        word.push(byte)?;
        left = behind;
    }
    Ok((word, left))
}

/// Returns the byte that a letter after a backslash stands for.
fn escaped(letter: u8) -> u8 {
    match letter {
        b'n' => b'\n',
        b'r' => b'\r',
        b't' => b'\t',
        _ => letter,
    }
}

/// Returns the value of a hexadecimal digit, and 0 of another byte.
fn hex_digit(digit: u8) -> u8
    ensures { result < 16 }
{
    match digit {
        b'0'..=b'9' => digit - b'0',
        b'a'..=b'f' => digit - b'a' + 10,
        b'A'..=b'F' => digit - b'A' + 10,
        _ => 0,
    }
}
