//! Pieces of descriptions, by their names.
use std::alloc::{AllocError, Global};

/// A piece, and its name.
#[derive(Drop)]
struct Piece {
    name: Vec<u8>,
    text: Vec<u8>,
}

/// The pieces that were defined, the last after.
#[derive(Drop)]
pub struct Pieces {
    alloc: Global,
    pieces: Vec<Piece>,
}

impl Pieces {
    pub fn new(alloc: Global) -> Pieces {
        Pieces {
            alloc,
            pieces: Vec::new(alloc),
        }
    }

    /// Defines a piece: a text so many times, each time with its number for `%`.
    pub fn define(&mut self, name: &[u8], count: u64, text: &[u8]) -> Result<String, AllocError> {
        let mut all = Vec::new(self.alloc);
        for number in 1..=count {
            push_numbered(self.alloc, text, number, &mut all)?;
        }
        let name = Vec::from_slice(self.alloc, name)?;
        self.pieces.push(Piece { name, text: all })?;
        String::from_str(self.alloc, "defined")
    }

    /// Returns the pieces of these names, one after the other, and a comment up to a length. What
    /// is no piece stands for itself.
    pub fn joined(&self, length: usize, names: &[Vec<u8>]) -> Result<Vec<u8>, AllocError> {
        let mut bytes = Vec::new(self.alloc);
        for name in names {
            bytes.extend_from_slice(self.text_of(name.as_slice()))?;
        }
        for _at in bytes.len()..length {
            bytes.push(b'#')?;
        }
        Ok(bytes)
    }

    /// Returns the text of the last piece of a name.
    fn text_of<'a>(&'a self, name: &'a [u8]) -> &'a [u8] {
        let mut found = name;
        for piece in &self.pieces {
            if piece.name.as_slice() == name {
                found = piece.text.as_slice();
            }
        }
        found
    }
}

/// Adds a text with its number.
fn push_numbered(
    alloc: Global,
    text: &[u8],
    number: u64,
    into: &mut Vec<u8>,
) -> Result<(), AllocError> {
    let digits = format!(in alloc; "{number}")?;
    for byte in text {
        if *byte == b'%' {
            into.extend_from_slice(digits.as_bytes())?;
        } else {
            into.push(*byte)?;
        }
    }
    Ok(())
}
