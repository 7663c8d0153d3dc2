//! The tokens of a source.
use com_text::Text;

/// What a token is.
#[derive(Clone, Copy, Debug, PartialEq, Eq)]
pub enum TokenKind {
    /// A run of capital letters, digits and hyphens with at least one letter.
    Word,
    /// A run of digits.
    Number,
    /// What stands between quotation marks, with these.
    Literal,
    /// A picture character-string.
    Picture,
    /// The separator period.
    Period,
    /// `(`
    Open,
    /// `)`
    Close,
    /// `=`
    Equal,
    /// `>`
    Greater,
    /// `<`
    Less,
}

/// A token of a source.
#[derive(Debug, Drop)]
pub struct Token {
    pub kind: TokenKind,
    /// The place of its first byte in the source, from 0.
    pub start: u32,
    /// The place after its last byte.
    pub past: u32,
    /// Its line, from 1.
    pub line: u32,
    /// The column of its first byte, from 1.
    pub column: u32,
    /// Its characters as they are written, a literal's with the quotation marks.
    pub text: Text,
}
