//! Words, numbers and literals of a program, with where they stand.
ghost use Rattle.std.specs.Prelude.{◌≡◌, IfOk};
ghost use Rattle.com_text.specs.Text.{IsText};
ghost use Rattle.cob_lex.specs.Literals.{characters_of};
ghost use Rattle.cob_forms.specs.Written.{between_marks, literal_of, name_of, number_of, position_of};

use cob_lex::Token;
use com_text::Text;
use std::alloc::{AllocError, Global};

/// Where something stands in a source: its line and its column, both from 1.
#[derive(Clone, Copy, Debug, PartialEq, Eq)]
pub struct Position {
    pub line: u32,
    pub column: u32,
}

impl Position {
    /// Where a token stands.
    pub fn of(token: &Token) -> Position
        ensures { result ≡ position_of token.now }
    {
        Position {
            line: token.line,
            column: token.column,
        }
    }
}

/// A word that a program chooses: the name of data, a CD or a paragraph.
#[derive(Debug, Drop)]
pub struct Name {
    pub text: Text,
    pub position: Position,
}

impl Name {
    /// A token as a name.
    pub fn of(token: &Token) -> Result<Name, AllocError>
        ensures { IfOk result (λ name. name ≡ name_of token.now) }
    {
        Ok(Name {
            text: token.text.copy()?,
            position: Position::of(token),
        })
    }
}

/// A number, by its digits as they are written.
#[derive(Debug, Drop)]
pub struct Number {
    pub digits: Text,
    pub position: Position,
}

impl Number {
    /// A token as a number.
    pub fn of(token: &Token) -> Result<Number, AllocError>
        ensures { IfOk result (λ number. number ≡ number_of token.now) }
    {
        Ok(Number {
            digits: token.text.copy()?,
            position: Position::of(token),
        })
    }
}

/// A literal, by the characters that it stands for, without its quotation marks.
#[derive(Debug, Drop)]
pub struct Literal {
    pub characters: Text,
    pub position: Position,
}

impl Literal {
    /// A token as a literal.
    pub fn of(alloc: Global, token: &Token) -> Result<Literal, AllocError>
        ensures { IfOk result (λ literal. literal ≡ literal_of token.now) }
    {
        Ok(Literal {
            characters: characters_between(alloc, &token.text)?,
            position: Position::of(token),
        })
    }
}

/// The characters that a literal stands for, by its text with the quotation marks.
fn characters_between(alloc: Global, text: &Text) -> Result<Text, AllocError>
    ensures { IfOk result (λ characters. characters ≡ characters_of (between_marks text.now)) }
{
    let bytes = text.as_bytes();
    let past = bytes.len().saturating_sub(1);
    if past < 1 {
        return Ok(Text::of_vec(Vec::new(alloc)));
    }
    single_marks(alloc, &bytes[1..past])
}

/// The characters with one quotation mark for two.
fn single_marks(alloc: Global, inside: &[u8]) -> Result<Text, AllocError>
    requires { IsText inside.now }
    ensures { IfOk result (λ characters. characters ≡ characters_of inside.now) }
{
    let mut characters = Vec::new(alloc);
    let mut rest = inside;
    'rest: while let [byte, behind @ ..] = rest {
        characters.push(*byte)?;
        rest = match rest {
            [b'"', b'"', behind @ ..] => behind,
            _ => behind,
        };
    }
    Ok(Text::of_vec(characters))
}
