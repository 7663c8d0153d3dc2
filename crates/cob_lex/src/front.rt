//! What is at the beginning of the rest of a line.
ghost use Rattle.std.specs.Prelude.{◌≡◌, ◌+◌, ◌<◌, ◌≤◌, length};
ghost use Rattle.cob_lex.specs.Fronts.{FitsIn, awaited_behind, front_of, is_awaited_is, literal_front, may_be_picture, picture_run, plain_front, run_front, sign_kind};
ghost use Rattle.cob_lex.specs.Literals.{closing};

use crate::characters::{
    is_spacing, is_word_byte, run_to_space, space_next, without_separator, word_run,
};
use crate::literal::closing;
use crate::words::{is_is, is_number, is_picture_word, is_word};
use crate::{SourceKind, TokenKind};

/// What may come next after PIC and PICTURE.
#[derive(Clone, Copy, Debug)]
pub(crate) enum Awaited {
    /// No picture.
    Nothing,
    /// IS, or a picture.
    IsOrPicture,
    /// A picture.
    Picture,
}

/// What is at the beginning of the rest of a line.
#[derive(Clone, Copy, Debug)]
pub(crate) enum Front {
    /// A space, or a comma or semicolon that separates like one.
    Spacing,
    /// A token of so many bytes.
    Token { kind: TokenKind, length: usize },
    /// A fault, at the first byte.
    Fault(SourceKind),
}

/// Returns what is at the beginning of the rest of a line.
#[tactic(auto, unfolding(crate::specs::Fronts::front_of))]
pub(crate) fn front_of(awaited: Awaited, bytes: &[u8]) -> Front
    requires not_empty { 1 ≤ length bytes.now }
    requires in_line { length bytes.now ≤ 72 }
    ensures front { result ≡ front_of awaited bytes.now }
    ensures fits { FitsIn result (length bytes.now) }
{
    let run = picture_run(bytes);
    if !may_be_picture(awaited) || run.is_empty() {
        return plain_front(bytes);
    }
    let kind = if is_awaited_is(awaited, run) {
        TokenKind::Word
    } else {
        TokenKind::Picture
    };
    Front::Token {
        kind,
        length: run.len(),
    }
}

/// Returns what is awaited after a token.
pub(crate) fn awaited_behind(awaited: Awaited, kind: TokenKind, text: &[u8]) -> Awaited
    ensures { result ≡ awaited_behind awaited kind text.now }
{
    match kind {
        TokenKind::Word if is_picture_word(text) => Awaited::IsOrPicture,
        TokenKind::Word if is_awaited_is(awaited, text) => Awaited::Picture,
        _ => Awaited::Nothing,
    }
}

/// Returns whether a picture may come.
fn may_be_picture(awaited: Awaited) -> bool
    ensures { result ≡ may_be_picture awaited }
{
    matches!(awaited, Awaited::IsOrPicture | Awaited::Picture)
}

/// Returns whether a text is IS, where that may come before a picture.
fn is_awaited_is(awaited: Awaited, text: &[u8]) -> bool
    ensures { result ≡ is_awaited_is awaited text.now }
{
    matches!(awaited, Awaited::IsOrPicture) && is_is(text)
}

/// Returns the run up to a space or the end of the line, less one last period, comma or semicolon.
fn picture_run(bytes: &[u8]) -> &[u8]
    ensures run { result.now ≡ picture_run bytes.now }
    ensures within { length result.now ≤ length bytes.now }
{
    without_separator(run_to_space(bytes))
}

/// Returns what is at the beginning of the rest of a line, where it is no picture.
fn plain_front(bytes: &[u8]) -> Front
    requires not_empty { 1 ≤ length bytes.now }
    requires in_line { length bytes.now ≤ 72 }
    ensures front { result ≡ plain_front bytes.now }
    ensures fits { FitsIn result (length bytes.now) }
{
    let byte = bytes[0];
    let rest = &bytes[1..];
    if is_spacing(byte, rest) {
        Front::Spacing
    } else if is_word_byte(byte) {
        run_front(word_run(bytes))
    } else if byte == b'"' {
        literal_front(rest)
    } else {
        match sign_kind(byte, rest) {
            Some(kind) => Front::Token { kind, length: 1 },
            None => Front::Fault(SourceKind::BadCharacter),
        }
    }
}

/// Reads a word or a number: a longest run of letters, digits and hyphens.
fn run_front(run: &[u8]) -> Front
    ensures { result ≡ run_front run.now }
{
    let length = run.len();
    if is_word(run) {
        let kind = TokenKind::Word;
        Front::Token { kind, length }
    } else if is_number(run) {
        let kind = TokenKind::Number;
        Front::Token { kind, length }
    } else {
        Front::Fault(SourceKind::BadWord)
    }
}

/// Reads a literal, by the bytes after its opening quotation mark. It may have 120 characters,
/// which is more than a line holds.
fn literal_front(rest: &[u8]) -> Front
    requires in_line { length rest.now < 72 }
    ensures front { result ≡ literal_front rest.now (closing rest.now) }
    ensures fits { FitsIn result (length rest.now + 1) }
{
    match closing(rest) {
        None => Front::Fault(SourceKind::BadCharacter),
        Some(0) => Front::Fault(SourceKind::BadWord),
        Some(inside) => Front::Token {
            kind: TokenKind::Literal,
            length: inside + 2,
        },
    }
}

/// Returns the token of one character, where there is one.
fn sign_kind(byte: u8, rest: &[u8]) -> Option<TokenKind>
    ensures { result ≡ sign_kind byte rest.now }
{
    match byte {
        b'.' if space_next(rest) => Some(TokenKind::Period),
        b'(' => Some(TokenKind::Open),
        b')' => Some(TokenKind::Close),
        b'=' => Some(TokenKind::Equal),
        b'>' => Some(TokenKind::Greater),
        b'<' => Some(TokenKind::Less),
        _ => None,
    }
}
