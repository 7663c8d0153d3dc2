//! From the bytes of a source to its tokens.
ghost use Rattle.std.specs.Prelude.{◌≡◌, ◌+◌, ◌≤◌, IfErr, IfOk, drop, length};
ghost use Rattle.cob_lex.specs.Lexing.{fault_at, line_tokens, taken, text_tokens, token_of, tokens_of};
ghost use Rattle.cob_lex.specs.Lines.{text_of};
ghost use Rattle.cob_lex.specs.Answers.{IsRefusal, with_front};
ghost use Rattle.cob_lex.specs.Order.{AreInOrder};
ghost use Rattle.cob_lex.specs.Spelled.{AreTokens};

use crate::front::{Awaited, Front, awaited_behind, front_of};
use crate::lines::{
    INDICATOR, LineKind, Place, TEXT_START, first_line, line_kind, paragraph_behind, text_of,
};
use crate::{SourceError, SourceFault, SourceKind, Token, TokenKind};
use com_text::{Rows, Text, TextError};
use std::alloc::Global;

/// How many bytes a source has at most.
pub const MAX_SOURCE: usize = 1_048_576;

/// Returns the tokens of a source of at most [`MAX_SOURCE`] bytes, or its first fault. Memory:
/// memory ran out.
pub fn lex(alloc: Global, bytes: &[u8]) -> Result<Rows<Token>, SourceError>
    requires { length bytes.now ≤ MAX_SOURCE }
    ensures tokens { IfOk result (λ tokens. tokens_of bytes.now ≡ Ok tokens) }
    ensures spelled { IfOk result (λ tokens. AreTokens bytes.now tokens) }
    ensures in_order { IfOk result (λ tokens. AreInOrder tokens) }
    ensures fault { IfErr result (λ error. IsRefusal error (tokens_of bytes.now)) }
{
    let mut tokens = Vec::new(alloc);
    let mut awaited = Awaited::Nothing;
    let mut in_paragraph = false;
    let mut place = Place { line: 1, start: 0 };
    let mut rest = bytes;
    'lines: while !rest.is_empty() {
        let (line, length) = first_line(rest);
        let kind = line_kind(in_paragraph, line);
        awaited = read_line(&mut tokens, awaited, place, kind, line)?;
        in_paragraph = paragraph_behind(in_paragraph, kind);
        place = Place {
            line: place.line + 1,
            start: place.start + length as u32,
        };
        rest = &rest[length..];
    }
    Ok(Rows::of_vec(tokens))
}

/// Adds the tokens of a line, and answers what is awaited after them.
fn read_line(
    tokens: &mut Vec<Token>,
    awaited: Awaited,
    place: Place,
    kind: LineKind,
    line: &[u8],
) -> Result<Awaited, SourceError>
    requires { place.start ≤ MAX_SOURCE }
    ensures taken { IfOk result (λ next. with_front tokens.old.items (line_tokens awaited place line.now kind)
        ≡ Ok (taken tokens.new.items next)) }
    ensures refused { IfErr result (λ error. IsRefusal error (line_tokens awaited place line.now kind)) }
{
    match kind {
        LineKind::Comment | LineKind::CommentParagraph => Ok(awaited),
        LineKind::BadColumn => Err(refusal(place, INDICATOR, SourceKind::BadColumn)),
        LineKind::Text => read_text(tokens, awaited, place, line),
    }
}

/// Adds the tokens of columns 8 to 72 of a line, and answers what is awaited after them.
fn read_text(
    tokens: &mut Vec<Token>,
    mut awaited: Awaited,
    place: Place,
    line: &[u8],
) -> Result<Awaited, SourceError>
    requires { place.start ≤ MAX_SOURCE }
    ensures taken { IfOk result (λ next. with_front tokens.old.items (text_tokens awaited 0 place 7 (text_of line.now))
        ≡ Ok (taken tokens.new.items next)) }
    ensures refused { IfErr result (λ error. IsRefusal error (text_tokens awaited 0 place 7 (text_of line.now))) }
{
    let mut at = TEXT_START;
    let mut rest = text_of(line);
    'fronts: while !rest.is_empty() {
        let (next, length) = take_front(tokens, awaited, place, at, rest)?;
        awaited = next;
        at += length;
        rest = &rest[length..];
    }
    Ok(awaited)
}

/// Adds the token at the beginning of a rest, if it is one, and answers what is awaited after it
/// and how many bytes it has.
fn take_front(
    tokens: &mut Vec<Token>,
    awaited: Awaited,
    place: Place,
    at: usize,
    rest: &[u8],
) -> Result<(Awaited, usize), SourceError>
    requires not_empty { 1 ≤ length rest.now }
    requires in_line { at + length rest.now ≤ 72 }
    requires in_source { place.start ≤ MAX_SOURCE }
    ensures taken { IfOk result (λ step. with_front tokens.old.items (text_tokens awaited 0 place at rest.now)
        ≡ with_front tokens.new.items (text_tokens step.0 0 place (at + step.1) (drop step.1 rest.now))) }
    ensures refused { IfErr result (λ error. IsRefusal error (text_tokens awaited 0 place at rest.now)) }
    ensures within { IfOk result (λ step. (1 ≤ step.1) × (step.1 ≤ length rest.now)) }
{
    match front_of(awaited, rest) {
        Front::Spacing => Ok((awaited, 1)),
        Front::Token { kind, length } => {
            let text = &rest[..length];
            let token = read_token(*tokens.allocator(), place, at, kind, text)?;
            tokens.push(token)?;
            Ok((awaited_behind(awaited, kind, text), length))
        }
        Front::Fault(kind) => Err(refusal(place, at, kind)),
    }
}

/// Returns the token of these bytes.
fn read_token(
    alloc: Global,
    place: Place,
    at: usize,
    kind: TokenKind,
    bytes: &[u8],
) -> Result<Token, SourceError>
    requires in_line { at + length bytes.now ≤ 72 }
    requires in_source { place.start ≤ MAX_SOURCE }
    ensures token { IfOk result (λ token. token_of place at kind bytes.now ≡ Ok token) }
    ensures refused { IfErr result (λ error. IsRefusal error (token_of place at kind bytes.now)) }
{
    let text = match Text::read(alloc, bytes) {
        Ok(text) => text,
        Err(TextError::BadByte { at: bad }) => {
            return Err(refusal(place, at + bad, SourceKind::BadCharacter));
        }
        Err(TextError::Memory(error)) => return Err(SourceError::Memory(error)),
    };
    let start = place.start + at as u32;
    Ok(Token {
        kind,
        start,
        past: start + bytes.len() as u32,
        line: place.line,
        column: at as u32 + 1,
        text,
    })
}

/// Returns the refusal of a source for a fault so many bytes after the first byte of its line.
fn refusal(place: Place, at: usize, kind: SourceKind) -> SourceError
    requires { at ≤ 72 }
    ensures { result ≡ SourceError.Refused (fault_at place at kind) }
{
    SourceError::Refused(SourceFault {
        line: place.line,
        column: at as u32 + 1,
        kind,
    })
}
