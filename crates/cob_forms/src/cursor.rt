//! What comes next, and taking it from the front of some tokens.
ghost use Rattle.std.specs.Prelude.{◌≡◌, ◌<◌, ◌≤◌, IfOk, Ok, length};
ghost use Rattle.cob_forms.specs.Sorts.{in_area_a, is, name, of_kind, reserved};
ghost use Rattle.cob_forms.specs.Readers.{Gives, begins, one, optional, read_literal, read_name, read_number};

use crate::Stop;
use crate::reserved::is_reserved;
use crate::written::{Literal, Name, Number};
use cob_lex::{Token, TokenKind};
use std::alloc::Global;

/// Whether a token is this reserved word.
pub fn is_word(token: &Token, word: &[u8]) -> bool
    ensures { result ≡ is (reserved word.now) token.now }
{
    token.kind == TokenKind::Word && token.text.as_bytes() == word
}

/// Whether a token is a word that is not reserved.
pub fn is_name(token: &Token) -> bool
    ensures { result ≡ is name token.now }
{
    token.kind == TokenKind::Word && !is_reserved(token.text.as_bytes())
}

/// Whether a token is of a kind.
pub fn is_kind(token: &Token, kind: TokenKind) -> bool
    ensures { result ≡ is (of_kind kind) token.now }
{
    token.kind == kind
}

/// Whether a token begins in area A.
pub fn in_area_a(token: &Token) -> bool
    ensures { result ≡ in_area_a token.now }
{
    8 <= token.column && token.column <= 11
}

/// Whether this reserved word comes next.
pub fn next_is_word(tokens: &[Token], word: &[u8]) -> bool
    ensures { result ≡ begins (is (reserved word.now)) tokens.now }
{
    match tokens {
        [token, ..] => is_word(token, word),
        [] => false,
    }
}

/// Whether a name comes next.
pub fn next_is_name(tokens: &[Token]) -> bool
    ensures { result ≡ begins (is name) tokens.now }
{
    match tokens {
        [token, ..] => is_name(token),
        [] => false,
    }
}

/// Whether a token of a kind comes next.
pub fn next_is_kind(tokens: &[Token], kind: TokenKind) -> bool
    ensures { result ≡ begins (is (of_kind kind)) tokens.now }
{
    match tokens {
        [token, ..] => is_kind(token, kind),
        [] => false,
    }
}

/// The next token, which has to be this reserved word, and those behind it.
pub fn take_word<'a>(tokens: &'a [Token], word: &[u8]) -> Result<(&'a Token, &'a [Token]), Stop>
    ensures gives { Gives (λ x. (x.0.now, x.1.now)) result (one (reserved word.now) tokens.now) }
    ensures fewer { IfOk result (λ x. length x.1.now < length tokens.now) }
{
    if let [token, rest @ ..] = tokens
        && is_word(token, word)
    {
        return Ok((token, rest));
    }
    Err(Stop::Wanted(tokens.len()))
}

/// The next token, which has to be of a kind, and those behind it.
pub fn take_kind(tokens: &[Token], kind: TokenKind) -> Result<(&Token, &[Token]), Stop>
    ensures gives { Gives (λ x. (x.0.now, x.1.now)) result (one (of_kind kind) tokens.now) }
    ensures fewer { IfOk result (λ x. length x.1.now < length tokens.now) }
{
    if let [token, rest @ ..] = tokens
        && is_kind(token, kind)
    {
        return Ok((token, rest));
    }
    Err(Stop::Wanted(tokens.len()))
}

/// The tokens behind an optional word, or all where it does not come next.
pub fn skip_word<'a>(tokens: &'a [Token], word: &[u8]) -> &'a [Token]
    ensures gives { optional (reserved word.now) tokens.now ≡ Ok (begins (is (reserved word.now)) tokens.now, result.now) }
    ensures no_more { length result.now ≤ length tokens.now }
{
    if let [token, rest @ ..] = tokens
        && is_word(token, word)
    {
        return rest;
    }
    tokens
}

/// The next word, which has to be a name, and the tokens behind it.
pub fn take_name(tokens: &[Token]) -> Result<(Name, &[Token]), Stop>
    ensures gives { Gives (λ x. (x.0, x.1.now)) result (read_name tokens.now) }
    ensures fewer { IfOk result (λ x. length x.1.now < length tokens.now) }
{
    if let [token, rest @ ..] = tokens
        && is_name(token)
    {
        return Ok((Name::of(token)?, rest));
    }
    Err(Stop::Wanted(tokens.len()))
}

/// The next token, which has to be a number, and the tokens behind it.
pub fn take_number(tokens: &[Token]) -> Result<(Number, &[Token]), Stop>
    ensures gives { Gives (λ x. (x.0, x.1.now)) result (read_number tokens.now) }
    ensures fewer { IfOk result (λ x. length x.1.now < length tokens.now) }
{
    let (token, rest) = take_kind(tokens, TokenKind::Number)?;
    Ok((Number::of(token)?, rest))
}

/// The next token, which has to be a literal, and the tokens behind it.
pub fn take_literal(alloc: Global, tokens: &[Token]) -> Result<(Literal, &[Token]), Stop>
    ensures gives { Gives (λ x. (x.0, x.1.now)) result (read_literal tokens.now) }
    ensures fewer { IfOk result (λ x. length x.1.now < length tokens.now) }
{
    let (token, rest) = take_kind(tokens, TokenKind::Literal)?;
    Ok((Literal::of(alloc, token)?, rest))
}
