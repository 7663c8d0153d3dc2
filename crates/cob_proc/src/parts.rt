//! Identifiers, operands, and what is added, counted or given as a key.
ghost use Rattle.std.specs.Prelude.{◌≡◌, ◌<◌, ◌≤◌, length, IfOk};
ghost use Rattle.cob_forms.specs.Readers.{Gives, begins, maybe};
ghost use Rattle.cob_proc.specs.Forms as forms;
ghost use Rattle.cob_proc.specs.Spelled.{begins_form};
ghost use Rattle.cob_proc.specs.PartReaders.{addend, constant, identifier, identifiers, key, operand, subscript, subscript_value};

use crate::tree::{Addend, Identifier, Key, Operand, Subscript};
use cob_forms::{
    Position, Stop, is_kind, is_name, next_is_kind, next_is_name, next_is_word, take_kind,
    take_literal, take_name, take_number, take_word,
};
use cob_lex::{Token, TokenKind};
use com_text::Rows;
use std::alloc::Global;

/// Returns what stands in the parentheses of a subscript.
#[tactic(auto, unfolding(crate::specs::PartReaders::subscript_value))]
fn take_subscript_value(position: Position, tokens: &[Token]) -> Result<(Subscript, &[Token]), Stop>
    ensures gives { Gives (λ x. (x.0, x.1.now)) result (subscript_value position tokens.now) }
    ensures fewer { IfOk result (λ x. length x.1.now < length tokens.now) }
{
    if next_is_name(tokens) {
        let (name, rest) = take_name(tokens)?;
        return Ok((Subscript::Item { position, name }, rest));
    }
    let (number, rest) = take_number(tokens)?;
    Ok((Subscript::Number { position, number }, rest))
}

/// Reads a subscript with its parentheses.
#[tactic(auto, unfolding(crate::specs::PartReaders::subscript))]
fn take_subscript(tokens: &[Token]) -> Result<(Subscript, &[Token]), Stop>
    ensures gives { Gives (λ x. (x.0, x.1.now)) result (subscript tokens.now) }
    ensures fewer { IfOk result (λ x. length x.1.now < length tokens.now) }
{
    let (sign, rest) = take_kind(tokens, TokenKind::Open)?;
    let (value, rest) = take_subscript_value(Position::of(sign), rest)?;
    let (_, rest) = take_kind(rest, TokenKind::Close)?;
    Ok((value, rest))
}

/// Returns whether a subscript comes next.
fn next_is_subscript(tokens: &[Token]) -> bool
    ensures { result ≡ begins (begins_form forms.subscript) tokens.now }
{
    match tokens {
        [token, ..] if is_kind(token, TokenKind::Open) => true,
        _ => false,
    }
}

/// Reads a subscript, or none where none comes next.
fn take_optional_subscript(tokens: &[Token]) -> Result<(Option<Subscript>, &[Token]), Stop>
    ensures gives { Gives (λ x. (x.0, x.1.now)) result (maybe (begins_form forms.subscript) subscript tokens.now) }
    ensures no_more { IfOk result (λ x. length x.1.now ≤ length tokens.now) }
{
    if next_is_subscript(tokens) {
        let (subscript, rest) = take_subscript(tokens)?;
        return Ok((Some(subscript), rest));
    }
    Ok((None, tokens))
}

/// Reads an identifier.
#[tactic(auto, unfolding(crate::specs::PartReaders::identifier))]
pub(crate) fn take_identifier(tokens: &[Token]) -> Result<(Identifier, &[Token]), Stop>
    ensures gives { Gives (λ x. (x.0, x.1.now)) result (identifier tokens.now) }
    ensures fewer { IfOk result (λ x. length x.1.now < length tokens.now) }
{
    let (name, rest) = take_name(tokens)?;
    let (subscript, rest) = take_optional_subscript(rest)?;
    Ok((Identifier { name, subscript }, rest))
}

/// Returns whether an identifier comes next.
fn next_is_identifier(tokens: &[Token]) -> bool
    ensures { result ≡ begins (begins_form forms.identifier) tokens.now }
{
    match tokens {
        [token, ..] if is_name(token) => true,
        _ => false,
    }
}

/// Returns one identifier or more.
#[tactic(auto, unfolding(crate::specs::PartReaders::identifiers))]
pub(crate) fn take_identifiers(
    alloc: Global,
    tokens: &[Token],
) -> Result<(Rows<Identifier>, &[Token]), Stop>
    ensures gives { Gives (λ x. (x.0, x.1.now)) result (identifiers tokens.now) }
    ensures fewer { IfOk result (λ x. length x.1.now < length tokens.now) }
{
    let mut items = Vec::new(alloc);
    let (first, mut rest) = take_identifier(tokens)?;
    items.push(first)?;
    'turns: while next_is_identifier(rest) {
        let (item, after) = take_identifier(rest)?;
        items.push(item)?;
        rest = after;
    }
    Ok((Rows::of_vec(items), rest))
}

/// Returns what is no identifier.
#[tactic(auto, unfolding(crate::specs::PartReaders::constant))]
pub(crate) fn take_constant(alloc: Global, tokens: &[Token]) -> Result<(Operand, &[Token]), Stop>
    ensures gives { Gives (λ x. (x.0, x.1.now)) result (constant tokens.now) }
    ensures fewer { IfOk result (λ x. length x.1.now < length tokens.now) }
{
    if next_is_kind(tokens, TokenKind::Literal) {
        let (literal, rest) = take_literal(alloc, tokens)?;
        return Ok((Operand::Literal(literal), rest));
    }
    if next_is_kind(tokens, TokenKind::Number) {
        let (number, rest) = take_number(tokens)?;
        return Ok((Operand::Number(number), rest));
    }
    if next_is_word(tokens, b"SPACE") {
        let (word, rest) = take_word(tokens, b"SPACE")?;
        return Ok((Operand::Spaces(Position::of(word)), rest));
    }
    if next_is_word(tokens, b"SPACES") {
        let (word, rest) = take_word(tokens, b"SPACES")?;
        return Ok((Operand::Spaces(Position::of(word)), rest));
    }
    if next_is_word(tokens, b"ZERO") {
        let (word, rest) = take_word(tokens, b"ZERO")?;
        return Ok((Operand::Zeros(Position::of(word)), rest));
    }
    if next_is_word(tokens, b"ZEROS") {
        let (word, rest) = take_word(tokens, b"ZEROS")?;
        return Ok((Operand::Zeros(Position::of(word)), rest));
    }
    let (word, rest) = take_word(tokens, b"ZEROES")?;
    Ok((Operand::Zeros(Position::of(word)), rest))
}

/// Returns what is moved or compared.
#[tactic(auto, unfolding(crate::specs::PartReaders::operand))]
pub(crate) fn take_operand(alloc: Global, tokens: &[Token]) -> Result<(Operand, &[Token]), Stop>
    ensures gives { Gives (λ x. (x.0, x.1.now)) result (operand tokens.now) }
    ensures fewer { IfOk result (λ x. length x.1.now < length tokens.now) }
{
    if next_is_name(tokens) {
        let (item, rest) = take_identifier(tokens)?;
        return Ok((Operand::Item(item), rest));
    }
    take_constant(alloc, tokens)
}

/// Returns what is added or counted.
#[tactic(auto, unfolding(crate::specs::PartReaders::addend))]
pub(crate) fn take_addend(tokens: &[Token]) -> Result<(Addend, &[Token]), Stop>
    ensures gives { Gives (λ x. (x.0, x.1.now)) result (addend tokens.now) }
    ensures fewer { IfOk result (λ x. length x.1.now < length tokens.now) }
{
    if next_is_name(tokens) {
        let (item, rest) = take_identifier(tokens)?;
        return Ok((Addend::Item(item), rest));
    }
    let (number, rest) = take_number(tokens)?;
    Ok((Addend::Number(number), rest))
}

/// Returns what a password is taken from.
#[tactic(auto, unfolding(crate::specs::PartReaders::key))]
pub(crate) fn take_key(alloc: Global, tokens: &[Token]) -> Result<(Key, &[Token]), Stop>
    ensures gives { Gives (λ x. (x.0, x.1.now)) result (key tokens.now) }
    ensures fewer { IfOk result (λ x. length x.1.now < length tokens.now) }
{
    if next_is_name(tokens) {
        let (item, rest) = take_identifier(tokens)?;
        return Ok((Key::Item(item), rest));
    }
    let (literal, rest) = take_literal(alloc, tokens)?;
    Ok((Key::Literal(literal), rest))
}
