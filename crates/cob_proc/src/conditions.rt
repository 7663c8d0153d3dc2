//! Conditions.
ghost use Rattle.std.specs.Prelude.{◌≡◌, ◌<◌, ◌≤◌, length, IfOk, Ok};
ghost use Rattle.cob_forms.specs.Readers.{Gives};
ghost use Rattle.cob_proc.specs.PartReaders.{compared, condition, joined, joined_part, perhaps_denied, relation, simple, tested};

use crate::parts::{take_constant, take_identifier, take_operand};
use crate::tree::{Condition, Identifier, Joint, Operand, Relation, Simple};
use cob_forms::{Stop, next_is_kind, next_is_name, next_is_word, skip_word, take_kind, take_word};
use cob_lex::{Token, TokenKind};
use com_text::Rows;
use std::alloc::Global;

/// Returns how two operands compare, by a sign or by words.
#[tactic(auto, unfolding(crate::specs::PartReaders::relation))]
fn take_relation(tokens: &[Token]) -> Result<(Relation, &[Token]), Stop>
    ensures gives { Gives (λ x. (x.0, x.1.now)) result (relation tokens.now) }
    ensures fewer { IfOk result (λ x. length x.1.now < length tokens.now) }
{
    if next_is_kind(tokens, TokenKind::Equal) {
        let (_, rest) = take_kind(tokens, TokenKind::Equal)?;
        return Ok((Relation::Equal, rest));
    }
    if next_is_word(tokens, b"EQUAL") {
        let (_, rest) = take_word(tokens, b"EQUAL")?;
        return Ok((Relation::Equal, skip_word(rest, b"TO")));
    }
    if next_is_kind(tokens, TokenKind::Greater) {
        let (_, rest) = take_kind(tokens, TokenKind::Greater)?;
        return Ok((Relation::Greater, rest));
    }
    if next_is_word(tokens, b"GREATER") {
        let (_, rest) = take_word(tokens, b"GREATER")?;
        return Ok((Relation::Greater, skip_word(rest, b"THAN")));
    }
    if next_is_kind(tokens, TokenKind::Less) {
        let (_, rest) = take_kind(tokens, TokenKind::Less)?;
        return Ok((Relation::Less, rest));
    }
    let (_, rest) = take_word(tokens, b"LESS")?;
    Ok((Relation::Less, skip_word(rest, b"THAN")))
}

/// Returns what an operand is compared with.
#[tactic(auto, unfolding(crate::specs::PartReaders::compared))]
fn take_compared(
    alloc: Global,
    left: Operand,
    denied: bool,
    tokens: &[Token],
) -> Result<(Simple, &[Token]), Stop>
    ensures gives { Gives (λ x. (x.0, x.1.now)) result (compared left denied tokens.now) }
    ensures fewer { IfOk result (λ x. length x.1.now < length tokens.now) }
{
    let (relation, rest) = take_relation(tokens)?;
    let (right, rest) = take_operand(alloc, rest)?;
    let simple = Simple::Compares {
        left,
        denied,
        relation,
        right,
    };
    Ok((simple, rest))
}

/// NUMERIC, or what an item is compared with.
#[tactic(auto, unfolding(crate::specs::PartReaders::tested))]
fn take_tested(
    alloc: Global,
    item: Identifier,
    denied: bool,
    tokens: &[Token],
) -> Result<(Simple, &[Token]), Stop>
    ensures gives { Gives (λ x. (x.0, x.1.now)) result (tested item denied tokens.now) }
    ensures fewer { IfOk result (λ x. length x.1.now < length tokens.now) }
{
    if next_is_word(tokens, b"NUMERIC") {
        let (_, rest) = take_word(tokens, b"NUMERIC")?;
        return Ok((Simple::Numeric { item, denied }, rest));
    }
    take_compared(alloc, Operand::Item(item), denied, tokens)
}

/// Reads a simple condition.
#[tactic(auto, unfolding(crate::specs::PartReaders::simple, crate::specs::PartReaders::perhaps_denied))]
fn take_simple(alloc: Global, tokens: &[Token]) -> Result<(Simple, &[Token]), Stop>
    ensures gives { Gives (λ x. (x.0, x.1.now)) result (simple tokens.now) }
    ensures fewer { IfOk result (λ x. length x.1.now < length tokens.now) }
{
    if next_is_name(tokens) {
        let (item, rest) = take_identifier(tokens)?;
        let rest = skip_word(rest, b"IS");
        let denied = next_is_word(rest, b"NOT");
        return take_tested(alloc, item, denied, skip_word(rest, b"NOT"));
    }
    let (left, rest) = take_constant(alloc, tokens)?;
    let rest = skip_word(rest, b"IS");
    let denied = next_is_word(rest, b"NOT");
    take_compared(alloc, left, denied, skip_word(rest, b"NOT"))
}

/// Reads a further simple condition, after a word.
#[tactic(auto, unfolding(crate::specs::PartReaders::joined_part))]
fn take_joined_part<'a>(
    alloc: Global,
    word: &[u8],
    tokens: &'a [Token],
) -> Result<(Simple, &'a [Token]), Stop>
    ensures gives { Gives (λ x. (x.0, x.1.now)) result (joined_part word.now tokens.now) }
    ensures fewer { IfOk result (λ x. length x.1.now < length tokens.now) }
{
    let (_, rest) = take_word(tokens, word)?;
    take_simple(alloc, rest)
}

/// Returns the first simple condition, and those after further words.
#[tactic(auto, unfolding(crate::specs::PartReaders::joined))]
fn take_joined<'a>(
    alloc: Global,
    word: &[u8],
    first: Simple,
    tokens: &'a [Token],
) -> Result<(Rows<Simple>, &'a [Token]), Stop>
    ensures gives { Gives (λ x. (x.0, x.1.now)) result (joined word.now first tokens.now) }
    ensures no_more { IfOk result (λ x. length x.1.now ≤ length tokens.now) }
{
    let mut parts = Vec::new(alloc);
    parts.push(first)?;
    let mut rest = tokens;
    'turns: while next_is_word(rest, word) {
        let (part, after) = take_joined_part(alloc, word, rest)?;
        parts.push(part)?;
        rest = after;
    }
    Ok((Rows::of_vec(parts), rest))
}

/// Reads a condition.
#[tactic(auto, unfolding(crate::specs::PartReaders::condition))]
pub(crate) fn take_condition(alloc: Global, tokens: &[Token]) -> Result<(Condition, &[Token]), Stop>
    ensures gives { Gives (λ x. (x.0, x.1.now)) result (condition tokens.now) }
    ensures fewer { IfOk result (λ x. length x.1.now < length tokens.now) }
{
    let (first, rest) = take_simple(alloc, tokens)?;
    if next_is_word(rest, b"AND") {
        let (parts, rest) = take_joined(alloc, b"AND", first, rest)?;
        let joint = Joint::And;
        return Ok((Condition { joint, parts }, rest));
    }
    if next_is_word(rest, b"OR") {
        let (parts, rest) = take_joined(alloc, b"OR", first, rest)?;
        let joint = Joint::Or;
        return Ok((Condition { joint, parts }, rest));
    }
    let mut parts = Vec::new(alloc);
    parts.push(first)?;
    let condition = Condition {
        joint: Joint::Alone,
        parts: Rows::of_vec(parts),
    };
    Ok((condition, rest))
}
