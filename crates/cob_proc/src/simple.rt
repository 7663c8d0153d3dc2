//! The statements in which no others stand.
ghost use Rattle.std.specs.Prelude.{◌≡◌, ◌<◌, ◌≤◌, length, IfOk, Ok};
ghost use Rattle.cob_forms.specs.Readers.{Gives, begins, maybe};
ghost use Rattle.cob_proc.specs.Forms as forms;
ghost use Rattle.cob_proc.specs.Spelled.{begins_form};
ghost use Rattle.cob_proc.specs.Trees.{tree_of};
ghost use Rattle.cob_proc.specs.StatementReaders.{read_add, read_exit, read_go, read_move, read_perform, read_plain, read_stop, read_subtract, repetition, stated, through, times};

use crate::conditions::take_condition;
use crate::parts::{take_addend, take_identifier, take_identifiers, take_operand};
use crate::send::{take_accept, take_send, take_switch};
use crate::tree::{Addend, Repetition, Statement};
use cob_forms::{
    Name, Stop, is_word, next_is_kind, next_is_name, next_is_word, skip_word, take_name,
    take_number, take_word,
};
use cob_lex::{Token, TokenKind};
use std::alloc::Global;

/// MOVE.
#[tactic(auto, unfolding(crate::specs::StatementReaders::read_move))]
fn take_move(alloc: Global, tokens: &[Token]) -> Result<(Statement, &[Token]), Stop>
    ensures gives { Gives (λ x. (tree_of x.0, x.1.now)) result (stated read_move tokens.now) }
    ensures fewer { IfOk result (λ x. length x.1.now < length tokens.now) }
{
    let (_, rest) = take_word(tokens, b"MOVE")?;
    let (source, rest) = take_operand(alloc, rest)?;
    let (_, rest) = take_word(rest, b"TO")?;
    let (targets, rest) = take_identifiers(alloc, rest)?;
    Ok((Statement::Move { source, targets }, rest))
}

/// ADD.
#[tactic(auto, unfolding(crate::specs::StatementReaders::read_add))]
fn take_add(tokens: &[Token]) -> Result<(Statement, &[Token]), Stop>
    ensures gives { Gives (λ x. (tree_of x.0, x.1.now)) result (stated read_add tokens.now) }
    ensures fewer { IfOk result (λ x. length x.1.now < length tokens.now) }
{
    let (_, rest) = take_word(tokens, b"ADD")?;
    let (addend, rest) = take_addend(rest)?;
    let (_, rest) = take_word(rest, b"TO")?;
    let (target, rest) = take_identifier(rest)?;
    Ok((Statement::Add { addend, target }, rest))
}

/// SUBTRACT.
#[tactic(auto, unfolding(crate::specs::StatementReaders::read_subtract))]
fn take_subtract(tokens: &[Token]) -> Result<(Statement, &[Token]), Stop>
    ensures gives { Gives (λ x. (tree_of x.0, x.1.now)) result (stated read_subtract tokens.now) }
    ensures fewer { IfOk result (λ x. length x.1.now < length tokens.now) }
{
    let (_, rest) = take_word(tokens, b"SUBTRACT")?;
    let (addend, rest) = take_addend(rest)?;
    let (_, rest) = take_word(rest, b"FROM")?;
    let (target, rest) = take_identifier(rest)?;
    Ok((Statement::Subtract { addend, target }, rest))
}

/// Returns whether THRU or THROUGH comes next.
fn next_is_through(tokens: &[Token]) -> bool
    ensures { result ≡ begins (begins_form forms.through) tokens.now }
{
    match tokens {
        [token, ..] if is_word(token, b"THRU") => true,
        [token, ..] if is_word(token, b"THROUGH") => true,
        _ => false,
    }
}

/// THRU or THROUGH, and the last paragraph.
#[tactic(auto, unfolding(crate::specs::StatementReaders::through))]
fn take_through(tokens: &[Token]) -> Result<(Name, &[Token]), Stop>
    ensures gives { Gives (λ x. (x.0, x.1.now)) result (through tokens.now) }
    ensures fewer { IfOk result (λ x. length x.1.now < length tokens.now) }
{
    if next_is_word(tokens, b"THRU") {
        let (_, rest) = take_word(tokens, b"THRU")?;
        return take_name(rest);
    }
    let (_, rest) = take_word(tokens, b"THROUGH")?;
    take_name(rest)
}

/// Returns the last paragraph of a range, or none where none is written.
fn take_optional_through(tokens: &[Token]) -> Result<(Option<Name>, &[Token]), Stop>
    ensures gives { Gives (λ x. (x.0, x.1.now)) result (maybe (begins_form forms.through) through tokens.now) }
    ensures no_more { IfOk result (λ x. length x.1.now ≤ length tokens.now) }
{
    if next_is_through(tokens) {
        let (last, rest) = take_through(tokens)?;
        return Ok((Some(last), rest));
    }
    Ok((None, tokens))
}

/// TIMES, after how often.
#[tactic(auto, unfolding(crate::specs::StatementReaders::times))]
fn take_times(count: Addend, tokens: &[Token]) -> Result<(Repetition, &[Token]), Stop>
    ensures gives { Gives (λ x. (x.0, x.1.now)) result (times count tokens.now) }
    ensures fewer { IfOk result (λ x. length x.1.now < length tokens.now) }
{
    let (_, rest) = take_word(tokens, b"TIMES")?;
    Ok((Repetition::Times(count), rest))
}

/// Returns how often a range is performed.
#[tactic(auto, unfolding(crate::specs::StatementReaders::repetition))]
fn take_repetition(alloc: Global, tokens: &[Token]) -> Result<(Repetition, &[Token]), Stop>
    ensures gives { Gives (λ x. (x.0, x.1.now)) result (repetition tokens.now) }
    ensures no_more { IfOk result (λ x. length x.1.now ≤ length tokens.now) }
{
    if next_is_name(tokens) {
        let (item, rest) = take_identifier(tokens)?;
        return take_times(Addend::Item(item), rest);
    }
    if next_is_kind(tokens, TokenKind::Number) {
        let (number, rest) = take_number(tokens)?;
        return take_times(Addend::Number(number), rest);
    }
    if next_is_word(tokens, b"UNTIL") {
        let (_, rest) = take_word(tokens, b"UNTIL")?;
        let (condition, rest) = take_condition(alloc, rest)?;
        return Ok((Repetition::Until(condition), rest));
    }
    Ok((Repetition::Once, tokens))
}

/// PERFORM.
#[tactic(auto, unfolding(crate::specs::StatementReaders::read_perform))]
fn take_perform(alloc: Global, tokens: &[Token]) -> Result<(Statement, &[Token]), Stop>
    ensures gives { Gives (λ x. (tree_of x.0, x.1.now)) result (stated read_perform tokens.now) }
    ensures fewer { IfOk result (λ x. length x.1.now < length tokens.now) }
{
    let (_, rest) = take_word(tokens, b"PERFORM")?;
    let (first, rest) = take_name(rest)?;
    let (last, rest) = take_optional_through(rest)?;
    let (repetition, rest) = take_repetition(alloc, rest)?;
    let statement = Statement::Perform {
        first,
        last,
        repetition,
    };
    Ok((statement, rest))
}

/// GO.
#[tactic(auto, unfolding(crate::specs::StatementReaders::read_go))]
fn take_go(tokens: &[Token]) -> Result<(Statement, &[Token]), Stop>
    ensures gives { Gives (λ x. (tree_of x.0, x.1.now)) result (stated read_go tokens.now) }
    ensures fewer { IfOk result (λ x. length x.1.now < length tokens.now) }
{
    let (_, rest) = take_word(tokens, b"GO")?;
    let (target, rest) = take_name(skip_word(rest, b"TO"))?;
    Ok((Statement::Go { target }, rest))
}

/// EXIT.
#[tactic(auto, unfolding(crate::specs::StatementReaders::read_exit))]
fn take_exit(tokens: &[Token]) -> Result<(Statement, &[Token]), Stop>
    ensures gives { Gives (λ x. (tree_of x.0, x.1.now)) result (stated read_exit tokens.now) }
    ensures fewer { IfOk result (λ x. length x.1.now < length tokens.now) }
{
    let (_, rest) = take_word(tokens, b"EXIT")?;
    Ok((Statement::Exit, rest))
}

/// STOP RUN.
#[tactic(auto, unfolding(crate::specs::StatementReaders::read_stop))]
fn take_stop(tokens: &[Token]) -> Result<(Statement, &[Token]), Stop>
    ensures gives { Gives (λ x. (tree_of x.0, x.1.now)) result (stated read_stop tokens.now) }
    ensures fewer { IfOk result (λ x. length x.1.now < length tokens.now) }
{
    let (_, rest) = take_word(tokens, b"STOP")?;
    let (_, rest) = take_word(rest, b"RUN")?;
    Ok((Statement::Stop, rest))
}

/// Reads a statement in which no others stand.
#[tactic(auto, unfolding(crate::specs::StatementReaders::read_plain))]
pub(crate) fn take_plain(alloc: Global, tokens: &[Token]) -> Result<(Statement, &[Token]), Stop>
    ensures gives { Gives (λ x. (tree_of x.0, x.1.now)) result (stated read_plain tokens.now) }
    ensures fewer { IfOk result (λ x. length x.1.now < length tokens.now) }
{
    if next_is_word(tokens, b"MOVE") {
        return take_move(alloc, tokens);
    }
    if next_is_word(tokens, b"ADD") {
        return take_add(tokens);
    }
    if next_is_word(tokens, b"SUBTRACT") {
        return take_subtract(tokens);
    }
    if next_is_word(tokens, b"PERFORM") {
        return take_perform(alloc, tokens);
    }
    if next_is_word(tokens, b"GO") {
        return take_go(tokens);
    }
    if next_is_word(tokens, b"EXIT") {
        return take_exit(tokens);
    }
    if next_is_word(tokens, b"STOP") {
        return take_stop(tokens);
    }
    if next_is_word(tokens, b"SEND") {
        return take_send(tokens);
    }
    if next_is_word(tokens, b"ENABLE") {
        return take_switch(alloc, b"ENABLE", true, tokens);
    }
    if next_is_word(tokens, b"DISABLE") {
        return take_switch(alloc, b"DISABLE", false, tokens);
    }
    take_accept(tokens)
}
