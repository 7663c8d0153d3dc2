//! RECEIVE, IF, and statements one after another.
ghost use Rattle.std.specs.Prelude.{◌≡◌, ◌<◌, ◌≤◌, length, IfOk, Ok};
ghost use Rattle.cob_forms.specs.Readers.{Gives};
ghost use Rattle.cob_proc.specs.Trees.{tree_of, trees_of};
ghost use Rattle.cob_proc.specs.DivisionReaders.{branch, inner, inners, no_data, otherwise, read_statement, read_statements, receive, receive_alone, receive_head, unit_of_text};

use crate::conditions::take_condition;
use crate::parts::take_identifier;
use crate::simple::take_plain;
use crate::starts::{next_is_inner, next_is_statement};
use crate::tree::{Identifier, Statement};
use cob_forms::{Name, Position, Stop, next_is_word, take_name, take_word};
use cob_lex::Token;
use std::alloc::Global;

/// MESSAGE or SEGMENT: whether a segment is received.
#[tactic(auto, unfolding(crate::specs::DivisionReaders::unit_of_text))]
fn take_unit_of_text(tokens: &[Token]) -> Result<(bool, &[Token]), Stop>
    ensures gives { Gives (λ x. (x.0, x.1.now)) result (unit_of_text tokens.now) }
    ensures fewer { IfOk result (λ x. length x.1.now < length tokens.now) }
{
    if next_is_word(tokens, b"MESSAGE") {
        let (_, rest) = take_word(tokens, b"MESSAGE")?;
        return Ok((false, rest));
    }
    let (_, rest) = take_word(tokens, b"SEGMENT")?;
    Ok((true, rest))
}

/// RECEIVE up to its NO DATA: the CD, whether a segment is received, and into what.
#[tactic(auto, unfolding(crate::specs::DivisionReaders::receive_head))]
fn take_receive_head(tokens: &[Token]) -> Result<(Name, bool, Identifier, &[Token]), Stop>
    ensures gives { Gives (λ x. ((x.0, x.1, x.2), x.3.now)) result (receive_head tokens.now) }
    ensures fewer { IfOk result (λ x. length x.3.now < length tokens.now) }
{
    let (_, rest) = take_word(tokens, b"RECEIVE")?;
    let (cd, rest) = take_name(rest)?;
    let (segment, rest) = take_unit_of_text(rest)?;
    let (_, rest) = take_word(rest, b"INTO")?;
    let (into, rest) = take_identifier(rest)?;
    Ok((cd, segment, into, rest))
}

/// RECEIVE without NO DATA.
#[tactic(auto, unfolding(crate::specs::DivisionReaders::receive_alone))]
fn take_receive_alone(alloc: Global, tokens: &[Token]) -> Result<(Statement, &[Token]), Stop>
    ensures gives { Gives (λ x. (tree_of x.0, x.1.now)) result (receive_alone tokens.now) }
    ensures fewer { IfOk result (λ x. length x.1.now < length tokens.now) }
{
    let (cd, segment, into, rest) = take_receive_head(tokens)?;
    let statement = Statement::Receive {
        cd,
        segment,
        into,
        no_data: Vec::new(alloc),
    };
    Ok((statement, rest))
}

/// Reads a statement inside NO DATA.
#[tactic(auto, unfolding(crate::specs::DivisionReaders::inner))]
fn take_inner(alloc: Global, tokens: &[Token]) -> Result<(Statement, &[Token]), Stop>
    ensures gives { Gives (λ x. (tree_of x.0, x.1.now)) result (inner tokens.now) }
    ensures fewer { IfOk result (λ x. length x.1.now < length tokens.now) }
{
    if next_is_word(tokens, b"RECEIVE") {
        return take_receive_alone(alloc, tokens);
    }
    take_plain(alloc, tokens)
}

/// Returns one statement inside NO DATA or more.
#[tactic(auto, unfolding(crate::specs::DivisionReaders::inners))]
fn take_inners(alloc: Global, tokens: &[Token]) -> Result<(Vec<Statement>, &[Token]), Stop>
    ensures gives { Gives (λ x. (trees_of x.0.items, x.1.now)) result (inners tokens.now) }
    ensures fewer { IfOk result (λ x. length x.1.now < length tokens.now) }
{
    let mut list = Vec::new(alloc);
    let (first, mut rest) = take_inner(alloc, tokens)?;
    list.push(first)?;
    'turns: while next_is_inner(rest) {
        let (item, after) = take_inner(alloc, rest)?;
        list.push(item)?;
        rest = after;
    }
    Ok((list, rest))
}

/// NO DATA and its statements, or none where it is not written.
#[tactic(auto, unfolding(crate::specs::DivisionReaders::no_data))]
fn take_no_data(alloc: Global, tokens: &[Token]) -> Result<(Vec<Statement>, &[Token]), Stop>
    ensures gives { Gives (λ x. (trees_of x.0.items, x.1.now)) result (no_data tokens.now) }
    ensures no_more { IfOk result (λ x. length x.1.now ≤ length tokens.now) }
{
    if !next_is_word(tokens, b"NO") {
        return Ok((Vec::new(alloc), tokens));
    }
    let (_, rest) = take_word(tokens, b"NO")?;
    let (_, rest) = take_word(rest, b"DATA")?;
    let (list, rest) = take_inners(alloc, rest)?;
    if next_is_word(rest, b"IF") {
        return Err(Stop::Wanted(rest.len()));
    }
    Ok((list, rest))
}

/// RECEIVE.
#[tactic(auto, unfolding(crate::specs::DivisionReaders::receive))]
fn take_receive(alloc: Global, tokens: &[Token]) -> Result<(Statement, &[Token]), Stop>
    ensures gives { Gives (λ x. (tree_of x.0, x.1.now)) result (receive tokens.now) }
    ensures fewer { IfOk result (λ x. length x.1.now < length tokens.now) }
{
    let (cd, segment, into, rest) = take_receive_head(tokens)?;
    let (no_data, rest) = take_no_data(alloc, rest)?;
    let statement = Statement::Receive {
        cd,
        segment,
        into,
        no_data,
    };
    Ok((statement, rest))
}

/// ELSE and its statements, or none where it is not written.
#[cycle(statement)]
#[tactic(auto, unfolding(crate::specs::DivisionReaders::otherwise))]
fn take_otherwise(
    alloc: Global,
    depth: usize,
    tokens: &[Token],
) -> Result<(Vec<Statement>, &[Token]), Stop>
    ensures gives { Gives (λ x. (trees_of x.0.items, x.1.now)) result (otherwise (read_statements depth) tokens.now) }
    ensures no_more { IfOk result (λ x. length x.1.now ≤ length tokens.now) }
{
    if !next_is_word(tokens, b"ELSE") {
        return Ok((Vec::new(alloc), tokens));
    }
    let (_, rest) = take_word(tokens, b"ELSE")?;
    take_statements(alloc, depth, rest)
}

/// IF, with statements of this depth in it.
#[cycle(statement)]
#[tactic(auto, unfolding(crate::specs::DivisionReaders::branch))]
fn take_branch(alloc: Global, depth: usize, tokens: &[Token]) -> Result<(Statement, &[Token]), Stop>
    ensures gives { Gives (λ x. (tree_of x.0, x.1.now)) result (branch (read_statements depth) tokens.now) }
    ensures fewer { IfOk result (λ x. length x.1.now < length tokens.now) }
{
    let (sign, rest) = take_word(tokens, b"IF")?;
    let (condition, rest) = take_condition(alloc, rest)?;
    let (holds, rest) = take_statements(alloc, depth, rest)?;
    let (otherwise, rest) = take_otherwise(alloc, depth, rest)?;
    let statement = Statement::If {
        position: Position::of(sign),
        condition,
        holds,
        otherwise,
    };
    Ok((statement, rest))
}

/// Reads a statement in which fewer IFs than `depth` stand in one another.
#[cycle(statement)]
#[tactic(auto, using(crate::proofs::Fuel::statement_steps))]
fn take_statement(
    alloc: Global,
    depth: usize,
    tokens: &[Token],
) -> Result<(Statement, &[Token]), Stop>
    ensures gives { Gives (λ x. (tree_of x.0, x.1.now)) result (read_statement depth tokens.now) }
    ensures fewer { IfOk result (λ x. length x.1.now < length tokens.now) }
{
    if depth == 0 {
        return Err(Stop::Wanted(tokens.len()));
    }
    if next_is_word(tokens, b"IF") {
        return take_branch(alloc, depth - 1, tokens);
    }
    if next_is_word(tokens, b"RECEIVE") {
        return take_receive(alloc, tokens);
    }
    take_plain(alloc, tokens)
}

/// Returns one statement or more.
#[cycle(statement)]
#[tactic(auto, unfolding(crate::specs::DivisionReaders::read_statements))]
pub(crate) fn take_statements(
    alloc: Global,
    depth: usize,
    tokens: &[Token],
) -> Result<(Vec<Statement>, &[Token]), Stop>
    ensures gives { Gives (λ x. (trees_of x.0.items, x.1.now)) result (read_statements depth tokens.now) }
    ensures fewer { IfOk result (λ x. length x.1.now < length tokens.now) }
{
    let mut list = Vec::new(alloc);
    let (first, mut rest) = take_statement(alloc, depth, tokens)?;
    list.push(first)?;
    'turns: while next_is_statement(rest) {
        let (item, after) = take_statement(alloc, depth, rest)?;
        list.push(item)?;
        rest = after;
    }
    Ok((list, rest))
}
