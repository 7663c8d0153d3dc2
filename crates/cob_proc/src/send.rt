//! SEND, ENABLE, DISABLE and ACCEPT, and RECEIVE up to its NO DATA.
ghost use Rattle.std.specs.Prelude.{◌≡◌, ◌<◌, ◌≤◌, length, IfOk, Ok};
ghost use Rattle.cob_forms.specs.Readers.{Gives, begins, maybe};
ghost use Rattle.cob_proc.specs.Forms as forms;
ghost use Rattle.cob_proc.specs.Spelled.{begins_form};
ghost use Rattle.cob_proc.specs.Trees.{tree_of};
ghost use Rattle.cob_proc.specs.StatementReaders.{advanced, advancing, ending, indicator, lines_or_page, mark, perhaps_lines, read_accept, read_send, read_switch, sent, stated, switched, with_what};

use crate::parts::{take_identifier, take_key};
use crate::tree::{Addend, Advancing, Ending, Identifier, Indicator, Lines, Statement};
use cob_forms::{
    Stop, is_word, next_is_kind, next_is_name, next_is_word, skip_word, take_name, take_number,
    take_word,
};
use cob_lex::{Token, TokenKind};
use std::alloc::Global;

/// ESI, EMI or EGI.
#[tactic(auto, unfolding(crate::specs::StatementReaders::mark))]
fn take_mark(tokens: &[Token]) -> Result<(Indicator, &[Token]), Stop>
    ensures gives { Gives (λ x. (x.0, x.1.now)) result (mark tokens.now) }
    ensures fewer { IfOk result (λ x. length x.1.now < length tokens.now) }
{
    if next_is_word(tokens, b"ESI") {
        let (_, rest) = take_word(tokens, b"ESI")?;
        return Ok((Indicator::Esi, rest));
    }
    if next_is_word(tokens, b"EMI") {
        let (_, rest) = take_word(tokens, b"EMI")?;
        return Ok((Indicator::Emi, rest));
    }
    let (_, rest) = take_word(tokens, b"EGI")?;
    Ok((Indicator::Egi, rest))
}

/// Returns what comes after WITH.
#[tactic(auto, unfolding(crate::specs::StatementReaders::with_what))]
fn take_with_what(tokens: &[Token]) -> Result<(Indicator, &[Token]), Stop>
    ensures gives { Gives (λ x. (x.0, x.1.now)) result (with_what tokens.now) }
    ensures fewer { IfOk result (λ x. length x.1.now < length tokens.now) }
{
    if next_is_name(tokens) {
        let (item, rest) = take_identifier(tokens)?;
        return Ok((Indicator::Item(item), rest));
    }
    take_mark(tokens)
}

/// Returns what a SEND ends.
#[tactic(auto, unfolding(crate::specs::StatementReaders::indicator))]
fn take_indicator(tokens: &[Token]) -> Result<(Indicator, &[Token]), Stop>
    ensures gives { Gives (λ x. (x.0, x.1.now)) result (indicator tokens.now) }
    ensures fewer { IfOk result (λ x. length x.1.now < length tokens.now) }
{
    if next_is_word(tokens, b"WITH") {
        let (_, rest) = take_word(tokens, b"WITH")?;
        return take_with_what(rest);
    }
    take_mark(tokens)
}

/// Returns the tokens after LINE or LINES, which may be left out.
#[tactic(auto, unfolding(crate::specs::StatementReaders::perhaps_lines))]
fn skip_lines(count: Lines, tokens: &[Token]) -> (Lines, &[Token])
    ensures gives { perhaps_lines count tokens.now ≡ Ok (result.0, result.1.now) }
    ensures no_more { length result.1.now ≤ length tokens.now }
{
    if next_is_word(tokens, b"LINE") {
        return (count, skip_word(tokens, b"LINE"));
    }
    (count, skip_word(tokens, b"LINES"))
}

/// Returns how far is advanced.
#[tactic(auto, unfolding(crate::specs::StatementReaders::lines_or_page))]
fn take_lines(tokens: &[Token]) -> Result<(Lines, &[Token]), Stop>
    ensures gives { Gives (λ x. (x.0, x.1.now)) result (lines_or_page tokens.now) }
    ensures fewer { IfOk result (λ x. length x.1.now < length tokens.now) }
{
    if next_is_name(tokens) {
        let (item, rest) = take_identifier(tokens)?;
        return Ok(skip_lines(Lines::Count(Addend::Item(item)), rest));
    }
    if next_is_kind(tokens, TokenKind::Number) {
        let (number, rest) = take_number(tokens)?;
        return Ok(skip_lines(Lines::Count(Addend::Number(number)), rest));
    }
    let (_, rest) = take_word(tokens, b"PAGE")?;
    Ok((Lines::Page, rest))
}

/// [ADVANCING], and how far is advanced.
#[tactic(auto, unfolding(crate::specs::StatementReaders::advanced))]
fn take_advanced(tokens: &[Token]) -> Result<(Lines, &[Token]), Stop>
    ensures gives { Gives (λ x. (x.0, x.1.now)) result (advanced tokens.now) }
    ensures fewer { IfOk result (λ x. length x.1.now < length tokens.now) }
{
    take_lines(skip_word(tokens, b"ADVANCING"))
}

/// BEFORE or AFTER ADVANCING, and how far is advanced.
#[tactic(auto, unfolding(crate::specs::StatementReaders::advancing))]
fn take_advancing(tokens: &[Token]) -> Result<(Advancing, &[Token]), Stop>
    ensures gives { Gives (λ x. (x.0, x.1.now)) result (advancing tokens.now) }
    ensures fewer { IfOk result (λ x. length x.1.now < length tokens.now) }
{
    if next_is_word(tokens, b"BEFORE") {
        let (_, rest) = take_word(tokens, b"BEFORE")?;
        let (lines, rest) = take_advanced(rest)?;
        let after = false;
        return Ok((Advancing { after, lines }, rest));
    }
    let (_, rest) = take_word(tokens, b"AFTER")?;
    let (lines, rest) = take_advanced(rest)?;
    let after = true;
    Ok((Advancing { after, lines }, rest))
}

/// Returns whether BEFORE or AFTER comes next.
fn next_is_advancing(tokens: &[Token]) -> bool
    ensures { result ≡ begins (begins_form forms.advancing) tokens.now }
{
    match tokens {
        [token, ..] if is_word(token, b"BEFORE") => true,
        [token, ..] if is_word(token, b"AFTER") => true,
        _ => false,
    }
}

/// Returns what a SEND ends, and how the text is advanced.
#[tactic(auto, unfolding(crate::specs::StatementReaders::ending))]
fn take_ending(tokens: &[Token]) -> Result<(Ending, &[Token]), Stop>
    ensures gives { Gives (λ x. (x.0, x.1.now)) result (ending tokens.now) }
    ensures fewer { IfOk result (λ x. length x.1.now < length tokens.now) }
{
    let (indicator, rest) = take_indicator(tokens)?;
    if next_is_advancing(rest) {
        let (advancing, rest) = take_advancing(rest)?;
        let advancing = Some(advancing);
        return Ok((
            Ending {
                indicator,
                advancing,
            },
            rest,
        ));
    }
    let advancing = None;
    Ok((
        Ending {
            indicator,
            advancing,
        },
        rest,
    ))
}

/// Returns whether the end of a SEND comes next.
fn next_is_ending(tokens: &[Token]) -> bool
    ensures { result ≡ begins (begins_form forms.ending) tokens.now }
{
    match tokens {
        [token, ..] if is_word(token, b"WITH") => true,
        [token, ..] if is_word(token, b"ESI") => true,
        [token, ..] if is_word(token, b"EMI") => true,
        [token, ..] if is_word(token, b"EGI") => true,
        _ => false,
    }
}

/// Returns what is sent: a text, an end or both.
#[tactic(auto, unfolding(crate::specs::StatementReaders::sent))]
fn take_sent(tokens: &[Token]) -> Result<(Option<Identifier>, Option<Ending>, &[Token]), Stop>
    ensures gives { Gives (λ x. ((x.0, x.1), x.2.now)) result (sent tokens.now) }
    ensures fewer { IfOk result (λ x. length x.2.now < length tokens.now) }
{
    if !next_is_word(tokens, b"FROM") {
        let (ending, rest) = take_ending(tokens)?;
        return Ok((None, Some(ending), rest));
    }
    let (_, rest) = take_word(tokens, b"FROM")?;
    let (item, rest) = take_identifier(rest)?;
    if next_is_ending(rest) {
        let (ending, rest) = take_ending(rest)?;
        return Ok((Some(item), Some(ending), rest));
    }
    Ok((Some(item), None, rest))
}

/// SEND.
#[tactic(auto, unfolding(crate::specs::StatementReaders::read_send))]
pub(crate) fn take_send(tokens: &[Token]) -> Result<(Statement, &[Token]), Stop>
    ensures gives { Gives (λ x. (tree_of x.0, x.1.now)) result (stated read_send tokens.now) }
    ensures fewer { IfOk result (λ x. length x.1.now < length tokens.now) }
{
    let (_, rest) = take_word(tokens, b"SEND")?;
    let (cd, rest) = take_name(rest)?;
    let (from, ending, rest) = take_sent(rest)?;
    Ok((Statement::Send { cd, from, ending }, rest))
}

/// INPUT, and whether TERMINAL follows; or OUTPUT.
#[tactic(auto, unfolding(crate::specs::StatementReaders::switched))]
fn take_switched(tokens: &[Token]) -> Result<(Option<bool>, &[Token]), Stop>
    ensures gives { Gives (λ x. (x.0, x.1.now)) result (switched tokens.now) }
    ensures fewer { IfOk result (λ x. length x.1.now < length tokens.now) }
{
    if next_is_word(tokens, b"INPUT") {
        let (_, rest) = take_word(tokens, b"INPUT")?;
        let terminal = next_is_word(rest, b"TERMINAL");
        return Ok((Some(terminal), skip_word(rest, b"TERMINAL")));
    }
    let (_, rest) = take_word(tokens, b"OUTPUT")?;
    Ok((None, rest))
}

/// ENABLE or DISABLE, by its word.
#[tactic(auto, unfolding(crate::specs::StatementReaders::read_switch))]
pub(crate) fn take_switch<'a>(
    alloc: Global,
    word: &[u8],
    on: bool,
    tokens: &'a [Token],
) -> Result<(Statement, &'a [Token]), Stop>
    ensures gives { Gives (λ x. (tree_of x.0, x.1.now)) result (stated (read_switch word.now on) tokens.now) }
    ensures fewer { IfOk result (λ x. length x.1.now < length tokens.now) }
{
    let (_, rest) = take_word(tokens, word)?;
    let (which, rest) = take_switched(rest)?;
    let (cd, rest) = take_name(rest)?;
    let (_, rest) = take_word(skip_word(rest, b"WITH"), b"KEY")?;
    let (key, rest) = take_key(alloc, rest)?;
    let statement = match which {
        Some(terminal) => Statement::SwitchInput {
            on,
            terminal,
            cd,
            key,
        },
        None => Statement::SwitchOutput { on, cd, key },
    };
    Ok((statement, rest))
}

/// ACCEPT.
#[tactic(auto, unfolding(crate::specs::StatementReaders::read_accept))]
pub(crate) fn take_accept(tokens: &[Token]) -> Result<(Statement, &[Token]), Stop>
    ensures gives { Gives (λ x. (tree_of x.0, x.1.now)) result (stated read_accept tokens.now) }
    ensures fewer { IfOk result (λ x. length x.1.now < length tokens.now) }
{
    let (_, rest) = take_word(tokens, b"ACCEPT")?;
    let (cd, rest) = take_name(rest)?;
    let (_, rest) = take_word(skip_word(rest, b"MESSAGE"), b"COUNT")?;
    Ok((Statement::Accept { cd }, rest))
}
