//! Calls on a system, one after another.
use crate::replies::{add_reply, add_transcript};
use case_lines::Words;
use com_events::{Call, Party, Reply};
use com_journal::call_line;
use com_net::{Net, NetError};
use com_state::State;
use com_text::Name;
use std::alloc::{AllocError, Global};

/// What becomes of a call.
#[derive(Debug, Drop)]
enum Answer {
    Reply(Reply),
    NotAllowed,
    NoCall,
}

/// What some calls come to on the opening system of a description.
#[derive(Clone, Copy, Debug)]
pub enum Asked {
    /// Their replies.
    Replies,
    /// How often one is allowed.
    Times,
}

/// Returns what calls come to on the opening system of a description. The system is let go here
/// alone.
pub fn outcome(
    alloc: Global,
    description: &[u8],
    asked: Asked,
    words: &mut Words<'_>,
) -> Result<String, AllocError> {
    let Some(mut state) = opened(alloc, description)? else {
        return String::from_str(alloc, "no network");
    };
    match asked {
        Asked::Replies => answers(alloc, &mut state, words.rest()),
        Asked::Times => times_allowed(alloc, &mut state, words),
    }
}

/// Returns the replies to these calls, up to the first that is none or not allowed. `show NAME` in
/// the place of a call stands for what was transmitted to that terminal.
fn answers(alloc: Global, state: &mut State, calls: &[Vec<u8>]) -> Result<String, AllocError> {
    let mut out = String::new(alloc);
    for text in calls {
        if !out.is_empty() {
            out.push_str("; ")?;
        }
        let goes_on = match text.strip_prefix(b"show ") {
            Some(name) => show(alloc, state, name, &mut out)?,
            None => add_answer(alloc, state, text, &mut out)?,
        };
        if !goes_on {
            break;
        }
    }
    Ok(out)
}

/// Returns how often a call is allowed, of a number of times, after a call that is made once.
fn times_allowed(
    alloc: Global,
    state: &mut State,
    words: &mut Words<'_>,
) -> Result<String, AllocError> {
    let _first = made(alloc, state, words.bytes())?;
    let times = words.number();
    let text = words.bytes();
    let mut allowed = 0u64;
    for _ in 0..times {
        if let Answer::Reply(_) = made(alloc, state, text)? {
            allowed = allowed.saturating_add(1);
        }
    }
    format!(in alloc; "{allowed}")
}

/// Returns the opening system of a description's network, where it describes one.
fn opened(alloc: Global, description: &[u8]) -> Result<Option<State>, AllocError> {
    match Net::read(alloc, description) {
        Ok(net) => Ok(Some(State::open(&net)?)),
        Err(NetError::Refused(_)) => Ok(None),
        Err(NetError::Memory(error)) => Err(error),
    }
}

/// Adds what becomes of a call, and answers whether it was made.
fn add_answer(
    alloc: Global,
    state: &mut State,
    text: &[u8],
    out: &mut String,
) -> Result<bool, AllocError> {
    match made(alloc, state, text)? {
        Answer::Reply(reply) => {
            add_reply(alloc, &reply, out)?;
            Ok(true)
        }
        Answer::NotAllowed => {
            out.push_str("not allowed")?;
            Ok(false)
        }
        Answer::NoCall => {
            out.push_str("no call")?;
            Ok(false)
        }
    }
}

/// Makes a call, where it is allowed.
fn made(alloc: Global, state: &mut State, text: &[u8]) -> Result<Answer, AllocError> {
    let Some((party, call)) = call_line(alloc, text)? else {
        return Ok(Answer::NoCall);
    };
    if !state.may(&party, &call) {
        return Ok(Answer::NotAllowed);
    }
    Ok(Answer::Reply(state.apply(&party, &call)?))
}

/// Adds what was transmitted to a terminal, and answers whether there is one of this name.
fn show(alloc: Global, state: &State, name: &[u8], out: &mut String) -> Result<bool, AllocError> {
    let Some(name) = Name::new(name) else {
        return Ok(false);
    };
    match state.net().terminal(&name) {
        Some(terminal) => {
            add_transcript(alloc, state.transmitted(terminal), out)?;
            Ok(true)
        }
        None => Ok(false),
    }
}
