//! A history, done over again.
ghost use Rattle.std.specs.Prelude.{◌≡◌, All};
ghost use Rattle.com_events.specs.Calls.{HasText};

use com_events::{Call, Entry, Reply, StopReason};
use com_lines::render;
use com_net::Net;
use com_state::State;
use com_text::{Name, Rows};
use std::alloc::{AllocError, Global};

/// The number in a reply, or 0.
fn number_in(reply: &Reply) -> u64 {
    match reply {
        Reply::Arrived { number } => *number,
        _ => 0,
    }
}

/// The characters of a reply's area, or none.
fn area_in(reply: &Reply) -> &[u8] {
    match reply {
        Reply::Given { area, .. }
        | Reply::NoData { area }
        | Reply::Refused { area }
        | Reply::AreaIn { area } => area.as_bytes(),
        Reply::AreaOut { area } => area.as_bytes(),
        _ => b"",
    }
}

/// The text of a reply, or none.
fn text_in(reply: &Reply) -> &[u8] {
    match reply {
        Reply::Given { text, .. } => text.as_bytes(),
        Reply::Started { names: Some(names) } => names,
        _ => b"",
    }
}

/// The kind of a reply.
fn kind_of(reply: &Reply) -> u8 {
    match reply {
        Reply::Started { .. } => 0,
        Reply::Given { .. } => 1,
        Reply::NoData { .. } => 2,
        Reply::Refused { .. } => 3,
        Reply::Waits => 4,
        Reply::AreaIn { .. } => 5,
        Reply::AreaOut { .. } => 6,
        Reply::Arrived { .. } => 7,
        Reply::Done => 8,
    }
}

fn is_same(one: &Reply, other: &Reply) -> bool {
    kind_of(one) == kind_of(other)
        && number_in(one) == number_in(other)
        && area_in(one) == area_in(other)
        && text_in(one) == text_in(other)
}

/// Makes a call again, and whether it is allowed and answered as before.
fn repeats(state: &mut State, entry: &Entry) -> Result<bool, AllocError>
    requires { HasText entry.now }
{
    if !state.may(&entry.party, &entry.call) {
        return Ok(false);
    }
    let reply = state.apply(&entry.party, &entry.call)?;
    Ok(is_same(&reply, &entry.reply))
}

/// What a test sees of a system that was closed.
#[derive(Drop)]
pub struct Played {
    /// A letter for each entry, by its reply, or by its call where that is DONE.
    pub letters: Vec<u8>,
    /// What was transmitted to T1.
    pub transcript: Vec<u8>,
    /// Whether a system of one thread answers all calls of the history in the same way.
    pub legal: bool,
}

impl Played {
    /// Returns how often a letter occurs.
    pub fn count(&self, letter: u8) -> usize {
        self.letters
            .iter()
            .filter(|other| **other == letter)
            .count()
    }

    /// Returns whether the letters are those before, then those in the middle so many times, and
    /// then those after, and whether the history is legal.
    pub fn is(&self, before: &[u8], times: usize, middle: &[u8], after: &[u8]) -> bool {
        self.legal && is_made_of(&self.letters, before, times, middle, after)
    }
}

/// Returns whether a text is one text, then another so many times, and then a third.
pub fn is_made_of(text: &[u8], before: &[u8], times: usize, middle: &[u8], after: &[u8]) -> bool {
    let mut left = text;
    let Some(rest) = left.strip_prefix(before) else {
        return false;
    };
    left = rest;
    for _ in 0..times {
        let Some(rest) = left.strip_prefix(middle) else {
            return false;
        };
        left = rest;
    }
    left == after
}

/// Reads a system that was closed.
pub fn read_back(
    alloc: Global,
    net: &Net,
    state: &State,
    history: &[Entry],
) -> Result<Played, AllocError>
    requires { All HasText history.now }
{
    Ok(Played {
        letters: letters(alloc, history)?,
        transcript: transcript(alloc, state)?.into_vec(),
        legal: replays(net, history)?,
    })
}

/// The letters of a history.
fn letters(alloc: Global, history: &[Entry]) -> Result<Vec<u8>, AllocError> {
    let mut letters = Vec::new(alloc);
    for entry in history {
        letters.push(letter_of(entry))?;
    }
    Ok(letters)
}

/// The letter of an entry.
fn letter_of(entry: &Entry) -> u8 {
    match entry.reply {
        Reply::Started { .. } => b'S',
        Reply::Given { .. } => b'G',
        Reply::NoData { .. } => b'N',
        Reply::Refused { .. } => b'R',
        Reply::Waits => b'W',
        Reply::AreaIn { .. } => b'I',
        Reply::AreaOut { .. } => b'O',
        Reply::Arrived { .. } => b'A',
        Reply::Done => letter_of_done(&entry.call),
    }
}

/// The letter of a call that is answered DONE.
fn letter_of_done(call: &Call) -> u8 {
    match call {
        Call::Held => b'h',
        Call::Stop {
            reason: StopReason::Idle,
        } => b'i',
        Call::Stop { .. } => b's',
        _ => b'e',
    }
}

/// What was transmitted to T1, as bytes.
fn transcript(alloc: Global, state: &State) -> Result<Rows<u8>, AllocError> {
    let mut bytes = Rows::new(alloc);
    let Some(name) = Name::new(b"T1") else {
        return Ok(bytes);
    };
    let Some(terminal) = state.net().terminal(&name) else {
        return Ok(bytes);
    };
    for message in state.transmitted(terminal) {
        render(message, &mut bytes)?;
    }
    Ok(bytes)
}

/// Whether the calls of a history, made on a new system, are all allowed and answered as there.
fn replays(net: &Net, history: &[Entry]) -> Result<bool, AllocError>
    requires { All HasText history.now }
{
    let mut state = State::open(net)?;
    for entry in history {
        if !repeats(&mut state, entry)? {
            return Ok(false);
        }
    }
    Ok(true)
}
