//! Who calls, and what for.
ghost use Rattle.std.specs.Prelude.{◌≡◌, OnOk};
ghost use Rattle.com_journal.specs.Lines.{call_fields};
ghost use Rattle.com_journal.specs.inner.Writing.{written, AreCountable};
ghost use Rattle.com_journal.specs.inner.Outcomes.{Gives};
ghost use Rattle.com_journal.specs.inner.Reading.{party_of, party_at, count_at, stop_at, unit_verb, terminal_verb, verb_behind, call_at};

use crate::line::{Line, Unread, name_of};
use crate::put::{put_field, put_word};
use crate::words::{stop_of, stop_word, switch_of};
use crate::{arrive, finish, receive, send, switch};
use com_events::{Call, Party};
use com_text::{Name, Rows};
use std::alloc::{AllocError, Global};

/// Takes the party and the call at the beginning of a line.
#[tactic(auto, unfolding(crate::specs::inner::Reading::call_at))]
pub(crate) fn read(alloc: Global, line: &mut Line<'_>) -> Result<(Party, Call), Unread>
    ensures { Gives (λ found. (found, line.new)) result (call_at line.old) }
{
    let party = party(line)?;
    let verb = line.word()?;
    let call = call_behind(alloc, &party, verb, line)?;
    Ok((party, call))
}

#[tactic(auto, unfolding(crate::specs::inner::Reading::party_at))]
fn party(line: &mut Line<'_>) -> Result<Party, Unread>
    ensures { Gives (λ party. (party, line.new)) result (party_at line.old) }
{
    let sort = line.first()?;
    let name = name_of(line.word()?)?;
    party_of(sort, name)
}

#[tactic(auto, unfolding(crate::specs::inner::Reading::party_of))]
fn party_of(sort: u8, name: Name) -> Result<Party, Unread>
    ensures { Gives (λ party. party) result (party_of sort name) }
{
    match sort {
        b'U' => Ok(Party::Unit(name)),
        b'T' => Ok(Party::Terminal(name)),
        _ => Err(Unread::Refused),
    }
}

/// Takes the call of a party, after its verb.
#[tactic(auto, unfolding(crate::specs::inner::Reading::verb_behind))]
fn call_behind(
    alloc: Global,
    party: &Party,
    verb: &[u8],
    line: &mut Line<'_>,
) -> Result<Call, Unread>
    ensures { Gives (λ call. (call, line.new)) result (verb_behind party.now verb.now line.old) }
{
    match party {
        Party::Unit(_) => unit_call(alloc, verb, line),
        Party::Terminal(_) => terminal_call(alloc, verb, line),
    }
}

#[tactic(auto, unfolding(crate::specs::inner::Reading::unit_verb))]
fn unit_call(alloc: Global, verb: &[u8], line: &mut Line<'_>) -> Result<Call, Unread>
    ensures { Gives (λ call. (call, line.new)) result (unit_verb verb.now line.old) }
{
    if verb == b"START".as_slice() {
        Ok(Call::Start)
    } else if verb == b"RECEIVE".as_slice() {
        receive::read_call(line)
    } else if verb == b"COUNT".as_slice() {
        count(line)
    } else if verb == b"SEND".as_slice() {
        send::read_call(alloc, line)
    } else if verb == b"STOP".as_slice() {
        stop(line)
    } else {
        let on = switch_of(verb)?;
        switch::read_call(alloc, on, line)
    }
}

#[tactic(auto, unfolding(crate::specs::inner::Reading::terminal_verb))]
fn terminal_call(alloc: Global, verb: &[u8], line: &mut Line<'_>) -> Result<Call, Unread>
    ensures { Gives (λ call. (call, line.new)) result (terminal_verb verb.now line.old) }
{
    if verb == b"ARRIVE".as_slice() {
        arrive::read_call(alloc, line)
    } else if verb == b"HELD".as_slice() {
        Ok(Call::Held)
    } else if verb == b"END".as_slice() {
        finish::read_call(line)
    } else {
        Err(Unread::Refused)
    }
}

#[tactic(auto, unfolding(crate::specs::inner::Reading::count_at))]
fn count(line: &mut Line<'_>) -> Result<Call, Unread>
    ensures { Gives (λ call. (call, line.new)) result (count_at line.old) }
{
    let area = line.in_area()?;
    Ok(Call::Count { area })
}

#[tactic(auto, unfolding(crate::specs::inner::Reading::stop_at))]
fn stop(line: &mut Line<'_>) -> Result<Call, Unread>
    ensures { Gives (λ call. (call, line.new)) result (stop_at line.old) }
{
    let reason = stop_of(line.word()?)?;
    Ok(Call::Stop { reason })
}

/// Adds a call.
pub(crate) fn put(out: &mut Rows<u8>, call: &Call) -> Result<(), AllocError>
    requires { AreCountable call.now }
    ensures { OnOk result (out.new ≡ written out.old (call_fields call.now)) }
{
    match call {
        Call::Start => put_word(out, b"START"),
        Call::Receive {
            area,
            kind,
            size,
            no_data,
        } => receive::put_call(out, area, *kind, *size, *no_data),
        Call::Count { area } => {
            put_word(out, b"COUNT")?;
            put_field(out, area.as_bytes())
        }
        Call::Send { area, part, from } => send::put_call(out, area, *part, from),
        Call::SwitchInput {
            on,
            terminal,
            area,
            key,
        } => switch::put_input(out, *on, *terminal, area, key),
        Call::SwitchOutput { on, area, key } => switch::put_output(out, *on, area, key),
        Call::Arrive { stamp, message } => arrive::put_call(out, stamp, message),
        Call::Held => put_word(out, b"HELD"),
        Call::Stop { reason } => {
            put_word(out, b"STOP")?;
            put_word(out, stop_word(*reason))
        }
        Call::Finish { reason } => {
            put_word(out, b"END")?;
            finish::put_reason(out, reason)
        }
    }
}
