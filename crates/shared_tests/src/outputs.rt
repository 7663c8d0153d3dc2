//! Two units that are sources of one output.
ghost use Rattle.std.specs.Prelude.{◌≡◌, ◌<◌, ◌≤◌, length, IfOk, OnOk};
ghost use Rattle.com_events.specs.Calls.{IsPart};
ghost use Rattle.com_shared.specs.Passes.{IsNew, MayClose};
ghost use Rattle.shared_tests.specs.Speaking.{Speaks, GoesOnSpeaking};

use crate::calls::{answering, send, start, switch_output};
use crate::closing::close_three;
use crate::parties::{item, key, last_pass};
use crate::replay::Played;
use com_cd::{OutArea, OutField};
use com_msg::{Advance, Part};
use com_net::Net;
use com_shared::{Pass, Shared};
use std::alloc::{AllocError, Global};
use std::sync::Wait;

/// How many verbs a unit does at most.
const FEW_VERBS: u32 = 100;

/// A unit that runs, and how many verbs it has done.
#[derive(Drop)]
pub struct Speaker {
    pub pass: Pass,
    pub verbs: u32,
}

/// Adds STATUS KEY of an area.
fn add_status(area: &OutArea, statuses: &mut Vec<u8>) -> Result<(), AllocError> {
    statuses.extend_from_slice(area.get(OutField::Status))
}

/// ENABLE or DISABLE OUTPUT of T1.
fn switch<R: Wait>(
    rt: &R,
    alloc: Global,
    shared: &Shared,
    speaker: &mut Speaker,
    on: bool,
    password: &[u8],
    statuses: &mut Vec<u8>,
) -> Result<(), AllocError>
    requires speaks { Speaks shared.now speaker.old }
    requires password { length password.now ≤ 10 }
    ensures { OnOk result (GoesOnSpeaking shared.now speaker.old speaker.new) }
{
    if speaker.verbs >= FEW_VERBS {
        return Err(AllocError);
    }
    let mut area = answering(0);
    let key = key(alloc, password)?;
    switch_output(
        rt,
        shared,
        &mut speaker.pass,
        on,
        &mut area,
        &key,
        speaker.verbs,
    )?;
    speaker.verbs += 1;
    add_status(&area, statuses)
}

/// SEND of an item to T1.
fn speak<R: Wait>(
    rt: &R,
    alloc: Global,
    shared: &Shared,
    speaker: &mut Speaker,
    part: Part,
    bytes: &[u8],
    statuses: &mut Vec<u8>,
) -> Result<(), AllocError>
    requires speaks { Speaks shared.now speaker.old }
    requires part { IsPart part }
    requires item { (1 ≤ length bytes.now) × (length bytes.now ≤ 10) }
    ensures { OnOk result (GoesOnSpeaking shared.now speaker.old speaker.new) }
{
    if speaker.verbs >= FEW_VERBS {
        return Err(AllocError);
    }
    let mut area = answering(bytes.len() as u32);
    let text = item(alloc, bytes)?;
    send(
        rt,
        shared,
        &mut speaker.pass,
        &mut area,
        part,
        &text,
        speaker.verbs,
    )?;
    speaker.verbs += 1;
    add_status(&area, statuses)
}

/// T1 is switched off and on by two units, and both send to it meanwhile.
fn switch_and_send<R: Wait>(
    rt: &R,
    alloc: Global,
    shared: &Shared,
    one: &mut Speaker,
    other: &mut Speaker,
    statuses: &mut Vec<u8>,
) -> Result<(), AllocError>
    requires one { Speaks shared.now one.old }
    requires other { Speaks shared.now other.old }
    ensures one { OnOk result (GoesOnSpeaking shared.now one.old one.new) }
    ensures other { OnOk result (GoesOnSpeaking shared.now other.old other.new) }
{
    let whole = Part::Emi(Advance::After(1));
    switch(rt, alloc, shared, one, true, b"0123456789", statuses)?;
    switch(rt, alloc, shared, other, false, b"TPASS", statuses)?;
    speak(rt, alloc, shared, one, whole, b"A", statuses)?;
    speak(rt, alloc, shared, other, whole, b"B", statuses)?;
    switch(rt, alloc, shared, one, true, b"TPASS", statuses)
}

/// One unit sends a message in two portions, and the other a whole one between them.
fn send_portions<R: Wait>(
    rt: &R,
    alloc: Global,
    shared: &Shared,
    one: &mut Speaker,
    other: &mut Speaker,
    statuses: &mut Vec<u8>,
) -> Result<(), AllocError>
    requires one { Speaks shared.now one.old }
    requires other { Speaks shared.now other.old }
    ensures one { OnOk result (GoesOnSpeaking shared.now one.old one.new) }
    ensures other { OnOk result (GoesOnSpeaking shared.now other.old other.new) }
{
    let whole = Part::Emi(Advance::After(1));
    speak(rt, alloc, shared, one, Part::Portion, b"HEL", statuses)?;
    speak(rt, alloc, shared, other, whole, b"C", statuses)?;
    speak(rt, alloc, shared, one, whole, b"LO", statuses)
}

/// The unit of a new pass, as soon as it runs.
#[tactic(auto, using(crate::proofs::Speaking::speaking))]
fn speaker_of<R: Wait>(rt: &R, shared: &Shared, pass: Pass) -> Result<Speaker, AllocError>
    requires unit { pass.number < length shared.now.net.units }
    requires new { IsNew shared.now pass.number pass }
    ensures speaks { IfOk result (Speaks shared.now) }
    ensures number { IfOk result (λ speaker. speaker.pass.number ≡ pass.number) }
{
    let mut pass = pass;
    if start(rt, shared, &mut pass)? {
        return Ok(Speaker { pass, verbs: 0 });
    }
    Err(AllocError)
}

/// The pass of a unit that leaves.
#[tactic(auto, using(crate::proofs::Speaking::speaking))]
fn left<R: Wait>(rt: &R, shared: &Shared, speaker: Speaker) -> Pass
    requires { Speaks shared.now speaker }
    ensures { MayClose shared.now speaker.pass.number result }
{
    let Speaker { mut pass, verbs } = speaker;
    let _ = verbs;
    shared.leave(rt, &mut pass);
    pass
}

/// Two units of a network with one terminal, T1, switch it and send to it. STATUS KEY after each
/// call, and what comes of it.
pub fn share_output<R: Wait>(
    rt: &R,
    alloc: Global,
    net: &Net,
) -> Result<(Vec<u8>, Played), AllocError>
    requires { (length net.now.units ≡ 2) × (length net.now.terminals ≡ 1) }
{
    let (shared, mut passes) = Shared::open(net)?;
    let terminal = last_pass(&shared, &mut passes);
    let other = last_pass(&shared, &mut passes);
    let one = last_pass(&shared, &mut passes);
    let mut statuses = Vec::new(alloc);
    let mut one = speaker_of(rt, &shared, one)?;
    let mut other = speaker_of(rt, &shared, other)?;
    switch_and_send(rt, alloc, &shared, &mut one, &mut other, &mut statuses)?;
    send_portions(rt, alloc, &shared, &mut one, &mut other, &mut statuses)?;
    let one = left(rt, &shared, one);
    let other = left(rt, &shared, other);
    let played = close_three(alloc, net, shared, one, other, terminal)?;
    Ok((statuses, played))
}
