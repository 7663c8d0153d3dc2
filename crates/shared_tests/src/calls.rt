//! Calls of parties, each with what its party has done so far.
ghost use Rattle.std.specs.Prelude.{◌≡◌, ◌+◌, ◌<◌, true, IfOk, IfSome, OnOk};
ghost use Rattle.com_events.specs.Calls.{IsItem, IsKey, IsPart, IsTerminalMessage};
ghost use Rattle.com_state.specs.declared.parties.TheConstants.{MAX_VERBS, MAX_ARRIVALS};
ghost use Rattle.shared_tests.specs.Playing.{GoesOn, Sleeps, Runs, Receives, Feeds, HasTaken};

use com_cd::{InArea, InField, OutArea, OutField};
use com_events::{EndReason, StopReason};
use com_msg::{End, Kind, Part, RawMessage, Stamp};
use com_shared::{Arrived, Pass, Received, Shared, Started};
use com_text::{Rows, Text, TextError, digits_of};
use std::alloc::{AllocError, Global};
use std::sync::Wait;

/// Starts a unit, and whether it runs.
#[tactic(auto, using(crate::proofs::Playing::playing))]
pub fn start<R: Wait>(rt: &R, shared: &Shared, pass: &mut Pass) -> Result<bool, AllocError>
    requires { Sleeps shared.now pass.old }
    ensures goes_on { GoesOn shared.now pass.old pass.new }
    ensures runs { IfOk result (λ runs. runs ≡ true → Runs shared.now 0 pass.new) }
{
    match shared.start(rt, pass) {
        Ok(Started::Plain) => Ok(true),
        Ok(Started::Named(_)) => Ok(true),
        Ok(Started::Idle) => Ok(false),
        Ok(Started::RoundOver) => Ok(false),
        Err(error) => Err(error),
    }
}

/// An area that asks for messages of the queue Q1.
pub fn asking() -> InArea {
    let mut area = InArea::opening();
    area.set(InField::Queue, b"Q1          ");
    area
}

/// An area for a text of so many characters to T1.
pub fn answering(length: u32) -> OutArea
    requires { length < 10_000 }
{
    let mut area = OutArea::opening(1);
    area.set(OutField::Count, b"0001");
    area.set(OutField::Length, &digits_of::<4>(u64::from(length)));
    area.set(OutField::Destination(0), b"T1          ");
    area
}

/// Receives up to 20 characters of a message, for a unit that has done so many verbs.
#[tactic(auto, using(crate::proofs::Playing::playing))]
pub fn take_message<R: Wait>(
    rt: &R,
    shared: &Shared,
    pass: &mut Pass,
    area: &mut InArea,
    verbs: u32,
) -> Result<Received, AllocError>
    requires { Receives shared.now verbs area.old pass.old }
    ensures goes_on { GoesOn shared.now pass.old pass.new }
    ensures taken { IfOk result (λ received. HasTaken shared.now verbs received area.new
        pass.new) }
{
    let _ = verbs;
    shared.receive(rt, pass, area, Kind::Message, 20, false)
}

/// COUNT, for a unit that has done so many verbs.
#[tactic(auto, using(crate::proofs::Playing::playing))]
pub fn count<R: Wait>(
    rt: &R,
    shared: &Shared,
    pass: &mut Pass,
    area: &mut InArea,
    verbs: u32,
) -> Result<(), AllocError>
    requires runs { Runs shared.now verbs pass.old }
    requires few { verbs < MAX_VERBS }
    ensures goes_on { GoesOn shared.now pass.old pass.new }
    ensures runs { OnOk result (Runs shared.now (verbs + 1) pass.new) }
{
    let _ = verbs;
    shared.count(rt, pass, area)?;
    Ok(())
}

/// SEND of an item, for a unit that has done so many verbs.
#[tactic(auto, using(crate::proofs::Playing::playing))]
pub fn send<R: Wait>(
    rt: &R,
    shared: &Shared,
    pass: &mut Pass,
    area: &mut OutArea,
    part: Part,
    text: &Text,
    verbs: u32,
) -> Result<(), AllocError>
    requires runs { Runs shared.now verbs pass.old }
    requires few { verbs < MAX_VERBS }
    requires part { IsPart part }
    requires item { IsItem text.now }
    ensures goes_on { GoesOn shared.now pass.old pass.new }
    ensures runs { OnOk result (Runs shared.now (verbs + 1) pass.new) }
{
    let _ = verbs;
    shared.send(rt, pass, area, part, Some(text))?;
    Ok(())
}

/// ENABLE INPUT, for a unit that has done so many verbs.
#[tactic(auto, using(crate::proofs::Playing::playing))]
pub fn enable_input<R: Wait>(
    rt: &R,
    shared: &Shared,
    pass: &mut Pass,
    area: &mut InArea,
    key: &Text,
    verbs: u32,
) -> Result<(), AllocError>
    requires runs { Runs shared.now verbs pass.old }
    requires few { verbs < MAX_VERBS }
    requires key { IsKey key.now }
    ensures goes_on { GoesOn shared.now pass.old pass.new }
    ensures runs { OnOk result (Runs shared.now (verbs + 1) pass.new) }
{
    let _ = verbs;
    shared.switch_input(rt, pass, true, false, area, key)?;
    Ok(())
}

/// ENABLE or DISABLE OUTPUT, for a unit that has done so many verbs.
#[tactic(auto, using(crate::proofs::Playing::playing))]
pub fn switch_output<R: Wait>(
    rt: &R,
    shared: &Shared,
    pass: &mut Pass,
    on: bool,
    area: &mut OutArea,
    key: &Text,
    verbs: u32,
) -> Result<(), AllocError>
    requires runs { Runs shared.now verbs pass.old }
    requires few { verbs < MAX_VERBS }
    requires key { IsKey key.now }
    ensures goes_on { GoesOn shared.now pass.old pass.new }
    ensures runs { OnOk result (Runs shared.now (verbs + 1) pass.new) }
{
    let _ = verbs;
    shared.switch_output(rt, pass, on, area, key)?;
    Ok(())
}

/// STOP RUN.
#[tactic(auto, using(crate::proofs::Playing::playing))]
pub fn stop<R: Wait>(rt: &R, shared: &Shared, pass: &mut Pass, verbs: u32) -> Result<(), AllocError>
    requires { Runs shared.now verbs pass.old }
    ensures { GoesOn shared.now pass.old pass.new }
{
    let _ = verbs;
    shared.stop(rt, pass, StopReason::Run)
}

/// A message of one segment with these characters, where a terminal may send it.
pub fn message(alloc: Global, bytes: &[u8]) -> Result<Option<RawMessage>, AllocError>
    ensures { IfOk result (λ message. IfSome message IsTerminalMessage) }
{
    let text = match Text::read(alloc, bytes) {
        Ok(text) => text,
        Err(TextError::BadByte { .. }) => return Ok(None),
        Err(TextError::Memory(error)) => return Err(error),
    };
    let mut segments = Vec::new(alloc);
    segments.push(text)?;
    let message = RawMessage {
        segments: Rows::of_vec(segments),
        end: End::Emi,
    };
    if !message.is_within_limits() {
        return Ok(None);
    }
    Ok(Some(message))
}

/// A message arrives, from a terminal of which so many have arrived, and whether it did.
#[tactic(auto, using(crate::proofs::Feeding::feeding))]
pub fn arrive<R: Wait>(
    rt: &R,
    shared: &Shared,
    pass: &mut Pass,
    stamp: Stamp,
    message: RawMessage,
    arrivals: u32,
) -> Result<bool, AllocError>
    requires feeds { Feeds shared.now arrivals pass.old }
    requires few { arrivals < MAX_ARRIVALS }
    requires message { IsTerminalMessage message }
    ensures goes_on { GoesOn shared.now pass.old pass.new }
    ensures feeds { IfOk result (λ come. come ≡ true → Feeds shared.now (arrivals + 1) pass.new) }
{
    let _ = arrivals;
    match shared.arrive(rt, pass, stamp, message) {
        Ok(Arrived::Done(_)) => Ok(true),
        Ok(Arrived::Idle) => Ok(false),
        Ok(Arrived::RoundOver(_)) => Ok(false),
        Err((_, error)) => Err(error),
    }
}

/// END END.
#[tactic(auto, using(crate::proofs::Feeding::feeding))]
pub fn end<R: Wait>(
    rt: &R,
    shared: &Shared,
    pass: &mut Pass,
    arrivals: u32,
) -> Result<(), AllocError>
    requires { Feeds shared.now arrivals pass.old }
    ensures { GoesOn shared.now pass.old pass.new }
{
    let _ = arrivals;
    shared.end(rt, pass, EndReason::End)
}
