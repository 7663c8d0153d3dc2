//! What a unit and a terminal do in a test.
ghost use Rattle.std.specs.Prelude.{◌≡◌, ◌+◌, ◌<◌, ◌≤◌, length, IfOk, OnOk};
ghost use Rattle.com_events.specs.Calls.{IsItem, IsKey};
ghost use Rattle.com_state.specs.declared.parties.TheConstants.{MAX_VERBS};
ghost use Rattle.com_shared.specs.Passes.{IsNew};
ghost use Rattle.shared_tests.specs.Playing.{GoesOn, Sleeps, Runs, Feeds, AllNew};

use crate::calls::{
    answering, arrive, asking, count, enable_input, end, message, send, start, stop, take_message,
};
use crate::plan::{MAX_MESSAGES, Plan, bide_as_terminal, bide_as_unit, wait_for_entries};
use com_cd::InArea;
use com_msg::{Advance, Part, Stamp};
use com_shared::{Pass, Received, Shared};
use com_text::{Text, TextError};
use std::alloc::{AllocError, Global};
use std::sync::Wait;

/// The last pass of the list.
pub fn last_pass(shared: &Shared, passes: &mut Vec<Pass>) -> Pass
    requires not_empty { 0 < length passes.old.items }
    requires new { AllNew shared.now passes.old.items }
    ensures rest { length passes.new.items + 1 ≡ length passes.old.items }
    ensures new { AllNew shared.now passes.new.items }
    ensures last { IsNew shared.now (length passes.new.items) result }
{
    let _ = shared;
    let Some(pass) = passes.pop() else {
        unreachable!()
    };
    pass
}

/// The item of a SEND.
pub fn item(alloc: Global, bytes: &[u8]) -> Result<Text, AllocError>
    requires { (1 ≤ length bytes.now) × (length bytes.now ≤ 10) }
    ensures { IfOk result IsItem }
{
    match Text::read(alloc, bytes) {
        Ok(text) => Ok(text),
        Err(TextError::BadByte { .. }) => Err(AllocError),
        Err(TextError::Memory(error)) => Err(error),
    }
}

/// The key of an ENABLE or a DISABLE.
pub fn key(alloc: Global, bytes: &[u8]) -> Result<Text, AllocError>
    requires { length bytes.now ≤ 10 }
    ensures { IfOk result IsKey }
{
    match Text::read(alloc, bytes) {
        Ok(text) => Ok(text),
        Err(TextError::BadByte { .. }) => Err(AllocError),
        Err(TextError::Memory(error)) => Err(error),
    }
}

/// Counts the messages that wait, and sends one to T1.
fn answer_one<R: Wait>(
    rt: &R,
    shared: &Shared,
    pass: &mut Pass,
    area: &mut InArea,
    text: &Text,
    verbs: u32,
) -> Result<(), AllocError>
    requires runs { Runs shared.now verbs pass.old }
    requires few { verbs + 2 ≤ MAX_VERBS }
    requires item { IsItem text.now }
    ensures goes_on { GoesOn shared.now pass.old pass.new }
    ensures runs { OnOk result (Runs shared.now (verbs + 1 + 1) pass.new) }
{
    let mut to = answering(1);
    let part = Part::Emi(Advance::After(1));
    count(rt, shared, pass, area, verbs)?;
    send(rt, shared, pass, &mut to, part, text, verbs + 1)
}

/// A unit that has done so many verbs answers so many messages, and stops. How many it answered:
/// fewer if nothing could happen any more.
fn answer_all<R: Wait>(
    rt: &R,
    shared: &Shared,
    pass: &mut Pass,
    text: &Text,
    messages: u32,
    verbs: u32,
) -> Result<u32, AllocError>
    requires runs { Runs shared.now verbs pass.old }
    requires few { (messages ≤ MAX_MESSAGES) × (verbs ≤ 1) }
    requires item { IsItem text.now }
    ensures { GoesOn shared.now pass.old pass.new }
{
    let mut area = asking();
    for k in 0..messages {
        match take_message(rt, shared, pass, &mut area, verbs + 3 * k)? {
            Received::Given(_) => {
                answer_one(rt, shared, pass, &mut area, text, verbs + 3 * k + 1)?
            }
            _ => return Ok(k),
        }
    }
    stop(rt, shared, pass, verbs + 3 * messages)?;
    Ok(messages)
}

/// A unit enables the queue when a terminal holds its message, and waits until it has come in.
fn open_path<R: Wait>(
    rt: &R,
    alloc: Global,
    shared: &Shared,
    pass: &mut Pass,
    turns: u32,
) -> Result<(), AllocError>
    requires { Runs shared.now 0 pass.old }
    ensures goes_on { GoesOn shared.now pass.old pass.new }
    ensures runs { OnOk result (Runs shared.now 1 pass.new) }
{
    let mut area = asking();
    let key = key(alloc, b"QPASS")?;
    // START and HELD
    bide_as_unit(rt, shared, pass, 2, turns, 0);
    enable_input(rt, shared, pass, &mut area, &key, 0)?;
    // ENABLE and ARRIVE
    bide_as_unit(rt, shared, pass, 4, 0, 1);
    Ok(())
}

/// A unit starts, answers messages by the plan, and stops. How many it answered.
pub fn serve<R: Wait>(
    rt: &R,
    alloc: Global,
    shared: &Shared,
    pass: &mut Pass,
    plan: Plan,
) -> Result<u32, AllocError>
    requires sleeps { Sleeps shared.now pass.old }
    requires few { plan.answers ≤ MAX_MESSAGES }
    ensures { GoesOn shared.now pass.old pass.new }
{
    let text = item(alloc, b"A")?;
    if !start(rt, shared, pass)? {
        return Ok(0);
    }
    if !plan.opens {
        return answer_all(rt, shared, pass, &text, plan.answers, 0);
    }
    open_path(rt, alloc, shared, pass, plan.turns)?;
    answer_all(rt, shared, pass, &text, plan.answers, 1)
}

/// A terminal sends messages by the plan, and ends. Whether all came in.
pub fn feed<R: Wait>(
    rt: &R,
    alloc: Global,
    shared: &Shared,
    pass: &mut Pass,
    plan: Plan,
) -> Result<bool, AllocError>
    requires feeds { Feeds shared.now 0 pass.old }
    requires few { plan.messages ≤ MAX_MESSAGES }
    ensures { GoesOn shared.now pass.old pass.new }
{
    let Some(stamp) = Stamp::new(b"740601", b"10203000") else {
        return Ok(false);
    };
    for k in 0..plan.messages {
        let Some(message) = message(alloc, b"HELLO")? else {
            return Ok(false);
        };
        bide_as_terminal(rt, shared, pass, plan, k);
        if !arrive(rt, shared, pass, stamp, message, k)? {
            return Ok(false);
        }
    }
    bide_as_terminal(rt, shared, pass, plan, plan.messages);
    end(rt, shared, pass, plan.messages)?;
    wait_for_entries(rt, shared, pass, plan.last);
    Ok(true)
}
