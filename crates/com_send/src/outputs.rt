//! All destinations: those that an area names are changed, and the others stay.
ghost use Rattle.std.specs.Prelude.{◌≡◌, ◌<◌, length, map, IsTrue, IfOk, OnOk, OnErr};
ghost use Rattle.std.specs.List.{All};
ghost use Rattle.com_text.specs.Text.{IsText};
ghost use Rattle.com_send.specs.Outgoing.{opening, drop_unit};
ghost use Rattle.com_send.specs.Found.{at_each};
ghost use Rattle.com_send.specs.Sending.{serve, has_disabled, send_status};
ghost use Rattle.com_send.specs.Switching.{switch};
ghost use Rattle.com_send.specs.Kept.{states_of, EachNamed, HasRoom, CanTransmit, IsSentPart};

use crate::Destination;
use crate::areas::{Named, has_unknown, is_among};
use crate::output::{Output, SentPart, whole_message};
use com_cd::Status;
use com_msg::Part;
use std::alloc::{AllocError, Global};

/// Returns the outputs of destinations to which `units` units have sent nothing.
pub fn outputs_of(
    alloc: Global,
    destinations: &[Destination],
    units: u32,
) -> Result<Vec<Output>, AllocError>
    ensures { IfOk result (λ outputs. states_of outputs.items ≡ opening destinations.now units) }
{
    let mut outputs = Vec::new(alloc);
    for destination in destinations {
        outputs.push(Output::new(alloc, destination.on, units)?)?;
    }
    Ok(outputs)
}

/// Serves each destination that is named, once, and answers the status key: 20 where a destination
/// is unknown, otherwise 10 where a known one is disabled, otherwise 00. If memory runs out,
/// nothing changes.
pub fn send_to(
    alloc: Global,
    outputs: &mut [Output],
    found: &[Option<usize>],
    unit: u32,
    part: Part,
    text: &[u8],
) -> Result<Status, AllocError>
    requires units { All (λ output. unit < length output.begun.items) outputs.old }
    requires text { IsText text.now }
    ensures status { IfOk result (λ status. status
        ≡ send_status found.now (states_of outputs.old)) }
    ensures ok { OnOk result (states_of outputs.new
        ≡ at_each found.now (serve unit part text.now) (states_of outputs.old)) }
    ensures err { OnErr result (states_of outputs.new ≡ states_of outputs.old) }
{
    let whole = whole_message(alloc, part, text)?;
    let sent_part = SentPart { part, text, whole };
    let named = Named::new(found);
    make_room(outputs, &named, unit, &sent_part)?;
    let status = send_status(outputs, found);
    serve(outputs, &named, unit, &sent_part);
    Ok(status)
}

/// Enables or disables each destination that is named. If memory runs out, nothing changes.
pub fn switch(outputs: &mut [Output], found: &[Option<usize>], on: bool) -> Result<(), AllocError>
    ensures ok { OnOk result (states_of outputs.new
        ≡ at_each found.now (switch on) (states_of outputs.old)) }
    ensures err { OnErr result (states_of outputs.new ≡ states_of outputs.old) }
{
    if on {
        make_room_to_transmit(outputs, found)?;
    }
    switch_each(outputs, found, on);
    Ok(())
}

/// Drops what a unit has begun, at each destination.
pub fn drop_unit(outputs: &mut [Output], unit: u32)
    requires { All (λ output. unit < length output.begun.items) outputs.old }
    ensures { states_of outputs.new ≡ drop_unit unit (states_of outputs.old) }
{
    for output in outputs.iter_mut() {
        output.drop_unit(unit);
    }
}

/// Makes room at each destination that is named for what a part of a unit makes of its text.
fn make_room(
    outputs: &mut [Output],
    named: &Named<'_>,
    unit: u32,
    sent_part: &SentPart<'_>,
) -> Result<(), AllocError>
    requires units { All (λ output. unit < length output.begun.items) outputs.old }
    requires part { IsSentPart sent_part.now }
    ensures states { states_of outputs.new ≡ states_of outputs.old }
    ensures room { OnOk result (EachNamed named.now
        (HasRoom unit sent_part.now.part sent_part.now.text.now) (length outputs.new) outputs.new) }
{
    for (at, output) in outputs.iter_mut().enumerate() {
        if named.has(at) {
            output.room(unit, sent_part)?;
        }
    }
    Ok(())
}

/// Makes room to transmit all that is queued for the destinations that are named.
fn make_room_to_transmit(outputs: &mut [Output], found: &[Option<usize>]) -> Result<(), AllocError>
    ensures states { states_of outputs.new ≡ states_of outputs.old }
    ensures room { OnOk result
        (EachNamed found.now CanTransmit (length outputs.new) outputs.new) }
{
    for (at, output) in outputs.iter_mut().enumerate() {
        if is_among(found, at) {
            output.room_to_transmit()?;
        }
    }
    Ok(())
}

/// Serves each destination that is named, once.
fn serve(outputs: &mut [Output], named: &Named<'_>, unit: u32, sent_part: &SentPart<'_>)
    requires part { IsSentPart sent_part.now }
    requires room { EachNamed named.now
        (HasRoom unit sent_part.now.part sent_part.now.text.now) (length outputs.old) outputs.old }
    ensures { states_of outputs.new
        ≡ at_each named.now (serve unit sent_part.now.part sent_part.now.text.now)
        (states_of outputs.old) }
{
    for (at, output) in outputs.iter_mut().enumerate() {
        if named.has(at) {
            output.serve(unit, sent_part);
        }
    }
}

/// Enables or disables each destination that is named.
fn switch_each(outputs: &mut [Output], found: &[Option<usize>], on: bool)
    requires { IsTrue on → EachNamed found.now CanTransmit (length outputs.old) outputs.old }
    ensures { states_of outputs.new ≡ at_each found.now (switch on) (states_of outputs.old) }
{
    for (at, output) in outputs.iter_mut().enumerate() {
        if is_among(found, at) {
            output.switch(on);
        }
    }
}

/// Returns the status key of a SEND that is served: 20 where a destination is unknown, otherwise 10
/// where a known one is disabled, otherwise 00.
fn send_status(outputs: &[Output], found: &[Option<usize>]) -> Status
    ensures { result ≡ send_status found.now (states_of outputs.now) }
{
    if has_unknown(found) {
        Status::S20
    } else if has_disabled(outputs, found) {
        Status::S10
    } else {
        Status::S00
    }
}

/// Returns whether a destination that is named is disabled.
fn has_disabled(outputs: &[Output], found: &[Option<usize>]) -> bool
    ensures { result ≡ has_disabled found.now (states_of outputs.now) }
{
    outputs
        .iter()
        .enumerate()
        .any(|(at, output)| !output.on && is_among(found, at))
}
