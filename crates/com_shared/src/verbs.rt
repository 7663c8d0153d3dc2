//! Verbs that wait for nothing but the turn.
ghost use Rattle.std.specs.Prelude.{◌≡◌, ◌<◌, true, OnOk, OnErr, IfOk, IfSome, option_copied};
ghost use Rattle.com_events.specs.Calls.{IsWellFormed, IsReplyTo, IsPart, IsItem, IsKey};
ghost use Rattle.com_events.specs.declared.call.Call.TheVariants as made;
ghost use Rattle.com_events.specs.declared.reply.Reply.TheVariants as reply;
ghost use Rattle.com_shared.specs.Passes.{IsPass, IsLater, IsMade, MayDoVerb, own};
ghost use Rattle.com_shared.specs.inner.Plain.{has_input, has_output};

use crate::shared::{Pass, Shared};
use com_cd::{InArea, OutArea};
use com_events::{Call, Reply};
use com_msg::Part;
use com_text::Text;
use std::alloc::AllocError;
use std::sync::Wait;

/// ACCEPT MESSAGE COUNT as a call.
fn count_call(area: &InArea) -> Call
    ensures call { result ≡ made.Count area.now }
    ensures well_formed { IsWellFormed result }
{
    let _ = area.as_bytes();
    Call::Count { area: *area }
}

/// SEND as a call, with a copy of what is sent.
fn send_call(area: &OutArea, part: Part, from: Option<&Text>) -> Result<Call, AllocError>
    requires part { IsPart part }
    requires item { IfSome (option_copied from) IsItem }
    ensures call { IfOk result (λ call. call
        ≡ made.Send area.now part (option_copied from.entry)) }
    ensures well_formed { IfOk result IsWellFormed }
{
    let _ = area.as_bytes();
    let from = match from {
        Some(text) => Some(text.copy()?),
        None => None,
    };
    Ok(Call::Send {
        area: *area,
        part,
        from,
    })
}

/// ENABLE and DISABLE INPUT as a call, with a copy of the key.
fn switch_input_call(
    on: bool,
    terminal: bool,
    area: &InArea,
    key: &Text,
) -> Result<Call, AllocError>
    requires { IsKey key.now }
    ensures call { IfOk result (λ call. call ≡ made.SwitchInput on terminal area.now key.now) }
    ensures well_formed { IfOk result IsWellFormed }
{
    let _ = area.as_bytes();
    Ok(Call::SwitchInput {
        on,
        terminal,
        area: *area,
        key: key.copy()?,
    })
}

/// ENABLE and DISABLE OUTPUT as a call, with a copy of the key.
fn switch_output_call(on: bool, area: &OutArea, key: &Text) -> Result<Call, AllocError>
    requires { IsKey key.now }
    ensures call { IfOk result (λ call. call ≡ made.SwitchOutput on area.now key.now) }
    ensures well_formed { IfOk result IsWellFormed }
{
    let _ = area.as_bytes();
    Ok(Call::SwitchOutput {
        on,
        area: *area,
        key: key.copy()?,
    })
}

// The prover takes no area out of a reply that is moved apart, so these two read a reply that is lent.

/// The input area of a reply that is one.
fn input_area(given: &Reply) -> InArea
    requires { has_input given.now ≡ true }
    ensures { given.now ≡ reply.AreaIn result }
{
    match given {
        Reply::AreaIn { area } => *area,
        _ => unreachable!(),
    }
}

/// The output area of a reply that is one.
fn output_area(given: &Reply) -> OutArea
    requires { has_output given.now ≡ true }
    ensures { given.now ≡ reply.AreaOut result }
{
    match given {
        Reply::AreaOut { area } => *area,
        _ => unreachable!(),
    }
}

impl Shared {
    /// ACCEPT MESSAGE COUNT.
    pub fn count<R: Wait>(
        &self,
        rt: &R,
        pass: &mut Pass,
        area: &mut InArea,
    ) -> Result<(), AllocError>
        requires pass { IsPass self.now pass.old }
        requires may { MayDoVerb self.now.net pass.old }
        ensures pass { IsPass self.now pass.new }
        ensures later { IsLater pass.old pass.new }
        ensures active { pass.new.active ≡ pass.old.active }
        ensures turns { OnOk result (pass.old.turns < pass.new.turns) }
        ensures made { OnOk result (IsMade self.now.net (made.Count area.old)
            (reply.AreaIn area.new) pass.old pass.new) }
        ensures err { OnErr result ((own pass.new ≡ own pass.old) × (area.new ≡ area.old)) }
    {
        match self.act(rt, pass, count_call(area)) {
            Ok(given) => {
                *area = input_area(&given);
                Ok(())
            }
            Err((_, error)) => Err(error),
        }
    }

    /// SEND of the characters `from`, or of an indicator alone.
    pub fn send<R: Wait>(
        &self,
        rt: &R,
        pass: &mut Pass,
        area: &mut OutArea,
        part: Part,
        from: Option<&Text>,
    ) -> Result<(), AllocError>
        requires pass { IsPass self.now pass.old }
        requires may { MayDoVerb self.now.net pass.old }
        requires part { IsPart part }
        requires item { IfSome (option_copied from) IsItem }
        ensures pass { IsPass self.now pass.new }
        ensures later { IsLater pass.old pass.new }
        ensures active { pass.new.active ≡ pass.old.active }
        ensures turns { OnOk result (pass.old.turns < pass.new.turns) }
        ensures made { OnOk result (IsMade self.now.net
            (made.Send area.old part (option_copied from.entry)) (reply.AreaOut area.new)
            pass.old pass.new) }
        ensures err { OnErr result ((own pass.new ≡ own pass.old) × (area.new ≡ area.old)) }
    {
        let call = send_call(area, part, from)?;
        match self.act(rt, pass, call) {
            Ok(given) => {
                *area = output_area(&given);
                Ok(())
            }
            Err((_, error)) => Err(error),
        }
    }

    /// ENABLE (`on`) or DISABLE of INPUT, or of INPUT TERMINAL (`terminal`).
    pub fn switch_input<R: Wait>(
        &self,
        rt: &R,
        pass: &mut Pass,
        on: bool,
        terminal: bool,
        area: &mut InArea,
        key: &Text,
    ) -> Result<(), AllocError>
        requires pass { IsPass self.now pass.old }
        requires may { MayDoVerb self.now.net pass.old }
        requires key { IsKey key.now }
        ensures pass { IsPass self.now pass.new }
        ensures later { IsLater pass.old pass.new }
        ensures active { pass.new.active ≡ pass.old.active }
        ensures turns { OnOk result (pass.old.turns < pass.new.turns) }
        ensures made { OnOk result (IsMade self.now.net
            (made.SwitchInput on terminal area.old key.now) (reply.AreaIn area.new)
            pass.old pass.new) }
        ensures err { OnErr result ((own pass.new ≡ own pass.old) × (area.new ≡ area.old)) }
    {
        let call = switch_input_call(on, terminal, area, key)?;
        match self.act(rt, pass, call) {
            Ok(given) => {
                *area = input_area(&given);
                Ok(())
            }
            Err((_, error)) => Err(error),
        }
    }

    /// ENABLE (`on`) or DISABLE of OUTPUT.
    pub fn switch_output<R: Wait>(
        &self,
        rt: &R,
        pass: &mut Pass,
        on: bool,
        area: &mut OutArea,
        key: &Text,
    ) -> Result<(), AllocError>
        requires pass { IsPass self.now pass.old }
        requires may { MayDoVerb self.now.net pass.old }
        requires key { IsKey key.now }
        ensures pass { IsPass self.now pass.new }
        ensures later { IsLater pass.old pass.new }
        ensures active { pass.new.active ≡ pass.old.active }
        ensures turns { OnOk result (pass.old.turns < pass.new.turns) }
        ensures made { OnOk result (IsMade self.now.net (made.SwitchOutput on area.old key.now)
            (reply.AreaOut area.new) pass.old pass.new) }
        ensures err { OnErr result ((own pass.new ≡ own pass.old) × (area.new ≡ area.old)) }
    {
        let call = switch_output_call(on, area, key)?;
        match self.act(rt, pass, call) {
            Ok(given) => {
                *area = output_area(&given);
                Ok(())
            }
            Err((_, error)) => Err(error),
        }
    }
}
