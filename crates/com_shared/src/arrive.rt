//! ARRIVE, which may wait.
ghost use Rattle.std.specs.Prelude.{◌≡◌, ◌<◌, true, OnOk, MatchResult};
ghost use Rattle.com_events.specs.Calls.{IsWellFormed, IsTerminalMessage};
ghost use Rattle.com_events.specs.declared.call.Call.TheVariants as made;
ghost use Rattle.com_events.specs.declared.reply.Reply.TheVariants as reply;
ghost use Rattle.com_shared.specs.Passes.{IsPass, IsLater, own};
ghost use Rattle.com_shared.specs.Waits.{MayArrive, HasArrived, HasNotArrived};
ghost use Rattle.com_shared.specs.inner.Arriving.{HasHeld, HasComeTo, HasNotCome, IsArrival, message_in, is_arrived};

use crate::book::Book;
use crate::shared::{Pass, Shared};
use crate::waits::Reached;
use com_events::{Call, Reply};
use com_msg::{RawMessage, Stamp};
use std::alloc::AllocError;
use std::sync::Wait;

/// What ARRIVE comes to.
#[derive(Debug, Drop)]
pub enum Arrived {
    /// The number of the message among all arrivals, from 1.
    Done(u64),
    /// The terminal ended, since nothing can happen any more.
    Idle,
    /// The path is closed, and nobody is active. The message comes back.
    RoundOver(RawMessage),
}

/// ARRIVE as a call.
fn arrive_call(stamp: Stamp, message: RawMessage) -> Call
    requires { IsTerminalMessage message }
    ensures call { result ≡ made.Arrive stamp message }
    ensures well_formed { IsWellFormed result }
{
    let _ = stamp.date();
    Call::Arrive { stamp, message }
}

/// The message of an ARRIVE.
fn message_of(call: Call) -> RawMessage
    requires { IsArrival call }
    ensures { result ≡ message_in call }
{
    match call {
        Call::Arrive { message, .. } => message,
        _ => unreachable!(),
    }
}

/// The number of an arrival.
fn number_in(given: &Reply) -> u64
    requires { is_arrived given.now ≡ true }
    ensures { given.now ≡ reply.Arrived result }
{
    match given {
        Reply::Arrived { number } => *number,
        _ => unreachable!(),
    }
}

impl Shared {
    /// One turn. Some: the path is open. None: the terminal holds its message, by a HELD that this
    /// turn made or an earlier one.
    fn hold<R: Wait>(
        &self,
        rt: &R,
        pass: &mut Pass,
        call: &Call,
        active: bool,
    ) -> Result<Option<Book>, AllocError>
        requires pass { IsPass self.now pass.old }
        requires may { MayArrive self.now.net pass.old }
        requires arrival { IsArrival call.now }
        requires was { pass.old.active ≡ true → active ≡ true }
        ensures later { IsLater pass.old pass.new }
        ensures turns { pass.old.turns < pass.new.turns }
        ensures holds { MatchResult result
            (λ held. HasHeld self.now active call.now pass.old held pass.new)
            (λ _. HasNotCome self.now active pass.old pass.new) }
    {
        let book = self.begin(rt, pass);
        if book.may(pass.number(), call) {
            return Ok(Some(book));
        }
        if book.may(pass.number(), &Call::Held) {
            self.settle_done(pass, book, Call::Held, active)?;
            return Ok(None);
        }
        self.finish(pass, book);
        Ok(None)
    }

    /// Waits until the path is open. A terminal that has to wait holds its message first.
    fn come_in<R: Wait>(
        &self,
        rt: &R,
        pass: &mut Pass,
        call: &Call,
        active: bool,
    ) -> Result<Reached, AllocError>
        requires pass { IsPass self.now pass.old }
        requires may { MayArrive self.now.net pass.old }
        requires arrival { IsArrival call.now }
        requires was { pass.old.active ≡ true → active ≡ true }
        ensures later { IsLater pass.old pass.new }
        ensures turns { pass.old.turns < pass.new.turns }
        ensures come { MatchResult result
            (λ reached. HasComeTo self.now active call.now pass.old reached pass.new)
            (λ _. HasNotCome self.now active pass.old pass.new) }
    {
        match self.hold(rt, pass, call, active) {
            Ok(Some(book)) => Ok(Reached::Allowed(book)),
            Ok(None) => self.reach(rt, pass, call, active),
            Err(error) => Err(error),
        }
    }

    /// A message arrives, as soon as its path is open. A wait that was not ended is taken up by the
    /// same call.
    pub fn arrive<R: Wait>(
        &self,
        rt: &R,
        pass: &mut Pass,
        stamp: Stamp,
        message: RawMessage,
    ) -> Result<Arrived, (RawMessage, AllocError)>
        requires pass { IsPass self.now pass.old }
        requires may { MayArrive self.now.net pass.old }
        requires message { IsTerminalMessage message }
        ensures pass { IsPass self.now pass.new }
        ensures later { IsLater pass.old pass.new }
        ensures turns { OnOk result (pass.old.turns < pass.new.turns) }
        ensures arrived { MatchResult result
            (λ arrived. HasArrived self.now.net stamp message pass.old arrived pass.new)
            (λ refused. HasNotArrived self.now.net message pass.old refused.0 pass.new) }
    {
        let active = pass.is_active();
        let call = arrive_call(stamp, message);
        let book = match self.come_in(rt, pass, &call, active) {
            Ok(Reached::Allowed(book)) => book,
            Ok(Reached::Idle) => return Ok(Arrived::Idle),
            Ok(Reached::RoundOver) => return Ok(Arrived::RoundOver(message_of(call))),
            Err(error) => return Err((message_of(call), error)),
        };
        match self.settle(pass, book, call, active) {
            Ok(given) => Ok(Arrived::Done(number_in(&given))),
            Err((call, error)) => Err((message_of(call), error)),
        }
    }
}
