//! How a call waits.
ghost use Rattle.std.specs.Prelude.{◌≡◌, ◌<◌, true, IsTrue, is_some, OnOk, OnErr, MatchResult};
ghost use Rattle.com_events.specs.Calls.{IsWellFormed};
ghost use Rattle.com_events.specs.declared.reply.Reply.TheVariants as reply;
ghost use Rattle.com_state.specs.Steps.{step};
ghost use Rattle.com_shared.specs.Parties.{party_at};
ghost use Rattle.com_shared.specs.Passes.{IsPass, IsLater};
ghost use Rattle.com_shared.specs.inner.Turns.{IsAtTurn, HasSettled, HasGivenBack};
ghost use Rattle.com_shared.specs.inner.Waits.{Approaches, HasApproached, HasReached, HasNotMade, idle_call, IsAnsweredDone};

use crate::book::Book;
use crate::shared::{Pass, Shared};
use com_events::{Call, EndReason, StopReason};
use std::alloc::AllocError;
use std::sync::Wait;

/// What one look comes to.
pub(crate) enum Approach {
    /// The call is allowed, and the turn is the pass's.
    Allowed(Book),
    /// The party stopped or ended, since nothing can happen any more.
    Idle,
    /// Nobody is active.
    RoundOver,
    /// The party waits until the bell is no longer at this number.
    Rests(u64),
}

/// What looking again and again comes to.
pub(crate) enum Reached {
    /// The call is allowed, and the turn is the pass's.
    Allowed(Book),
    /// The party stopped or ended, since nothing can happen any more.
    Idle,
    /// Nobody is active.
    RoundOver,
}

/// The call by which a party that waits with another stops or ends in an idle system.
fn idle_call(call: &Call) -> Call
    ensures call { result ≡ idle_call call.now }
    ensures well_formed { IsWellFormed result }
    ensures done { IsAnsweredDone result }
{
    match call {
        Call::Arrive { .. } => Call::Finish {
            reason: EndReason::Idle,
        },
        Call::Start
        | Call::Receive { .. }
        | Call::Count { .. }
        | Call::Send { .. }
        | Call::SwitchInput { .. }
        | Call::SwitchOutput { .. }
        | Call::Held
        | Call::Stop { .. }
        | Call::Finish { .. } => Call::Stop {
            reason: StopReason::Idle,
        },
    }
}

impl Shared {
    /// Makes the entry of a call that is answered DONE, and gives the turn back.
    pub(crate) fn settle_done(
        &self,
        pass: &mut Pass,
        book: Book,
        call: Call,
        active: bool,
    ) -> Result<(), AllocError>
        requires turn { IsAtTurn self.now pass.old book }
        requires allowed { IsTrue (is_some (step book.state (party_at book.net pass.old.number)
            call)) }
        requires call { IsWellFormed call }
        requires done { IsAnsweredDone call }
        requires was { pass.old.active ≡ true → active ≡ true }
        ensures pass { IsPass self.now pass.new }
        ensures settled { OnOk result
            (HasSettled book pass.old call active reply.Done pass.new) }
        ensures err { OnErr result (HasGivenBack pass.old active pass.new) }
    {
        match self.settle(pass, book, call, active) {
            Ok(_) => Ok(()),
            Err((_, error)) => Err(error),
        }
    }

    /// Looks once, in a turn: whether the call is allowed; whether the system is idle; whether nobody
    /// is active.
    fn approach<R: Wait>(
        &self,
        rt: &R,
        pass: &mut Pass,
        call: &Call,
        active: bool,
    ) -> Result<Approach, AllocError>
        requires pass { IsPass self.now pass.old }
        requires approaches { Approaches self.now.net call.now pass.old }
        requires was { pass.old.active ≡ true → active ≡ true }
        ensures later { IsLater pass.old pass.new }
        ensures turns { pass.old.turns < pass.new.turns }
        ensures approached { MatchResult result
            (λ a. HasApproached self.now active call.now pass.old a pass.new)
            (λ _. HasNotMade self.now active pass.old pass.new) }
    {
        let book = self.begin(rt, pass);
        if book.may(pass.number(), call) {
            return Ok(Approach::Allowed(book));
        }
        if book.idle() {
            self.settle_done(pass, book, idle_call(call), active)?;
            return Ok(Approach::Idle);
        }
        match self.rest(pass, book) {
            None => Ok(Approach::RoundOver),
            Some(rung) => Ok(Approach::Rests(rung)),
        }
    }

    /// Looks until the call is allowed. A party that waits meanwhile is inactive.
    #[tactic(auto, using(crate::proofs::Waiting::adding_up))]
    pub(crate) fn reach<R: Wait>(
        &self,
        rt: &R,
        pass: &mut Pass,
        call: &Call,
        active: bool,
    ) -> Result<Reached, AllocError>
        requires pass { IsPass self.now pass.old }
        requires approaches { Approaches self.now.net call.now pass.old }
        requires was { pass.old.active ≡ true → active ≡ true }
        ensures later { IsLater pass.old pass.new }
        ensures turns { pass.old.turns < pass.new.turns }
        ensures reached { MatchResult result
            (λ r. HasReached self.now active call.now pass.old r pass.new)
            (λ _. HasNotMade self.now active pass.old pass.new) }
    {
        for _ in rt.forever() {
            match self.approach(rt, pass, call, active) {
                Ok(Approach::Allowed(book)) => return Ok(Reached::Allowed(book)),
                Ok(Approach::Idle) => return Ok(Reached::Idle),
                Ok(Approach::RoundOver) => return Ok(Reached::RoundOver),
                Ok(Approach::Rests(rung)) => self.park(rt, rung),
                Err(error) => return Err(error),
            }
        }
        unreachable!()
    }
}
