//! The ends of a party, which wait for nothing but the turn.
ghost use Rattle.std.specs.Prelude.{◌≡◌, ◌≢◌, ◌<◌, ◌≤◌, length, OnOk, OnErr, IfOk};
ghost use Rattle.com_events.specs.Calls.{IsWellFormed, IsReplyTo, IsEndReason};
ghost use Rattle.com_events.specs.declared.call.Call.TheVariants as made;
ghost use Rattle.com_events.specs.declared.call.StopReason.TheVariants as stop;
ghost use Rattle.com_events.specs.declared.call.EndReason.TheVariants as finish;
ghost use Rattle.com_events.specs.declared.reply.Reply.TheVariants as reply;
ghost use Rattle.com_shared.specs.Passes.{IsPass, IsLater, IsMade, MayStop, MayEnd, own};
ghost use Rattle.com_shared.specs.inner.Plain.{IsFree};

use crate::shared::{Pass, Shared};
use com_events::{Call, EndReason, Reply, StopReason};
use std::alloc::AllocError;
use std::sync::Wait;

impl Shared {
    /// Makes, in a turn, a call that the party's own entries allow. Without memory the call comes
    /// back.
    #[tactic(auto, using(crate::proofs::Making::turning))]
    pub(crate) fn act<R: Wait>(
        &self,
        rt: &R,
        pass: &mut Pass,
        call: Call,
    ) -> Result<Reply, (Call, AllocError)>
        requires pass { IsPass self.now pass.old }
        requires free { IsFree self.now.net call pass.old }
        requires call { IsWellFormed call }
        ensures pass { IsPass self.now pass.new }
        ensures later { IsLater pass.old pass.new }
        ensures turns { pass.old.turns < pass.new.turns }
        ensures active { pass.new.active ≡ pass.old.active }
        ensures made { IfOk result (λ reply. IsMade self.now.net call reply pass.old pass.new) }
        ensures reply { IfOk result (IsReplyTo call) }
        ensures err { OnErr result (own pass.new ≡ own pass.old) }
    {
        let active = pass.is_active();
        let book = self.begin(rt, pass);
        // Two arms, since each answer has facts of its own.
        match self.settle(pass, book, call, active) {
            Ok(reply) => Ok(reply),
            Err(refused) => Err(refused),
        }
    }

    /// The unit stops.
    pub fn stop<R: Wait>(
        &self,
        rt: &R,
        pass: &mut Pass,
        reason: StopReason,
    ) -> Result<(), AllocError>
        requires pass { IsPass self.now pass.old }
        requires may { MayStop self.now.net pass.old }
        requires reason { reason ≢ stop.Idle }
        ensures pass { IsPass self.now pass.new }
        ensures later { IsLater pass.old pass.new }
        ensures active { pass.new.active ≡ pass.old.active }
        ensures turns { OnOk result (pass.old.turns < pass.new.turns) }
        ensures made { OnOk result (IsMade self.now.net (made.Stop reason) reply.Done pass.old
            pass.new) }
        ensures err { OnErr result (own pass.new ≡ own pass.old) }
    {
        match self.act(rt, pass, Call::Stop { reason }) {
            Ok(Reply::Done) => Ok(()),
            Ok(_) => unreachable!(),
            Err((_, error)) => Err(error),
        }
    }

    /// The terminal ends.
    pub fn end<R: Wait>(&self, rt: &R, pass: &mut Pass, reason: EndReason) -> Result<(), AllocError>
        requires pass { IsPass self.now pass.old }
        requires may { MayEnd self.now.net pass.old }
        requires reason { reason ≢ finish.Idle }
        requires place { IsEndReason reason }
        ensures pass { IsPass self.now pass.new }
        ensures later { IsLater pass.old pass.new }
        ensures active { pass.new.active ≡ pass.old.active }
        ensures turns { OnOk result (pass.old.turns < pass.new.turns) }
        ensures made { OnOk result (IsMade self.now.net (made.Finish reason) reply.Done pass.old
            pass.new) }
        ensures err { OnErr result (own pass.new ≡ own pass.old) }
    {
        match self.act(rt, pass, Call::Finish { reason }) {
            Ok(Reply::Done) => Ok(()),
            Ok(_) => unreachable!(),
            Err((_, error)) => Err(error),
        }
    }
}
