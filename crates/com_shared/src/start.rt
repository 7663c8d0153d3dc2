//! START, which may wait.
ghost use Rattle.std.specs.Prelude.{◌≡◌, ◌<◌, OnOk, IfOk, OnErr};
ghost use Rattle.com_events.specs.Calls.{IsReplyTo};
ghost use Rattle.com_events.specs.declared.call.Call.TheVariants as made;
ghost use Rattle.com_shared.specs.Passes.{IsPass, IsLater, own};
ghost use Rattle.com_shared.specs.Waits.{MayStart, HasStarted};
ghost use Rattle.com_shared.specs.inner.Starting.{started_in};

use crate::shared::{Pass, Shared};
use crate::waits::Reached;
use com_cd::NAMES_LENGTH;
use com_events::{Call, Reply};
use std::alloc::AllocError;
use std::sync::Wait;

/// What START comes to.
#[derive(Clone, Copy, Debug)]
pub enum Started {
    /// The unit runs.
    Plain,
    /// The unit runs, and its schedule hands over the four names of a queue.
    Named([u8; NAMES_LENGTH]),
    /// The unit stopped, since nothing can happen any more.
    Idle,
    /// No message has come for the unit, and nobody is active.
    RoundOver,
}

/// What the reply to START says.
fn started_in(given: &Reply) -> Started
    requires { IsReplyTo made.Start given.now }
    ensures { result ≡ started_in given.now }
{
    match given {
        Reply::Started { names: Some(names) } => Started::Named(*names),
        Reply::Started { names: None } => Started::Plain,
        _ => unreachable!(),
    }
}

impl Shared {
    /// The unit begins, if it has a schedule as soon as a message waits there.
    pub fn start<R: Wait>(&self, rt: &R, pass: &mut Pass) -> Result<Started, AllocError>
        requires pass { IsPass self.now pass.old }
        requires may { MayStart self.now.net pass.old }
        ensures pass { IsPass self.now pass.new }
        ensures later { IsLater pass.old pass.new }
        ensures turns { OnOk result (pass.old.turns < pass.new.turns) }
        ensures started { IfOk result
            (λ started. HasStarted self.now.net pass.old started pass.new) }
        ensures err { OnErr result ((own pass.new ≡ own pass.old)
            × (pass.new.active ≡ pass.old.active)) }
    {
        let active = pass.is_active();
        let book = match self.reach(rt, pass, &Call::Start, active) {
            Ok(Reached::Allowed(book)) => book,
            Ok(Reached::Idle) => return Ok(Started::Idle),
            Ok(Reached::RoundOver) => return Ok(Started::RoundOver),
            Err(error) => return Err(error),
        };
        match self.settle(pass, book, Call::Start, active) {
            Ok(given) => Ok(started_in(&given)),
            Err((_, error)) => Err(error),
        }
    }
}
