//! RECEIVE, which may wait.
ghost use Rattle.std.specs.Prelude.{◌≡◌, ◌<◌, ◌≤◌, true, OnOk, MatchResult};
ghost use Rattle.com_events.specs.Calls.{IsWellFormed};
ghost use Rattle.com_events.specs.declared.call.Call.TheVariants as made;
ghost use Rattle.com_msg.specs.declared.rest.TheConstants.{MAX_SIZE};
ghost use Rattle.com_shared.specs.Passes.{IsPass, IsLater, own};
ghost use Rattle.com_shared.specs.Waits.{MayReceive, HasReceived, HasNotReceived};
ghost use Rattle.com_shared.specs.inner.Receiving.{HasLooked, HasNotLooked, area_left, received_in};

use crate::shared::{Pass, Shared};
use crate::waits::Reached;
use com_cd::InArea;
use com_events::{Call, Reply};
use com_msg::Kind;
use com_text::Text;
use std::alloc::AllocError;
use std::sync::Wait;

/// What RECEIVE comes to. The area tells the rest.
#[derive(Debug, Drop)]
pub enum Received {
    Given(Text),
    /// There is nothing to receive, and NO DATA is written.
    NoData,
    /// The area designates no queue.
    Refused,
    /// The unit stopped, since nothing can happen any more.
    Idle,
    /// Nothing has come for the unit, and nobody is active.
    RoundOver,
}

/// RECEIVE as a call.
fn receive_call(area: &InArea, kind: Kind, size: u32, no_data: bool) -> Call
    requires size { (1 ≤ size) × (size ≤ MAX_SIZE) }
    ensures call { result ≡ made.Receive area.now kind size no_data }
    ensures well_formed { IsWellFormed result }
{
    let _ = area.as_bytes();
    Call::Receive {
        area: *area,
        kind,
        size,
        no_data,
    }
}

/// The area that a reply leaves: its own, or the one that was there.
fn area_left(given: &Reply, area: &InArea) -> InArea
    ensures { result ≡ area_left given.now area.now }
{
    match given {
        Reply::Given { area, .. } | Reply::NoData { area } | Reply::Refused { area } => *area,
        _ => *area,
    }
}

/// What the reply to a RECEIVE says besides. None: the unit waits from now on.
fn received_in(given: Reply) -> Option<Received>
    ensures { result ≡ received_in given }
{
    match given {
        Reply::Given { text, .. } => Some(Received::Given(text)),
        Reply::NoData { .. } => Some(Received::NoData),
        Reply::Refused { .. } => Some(Received::Refused),
        _ => None,
    }
}

impl Shared {
    /// Receives where that is possible. None: the unit waits from now on.
    fn look<R: Wait>(
        &self,
        rt: &R,
        pass: &mut Pass,
        area: &mut InArea,
        kind: Kind,
        size: u32,
        no_data: bool,
        active: bool,
    ) -> Result<Option<Received>, AllocError>
        requires pass { IsPass self.now pass.old }
        requires may { MayReceive self.now.net area.old kind size no_data pass.old }
        requires size { (1 ≤ size) × (size ≤ MAX_SIZE) }
        requires was { pass.old.active ≡ true → active ≡ true }
        ensures pass { IsPass self.now pass.new }
        ensures later { IsLater pass.old pass.new }
        ensures turns { pass.old.turns < pass.new.turns }
        ensures looked { MatchResult result
            (λ found. HasLooked self.now.net active area.old kind size no_data pass.old found
            area.new pass.new)
            (λ _. HasNotLooked active area.old pass.old area.new pass.new) }
    {
        let call = receive_call(area, kind, size, no_data);
        let book = match self.reach(rt, pass, &call, active) {
            Ok(Reached::Allowed(book)) => book,
            Ok(Reached::Idle) => return Ok(Some(Received::Idle)),
            Ok(Reached::RoundOver) => return Ok(Some(Received::RoundOver)),
            Err(error) => return Err(error),
        };
        match self.settle(pass, book, call, active) {
            Ok(given) => {
                *area = area_left(&given, area);
                Ok(received_in(given))
            }
            Err((_, error)) => Err(error),
        }
    }

    /// Receives a portion. Without NO DATA it waits until there is one. A wait that was not ended is
    /// taken up by the same call.
    pub fn receive<R: Wait>(
        &self,
        rt: &R,
        pass: &mut Pass,
        area: &mut InArea,
        kind: Kind,
        size: u32,
        no_data: bool,
    ) -> Result<Received, AllocError>
        requires pass { IsPass self.now pass.old }
        requires may { MayReceive self.now.net area.old kind size no_data pass.old }
        requires size { (1 ≤ size) × (size ≤ MAX_SIZE) }
        ensures pass { IsPass self.now pass.new }
        ensures later { IsLater pass.old pass.new }
        ensures turns { OnOk result (pass.old.turns < pass.new.turns) }
        ensures received { MatchResult result
            (λ received. HasReceived self.now.net area.old kind size no_data pass.old received
            area.new pass.new)
            (λ _. HasNotReceived self.now.net area.old kind size pass.old area.new pass.new) }
    {
        let active = pass.is_active();
        match self.look(rt, pass, area, kind, size, no_data, active) {
            Ok(Some(received)) => return Ok(received),
            Ok(None) => {}
            Err(error) => return Err(error),
        }
        match self.look(rt, pass, area, kind, size, no_data, active) {
            Ok(Some(received)) => Ok(received),
            Ok(None) => unreachable!(),
            Err(error) => Err(error),
        }
    }
}
