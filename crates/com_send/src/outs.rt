//! The destinations that units send to: SEND, ENABLE OUTPUT and DISABLE OUTPUT.
ghost use Rattle.std.specs.Prelude.{◌≡◌, ◌<◌, length, Some, IfSome, IfOk, OnOk, OnErr, All};
ghost use Rattle.std.specs.List.{list_all};
ghost use Rattle.std.specs.Option.{option_copied};
ghost use Rattle.com_msg.specs.Rendering.{IsAdvance, IsRenderable};
ghost use Rattle.com_send.specs.Outgoing.{opening, drop_unit, transmitted_to};
ghost use Rattle.com_send.specs.Sending.{send, advance_of, is_nothing};
ghost use Rattle.com_send.specs.Switching.{switch_output, is_key_of_each, switch_status};

use crate::areas::{find_destinations, has_unknown, is_among, sent_text, write_keys, write_status};
use crate::destination::{Destination, is_key};
use crate::output::Output;
use crate::outputs::{drop_unit, outputs_of, send_to, switch};
use com_cd::{OutArea, Status};
use com_msg::{OutMessage, Part};
use com_text::{Rows, Text};
use std::alloc::{AllocError, Global};
use std::marker::Model;

/// Destinations, and what units have begun to send to them, what is queued for them, and what was
/// transmitted. Contracts see the destinations, how many units there are, and what is outgoing,
/// destination by destination.
#[derive(Debug, Drop)]
pub struct Outs {
    destinations: Rows<Destination>,
    units: u32,
    outputs: Vec<Output>,
}

impl Model for Outs {
    ghost use Rattle.com_send.specs.Outgoing.{Outputs, AreFor};

    ghost Value = { Outputs };

    ghost use Rattle.com_send.specs.Kept.{states_of};

    ghost view = { λ outs. record {
      destinations = outs.destinations;
      units = outs.units;
      outgoing = states_of outs.outputs.items;
    } };

    ghost invariant = { λ outs. AreFor outs.destinations outs.units (states_of outs.outputs.items) };
}

impl Outs {
    /// Returns the outputs of these destinations, to which `units` units have sent nothing.
    pub fn new(
        alloc: Global,
        destinations: Rows<Destination>,
        units: u32,
    ) -> Result<Outs, AllocError>
        ensures { IfOk result (λ outs. outs ≡ record {
          destinations = destinations;
          units = units;
          outgoing = opening destinations units;
        }) }
    {
        let outputs = outputs_of(alloc, destinations.as_slice(), units)?;
        Ok(Outs {
            destinations,
            units,
            outputs,
        })
    }

    /// Returns the destinations, in their order.
    pub fn destinations(&self) -> &[Destination]
        ensures { result.now ≡ self.now.destinations }
    {
        self.destinations.as_slice()
    }

    /// Returns how many units there are.
    pub fn units(&self) -> u32
        ensures { result ≡ self.now.units }
    {
        self.units
    }

    /// SEND of a unit: the leftmost TEXT LENGTH characters of an item, or none without an item, are
    /// added to what the unit has begun at each known destination of the area, and the part ends
    /// the segment and the message. The area says what became of it. If memory runs out, nothing
    /// changes.
    pub fn send(
        &mut self,
        unit: u32,
        area: &mut OutArea,
        part: Part,
        item: Option<&Text>,
    ) -> Result<(), AllocError>
        requires unit { unit < self.old.units }
        requires advance { IfSome (advance_of part) IsAdvance }
        ensures sent { OnOk result ((area.new, self.new.outgoing)
            ≡ send self.old.destinations self.old.outgoing unit area.old part
            (option_copied item.entry)) }

        // What stays, and that nothing changes if memory runs out.
        ensures destinations { self.new.destinations ≡ self.old.destinations }
        ensures units { self.new.units ≡ self.old.units }
        ensures err { OnErr result (self.new ≡ self.old) }
        ensures area_err { OnErr result (area.new ≡ area.old) }
    {
        let Some(found) = find_destinations(self.destinations.as_slice(), area) else {
            write_status(area, Status::S30);
            return Ok(());
        };
        let Some(text) = sent_text(area, item) else {
            write_status(area, Status::S50);
            return Ok(());
        };
        if is_nothing(part, text) {
            write_status(area, Status::S60);
            return Ok(());
        }
        let alloc = self.destinations.allocator();
        let status = send_to(alloc, &mut self.outputs, &found, unit, part, text)?;
        write_keys(area, &found, status);
        Ok(())
    }

    /// ENABLE OUTPUT and DISABLE OUTPUT, where the key is the password of each known destination of
    /// the area: it is enabled, and what is queued for it is transmitted, or it is disabled. The
    /// area tells what became of it. If memory runs out, nothing changes.
    pub fn switch(&mut self, on: bool, area: &mut OutArea, key: &Text) -> Result<(), AllocError>
        ensures switched { OnOk result ((area.new, self.new.outgoing)
            ≡ switch_output self.old.destinations self.old.outgoing on area.old key.now) }

        // What stays, and that nothing changes if memory runs out.
        ensures destinations { self.new.destinations ≡ self.old.destinations }
        ensures units { self.new.units ≡ self.old.units }
        ensures err { OnErr result (self.new ≡ self.old) }
        ensures area_err { OnErr result (area.new ≡ area.old) }
    {
        let Some(found) = find_destinations(self.destinations.as_slice(), area) else {
            write_status(area, Status::S30);
            return Ok(());
        };
        if !is_key_of_each(self.destinations.as_slice(), &found, key) {
            write_status(area, Status::S40);
            return Ok(());
        }
        switch(&mut self.outputs, &found, on)?;
        write_keys(area, &found, switch_status(&found));
        Ok(())
    }

    /// Drops what a unit has begun to send.
    pub fn drop_unit(&mut self, unit: u32)
        requires { unit < self.old.units }
        ensures { self.new ≡ record self.old { outgoing = drop_unit unit self.old.outgoing } }
    {
        drop_unit(&mut self.outputs, unit);
    }

    /// Returns the messages that were transmitted to a destination, in order.
    pub fn transmitted(&self, destination: u32) -> &[OutMessage]
        requires { destination < length self.now.destinations }
        ensures transmitted { transmitted_to self.now.outgoing destination ≡ Some result.now }
        ensures renderable { All IsRenderable result.now }
    {
        self.outputs[destination as usize].sent.as_slice()
    }
}

/// Returns whether a part is a portion without characters.
fn is_nothing(part: Part, text: &[u8]) -> bool
    ensures { result ≡ is_nothing part text.now }
{
    part == Part::Portion && text.is_empty()
}

/// Returns whether a key is the password of each destination that is named.
fn is_key_of_each(destinations: &[Destination], found: &[Option<usize>], key: &Text) -> bool
    ensures { result ≡ is_key_of_each found.now key.now destinations.now }
{
    destinations.iter().enumerate().all(|(at, destination)| !is_among(found, at)
        || is_key(key, &destination.password))
}

/// Returns the status key of an ENABLE or DISABLE OUTPUT whose key is right: 20 where a destination
/// is unknown, otherwise 00.
fn switch_status(found: &[Option<usize>]) -> Status
    ensures { result ≡ switch_status found.now }
{
    if has_unknown(found) {
        Status::S20
    } else {
        Status::S00
    }
}
