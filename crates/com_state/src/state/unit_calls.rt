//! The calls of units.
ghost use Rattle.std.specs.Prelude.{
  ◌≡◌,
  ◌<◌,
  ◌≤◌,
  length,
  Some,
  is_some,
  option_map,
  option_and_then,
  IsTrue,
  IfOk,
  IfSome,
  OnErr,
};
ghost use Rattle.std.specs.Option.{option_copied};
ghost use Rattle.com_msg.specs.Rendering.{IsAdvance};
ghost use Rattle.com_cd.specs.Designation.{path_fields};
ghost use Rattle.com_events.specs.Calls.{IsWellFormed, IsReplyTo, AreNames};
ghost use Rattle.com_events.specs.declared.call.Call.TheVariants as made;
ghost use Rattle.com_recv.specs.Areas.{path_of_leaf};
ghost use Rattle.com_recv.specs.Incoming.{chosen_leaf, without_unit};
ghost use Rattle.com_send.specs.Outgoing.{drop_unit};
ghost use Rattle.com_send.specs.Sending.{advance_of};
ghost use Rattle.com_state.specs.Steps.{unit_step, schedule_of};

use crate::parties::UnitMode;
use crate::state::State;
use com_cd::{InArea, NAMES_LENGTH, OutArea, path_fields};
use com_events::{Call, Reply};
use com_msg::{Kind, MAX_SIZE, Part};
use com_text::Text;
use com_tree::Node;
use std::alloc::AllocError;

impl State {
    /// Does a call of a unit that is allowed. If memory runs out, nothing changes.
    pub(crate) fn apply_unit(&mut self, unit: u32, call: &Call) -> Result<Reply, AllocError>
        requires unit { unit < length self.old.units }
        requires may { IsTrue (is_some (unit_step self.old unit call.now)) }
        requires call { IsWellFormed call.now }
        ensures step { IfOk result (λ reply. unit_step self.old unit call.now
            ≡ Some (reply, self.new)) }
        ensures reply { IfOk result (IsReplyTo call.now) }
        ensures err { OnErr result (self.new ≡ self.old) }
    {
        match call {
            Call::Start => Ok(self.start(unit)),
            Call::Receive {
                area,
                kind,
                size,
                no_data,
            } => self.receive(unit, area, *kind, *size, *no_data),
            Call::Count { area } => Ok(self.count(unit, *area)),
            Call::Send { area, part, from } => self.send(unit, *area, *part, from.as_ref()),
            Call::SwitchInput {
                on,
                terminal,
                area,
                key,
            } => Ok(self.switch_input(unit, *on, *terminal, *area, key)),
            Call::SwitchOutput { on, area, key } => self.switch_output(unit, *on, *area, key),
            Call::Stop { .. } => {
                self.drop_unit(unit);
                self.set_unit_mode(unit, UnitMode::Stopped);
                Ok(Reply::Done)
            }
            Call::Arrive { .. } | Call::Held | Call::Finish { .. } => unreachable!(),
        }
    }

    /// Lets the unit run. With a schedule it is handed the names of the leaf that has the message.
    fn start(&mut self, unit: u32) -> Reply
        requires unit { unit < length self.old.units }
        requires may { IsTrue (is_some (unit_step self.old unit made.Start)) }
        ensures step { unit_step self.old unit made.Start ≡ Some (result, self.new) }
        ensures reply { IsReplyTo made.Start result }
    {
        let names = self.names_at_start(unit);
        self.set_unit_mode(unit, UnitMode::Running);
        Reply::Started { names }
    }

    /// Returns the names of the leaf that the node of a unit's schedule chooses, where a message
    /// waits there.
    fn names_at_start(&self, unit: u32) -> Option<[u8; NAMES_LENGTH]>
        requires { unit < length self.now.units }
        ensures choice { result ≡ option_and_then (λ node.
            option_map (λ leaf. path_fields (path_of_leaf self.now.net.tree leaf))
            (chosen_leaf self.now.net.tree self.now.incoming.waiting node))
            (schedule_of self.now.net unit) }
        ensures names { IfSome result AreNames }
    {
        match self.schedule(unit) {
            Some(node) => self.names_of_choice(node),
            None => None,
        }
    }

    /// Returns the names of the leaf that a node chooses, where a message waits under it.
    fn names_of_choice(&self, node: Node) -> Option<[u8; NAMES_LENGTH]>
        requires { node.row < length self.now.net.tree }
        ensures choice { result ≡ option_map (λ leaf. path_fields (path_of_leaf self.now.net.tree leaf))
            (chosen_leaf self.now.net.tree self.now.incoming.waiting node) }
        ensures names { IfSome result AreNames }
    {
        match self.queues.choice(&self.net.tree, node) {
            Some(leaf) => Some(path_fields(&self.net.tree.path(leaf))),
            None => None,
        }
    }

    /// RECEIVE: a portion, or the wait for one.
    fn receive(
        &mut self,
        unit: u32,
        area: &InArea,
        kind: Kind,
        size: u32,
        no_data: bool,
    ) -> Result<Reply, AllocError>
        requires unit { unit < length self.old.units }
        requires may { IsTrue (is_some (unit_step self.old unit
            (made.Receive area.now kind size no_data))) }
        requires size { (1 ≤ size) × (size ≤ MAX_SIZE) }
        ensures step { IfOk result (λ reply. unit_step self.old unit
            (made.Receive area.now kind size no_data) ≡ Some (reply, self.new)) }
        ensures reply { IfOk result (IsReplyTo (made.Receive area.now kind size no_data)) }
        ensures err { OnErr result (self.new ≡ self.old) }
    {
        if self.has_to_wait(unit, area, no_data) {
            let mode = UnitMode::WaitingFor {
                area: *area,
                kind,
                size,
            };
            self.set_unit_mode(unit, mode);
            return Ok(Reply::Waits);
        }
        let reply = self.take(unit, *area, kind, size)?;
        self.verb_done(unit);
        Ok(reply)
    }

    /// ACCEPT MESSAGE COUNT.
    fn count(&mut self, unit: u32, area: InArea) -> Reply
        requires unit { unit < length self.old.units }
        requires may { IsTrue (is_some (unit_step self.old unit (made.Count area))) }
        ensures step { unit_step self.old unit (made.Count area) ≡ Some (result, self.new) }
        ensures reply { IsReplyTo (made.Count area) result }
    {
        let area = self.counted(area);
        self.verb_done(unit);
        Reply::AreaIn { area }
    }

    /// SEND.
    fn send(
        &mut self,
        unit: u32,
        area: OutArea,
        part: Part,
        from: Option<&Text>,
    ) -> Result<Reply, AllocError>
        requires unit { unit < length self.old.units }
        requires advance { IfSome (advance_of part) IsAdvance }
        requires may { IsTrue (is_some (unit_step self.old unit
            (made.Send area part (option_copied from)))) }
        ensures step { IfOk result (λ reply. unit_step self.old unit
            (made.Send area part (option_copied from.entry)) ≡ Some (reply, self.new)) }
        ensures reply { IfOk result (IsReplyTo (made.Send area part (option_copied from.entry))) }
        ensures err { OnErr result (self.new ≡ self.old) }
    {
        let reply = self.send_part(unit, area, part, from)?;
        self.verb_done(unit);
        Ok(reply)
    }

    /// ENABLE and DISABLE INPUT, where TERMINAL is written or not.
    fn switch_input(
        &mut self,
        unit: u32,
        on: bool,
        terminal: bool,
        area: InArea,
        key: &Text,
    ) -> Reply
        requires unit { unit < length self.old.units }
        requires may { IsTrue (is_some (unit_step self.old unit
            (made.SwitchInput on terminal area key.now))) }
        ensures step { unit_step self.old unit (made.SwitchInput on terminal area key.now)
            ≡ Some (result, self.new) }
        ensures reply { IsReplyTo (made.SwitchInput on terminal area key.now) result }
    {
        let reply = self.switch_flags(on, terminal, area, key);
        self.verb_done(unit);
        reply
    }

    /// ENABLE and DISABLE OUTPUT.
    fn switch_output(
        &mut self,
        unit: u32,
        on: bool,
        area: OutArea,
        key: &Text,
    ) -> Result<Reply, AllocError>
        requires unit { unit < length self.old.units }
        requires may { IsTrue (is_some (unit_step self.old unit
            (made.SwitchOutput on area key.now))) }
        ensures step { IfOk result (λ reply. unit_step self.old unit
            (made.SwitchOutput on area key.now) ≡ Some (reply, self.new)) }
        ensures reply { IfOk result (IsReplyTo (made.SwitchOutput on area key.now)) }
        ensures err { OnErr result (self.new ≡ self.old) }
    {
        let reply = self.switch_destinations(on, area, key)?;
        self.verb_done(unit);
        Ok(reply)
    }

    /// Drops what a unit holds and has begun to send.
    fn drop_unit(&mut self, unit: u32)
        requires { unit < length self.old.units }
        ensures { self.new ≡ record self.old {
          incoming = record self.old.incoming {
            held = without_unit unit self.old.incoming.held;
          };
          outgoing = drop_unit unit self.old.outgoing;
        } }
    {
        self.queues.drop_unit(unit);
        self.outs.drop_unit(unit);
    }
}
