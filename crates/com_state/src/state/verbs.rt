//! The verbs of units, apart from their count.
ghost use Rattle.std.specs.Prelude.{
  ◌≡◌,
  ◌<◌,
  ◌≤◌,
  ◌||◌,
  ℕ,
  List,
  Bool,
  true,
  false,
  not,
  is_none,
  length,
  slice_get,
  IfOk,
  IfSome,
  OnErr,
};
ghost use Rattle.std.specs.Option.{option_copied};
ghost use Rattle.com_msg.specs.Rendering.{IsAdvance};
ghost use Rattle.com_tree.specs.Places.{top_of};
ghost use Rattle.com_events.specs.declared.reply.Reply.TheVariants as reply;
ghost use Rattle.com_events.specs.declared.call.Call.TheVariants as made;
ghost use Rattle.com_events.specs.Calls.{IsReplyTo};
ghost use Rattle.com_cd.specs.InputArea.{in_field};
ghost use Rattle.com_cd.specs.OutputArea.{IsOutputArea};
ghost use Rattle.com_cd.specs.declared.input_area.InField.TheVariants as input;
ghost use Rattle.com_msg.specs.declared.rest.Kind.{Kind as AKind};
ghost use Rattle.com_cd.specs.Status.{with_input_status};
ghost use Rattle.com_recv.specs.Incoming.{designated};
ghost use Rattle.com_recv.specs.Receiving.{receive, count};
ghost use Rattle.com_send.specs.Sending.{send, advance_of};
ghost use Rattle.com_send.specs.Switching.{switch_output};
ghost use Rattle.com_state.specs.State.{destinations_of};
ghost use Rattle.com_state.specs.Answers.{is_ready, reply_of, IsShort, received, answered};
ghost use Rattle.com_state.specs.Switches.{switch_input, set_between, is_key};

use crate::state::State;
use com_cd::{InArea, InField, OutArea, Status};
use com_events::Reply;
use com_msg::{Kind, MAX_SIZE, Part};
use com_recv::{Taken, designated};
use com_send::{find_destination, is_key};
use com_text::{FIELD_LENGTH, Text};
use com_tree::Node;
use std::alloc::AllocError;

impl State {
    /// Returns whether a RECEIVE of a unit has something to go on with.
    pub(crate) fn is_ready(&self, unit: u32, area: &InArea) -> bool
        ensures { result ≡ is_ready self.now unit area.now }
    {
        match designated(&self.net.tree, area) {
            Some(node) => self.queues.has_data(&self.net.tree, unit, node),
            None => false,
        }
    }

    /// Returns whether a RECEIVE of a unit has to wait: it has no NO DATA, the area designates a
    /// node, and there is nothing to go on with.
    pub(crate) fn has_to_wait(&self, unit: u32, area: &InArea, no_data: bool) -> bool
        ensures { result ≡ not ((no_data || is_none (designated self.now.net.tree area.now))
            || is_ready self.now unit area.now) }
    {
        !no_data && designated(&self.net.tree, area).is_some() && !self.is_ready(unit, area)
    }

    /// RECEIVE of what there is. If memory runs out, nothing changes.
    pub(crate) fn take(
        &mut self,
        unit: u32,
        mut area: InArea,
        kind: Kind,
        size: u32,
    ) -> Result<Reply, AllocError>
        requires { (1 ≤ size) × (size ≤ MAX_SIZE) }
        ensures taken { IfOk result (λ reply. (reply, self.new) ≡ received self.old
            (receive self.old.net.tree self.old.incoming unit area kind size)) }
        ensures reply { (no_data : Bool) → IfOk result (IsReplyTo (made.Receive area kind size no_data)) }
        ensures err { OnErr result (self.new ≡ self.old) }
    {
        let taken = self
            .queues
            .receive(&self.net.tree, unit, &mut area, kind, size)?;
        Ok(receive_told(taken, area))
    }

    /// Returns the area with the number of messages that wait.
    pub(crate) fn counted(&self, mut area: InArea) -> InArea
        ensures { result ≡ count self.now.net.tree self.now.incoming area }
    {
        self.queues.count(&self.net.tree, &mut area);
        area
    }

    /// SEND. If memory runs out, nothing changes.
    pub(crate) fn send_part(
        &mut self,
        unit: u32,
        mut area: OutArea,
        part: Part,
        from: Option<&Text>,
    ) -> Result<Reply, AllocError>
        requires unit { unit < length self.old.units }
        requires advance { IfSome (advance_of part) IsAdvance }
        ensures sent { IfOk result (λ reply. (reply, self.new) ≡ answered self.old
            (send (destinations_of self.old.net) self.old.outgoing unit area part
            (option_copied from.entry))) }
        ensures reply { IfOk result (IsReplyTo (made.Send area part (option_copied from.entry))) }
        ensures err { OnErr result (self.new ≡ self.old) }
    {
        self.outs.send(unit, &mut area, part, from)?;
        Ok(output_told(area))
    }

    /// ENABLE and DISABLE OUTPUT. If memory runs out, nothing changes.
    pub(crate) fn switch_destinations(
        &mut self,
        on: bool,
        mut area: OutArea,
        key: &Text,
    ) -> Result<Reply, AllocError>
        ensures switched { IfOk result (λ reply. (reply, self.new) ≡ answered self.old
            (switch_output (destinations_of self.old.net) self.old.outgoing on area key.now)) }
        ensures reply { IfOk result (IsReplyTo (made.SwitchOutput on area key.now)) }
        ensures err { OnErr result (self.new ≡ self.old) }
    {
        self.outs.switch(on, &mut area, key)?;
        Ok(output_told(area))
    }

    /// ENABLE and DISABLE INPUT, where TERMINAL is written or not.
    pub(crate) fn switch_flags(
        &mut self,
        on: bool,
        terminal: bool,
        area: InArea,
        key: &Text,
    ) -> Reply
        ensures switched { (result, self.new) ≡ switch_input self.old on terminal area key.now }
        ensures reply { IsReplyTo (made.SwitchInput on terminal area key.now) result }
    {
        if terminal {
            self.switch_terminal(on, area, key)
        } else {
            self.switch_leaves(on, area, key)
        }
    }

    /// ENABLE and DISABLE INPUT without TERMINAL: the leaves under the node that the area
    /// designates. 20 where it designates none, 40 where the key is not the password of the node's
    /// tree.
    fn switch_leaves(&mut self, on: bool, area: InArea, key: &Text) -> Reply
        ensures switched { (result, self.new) ≡ switch_input self.old on false area key.now }
        ensures reply { IsReplyTo (made.SwitchInput on false area key.now) result }
    {
        let Some(node) = designated(&self.net.tree, &area) else {
            return told(area, Status::S20);
        };
        if !self.is_key_of_tree(node, key) {
            return told(area, Status::S40);
        }
        let (first, past) = self.net.tree.leaves_under(node);
        set_between(&mut self.leaf_on, first as usize, past as usize, on);
        told(area, Status::S00)
    }

    /// ENABLE and DISABLE INPUT TERMINAL: the terminal that SYMBOLIC SOURCE names. 20 where there
    /// is none, 40 where the key is not its password.
    fn switch_terminal(&mut self, on: bool, area: InArea, key: &Text) -> Reply
        ensures switched { (result, self.new) ≡ switch_input self.old on true area key.now }
        ensures reply { IsReplyTo (made.SwitchInput on true area key.now) result }
    {
        let Some(terminal) = find_destination(self.outs.destinations(), source_field(&area)) else {
            return told(area, Status::S20);
        };
        if !is_key(key, &self.net.terminals.as_slice()[terminal].password) {
            return told(area, Status::S40);
        }
        self.input_on[terminal] = on;
        told(area, Status::S00)
    }

    /// Returns whether a key is the password of the tree of a node.
    fn is_key_of_tree(&self, node: Node, key: &Text) -> bool
        requires { node.row < length self.now.net.tree }
        ensures { result ≡ is_key key.now
            (slice_get self.now.net.queue_passwords (top_of self.now.net.tree node)) }
    {
        let top = self.net.tree.top(node);
        is_key(key, &self.net.queue_passwords.as_slice()[top as usize])
    }
}

/// Returns SYMBOLIC SOURCE of an area.
fn source_field(area: &InArea) -> &[u8; FIELD_LENGTH]
    ensures { result.now ≡ in_field input.Source area.now }
{
    // The field has just this length.
    area.get(InField::Source).try_into().unwrap()
}

/// Returns the reply with an area that has a status key.
fn told(mut area: InArea, status: Status) -> Reply
    ensures told { result ≡ reply.AreaIn (with_input_status status area) }
    ensures area { IsReplyTo (made.Count area) result }
{
    area.set_status(status);
    Reply::AreaIn { area }
}

/// Returns the reply with an area after SEND, ENABLE OUTPUT and DISABLE OUTPUT.
fn output_told(area: OutArea) -> Reply
    ensures told { result ≡ reply.AreaOut area }
    ensures area { IsOutputArea area }
{
    Reply::AreaOut { area }
}

/// Returns the reply to a RECEIVE, by what was taken and the area.
fn receive_told(taken: Taken, area: InArea) -> Reply
    requires { IsShort taken }
    ensures told { result ≡ reply_of taken area }
    ensures fits { (before : List ℕ) (kind : AKind) (size : ℕ) (no_data : Bool) →
        IsReplyTo (made.Receive before kind size no_data) result }
{
    match taken {
        Taken::Given(text) => Reply::Given { area, text },
        Taken::NoData => Reply::NoData { area },
        Taken::Unknown => Reply::Refused { area },
    }
}

/// Sets the flags from one place to before another.
fn set_between(flags: &mut [bool], first: usize, past: usize, on: bool)
    requires order { first ≤ past }
    requires within { past ≤ length flags.old }
    ensures { flags.new ≡ set_between first past on flags.old }
{
    flags[first..past].fill(on);
}
