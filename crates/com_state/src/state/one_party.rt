//! One unit or one terminal of a state.
ghost use Rattle.std.specs.Prelude.{
  ◌≡◌,
  ◌<◌,
  ◌≤◌,
  ◌+◌,
  ◌^◌,
  ◌++◌,
  ◌∷◌,
  [],
  length,
  Some,
  IsTrue,
  IfSome,
  OnOk,
  OnErr,
  option_map,
};
ghost use Rattle.com_tree.specs.Written.{leaf_count};
ghost use Rattle.com_net.specs.Numbers.{unit_number, terminal_number};
ghost use Rattle.com_state.specs.State.{unit_mode, terminal_mode};
ghost use Rattle.com_state.specs.Steps.{
  schedule_of,
  feed_of,
  is_path_open,
  may_do_verb,
  may_arrive,
  with_unit_mode,
  with_verb,
  with_terminal_mode,
  with_arrival,
};

use crate::parties::{MAX_ARRIVALS, MAX_VERBS, TerminalMode, TerminalState, UnitMode, UnitState};
use crate::state::State;
use com_msg::Message;
use com_text::Name;
use com_tree::{Leaf, Node};
use std::alloc::AllocError;

impl State {
    /// Returns the number of the unit with a name.
    pub(crate) fn unit(&self, name: &Name) -> Option<u32>
        ensures number { unit_number self.now.net name.now ≡ result }
        ensures within { IfSome result (λ unit. unit < length self.now.units) }
    {
        self.net.unit(name)
    }

    /// Returns the number of the terminal with a name.
    pub(crate) fn terminal(&self, name: &Name) -> Option<u32>
        ensures number { terminal_number self.now.net name.now ≡ result }
        ensures within { IfSome result (λ terminal. terminal < length self.now.terminals) }
    {
        self.net.terminal(name)
    }

    pub(crate) fn unit_mode(&self, unit: u32) -> UnitMode
        requires { unit < length self.now.units }
        ensures { unit_mode self.now unit ≡ Some result }
    {
        self.units[unit as usize].mode
    }

    pub(crate) fn terminal_mode(&self, terminal: u32) -> TerminalMode
        requires { terminal < length self.now.terminals }
        ensures { terminal_mode self.now terminal ≡ Some result }
    {
        self.terminals[terminal as usize].mode
    }

    /// Returns whether a unit has not done all its verbs.
    pub(crate) fn may_do_verb(&self, unit: u32) -> bool
        requires { unit < length self.now.units }
        ensures { result ≡ may_do_verb self.now unit }
    {
        self.units[unit as usize].verbs < MAX_VERBS
    }

    /// Returns whether not all messages that a terminal may have have arrived.
    pub(crate) fn may_arrive(&self, terminal: u32) -> bool
        requires { terminal < length self.now.terminals }
        ensures { result ≡ may_arrive self.now terminal }
    {
        self.terminals[terminal as usize].arrivals < MAX_ARRIVALS
    }

    /// Returns the node under which a message starts a unit, where it has a schedule.
    pub(crate) fn schedule(&self, unit: u32) -> Option<Node>
        requires { unit < length self.now.units }
        ensures schedule { result ≡ schedule_of self.now.net unit }
        ensures within { IfSome result (λ node. node.row < length self.now.net.tree) }
    {
        self.net.units.as_slice()[unit as usize].schedule
    }

    /// Returns the leaf that a terminal's messages wait on, where it has a route.
    pub(crate) fn route(&self, terminal: u32) -> Option<Leaf>
        requires { terminal < length self.now.terminals }
        ensures leaf { result ≡ option_map (λ feed. feed.leaf) (feed_of self.now.net terminal) }
        ensures within { IfSome result (λ leaf. leaf.number < leaf_count self.now.net.tree) }
    {
        match &self.net.terminals.as_slice()[terminal as usize].feed {
            Some(feed) => Some(feed.leaf),
            None => None,
        }
    }

    /// Returns whether a terminal has a route, and its input and the route's leaf are enabled.
    pub(crate) fn is_path_open(&self, terminal: u32) -> bool
        requires { terminal < length self.now.terminals }
        ensures { result ≡ is_path_open self.now terminal }
    {
        match self.route(terminal) {
            Some(leaf) => { self.input_on[terminal as usize] && self.leaf_on[leaf.number as usize] }
            None => false,
        }
    }

    pub(crate) fn set_unit_mode(&mut self, unit: u32, mode: UnitMode)
        requires { unit < length self.old.units }
        ensures { self.new ≡ with_unit_mode unit mode self.old }
    {
        self.units[unit as usize].mode = mode;
    }

    pub(crate) fn set_terminal_mode(&mut self, terminal: u32, mode: TerminalMode)
        requires { terminal < length self.old.terminals }
        ensures { self.new ≡ with_terminal_mode terminal mode self.old }
    {
        self.terminals[terminal as usize].mode = mode;
    }

    /// Counts one more verb of a unit, which runs.
    pub(crate) fn verb_done(&mut self, unit: u32)
        requires unit { unit < length self.old.units }
        requires verbs { IsTrue (may_do_verb self.old unit) }
        ensures { self.new ≡ with_verb unit self.old }
    {
        let UnitState { verbs, .. } = self.units[unit as usize];
        self.units[unit as usize] = UnitState {
            mode: UnitMode::Running,
            verbs: verbs + 1,
        };
    }

    /// Returns the number of the next message that arrives.
    pub(crate) fn next_number(&self) -> u64
        ensures next { result ≡ self.now.arrivals + 1 }
        ensures few { (1 ≤ result) × (result < 10 ^ 18) }
    {
        self.arrivals + 1
    }

    /// Puts a message on a leaf after all others, and lets its terminal feed. If memory runs
    /// out, nothing changes.
    pub(crate) fn put(
        &mut self,
        terminal: u32,
        leaf: Leaf,
        message: Message,
    ) -> Result<(), AllocError>
        requires terminal { terminal < length self.old.terminals }
        requires arrivals { IsTrue (may_arrive self.old terminal) }
        requires leaf { leaf.number < leaf_count self.old.net.tree }
        requires segments { 1 ≤ length message.segments }
        requires number { message.arrival ≡ self.old.arrivals + 1 }
        ensures ok { OnOk result (self.new ≡ with_arrival terminal (record self.old {
          incoming = record self.old.incoming {
            waiting = self.old.incoming.waiting ++ record { leaf = leaf; message = message } ∷ [];
          };
          arrivals = self.old.arrivals + 1;
        })) }
        ensures err { OnErr result (self.new ≡ self.old) }
    {
        let number = message.arrival;
        if let Err((_, error)) = self.queues.put(&self.net.tree, leaf, message) {
            return Err(error);
        }
        self.arrivals = number;
        let TerminalState { arrivals, .. } = self.terminals[terminal as usize];
        self.terminals[terminal as usize] = TerminalState {
            mode: TerminalMode::Feeding,
            arrivals: arrivals + 1,
        };
        Ok(())
    }
}
