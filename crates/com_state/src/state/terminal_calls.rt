//! The calls of terminals.
ghost use Rattle.std.specs.Prelude.{◌≡◌, ◌<◌, ◌≤◌, length, Some, is_some, IsTrue, IfOk, OnErr};
ghost use Rattle.com_events.specs.Calls.{IsWellFormed, IsReplyTo};
ghost use Rattle.com_events.specs.declared.call.Call.TheVariants as made;
ghost use Rattle.com_state.specs.Steps.{terminal_step};

use crate::parties::TerminalMode;
use crate::state::State;
use com_events::{Call, Reply};
use com_msg::{Message, RawMessage, Stamp};
use com_text::Name;
use std::alloc::AllocError;

impl State {
    /// Does a call of a terminal that is allowed. If memory runs out, nothing changes.
    pub(crate) fn apply_terminal(
        &mut self,
        terminal: u32,
        name: &Name,
        call: &Call,
    ) -> Result<Reply, AllocError>
        requires terminal { terminal < length self.old.terminals }
        requires may { IsTrue (is_some (terminal_step self.old terminal name.now call.now)) }
        requires call { IsWellFormed call.now }
        ensures step { IfOk result (λ reply. terminal_step self.old terminal name.now call.now
            ≡ Some (reply, self.new)) }
        ensures reply { IfOk result (IsReplyTo call.now) }
        ensures err { OnErr result (self.new ≡ self.old) }
    {
        match call {
            Call::Arrive { stamp, message } => self.arrive(terminal, name, *stamp, message),
            Call::Held => {
                self.set_terminal_mode(terminal, TerminalMode::Holding);
                Ok(Reply::Done)
            }
            Call::Finish { .. } => {
                self.set_terminal_mode(terminal, TerminalMode::Ended);
                Ok(Reply::Done)
            }
            Call::Start
            | Call::Receive { .. }
            | Call::Count { .. }
            | Call::Send { .. }
            | Call::SwitchInput { .. }
            | Call::SwitchOutput { .. }
            | Call::Stop { .. } => unreachable!(),
        }
    }

    /// Takes in a message: it waits after all others on the leaf of the terminal's route, and the
    /// terminal feeds.
    fn arrive(
        &mut self,
        terminal: u32,
        name: &Name,
        stamp: Stamp,
        message: &RawMessage,
    ) -> Result<Reply, AllocError>
        requires terminal { terminal < length self.old.terminals }
        requires may { IsTrue (is_some (terminal_step self.old terminal name.now
            (made.Arrive stamp message.now))) }
        requires segments { 1 ≤ length message.now.segments }
        ensures step { IfOk result (λ reply. terminal_step self.old terminal name.now
            (made.Arrive stamp message.now) ≡ Some (reply, self.new)) }
        ensures reply { IfOk result (IsReplyTo (made.Arrive stamp message.now)) }
        ensures err { OnErr result (self.new ≡ self.old) }
    {
        let Some(leaf) = self.route(terminal) else {
            unreachable!();
        };
        let RawMessage { segments, end } = message.copy()?;
        let number = self.next_number();
        let arrived = Message {
            source: *name,
            arrival: number,
            stamp,
            segments,
            end,
        };
        self.put(terminal, leaf, arrived)?;
        Ok(Reply::Arrived { number })
    }
}
