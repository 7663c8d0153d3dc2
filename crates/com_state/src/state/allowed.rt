//! Which calls are allowed, and what can go on.
ghost use Rattle.std.specs.Prelude.{◌≡◌, ◌<◌, ◌&&◌, ◌||◌, ℕ, List, length, not, is_some};
ghost use Rattle.std.specs.List.{list_all, range_with_len};
ghost use Rattle.com_state.specs.State.{unit_mode, terminal_mode};
ghost use Rattle.com_state.specs.Answers.{is_ready};
ghost use Rattle.com_state.specs.Steps.{
  step,
  unit_step,
  terminal_step,
  start,
  schedule_of,
  feed_of,
  is_running,
  is_dormant,
  is_waiting_for,
  is_feeding,
  is_holding,
  is_feeding_or_holding,
  waits_or_sleeps,
  is_path_open,
  may_do_verb,
  may_arrive,
  may_stop,
  may_finish,
  is_idle,
  is_unit_idle,
  is_terminal_idle,
};
ghost use Rattle.com_state.specs.Kept.{is_unit_ready};

use crate::parties::{TerminalMode, UnitMode};
use crate::state::State;
use com_cd::InArea;
use com_events::{Call, EndReason, Party, StopReason};
use com_msg::Kind;

impl State {
    /// Returns whether a call is allowed, which is exactly if the system has a step for it. An
    /// unknown party has no call, and a party has none of the other sort's.
    pub fn may(&self, party: &Party, call: &Call) -> bool
        ensures { result ≡ is_some (step self.now party.now call.now) }
    {
        match party {
            Party::Unit(name) => match self.unit(name) {
                Some(unit) => self.may_unit(unit, call),
                None => false,
            },
            Party::Terminal(name) => match self.terminal(name) {
                Some(terminal) => self.may_terminal(terminal, call),
                None => false,
            },
        }
    }

    /// Returns whether a unit waits and its RECEIVE has something to go on with.
    pub fn ready(&self, unit: u32) -> bool
        requires { unit < length self.now.net.units }
        ensures { result ≡ is_unit_ready self.now unit }
    {
        match self.units[unit as usize].mode {
            UnitMode::WaitingFor { area, .. } => self.is_ready(unit, &area),
            UnitMode::Dormant | UnitMode::Running | UnitMode::Stopped => false,
        }
    }

    /// Returns whether nothing can happen any more: no unit and no terminal can go on.
    pub fn idle(&self) -> bool
        ensures { result ≡ is_idle self.now }
    {
        self.units_are_idle() && self.terminals_are_idle()
    }

    fn units_are_idle(&self) -> bool
        ensures { result ≡ list_all (λ unit. is_unit_idle self.now unit (unit_mode self.now unit))
            (range_with_len 0 (length self.now.units)) }
    {
        for unit in 0..self.units.len() {
            if !self.is_unit_idle(unit as u32) {
                return false;
            }
        }
        true
    }

    fn terminals_are_idle(&self) -> bool
        ensures { result ≡ list_all
            (λ terminal. is_terminal_idle self.now terminal (terminal_mode self.now terminal))
            (range_with_len 0 (length self.now.terminals)) }
    {
        for terminal in 0..self.terminals.len() {
            if !self.is_terminal_idle(terminal as u32) {
                return false;
            }
        }
        true
    }

    fn may_unit(&self, unit: u32, call: &Call) -> bool
        requires { unit < length self.now.units }
        ensures { result ≡ is_some (unit_step self.now unit call.now) }
    {
        match call {
            Call::Start => self.may_start(unit),
            Call::Receive {
                area,
                kind,
                size,
                no_data,
            } => self.may_receive(unit, area, *kind, *size, *no_data),
            Call::Count { .. }
            | Call::Send { .. }
            | Call::SwitchInput { .. }
            | Call::SwitchOutput { .. } => self.may_do(unit),
            Call::Stop { reason } => self.may_stop(unit, *reason),
            Call::Arrive { .. } | Call::Held | Call::Finish { .. } => false,
        }
    }

    /// Returns whether a unit may start: it is dormant, and its schedule, if any, has a message.
    fn may_start(&self, unit: u32) -> bool
        requires { unit < length self.now.units }
        ensures { result ≡ (is_dormant (unit_mode self.now unit)
            && is_some (start self.now unit (schedule_of self.now.net unit))) }
    {
        self.is_dormant(unit) && self.has_start(unit)
    }

    /// Returns whether a unit may do a verb: it runs and has not done all its verbs.
    fn may_do(&self, unit: u32) -> bool
        requires { unit < length self.now.units }
        ensures { result ≡ (is_running (unit_mode self.now unit) && may_do_verb self.now unit) }
    {
        self.is_running(unit) && self.may_do_verb(unit)
    }

    /// Returns whether a unit may receive: it runs, or waits with this RECEIVE and can go on.
    fn may_receive(&self, unit: u32, area: &InArea, kind: Kind, size: u32, no_data: bool) -> bool
        requires { unit < length self.now.units }
        ensures { result ≡ (may_do_verb self.now unit && (is_running (unit_mode self.now unit)
            || (is_waiting_for (unit_mode self.now unit) area.now kind size no_data
            && is_ready self.now unit area.now))) }
    {
        self.may_do_verb(unit)
            && (self.is_running(unit)
                || (self.is_waiting_for(unit, area, kind, size, no_data)
                    && self.is_ready(unit, area)))
    }

    /// Returns whether a unit waits with this RECEIVE, which has no NO DATA.
    fn is_waiting_for(&self, unit: u32, area: &InArea, kind: Kind, size: u32, no_data: bool) -> bool
        requires { unit < length self.now.units }
        ensures { result ≡ is_waiting_for (unit_mode self.now unit) area.now kind size no_data }
    {
        match self.unit_mode(unit) {
            UnitMode::WaitingFor {
                area: own,
                kind: own_kind,
                size: own_size,
            } => own == *area && own_kind == kind && own_size == size && !no_data,
            UnitMode::Dormant | UnitMode::Running | UnitMode::Stopped => false,
        }
    }

    /// STOP IDLE needs an idle system and a unit that waits or is dormant; for the other reasons
    /// the unit runs.
    fn may_stop(&self, unit: u32, reason: StopReason) -> bool
        requires { unit < length self.now.units }
        ensures { result ≡ may_stop self.now unit reason }
    {
        match reason {
            StopReason::Idle => self.idle() && self.waits_or_sleeps(unit),
            StopReason::Run | StopReason::Limit | StopReason::DataFault => self.is_running(unit),
        }
    }

    fn is_running(&self, unit: u32) -> bool
        requires { unit < length self.now.units }
        ensures { result ≡ is_running (unit_mode self.now unit) }
    {
        matches!(self.unit_mode(unit), UnitMode::Running)
    }

    fn is_dormant(&self, unit: u32) -> bool
        requires { unit < length self.now.units }
        ensures { result ≡ is_dormant (unit_mode self.now unit) }
    {
        matches!(self.unit_mode(unit), UnitMode::Dormant)
    }

    /// Returns whether a unit has not started or waits.
    fn waits_or_sleeps(&self, unit: u32) -> bool
        requires { unit < length self.now.units }
        ensures { result ≡ waits_or_sleeps (unit_mode self.now unit) }
    {
        match self.unit_mode(unit) {
            UnitMode::Dormant | UnitMode::WaitingFor { .. } => true,
            UnitMode::Running | UnitMode::Stopped => false,
        }
    }

    /// Returns whether a unit has no schedule, or a message waits under its node.
    fn has_start(&self, unit: u32) -> bool
        requires { unit < length self.now.units }
        ensures { result ≡ is_some (start self.now unit (schedule_of self.now.net unit)) }
    {
        match self.schedule(unit) {
            Some(node) => self.queues.has_message(&self.net.tree, node),
            None => true,
        }
    }

    fn is_unit_idle(&self, unit: u32) -> bool
        requires { unit < length self.now.units }
        ensures { result ≡ is_unit_idle self.now unit (unit_mode self.now unit) }
    {
        match self.unit_mode(unit) {
            UnitMode::Stopped => true,
            UnitMode::WaitingFor { area, .. } => !self.is_ready(unit, &area),
            UnitMode::Dormant => !self.has_start(unit),
            UnitMode::Running => false,
        }
    }

    fn may_terminal(&self, terminal: u32, call: &Call) -> bool
        requires { terminal < length self.now.terminals }
        ensures { (name : List ℕ) → result ≡ is_some (terminal_step self.now terminal name call.now) }
    {
        match call {
            Call::Arrive { .. } => self.may_come_in(terminal),
            Call::Held => self.may_hold(terminal),
            Call::Finish { reason } => self.may_finish(terminal, *reason),
            Call::Start
            | Call::Receive { .. }
            | Call::Count { .. }
            | Call::Send { .. }
            | Call::SwitchInput { .. }
            | Call::SwitchOutput { .. }
            | Call::Stop { .. } => false,
        }
    }

    /// Returns whether a message of a terminal may come in.
    fn may_come_in(&self, terminal: u32) -> bool
        requires { terminal < length self.now.terminals }
        ensures { result ≡ ((is_path_open self.now terminal
            && is_feeding_or_holding (terminal_mode self.now terminal))
            && may_arrive self.now terminal) }
    {
        self.is_path_open(terminal) && !self.has_ended(terminal) && self.may_arrive(terminal)
    }

    /// Returns whether a terminal may hold its next message.
    fn may_hold(&self, terminal: u32) -> bool
        requires { terminal < length self.now.terminals }
        ensures { result ≡ (((is_some (feed_of self.now.net terminal)
            && is_feeding (terminal_mode self.now terminal))
            && not (is_path_open self.now terminal)) && may_arrive self.now terminal) }
    {
        self.route(terminal).is_some()
            && self.is_feeding(terminal)
            && !self.is_path_open(terminal)
            && self.may_arrive(terminal)
    }

    /// END IDLE needs an idle system and a terminal that holds; for the other reasons the terminal
    /// feeds.
    fn may_finish(&self, terminal: u32, reason: EndReason) -> bool
        requires { terminal < length self.now.terminals }
        ensures { result ≡ may_finish self.now terminal reason }
    {
        match reason {
            EndReason::Idle => self.idle() && self.is_holding(terminal),
            EndReason::End | EndReason::Frame(_) | EndReason::Fault | EndReason::Long => {
                self.is_feeding(terminal)
            }
        }
    }

    fn is_feeding(&self, terminal: u32) -> bool
        requires { terminal < length self.now.terminals }
        ensures { result ≡ is_feeding (terminal_mode self.now terminal) }
    {
        matches!(self.terminal_mode(terminal), TerminalMode::Feeding)
    }

    fn is_holding(&self, terminal: u32) -> bool
        requires { terminal < length self.now.terminals }
        ensures { result ≡ is_holding (terminal_mode self.now terminal) }
    {
        matches!(self.terminal_mode(terminal), TerminalMode::Holding)
    }

    fn has_ended(&self, terminal: u32) -> bool
        requires { terminal < length self.now.terminals }
        ensures { result ≡ not (is_feeding_or_holding (terminal_mode self.now terminal)) }
    {
        matches!(self.terminal_mode(terminal), TerminalMode::Ended)
    }

    fn is_terminal_idle(&self, terminal: u32) -> bool
        requires { terminal < length self.now.terminals }
        ensures { result ≡ is_terminal_idle self.now terminal (terminal_mode self.now terminal) }
    {
        match self.terminal_mode(terminal) {
            TerminalMode::Ended => true,
            TerminalMode::Holding => !self.is_path_open(terminal),
            TerminalMode::Feeding => false,
        }
    }
}
