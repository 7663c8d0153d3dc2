//! The one-thread system: a value that stands for a state of the model.
ghost use Rattle.std.specs.Prelude.{◌≡◌, ◌<◌, length, map, replicate, Some, is_some, IsTrue, IfOk, OnErr, All};
ghost use Rattle.com_events.specs.Calls.{IsWellFormed, IsReplyTo};
ghost use Rattle.com_msg.specs.Rendering.{IsRenderable};
ghost use Rattle.com_send.specs.Outgoing.{transmitted_to};
ghost use Rattle.com_state.specs.State.{opening, opening_unit, opening_terminal};
ghost use Rattle.com_state.specs.Steps.{step};
ghost use Rattle.com_state.specs.Kept.{IsSystem};

mod allowed;
mod one_party;
mod terminal_calls;
mod unit_calls;
mod verbs;

use crate::parties::{TerminalMode, TerminalState, UnitMode, UnitState};
use com_events::{Call, Party, Reply};
use com_msg::OutMessage;
use com_net::{Net, Terminal};
use com_recv::Queues;
use com_send::{Destination, Outs};
use com_text::Rows;
use std::alloc::{AllocError, Global};
use std::marker::Model;

/// A state of the system. Contracts see the state of the model. Units, terminals and leaves have
/// their numbers in the network.
#[derive(Debug, Drop)]
pub struct State {
    net: Net,
    queues: Queues,
    outs: Outs,
    leaf_on: Vec<bool>,
    input_on: Vec<bool>,
    /// How many messages have arrived.
    arrivals: u64,
    units: Vec<UnitState>,
    terminals: Vec<TerminalState>,
}

impl Model for State {
    ghost use Rattle.com_state.specs.State.{State as SystemState};

    ghost Value = { SystemState };

    ghost use Rattle.com_state.specs.Inside.{system, IsOfOneNet};

    ghost view = { system };

    ghost invariant = { IsOfOneNet };
}

impl State {
    /// Returns the state of a network in which nothing has happened. It has a copy of the network.
    /// The only error is out of memory.
    pub fn open(net: &Net) -> Result<State, AllocError>
        ensures { IfOk result (λ state. state ≡ opening net.now) }
    {
        let alloc = net.terminals.allocator();
        let net = net.copy()?;
        let units = net.units.len() as u32;
        let destinations = destinations_of(alloc, net.terminals.as_slice())?;
        let queues = Queues::new(alloc, &net.tree, units)?;
        let outs = Outs::new(alloc, destinations, units)?;
        let leaf_on = Vec::from_slice(alloc, net.leaf_on.as_slice())?;
        let input_on = inputs_of(alloc, net.terminals.as_slice())?;
        let units = dormant_units(alloc, net.units.len())?;
        let terminals = feeding_terminals(alloc, net.terminals.len())?;
        Ok(State {
            net,
            queues,
            outs,
            leaf_on,
            input_on,
            arrivals: 0,
            units,
            terminals,
        })
    }

    /// Returns the network.
    pub fn net(&self) -> &Net
        ensures net { result.now ≡ self.now.net }
        ensures valid { IsSystem self.now }
    {
        &self.net
    }

    /// Returns the messages that were transmitted to a terminal, in order.
    pub fn transmitted(&self, terminal: u32) -> &[OutMessage]
        requires { terminal < length self.now.net.terminals }
        ensures transmitted { transmitted_to self.now.outgoing terminal ≡ Some result.now }
        ensures renderable { All IsRenderable result.now }
    {
        self.outs.transmitted(terminal)
    }

    /// Does a call that is allowed, and answers its reply. If memory runs out, nothing changes.
    pub fn apply(&mut self, party: &Party, call: &Call) -> Result<Reply, AllocError>
        requires may { IsTrue (is_some (step self.old party.now call.now)) }
        requires call { IsWellFormed call.now }
        ensures step { IfOk result (λ reply. step self.old party.now call.now
            ≡ Some (reply, self.new)) }
        ensures reply { IfOk result (IsReplyTo call.now) }
        ensures err { OnErr result (self.new ≡ self.old) }
    {
        match party {
            Party::Unit(name) => match self.unit(name) {
                Some(unit) => self.apply_unit(unit, call),
                None => unreachable!(),
            },
            Party::Terminal(name) => match self.terminal(name) {
                Some(terminal) => self.apply_terminal(terminal, name, call),
                None => unreachable!(),
            },
        }
    }
}

/// Returns the terminals of a network as destinations.
fn destinations_of(alloc: Global, terminals: &[Terminal]) -> Result<Rows<Destination>, AllocError>
    ensures { IfOk result (λ destinations. destinations ≡ map (λ terminal. record {
      name = terminal.name;
      password = terminal.password;
      on = terminal.output_on;
    }) terminals.now) }
{
    let mut destinations = Vec::new(alloc);
    for terminal in terminals {
        destinations.push(Destination {
            name: terminal.name,
            password: terminal.password.copy()?,
            on: terminal.output_on,
        })?;
    }
    Ok(Rows::of_vec(destinations))
}

/// Returns whether the input of each terminal is enabled at the beginning.
fn inputs_of(alloc: Global, terminals: &[Terminal]) -> Result<Vec<bool>, AllocError>
    ensures { IfOk result (λ inputs. inputs.items
        ≡ map (λ terminal. terminal.input_on) terminals.now) }
{
    terminals
        .iter()
        .map(|terminal| terminal.input_on)
        .collect(alloc)
}

/// Returns states of `count` units that have not started.
fn dormant_units(alloc: Global, count: usize) -> Result<Vec<UnitState>, AllocError>
    ensures { IfOk result (λ units. units.items ≡ replicate count opening_unit) }
{
    let mut units = Vec::new(alloc);
    for _ in 0..count {
        units.push(UnitState {
            mode: UnitMode::Dormant,
            verbs: 0,
        })?;
    }
    Ok(units)
}

/// So many terminals of which nothing has arrived.
fn feeding_terminals(alloc: Global, count: usize) -> Result<Vec<TerminalState>, AllocError>
    ensures { IfOk result (λ terminals. terminals.items ≡ replicate count opening_terminal) }
{
    let mut terminals = Vec::new(alloc);
    for _ in 0..count {
        terminals.push(TerminalState {
            mode: TerminalMode::Feeding,
            arrivals: 0,
        })?;
    }
    Ok(terminals)
}
