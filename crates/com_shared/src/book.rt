//! The system's state, and the log of what was done.
ghost use Rattle.std.specs.Prelude.{◌≡◌, ◌<◌, length, [], IfOk, is_some};
ghost use Rattle.com_state.specs.State.{opening};
ghost use Rattle.com_state.specs.Steps.{step, is_idle};
ghost use Rattle.com_shared.specs.Parties.{parties, party_at};
ghost use Rattle.com_shared.specs.Passes.{Log, IsKept};

use crate::commit::party_at;
use com_events::{Call, Entry};
use com_net::Net;
use com_state::State;
use com_turn::Logged;
use std::alloc::{AllocError, Global};
use std::marker::Model;

/// A state of the system, and the history that led to it.
#[derive(Drop)]
pub struct Book {
    pub(crate) net: Net,
    pub(crate) state: State,
    pub(crate) entries: Vec<Entry>,
    /// The number of each entry's party.
    pub(crate) owners: Vec<u32>,
}

impl Model for Book {
    ghost use Rattle.std.specs.Prelude.{◌≡◌, length};
    ghost use Rattle.std.specs.List.{zip};
    ghost use Rattle.com_shared.specs.Passes.{Log, IsKept};

    ghost Value = { Log };

    ghost view = { λ b. record {
      net = b.net;
      state = b.state;
      items = zip b.owners.items b.entries.items;
    } };

    ghost invariant = { λ b. (length b.owners.items ≡ length b.entries.items)
        × IsKept (record {
          net = b.net;
          state = b.state;
          items = zip b.owners.items b.entries.items;
        }) };
}

impl Logged for Book {
    ghost use Rattle.com_shared.specs.Passes.{Log};

    type Item = (u32, Entry);

    type Base = Net;

    ghost log = { λ b. b.items };

    ghost base = { λ b. b.net };

    ghost owner = { λ item. item.0 };
}

impl Book {
    pub(crate) fn open(net: &Net) -> Result<Book, AllocError>
        ensures { IfOk result (λ book. book ≡ record {
          net = net.now;
          state = opening net.now;
          items = [];
        }) }
    {
        let alloc = net.terminals.allocator();
        Ok(Book {
            net: net.copy()?,
            state: State::open(net)?,
            entries: Vec::new(alloc),
            owners: Vec::new(alloc),
        })
    }

    /// Does nothing. It tells what every book keeps.
    pub(crate) fn tell(&self)
        ensures { IsKept self.now }
    {
        let _ = self.entries.len();
    }

    /// Whether the party with this number may make a call.
    pub(crate) fn may(&self, number: u32, call: &Call) -> bool
        requires { number < parties self.now.net }
        ensures { result ≡ is_some (step self.now.state (party_at self.now.net number) call.now) }
    {
        self.state.may(&party_at(&self.net, number), call)
    }

    /// Whether nothing can happen any more.
    pub(crate) fn idle(&self) -> bool
        ensures { result ≡ is_idle self.now.state }
    {
        self.state.idle()
    }

    /// How many entries there are.
    pub(crate) fn len(&self) -> u64
        ensures { result ≡ length self.now.items }
    {
        self.entries.len() as u64
    }
}
