//! A run so far: the system, and what is kept of its history.
ghost use Rattle.std.specs.Prelude.{◌≡◌, ◌++◌, ◌<◌, ◌^◌, IfOk, OnOk};
ghost use Rattle.com_events.specs.Calls.{HasText};
ghost use Rattle.com_journal.specs.Journals.{IsJournal};
ghost use Rattle.com_journal.specs.Lines.{IsCallText};
ghost use Rattle.com_state.specs.State.{opening};
ghost use Rattle.mcs_top.specs.Histories.{is_arrival, is_portion, verdict_of};
ghost use Rattle.mcs_top.specs.Running.{is_last_call, Adds, HasNothing};

use crate::ends::{Verdict, verdict_of};
use com_events::{Call, Entry, Reply};
use com_journal::{write, write_entry};
use com_net::Net;
use com_state::State;
use com_text::Rows;
use std::alloc::{AllocError, Global};

/// The system, and what is kept of the entries of its history, of which the journal has the lines.
#[derive(Debug, Drop)]
pub struct Run {
    pub state: State,
    pub journal: Rows<u8>,
    /// The entries that stop a unit or end a terminal.
    pub ends: Rows<Entry>,
    /// How many messages arrived.
    pub arrivals: u64,
    /// How many portions were given.
    pub portions: u64,
}

impl Run {
    /// The run without an entry.
    pub fn new(alloc: Global, net: &Net) -> Result<Run, AllocError>
        ensures { IfOk result (HasNothing net.now) }
    {
        Ok(Run {
            state: State::open(net)?,
            journal: write(alloc, &[])?,
            ends: Rows::new(alloc),
            arrivals: 0,
            portions: 0,
        })
    }

    /// Adds an entry, whose call has this text, to what is kept of the history.
    pub fn add(&mut self, call: &[u8], entry: Entry) -> Result<(), AllocError>
        requires text { HasText entry }
        requires call { IsCallText entry.party entry.call call.now }
        requires arrivals { self.old.arrivals < 2 ^ 63 }
        requires portions { self.old.portions < 2 ^ 63 }
        ensures state { OnOk result (self.new.state ≡ self.old.state) }
        ensures added { OnOk result (Adds entry self.old self.new) }
    {
        write_entry(call, &entry, &mut self.journal)?;
        if is_arrival(&entry.call) {
            self.arrivals += 1;
        }
        if is_portion(&entry.reply) {
            self.portions += 1;
        }
        if is_last_call(&entry.call) {
            self.ends.push(entry).map_err(|(_, error)| error)?;
        }
        Ok(())
    }

    /// How the inputs of the history ended.
    pub fn verdict(&self) -> Verdict
        ensures { result ≡ verdict_of self.now.ends }
    {
        verdict_of(self.ends.as_slice())
    }
}

fn is_arrival(call: &Call) -> bool
    ensures { result ≡ is_arrival call.now }
{
    matches!(call, Call::Arrive { .. })
}

fn is_portion(reply: &Reply) -> bool
    ensures { result ≡ is_portion reply.now }
{
    matches!(reply, Reply::Given { .. })
}

/// Whether the call stops a unit or ends a terminal.
fn is_last_call(call: &Call) -> bool
    ensures { result ≡ is_last_call call.now }
{
    matches!(call, Call::Stop { .. } | Call::Finish { .. })
}
