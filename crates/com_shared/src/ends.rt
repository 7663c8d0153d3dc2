//! The beginning and the end of a shared system.
ghost use Rattle.std.specs.Prelude.{◌≡◌, ℕ, ◌<◌, ◌^◌, length, Some, slice_get, IfOk, IfErr};
ghost use Rattle.com_shared.specs.Parties.{parties, entries};
ghost use Rattle.com_shared.specs.Passes.{PassOf, IsKept, IsNew, MayAllClose, IsWholeHistory, IsIn};

use crate::book::Book;
use crate::shared::{Pass, Shared};
use com_events::Entry;
use com_net::Net;
use com_state::State;
use com_text::Rows;
use com_turn::{CloseRefused, Turn};
use std::alloc::AllocError;
use std::snapshot::Snapshot;
use std::sync::atomic::AtomicU64;

impl Book {
    fn into_parts(self) -> (State, Rows<Entry>)
        ensures kept { IsKept self }
        ensures parts { (result.0 ≡ self.state) × (result.1 ≡ entries self.items) }
    {
        let Book {
            net,
            state,
            entries,
            owners,
        } = self;
        drop(net);
        drop(owners);
        (state, Rows::of_vec(entries))
    }
}

/// How many parties a network has.
fn party_count(net: &Net) -> u32
    ensures count { result ≡ parties net.now }
    ensures some { 0 < result }
{
    net.units.len() as u32 + net.terminals.len() as u32
}

impl Shared {
    /// A system in which nothing has happened, and a pass for each party: the units in the network's
    /// order, and then the terminals. The only error is want of memory.
    pub fn open(net: &Net) -> Result<(Shared, Vec<Pass>), AllocError>
        ensures net { IfOk result (λ opened. opened.0.net ≡ net.now) }
        ensures many { IfOk result (λ opened. length opened.1.items ≡ parties net.now) }
        ensures new { IfOk result (λ opened. (k : ℕ) (pass : PassOf) →
            slice_get opened.1.items k ≡ Some pass → IsNew opened.0 k pass) }
    {
        let book = Book::open(net)?;
        let alloc = net.terminals.allocator();
        match Turn::open(alloc, book, party_count(net)) {
            Ok((turn, passes)) => Ok((
                Shared {
                    turn,
                    net: Snapshot::of(net),
                    bell: AtomicU64::new(0),
                },
                passes,
            )),
            Err((_, error)) => Err(error),
        }
    }

    /// The last state and the whole history, for all passes in the order of their numbers. Without
    /// memory nothing changes.
    pub fn close(self, passes: Vec<Pass>) -> Result<(State, Rows<Entry>), (Shared, Vec<Pass>)>
        requires many { length passes.items ≡ parties self.net }
        requires all { MayAllClose self passes.items }
        ensures history { IfOk result (λ closed. IsWholeHistory self.net closed.1 closed.0) }
        ensures passes { IfOk result (λ closed. (k : ℕ) (pass : PassOf) →
            slice_get passes.items k ≡ Some pass → IsIn self.net closed.1 pass) }
        ensures err { IfErr result (λ refused. (refused.0 ≡ self)
            × (refused.1.items ≡ passes.items)) }
    {
        let Shared { turn, net, bell } = self;
        match turn.close(passes) {
            Ok(book) => Ok(book.into_parts()),
            Err(CloseRefused { turn, passes }) => Err((Shared { turn, net, bell }, passes)),
        }
    }
}
