//! How an entry is made in a turn.
ghost use Rattle.std.specs.Prelude.{◌≡◌, ◌<◌, ◌≤◌, ℕ, length, [], true, false, Some, is_some, IsTrue, IfOk, OnOk, OnErr, MatchResult, vec_len, vec_capacity};
ghost use Rattle.com_events.specs.Calls.{IsWellFormed, IsReplyTo};
ghost use Rattle.com_state.specs.Steps.{step};
ghost use Rattle.com_shared.specs.Parties.{parties, party_at};
ghost use Rattle.com_shared.specs.Passes.{IsPass};
ghost use Rattle.com_shared.specs.inner.Turns.{IsAtTurn, Makes, HasSettled, HasGivenBack, IsSetActive, Rests};
ghost use Rattle.com_shared.specs.inner.Copies.{text_in, size_of};

use crate::book::Book;
use crate::shared::{Pass, Shared};
use com_events::{Call, Entry, Party, Reply};
use com_net::Net;
use com_state::State;
use com_text::Text;
use std::alloc::{AllocError, Global};
use std::sync::atomic::Ordering;

/// The party with a number.
pub(crate) fn party_at(net: &Net, number: u32) -> Party
    requires { number < parties net.now }
    ensures { result ≡ party_at net.now number }
{
    let number = number as usize;
    let units = net.units.len();
    if number < units {
        Party::Unit(net.units.as_slice()[number].name)
    } else {
        Party::Terminal(net.terminals.as_slice()[number - units].name)
    }
}

/// Room for the text that a call may be given.
fn room_for(alloc: Global, call: &Call) -> Result<Vec<u8>, AllocError>
    ensures { IfOk result (λ room. (room.items ≡ []) × (size_of call.now ≤ vec_capacity room)) }
{
    match call {
        Call::Receive { size, .. } => Vec::with_capacity(alloc, *size as usize),
        Call::Start
        | Call::Count { .. }
        | Call::Send { .. }
        | Call::SwitchInput { .. }
        | Call::SwitchOutput { .. }
        | Call::Arrive { .. }
        | Call::Held
        | Call::Stop { .. }
        | Call::Finish { .. } => Ok(Vec::new(alloc)),
    }
}

/// A text of the same characters, in room that is there.
fn text_in_room(text: &Text, room: Vec<u8>) -> Text
    requires empty { room.items ≡ [] }
    requires room { length text.now ≤ vec_capacity room }
    ensures { result ≡ text.now }
{
    let mut room = room;
    match room.extend_from_slice(text.as_bytes()) {
        Ok(()) => Text::of_vec(room),
        Err(_) => unreachable!(),
    }
}

/// The same reply once more, its text in room that is there.
fn copy_of(reply: &Reply, room: Vec<u8>) -> Reply
    requires empty { room.items ≡ [] }
    requires room { length (text_in reply.now) ≤ vec_capacity room }
    ensures { result ≡ reply.now }
{
    match reply {
        Reply::Started { names } => Reply::Started { names: *names },
        Reply::Given { area, text } => Reply::Given {
            area: *area,
            text: text_in_room(text, room),
        },
        Reply::NoData { area } => Reply::NoData { area: *area },
        Reply::Refused { area } => Reply::Refused { area: *area },
        Reply::Waits => Reply::Waits,
        Reply::AreaIn { area } => Reply::AreaIn { area: *area },
        Reply::AreaOut { area } => Reply::AreaOut { area: *area },
        Reply::Arrived { number } => Reply::Arrived { number: *number },
        Reply::Done => Reply::Done,
    }
}

/// Does a call, and answers its reply twice: for the entry and for the caller. There is room for the
/// entry then. Without memory nothing changes.
#[tactic(auto, using(crate::proofs::Copying::fits))]
fn advance(
    state: &mut State,
    entries: &mut Vec<Entry>,
    owners: &mut Vec<u32>,
    party: &Party,
    call: &Call,
) -> Result<(Reply, Reply), AllocError>
    requires may { IsTrue (is_some (step state.old party.now call.now)) }
    requires call { IsWellFormed call.now }
    ensures step { IfOk result (λ replies. step state.old party.now call.now
        ≡ Some (replies.0, state.new)) }
    ensures reply { IfOk result (λ replies. IsReplyTo call.now replies.0) }
    ensures same { IfOk result (λ replies. replies.1 ≡ replies.0) }
    ensures entries { entries.new.items ≡ entries.old.items }
    ensures owners { owners.new.items ≡ owners.old.items }
    ensures entry_room { OnOk result (vec_len entries.new < vec_capacity entries.new) }
    ensures owner_room { OnOk result (vec_len owners.new < vec_capacity owners.new) }
    ensures err { OnErr result (state.new ≡ state.old) }
{
    let room = room_for(*entries.allocator(), call)?;
    entries.reserve(1)?;
    owners.reserve(1)?;
    let reply = state.apply(party, call)?;
    let told = copy_of(&reply, room);
    Ok((reply, told))
}

impl Shared {
    /// Makes an entry. Without memory nothing changes, and the call comes back.
    fn make(
        &self,
        pass: &mut Pass,
        book: &mut Book,
        call: Call,
    ) -> Result<Reply, (Call, AllocError)>
        requires turn { IsAtTurn self.now pass.old book.old }
        requires allowed { IsTrue (is_some (step book.old.state
            (party_at book.old.net pass.old.number) call)) }
        requires call { IsWellFormed call }
        ensures turn { IsAtTurn self.now pass.new book.new }
        ensures made { MatchResult result
            (λ reply. Makes book.old pass.old call reply pass.new book.new)
            (λ refused. (refused.0 ≡ call) × (pass.new ≡ pass.old) × (book.new ≡ book.old)) }
    {
        let number = pass.number();
        let party = party_at(&book.net, number);
        let (reply, told) = match advance(
            &mut book.state,
            &mut book.entries,
            &mut book.owners,
            &party,
            &call,
        ) {
            Ok(replies) => replies,
            Err(error) => return Err((call, error)),
        };
        let item = (number, Entry { party, call, reply });
        self.turn.commit(pass, &item);
        let (owner, entry) = item;
        book.owners.push_reserved(owner);
        book.entries.push_reserved(entry);
        Ok(told)
    }

    /// The pass becomes active, if it is to be.
    pub(crate) fn reenter(&self, pass: &mut Pass, active: bool)
        requires turn { pass.old.turn ≡ self.now.turn }
        requires at_turn { pass.old.at_turn ≡ true }
        requires was { pass.old.active ≡ true → active ≡ true }
        ensures { IsSetActive pass.old active pass.new }
    {
        if !active {
            return;
        }
        if pass.is_active() {
            return;
        }
        self.turn.enter(pass);
    }

    /// Makes an entry, gives the turn back and wakes those that wait. The pass is active where it is
    /// to be. Without memory the call comes back, and the turn is given back all the same.
    #[tactic(auto, using(crate::proofs::Turning::still_turn))]
    pub(crate) fn settle(
        &self,
        pass: &mut Pass,
        book: Book,
        call: Call,
        active: bool,
    ) -> Result<Reply, (Call, AllocError)>
        requires turn { IsAtTurn self.now pass.old book }
        requires allowed { IsTrue (is_some (step book.state (party_at book.net pass.old.number)
            call)) }
        requires call { IsWellFormed call }
        requires was { pass.old.active ≡ true → active ≡ true }
        ensures pass { IsPass self.now pass.new }
        ensures settled { MatchResult result
            (λ reply. HasSettled book pass.old call active reply pass.new)
            (λ refused. (refused.0 ≡ call) × HasGivenBack pass.old active pass.new) }
    {
        let mut book = book;
        let made = self.make(pass, &mut book, call);
        self.reenter(pass, active);
        self.finish(pass, book);
        self.ring();
        made
    }

    /// The pass becomes inactive, if it is not.
    fn retire(&self, pass: &mut Pass)
        requires turn { pass.old.turn ≡ self.now.turn }
        requires at_turn { pass.old.at_turn ≡ true }
        ensures { IsSetActive pass.old false pass.new }
    {
        if !pass.is_active() {
            return;
        }
        self.turn.leave(pass);
    }

    /// The party waits: it is inactive, and the turn is given back. Some: until the bell is no longer
    /// at this number. None: nobody is active.
    #[tactic(auto, using(crate::proofs::Making::resting))]
    pub(crate) fn rest(&self, pass: &mut Pass, book: Book) -> Option<u64>
        requires { IsAtTurn self.now pass.old book }
        ensures pass { IsPass self.now pass.new }
        ensures rests { Rests pass.old result pass.new }
    {
        self.retire(pass);
        if self.turn.active(pass) == 0 {
            self.finish(pass, book);
            self.ring();
            return None;
        }
        let rung = self.bell.load(Ordering::SeqCst);
        self.finish(pass, book);
        Some(rung)
    }
}
