//! One destination: what is begun, queued and transmitted there.
ghost use Rattle.std.specs.Prelude.{◌≡◌, ◌<◌, [], length, IsTrue, IfOk, OnOk, replicate, map, vec_len, vec_capacity};
ghost use Rattle.com_text.specs.Text.{IsText};
ghost use Rattle.com_msg.specs.Begun.{nothing_begun};
ghost use Rattle.com_send.specs.Outgoing.{with_begun};
ghost use Rattle.com_send.specs.Sending.{deliver, serve};
ghost use Rattle.com_send.specs.Switching.{switch};
ghost use Rattle.com_send.specs.Kept.{state_of, whole_message, CanTransmit, HasPlace, HasRoom, HasSpare, IsReady, IsSentPart};

use com_msg::{End, Open, OutMessage, Part, SharedMessage};
use std::alloc::{AllocError, Global};

/// What a SEND brings to each destination that it names.
#[derive(Drop)]
pub struct SentPart<'a> {
    pub part: Part,
    /// The characters that are added.
    pub text: &'a [u8],
    /// The message of this text alone, where the part ends a message.
    pub whole: Option<SharedMessage>,
}

/// What goes to one destination.
#[derive(Debug, Drop)]
pub struct Output {
    /// Whether it is enabled.
    pub on: bool,
    /// What each unit has begun to send.
    pub begun: Vec<Open>,
    /// Finished while it was disabled, in order.
    pub queued: Vec<OutMessage>,
    /// Transmitted, in order.
    pub sent: Vec<OutMessage>,
    /// The message that is served next, where it is one that other destinations are sent, too.
    pub ready: Option<OutMessage>,
}

impl Output {
    /// Returns an output to which `units` units have sent nothing.
    pub fn new(alloc: Global, on: bool, units: u32) -> Result<Output, AllocError>
        ensures { IfOk result (λ output. state_of output ≡ record {
          on = on;
          begun = replicate units nothing_begun;
          queued = [];
          sent = [];
        }) }
    {
        Ok(Output {
            on,
            begun: nothing_begun(alloc, units)?,
            queued: Vec::new(alloc),
            sent: Vec::new(alloc),
            ready: None,
        })
    }

    /// Makes room for what a part makes of its text. If memory runs out, nothing that is seen
    /// changes.
    pub fn room(&mut self, unit: u32, sent_part: &SentPart<'_>) -> Result<(), AllocError>
        requires known { unit < length self.old.begun.items }
        requires part { IsSentPart sent_part.now }
        ensures state { state_of self.new ≡ state_of self.old }
        ensures room { OnOk result
            (HasRoom unit sent_part.now.part sent_part.now.text.now self.new) }
    {
        self.queued.reserve(1)?;
        self.sent.reserve(1)?;
        self.ready = ready_message(&mut self.begun[unit as usize], sent_part)?;
        Ok(())
    }

    /// Adds the text of a part to what the unit has begun, and ends what the part ends.
    pub fn serve(&mut self, unit: u32, sent_part: &SentPart<'_>)
        requires part { IsSentPart sent_part.now }
        requires room { HasRoom unit sent_part.now.part sent_part.now.text.now self.old }
        ensures { state_of self.new
            ≡ serve unit sent_part.now.part sent_part.now.text.now (state_of self.old) }
    {
        match self.ready.take() {
            Some(message) => self.deliver(message),
            None => self.go_on(unit, sent_part.part, sent_part.text),
        }
    }

    /// Goes on from what the unit has begun.
    fn go_on(&mut self, unit: u32, part: Part, text: &[u8])
        requires text { IsText text.now }
        requires spare { HasSpare unit (length text.now) self.old }
        requires place { HasPlace self.old }
        ensures { state_of self.new ≡ serve unit part text.now (state_of self.old) }
    {
        let begun = &mut self.begun[unit as usize];
        begun.add(text).unwrap();
        match part {
            Part::Portion => {}
            Part::Esi(advance) => begun.end_segment(advance).unwrap(),
            Part::Emi(advance) => {
                let message = begun.finish(advance, End::Emi).unwrap();
                self.deliver(message);
            }
            Part::Egi(advance) => {
                let message = begun.finish(advance, End::Egi).unwrap();
                self.deliver(message);
            }
        }
    }

    /// Delivers a finished message: it is transmitted if the output is enabled, and
    /// otherwise queued.
    fn deliver(&mut self, message: OutMessage)
        requires { HasPlace self.old }
        ensures { state_of self.new ≡ deliver message (state_of self.old) }
    {
        if self.on {
            self.sent.push(message).unwrap();
        } else {
            self.queued.push(message).unwrap();
        }
    }

    /// Makes room to transmit all that is queued.
    pub fn room_to_transmit(&mut self) -> Result<(), AllocError>
        ensures state { state_of self.new ≡ state_of self.old }
        ensures room { OnOk result (CanTransmit self.new) }
    {
        self.sent.reserve(self.queued.len())
    }

    /// Enables the output, which transmits what is queued, or disables it.
    pub fn switch(&mut self, on: bool)
        requires { IsTrue on → CanTransmit self.old }
        ensures { state_of self.new ≡ switch on (state_of self.old) }
    {
        self.on = on;
        if on {
            self.sent.append(&mut self.queued).unwrap();
        }
    }

    /// Drops what a unit has begun.
    pub fn drop_unit(&mut self, unit: u32)
        requires { unit < length self.old.begun.items }
        ensures { state_of self.new ≡ with_begun unit nothing_begun (state_of self.old) }
    {
        let alloc = *self.begun.allocator();
        self.begun[unit as usize] = Open::new(alloc);
    }
}

/// Makes the whole message, for a destination to which nothing is begun. Else there is room for the
/// text and for a segment.
fn ready_message(
    begun: &mut Open,
    sent_part: &SentPart<'_>,
) -> Result<Option<OutMessage>, AllocError>
    requires { IsSentPart sent_part.now }
    ensures begun { begun.new.begun ≡ begun.old.begun }
    ensures ready { IfOk result (λ ready.
        IsReady sent_part.now.part sent_part.now.text.now ready begun.new) }
{
    match &sent_part.whole {
        Some(whole) if begun.is_empty() => Ok(Some(whole.message()?)),
        _ => {
            begun.room(sent_part.text.len())?;
            Ok(None)
        }
    }
}

/// Returns the message of a text alone, where the part ends a message.
pub fn whole_message(
    alloc: Global,
    part: Part,
    text: &[u8],
) -> Result<Option<SharedMessage>, AllocError>
    requires { IsText text.now }
    ensures { IfOk result (λ whole. whole ≡ whole_message part text.now) }
{
    let (advance, end) = match part {
        Part::Portion | Part::Esi(_) => return Ok(None),
        Part::Emi(advance) => (advance, End::Emi),
        Part::Egi(advance) => (advance, End::Egi),
    };
    let whole = SharedMessage::new(alloc, text, advance, end)?;
    Ok(Some(whole))
}

/// Returns what so many units have begun that have sent nothing.
fn nothing_begun(alloc: Global, units: u32) -> Result<Vec<Open>, AllocError>
    ensures { IfOk result (λ begun. map (λ message. message.begun) begun.items
        ≡ replicate units nothing_begun) }
{
    let mut begun = Vec::new(alloc);
    for _ in 0..units {
        begun.push(Open::new(alloc))?;
    }
    Ok(begun)
}
