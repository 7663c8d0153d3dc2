//! Messages as they come from terminals.
ghost use Rattle.std.specs.Prelude.{◌≡◌, ◌↔◌, ◌≤◌, All, IfOk, IsTrue, length};
ghost use Rattle.com_msg.specs.Limits.{IsWithinLimits};

use crate::{Stamp, is_longer};
use com_text::{Name, Rows, Text};
use std::alloc::AllocError;

/// How many segments a message from a terminal has at most.
pub const MAX_SEGMENTS: usize = 9_999;

/// How many characters a segment of a message from a terminal has at most.
pub const MAX_SEGMENT_LENGTH: usize = 2_000;

/// How many characters a message from a terminal has at most, in all its segments together.
pub const MAX_MESSAGE_LENGTH: usize = 9_999;

/// How a message ends: EMI ends the message, EGI the message and a group of messages.
#[derive(Clone, Copy, Debug, PartialEq, Eq)]
pub enum End {
    /// The end of the message.
    Emi,
    /// The end of the message and of its group.
    Egi,
}

/// A message as a terminal's framing finds it: one or more segments and the end.
#[derive(Debug, Drop)]
pub struct RawMessage {
    /// The characters of each segment.
    pub segments: Rows<Text>,
    /// How it ends.
    pub end: End,
}

/// A message that has arrived.
#[derive(Debug, Drop)]
pub struct Message {
    /// The terminal that it came from.
    pub source: Name,
    /// Its number among all arrivals, from 1.
    pub arrival: u64,
    /// When it was recognised as whole.
    pub stamp: Stamp,
    /// The characters of each segment.
    pub segments: Rows<Text>,
    /// How it ends.
    pub end: End,
}

impl RawMessage {
    /// Returns an equal message. Fails only if memory runs out.
    pub fn copy(&self) -> Result<RawMessage, AllocError>
        ensures { IfOk result (λ message. message ≡ self.now) }
    {
        Ok(RawMessage {
            segments: copy_texts(&self.segments)?,
            end: self.end,
        })
    }

    /// Returns whether the message has a segment and is within the limits of a message from a
    /// terminal: [`MAX_SEGMENTS`], [`MAX_SEGMENT_LENGTH`] and [`MAX_MESSAGE_LENGTH`].
    pub fn is_within_limits(&self) -> bool
        ensures { IsTrue result ↔ IsWithinLimits self.now }
    {
        let segments = self.segments.as_slice();
        let few = !segments.is_empty() && segments.len() <= MAX_SEGMENTS;
        few && are_short(segments) && !is_longer(segments, MAX_MESSAGE_LENGTH)
    }
}

/// Returns whether each segment is within the limit.
fn are_short(segments: &[Text]) -> bool
    ensures { IsTrue result ↔ All (λ segment. length segment ≤ MAX_SEGMENT_LENGTH) segments.now }
{
    segments
        .iter()
        .all(|segment| segment.as_bytes().len() <= MAX_SEGMENT_LENGTH)
}

/// Equal texts in the same order.
fn copy_texts(texts: &Rows<Text>) -> Result<Rows<Text>, AllocError>
    ensures { IfOk result (λ copies. copies ≡ texts.now) }
{
    let mut copies = Rows::new(texts.allocator());
    for text in texts.as_slice() {
        copies.push(text.copy()?).map_err(|(_, error)| error)?;
    }
    Ok(copies)
}
