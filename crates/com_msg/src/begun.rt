//! Building a message to a terminal, text by text.
ghost use Rattle.std.specs.Prelude.{◌≡◌, ◌↔◌, ◌+◌, ◌≤◌, [], length, IsTrue, IsOk, IfOk, OnOk, OnErr};
ghost use Rattle.com_text.specs.Text.{IsText};
ghost use Rattle.com_msg.specs.Begun.{ended, finished, nothing_begun, with_text};

use crate::{Advance, End, OutMessage, OutSegment, Segments};
use com_text::Text;
use std::alloc::{AllocError, Global};
use std::marker::Model;
use std::mem;

/// A message to a terminal that has not ended. Contracts see what is begun of it, which is its
/// segments and the text after them, and how many more characters and segments it takes without
/// asking for memory.
#[derive(Debug, Drop)]
pub struct Open {
    segments: Vec<OutSegment>,
    text: Vec<u8>,
}

impl Model for Open {
    ghost use Rattle.std.specs.Prelude.{◌-◌, vec_len, vec_capacity};
    ghost use Rattle.com_text.specs.Text.{IsText};
    ghost use Rattle.com_msg.specs.Begun.{OpenMessage};

    ghost Value = { OpenMessage };

    ghost view = { λ message. record {
      begun = record { segments = message.segments.items; text = message.text.items };
      spare_bytes = vec_capacity message.text - vec_len message.text;
      spare_segments = vec_capacity message.segments - vec_len message.segments;
    } };

    ghost invariant = { λ message. IsText message.text.items };
}

impl Open {
    /// Returns a message of which nothing is begun.
    pub fn new(alloc: Global) -> Open
        ensures { result.begun ≡ nothing_begun }
    {
        Open {
            segments: Vec::new(alloc),
            text: Vec::new(alloc),
        }
    }

    /// Returns whether nothing is begun.
    pub fn is_empty(&self) -> bool
        ensures { IsTrue result ↔ (self.now.begun ≡ nothing_begun) }
    {
        self.segments.is_empty() && self.text.is_empty()
    }

    /// Makes room for `more` characters and for one more segment, and changes nothing else; it
    /// never takes room away. Fails only if memory runs out.
    pub fn room(&mut self, more: usize) -> Result<(), AllocError>
        ensures begun { self.new.begun ≡ self.old.begun }

        // What it makes spare, and that it lowers neither number.
        ensures bytes { OnOk result (more ≤ self.new.spare_bytes) }
        ensures segment { OnOk result (1 ≤ self.new.spare_segments) }
        ensures bytes_kept { self.old.spare_bytes ≤ self.new.spare_bytes }
        ensures segments_kept { self.old.spare_segments ≤ self.new.spare_segments }
    {
        self.text.reserve(more)?;
        self.segments.reserve(1)
    }

    /// Adds characters to the text. If memory runs out, nothing changes, and within the spare bytes
    /// it takes none.
    pub fn add(&mut self, bytes: &[u8]) -> Result<(), AllocError>
        requires { IsText bytes.now }
        ensures ok { OnOk result (self.new.begun ≡ with_text bytes.now self.old.begun) }
        ensures err { OnErr result (self.new.begun ≡ self.old.begun) }

        // The room that it needs and leaves.
        ensures fits { length bytes.now ≤ self.old.spare_bytes → IsOk result }
        ensures bytes_left { self.old.spare_bytes ≤ self.new.spare_bytes + length bytes.now }
        ensures segments_left { self.new.spare_segments ≡ self.old.spare_segments }
    {
        self.text.extend_from_slice(bytes)
    }

    /// Ends the segment, which is written with this advance; without text it is empty. Without
    /// memory nothing changes, and with a spare segment it takes none.
    pub fn end_segment(&mut self, advance: Advance) -> Result<(), AllocError>
        ensures ok { OnOk result (self.new.begun ≡ ended advance self.old.begun) }
        ensures err { OnErr result (self.new.begun ≡ self.old.begun) }
        ensures fits { 1 ≤ self.old.spare_segments → IsOk result }
    {
        self.segments.reserve(1)?;
        let text = self.take_text();
        self.segments.push(OutSegment { text, advance }).unwrap();
        Ok(())
    }

    /// Ends the segment and the message, and gives the message; then nothing is begun. Without
    /// memory nothing changes, and with a spare segment it takes none.
    pub fn finish(&mut self, advance: Advance, end: End) -> Result<OutMessage, AllocError>
        ensures message { IfOk result (λ message. message ≡ finished advance end self.old.begun) }
        ensures left { OnOk result (self.new.begun ≡ nothing_begun) }
        ensures err { OnErr result (self.new.begun ≡ self.old.begun) }
        ensures fits { 1 ≤ self.old.spare_segments → IsOk result }
    {
        self.end_segment(advance)?;
        let alloc = *self.segments.allocator();
        let segments = mem::replace(&mut self.segments, Vec::new(alloc));
        Ok(OutMessage {
            segments: Segments::of_vec(segments),
            end,
        })
    }

    /// Takes the text out.
    fn take_text(&mut self) -> Text
        ensures text { result ≡ self.old.begun.text }
        ensures segments { self.new.begun.segments ≡ self.old.begun.segments }
        ensures none { self.new.begun.text ≡ [] }
        ensures spare { self.new.spare_segments ≡ self.old.spare_segments }
    {
        let alloc = *self.text.allocator();
        Text::of_vec(mem::replace(&mut self.text, Vec::new(alloc)))
    }
}
