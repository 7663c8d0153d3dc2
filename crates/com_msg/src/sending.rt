//! Messages as they go to terminals.
ghost use Rattle.std.specs.Prelude.{◌↔◌, IsTrue};
ghost use Rattle.com_msg.specs.Rendering.{IsAdvance, IsRenderable};

use crate::{End, Segments};
use com_text::Text;

/// How many lines a terminal advances at most.
pub const MAX_LINES: u8 = 99;

/// How many characters the item of a SEND has at most.
pub const MAX_ITEM_LENGTH: usize = 2_000;

/// How far a terminal advances, and whether before or after a text.
#[derive(Clone, Copy, Debug, PartialEq, Eq)]
pub enum Advance {
    /// The text comes before that many line feeds, 0 to 99.
    Before(u8),
    /// The text comes after that many line feeds, 0 to 99.
    After(u8),
    /// The text stands before a form feed.
    BeforePage,
    /// The text stands after a form feed.
    AfterPage,
}

impl Advance {
    /// Returns whether it is by [`MAX_LINES`] lines at most, or to a page.
    pub fn is_within_limits(self) -> bool
        ensures { IsTrue result ↔ IsAdvance self }
    {
        match self {
            Advance::Before(lines) | Advance::After(lines) => lines <= MAX_LINES,
            Advance::BeforePage | Advance::AfterPage => true,
        }
    }
}

/// What the text of a SEND is a part of, and what it ends.
#[derive(Clone, Copy, Debug, PartialEq, Eq)]
pub enum Part {
    /// A portion of a segment that goes on: no indicator follows it.
    Portion,
    /// It ends a segment, which is written with this advance.
    Esi(Advance),
    /// It ends a segment, written with this advance, and the message.
    Emi(Advance),
    /// It ends a segment, written with this advance, the message and its group.
    Egi(Advance),
}

/// A segment of a message to a terminal.
#[derive(Debug, Drop)]
pub struct OutSegment {
    /// Its characters.
    pub text: Text,
    /// How the terminal advances at it.
    pub advance: Advance,
}

/// A message to a terminal: one or more segments and the end.
#[derive(Debug, Drop)]
pub struct OutMessage {
    /// Its segments, in order.
    pub segments: Segments,
    /// How it ends.
    pub end: End,
}

impl OutMessage {
    /// Returns whether a terminal can be sent it: each of its advances is within the limits.
    pub fn is_renderable(&self) -> bool
        ensures { IsTrue result ↔ IsRenderable self.now }
    {
        let segments = self.segments.as_slice();
        segments
            .iter()
            .all(|segment| segment.advance.is_within_limits())
    }
}
