//! Reading a terminal's input byte by byte.
ghost use Rattle.std.specs.Prelude.{◌≡◌, ◌+◌, ◌<◌, ◌≤◌, ◌≢◌, ◌^◌, [], ◌∷◌, ◌++◌, IfOk, IfSome, IfNone, IsNone, IsTrue, None, OnErr, OnOk, Err, Some, length, take, true};
ghost use Rattle.com_text.specs.Text.{IsText, is_text_byte};
ghost use Rattle.com_lines.specs.Bytes.{is_between, is_ending, is_skipped};
ghost use Rattle.com_lines.specs.Faults.{is_bad_byte, is_long_message, is_long_segment, is_too_many};
ghost use Rattle.com_lines.specs.inner.Readings.{end_of, has_open, CanEnd, HasRead, IsContinued, IsCutOff, IsFaulty, IsWhole, IsNext, IsSafe, IsStop, holds_return, next_kind, open_message, with_byte, with_character, with_message, with_segment};

use crate::encoding::{BETWEEN, GROUP_END, LINE_FEED, MESSAGE_END};
use com_msg::{
    End, FrameFault, FrameKind, Framing, MAX_MESSAGE_LENGTH, MAX_SEGMENT_LENGTH, MAX_SEGMENTS,
    RawMessage,
};
use com_text::{Rows, Text, is_text_byte};
use std::alloc::{AllocError, Global};
use std::mem;
use thiserror::Error;

/// Why a framer gives no more messages.
#[derive(Clone, Copy, Debug, PartialEq, Eq, Error)]
pub enum FeedError {
    /// The bytes are at fault.
    #[error("the byte at {} is at fault: {:?}", .0.at, .0.kind)]
    Fault(FrameFault),
    /// Memory ran out.
    #[error("memory ran out")]
    Memory(AllocError),
}

impl From<AllocError> for FeedError {
    ghost use Rattle.std.specs.Prelude.{◌≡◌};
    ghost use Rattle.com_lines.specs.declared.reading.FeedError.TheVariants.{Memory};

    ghost from_gives = { λ error gives. gives ≡ Memory error };

    fn from(error: AllocError) -> FeedError {
        FeedError::Memory(error)
    }
}

/// How many messages the input of a terminal has at most.
pub const MAX_MESSAGES: usize = 65_536;

/// CR, which may stand before LF in lines.
const RETURN: u8 = 0x0D;

/// What is kept of the bytes that were read.
#[derive(Debug, Drop)]
pub(crate) struct Reading {
    framing: Framing,
    /// How many bytes were read.
    at: u64,
    /// the last byte, or 0 if there is none yet.
    last: u8,
    /// How many messages were given.
    given: usize,
    /// How many characters the message has so far.
    characters: usize,
    /// The segments of the message that have ended.
    segments: Rows<Text>,
    /// The characters of the segment so far.
    text: Rows<u8>,
}

impl Reading {
    /// Returns no byte was read.
    pub(crate) fn new(alloc: Global, framing: Framing) -> Reading
        ensures safe { IsSafe result }
        ensures none { HasRead result [] [] }
        ensures framing { result.framing ≡ framing }
    {
        Reading {
            framing,
            at: 0,
            last: 0,
            given: 0,
            characters: 0,
            segments: Rows::new(alloc),
            text: Rows::new(alloc),
        }
    }

    /// Returns whether the last byte is a CR of lines, of which the next byte decides.
    fn holds_return(&self) -> bool
        ensures { result ≡ holds_return self.now }
    {
        match self.framing {
            Framing::Marks => false,
            Framing::Lines => self.last == RETURN,
        }
    }

    /// Returns what is wrong with the byte that comes next. A CR of lines is taken to stand before
    /// an LF.
    fn next_kind(&self, byte: u8) -> Option<FrameKind>
        ensures { result ≡ next_kind self.now byte }
    {
        let betweens = self.segments.len();
        if is_bad_byte(self.framing, self.last, byte) {
            Some(FrameKind::BadByte)
        } else if is_long_segment(self.text.len(), byte) {
            Some(FrameKind::LongSegment)
        } else if is_long_message(self.framing, self.characters, betweens, byte) {
            Some(FrameKind::LongMessage)
        } else if is_too_many(self.framing, self.given, byte) {
            Some(FrameKind::TooMany)
        } else {
            None
        }
    }

    /// Returns the fault that a byte shows which comes next: None where it shows none.
    fn next_fault(&self, byte: u8) -> Option<FrameFault>
        requires safe { IsSafe self.now }
        ensures right { IsNone result → next_kind self.now byte ≡ None }
        ensures behind_return { IsNone result → holds_return self.now ≡ true → byte ≡ 10 }
        ensures fault { IfSome result (λ fault. IsStop self.now byte fault) }
    {
        if self.holds_return() && byte != LINE_FEED {
            return Some(FrameFault {
                at: self.at - 1,
                kind: FrameKind::BadByte,
            });
        }
        match self.next_kind(byte) {
            Some(kind) => Some(FrameFault { at: self.at, kind }),
            None => None,
        }
    }

    /// Reads a piece, and adds the messages that it ends.
    pub(crate) fn feed(
        &mut self,
        piece: &[u8],
        messages: &mut Rows<RawMessage>,
    ) -> Result<(), FeedError>
        requires safe { IsSafe self.old }
        ensures safe { OnOk result (IsSafe self.new) }
        ensures framing { OnOk result (self.new.framing ≡ self.old.framing) }
        ensures continued { OnOk result (IsContinued self.old piece.now messages.old
            self.new messages.new) }
        ensures fault { (fault : FrameFault) → result ≡ Err (FeedError.Fault fault)
            → IsCutOff self.old piece.now messages.old messages.new fault }
        ensures front { take (length messages.old) messages.new ≡ messages.old }
    {
        for byte in piece {
            if let Err(error) = self.feed_byte(*byte, messages) {
                return Err(error);
            }
        }
        Ok(())
    }

    /// Ends the input, and adds the message that its end ends.
    pub(crate) fn finish(&mut self, messages: &mut Rows<RawMessage>) -> Result<(), FeedError>
        requires safe { IsSafe self.old }
        ensures safe { OnOk result (IsSafe self.new) }
        ensures whole { OnOk result (IsWhole self.old messages.old messages.new) }
        ensures fault { (fault : FrameFault) → result ≡ Err (FeedError.Fault fault)
            → IsFaulty self.old fault }
        ensures same { OnErr result (messages.new ≡ messages.old) }
    {
        if let Some(fault) = self.end_fault() {
            return Err(FeedError::Fault(fault));
        }
        if !self.has_open() {
            return Ok(());
        }
        let message = self.end_message(End::Emi)?;
        add_message(messages, message)
    }

    /// Returns the fault of the input, where it ends here: None where it may.
    fn end_fault(&self) -> Option<FrameFault>
        requires safe { IsSafe self.now }
        ensures none { IsNone result → CanEnd self.now }
        ensures fault { IfSome result (λ fault. IsFaulty self.now fault) }
    {
        if self.holds_return() {
            return Some(FrameFault {
                at: self.at - 1,
                kind: FrameKind::BadByte,
            });
        }
        if !self.has_open() {
            return None;
        }
        let at = self.at;
        match self.framing {
            Framing::Marks => Some(FrameFault {
                at,
                kind: FrameKind::Truncated,
            }),
            Framing::Lines if self.given >= MAX_MESSAGES => Some(FrameFault {
                at,
                kind: FrameKind::TooMany,
            }),
            Framing::Lines => None,
        }
    }

    /// Returns whether bytes of a message were read that has not ended.
    fn has_open(&self) -> bool
        ensures { result ≡ has_open self.now }
    {
        if self.segments.len() > 0 {
            return true;
        }
        self.text.len() > 0
    }

    /// Reads a byte, and adds the message that it ends.
    fn feed_byte(&mut self, byte: u8, messages: &mut Rows<RawMessage>) -> Result<(), FeedError>
        requires safe { IsSafe self.old }

        // What it is ready for after the byte.
        ensures safe { OnOk result (IsSafe self.new) }
        ensures framing { OnOk result (self.new.framing ≡ self.old.framing) }

        // What the byte makes of what was read: it goes on, or it is at fault.
        ensures continued { OnOk result (IsContinued self.old (byte ∷ []) messages.old
            self.new messages.new) }
        ensures fault { (fault : FrameFault) → result ≡ Err (FeedError.Fault fault)
            → IsStop self.old byte fault }

        // The messages that were there stay, and an error adds none.
        ensures same { OnErr result (messages.new ≡ messages.old) }
        ensures front { take (length messages.old) messages.new ≡ messages.old }
    {
        match self.step(byte)? {
            Some(message) => add_message(messages, message),
            None => Ok(()),
        }
    }

    /// Reads a byte, and gives the message that it ends.
    fn step(&mut self, byte: u8) -> Result<Option<RawMessage>, FeedError>
        requires safe { IsSafe self.old }
        ensures safe { OnOk result (IsSafe self.new) }
        ensures framing { OnOk result (self.new.framing ≡ self.old.framing) }
        ensures next { IfOk result (λ message. IsNext self.old byte message self.new) }
        ensures fault { (fault : FrameFault) → result ≡ Err (FeedError.Fault fault)
            → IsStop self.old byte fault }
    {
        if let Some(fault) = self.next_fault(byte) {
            return Err(FeedError::Fault(fault));
        }
        Ok(self.take_in(byte)?)
    }

    /// Takes in a byte that is free of fault, and gives the message that it ends.
    fn take_in(&mut self, byte: u8) -> Result<Option<RawMessage>, AllocError>
        requires safe { IsSafe self.old }
        requires right { next_kind self.old byte ≡ None }
        requires behind_return { holds_return self.old ≡ true → byte ≡ 10 }
        ensures safe { OnOk result (IsSafe self.new) }
        ensures framing { OnOk result (self.new.framing ≡ self.old.framing) }
        ensures next { IfOk result (λ message. IsNext self.old byte message self.new) }
    {
        if is_text_byte(byte) {
            self.add_character(byte)?;
            return Ok(None);
        }
        if is_between(self.framing, byte) {
            self.end_segment(byte)?;
            return Ok(None);
        }
        match end_of(self.framing, byte) {
            Some(end) => {
                let message = self.end_message(end)?;
                self.pass(byte);
                Ok(Some(message))
            }
            None => {
                self.pass(byte);
                Ok(None)
            }
        }
    }

    /// Counts a byte.
    fn pass(&mut self, byte: u8)
        requires few { self.old.at < 2 ^ 60 }
        ensures { self.new ≡ with_byte byte self.old }
    {
        self.at += 1;
        self.last = byte;
    }

    /// Adds a character to the text.
    fn add_character(&mut self, byte: u8) -> Result<(), AllocError>
        requires few { self.old.at < 2 ^ 60 }
        requires short { self.old.characters ≤ MAX_MESSAGE_LENGTH }
        ensures { OnOk result (self.new ≡ with_byte byte (with_character byte self.old)) }
    {
        self.text.extend_from_slice(&[byte])?;
        self.characters += 1;
        self.pass(byte);
        Ok(())
    }

    /// Ends the segment.
    fn end_segment(&mut self, byte: u8) -> Result<(), AllocError>
        requires few { self.old.at < 2 ^ 60 }
        requires text { IsText self.old.text }
        ensures { OnOk result (self.new ≡ with_byte byte (with_segment self.old)) }
    {
        let segment = self.take_text();
        self.segments.push(segment).map_err(|(_, error)| error)?;
        self.pass(byte);
        Ok(())
    }

    /// Ends the message, and gives it.
    fn end_message(&mut self, end: End) -> Result<RawMessage, AllocError>
        requires few { self.old.given < MAX_MESSAGES }
        requires text { IsText self.old.text }
        ensures message { IfOk result (λ message. message ≡ open_message self.old end) }
        ensures left { OnOk result (self.new ≡ with_message self.old) }
    {
        let segment = self.take_text();
        self.segments.push(segment).map_err(|(_, error)| error)?;
        let alloc = self.segments.allocator();
        let segments = mem::replace(&mut self.segments, Rows::new(alloc));
        self.characters = 0;
        self.given += 1;
        Ok(RawMessage { segments, end })
    }

    /// Takes the text out.
    fn take_text(&mut self) -> Text
        requires text { IsText self.old.text }
        ensures text { result ≡ self.old.text }
        ensures left { self.new ≡ record self.old { text = [] } }
    {
        let alloc = self.text.allocator();
        Text::of_vec(mem::replace(&mut self.text, Rows::new(alloc)).into_vec())
    }
}

/// Adds a message at the end. If memory runs out, nothing changes.
fn add_message(messages: &mut Rows<RawMessage>, message: RawMessage) -> Result<(), FeedError>
    ensures ok { OnOk result (messages.new ≡ messages.old ++ message ∷ []) }
    ensures err { OnErr result (messages.new ≡ messages.old) }
    ensures memory { (fault : FrameFault) → result ≢ Err (FeedError.Fault fault) }
{
    messages
        .push(message)
        .map_err(|(_, error)| FeedError::Memory(error))
}

/// Returns whether the framing does not allow a byte directly after the last.
fn is_bad_byte(framing: Framing, last: u8, byte: u8) -> bool
    ensures { result ≡ is_bad_byte framing last byte 10 }
{
    if is_text_byte(byte) {
        return false;
    }
    match framing {
        Framing::Marks if byte == LINE_FEED => last != MESSAGE_END && last != GROUP_END,
        Framing::Marks => byte != MESSAGE_END && byte != GROUP_END && byte != BETWEEN,
        Framing::Lines => byte != LINE_FEED && byte != RETURN,
    }
}

/// Returns whether a byte stands between two segments.
fn is_between(framing: Framing, byte: u8) -> bool
    ensures { result ≡ is_between framing byte }
{
    match framing {
        Framing::Marks => byte == BETWEEN,
        Framing::Lines => false,
    }
}

/// Returns whether a byte is one more character than a segment may have.
fn is_long_segment(length: usize, byte: u8) -> bool
    ensures { result ≡ is_long_segment length byte }
{
    is_text_byte(byte) && length >= MAX_SEGMENT_LENGTH
}

/// Returns whether a byte is one more character than a message may have, or begins one more
/// segment.
fn is_long_message(framing: Framing, characters: usize, betweens: usize, byte: u8) -> bool
    ensures { result ≡ is_long_message framing characters betweens byte }
{
    match framing {
        Framing::Marks => {
            (is_text_byte(byte) && characters >= MAX_MESSAGE_LENGTH)
                || (byte == BETWEEN && betweens >= MAX_SEGMENTS - 1)
        }
        Framing::Lines => false,
    }
}

/// Returns whether a byte ends one more message than an input may have.
fn is_too_many(framing: Framing, given: usize, byte: u8) -> bool
    ensures { result ≡ is_too_many framing given byte }
{
    end_of(framing, byte).is_some() && given >= MAX_MESSAGES
}

/// Returns how a byte ends a message: None where it does not.
fn end_of(framing: Framing, byte: u8) -> Option<End>
    ensures { result ≡ end_of framing byte }
{
    match framing {
        Framing::Marks if byte == MESSAGE_END => Some(End::Emi),
        Framing::Marks if byte == GROUP_END => Some(End::Egi),
        Framing::Lines if byte == LINE_FEED => Some(End::Emi),
        _ => None,
    }
}
