//! Handing out a message portion by portion.
ghost use Rattle.std.specs.Prelude.{◌≡◌, ◌↔◌, ◌≤◌, [], length, take, get_or, nat_lt, IsTrue, IfOk, OnErr};
ghost use Rattle.std.specs.List.{concat};
ghost use Rattle.com_text.specs.Text.{IsText};
ghost use Rattle.com_msg.specs.Places.{IsPlace, cut_first, pieces_at};
ghost use Rattle.com_msg.specs.Portion.{IsEndKey, drop_characters, last_key, take_portion};

use crate::{End, Message, Stamp};
use com_text::{Name, Text};
use std::alloc::{AllocError, Global};
use std::marker::Model;

/// How many characters a RECEIVE asks for at most.
pub const MAX_SIZE: u32 = 2_000;

/// What a RECEIVE asks for.
#[derive(Clone, Copy, Debug, PartialEq, Eq)]
pub enum Kind {
    /// RECEIVE MESSAGE.
    Message,
    /// RECEIVE SEGMENT.
    Segment,
}

/// What one RECEIVE is given.
#[derive(Debug, Drop)]
pub struct Portion {
    /// The characters, at most as many as were asked for.
    pub text: Text,
    /// The character of END KEY: `0` where more of the segment or message follows, `1` at the end
    /// of a segment, `2` at EMI, `3` at EGI.
    pub end_key: u8,
}

/// What is left of a message that is handed out piece by piece. Contracts see the message with the
/// pieces that are left as its segments.
#[derive(Debug, Drop)]
pub struct Rest {
    message: Message,
    place: Place,
}

/// A place in a list of segments: in the segment of this number, from 0, after its first `taken`
/// characters.
#[derive(Clone, Copy, Debug)]
struct Place {
    segment: usize,
    taken: usize,
}

impl Model for Rest {
    ghost use Rattle.com_msg.specs.declared.message.Message.{Message};
    ghost use Rattle.com_msg.specs.Places.{IsPlace, pieces_at};
    ghost use Rattle.com_msg.specs.Portion.{with_pieces};

    ghost Value = { Message };

    ghost view = { λ rest. with_pieces (pieces_at rest.place rest.message.segments) rest.message };

    ghost invariant = { λ rest. IsPlace rest.place rest.message.segments };
}

impl Rest {
    /// Returns the whole of a message, of one segment or more.
    pub fn of(message: Message) -> Rest
        requires not_empty { 1 ≤ length message.segments }
        ensures { result ≡ message }
    {
        let place = Place {
            segment: 0,
            taken: 0,
        };
        Rest { message, place }
    }

    /// Returns the terminal that the message came from.
    pub fn source(&self) -> Name
        ensures { result ≡ self.now.source }
    {
        self.message.source
    }

    /// Returns the number of the message among all arrivals.
    pub fn arrival(&self) -> u64
        ensures { result ≡ self.now.arrival }
    {
        self.message.arrival
    }

    /// When the message was recognised as whole.
    pub fn stamp(&self) -> Stamp
        ensures { result ≡ self.now.stamp }
    {
        self.message.stamp
    }

    /// Returns whether nothing is left, not even an empty segment.
    pub fn is_spent(&self) -> bool
        ensures { IsTrue result ↔ (self.now.segments ≡ []) }
    {
        self.place.segment == self.message.segments.as_slice().len()
    }

    /// Hands out the next characters, `size` of them at most: of the whole message, or of its
    /// next segment alone. If memory runs out, nothing changes.
    pub fn take(&mut self, kind: Kind, size: u32) -> Result<Portion, AllocError>
        requires unspent { 1 ≤ length self.old.segments }
        requires size { 1 ≤ size }

        // What is given, and what is left.
        ensures portion { IfOk result (λ portion.
            (portion, self.new) ≡ take_portion kind size self.old) }
        ensures err { OnErr result (self.new ≡ self.old) }

        // What an area has room for.
        ensures short { IfOk result (λ portion. length portion.text ≤ size) }
        ensures text { IfOk result (λ portion. IsText portion.text) }
        ensures end_key { IfOk result (λ portion. IsEndKey portion.end_key) }
    {
        match kind {
            Kind::Message => self.take_of_message(size),
            Kind::Segment => self.take_of_segment(size as usize),
        }
    }

    /// Hands out the next characters of the message.
    fn take_of_message(&mut self, size: u32) -> Result<Portion, AllocError>
        requires unspent { 1 ≤ length self.old.segments }
        requires size { 1 ≤ size }
        ensures portion { IfOk result (λ portion.
            (portion, self.new) ≡ take_portion Kind.Message size self.old) }
        ensures text { IfOk result (λ portion. IsText portion.text) }
        ensures err { OnErr result (self.new ≡ self.old) }
    {
        let size = size as usize;
        let pieces = &self.message.segments.as_slice()[self.place.segment..];
        let taken = self.place.taken;
        let text = first_characters(self.message.segments.allocator(), pieces, taken, size)?;
        // What is taken is within the first piece, so the sum fits.
        let first = pieces[0].as_bytes().len();
        prove!(taken <= first);
        let reach = taken + size;
        if is_longer(pieces, reach) {
            let behind = place_behind(pieces, reach);
            self.place.segment += behind.segment;
            self.place.taken = behind.taken;
            Ok(Portion {
                text,
                end_key: b'0',
            })
        } else {
            self.place.segment += pieces.len();
            self.place.taken = 0;
            let end_key = last_key(self.message.end);
            Ok(Portion { text, end_key })
        }
    }

    /// Hands out the next characters of the next segment.
    fn take_of_segment(&mut self, size: usize) -> Result<Portion, AllocError>
        requires unspent { 1 ≤ length self.old.segments }
        ensures portion { IfOk result (λ portion.
            (portion, self.new) ≡ take_portion Kind.Segment size self.old) }
        ensures text { IfOk result (λ portion. IsText portion.text) }
        ensures err { OnErr result (self.new ≡ self.old) }
    {
        let segments = self.message.segments.as_slice();
        let piece = &segments[self.place.segment].as_bytes()[self.place.taken..];
        let given = size.min(piece.len());
        let text = text_of(self.message.segments.allocator(), &piece[..given])?;
        if given < piece.len() {
            self.place.taken += given;
            return Ok(Portion {
                text,
                end_key: b'0',
            });
        }
        self.place.segment += 1;
        self.place.taken = 0;
        let end_key = if self.place.segment == segments.len() {
            last_key(self.message.end)
        } else {
            b'1'
        };
        Ok(Portion { text, end_key })
    }
}

/// Returns the END KEY of a message's last segment.
fn last_key(end: End) -> u8
    ensures { result ≡ last_key end }
{
    match end {
        End::Emi => b'2',
        End::Egi => b'3',
    }
}

/// Returns the first characters of the joined pieces, `size` of them or all, where the first piece
/// counts without the `taken` characters at its front.
fn first_characters(
    alloc: Global,
    pieces: &[Text],
    taken: usize,
    size: usize,
) -> Result<Text, AllocError>
    requires { taken ≤ length (get_or pieces.now 0 []) }
    ensures characters { IfOk result
        (λ text. text ≡ take size (concat (cut_first taken pieces.now))) }
    ensures text { IfOk result IsText }
{
    let mut bytes = Vec::new(alloc);
    let mut skipped = taken;
    for piece in pieces {
        if bytes.len() == size {
            break;
        }
        let piece = &piece.as_bytes()[skipped..];
        let due = size - bytes.len();
        bytes.extend_from_slice(&piece[..due.min(piece.len())])?;
        skipped = 0;
    }
    Ok(Text::of_vec(bytes))
}

/// Returns whether the joined pieces have more characters than `reach`.
pub fn is_longer(pieces: &[Text], reach: usize) -> bool
    ensures { result ≡ nat_lt reach (length (concat pieces.now)) }
{
    let mut due = reach;
    for piece in pieces {
        let length = piece.as_bytes().len();
        if due < length {
            return true;
        }
        due -= length;
    }
    false
}

/// Returns the place after the first `reach` characters of the pieces. Once none is due, nothing
/// more is passed, not even an empty piece.
fn place_behind(pieces: &[Text], reach: usize) -> Place
    ensures left { pieces_at result pieces.now ≡ drop_characters reach pieces.now }
    ensures within { IsPlace result pieces.now }
{
    let mut due = reach;
    for (segment, piece) in pieces.iter().enumerate() {
        let length = piece.as_bytes().len();
        if due == 0 || due < length {
            return Place {
                segment,
                taken: due,
            };
        }
        due -= length;
    }
    Place {
        segment: pieces.len(),
        taken: 0,
    }
}

/// Returns a text of some characters of a text.
fn text_of(alloc: Global, characters: &[u8]) -> Result<Text, AllocError>
    requires { IsText characters.now }
    ensures characters { IfOk result (λ text. text ≡ characters.now) }
    ensures text { IfOk result IsText }
{
    Ok(Text::of_vec(Vec::from_slice(alloc, characters)?))
}
