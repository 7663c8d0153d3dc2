//! ARRIVE and what it is answered.
ghost use Rattle.std.specs.Prelude.{◌≡◌, ◌∷◌, All, length, map, decimal, OnOk};
ghost use Rattle.com_text.specs.Counted.{IsCountable, counted_field};
ghost use Rattle.com_journal.specs.Lines.{call_fields};
ghost use Rattle.com_journal.specs.inner.Writing.{written};
ghost use Rattle.com_journal.specs.inner.Outcomes.{Gives};
ghost use Rattle.com_journal.specs.inner.Reading.{stamp_of, stamp_at, segments_at, arrive_at, arrived_at};

use crate::line::{Line, MAX_NUMBER, Unread};
use crate::put::{put_decimal, put_field, put_word};
use crate::words::{end_of, end_word};
use com_events::{Call, Reply};
use com_msg::{MAX_MESSAGE_LENGTH, MAX_SEGMENT_LENGTH, MAX_SEGMENTS, RawMessage, Stamp, is_longer};
use com_text::{Rows, Text};
use std::alloc::{AllocError, Global};

/// Takes an ARRIVE, after its verb.
#[tactic(auto, unfolding(crate::specs::inner::Reading::arrive_at))]
pub(crate) fn read_call(alloc: Global, line: &mut Line<'_>) -> Result<Call, Unread>
    ensures { Gives (λ call. (call, line.new)) result (arrive_at line.old) }
{
    let stamp = stamp(line)?;
    let end = end_of(line.word()?)?;
    let count = line.number(1, MAX_SEGMENTS as u64)?;
    let segments = segments(alloc, count, line)?;
    if is_longer(segments.as_slice(), MAX_MESSAGE_LENGTH) {
        return Err(Unread::Refused);
    }
    let message = RawMessage { segments, end };
    Ok(Call::Arrive { stamp, message })
}

/// Takes what an ARRIVE is answered.
#[tactic(auto, unfolding(crate::specs::inner::Reading::arrived_at))]
pub(crate) fn read_reply(line: &mut Line<'_>) -> Result<Reply, Unread>
    ensures { Gives (λ reply. (reply, line.new)) result (arrived_at line.old) }
{
    let number = line.number(1, MAX_NUMBER)?;
    Ok(Reply::Arrived { number })
}

#[tactic(auto, unfolding(crate::specs::inner::Reading::stamp_at))]
fn stamp(line: &mut Line<'_>) -> Result<Stamp, Unread>
    ensures { Gives (λ stamp. (stamp, line.new)) result (stamp_at line.old) }
{
    let date = line.chunk::<6>()?;
    let time = line.chunk::<8>()?;
    stamp_of(date, time)
}

#[tactic(auto, unfolding(crate::specs::inner::Reading::stamp_of))]
fn stamp_of(date: &[u8; 6], time: &[u8; 8]) -> Result<Stamp, Unread>
    ensures { Gives (λ stamp. stamp) result (stamp_of date.now time.now) }
{
    match Stamp::new(date, time) {
        Some(stamp) => Ok(stamp),
        None => Err(Unread::Refused),
    }
}

/// So many segments.
fn segments(alloc: Global, count: u64, line: &mut Line<'_>) -> Result<Rows<Text>, Unread>
    ensures { Gives (λ segments. (segments, line.new)) result (segments_at count line.old) }
{
    let mut segments = Rows::new(alloc);
    for _ in 0..count {
        let segment = line.text(alloc, 0, MAX_SEGMENT_LENGTH)?;
        segments.push(segment).map_err(|_| Unread::Memory)?;
    }
    Ok(segments)
}

/// Adds an ARRIVE.
pub(crate) fn put_call(
    out: &mut Rows<u8>,
    stamp: &Stamp,
    message: &RawMessage,
) -> Result<(), AllocError>
    requires { All IsCountable message.now.segments }
    ensures { OnOk result
        (out.new ≡ written out.old (call_fields (Call.Arrive stamp.now message.now))) }
{
    put_word(out, b"ARRIVE")?;
    put_word(out, stamp.date())?;
    put_word(out, stamp.time())?;
    put_word(out, end_word(message.end))?;
    put_segments(out, message.segments.as_slice())
}

/// Adds the number of segments, and a counted field for each.
fn put_segments(out: &mut Rows<u8>, segments: &[Text]) -> Result<(), AllocError>
    requires { All IsCountable segments.now }
    ensures { OnOk result (out.new ≡ written out.old
        (decimal (length segments.now) ∷ map counted_field segments.now)) }
{
    put_decimal(out, segments.len() as u64)?;
    for segment in segments {
        put_field(out, segment.as_bytes())?;
    }
    Ok(())
}
