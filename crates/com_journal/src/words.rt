//! Words that stand for a choice, as they are read and written.
ghost use Rattle.std.specs.Prelude.{◌≡◌};
ghost use Rattle.com_journal.specs.inner.Outcomes.{Gives};
ghost use Rattle.com_journal.specs.inner.Choices.{kind_of, wait_of, switch_of, input_of, end_of, stop_of, plain_end_of, frame_of};
ghost use Rattle.com_journal.specs.Words.{kind_word, wait_word, switch_word, input_word, end_word, stop_word, frame_word};

use crate::line::Unread;
use com_events::{EndReason, StopReason};
use com_msg::{End, FrameKind, Kind};

#[tactic(auto, unfolding(crate::specs::inner::Choices::kind_of))]
pub(crate) fn kind_of(word: &[u8]) -> Result<Kind, Unread>
    ensures { Gives (λ kind. kind) result (kind_of word.now) }
{
    if word == b"MESSAGE".as_slice() {
        Ok(Kind::Message)
    } else if word == b"SEGMENT".as_slice() {
        Ok(Kind::Segment)
    } else {
        Err(Unread::Refused)
    }
}

pub(crate) fn kind_word(kind: Kind) -> &'static [u8]
    ensures { result.now ≡ kind_word kind }
{
    match kind {
        Kind::Message => b"MESSAGE",
        Kind::Segment => b"SEGMENT",
    }
}

/// Returns whether NO DATA is written.
#[tactic(auto, unfolding(crate::specs::inner::Choices::wait_of))]
pub(crate) fn wait_of(word: &[u8]) -> Result<bool, Unread>
    ensures { Gives (λ no_data. no_data) result (wait_of word.now) }
{
    if word == b"NODATA".as_slice() {
        Ok(true)
    } else if word == b"WAIT".as_slice() {
        Ok(false)
    } else {
        Err(Unread::Refused)
    }
}

pub(crate) fn wait_word(no_data: bool) -> &'static [u8]
    ensures { result.now ≡ wait_word no_data }
{
    if no_data { b"NODATA" } else { b"WAIT" }
}

/// Returns whether something is enabled.
#[tactic(auto, unfolding(crate::specs::inner::Choices::switch_of))]
pub(crate) fn switch_of(word: &[u8]) -> Result<bool, Unread>
    ensures { Gives (λ on. on) result (switch_of word.now) }
{
    if word == b"ENABLE".as_slice() {
        Ok(true)
    } else if word == b"DISABLE".as_slice() {
        Ok(false)
    } else {
        Err(Unread::Refused)
    }
}

pub(crate) fn switch_word(on: bool) -> &'static [u8]
    ensures { result.now ≡ switch_word on }
{
    if on { b"ENABLE" } else { b"DISABLE" }
}

/// Returns whether TERMINAL is written.
#[tactic(auto, unfolding(crate::specs::inner::Choices::input_of))]
pub(crate) fn input_of(word: &[u8]) -> Result<bool, Unread>
    ensures { Gives (λ terminal. terminal) result (input_of word.now) }
{
    if word == b"INPUT".as_slice() {
        Ok(false)
    } else if word == b"TERMINAL".as_slice() {
        Ok(true)
    } else {
        Err(Unread::Refused)
    }
}

pub(crate) fn input_word(terminal: bool) -> &'static [u8]
    ensures { result.now ≡ input_word terminal }
{
    if terminal { b"TERMINAL" } else { b"INPUT" }
}

#[tactic(auto, unfolding(crate::specs::inner::Choices::end_of))]
pub(crate) fn end_of(word: &[u8]) -> Result<End, Unread>
    ensures { Gives (λ end. end) result (end_of word.now) }
{
    if word == b"EMI".as_slice() {
        Ok(End::Emi)
    } else if word == b"EGI".as_slice() {
        Ok(End::Egi)
    } else {
        Err(Unread::Refused)
    }
}

/// `EMI` or `EGI`.
pub fn end_word(end: End) -> &'static [u8]
    ensures { result.now ≡ end_word end }
{
    match end {
        End::Emi => b"EMI",
        End::Egi => b"EGI",
    }
}

#[tactic(auto, unfolding(crate::specs::inner::Choices::stop_of))]
pub(crate) fn stop_of(word: &[u8]) -> Result<StopReason, Unread>
    ensures { Gives (λ reason. reason) result (stop_of word.now) }
{
    if word == b"RUN".as_slice() {
        Ok(StopReason::Run)
    } else if word == b"LIMIT".as_slice() {
        Ok(StopReason::Limit)
    } else if word == b"DATA".as_slice() {
        Ok(StopReason::DataFault)
    } else if word == b"IDLE".as_slice() {
        Ok(StopReason::Idle)
    } else {
        Err(Unread::Refused)
    }
}

pub(crate) fn stop_word(reason: StopReason) -> &'static [u8]
    ensures { result.now ≡ stop_word reason }
{
    match reason {
        StopReason::Run => b"RUN",
        StopReason::Limit => b"LIMIT",
        StopReason::DataFault => b"DATA",
        StopReason::Idle => b"IDLE",
    }
}

/// Why a terminal ends, where the word says all of it.
#[tactic(auto, unfolding(crate::specs::inner::Choices::plain_end_of))]
pub(crate) fn plain_end_of(word: &[u8]) -> Result<EndReason, Unread>
    ensures { Gives (λ reason. reason) result (plain_end_of word.now) }
{
    if word == b"END".as_slice() {
        Ok(EndReason::End)
    } else if word == b"FAULT".as_slice() {
        Ok(EndReason::Fault)
    } else if word == b"LONG".as_slice() {
        Ok(EndReason::Long)
    } else if word == b"IDLE".as_slice() {
        Ok(EndReason::Idle)
    } else {
        Err(Unread::Refused)
    }
}

#[tactic(auto, unfolding(crate::specs::inner::Choices::frame_of))]
pub(crate) fn frame_of(word: &[u8]) -> Result<FrameKind, Unread>
    ensures { Gives (λ kind. kind) result (frame_of word.now) }
{
    if word == b"BADBYTE".as_slice() {
        Ok(FrameKind::BadByte)
    } else if word == b"LONGSEGMENT".as_slice() {
        Ok(FrameKind::LongSegment)
    } else if word == b"LONGMESSAGE".as_slice() {
        Ok(FrameKind::LongMessage)
    } else if word == b"TOOMANY".as_slice() {
        Ok(FrameKind::TooMany)
    } else if word == b"TRUNCATED".as_slice() {
        Ok(FrameKind::Truncated)
    } else {
        Err(Unread::Refused)
    }
}

/// Returns the word for what is wrong with an input.
pub fn frame_word(kind: FrameKind) -> &'static [u8]
    ensures { result.now ≡ frame_word kind }
{
    match kind {
        FrameKind::BadByte => b"BADBYTE",
        FrameKind::LongSegment => b"LONGSEGMENT",
        FrameKind::LongMessage => b"LONGMESSAGE",
        FrameKind::TooMany => b"TOOMANY",
        FrameKind::Truncated => b"TRUNCATED",
    }
}
