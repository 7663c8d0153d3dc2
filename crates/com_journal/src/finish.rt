//! END.
ghost use Rattle.std.specs.Prelude.{◌≡◌, OnOk};
ghost use Rattle.com_journal.specs.Lines.{end_fields};
ghost use Rattle.com_journal.specs.inner.Writing.{written};
ghost use Rattle.com_journal.specs.inner.Outcomes.{Gives};
ghost use Rattle.com_journal.specs.inner.Reading.{frame_at, reason_at, finish_at};

use crate::line::{Line, MAX_NUMBER, Unread};
use crate::put::{put_decimal, put_word};
use crate::words::{frame_of, frame_word, plain_end_of};
use com_events::{Call, EndReason};
use com_msg::FrameFault;
use com_text::Rows;
use std::alloc::AllocError;

/// Takes an END, after its verb.
#[tactic(auto, unfolding(crate::specs::inner::Reading::finish_at))]
pub(crate) fn read_call(line: &mut Line<'_>) -> Result<Call, Unread>
    ensures { Gives (λ call. (call, line.new)) result (finish_at line.old) }
{
    let reason = reason(line)?;
    Ok(Call::Finish { reason })
}

#[tactic(auto, unfolding(crate::specs::inner::Reading::reason_at))]
fn reason(line: &mut Line<'_>) -> Result<EndReason, Unread>
    ensures { Gives (λ reason. (reason, line.new)) result (reason_at line.old) }
{
    let word = line.word()?;
    if word == b"FRAME".as_slice() {
        return frame(line);
    }
    plain_end_of(word)
}

/// Takes the kind and the place of a fault.
#[tactic(auto, unfolding(crate::specs::inner::Reading::frame_at))]
fn frame(line: &mut Line<'_>) -> Result<EndReason, Unread>
    ensures { Gives (λ reason. (reason, line.new)) result (frame_at line.old) }
{
    let kind = frame_of(line.word()?)?;
    let at = line.number(0, MAX_NUMBER)?;
    Ok(EndReason::Frame(FrameFault { at, kind }))
}

/// Adds why a terminal ends.
pub(crate) fn put_reason(out: &mut Rows<u8>, reason: &EndReason) -> Result<(), AllocError>
    ensures { OnOk result (out.new ≡ written out.old (end_fields reason.now)) }
{
    match reason {
        EndReason::End => put_word(out, b"END"),
        EndReason::Frame(fault) => {
            put_word(out, b"FRAME")?;
            put_word(out, frame_word(fault.kind))?;
            put_decimal(out, fault.at)
        }
        EndReason::Fault => put_word(out, b"FAULT"),
        EndReason::Long => put_word(out, b"LONG"),
        EndReason::Idle => put_word(out, b"IDLE"),
    }
}
