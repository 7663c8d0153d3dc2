//! What a call is answered.
ghost use Rattle.std.specs.Prelude.{◌≡◌, OnOk};
ghost use Rattle.com_journal.specs.Lines.{reply_fields};
ghost use Rattle.com_journal.specs.inner.Writing.{written, IsCountableReply};
ghost use Rattle.com_journal.specs.inner.Outcomes.{Gives};
ghost use Rattle.com_journal.specs.inner.Reading.{names_of, names_at, started_at, input_after, output_after, done_at, reply_at};

use crate::line::{Line, Unread};
use crate::put::{put_decimal, put_field, put_word};
use crate::{arrive, receive};
use com_cd::NAMES_LENGTH;
use com_events::{Call, Reply};
use com_text::{Rows, is_text};
use std::alloc::{AllocError, Global};

/// Takes the reply to a call.
#[tactic(auto, unfolding(crate::specs::inner::Reading::reply_at))]
pub(crate) fn read(alloc: Global, call: &Call, line: &mut Line<'_>) -> Result<Reply, Unread>
    ensures { Gives (λ reply. (reply, line.new)) result (reply_at call.now line.old) }
{
    match call {
        Call::Start => started(line),
        Call::Receive { .. } => receive::read_reply(alloc, line),
        Call::Count { .. } | Call::SwitchInput { .. } => input_area(line),
        Call::Send { .. } | Call::SwitchOutput { .. } => output_area(line),
        Call::Arrive { .. } => arrive::read_reply(line),
        Call::Held | Call::Stop { .. } | Call::Finish { .. } => done(line),
    }
}

#[tactic(auto, unfolding(crate::specs::inner::Reading::started_at))]
fn started(line: &mut Line<'_>) -> Result<Reply, Unread>
    ensures { Gives (λ reply. (reply, line.new)) result (started_at line.old) }
{
    let names = names(line)?;
    Ok(Reply::Started { names })
}

#[tactic(auto, unfolding(crate::specs::inner::Reading::names_at))]
fn names(line: &mut Line<'_>) -> Result<Option<[u8; NAMES_LENGTH]>, Unread>
    ensures { Gives (λ names. (names, line.new)) result (names_at line.old) }
{
    names_of(line.counted()?)
}

/// Returns the four names, or none if there are no characters.
#[tactic(auto, unfolding(crate::specs::inner::Reading::names_of))]
fn names_of(content: &[u8]) -> Result<Option<[u8; NAMES_LENGTH]>, Unread>
    ensures { Gives (λ names. names) result (names_of content.now) }
{
    if content.is_empty() {
        return Ok(None);
    }
    if content.len() != NAMES_LENGTH || !is_text(content) {
        return Err(Unread::Refused);
    }
    let mut names = [b' '; NAMES_LENGTH];
    names.copy_from_slice(content);
    Ok(Some(names))
}

#[tactic(auto, unfolding(crate::specs::inner::Reading::input_after))]
fn input_area(line: &mut Line<'_>) -> Result<Reply, Unread>
    ensures { Gives (λ reply. (reply, line.new)) result (input_after line.old) }
{
    let area = line.in_area()?;
    Ok(Reply::AreaIn { area })
}

#[tactic(auto, unfolding(crate::specs::inner::Reading::output_after))]
fn output_area(line: &mut Line<'_>) -> Result<Reply, Unread>
    ensures { Gives (λ reply. (reply, line.new)) result (output_after line.old) }
{
    let area = line.out_area()?;
    Ok(Reply::AreaOut { area })
}

#[tactic(auto, unfolding(crate::specs::inner::Reading::done_at))]
fn done(line: &mut Line<'_>) -> Result<Reply, Unread>
    ensures { Gives (λ reply. (reply, line.new)) result (done_at line.old) }
{
    line.expect(b"DONE")?;
    Ok(Reply::Done)
}

/// Adds a reply.
pub(crate) fn put(out: &mut Rows<u8>, reply: &Reply) -> Result<(), AllocError>
    requires { IsCountableReply reply.now }
    ensures { OnOk result (out.new ≡ written out.old (reply_fields reply.now)) }
{
    match reply {
        Reply::Started { names: None } => put_field(out, b""),
        Reply::Started { names: Some(names) } => put_field(out, names),
        Reply::Given { area, text } => receive::put_given(out, area, text),
        Reply::NoData { area } => {
            put_word(out, b"NONE")?;
            put_field(out, area.as_bytes())
        }
        Reply::Refused { area } => {
            put_word(out, b"REFUSED")?;
            put_field(out, area.as_bytes())
        }
        Reply::Waits => put_word(out, b"WAITS"),
        Reply::AreaIn { area } => put_field(out, area.as_bytes()),
        Reply::AreaOut { area } => put_field(out, area.as_bytes()),
        Reply::Arrived { number } => put_decimal(out, *number),
        Reply::Done => put_word(out, b"DONE"),
    }
}
