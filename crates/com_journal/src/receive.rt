//! RECEIVE and what it is answered.
ghost use Rattle.std.specs.Prelude.{◌≡◌, ◌≤◌, length, OnOk};
ghost use Rattle.com_text.specs.Counted.{IsCountable};
ghost use Rattle.com_journal.specs.Lines.{call_fields, reply_fields};
ghost use Rattle.com_journal.specs.inner.Writing.{written};
ghost use Rattle.com_journal.specs.inner.Outcomes.{Gives};
ghost use Rattle.com_journal.specs.inner.Reading.{receive_at, given_at, without_data, refused_at, received_behind, received_at};

use crate::line::{Line, Unread};
use crate::put::{put_decimal, put_field, put_word};
use crate::words::{kind_of, kind_word, wait_of, wait_word};
use com_cd::InArea;
use com_events::{Call, Reply};
use com_msg::{Kind, MAX_SIZE};
use com_text::{Rows, Text};
use std::alloc::{AllocError, Global};

/// Takes a RECEIVE, after its verb.
#[tactic(auto, unfolding(crate::specs::inner::Reading::receive_at))]
pub(crate) fn read_call(line: &mut Line<'_>) -> Result<Call, Unread>
    ensures { Gives (λ call. (call, line.new)) result (receive_at line.old) }
{
    let kind = kind_of(line.word()?)?;
    let size = line.number(1, u64::from(MAX_SIZE))? as u32;
    let no_data = wait_of(line.word()?)?;
    let area = line.in_area()?;
    Ok(Call::Receive {
        area,
        kind,
        size,
        no_data,
    })
}

/// Takes what a RECEIVE is answered.
#[tactic(auto, unfolding(crate::specs::inner::Reading::received_at))]
pub(crate) fn read_reply(alloc: Global, line: &mut Line<'_>) -> Result<Reply, Unread>
    ensures { Gives (λ reply. (reply, line.new)) result (received_at line.old) }
{
    let word = line.word()?;
    reply_behind(alloc, word, line)
}

#[tactic(auto, unfolding(crate::specs::inner::Reading::received_behind))]
fn reply_behind(alloc: Global, word: &[u8], line: &mut Line<'_>) -> Result<Reply, Unread>
    ensures { Gives (λ reply. (reply, line.new)) result (received_behind word.now line.old) }
{
    if word == b"TEXT".as_slice() {
        given(alloc, line)
    } else if word == b"NONE".as_slice() {
        without_data(line)
    } else if word == b"REFUSED".as_slice() {
        refused(line)
    } else if word == b"WAITS".as_slice() {
        Ok(Reply::Waits)
    } else {
        Err(Unread::Refused)
    }
}

#[tactic(auto, unfolding(crate::specs::inner::Reading::given_at))]
fn given(alloc: Global, line: &mut Line<'_>) -> Result<Reply, Unread>
    ensures { Gives (λ reply. (reply, line.new)) result (given_at line.old) }
{
    let area = line.in_area()?;
    let text = line.text(alloc, 0, MAX_SIZE as usize)?;
    Ok(Reply::Given { area, text })
}

#[tactic(auto, unfolding(crate::specs::inner::Reading::without_data))]
fn without_data(line: &mut Line<'_>) -> Result<Reply, Unread>
    ensures { Gives (λ reply. (reply, line.new)) result (without_data line.old) }
{
    let area = line.in_area()?;
    Ok(Reply::NoData { area })
}

#[tactic(auto, unfolding(crate::specs::inner::Reading::refused_at))]
fn refused(line: &mut Line<'_>) -> Result<Reply, Unread>
    ensures { Gives (λ reply. (reply, line.new)) result (refused_at line.old) }
{
    let area = line.in_area()?;
    Ok(Reply::Refused { area })
}

/// Adds a RECEIVE.
pub(crate) fn put_call(
    out: &mut Rows<u8>,
    area: &InArea,
    kind: Kind,
    size: u32,
    no_data: bool,
) -> Result<(), AllocError>
    ensures { OnOk result
        (out.new ≡ written out.old (call_fields (Call.Receive area.now kind size no_data))) }
{
    put_word(out, b"RECEIVE")?;
    put_word(out, kind_word(kind))?;
    put_decimal(out, u64::from(size))?;
    put_word(out, wait_word(no_data))?;
    put_field(out, area.as_bytes())
}

/// Adds a portion's area and text.
pub(crate) fn put_given(out: &mut Rows<u8>, area: &InArea, text: &Text) -> Result<(), AllocError>
    requires { IsCountable text.now }
    ensures { OnOk result
        (out.new ≡ written out.old (reply_fields (Reply.Given area.now text.now))) }
{
    put_word(out, b"TEXT")?;
    put_field(out, area.as_bytes())?;
    put_field(out, text.as_bytes())
}
