//! Showing how a file of terminal input is framed.
ghost use Rattle.std.specs.Prelude.{◌≡◌, [], ◌∷◌, ◌++◌, IfOk, IfErr, OnOk, take};
ghost use Rattle.com_text.specs.Counted.{counted_field};
ghost use Rattle.com_io.specs.Files.{file_limit};
ghost use Rattle.mcs_top.specs.Show.{EndsSo, IsShowOf, ending_line, message_heading, message_line, message_lines, segment_fields};
ghost use Rattle.mcs_top.specs.Showing.{HasShown, HasNotShown};

use crate::files::{read_named, write_output};
use crate::report::{Failure, Refusal};
use com_io::{FILE_LIMIT, Store};
use com_journal::{end_word, frame_word};
use com_lines::{FeedError, Framer};
use com_msg::{FrameFault, Framing, RawMessage};
use com_text::{Rows, Text, put_number};
use std::alloc::{AllocError, Global};

/// How an input ends.
#[derive(Clone, Copy, Debug, PartialEq, Eq)]
pub enum Ending {
    /// Every message is whole.
    End,
    /// It ceases to be messages.
    Fault(FrameFault),
    /// It is longer than the limit.
    Long,
}

/// Reads a file, and writes how it is framed. What is shown of an input that does not end well is the
/// report of its refusal.
pub fn show<'a, S: Store>(
    alloc: Global,
    framing: Framing,
    file: &'a str,
    store: &mut S,
) -> Result<(), Failure<'a>>
    ensures ok { OnOk result (HasShown framing file.now (S.shows store.old) (S.shows store.new)) }
    ensures err { IfErr result
        (HasNotShown framing file.now (S.shows store.old) (S.shows store.new)) }
    ensures pending { (S.shows store.new).pending ≡ (S.shows store.old).pending }
{
    let input = read_named(alloc, file, store)?;
    match text_of(alloc, framing, &input) {
        Ok((Ending::End, text)) => write_output(text.as_slice(), store),
        Ok((_, text)) => Err(Failure::Refused(Refusal::Input(text))),
        Err(_) => Err(Failure::Memory),
    }
}

/// How an input ends, and the text that shows it.
fn text_of(alloc: Global, framing: Framing, input: &[u8]) -> Result<(Ending, Rows<u8>), AllocError>
    ensures { IfOk result (λ shown. IsShowOf framing input.now shown.0 shown.1) }
{
    let mut messages = Rows::new(alloc);
    let ending = frame(alloc, framing, input, &mut messages)?;
    let mut out = Rows::new(alloc);
    put_messages(&mut out, messages.as_slice())?;
    put_ending(&mut out, ending)?;
    Ok((ending, out))
}

/// Adds the messages of an input, and answers how it ends.
fn frame(
    alloc: Global,
    framing: Framing,
    input: &[u8],
    into: &mut Rows<RawMessage>,
) -> Result<Ending, AllocError>
    requires { into.old ≡ [] }
    ensures { IfOk result (EndsSo framing input.now into.new) }
{
    let mut framer = Framer::new(alloc, framing);
    match framer.feed(within_limit(input), into) {
        Ok(()) => {}
        Err(FeedError::Fault(fault)) => return Ok(Ending::Fault(fault)),
        Err(FeedError::Memory(error)) => return Err(error),
    }
    if input.len() > FILE_LIMIT {
        return Ok(Ending::Long);
    }
    match framer.finish(into) {
        Ok(()) => Ok(Ending::End),
        Err(FeedError::Fault(fault)) => Ok(Ending::Fault(fault)),
        Err(FeedError::Memory(error)) => Err(error),
    }
}

/// As much of an input as is looked at.
fn within_limit(input: &[u8]) -> &[u8]
    ensures { result.now ≡ take file_limit input.now }
{
    &input[..input.len().min(FILE_LIMIT)]
}

/// Adds a line for each message.
fn put_messages(out: &mut Rows<u8>, messages: &[RawMessage]) -> Result<(), AllocError>
    ensures { OnOk result (out.new ≡ out.old ++ message_lines 1 messages.now) }
{
    let mut number = 0u64;
    for message in messages {
        number += 1;
        put_message(out, number, message)?;
    }
    Ok(())
}

/// Adds a message's line.
fn put_message(out: &mut Rows<u8>, number: u64, message: &RawMessage) -> Result<(), AllocError>
    ensures { OnOk result (out.new ≡ out.old ++ message_line number message.now) }
{
    put_heading(out, number, message)?;
    put_segments(out, message.segments.as_slice())?;
    out.extend_from_slice(b"\n")
}

/// Adds a message's number, its end, and how many segments it has.
fn put_heading(out: &mut Rows<u8>, number: u64, message: &RawMessage) -> Result<(), AllocError>
    ensures { OnOk result (out.new ≡ out.old ++ message_heading number message.now) }
{
    put_number(out, number)?;
    out.extend_from_slice(b" ")?;
    out.extend_from_slice(end_word(message.end))?;
    out.extend_from_slice(b" ")?;
    put_number(out, message.segments.len() as u64)
}

/// Adds segments as counted fields, each behind a space.
fn put_segments(out: &mut Rows<u8>, segments: &[Text]) -> Result<(), AllocError>
    ensures { OnOk result (out.new ≡ out.old ++ segment_fields segments.now) }
{
    for segment in segments {
        put_segment(out, segment.as_bytes())?;
    }
    Ok(())
}

/// Adds a segment as a counted field behind a space.
fn put_segment(out: &mut Rows<u8>, segment: &[u8]) -> Result<(), AllocError>
    ensures { OnOk result (out.new ≡ out.old ++ (32 ∷ counted_field segment.now)) }
{
    out.extend_from_slice(b" ")?;
    put_number(out, segment.len() as u64)?;
    out.extend_from_slice(b":")?;
    out.extend_from_slice(segment)
}

/// Adds the last line.
fn put_ending(out: &mut Rows<u8>, ending: Ending) -> Result<(), AllocError>
    ensures { OnOk result (out.new ≡ out.old ++ ending_line ending) }
{
    match ending {
        Ending::End => out.extend_from_slice(b"end\n"),
        Ending::Fault(fault) => put_fault(out, fault),
        Ending::Long => put_long(out),
    }
}

/// Adds the line of an input that is longer than the limit.
fn put_long(out: &mut Rows<u8>) -> Result<(), AllocError>
    ensures { OnOk result (out.new ≡ out.old ++ ending_line Ending.Long) }
{
    out.extend_from_slice(b"fault LONG ")?;
    put_number(out, FILE_LIMIT as u64)?;
    out.extend_from_slice(b"\n")
}

/// Adds the line of a fault.
fn put_fault(out: &mut Rows<u8>, fault: FrameFault) -> Result<(), AllocError>
    ensures { OnOk result (out.new ≡ out.old ++ ending_line (Ending.Fault fault)) }
{
    out.extend_from_slice(b"fault ")?;
    out.extend_from_slice(frame_word(fault.kind))?;
    out.extend_from_slice(b" ")?;
    put_number(out, fault.at)?;
    out.extend_from_slice(b"\n")
}
