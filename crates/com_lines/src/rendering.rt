//! What a terminal is sent, as bytes.
ghost use Rattle.std.specs.Prelude.{◌≡◌, ◌++◌, OnOk, OnErr, length, take};
ghost use Rattle.com_msg.specs.Rendering.{IsRenderable, line_feeds, rendered_message, rendered_text};

use com_msg::{Advance, OutMessage, OutSegment};
use com_text::Rows;
use std::alloc::AllocError;

const LINE_FEED: u8 = 10;

const FORM_FEED: u8 = 12;

/// Adds the bytes of a message at the end, segment by segment. If memory runs out, nothing changes.
pub fn render(message: &OutMessage, into: &mut Rows<u8>) -> Result<(), AllocError>
    requires { IsRenderable message.now }
    ensures ok { OnOk result (into.new ≡ into.old ++ rendered_message message.now) }
    ensures err { OnErr result (into.new ≡ into.old) }
{
    let before = into.len();
    let added = add_message(message, into);
    if added.is_err() {
        into.truncate(before);
    }
    added
}

/// Adds the bytes of a message at the end. If memory runs out, some of them may have been added.
#[tactic(auto, using(crate::proofs::Fronts::front_of))]
fn add_message(message: &OutMessage, bytes: &mut Rows<u8>) -> Result<(), AllocError>
    ensures ok { OnOk result (bytes.new ≡ bytes.old ++ rendered_message message.now) }
    ensures front { take (length bytes.old) bytes.new ≡ bytes.old }
{
    for segment in message.segments.as_slice() {
        add_segment(segment, bytes)?;
    }
    Ok(())
}

/// Adds the bytes of a segment at the end. If memory runs out, some of them may have been added.
#[tactic(auto, using(crate::proofs::Fronts::front_of))]
fn add_segment(segment: &OutSegment, bytes: &mut Rows<u8>) -> Result<(), AllocError>
    ensures ok { OnOk result (bytes.new
        ≡ bytes.old ++ rendered_text segment.now.advance segment.now.text) }
    ensures front { take (length bytes.old) bytes.new ≡ bytes.old }
{
    let text = segment.text.as_bytes();
    match segment.advance {
        Advance::Before(lines) => {
            bytes.extend_from_slice(text)?;
            add_line_feeds(lines, bytes)
        }
        Advance::After(lines) => {
            add_line_feeds(lines, bytes)?;
            bytes.extend_from_slice(text)
        }
        Advance::BeforePage => {
            bytes.extend_from_slice(text)?;
            bytes.extend_from_slice(&[FORM_FEED])
        }
        Advance::AfterPage => {
            bytes.extend_from_slice(&[FORM_FEED])?;
            bytes.extend_from_slice(text)
        }
    }
}

/// Adds `count` line feeds at the end. If memory runs out, some of them may have been added.
#[tactic(auto, using(crate::proofs::Fronts::front_of))]
fn add_line_feeds(lines: u8, bytes: &mut Rows<u8>) -> Result<(), AllocError>
    ensures ok { OnOk result (bytes.new ≡ bytes.old ++ line_feeds lines) }
    ensures front { take (length bytes.old) bytes.new ≡ bytes.old }
{
    for _line in 0..lines {
        bytes.push(LINE_FEED).map_err(|(_, error)| error)?;
    }
    Ok(())
}
