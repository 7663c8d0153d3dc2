//! Messages as the bytes that frame them by marks.
ghost use Rattle.std.specs.Prelude.{◌≡◌, ◌↔◌, ◌++◌, ◌≤◌, All, IfOk, IsTrue, None, OnOk, length};
ghost use Rattle.std.specs.List.{flat_map};
ghost use Rattle.com_text.specs.Text.{IsText};
ghost use Rattle.com_msg.specs.declared.framing.Framing.TheVariants.{Marks};
ghost use Rattle.com_msg.specs.Limits.{IsWithinLimits};
ghost use Rattle.com_lines.specs.Frames.{Frames, encoded, joined};

use crate::reading::MAX_MESSAGES;
use com_msg::{End, RawMessage};
use com_text::{Rows, Text};
use std::alloc::{AllocError, Global};

/// ESI, between two segments.
pub(crate) const BETWEEN: u8 = 0x17;
/// EMI, after the last segment of a message.
pub(crate) const MESSAGE_END: u8 = 0x03;
/// EGI, after the last segment of a message that ends its group.
pub(crate) const GROUP_END: u8 = 0x04;
/// LF, which may follow EMI and EGI.
pub(crate) const LINE_FEED: u8 = 0x0A;

/// Returns the bytes that frame the messages by marks, with LF after each message. Fails only if
/// memory runs out.
pub fn encode(alloc: Global, messages: &[RawMessage]) -> Result<Rows<u8>, AllocError>
    requires limits { All IsWithinLimits messages.now }
    ensures bytes { IfOk result (λ bytes. bytes ≡ flat_map encoded messages.now) }
    ensures framed { IfOk result (λ bytes.
        length messages.now ≤ MAX_MESSAGES → Frames Marks bytes messages.now None) }
{
    let mut bytes = Vec::new(alloc);
    for message in messages {
        add_message(message, &mut bytes)?;
    }
    Ok(Rows::of_vec(bytes))
}

/// Returns whether each message is within the limits and has a segment, as [`encode`] asks.
pub fn are_within_limits(messages: &[RawMessage]) -> bool
    ensures { IsTrue result ↔ All IsWithinLimits messages.now }
{
    messages.iter().all(|message| message.is_within_limits())
}

/// Adds the bytes of a message at the end.
fn add_message(message: &RawMessage, bytes: &mut Vec<u8>) -> Result<(), AllocError>
    ensures bytes { OnOk result (bytes.new.items ≡ bytes.old.items ++ encoded message.now) }
    ensures texts { OnOk result (All IsText message.now.segments) }
{
    add_segments(message.segments.as_slice(), bytes)?;
    let end = match message.end {
        End::Emi => MESSAGE_END,
        End::Egi => GROUP_END,
    };
    bytes.extend_from_slice(&[end, LINE_FEED])
}

/// Adds segments at the end, with ESI between them.
fn add_segments(segments: &[Text], bytes: &mut Vec<u8>) -> Result<(), AllocError>
    ensures bytes { OnOk result (bytes.new.items ≡ bytes.old.items ++ joined segments.now) }
    ensures texts { OnOk result (All IsText segments.now) }
{
    for (place, segment) in segments.iter().enumerate() {
        if place > 0 {
            bytes.extend_from_slice(&[BETWEEN])?;
        }
        bytes.extend_from_slice(segment.as_bytes())?;
    }
    Ok(())
}
