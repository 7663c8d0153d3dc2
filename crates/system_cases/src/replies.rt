//! Replies and transcripts as they are printed.
ghost use Rattle.std.specs.List.{All};
ghost use Rattle.com_msg.specs.Rendering.{IsRenderable};

use case_lines::Quoted;
use com_events::Reply;
use com_lines::render;
use com_msg::OutMessage;
use com_text::Rows;
use std::alloc::{AllocError, Global};

/// Adds a reply.
pub fn add_reply(alloc: Global, reply: &Reply, out: &mut String) -> Result<(), AllocError> {
    match reply {
        Reply::Started { names: None } => out.push_str("started"),
        Reply::Started { names: Some(names) } => add(alloc, "started", names, out),
        Reply::Waits => out.push_str("waits"),
        Reply::Arrived { number } => {
            let shown = format!(in alloc; "arrived {number}")?;
            out.push_str(&shown)
        }
        Reply::Done => out.push_str("done"),
        Reply::Given { area, text } => {
            add(alloc, "given", area.as_bytes(), out)?;
            add(alloc, "", text.as_bytes(), out)
        }
        _ => add_area(alloc, reply, out),
    }
}

/// Adds a reply that is an area alone.
fn add_area(alloc: Global, reply: &Reply, out: &mut String) -> Result<(), AllocError> {
    match reply {
        Reply::NoData { area } => add(alloc, "no data", area.as_bytes(), out),
        Reply::Refused { area } => add(alloc, "refused", area.as_bytes(), out),
        Reply::AreaIn { area } => add(alloc, "area", area.as_bytes(), out),
        Reply::AreaOut { area } => add(alloc, "area", area.as_bytes(), out),
        _ => Ok(()),
    }
}

/// Adds a word and bytes.
fn add(alloc: Global, word: &str, bytes: &[u8], out: &mut String) -> Result<(), AllocError> {
    let shown = format!(in alloc; "{word} {}", Quoted(bytes))?;
    out.push_str(&shown)
}

/// Adds the bytes that these messages are at the terminal.
pub fn add_transcript(
    alloc: Global,
    messages: &[OutMessage],
    out: &mut String,
) -> Result<(), AllocError>
    requires { All IsRenderable messages.now }
{
    let mut bytes = Rows::new(alloc);
    for message in messages {
        render(message, &mut bytes)?;
    }
    add(alloc, "transmitted", bytes.as_slice(), out)
}
