//! The text of one call.
use case_lines::Quoted;
use com_cd::{InArea, OutArea};
use com_events::{Call, Party};
use com_journal::call_line as read_line;
use com_msg::{Part, RawMessage, Stamp};
use com_text::Text;
use std::alloc::{AllocError, Global};

/// Returns the call of a line, with its parts.
pub fn call_line(alloc: Global, line: &[u8]) -> Result<String, AllocError> {
    match read_line(alloc, line)? {
        Some((party, call)) => of_party(alloc, &party, &call),
        None => String::from_str(alloc, "None"),
    }
}

/// Returns a call with its parts, after its party.
pub fn of_party(alloc: Global, party: &Party, call: &Call) -> Result<String, AllocError> {
    let call = shown(alloc, call)?;
    match party {
        Party::Unit(name) => format!(in alloc; "unit {}: {}", name.as_str(), call),
        Party::Terminal(name) => format!(in alloc; "terminal {}: {}", name.as_str(), call),
    }
}

/// Returns a call with its parts.
fn shown(alloc: Global, call: &Call) -> Result<String, AllocError> {
    match call {
        Call::Start => String::from_str(alloc, "Start"),
        Call::Held => String::from_str(alloc, "Held"),
        Call::Stop { reason } => format!(in alloc; "Stop {reason:?}"),
        Call::Finish { reason } => format!(in alloc; "Finish {reason:?}"),
        Call::Arrive { stamp, message } => arrival(alloc, stamp, message),
        _ => with_area(alloc, call),
    }
}

fn with_area(alloc: Global, call: &Call) -> Result<String, AllocError> {
    match call {
        Call::Receive {
            area,
            kind,
            size,
            no_data,
        } => {
            let area = input(alloc, area)?;
            format!(in alloc; "Receive {kind:?} {size} no_data={no_data} {area}")
        }
        Call::Count { area } => {
            let area = input(alloc, area)?;
            format!(in alloc; "Count {area}")
        }
        Call::Send { area, part, from } => sending(alloc, area, *part, from),
        _ => switch(alloc, call),
    }
}

fn switch(alloc: Global, call: &Call) -> Result<String, AllocError> {
    match call {
        Call::SwitchInput {
            on,
            terminal,
            area,
            key,
        } => {
            let area = input(alloc, area)?;
            let key = key.as_bytes();
            format!(in alloc;
                "SwitchInput on={on} terminal={terminal} {} {area}",
                Quoted(key)
            )
        }
        Call::SwitchOutput { on, area, key } => {
            let area = output(alloc, area)?;
            format!(in alloc; "SwitchOutput on={on} {} {area}", Quoted(key.as_bytes()))
        }
        _ => String::from_str(alloc, "?"),
    }
}

fn input(alloc: Global, area: &InArea) -> Result<String, AllocError> {
    format!(in alloc; "{}", Quoted(area.as_bytes()))
}

fn output(alloc: Global, area: &OutArea) -> Result<String, AllocError> {
    format!(in alloc; "{}", Quoted(area.as_bytes()))
}

fn sending(
    alloc: Global,
    area: &OutArea,
    part: Part,
    item: &Option<Text>,
) -> Result<String, AllocError> {
    let area = output(alloc, area)?;
    match item {
        Some(item) => format!(in alloc; "Send {part:?} {} {area}", Quoted(item.as_bytes())),
        None => format!(in alloc; "Send {part:?} - {area}"),
    }
}

fn arrival(alloc: Global, stamp: &Stamp, message: &RawMessage) -> Result<String, AllocError> {
    let mut out = format!(in alloc;
        "Arrive {} {} {:?}",
        Quoted(stamp.date()),
        Quoted(stamp.time()),
        message.end
    )?;
    for segment in message.segments.as_slice() {
        let shown = format!(in alloc; " {}", Quoted(segment.as_bytes()))?;
        out.push_str(&shown)?;
    }
    Ok(out)
}
