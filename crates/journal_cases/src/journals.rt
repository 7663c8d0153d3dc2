//! Journals and scripts.
use crate::calls::of_party;
use case_lines::Quoted;
use com_events::{Entry, Reply};
use com_journal::{JournalError, write};
use std::alloc::{AllocError, Global};

/// Returns the calls of a script, or its fault.
pub fn read_calls(alloc: Global, bytes: &[u8]) -> Result<String, AllocError> {
    match com_journal::read_calls(alloc, bytes) {
        Ok(calls) => {
            let mut out = format!(in alloc; "{} calls:", calls.as_slice().len())?;
            let mut between = " ";
            for (party, call) in calls.as_slice() {
                let call = of_party(alloc, party, call)?;
                out.push_str(between)?;
                out.push_str(&call)?;
                between = "; ";
            }
            Ok(out)
        }
        Err(error) => fault(alloc, error),
    }
}

/// Returns the entries of a journal, or its fault.
pub fn read(alloc: Global, bytes: &[u8]) -> Result<String, AllocError> {
    match com_journal::read(alloc, bytes) {
        Ok(entries) => all_of(alloc, entries.as_slice()),
        Err(error) => fault(alloc, error),
    }
}

/// Returns the replies of the journal with this line, or its fault.
pub fn read_entry(alloc: Global, line: &[u8]) -> Result<String, AllocError> {
    let mut bytes = Vec::from_slice(alloc, b"MCS-JOURNAL 1\n")?;
    bytes.extend_from_slice(line)?;
    bytes.extend_from_slice(b"\n")?;
    match com_journal::read(alloc, &bytes) {
        Ok(entries) => replies(alloc, entries.as_slice()),
        Err(error) => fault(alloc, error),
    }
}

/// Returns a journal, read and written again.
pub fn read_and_write(alloc: Global, bytes: &[u8]) -> Result<String, AllocError> {
    match com_journal::read(alloc, bytes) {
        Ok(entries) => {
            let again = write(alloc, entries.as_slice())?;
            if again.as_slice() == bytes {
                String::from_str(alloc, "the same")
            } else {
                format!(in alloc; "{}", Quoted(again.as_slice()))
            }
        }
        Err(error) => fault(alloc, error),
    }
}

fn fault(alloc: Global, error: JournalError) -> Result<String, AllocError> {
    match error {
        JournalError::Refused(fault) => {
            format!(in alloc; "{:?} at line {}", fault.kind, fault.line)
        }
        JournalError::Memory(error) => Err(error),
    }
}

/// Returns the calls of entries with their parties, and their replies.
fn all_of(alloc: Global, entries: &[Entry]) -> Result<String, AllocError> {
    let mut out = format!(in alloc; "{} entries:", entries.len())?;
    let mut between = " ";
    for entry in entries {
        let call = of_party(alloc, &entry.party, &entry.call)?;
        let reply = reply(alloc, &entry.reply)?;
        let entry = format!(in alloc; "{between}{call} = {reply}")?;
        out.push_str(&entry)?;
        between = "; ";
    }
    Ok(out)
}

fn replies(alloc: Global, entries: &[Entry]) -> Result<String, AllocError> {
    let mut out = String::new(alloc);
    for entry in entries {
        let reply = reply(alloc, &entry.reply)?;
        out.push_str(&reply)?;
    }
    Ok(out)
}

fn reply(alloc: Global, reply: &Reply) -> Result<String, AllocError> {
    match reply {
        Reply::Started { names: None } => String::from_str(alloc, "Started"),
        Reply::Started { names: Some(names) } => format!(in alloc; "Started {}", Quoted(names)),
        Reply::Waits => String::from_str(alloc, "Waits"),
        Reply::Arrived { number } => format!(in alloc; "Arrived {number}"),
        Reply::Done => String::from_str(alloc, "Done"),
        _ => with_area(alloc, reply),
    }
}

fn with_area(alloc: Global, reply: &Reply) -> Result<String, AllocError> {
    match reply {
        Reply::Given { area, text } => {
            format!(in alloc;
                "Given {} {}",
                Quoted(area.as_bytes()),
                Quoted(text.as_bytes())
            )
        }
        Reply::NoData { area } => format!(in alloc; "NoData {}", Quoted(area.as_bytes())),
        Reply::Refused { area } => format!(in alloc; "Refused {}", Quoted(area.as_bytes())),
        Reply::AreaIn { area } => format!(in alloc; "AreaIn {}", Quoted(area.as_bytes())),
        Reply::AreaOut { area } => format!(in alloc; "AreaOut {}", Quoted(area.as_bytes())),
        _ => String::from_str(alloc, "?"),
    }
}
