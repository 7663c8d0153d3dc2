//! What a command wrote, by the name.
use case_lines::Quoted;
use com_io::MemoryStore;
use std::alloc::{AllocError, Global};
use std::str;

/// What was written under a name.
fn out_of<'a>(store: &'a MemoryStore, name: &[u8]) -> Option<&'a [u8]> {
    store.out(str::from_utf8(name).unwrap_or(""))
}

/// The bytes that were written under a name, in quotes.
pub fn bytes(alloc: Global, store: &MemoryStore, name: &[u8]) -> Result<String, AllocError> {
    match out_of(store, name) {
        Some(bytes) => format!(in alloc; "{}", Quoted(bytes)),
        None => String::from_str(alloc, "None"),
    }
}

/// The lines that were written under a name, one below the other.
pub fn text(alloc: Global, store: &MemoryStore, name: &[u8]) -> Result<String, AllocError> {
    let mut answer = String::from_str(alloc, "text")?;
    let bytes = out_of(store, name).unwrap_or(b"");
    for line in str::from_utf8(bytes).unwrap_or("").lines() {
        answer.push_str("\n  ")?;
        answer.push_str(line)?;
    }
    Ok(answer)
}

/// How many bytes were written under a name, and their sum.
pub fn totals(alloc: Global, store: &MemoryStore, name: &[u8]) -> Result<String, AllocError> {
    let bytes = out_of(store, name).unwrap_or(b"");
    let mut sum = 0u64;
    for byte in bytes {
        sum = sum.saturating_add(u64::from(*byte));
    }
    format!(in alloc; "{} bytes with the sum {sum}", bytes.len())
}
