//! The calls of a store in memory, but for those that read.
use case_lines::{Quoted, Words};
use com_io::{MemoryStore, Store, StoreFault};
use std::alloc::{AllocError, Global};
use std::str;

/// The bytes as a name, which is empty where they are no text.
pub fn name_of(bytes: &[u8]) -> &str {
    str::from_utf8(bytes).unwrap_or("")
}

/// Adds a file: a name and its bytes.
pub fn put(
    alloc: Global,
    store: &mut MemoryStore,
    words: &mut Words<'_>,
) -> Result<String, AllocError> {
    let name = words.bytes();
    store.put(name_of(name), words.bytes())?;
    String::from_str(alloc, "Ok")
}

/// Has an opening fail, by its number.
pub fn fail_open(
    alloc: Global,
    store: &mut MemoryStore,
    words: &mut Words<'_>,
) -> Result<String, AllocError> {
    store.fail_open(words.number())?;
    String::from_str(alloc, "Ok")
}

/// Has a read fail: the name of a file, and the read's number.
pub fn fail_read(
    alloc: Global,
    store: &mut MemoryStore,
    words: &mut Words<'_>,
) -> Result<String, AllocError> {
    let name = words.bytes();
    store.fail_read(name_of(name), words.number())?;
    String::from_str(alloc, "Ok")
}

/// Has a write fail: its number, and how many bytes it keeps.
pub fn fail_write(
    alloc: Global,
    store: &mut MemoryStore,
    words: &mut Words<'_>,
) -> Result<String, AllocError> {
    let number = words.number();
    store.fail_write(number, words.number() as usize)?;
    String::from_str(alloc, "Ok")
}

/// Writes: a name and its bytes.
pub fn write(
    alloc: Global,
    store: &mut MemoryStore,
    words: &mut Words<'_>,
) -> Result<String, AllocError> {
    let name = words.bytes();
    match written(store, name_of(name), words.bytes()) {
        Ok(()) => String::from_str(alloc, "Ok"),
        Err(fault) => format!(in alloc; "{fault:?}"),
    }
}

/// Writes to any store.
fn written<S: Store>(store: &mut S, name: &str, bytes: &[u8]) -> Result<(), StoreFault> {
    store.write(name, bytes)
}

/// What was written under a name.
pub fn out(
    alloc: Global,
    store: &MemoryStore,
    words: &mut Words<'_>,
) -> Result<String, AllocError> {
    match store.out(name_of(words.bytes())) {
        Some(bytes) => format!(in alloc; "{}", Quoted(bytes)),
        None => String::from_str(alloc, "None"),
    }
}
