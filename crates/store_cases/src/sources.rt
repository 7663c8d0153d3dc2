//! Reading.
use crate::calls::name_of;
use case_lines::{Quoted, Words};
use com_io::{MemorySource, MemoryStore, Source, Store, read_file};
use std::alloc::{AllocError, Global};

/// Opens a file by its name, reads as often as there are sizes, and closes it.
pub fn open(
    alloc: Global,
    store: &mut MemoryStore,
    words: &mut Words<'_>,
) -> Result<String, AllocError> {
    let name = words.bytes();
    open_any(alloc, store, name_of(name), words)
}

/// Opens a file of any store, reads as often as there are sizes, and closes it.
fn open_any<S: Store>(
    alloc: Global,
    store: &mut S,
    name: &str,
    words: &mut Words<'_>,
) -> Result<String, AllocError> {
    match store.open(name) {
        Ok(mut source) => {
            let answer = reads(alloc, &mut source, words);
            store.close(source);
            answer
        }
        Err(fault) => format!(in alloc; "{fault:?}"),
    }
}

/// What a source gives, read as often as there are sizes: how many bytes, and the buffer after it.
fn reads<R: Source>(
    alloc: Global,
    source: &mut R,
    words: &mut Words<'_>,
) -> Result<String, AllocError> {
    let mut answer = String::new(alloc);
    for _read in 0..words.len() {
        let mut into = Vec::new(alloc);
        into.resize(words.number().min(100) as usize, b'.')?;
        match source.read(&mut into) {
            Ok(count) => write!(&mut answer, "{count} {} ", Quoted(&into))?,
            Err(fault) => write!(&mut answer, "{fault:?} {} ", Quoted(&into))?,
        }
    }
    Ok(answer)
}

/// Reads a source of its own: its bytes, the number of a read that fails, and the sizes.
pub fn source(alloc: Global, words: &mut Words<'_>) -> Result<String, AllocError> {
    let bytes = Vec::from_slice(alloc, words.bytes())?;
    let failing = Vec::from_slice(alloc, &[words.number()])?;
    reads(alloc, &mut MemorySource::new(bytes, failing), words)
}

/// Reads a file as a whole: its name, and the limit.
pub fn read(
    alloc: Global,
    store: &mut MemoryStore,
    words: &mut Words<'_>,
) -> Result<String, AllocError> {
    let name = words.bytes();
    match read_file(
        alloc,
        store,
        name_of(name),
        words.number().min(100_000) as usize,
    ) {
        Ok(bytes) => format!(in alloc; "{}", Quoted(&bytes)),
        Err(fault) => format!(in alloc; "{fault:?}"),
    }
}
