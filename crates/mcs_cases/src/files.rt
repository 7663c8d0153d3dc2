//! Files of the current folder.
use case_lines::Quoted;
use com_io::{DirStore, Source, Store, read_file};
use std::alloc::AllocError;
use std::str;

/// More bytes than any file of a case has.
const LIMIT: usize = 1_000_000;

/// Writes the bytes so many times over under the name, in one write.
pub fn write(
    rt: &HostRuntime,
    name: &[u8],
    bytes: &[u8],
    times: u64,
) -> Result<String, AllocError> {
    let alloc = rt.alloc();
    let mut all = Vec::new(alloc);
    for _ in 0..times {
        all.extend_from_slice(bytes)?;
    }
    let mut store = DirStore::new(rt);
    match store.write(text_of(name), &all) {
        Ok(()) => format!(in alloc; "{} bytes", all.len()),
        Err(fault) => format!(in alloc; "{fault}"),
    }
}

/// What the file of the name has.
pub fn read(rt: &HostRuntime, name: &[u8]) -> Result<String, AllocError> {
    let alloc = rt.alloc();
    match read_file(alloc, &mut DirStore::new(rt), text_of(name), LIMIT) {
        Ok(bytes) => format!(in alloc; "{}", Quoted(&bytes)),
        Err(fault) => format!(in alloc; "{fault}"),
    }
}

/// How many bytes the file of the name has, read four at a time, and the sum of these bytes.
pub fn read_by_four(rt: &HostRuntime, name: &[u8]) -> Result<String, AllocError> {
    let alloc = rt.alloc();
    let mut store = DirStore::new(rt);
    let Ok(mut source) = store.open(text_of(name)) else {
        return String::from_str(alloc, "not opened");
    };
    let (count, sum) = totals(&mut source);
    store.close(source);
    format!(in alloc; "{count} bytes with the sum {sum}")
}

/// How many bytes a source gives before its end or a failure, and their sum.
fn totals<S: Source>(source: &mut S) -> (u64, u64) {
    let mut count = 0u64;
    let mut sum = 0u64;
    let mut into = [0; 4];
    for _ in 0..LIMIT {
        let Ok(read) = source.read(&mut into) else {
            break;
        };
        if read == 0 {
            break;
        }
        for byte in &into[..read] {
            count = count.saturating_add(1);
            sum = sum.saturating_add(u64::from(*byte));
        }
    }
    (count, sum)
}

/// The bytes as a name, which is empty where they are no text.
fn text_of(bytes: &[u8]) -> &str {
    str::from_utf8(bytes).unwrap_or("")
}
