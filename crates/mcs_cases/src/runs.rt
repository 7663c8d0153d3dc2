//! Whole commands over the files of the current folder.
use com_io::DirStore;
use mcs_top::tool;
use std::alloc::AllocError;
use std::str;

/// The exit status of the command of these words.
pub fn run(rt: &HostRuntime, words: &[Vec<u8>]) -> Result<String, AllocError> {
    let alloc = rt.alloc();
    let mut command = Vec::new(alloc);
    for word in words {
        let word = str::from_utf8(word).unwrap_or("");
        command.push(String::from_str(alloc, word)?)?;
    }
    let status = tool(alloc, &command, &mut DirStore::new(rt));
    format!(in alloc; "{status}")
}
