//! Commands over a store in memory.
use case_lines::Words;
use com_io::{DirStore, MemoryStore, ReadFault, read_file};
use mcs_top::tool;
use std::alloc::{AllocError, Global};
use std::str;

/// More bytes than any file of the folder has.
const LIMIT: usize = 1_000_000;

/// The name of a script that a case writes out.
const SCRIPT: &[u8] = b"script";

/// A file that was put.
#[derive(Drop)]
struct File {
    name: Vec<u8>,
    bytes: Vec<u8>,
}

/// The files that were put, the last behind.
#[derive(Drop)]
pub struct Files {
    alloc: Global,
    files: Vec<File>,
}

impl Files {
    /// No files.
    pub fn new(alloc: Global) -> Files {
        Files {
            alloc,
            files: Vec::new(alloc),
        }
    }

    /// Puts a file: its name, and runs of bytes, each with how often it is repeated.
    pub fn put(&mut self, words: &mut Words<'_>) -> Result<String, AllocError> {
        let name = Vec::from_slice(self.alloc, words.bytes())?;
        let mut bytes = Vec::new(self.alloc);
        for _run in 0..words.len() / 2 {
            let run = words.bytes();
            for _time in 0..words.number() {
                bytes.extend_from_slice(run)?;
            }
        }
        let count = bytes.len();
        self.files.push(File { name, bytes })?;
        format!(in self.alloc; "{count} bytes")
    }

    /// Puts a file of the folder under another name. A file that cannot be read has no bytes.
    pub fn put_file(
        &mut self,
        rt: &HostRuntime,
        name: &[u8],
        file: &[u8],
    ) -> Result<String, AllocError> {
        let name = Vec::from_slice(self.alloc, name)?;
        let bytes = match read_file(self.alloc, &mut DirStore::new(rt), text_of(file), LIMIT) {
            Ok(bytes) => bytes,
            Err(ReadFault::Memory) => return Err(AllocError),
            Err(_) => Vec::new(self.alloc),
        };
        let count = bytes.len();
        self.files.push(File { name, bytes })?;
        format!(in self.alloc; "{count} bytes")
    }

    /// Puts a script of these lines.
    pub fn put_script(&mut self, lines: &[Vec<u8>]) -> Result<(), AllocError> {
        let mut bytes = Vec::from_slice(self.alloc, b"MCS-SCRIPT 1\n")?;
        for line in lines {
            bytes.extend_from_slice(line)?;
            bytes.push(b'\n')?;
        }
        let name = Vec::from_slice(self.alloc, SCRIPT)?;
        self.files.push(File { name, bytes })?;
        Ok(())
    }

    /// A store of the files that are named: those that were put, and else those of the folder.
    pub fn store_of(&self, rt: &HostRuntime, names: &[Vec<u8>]) -> Result<MemoryStore, AllocError> {
        let mut store = MemoryStore::new(self.alloc);
        for name in names {
            let file = text_of(name);
            match self.bytes_of(name) {
                Some(bytes) => store.put(file, bytes)?,
                None => copy(rt, file, &mut store)?,
            }
        }
        Ok(store)
    }

    /// The bytes of the last file of a name.
    fn bytes_of(&self, name: &[u8]) -> Option<&[u8]> {
        let mut found = None;
        for file in &self.files {
            if file.name.as_slice() == name {
                found = Some(file.bytes.as_slice());
            }
        }
        found
    }
}

/// Copies a file of the folder, where there is one.
fn copy(rt: &HostRuntime, name: &str, store: &mut MemoryStore) -> Result<(), AllocError> {
    match read_file(rt.alloc(), &mut DirStore::new(rt), name, LIMIT) {
        Ok(bytes) => store.put(name, &bytes),
        Err(ReadFault::Memory) => Err(AllocError),
        Err(_) => Ok(()),
    }
}

/// The words that replay the script that a case writes out.
pub fn replay_of(alloc: Global, description: &[u8]) -> Result<Vec<Vec<u8>>, AllocError> {
    let mut words = Vec::new(alloc);
    for word in [b"replay".as_slice(), description, SCRIPT] {
        words.push(Vec::from_slice(alloc, word)?)?;
    }
    Ok(words)
}

/// The words that check a description, which is the first of these names.
pub fn check_of(alloc: Global, names: &[Vec<u8>]) -> Result<Vec<Vec<u8>>, AllocError> {
    let mut words = Vec::new(alloc);
    words.push(Vec::from_slice(alloc, b"check")?)?;
    if let Some(description) = names.first() {
        words.push(Vec::from_slice(alloc, description)?)?;
    }
    Ok(words)
}

/// The exit status of the command of these words over a store.
pub fn tool_of(
    alloc: Global,
    words: &[Vec<u8>],
    store: &mut MemoryStore,
) -> Result<u8, AllocError> {
    let mut command = Vec::new(alloc);
    for word in words {
        command.push(String::from_str(alloc, text_of(word))?)?;
    }
    Ok(tool(alloc, &command, store))
}

/// The bytes as a text, which is empty where they are none.
fn text_of(bytes: &[u8]) -> &str {
    str::from_utf8(bytes).unwrap_or("")
}
