//! A file as a disk.
ghost use Rattle.std.specs.Prelude.{◌≡◌, List, ℕ, [], IsOk, IsErr, IfOk, Ok};
ghost use Rattle.std.specs.Io.{ReadsAtMost};
ghost use Rattle.com_io.specs.Faults.{HasCause};

use crate::{Disk, DiskFault};
use com_io::Failed;
use std::fs::{self, Files, OpenFile, OpenOptions};
use std::io::{self, Read, Seek, SeekFrom, Write};
use std::path::Path;

/// A file as a disk. The first call opens it, or makes it. It reports nothing of what it holds.
#[derive(Drop)]
pub struct FileDisk<'a, R: Files> {
    rt: R,
    name: &'a str,
    /// The file, once it is open.
    file: Option<R::File>,
    /// How often it has failed.
    faults: u64,
}

impl<'a, R: Files> FileDisk<'a, R> {
    /// Makes a disk of the file of this name. Nothing is opened yet.
    pub fn new(rt: R, name: &'a str) -> Self
        ensures { result.faults ≡ 0 }
    {
        FileDisk {
            rt,
            name,
            file: None,
            faults: 0,
        }
    }
}

impl<R: Files> Disk for FileDisk<'_, R> {
    ghost told = { ⊥ };

    ghost content = { λ _. [] };

    ghost images = { λ _ _. ⊥ };

    ghost moment = { λ _. 0 };

    ghost since = { λ _ _ _. ⊥ };

    ghost faults = { λ disk. disk.faults };

    ghost content_is_image = { λ _ told. absurd told };

    ghost counts_now = { λ _ _ _ told _ _. absurd told };

    ghost only_now = { λ _ _ told _. absurd told };

    fn len(&mut self) -> Result<u64, Failed> {
        let answer = length(&self.rt, self.name, &mut self.file);
        counted(&mut self.faults, answer)
    }

    fn read(&mut self, at: u64, into: &mut [u8]) -> Result<usize, Failed> {
        let answer = read_from(&self.rt, self.name, &mut self.file, at, into);
        counted(&mut self.faults, answer)
    }

    fn write_at(&mut self, at: u64, bytes: &[u8]) -> Result<(), DiskFault> {
        let answer = write_to(&self.rt, self.name, &mut self.file, at, bytes);
        counted(&mut self.faults, answer)?;
        Ok(())
    }

    fn sync(&mut self) -> Result<(), Failed> {
        let answer = sync_file(&self.rt, self.name, &mut self.file);
        counted(&mut self.faults, answer)
    }
}

/// Returns the answer, and counts a failure.
fn counted<T>(faults: &mut u64, answer: io::Result<T>) -> Result<T, Failed>
    ensures value { IfOk result (λ value. answer ≡ Ok value) }
    ensures cause { HasCause faults.old faults.new (IsOk result) (IsErr result) }
{
    match answer {
        Ok(value) => Ok(value),
        Err(_) => {
            *faults = faults.saturating_add(1);
            Err(Failed)
        }
    }
}

/// Returns the file, and opens or makes it first if it is not open. Its name lasts then: its folder
/// is synced.
fn opened<'f, R: Files>(
    rt: &R,
    name: &str,
    file: &'f mut Option<R::File>,
) -> io::Result<&'f mut R::File> {
    if file.is_none() {
        let made = OpenOptions::new()
            .read(true)
            .write(true)
            .create(true)
            .open(rt, name)?;
        fs::open(rt, folder_of(name))?.sync_all()?;
        *file = Some(made);
    }
    match file {
        Some(file) => Ok(file),
        None => Err(io::ErrorKind::NotFound.into()),
    }
}

/// Returns the folder that a file of this name is in.
fn folder_of(name: &str) -> &str {
    match Path::new(name).parent() {
        Some(folder) if !folder.as_str().is_empty() => folder.as_str(),
        _ => ".",
    }
}

fn length<R: Files>(rt: &R, name: &str, file: &mut Option<R::File>) -> io::Result<u64> {
    Ok(opened(rt, name, file)?.metadata()?.len())
}

fn read_from<R: Files>(
    rt: &R,
    name: &str,
    file: &mut Option<R::File>,
    at: u64,
    into: &mut [u8],
) -> io::Result<usize>
    ensures { ReadsAtMost result into.new }
{
    let file = opened(rt, name, file)?;
    file.seek(SeekFrom::Start(at))?;
    file.read(into)
}

fn write_to<R: Files>(
    rt: &R,
    name: &str,
    file: &mut Option<R::File>,
    at: u64,
    bytes: &[u8],
) -> io::Result<()> {
    let file = opened(rt, name, file)?;
    file.seek(SeekFrom::Start(at))?;
    file.write_all(bytes)
}

/// Makes the file's bytes last, and its length.
fn sync_file<R: Files>(rt: &R, name: &str, file: &mut Option<R::File>) -> io::Result<()> {
    opened(rt, name, file)?.sync_data()
}
