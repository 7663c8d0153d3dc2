//! A store in memory, which can be told to fail. It tells all that it holds.
ghost use Rattle.std.specs.Prelude.{◌≡◌, ◌+◌, ◌≤◌, ◌↔◌, ◌⊎◌, length, map, is_some, IsSome, IsTrue, IfOk, OnOk, OnErr, IsErrOf};
ghost use Rattle.std.specs.Option.{option_copied};
ghost use Rattle.std.specs.FinMap as finite;
ghost use Rattle.com_io.specs.Shelf.{empty_shelf, with_file, with_failing_open, with_failing_write, with_failing_read, is_failing_open, after_open, IsNewReading, after_close, next_keep, with_write, after_write};
ghost use Rattle.com_io.specs.Stores.{openings, opened_name, outs_with_output, writings, writing_asked};
ghost use Rattle.com_io.specs.Kept.{call_of};

use crate::adapter::is_standard_output;
use crate::named::Named;
use crate::{MemorySource, Store, StoreFault};
use std::alloc::{AllocError, Global};
use std::marker::Model;

/// A call that was made on the store.
#[derive(Debug, Drop)]
enum Call {
    /// The opening of a name, and whether it answered Ok.
    Opened {
        name: String,
        ok: bool,
    },
    /// The closing of a source: how many bytes it had left, and whether a read of it had failed.
    Closed {
        left: usize,
        failed: bool,
    },
    /// The write of some bytes under a name, and whether it answered Ok.
    Wrote {
        name: String,
        bytes: Vec<u8>,
        ok: bool,
    },
}

impl Call {
    /// Tells an opening.
    fn is_opening(&self) -> bool
        ensures { result ≡ is_some (opened_name (call_of self.now)) }
    {
        matches!(self, Call::Opened { .. })
    }

    /// Tells a write.
    fn is_write(&self) -> bool
        ensures { result ≡ is_some (writing_asked (call_of self.now)) }
    {
        matches!(self, Call::Wrote { .. })
    }
}

/// A write that fails, by its number, and how many bytes it writes before.
#[derive(Clone, Copy, Debug, PartialEq, Eq)]
struct FailingWrite {
    /// The number of the write, from 1.
    number: u64,
    /// How many bytes it writes before it fails.
    keep: usize,
}

/// Files and what is written, in memory. Openings, writes, and the reads of each source are counted
/// from 1; a call that answers `Memory` has changed nothing, and is not counted.
#[derive(Debug)]
pub struct MemoryStore {
    alloc: Global,
    /// The files that can be opened.
    files: Named<u8>,
    /// What was written.
    outs: Named<u8>,
    /// Each call, in order.
    calls: Vec<Call>,
    /// How many sources are open.
    pending: usize,
    /// How often an opening has failed.
    open_faults: u64,
    /// How many closed sources had failed.
    read_faults: u64,
    /// How often a write has failed.
    write_faults: u64,
    /// The numbers of the openings that fail, from 1.
    failing_opens: Vec<u64>,
    failing_writes: Vec<FailingWrite>,
    /// For each name, the numbers of the reads that fail, from 1.
    failing_reads: Named<u64>,
}

impl Model for MemoryStore {
    ghost use Rattle.std.specs.Prelude.{◌+◌, ◌≤◌, map, vec_len, vec_capacity};
    ghost use Rattle.com_io.specs.Shelf.{Shelf};
    ghost use Rattle.com_io.specs.Codes.{shelf_code};
    ghost use Rattle.com_io.specs.Kept.{call_of};

    ghost Value = { Shelf };

    ghost coded = { shelf_code };

    ghost view = { λ s. record {
      held = record {
        files = s.files;
        outs = s.outs;
        calls = map call_of s.calls.items;
      };
      pending = s.pending;
      open_faults = s.open_faults;
      read_faults = s.read_faults;
      write_faults = s.write_faults;
      failing_opens = s.failing_opens.items;
      failing_writes = s.failing_writes.items;
      failing_reads = s.failing_reads;
    } };

    // There is room for the closing of each open source.
    ghost invariant = { λ s. s.pending + vec_len s.calls ≤ vec_capacity s.calls };
}

/// By hand, so that a proof has one step for it, where it would have one for each field.
impl Drop for MemoryStore {
    fn drop(self) {
        let MemoryStore {
            alloc: _,
            files: _,
            outs: _,
            calls: _,
            pending: _,
            open_faults: _,
            read_faults: _,
            write_faults: _,
            failing_opens: _,
            failing_writes: _,
            failing_reads: _,
        } = self;
    }
}

impl MemoryStore {
    /// An empty store.
    pub fn new(alloc: Global) -> Self
        ensures { result ≡ empty_shelf }
    {
        MemoryStore {
            alloc,
            files: Named::new(alloc),
            outs: Named::new(alloc),
            calls: Vec::new(alloc),
            pending: 0,
            open_faults: 0,
            read_faults: 0,
            write_faults: 0,
            failing_opens: Vec::new(alloc),
            failing_writes: Vec::new(alloc),
            failing_reads: Named::new(alloc),
        }
    }

    /// Adds a file that can be opened, in place of one of the name. Without memory nothing
    /// changes.
    pub fn put(&mut self, name: &str, bytes: &[u8]) -> Result<(), AllocError>
        ensures ok { OnOk result (self.new ≡ with_file name.now bytes.now self.old) }
        ensures err { OnErr result (self.new ≡ self.old) }
    {
        self.files.insert(self.alloc, name, bytes)
    }

    /// Has the k-th opening fail, counted from 1. Without memory nothing changes.
    pub fn fail_open(&mut self, k: u64) -> Result<(), AllocError>
        ensures ok { OnOk result (self.new ≡ with_failing_open k self.old) }
        ensures err { OnErr result (self.new ≡ self.old) }
    {
        self.failing_opens.push(k)?;
        Ok(())
    }

    /// Has the k-th write, counted from 1, fail after so many of its bytes. The first listing of a
    /// number holds. Without memory nothing changes.
    pub fn fail_write(&mut self, k: u64, keep: usize) -> Result<(), AllocError>
        ensures ok { OnOk result (self.new ≡ with_failing_write k keep self.old) }
        ensures err { OnErr result (self.new ≡ self.old) }
    {
        self.failing_writes.push(FailingWrite { number: k, keep })?;
        Ok(())
    }

    /// Has the k-th read, counted from 1, of each source that is opened under the name fail.
    /// Without memory nothing changes.
    pub fn fail_read(&mut self, name: &str, k: u64) -> Result<(), AllocError>
        ensures ok { OnOk result (self.new ≡ with_failing_read name.now k self.old) }
        ensures err { OnErr result (self.new ≡ self.old) }
    {
        self.failing_reads.append(self.alloc, name, &[k])
    }

    /// What was written under the name: None where nothing was.
    pub fn out(&self, name: &str) -> Option<&[u8]>
        ensures { option_copied result ≡ finite.get self.now.held.outs name.now }
    {
        self.outs.get(name)
    }

    /// The number of the next opening, from 1.
    fn next_opening(&self) -> u64
        ensures { result ≡ length (openings self.now.held.calls) + 1 }
    {
        openings_in(self.calls.as_slice()) as u64 + 1
    }

    /// The number of the next write, from 1.
    fn next_writing(&self) -> u64
        ensures { result ≡ length (writings self.now.held.calls) + 1 }
    {
        writes_in(self.calls.as_slice()) as u64 + 1
    }

    /// Whether the next opening of the name fails.
    fn is_failing_open(&self, name: &str) -> bool
        ensures { result ≡ is_failing_open name.now self.now }
    {
        let number = self.next_opening();
        self.failing_opens.contains(&number) || self.files.get(name).is_none()
    }

    /// How many bytes the next write writes before it fails, if it does.
    fn next_keep(&self) -> Option<usize>
        ensures { result ≡ next_keep self.now }
    {
        let number = self.next_writing();
        let write = self.failing_writes.iter().find(|f| f.number == number)?;
        Some(write.keep)
    }

    /// Writes a part of the bytes of a write, and keeps the call. Without memory nothing changes.
    fn add_write(
        &mut self,
        name: &str,
        bytes: &[u8],
        part: &[u8],
        ok: bool,
    ) -> Result<(), AllocError>
        ensures ok { OnOk result (self.new
            ≡ with_write name.now bytes.now part.now ok self.old) }
        ensures err { OnErr result (self.new ≡ self.old) }
    {
        let write = Call::Wrote {
            name: String::from_str(self.alloc, name)?,
            bytes: Vec::from_slice(self.alloc, bytes)?,
            ok,
        };
        // Room for this call, and for the closing of each open source.
        self.calls.reserve(self.pending + 1)?;
        write_out(self.alloc, &mut self.outs, name, part)?;
        self.calls.push(write).unwrap();
        Ok(())
    }

    /// A source of the file of the name.
    fn new_source(&self, name: &str) -> Result<MemorySource, AllocError>
        requires { IsSome (finite.get self.now.held.files name.now) }
        ensures { IfOk result (IsNewReading name.now self.now) }
    {
        let bytes = self.files.copy_of(self.alloc, name)?;
        let failing = self.failing_reads.copy_of(self.alloc, name)?;
        Ok(MemorySource::new(
            bytes.unwrap_or(Vec::new(self.alloc)),
            failing.unwrap_or(Vec::new(self.alloc)),
        ))
    }
}

/// How many of some calls are openings.
#[tactic(auto, using(crate::proofs::Counting::openings_counted))]
fn openings_in(calls: &[Call]) -> usize
    ensures count { result ≡ length (openings (map call_of calls.now)) }
    ensures bound { result ≤ length calls.now }
{
    calls.iter().filter(|call| call.is_opening()).count()
}

/// How many of some calls are writes.
#[tactic(auto, using(crate::proofs::Counting::writings_counted))]
fn writes_in(calls: &[Call]) -> usize
    ensures count { result ≡ length (writings (map call_of calls.now)) }
    ensures bound { result ≤ length calls.now }
{
    calls.iter().filter(|call| call.is_write()).count()
}

/// Adds the bytes to what stands under the name, if it is standard output's, or puts them there.
fn write_out(
    alloc: Global,
    outs: &mut Named<u8>,
    name: &str,
    bytes: &[u8],
) -> Result<(), AllocError>
    ensures ok { OnOk result (outs.new ≡ outs_with_output name.now bytes.now outs.old) }
    ensures err { OnErr result (outs.new ≡ outs.old) }
{
    if is_standard_output(name) {
        outs.append(alloc, name, bytes)
    } else {
        outs.insert(alloc, name, bytes)
    }
}

impl Store for MemoryStore {
    ghost use Rattle.std.specs.Prelude.{Some};

    type Src = MemorySource;

    ghost shows = { λ s. record {
      contents = Some s.held;
      pending = s.pending;
      open_faults = s.open_faults;
      read_faults = s.read_faults;
      write_faults = s.write_faults;
    } };

    /// With memory it fails exactly where it is listed, or where there is no such file. Without
    /// memory nothing changes.
    fn open(&mut self, name: &str) -> Result<MemorySource, StoreFault>
        ensures fails { IsErrOf result StoreFault.Memory
            ⊎ (IsErrOf result StoreFault.Failed ↔ IsTrue (is_failing_open name.now self.old)) }
        ensures after { self.new ≡ after_open name.now result self.old }
        ensures opened { IfOk result (IsNewReading name.now self.old) }
    {
        let ok = !self.is_failing_open(name);
        let opening = Call::Opened {
            name: String::from_str(self.alloc, name)?,
            ok,
        };
        // Room for this call, and for the closing of each source that is open behind it.
        self.calls.reserve(self.pending + 2)?;
        if !ok {
            self.calls.push(opening).unwrap();
            self.open_faults = self.open_faults.saturating_add(1);
            return Err(StoreFault::Failed);
        }
        let source = self.new_source(name)?;
        self.calls.push(opening).unwrap();
        self.pending += 1;
        Ok(source)
    }

    /// Keeps how the source was closed, and counts it where a read of it had failed.
    fn close(&mut self, source: MemorySource)
        requires { 1 ≤ self.old.pending }
        ensures { self.new ≡ after_close source self.old }
    {
        let failed = source.faults() > 0;
        if failed {
            self.read_faults = self.read_faults.saturating_add(1);
        }
        let left = source.left_len();
        // There is room for it since the opening.
        self.calls.push(Call::Closed { left, failed }).unwrap();
        self.pending -= 1;
    }

    /// With memory it fails exactly where it is listed, and has then written the bytes that it
    /// keeps. Without memory nothing changes.
    fn write(&mut self, name: &str, bytes: &[u8]) -> Result<(), StoreFault>
        ensures fails { IsErrOf result StoreFault.Memory
            ⊎ (IsErrOf result StoreFault.Failed ↔ IsSome (next_keep self.old)) }
        ensures after { self.new ≡ after_write name.now bytes.now result self.old }
    {
        let Some(keep) = self.next_keep() else {
            return Ok(self.add_write(name, bytes, bytes, true)?);
        };
        self.add_write(name, bytes, &bytes[..keep.min(bytes.len())], false)?;
        self.write_faults = self.write_faults.saturating_add(1);
        Err(StoreFault::Failed)
    }
}
