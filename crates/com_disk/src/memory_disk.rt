//! A disk in memory, which can be told to fail, and to crash.
ghost use Rattle.std.specs.Prelude.{◌≡◌, ◌+◌, ◌-◌, ◌≤◌, ◌<◌, ◌^◌, ◌↔◌, true, false, ◌∷◌, ◌++◌, [], ◌⊎◌, ℕ, List, length, take, min, IsTrue, IsOk, IsErr, is_err, IfOk, OnOk, OnErr};
ghost use Rattle.com_io.specs.Faults.{HasCause};
ghost use Rattle.com_disk.specs.Memory.{fresh, is_failing, with_failing, counted, image_of, state_at, IsImageOf};
ghost use Rattle.com_disk.specs.inner.Still.{IsStill, HasWritten, HasSynced};

use crate::written::{Written, crash_bytes, put_bytes, sync_all};
use crate::{Disk, DiskFault, Torn};
use com_io::Failed;
use std::alloc::{AllocError, Global};
use std::marker::Model;

/// A disk in memory. It keeps each write, with the numbers of its call and of the sync that made it
/// last. Calls are counted from 1. A call that answers Memory has changed nothing, and is not
/// counted; one that answers Failed has changed nothing but the counts.
#[derive(Drop)]
pub struct MemoryDisk {
    alloc: Global,
    /// What was on it at first.
    first: Vec<u8>,
    /// What a read gives.
    bytes: Vec<u8>,
    /// Each write that was done, in order.
    writes: Vec<Written>,
    /// How many calls there were.
    calls: u64,
    /// The numbers of the calls that fail, from 1.
    failing: Vec<u64>,
    /// How often it has failed.
    faults: u64,
}

impl Model for MemoryDisk {
    ghost use Rattle.com_disk.specs.Memory.{Memory};
    ghost use Rattle.com_disk.specs.inner.Still.{IsKept};

    ghost Value = { Memory };

    ghost view = { λ s. record {
      first = s.first.items;
      writes = s.writes.items;
      calls = s.calls;
      failing = s.failing.items;
      faults = s.faults;
    } };

    ghost invariant = { λ s. IsKept s.first.items s.bytes.items s.writes.items s.calls };
}

impl MemoryDisk {
    /// Makes an empty disk.
    pub fn new(alloc: Global) -> MemoryDisk
        ensures { result ≡ fresh [] }
    {
        MemoryDisk {
            alloc,
            first: Vec::new(alloc),
            bytes: Vec::new(alloc),
            writes: Vec::new(alloc),
            calls: 0,
            failing: Vec::new(alloc),
            faults: 0,
        }
    }

    /// Has the k-th call fail, counted from 1, whichever it is. Without memory nothing changes.
    pub fn fail(&mut self, k: u64) -> Result<(), AllocError>
        ensures ok { OnOk result (self.new ≡ with_failing k self.old) }
        ensures err { OnErr result (self.new ≡ self.old) }
    {
        self.failing.push(k)?;
        Ok(())
    }

    /// Returns how many calls there were.
    pub fn calls(&self) -> u64
        ensures { result ≡ self.now.calls }
    {
        self.calls
    }

    /// Returns an image of a crash after this many calls, as an unused disk without faults.
    pub fn crash(&self, after: u64, torn: Torn) -> Result<MemoryDisk, AllocError>
        requires { after ≤ self.now.calls }
        ensures disk { IfOk result (λ disk. disk
            ≡ fresh (image_of torn (state_at self.now.first self.now.writes after))) }
        ensures image { IfOk result (λ disk.
            IsImageOf (state_at self.now.first self.now.writes after) disk.first) }
    {
        let first = crash_bytes(self.alloc, &self.first, &self.writes, after, torn)?;
        let bytes = first.as_slice().to_vec(self.alloc)?;
        Ok(MemoryDisk {
            alloc: self.alloc,
            first,
            bytes,
            writes: Vec::new(self.alloc),
            calls: 0,
            failing: Vec::new(self.alloc),
            faults: 0,
        })
    }

    /// Returns whether the next call fails.
    fn next_fails(&self) -> bool
        ensures fails { result ≡ is_failing self.now }
        ensures room { result ≡ false → self.now.calls < 2 ^ 64 - 1 }
    {
        let number = self.calls.saturating_add(1);
        self.calls == u64::MAX || self.failing.contains(&number)
    }

    /// Counts a call that changes nothing else.
    fn count(&mut self, failed: bool)
        ensures after { self.new ≡ counted failed self.old }
        ensures still { IsStill self.old self.new }
        ensures cause { HasCause self.old.faults self.new.faults (failed ≡ false) (failed ≡ true) }
    {
        self.calls = self.calls.saturating_add(1);
        if failed {
            self.faults = self.faults.saturating_add(1);
        }
    }

    /// Counts a call that changes nothing else, and answers Failed if it fails.
    fn begin(&mut self) -> Result<(), Failed>
        ensures fails { IsErr result ↔ IsTrue (is_failing self.old) }
        ensures after { self.new ≡ counted (is_err result) self.old }
        ensures still { IsStill self.old self.new }
        ensures cause { HasCause self.old.faults self.new.faults (IsOk result) (IsErr result) }
    {
        let failed = self.next_fails();
        self.count(failed);
        if failed {
            return Err(Failed);
        }
        Ok(())
    }

    /// Keeps a write. Without memory nothing changes.
    fn keep(&mut self, at: usize, bytes: &[u8]) -> Result<(), AllocError>
        requires { self.old.calls < 2 ^ 64 - 1 }
        ensures ok { OnOk result (HasWritten at bytes.now self.old self.new) }
        ensures err { OnErr result (self.new ≡ self.old) }
    {
        let next = put_bytes(self.alloc, &self.bytes, at, bytes)?;
        let kept = Vec::from_slice(self.alloc, bytes)?;
        self.writes.push(Written {
            call: self.calls + 1,
            at,
            bytes: kept,
            synced: None,
        })?;
        self.calls += 1;
        self.bytes = next;
        Ok(())
    }

    /// Makes each write last.
    fn settle(&mut self)
        requires { self.old.calls < 2 ^ 64 - 1 }
        ensures { HasSynced self.old self.new }
    {
        self.calls += 1;
        sync_all(&mut self.writes, self.calls);
    }
}

impl Disk for MemoryDisk {
    ghost use Rattle.com_disk.specs.Memory.{content_of, state_of, IsImageOf, HadImage};
    ghost use Rattle.com_disk.specs.inner.MemoryLaws.{content_is_image as content_image, had_now, had_only};

    ghost told = { Unit {0} };

    ghost content = { λ m. content_of (state_of m) };

    ghost images = { λ m. IsImageOf (state_of m) };

    ghost moment = { λ m. m.calls };

    ghost since = { HadImage };

    ghost faults = { λ m. m.faults };

    ghost content_is_image = { λ m told. content_image (state_of m) };

    ghost counts_now = { λ m t c told le now. had_now m t c le now };

    ghost only_now = { λ m c told had. had_only m c had };

    fn len(&mut self) -> Result<u64, Failed> {
        self.begin()?;
        Ok(self.bytes.len() as u64)
    }

    fn read(&mut self, at: u64, into: &mut [u8]) -> Result<usize, Failed> {
        self.begin()?;
        let start = (at as usize).min(self.bytes.len());
        Ok(copy_front(&self.bytes[start..], into))
    }

    fn write_at(&mut self, at: u64, bytes: &[u8]) -> Result<(), DiskFault> {
        if self.next_fails() {
            self.count(true);
            return Err(DiskFault::Failed);
        }
        self.keep(at as usize, bytes)?;
        Ok(())
    }

    fn sync(&mut self) -> Result<(), Failed> {
        if self.next_fails() {
            self.count(true);
            return Err(Failed);
        }
        self.settle();
        Ok(())
    }
}

/// Copies to the front of `into` as many bytes as there are and fit, and returns how many.
fn copy_front(from: &[u8], into: &mut [u8]) -> usize
    ensures count { result ≡ min (length from.now) (length into.old) }
    ensures front { take result into.new ≡ take result from.now }
{
    let count = from.len().min(into.len());
    into[..count].copy_from_slice(&from[..count]);
    count
}
