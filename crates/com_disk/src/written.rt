//! A write that a disk in memory keeps, and what a crash leaves of such writes.
ghost use Rattle.std.specs.Prelude.{◌≡◌, ◌+◌, ◌-◌, ◌<◌, ◌≤◌, ◌&&◌, not, List, map, length, take, drop, IfOk, Some, None};
ghost use Rattle.com_disk.specs.Memory.{put, place, is_made, is_by, is_lasting, state_at, image_of};
ghost use Rattle.com_disk.specs.inner.Still.{torn_put, synced_by};

use crate::Torn;
use std::alloc::{AllocError, Global};

/// A write that was done.
#[derive(Debug, Drop)]
pub struct Written {
    /// The number of its call, from 1.
    pub(crate) call: u64,
    /// Where it begins.
    pub(crate) at: usize,
    /// Its bytes.
    pub(crate) bytes: Vec<u8>,
    /// The number of the sync that made it last.
    pub(crate) synced: Option<u64>,
}

impl Written {
    /// Returns whether a sync among this many calls made it last.
    fn is_lasting(&self, calls: u64) -> bool
        ensures { result ≡ is_lasting calls self.now }
    {
        match self.synced {
            Some(sync) => sync <= calls,
            None => false,
        }
    }

    /// Makes it last by this sync, if it does not last yet.
    fn sync_by(&mut self, sync: u64)
        ensures { self.new ≡ synced_by sync self.old }
    {
        self.synced = self.synced.or(Some(sync));
    }

    /// Returns whether it was made among this many calls, and does not last yet.
    fn is_pending(&self, calls: u64) -> bool
        ensures { result ≡ (is_made calls self.now && not (is_lasting calls self.now)) }
    {
        self.call <= calls && !self.is_lasting(calls)
    }
}

/// Returns the bytes with others at a place, which is at most their end.
pub(crate) fn put_bytes(
    alloc: Global,
    old: &[u8],
    at: usize,
    bytes: &[u8],
) -> Result<Vec<u8>, AllocError>
    ensures { IfOk result (λ new. new.items ≡ put old.now (place old.now at) bytes.now) }
{
    let at = at.min(old.len());
    let mut new = old[..at].to_vec(alloc)?;
    new.extend_from_slice(bytes)?;
    if bytes.len() < old.len() - at {
        new.extend_from_slice(&old[at + bytes.len()..])?;
    }
    Ok(new)
}

/// Returns as many bytes 01.
fn ones(alloc: Global, bytes: &[u8]) -> Result<Vec<u8>, AllocError>
    ensures { IfOk result (λ new. new.items ≡ map (λ _. 1) bytes.now) }
{
    let mut ones = Vec::new(alloc);
    for _ in bytes {
        ones.push(1)?;
    }
    Ok(ones)
}

/// Returns what a crash leaves of bytes with a write that is pending.
fn torn_bytes(alloc: Global, old: &[u8], write: &Written, torn: Torn) -> Result<Vec<u8>, AllocError>
    ensures { IfOk result (λ new. new.items
        ≡ torn_put torn old.now write.now.at write.now.bytes.items) }
{
    match torn {
        Torn::Old => old.to_vec(alloc),
        Torn::New => put_bytes(alloc, old, write.at, &write.bytes),
        Torn::Ones => {
            let ones = ones(alloc, &write.bytes)?;
            put_bytes(alloc, old, write.at, &ones)
        }
    }
}

/// Returns what lasts of writes after this many calls.
fn lasting_bytes(
    alloc: Global,
    first: &[u8],
    writes: &[Written],
    calls: u64,
) -> Result<Vec<u8>, AllocError>
    ensures { IfOk result (λ base. base.items ≡ (state_at first.now writes.now calls).base) }
{
    let mut base = first.to_vec(alloc)?;
    for write in writes {
        if write.is_lasting(calls) {
            base = put_bytes(alloc, &base, write.at, &write.bytes)?;
        }
    }
    Ok(base)
}

/// Returns what a crash after this many calls leaves.
pub(crate) fn crash_bytes(
    alloc: Global,
    first: &[u8],
    writes: &[Written],
    calls: u64,
    torn: Torn,
) -> Result<Vec<u8>, AllocError>
    ensures { IfOk result (λ image. image.items
        ≡ image_of torn (state_at first.now writes.now calls)) }
{
    let mut image = lasting_bytes(alloc, first, writes, calls)?;
    for write in writes {
        if write.is_pending(calls) {
            image = torn_bytes(alloc, &image, write, torn)?;
        }
    }
    Ok(image)
}

/// Makes each write last by this sync, if it does not last yet.
pub(crate) fn sync_all(writes: &mut [Written], sync: u64)
    ensures { writes.new ≡ map (synced_by sync) writes.old }
{
    for write in writes.iter_mut() {
        write.sync_by(sync);
    }
}
