//! What a disk stands for, read again.
ghost use Rattle.std.specs.Prelude.{◌≡◌, ◌+◌, ◌-◌, ◌<◌, ◌≤◌, ◌^◌, ◌++◌, ◌∷◌, [], List, ℕ, length, All, false, IfOk, IfErr, IfSome, IsSome, IsNone, OnOk, IsErrOf, MatchResult};
ghost use Rattle.std.specs.Int.{to_be_bytes, w32};
ghost use Rattle.com_io.specs.Faults.{Rose};
ghost use Rattle.com_events.specs.declared.entry.Entry.{Entry as AnEntry};
ghost use Rattle.com_events.specs.Calls.{HasText};
ghost use Rattle.com_journal.specs.Versions.{IsVersion};
ghost use Rattle.com_disk.specs.Disks.{LeavesOnly};
ghost use Rattle.com_disk.specs.Logs.{Stands, IsAt, IsShut, IsLength, header, record_of, log_bytes};
ghost use Rattle.com_disk.specs.Refusals.{IsNoLog, IsNoRecord, IsHeaderless, Tells, IsOutside, IsFaultOr};
ghost use Rattle.com_disk.specs.inner.Reads.{HasRead, IsRecordOf, IsSplit, IsCut, TellsOf};

use crate::{Disk, DiskLog};
use com_events::Entry;
use com_io::Failed;
use com_journal::read_line;
use com_text::Rows;
use std::alloc::{AllocError, AllocFailed, Global};
use thiserror::Error;

/// How many bytes a read asks for.
const CHUNK: usize = 4_096;

/// How many bytes a header has.
const HEADER_LENGTH: u64 = 8;

/// Why nothing was recovered.
#[derive(Clone, Copy, Debug, PartialEq, Eq, Error)]
pub enum RecoverFault {
    /// The disk failed.
    #[error("the disk failed")]
    Failed,
    /// The disk is empty.
    #[error("the disk is empty")]
    Empty,
    /// The bytes stand for no entries, because of what is at this place.
    #[error("the disk holds no journal: see byte {at}")]
    NotJournal { at: u64 },
    /// Memory ran out.
    #[error("memory ran out")]
    Memory,
}

impl From<Failed> for RecoverFault {
    ghost use Rattle.com_disk.specs.declared.reading.RecoverFault.TheVariants.{Failed as HasFailed};

    ghost from_gives = { λ _ fault. fault ≡ HasFailed };

    fn from(_failed: Failed) -> RecoverFault {
        RecoverFault::Failed
    }
}

impl From<AllocError> for RecoverFault {
    ghost use Rattle.com_disk.specs.declared.reading.RecoverFault.TheVariants.{Memory};

    ghost from_gives = { λ _ fault. fault ≡ Memory };

    fn from(_error: AllocError) -> RecoverFault {
        RecoverFault::Memory
    }
}

/// Returns the log that the disk holds, and its entries. It begins with a sync, and adds no image.
pub fn recover<D: Disk>(alloc: Global, disk: &mut D) -> Result<(DiskLog, Rows<Entry>), RecoverFault>
    // what is recovered
    ensures at { IfOk result (λ found. D.told
        → IsAt D.content D.images found.0 disk.new found.1) }
    ensures texts { IfOk result (λ found. All HasText found.1) }
    ensures bytes { IfOk result (λ found. IsLength found.1 found.0.bytes) }
    ensures version { IfOk result (λ found. IsVersion found.0.version) }
    ensures usable { IfOk result (λ found. found.0.failed ≡ false) }

    // why nothing is recovered
    ensures refused { IfErr result (λ fault. D.told → Tells (D.content disk.old) fault) }
    ensures failed { IsErrOf result RecoverFault.Failed
        → Rose (D.faults disk.old) (D.faults disk.new) }
    ensures later { D.faults disk.old ≤ D.faults disk.new }

    // Each content is recovered, or told to be no log, unless the disk fails or memory runs out.
    ensures each_log { D.told → (version : ℕ) (entries : List AnEntry)
        → Stands (D.content disk.old) version entries
        → MatchResult result (λ found. (found.0.version ≡ version) × (found.1 ≡ entries))
        IsOutside }
    ensures each_empty { D.told → D.content disk.old ≡ []
        → MatchResult result (λ _. ⊥) (IsFaultOr RecoverFault.Empty) }
    ensures each_fault { D.told → (at : ℕ) → 1 ≤ length (D.content disk.old)
        → IsNoLog (D.content disk.old) at
        → MatchResult result (λ _. ⊥) (IsFaultOr (RecoverFault.NotJournal at)) }

    // the disk stays as it was
    ensures content { D.told → D.content disk.new ≡ D.content disk.old }
    ensures no_image { D.told → LeavesOnly D.moment D.since disk.old disk.new
        (D.images disk.old) }
{
    recover_log(alloc, disk)
}

/// Returns the log that the disk holds, and its entries.
fn recover_log<D: Disk>(alloc: Global, disk: &mut D) -> Result<(DiskLog, Rows<Entry>), RecoverFault>
    ensures at { IfOk result (λ found. D.told
        → IsAt D.content D.images found.0 disk.new found.1) }
    ensures texts { IfOk result (λ found. All HasText found.1) }
    ensures bytes { IfOk result (λ found. IsLength found.1 found.0.bytes) }
    ensures version { IfOk result (λ found. IsVersion found.0.version) }
    ensures usable { IfOk result (λ found. found.0.failed ≡ false) }
    ensures refused { IfErr result (λ fault. D.told → Tells (D.content disk.old) fault) }
    ensures failed { IsErrOf result RecoverFault.Failed
        → Rose (D.faults disk.old) (D.faults disk.new) }
    ensures later { D.faults disk.old ≤ D.faults disk.new }
    ensures content { D.told → D.content disk.new ≡ D.content disk.old }
    ensures no_image { D.told → LeavesOnly D.moment D.since disk.old disk.new
        (D.images disk.old) }
{
    disk.sync()?;
    let length = disk.len()?;
    if length == 0 {
        return Err(RecoverFault::Empty);
    }
    let bytes = read_all(alloc, disk, length)?;
    let found = entries_in(alloc, &bytes)?;
    Ok((DiskLog::new(found.version, found.end + 1), found.entries))
}

/// Returns all the bytes. A disk that reports nothing may read no byte below its length; what comes
/// before is returned then.
fn read_all<D: Disk>(alloc: Global, disk: &mut D, size: u64) -> Result<Vec<u8>, RecoverFault>
    requires { D.told → size ≡ length (D.content disk.old) }
    ensures bytes { IfOk result (λ bytes. D.told → bytes.items ≡ D.content disk.old) }
    ensures content { D.told → D.content disk.new ≡ D.content disk.old }
    ensures images { D.told → (c : List ℕ) → D.images disk.new c → D.images disk.old c }
    ensures no_image { D.told → LeavesOnly D.moment D.since disk.old disk.new
        (D.images disk.old) }
    ensures outside { IfErr result IsOutside }
    ensures failed { IsErrOf result RecoverFault.Failed
        → Rose (D.faults disk.old) (D.faults disk.new) }
    ensures later { D.faults disk.old ≤ D.faults disk.new }
{
    let mut bytes = Vec::new(alloc);
    let mut buffer = [0u8; CHUNK];
    while (bytes.len() as u64) < size {
        let room = (size as usize - bytes.len()).min(CHUNK);
        let chunk = &mut buffer[..room];
        let count = disk.read(bytes.len() as u64, chunk)?;
        if count == 0 {
            break;
        }
        bytes.extend_from_slice(&chunk[..count])?;
    }
    Ok(bytes)
}

/// What bytes stand for.
#[derive(Drop)]
struct Found {
    version: u8,
    entries: Rows<Entry>,
    /// The place of the closed gate.
    end: u64,
}

/// Returns the entries that the bytes stand for.
fn entries_in(alloc: Global, bytes: &[u8]) -> Result<Found, RecoverFault>
    ensures stands { IfOk result (λ found. Stands bytes.now found.version found.entries) }
    ensures length { IfOk result (λ found. IsLength found.entries (found.end + 1)) }
    ensures small { IfOk result (λ found. found.end < length bytes.now) }
    ensures header { IfOk result (λ found. 8 ≤ found.end) }
    ensures refused { IfErr result (TellsOf (IsNoLog bytes.now)) }
{
    let Some(after) = after_header(bytes) else {
        return Err(RecoverFault::NotJournal { at: 0 });
    };
    let version = 1;
    let mut rest = after;
    let mut entries = Rows::new(alloc);
    let mut end = HEADER_LENGTH;
    while let Some(record) = after_open_gate(rest) {
        let (entry, after) = next_entry(alloc, version, record, end)?;
        end += (rest.len() - after.len()) as u64;
        entries.push(entry).map_err(|(_, _)| RecoverFault::Memory)?;
        rest = after;
    }
    Ok(Found {
        version,
        entries,
        end,
    })
}

/// Returns what comes after the header, which is a gate at least. None exactly without one.
fn after_header(bytes: &[u8]) -> Option<&[u8]>
    ensures found { IfSome result (λ rest. bytes.now ≡ header 1 ++ rest.now) }
    ensures gate { IfSome result (λ rest. 1 ≤ length rest.now) }
    ensures none { IsNone result → IsHeaderless bytes.now }
{
    let rest = bytes.strip_prefix(b"MCSDISK1")?;
    if rest.is_empty() { None } else { Some(rest) }
}

/// Returns what comes after an open gate. None where the gate is closed.
fn after_open_gate(bytes: &[u8]) -> Option<&[u8]>
    ensures open_gate { IfSome result (λ rest. bytes.now ≡ 1 ∷ rest.now) }
    ensures shut { IsNone result → 1 ≤ length bytes.now → IsShut [] bytes.now }
{
    match bytes {
        [1, rest @ ..] => Some(rest),
        _ => None,
    }
}

/// Returns the entry of the record after the gate at this place, and what comes after the record.
fn next_entry<'a>(
    alloc: Global,
    version: u8,
    bytes: &'a [u8],
    at: u64,
) -> Result<(Entry, &'a [u8]), RecoverFault>
    requires { IsVersion version }
    ensures read { IfOk result (λ found. IsRecordOf bytes.now found.0 found.1.now) }
    ensures refused { IfErr result (TellsOf (λ place. (place ≡ at) × IsNoRecord bytes.now)) }
{
    let Some((line, after)) = split_record(bytes) else {
        return Err(RecoverFault::NotJournal { at });
    };
    match read_line(alloc, line, version)? {
        Some(entry) => Ok((entry, after)),
        None => Err(RecoverFault::NotJournal { at }),
    }
}

/// Returns the line of a record, and what comes after it, which is a gate at least. None exactly
/// where the record or the gate is cut.
fn split_record(bytes: &[u8]) -> Option<(&[u8], &[u8])>
    ensures found { IfSome result (λ found. IsSplit bytes.now found.0.now found.1.now) }
    ensures none { IsNone result → IsCut bytes.now }
{
    let (digits, rest) = bytes.split_first_chunk::<4>()?;
    let length = number_of(*digits) as usize;
    if rest.len() <= length {
        return None;
    }
    Some(rest.split_at(length))
}

/// Returns the number of four bytes, the most significant first.
fn number_of(digits: [u8; 4]) -> u32
    ensures { to_be_bytes w32 result ≡ digits }
{
    u32::from_be_bytes(digits)
}
