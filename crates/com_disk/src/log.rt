//! A log on a disk, begun and added to.
ghost use Rattle.std.specs.Prelude.{◌≡◌, ◌+◌, ◌-◌, ◌<◌, ◌≤◌, ◌^◌, ◌++◌, [], ◌∷◌, List, ℕ, length, false, true, IfOk, OnOk, IsErrOf};
ghost use Rattle.com_io.specs.Faults.{Rose};
ghost use Rattle.com_events.specs.declared.entry.Entry.{Entry as AnEntry};
ghost use Rattle.com_events.specs.Calls.{HasText};
ghost use Rattle.com_journal.specs.Lines.{IsLine};
ghost use Rattle.com_journal.specs.Versions.{IsVersion};
ghost use Rattle.com_disk.specs.Disks.{LeavesOnly};
ghost use Rattle.com_disk.specs.Logs.{IsShut, Stands, record_of, IsBeforeOrAfter, IsAt};
ghost use Rattle.com_disk.specs.inner.Shut.{IsShutAt, IsShutOrLonger};

use crate::{Disk, DiskFault, DiskLog};
use com_events::Entry;
use com_journal::entry_line;
use std::alloc::{AllocError, Global};

/// Begins a log without entries on an empty disk.
pub fn create<D: Disk>(disk: &mut D, version: u8) -> Result<DiskLog, DiskFault>
    requires version { IsVersion version }
    requires empty { D.told → D.content disk.old ≡ [] }

    // the log
    ensures at { IfOk result (λ log. D.told → IsAt D.content D.images log disk.new []) }
    ensures version { IfOk result (λ log. log.version ≡ version) }
    ensures bytes { IfOk result (λ log. log.bytes ≡ 9) }
    ensures usable { IfOk result (λ log. log.failed ≡ false) }

    // why it fails
    ensures failed { IsErrOf result DiskFault.Failed
        → Rose (D.faults disk.old) (D.faults disk.new) }
    ensures later { D.faults disk.old ≤ D.faults disk.new }
{
    let header = [b'M', b'C', b'S', b'D', b'I', b'S', b'K', 48 + version, 0];
    disk.write_at(0, &header)?;
    disk.sync()?;
    Ok(DiskLog::new(version, 9))
}

/// Adds an entry. Ok acknowledges it: from then on every image has it.
pub fn append<D: Disk>(
    alloc: Global,
    log: &mut DiskLog,
    disk: &mut D,
    entry: &Entry,
) -> Result<(), DiskFault>
    requires at { D.told → (entries : List AnEntry)
        × IsAt D.content D.images log.old disk.old entries }
    requires usable { log.old.failed ≡ false }
    requires text { HasText entry.now }
    requires room { (line : List ℕ) → IsLine entry.now line
        → log.old.bytes + (length line + 5) < 2 ^ 62 }

    // what is acknowledged
    ensures at { OnOk result (D.told → (entries : List AnEntry)
        → IsAt D.content D.images log.old disk.old entries
        → IsAt D.content D.images log.new disk.new (entries ++ entry.now ∷ [])) }
    ensures bytes { OnOk result ((line : List ℕ) → IsLine entry.now line
        → log.new.bytes ≡ log.old.bytes + (length line + 5)) }
    ensures version { log.new.version ≡ log.old.version }
    ensures usable { OnOk result (log.new.failed ≡ false) }

    // without memory
    ensures memory { IsErrOf result DiskFault.Memory → log.new ≡ log.old }
    ensures still { IsErrOf result DiskFault.Memory → D.told → (entries : List AnEntry)
        → IsAt D.content D.images log.old disk.old entries
        → IsAt D.content D.images log.new disk.new entries }

    // a crash at any moment of the call
    ensures any_moment { D.told → (entries : List AnEntry)
        → IsAt D.content D.images log.old disk.old entries
        → LeavesOnly D.moment D.since disk.old disk.new
        (IsBeforeOrAfter log.old.version entries entry.now) }
    ensures no_moment { IsErrOf result DiskFault.Memory → D.told → (entries : List AnEntry)
        → IsAt D.content D.images log.old disk.old entries
        → LeavesOnly D.moment D.since disk.old disk.new
        (λ c. Stands c log.old.version entries) }

    // why it fails
    ensures failed { IsErrOf result DiskFault.Failed
        → Rose (D.faults disk.old) (D.faults disk.new) }
    ensures failed_for_good { IsErrOf result DiskFault.Failed → log.new.failed ≡ true }
    ensures later { D.faults disk.old ≤ D.faults disk.new }
{
    let line = entry_line(alloc, entry, log.version())?;
    append_line(alloc, log, disk, line.as_slice())
}

/// Adds a line.
fn append_line<D: Disk>(
    alloc: Global,
    log: &mut DiskLog,
    disk: &mut D,
    line: &[u8],
) -> Result<(), DiskFault>
    requires usable { log.old.failed ≡ false }
    requires short { length line.now < 2 ^ 32 }
    requires room { log.old.bytes + (length line.now + 5) < 2 ^ 62 }
    requires gate { D.told → log.old.bytes ≤ length (D.content disk.old) }

    // what is on the disk
    ensures at { OnOk result (D.told → (front : List ℕ)
        → IsShutAt D.content D.images (log.old.bytes - 1) disk.old front
        → IsShutAt D.content D.images (log.new.bytes - 1) disk.new
        (front ++ 1 ∷ record_of line.now)) }
    ensures still { IsErrOf result DiskFault.Memory → D.told → (front : List ℕ)
        → IsShutAt D.content D.images (log.old.bytes - 1) disk.old front
        → IsShutAt D.content D.images (log.old.bytes - 1) disk.new front }

    // what is known of the log
    ensures bytes { OnOk result (log.new.bytes ≡ log.old.bytes + (length line.now + 5)) }
    ensures version { log.new.version ≡ log.old.version }
    ensures usable { OnOk result (log.new.failed ≡ false) }
    ensures memory { IsErrOf result DiskFault.Memory → log.new ≡ log.old }

    // a crash at any moment of the call
    ensures any_moment { D.told → (front : List ℕ)
        → IsShutAt D.content D.images (log.old.bytes - 1) disk.old front
        → LeavesOnly D.moment D.since disk.old disk.new
        (IsShutOrLonger front (record_of line.now)) }
    ensures no_moment { IsErrOf result DiskFault.Memory → D.told → (front : List ℕ)
        → IsShutAt D.content D.images (log.old.bytes - 1) disk.old front
        → LeavesOnly D.moment D.since disk.old disk.new (IsShut front) }

    // why it fails
    ensures failed { IsErrOf result DiskFault.Failed
        → Rose (D.faults disk.old) (D.faults disk.new) }
    ensures failed_for_good { IsErrOf result DiskFault.Failed → log.new.failed ≡ true }
    ensures later { D.faults disk.old ≤ D.faults disk.new }
{
    let gated = gated_record(alloc, line)?;
    let gate = log.bytes() - 1;
    match write_record(disk, gate, &gated) {
        Ok(()) => {
            log.grow(gated.len() as u64 - 1);
            Ok(())
        }
        Err(DiskFault::Memory) => Err(DiskFault::Memory),
        Err(DiskFault::Failed) => {
            log.fail();
            Err(DiskFault::Failed)
        }
    }
}

/// Returns an open gate, the record of a line, and a closed gate.
fn gated_record(alloc: Global, line: &[u8]) -> Result<Vec<u8>, AllocError>
    requires { length line.now < 2 ^ 32 }
    ensures { IfOk result (λ bytes. bytes.items ≡ 1 ∷ (record_of line.now ++ 0 ∷ [])) }
{
    let mut bytes = Vec::new(alloc);
    let length = line.len() as u32;
    bytes.push(1)?;
    bytes.extend_from_slice(&length.to_be_bytes())?;
    bytes.extend_from_slice(line)?;
    bytes.push(0)?;
    Ok(bytes)
}

/// Writes a record and a closed gate after a closed gate, and opens that gate once they are on the
/// disk. The bytes begin with the open gate.
fn write_record<D: Disk>(disk: &mut D, gate: u64, gated: &[u8]) -> Result<(), DiskFault>
    requires some { 1 ≤ length gated.now }
    requires room { gate + length gated.now < 2 ^ 63 }
    requires gate { D.told → gate < length (D.content disk.old) }

    // what is on the disk
    ensures opened { OnOk result (D.told → (front bare : List ℕ)
        → gated.now ≡ 1 ∷ (bare ++ 0 ∷ [])
        → IsShutAt D.content D.images gate disk.old front
        → IsShutAt D.content D.images (gate + (length bare + 1)) disk.new (front ++ 1 ∷ bare)) }
    ensures still { IsErrOf result DiskFault.Memory → D.told → (front : List ℕ)
        → IsShutAt D.content D.images gate disk.old front
        → IsShutAt D.content D.images gate disk.new front }

    // a crash at any moment of the call
    ensures any_moment { D.told → (front bare : List ℕ)
        → gated.now ≡ 1 ∷ (bare ++ 0 ∷ [])
        → IsShutAt D.content D.images gate disk.old front
        → LeavesOnly D.moment D.since disk.old disk.new (IsShutOrLonger front bare) }
    ensures no_moment { IsErrOf result DiskFault.Memory → D.told → (front : List ℕ)
        → IsShutAt D.content D.images gate disk.old front
        → LeavesOnly D.moment D.since disk.old disk.new (IsShut front) }

    // why it fails
    ensures failed { IsErrOf result DiskFault.Failed
        → Rose (D.faults disk.old) (D.faults disk.new) }
    ensures later { D.faults disk.old ≤ D.faults disk.new }
{
    let (gate_byte, tail) = gated.split_at(1);
    disk.write_at(gate + 1, tail)?;
    disk.sync()?;
    disk.write_at(gate, gate_byte)?;
    disk.sync()?;
    Ok(())
}
